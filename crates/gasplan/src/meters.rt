// Two meters at a border point.
ghost use Rattle.std.specs.Prelude.{◌≡◌};
ghost use Rattle.settlement.specs.law.Settling.{settlement_values, settle_of};
ghost use Rattle.gasplan.specs.law.Out.{code_of, out_of};
ghost use Rattle.gasplan.specs.inside.Fits.{settlement_fit};

use super::tell::{Values, front, tell};
use settlement::figures::Figures;

// The values are the settled total and the counts agreed, cut to the smaller, only sender, only receiver.
// Two wrong answers that the promise rules out: the counts of the two records exchanged, and a sixth value in `out`.
#[tactic(auto, using(crate::proofs::Fitting::settle_told_fits))]
#[unsafe(no_mangle)]
pub extern "C" fn gasplan_settle(
    sender: &[i64],
    receiver: &[i64],
    agreed: i64,
    out: &mut [i64],
) -> i64
    ensures value { result ≡ code_of out.old (settle_of sender.now receiver.now agreed) }
    ensures out_after { out.new ≡ out_of out.old (settle_of sender.now receiver.now agreed) }
{
    if out.len() < 6 {
        return -1;
    }
    tell(out, settlement::settle(sender, receiver, agreed))
}

impl Values for Figures {
    ghost told = { settlement_values };

    ghost fits = { settlement_fit };

    fn put(self, out: &mut [i64]) {
        let agreed = self.agreed as i64;
        let cut = self.cut as i64;
        let sender = self.sender as i64;
        let receiver = self.receiver as i64;
        front(out, &[self.total, agreed, cut, sender, receiver]);
    }
}
