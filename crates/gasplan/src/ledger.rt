// A region's figures.
ghost use Rattle.std.specs.Prelude.{◌≡◌};
ghost use Rattle.plan.specs.law.Ledger.{figures_told, ledger_of};
ghost use Rattle.gasplan.specs.law.Out.{code_of, out_of};
ghost use Rattle.gasplan.specs.inside.Fits.{figures_fit};

use super::tell::{Values, front, tell};
use plan::figures::Figures;

// The values are nodes, inner pipes, gas at s, gas at t, gas brought in and residual. Of the ledger's answer the plan crate promises the balance too.
// Two wrong answers that the promise rules out: six zeros, and gas at t where gas at s belongs.
#[tactic(auto, using(crate::proofs::Fitting::ledger_told_fits))]
#[unsafe(no_mangle)]
pub extern "C" fn gasplan_ledger(
    case: &[i64],
    plan: &[i64],
    set: i64,
    s: i64,
    t: i64,
    out: &mut [i64],
) -> i64
    ensures value { result ≡ code_of out.old (ledger_of case.now plan.now set s t) }
    ensures out_after { out.new ≡ out_of out.old (ledger_of case.now plan.now set s t) }
{
    if out.len() < 6 {
        return -1;
    }
    tell(out, plan::ledger::ledger(case, plan, set, s, t))
}

impl Values for Figures {
    ghost told = { figures_told };

    ghost fits = { figures_fit };

    fn put(self, out: &mut [i64]) {
        front(
            out,
            &[
                self.nodes as i64,
                self.pipes as i64,
                self.opening,
                self.closing,
                self.brought,
                self.residual as i64,
            ],
        );
    }
}
