// Case and plan.
ghost use Rattle.std.specs.Prelude.{◌≡◌};
ghost use Rattle.case.specs.law.Judged.{judged_case};
ghost use Rattle.plan.specs.law.Judged.{totals_told, judge_of};
ghost use Rattle.plan.specs.law.JudgedBytes.{bytes_judged};
ghost use Rattle.gasplan.specs.law.Out.{code_of, out_of, if_room};
ghost use Rattle.gasplan.specs.inside.Fits.{nothing_told, nothing_fits, totals_fit};

use super::tell::{Values, front, tell};
use plan::totals::Totals;

// Is the list a case? Each exported function looks at its own `out`, which C lends, before anything is computed or written: that test stands in each.
// Two wrong answers that the promise rules out: 0 for every list, and a refusal with step and place swapped.
#[tactic(auto, using(crate::proofs::Fitting::case_told_fits))]
#[unsafe(no_mangle)]
pub extern "C" fn gasplan_case(case: &[i64], out: &mut [i64]) -> i64
    ensures value { result ≡ code_of out.old (judged_case case.now) }
    ensures out_after { out.new ≡ out_of out.old (judged_case case.now) }
{
    if out.len() < 6 {
        return -1;
    }
    tell(out, case::judge::judge_case(case))
}

// The verdict on a plan for a case. The values of an accepted plan are the six totals in document 01's order.
#[tactic(auto, using(crate::proofs::Fitting::judge_told_fits))]
#[unsafe(no_mangle)]
pub extern "C" fn gasplan_judge(case: &[i64], plan: &[i64], out: &mut [i64]) -> i64
    ensures value { result ≡ code_of out.old (judge_of case.now plan.now) }
    ensures out_after { out.new ≡ out_of out.old (judge_of case.now plan.now) }
{
    if out.len() < 6 {
        return -1;
    }
    tell(out, plan::judge::judge(case, plan))
}

// The verdict on two byte strings, which are read into the two lists.
#[tactic(auto, using(crate::proofs::Fitting::bytes_told_fits))]
#[unsafe(no_mangle)]
pub extern "C" fn gasplan_judge_bytes(
    casebytes: &[u8],
    planbytes: &[u8],
    caselist: &mut [i64],
    planlist: &mut [i64],
    out: &mut [i64],
) -> i64
    ensures value { result ≡ code_of out.old
        (bytes_judged casebytes.now planbytes.now caselist.old planlist.old).told }
    ensures out_after { out.new ≡ out_of out.old
        (bytes_judged casebytes.now planbytes.now caselist.old planlist.old).told }
    ensures caselist_after { caselist.new ≡ if_room out.old
        (bytes_judged casebytes.now planbytes.now caselist.old planlist.old).case_list
        caselist.old }
    ensures planlist_after { planlist.new ≡ if_room out.old
        (bytes_judged casebytes.now planbytes.now caselist.old planlist.old).plan_list
        planlist.old }
{
    if out.len() < 6 {
        return -1;
    }
    let verdict = plan::judge::judge_bytes(casebytes, planbytes, caselist, planlist);
    tell(out, verdict)
}

impl Values for () {
    ghost told = { nothing_told };

    ghost fits = { nothing_fits };

    fn put(self, _out: &mut [i64]) {}
}

impl Values for Totals {
    ghost told = { totals_told };

    ghost fits = { totals_fit };

    fn put(self, out: &mut [i64]) {
        front(
            out,
            &[
                self.pressure,
                self.demand,
                self.switching as i64,
                self.residual as i64,
                self.opening,
                self.closing,
            ],
        );
    }
}
