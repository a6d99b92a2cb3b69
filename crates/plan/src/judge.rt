// The verdict on a case list and a plan list, and on two byte strings.
ghost use Rattle.std.specs.Prelude.{◌≡◌, ◌&&◌, ◌<◌, ◌^◌, pos, length};
ghost use Rattle.case.specs.law.Layout.{number_at};
ghost use Rattle.plan.specs.law.Compared.{same};
ghost use Rattle.numbers.specs.law.Question.{first_no, found};
ghost use Rattle.numbers.specs.law.Told.{overlay};
ghost use Rattle.numbers.specs.law.Reading.{read_of};
ghost use Rattle.plan.specs.law.PlanHead.{head_kept, HeadLaid};
ghost use Rattle.plan.specs.law.Totals.{totals_of};
ghost use Rattle.plan.specs.law.Judged.{plan_questions, verdict_told, judge_of};
ghost use Rattle.plan.specs.law.JudgedBytes.{plan_number, bytes_judged};
ghost use Rattle.plan.specs.inside.VerdictLaws.{plan_bytes_told, case_list_told, plan_list_after};

use super::accepted::Accepted;
use super::verdict::Verdict;
use case::judge::judge_and_lay;
use case::records::Laying;
use numbers::answer::{No, ask};
use numbers::compare::{at, same};
use numbers::reader::read;

// The first two numbers of 20: the edition, and the count of steps.
#[tactic(auto, using(crate::proofs::Asked::questions))]
fn head_numbers(plan: &[i64], steps: usize) -> bool
    requires { steps < 2 ^ 63 }
    ensures { result ≡ (same (number_at plan.now 0) (pos 1) && same (number_at plan.now 1) (pos steps)) }
{
    same(at(plan, 0), 1) && same(at(plan, 1), steps as i64)
}

impl Accepted<'_> {
    // 20
    #[tactic(auto, using(crate::proofs::CaseFacts::few, crate::specs::inside::RegionLoop::parts_near, crate::specs::inside::VerdictLaws::head_told))]
    fn head_kept(&self, plan: &[i64]) -> bool
        ensures { result ≡ head_kept self.now.list.now plan.now }
    {
        let steps = self.layout.steps;
        head_numbers(plan, steps) && plan.len() == 2 + steps * self.step_width()
    }

    // 20 and the steps, for a case that was accepted before the plan bytes were read.
    #[tactic(auto, using(crate::specs::inside::VerdictLaws::plan_judged))]
    fn judge_plan(&self, plan: &[i64]) -> Verdict
        ensures { result ≡ found (first_no (plan_questions self.now.list.now plan.now))
            (totals_of self.now.list.now plan.now) }
    {
        ask(self.head_kept(plan), 20, 0, 0)?;
        self.steps(plan)
    }

    // The plan bytes, for a case that has been accepted.
    fn judge_plan_bytes(&self, planbytes: &[u8], planlist: &mut [i64]) -> Verdict
        ensures result_value { verdict_told result ≡ plan_bytes_told self.now.list.now planbytes.now (length planlist.old) }
        ensures planlist_after { planlist.new ≡ overlay (read_of planbytes.now (length planlist.old)).stored planlist.old }
    {
        match read(planbytes, planlist) {
            Ok(count) => self.judge_plan(&planlist[..count]),
            Err(no) => Err(No {
                number: plan_number(no.number),
                step: 0,
                place: no.place,
            }),
        }
    }
}

// The case and then 20, with the layout of the case, so that a caller with further questions need not lay it again. Two wrong answers that the
// promise rules out: 20 told of a case that has a "no" of its own, and a layout of zeros beside a plan that 20 refuses.
pub fn judge_head(case: &[i64], plan: &[i64]) -> Laying
    ensures { HeadLaid case.now plan.now result }
{
    let found = judge_and_lay(case);
    let layout = found.layout;
    match found.answer {
        Ok(()) => {
            let accepted = Accepted {
                list: case,
                layout: &layout,
            };
            Laying {
                answer: ask(accepted.head_kept(plan), 20, 0, 0),
                layout,
            }
        }
        Err(_) => found,
    }
}

// Two wrong answers that the promise rules out: a plan accepted on its first step alone, and totals that are made up.
#[tactic(auto, using(crate::specs::inside::VerdictLaws::head_laid))]
pub fn judge(case: &[i64], plan: &[i64]) -> Verdict
    ensures { verdict_told result ≡ judge_of case.now plan.now }
{
    let head = judge_head(case, plan);
    head.answer?;
    let accepted = Accepted {
        list: case,
        layout: &head.layout,
    };
    accepted.steps(plan)
}

// What 1 to 3 become on plan bytes.
fn plan_number(number: usize) -> usize
    ensures { result ≡ plan_number number }
{
    match number {
        1 => 5,
        2 => 6,
        _ => 7,
    }
}

// The case, and then the plan bytes.
#[tactic(auto, using(crate::specs::inside::VerdictLaws::case_told))]
fn judge_case_list(case: &[i64], planbytes: &[u8], planlist: &mut [i64]) -> Verdict
    ensures result_value { verdict_told result ≡ case_list_told case.now planbytes.now (length planlist.old) }
    ensures planlist_after { planlist.new ≡ plan_list_after case.now planbytes.now planlist.old }
{
    let found = judge_and_lay(case);
    found.answer?;
    let accepted = Accepted {
        list: case,
        layout: &found.layout,
    };
    accepted.judge_plan_bytes(planbytes, planlist)
}

// The case bytes are read, the case is judged, the plan bytes are read, the plan is judged. A list that is not reached is unchanged.
pub fn judge_bytes(
    casebytes: &[u8],
    planbytes: &[u8],
    caselist: &mut [i64],
    planlist: &mut [i64],
) -> Verdict
    ensures result_value { verdict_told result
        ≡ (bytes_judged casebytes.now planbytes.now caselist.old planlist.old).told }
    ensures caselist_after { caselist.new
        ≡ (bytes_judged casebytes.now planbytes.now caselist.old planlist.old).case_list }
    ensures planlist_after { planlist.new
        ≡ (bytes_judged casebytes.now planbytes.now caselist.old planlist.old).plan_list }
{
    let count = read(casebytes, caselist)?;
    judge_case_list(&caselist[..count], planbytes, planlist)
}
