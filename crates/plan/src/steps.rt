// One step, and every step of a plan, one after the other.
ghost use Rattle.std.specs.Prelude.{◌≡◌, ◌++◌, ◌+◌, ◌*◌, ◌<◌, ◌≤◌, length, take, drop};
ghost use Rattle.numbers.specs.law.Question.{first_no, found};
ghost use Rattle.numbers.specs.law.Items.{over};
ghost use Rattle.case.specs.law.Layout.{number_at, nodes_of, steps_of};
ghost use Rattle.plan.specs.law.PlanLayout.{step_rows};
ghost use Rattle.plan.specs.inside.SumSizes.{most_step_width};
ghost use Rattle.plan.specs.law.StationRules.{all_station_questions};
ghost use Rattle.plan.specs.law.Balance.{all_balance_questions};
ghost use Rattle.plan.specs.law.Step.{step_questions};
ghost use Rattle.plan.specs.law.Judged.{plan_step};
ghost use Rattle.plan.specs.law.Totals.{node_residuals, totals_of};
ghost use Rattle.plan.specs.inside.Sizes.{PressuresSized};
ghost use Rattle.plan.specs.inside.Preconditions.{PlanLaid};

use super::accepted::Accepted;
use super::previous::Previous;
use super::step::{Passed, Step};
use super::totals::Totals;
use super::verdict::Verdict;
use numbers::answer::No;

// The plan's part for the step with index `i`, where each step has `width` numbers.
fn part_of(plan: &[i64], i: usize, width: usize) -> &[i64]
    requires { (i ≤ 48) × (width ≤ most_step_width) × (2 + i * width + width ≤ length plan.now) }
    ensures { result.now ≡ take width (drop (2 + i * width) plan.now) }
{
    let offset = 2 + i * width;
    let end = offset + width;
    &plan[offset..end]
}

impl Passed<'_> {
    // Past the arcs: every station, and then the balance of every node.
    #[tactic(auto, using(crate::proofs::Asked::questions))]
    fn past_arcs(&self) -> Result<usize, No>
        ensures { result ≡ found (first_no (all_station_questions self.now.step.case.list.now self.now.step.rows.now self.now.step.i
            ++ all_balance_questions self.now.step.case.list.now self.now.step.rows.now self.now.step.i))
            (node_residuals self.now.step.case.list.now self.now.step.rows.now self.now.step.i) }
    {
        self.station_answers()?;
        self.balance()
    }
}

impl Accepted<'_> {
    // Every question of a step, whose part of the plan is `rows`.
    #[tactic(auto, using(crate::proofs::Asked::questions, crate::proofs::StepGroups::answered), unfolding(crate::specs::law::Step::step_questions))]
    fn step(&self, previous: Previous, rows: &[i64], i: usize) -> Result<usize, No>
        requires { (i < steps_of self.now.list.now) × (PressuresSized (number_at previous.pressures) (nodes_of self.now.list.now)) }
        ensures { result ≡ found (first_no (step_questions self.now.list.now (number_at previous.pressures) rows.now i))
            (node_residuals self.now.list.now rows.now i) }
    {
        self.node_answers(rows, i)?;
        let step = Step {
            case: *self,
            old: &previous.pressures,
            rows,
            i,
        };
        step.arc_answers()?;
        Passed { step }.past_arcs()
    }

    // The plan's part for the step with index `i`.
    #[tactic(auto, using(crate::proofs::CaseRows::parts), unfolding(crate::specs::law::PlanLayout::step_rows, crate::specs::law::PlanLayout::step_at))]
    pub(crate) fn step_rows<'p>(&self, plan: &'p [i64], i: usize) -> &'p [i64]
        requires { (i < steps_of self.now.list.now) × (PlanLaid self.now.list.now plan.now) }
        ensures { result.now ≡ step_rows self.now.list.now plan.now i }
    {
        part_of(plan, i, self.step_width())
    }

    // A step judge that waves a step through falls to the promise, as does one that looks at the first step's part alone.
    #[tactic(auto, using(crate::proofs::Asked::questions, crate::proofs::StepsLoop::step_loop))]
    pub(crate) fn steps(&self, plan: &[i64]) -> Verdict
        requires { PlanLaid self.now.list.now plan.now }
        ensures { result ≡ found (first_no (over (plan_step self.now.list.now plan.now) 0 (steps_of self.now.list.now)))
            (totals_of self.now.list.now plan.now) }
    {
        let mut previous = self.start();
        let mut totals = Totals::opened(self.gas_at(previous.pressures));
        for i in 0..self.layout.steps {
            let rows = self.step_rows(plan, i);
            let residual = self.step(previous, rows, i)?;
            totals = totals.added(self, previous, rows, i, residual);
            previous = self.after(previous, rows);
        }
        Ok(totals.closed(self.gas_at(previous.pressures)))
    }
}
