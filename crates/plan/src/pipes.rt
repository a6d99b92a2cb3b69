// 28 and 29, of one pipe. `Bounded` in a contract is the range of one number, here as elsewhere, and no fact of a value that goes on.
ghost use Rattle.std.specs.Prelude.{◌≡◌, ◌<◌, ◌^◌, nat_abs, ◌+ℤ◌, ◌-ℤ◌, ◌*ℤ◌};
ghost use Rattle.numbers.specs.law.Question.{first_no};
ghost use Rattle.numbers.specs.inside.SignedBounds.{Bounded};
ghost use Rattle.case.specs.law.Layout.{number_at};
ghost use Rattle.plan.specs.law.PlanRecords.{pressure_in};
ghost use Rattle.plan.specs.law.Pipes.{change};
ghost use Rattle.plan.specs.inside.StepArcs.{AtFlow, AtPipe, residual_in, balance_in, pipes_asked};

use super::rows::pressure;
use super::step::Step;
use numbers::answer::{Answer, ask, or_else};
use numbers::compare::at;

// The size of a number that is not the least of its type. The library's and a cast, said once for 28, 29 and 33.
pub(crate) fn size(x: i64) -> usize
    requires { nat_abs x < 2 ^ 63 }
    ensures { result ≡ nat_abs x }
{
    x.unsigned_abs() as usize
}

// What a pipe takes in over a step less what its pressures say that it keeps.
fn imbalance(dt: i64, a: i64, b: i64, c: i64, x: i64, y: i64) -> i64
    requires { (Bounded dt 86400) × (Bounded a 10000000) × (Bounded b 10000000) × (Bounded c 100000000) × (Bounded x 400000) × (Bounded y 400000) }
    ensures { result ≡ dt *ℤ (a -ℤ b) -ℤ c *ℤ (x +ℤ y) }
{
    dt * (a - b) - c * (x + y)
}

// The change of the pressure at node `v`.
#[tactic(auto, using(crate::proofs::CaseFacts::few))]
fn change(old: &[i64], rows: &[i64], v: usize) -> i64
    requires { (v < 1000000) × (Bounded (number_at old.now v) 200000) × (Bounded (pressure_in rows.now v) 200000) }
    ensures { result ≡ change (number_at old.now) rows.now v }
{
    pressure(rows, v) - at(old, v)
}

// A pipe of a step, whose flows are in range.
#[derive(Clone, Copy)]
pub(crate) struct PipeStep<'a> {
    pub(crate) step: Step<'a>,
    pub(crate) e: usize,
    ghost at: { AtPipe step e },
}

impl PipeStep<'_> {
    // The left side of 28.
    #[tactic(auto, using(crate::specs::inside::CaseSizes::counted, crate::proofs::ArcLaws::from_in), unfolding(crate::specs::law::Pipes::pipe_residual))]
    pub(crate) fn residual(&self) -> usize
        ensures { result ≡ residual_in self.now.step self.now.e }
    {
        let s = self.step;
        let c = s.case.arc(self.e);
        let r = s.case.arc_row(s.rows, self.e);
        let x = change(s.old, s.rows, c.from);
        let y = change(s.old, s.rows, c.to);
        let dt = s.case.duration(s.i);
        size(imbalance(dt, r.a, r.b, s.case.pipe(self.e).c, x, y))
    }

    // The inner side of 29.
    #[tactic(auto, using(crate::proofs::CaseFacts::few))]
    fn pressure_balance(&self) -> i64
        ensures { result ≡ balance_in self.now.step self.now.e }
    {
        let s = self.step;
        let c = s.case.arc(self.e);
        let x = s.case.pipe(self.e);
        let r = s.case.arc_row(s.rows, self.e);
        let from = pressure(s.rows, c.from);
        let to = pressure(s.rows, c.to);
        1000000 * (to - from) + x.f * r.a + x.g * r.b + x.h * (from + to)
    }

    // 28 and 29 of a pipe.
    #[tactic(auto, using(crate::proofs::CaseFacts::pipe_asked), unfolding(crate::specs::law::ArcRules::pipe_questions))]
    fn answer(&self) -> Answer
        ensures { result ≡ first_no (pipes_asked self.now.step self.now.e) }
    {
        let case = self.step.case.list;
        let step = self.step.i + 1;
        let mass = self.residual() as i64;
        let ends = size(self.pressure_balance()) as i64;
        let most = 1000000 * at(case, 6);
        or_else(
            ask(mass <= at(case, 5), 28, step, self.e),
            ask(ends <= most, 29, step, self.e),
        )
    }
}

impl Step<'_> {
    #[tactic(auto, using(crate::proofs::CaseFacts::pipe_asked), unfolding(crate::specs::law::ArcRules::pipe_questions))]
    pub(crate) fn pipe_answer(&self, e: usize) -> Answer
        requires { AtFlow self.now e }
        ensures { result ≡ first_no (pipes_asked self.now e) }
    {
        match self.case.arc(e).kind {
            2 => PipeStep { step: *self, e }.answer(),
            _ => Ok(()),
        }
    }
}
