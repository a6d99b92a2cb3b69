// 10 and 11 of the head and of the times.
ghost use Rattle.std.specs.Prelude.{◌≡◌, ◌<◌, ◌≤◌};
ghost use Rattle.numbers.specs.law.Question.{first_no};
ghost use Rattle.numbers.specs.law.Items.{over};
ghost use Rattle.numbers.specs.inside.SignedBounds.{Bounded};
ghost use Rattle.case.specs.law.Records.{time_before};
ghost use Rattle.case.specs.law.HeadFields.{count_fields, head_fields};
ghost use Rattle.case.specs.law.TimeFields.{time_field};

use super::extents::{LAST_EDITION, most_arcs, most_nodes};
use super::fields::field;
use super::offsets::HEAD;
use super::read::time_before;
use numbers::answer::Answer;

// Edition, nodes, arcs, stations, steps.
#[tactic(auto, using(crate::proofs::Asked::questions), unfolding(crate::specs::law::HeadFields::count_fields))]
fn counts(case: &[i64]) -> Answer
    ensures { result ≡ first_no (count_fields case.now) }
{
    field(case, 0, 1, LAST_EDITION)?;
    field(case, 1, 1, most_nodes(case))?;
    field(case, 2, 0, most_arcs(case))?;
    field(case, 3, 0, 8)?;
    field(case, 4, 1, 48)
}

#[tactic(auto, using(crate::proofs::Asked::questions), unfolding(crate::specs::law::HeadFields::head_fields, crate::specs::law::HeadFields::tolerance_fields))]
pub(crate) fn head(case: &[i64]) -> Answer
    ensures { result ≡ first_no (head_fields case.now) }
{
    counts(case)?;
    field(case, 5, 0, 1000000)?;
    field(case, 6, 0, 1000)
}

// The time at which the step with index `i` ends, by the time at which it begins.
#[tactic(auto, using(crate::proofs::Asked::questions), unfolding(crate::specs::law::TimeFields::time_field))]
fn time_field(case: &[i64], i: usize) -> Answer
    requires { (i < 48) × (Bounded (time_before case.now i) 4147200) }
    ensures { result ≡ first_no (time_field case.now i) }
{
    let before = time_before(case, i);
    field(case, HEAD + i, before + 1, before + 86400)
}

#[tactic(auto, using(crate::proofs::Asked::questions, crate::proofs::Counting::time_grows))]
pub(crate) fn times(case: &[i64], steps: usize) -> Answer
    requires { steps ≤ 48 }
    ensures { result ≡ first_no (over (time_field case.now) 0 steps) }
{
    for i in 0..steps {
        time_field(case, i)?;
    }
    Ok(())
}
