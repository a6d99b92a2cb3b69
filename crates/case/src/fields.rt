// 10 and 11: is the field there, and is it in range?
ghost use Rattle.std.specs.Prelude.{◌≡◌, ◌+◌, ◌<◌, ◌^◌};
ghost use Rattle.numbers.specs.law.Question.{first_no};
ghost use Rattle.case.specs.law.Field.{field, fields};

use numbers::answer::{Answer, ask};
use numbers::compare::within;

// Limits that several fields share.
pub(crate) const MOST_PRESSURE: i64 = 200000;

pub(crate) const LEAST_FLOW: i64 = -10000000;

pub(crate) const MOST_FLOW: i64 = 10000000;

pub(crate) const MOST_WEIGHT: i64 = 1000000;

#[tactic(auto, using(crate::proofs::Asked::questions), unfolding(crate::specs::law::Field::field))]
pub(crate) fn field(case: &[i64], i: usize, low: i64, high: i64) -> Answer
    ensures { result ≡ first_no (field case.now i low high) }
{
    ask(i < case.len(), 10, 0, i)?;
    ask(within(low, case[i], high), 11, 0, i)
}

// The `n` fields from `i` on, which share their range.
#[tactic(auto, using(crate::proofs::Asked::questions), unfolding(crate::specs::law::Field::fields))]
pub(crate) fn fields(case: &[i64], i: usize, n: usize, low: i64, high: i64) -> Answer
    requires { i + n < 2 ^ 63 }
    ensures { result ≡ first_no (fields case.now i n low high) }
{
    for j in 0..n {
        field(case, i + j, low, high)?;
    }
    Ok(())
}
