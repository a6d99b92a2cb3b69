// 60 to 62.
ghost use Rattle.std.specs.Prelude.{◌≡◌, ◌&&◌, ◌<◌};
ghost use Rattle.numbers.specs.law.Question.{first_no, or_else};
ghost use Rattle.settlement.specs.law.Records.{rows_of, grams_of};
ghost use Rattle.settlement.specs.law.RecordRules.{in_grams, whole_rows, rises, time_questions, mass_questions, settle_questions};
ghost use Rattle.settlement.specs.inside.Asked.{row_questions, none_refused, Tested, EachRow};

use super::records::{grams, rows, time};
use numbers::answer::{Answer, ask};
use numbers::compare::within;

fn in_grams(x: i64) -> bool
    ensures { result ≡ in_grams x }
{
    within(0, x, 1000000000000)
}

#[tactic(auto, unfolding(crate::specs::law::RecordRules::whole_rows))]
fn whole_rows(meter: &[i64]) -> bool
    ensures { result ≡ whole_rows meter.now }
{
    meter.len() % 2 == 0 && rows(meter) <= 5000
}

// 61 of one row.
#[tactic(auto, using(crate::specs::inside::RecordLaws::rises_later), unfolding(crate::specs::law::RecordRules::rises))]
fn rises(meter: &[i64], i: usize) -> bool
    requires { i < rows_of meter.now }
    ensures { result ≡ rises meter.now i }
{
    if i == 0 {
        0 <= time(meter, 0)
    } else {
        time(meter, i - 1) < time(meter, i)
    }
}

// One question of each row; the first that does not pass is the "no". As `each` of `case`,
// whose loop it cannot share: a function over a closure asks something of its caller, and no public function may.
fn each_row<F: Fn(usize) -> bool>(meter: &[i64], number: usize, passes: F) -> Answer
    requires { (i : _) → i < rows_of meter.now → F.pre passes i }
    ensures { (test : _) → Tested (F.post passes) test (rows_of meter.now)
        → result ≡ first_no (EachRow test number (rows_of meter.now)) }
{
    for i in 0..rows(meter) {
        ask(passes(i), number, 0, i)?;
    }
    Ok(())
}

// 61 of one record.
fn times(meter: &[i64]) -> Answer
    ensures { result ≡ first_no (time_questions meter.now) }
{
    each_row(meter, 61, |i| rises(meter, i))
}

// 62 of one record.
fn masses(meter: &[i64]) -> Answer
    ensures { result ≡ first_no (mass_questions meter.now) }
{
    each_row(meter, 62, |i| in_grams(grams(meter, i)))
}

// 60: are the rows of both whole and few, and is the agreed figure in range? Of `settle`'s own parameters: past 62 they are `Records`.
fn records_kept(sender: &[i64], receiver: &[i64], agreed: i64) -> bool
    ensures { result ≡ (whole_rows sender.now && (whole_rows receiver.now && in_grams agreed)) }
{
    whole_rows(sender) && whole_rows(receiver) && in_grams(agreed)
}

// 61 and 62 of one row.
fn row_kept(meter: &[i64], i: usize) -> bool
    requires { i < rows_of meter.now }
    ensures { result ≡ (rises meter.now i && in_grams (grams_of meter.now i)) }
{
    rises(meter, i) && in_grams(grams(meter, i))
}

// Does every row keep 61 and 62? One pass over a record; which "no" is the first is asked only where there is one.
fn rows_kept(meter: &[i64]) -> bool
    ensures { result ≡ none_refused (or_else (first_no (time_questions meter.now)) (first_no (mass_questions meter.now))) }
{
    (0..rows(meter)).all(|i| row_kept(meter, i))
}

// 61 and 62 of both records, in order.
#[tactic(auto, using(crate::specs::inside::Asked::rows_answer, crate::specs::inside::Asked::kept_time, crate::specs::inside::Asked::kept_mass))]
fn rows_asked(sender: &[i64], receiver: &[i64]) -> Answer
    ensures { result ≡ first_no (row_questions sender.now receiver.now) }
{
    if rows_kept(sender) && rows_kept(receiver) {
        return Ok(());
    }
    times(sender)?;
    times(receiver)?;
    masses(sender)?;
    masses(receiver)
}

// The others are asked only where 60 has a yes, so that no list is gone through that is too long.
#[tactic(auto, unfolding(crate::specs::law::RecordRules::settle_questions, crate::specs::law::RecordRules::records_question))]
pub(crate) fn asked(sender: &[i64], receiver: &[i64], agreed: i64) -> Answer
    ensures { result ≡ first_no (settle_questions sender.now receiver.now agreed) }
{
    ask(records_kept(sender, receiver, agreed), 60, 0, 0)?;
    rows_asked(sender, receiver)
}
