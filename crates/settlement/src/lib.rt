// Settlement of two meters at a border point: one figure from what the sender's meter and the receiver's recorded.
#![tactic(auto)]

ghost use Rattle.std.specs.Prelude.{◌≡◌};
ghost use Rattle.settlement.specs.law.Settling.{settlement_told, settle_of};

use figures::Settlement;

pub mod figures; // figures.rt: what a settlement answers
mod merge; // merge.rt: the two records in one pass
mod records; // records.rt: the rows of a record
mod rules; // rules.rt: 60 to 62

// Wrong answers that the promise rules out: the larger mass where two differ by more than is agreed, a time of both records settled twice, and a total
// that leaves out the rows which only one record has.
#[tactic(auto, using(crate::specs::inside::Asked::asked_meters), unfolding(crate::specs::law::Settling::settle_of))]
pub fn settle(sender: &[i64], receiver: &[i64], agreed: i64) -> Settlement
    ensures { settlement_told result ≡ settle_of sender.now receiver.now agreed }
{
    rules::asked(sender, receiver, agreed)?;
    Ok(merge::merge(sender, receiver, agreed))
}
