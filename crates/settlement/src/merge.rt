// Two records, settled in one pass over both.
ghost use Rattle.std.specs.Prelude.{cond, ◌⊎◌, ◌≡◌, ◌+◌, ◌<◌, ◌≤◌};
ghost use Rattle.std.specs.Int.Signed.{le_z};
ghost use Rattle.settlement.specs.law.Records.{rows_of, grams_of};
ghost use Rattle.settlement.specs.law.Settled.{agrees, settled_figures};
ghost use Rattle.settlement.specs.inside.Adding.{Grams, Room, pair_added, row_added};
ghost use Rattle.settlement.specs.inside.Merging.{Meter, Meters, Left, earliest, Merging};

use super::figures::Figures;
use super::records::{grams, rows, time};

// Two records that have passed 60 to 62, and by how many grams two masses of one time may differ.
#[derive(Clone, Copy)]
struct Records<'a> {
    sender: &'a [i64],
    receiver: &'a [i64],
    agreed: i64,
    ghost kept: { Meters sender.now receiver.now },
}

// The mass of a row.
#[derive(Clone, Copy)]
struct Mass {
    grams: i64,
    ghost in_range: { Grams grams },
}

// What the rows that have been settled come to: their total, and how many of their pairs agreed and how many were cut.
#[derive(Clone, Copy)]
pub struct Sums {
    pub total: i64,
    pub agreed: usize,
    pub cut: usize,
}

// How many rows of each record have been settled, and their sums.
#[derive(Clone, Copy)]
pub struct Merged {
    pub i: usize, // of the sender's record
    pub j: usize, // of the receiver's
    pub sums: Sums,
}

// Sums that have room for one row or one pair more.
#[derive(Clone, Copy)]
struct Growing {
    sums: Sums,
    ghost room: { Room sums },
}

// Do the two differ by at most the agreed grams? Kept: one expression of the library, here under the law's name, which `with_pair` is proved by.
#[tactic(auto, unfolding(crate::specs::law::Settled::agrees))]
fn agrees(s: Mass, r: Mass, agreed: i64) -> bool
    ensures { result ≡ agrees agreed s.grams r.grams }
{
    (s.grams - r.grams).abs() <= agreed
}

// Kept, as `agrees` is: the library's `min`, here shown to be the law's choice.
#[tactic(auto, using(crate::specs::inside::Adding::min_is))]
fn smaller(s: Mass, r: Mass) -> i64
    ensures { result ≡ cond (le_z s.grams r.grams) s.grams r.grams }
{
    s.grams.min(r.grams)
}

impl Growing {
    // The sums with a pair of rows of one time.
    fn with_pair(self, s: Mass, r: Mass, agreed: i64) -> Sums
        ensures { result ≡ pair_added self.sums agreed s.grams r.grams }
    {
        let f = self.sums;
        if agrees(s, r, agreed) {
            Sums {
                total: f.total + s.grams,
                agreed: f.agreed + 1,
                ..f
            }
        } else {
            Sums {
                total: f.total + smaller(s, r),
                cut: f.cut + 1,
                ..f
            }
        }
    }

    // The sums with a row that one record alone has.
    fn with_row(self, row: Mass) -> Sums
        ensures { result ≡ row_added self.sums row.grams }
    {
        let f = self.sums;
        Sums {
            total: f.total + row.grams,
            ..f
        }
    }
}

// The mass of row `i`, where the record has passed 60 to 62.
fn mass_of(meter: &[i64], i: usize) -> Mass
    requires { (Meter meter.now) × (i < rows_of meter.now) }
    ensures { result.grams ≡ grams_of meter.now i }
{
    Mass {
        grams: grams(meter, i),
    }
}

// Has a record a row `i`, and is it earlier than row `j` of the other, if that has one?
fn earliest(meter: &[i64], other: &[i64], i: usize, j: usize) -> bool
    ensures { result ≡ earliest meter.now other.now i j }
{
    i < rows(meter) && (rows(other) <= j || time(meter, i) < time(other, j))
}

fn passed(i: usize, j: usize, sums: Sums) -> Merged
    ensures { result ≡ record { i = i; j = j; sums = sums } }
{
    Merged { i, j, sums }
}

impl<'a> Records<'a> {
    // The earliest row that is left is settled, or the pair of rows, where neither record's is earlier.
    #[tactic(auto, using(crate::specs::inside::MergingLaws::room))]
    fn advance(self, m: Merged) -> Merged
        requires { (Merging self.sender.now self.receiver.now self.agreed m) × (Left self.sender.now self.receiver.now m.i m.j) }
        ensures merging { Merging self.entry.sender.now self.entry.receiver.now self.entry.agreed result }
        ensures j_bound { m.i + m.j < result.i + result.j }
    {
        let Merged { i, j, sums } = m;
        let f = Growing { sums };
        if earliest(self.sender, self.receiver, i, j) {
            passed(i + 1, j, f.with_row(mass_of(self.sender, i)))
        } else if earliest(self.receiver, self.sender, j, i) {
            passed(i, j + 1, f.with_row(mass_of(self.receiver, j)))
        } else {
            let s = mass_of(self.sender, i);
            let r = mass_of(self.receiver, j);
            let g = f.with_pair(s, r, self.agreed);
            passed(i + 1, j + 1, g)
        }
    }

    // The rows up to the end of one of the records.
    #[tactic(auto, using(crate::specs::inside::MergingLaws::begun))]
    fn merge_both(self) -> Merged
        ensures merging { Merging self.entry.sender.now self.entry.receiver.now self.entry.agreed result }
        ensures fact { (result.i ≡ rows_of self.entry.sender.now) ⊎ (result.j ≡ rows_of self.entry.receiver.now) }
    {
        let sent = rows(self.sender);
        let received = rows(self.receiver);
        let mut m = Merged {
            i: 0,
            j: 0,
            sums: Sums {
                total: 0,
                agreed: 0,
                cut: 0,
            },
        };
        // Kept: no plainer, since a turn goes on in one record or in both, so that no counter stands for it.
        // With `&& m.j < received` in the loop's head records in any turns take 1.08 times as long.
        while m.i < sent {
            if received <= m.j {
                return m;
            }
            m = self.advance(m);
        }
        m
    }

    // The figures of all rows: what of a record is in no pair, it has alone.
    #[tactic(auto, using(crate::specs::inside::MergingLaws::pairs_few, crate::specs::inside::MergingLaws::ended))]
    fn figures(self, m: Merged) -> Figures
        requires { (Merging self.sender.now self.receiver.now self.agreed m) × (rows_of self.sender.now + rows_of self.receiver.now ≤ m.i + m.j) }
        ensures { result ≡ settled_figures self.entry.sender.now self.entry.receiver.now self.entry.agreed }
    {
        let Sums { total, agreed, cut } = m.sums;
        Figures {
            total,
            agreed,
            cut,
            sender: rows(self.sender) - agreed - cut,
            receiver: rows(self.receiver) - agreed - cut,
        }
    }

    // First while both records have rows, then the rows that one of them has left: in the first loop the ends are not asked for twice. Kept: with one loop
    // over both, records take up to 1.2 times as long.
    fn merge(self) -> Figures
        ensures { result ≡ settled_figures self.entry.sender.now self.entry.receiver.now self.entry.agreed }
    {
        let both = rows(self.sender) + rows(self.receiver);
        let mut m = self.merge_both();
        // Kept: a turn settles one row here, since one record is at its end, but `advance`, which both loops go by, promises at least one.
        while m.i + m.j < both {
            m = self.advance(m);
        }
        self.figures(m)
    }
}

pub(crate) fn merge(sender: &[i64], receiver: &[i64], agreed: i64) -> Figures
    requires { Meters sender.now receiver.now }
    ensures { result ≡ settled_figures sender.now receiver.now agreed }
{
    Records {
        sender,
        receiver,
        agreed,
    }
    .merge()
}
