// 10 and 11 of the station rows, and 12.
ghost use Rattle.std.specs.Prelude.{◌≡◌, ◌++◌, ◌+◌, ◌<◌, ◌≤◌};
ghost use Rattle.numbers.specs.law.Question.{first_no};
ghost use Rattle.numbers.specs.law.Items.{over};
ghost use Rattle.case.specs.law.Extents.{station_extent, stations_extent, case_extent};
ghost use Rattle.case.specs.law.Layout.{direction_count, state_count, machine_count, state_at, machine_at, station_end, station_at, stations_of};
ghost use Rattle.case.specs.inside.Counts.{StationCounted, MachinesNarrow};
ghost use Rattle.case.specs.law.StationFields.{first_items, station_head, direction_fields, state_row_fields, state_fields, machine_fields};
ghost use Rattle.case.specs.law.StationFields.{part_fields, row_fields, all_station_fields};
ghost use Rattle.case.specs.law.Leftover.{leftover};

use super::extents::MOST_SET;
use super::fields::{MOST_FLOW, MOST_WEIGHT, field, fields};
use super::offsets::{STATE, STATION, count, direction_width, last, machine_width};
use numbers::answer::{Answer, ask};

// The set of the first `n` items. The ledger of `plan` has one of nodes, up to 60, of its own: this asks something of its caller, and so may not be public.
pub(crate) fn first_items(n: usize) -> i64
    requires { n < 62 }
    ensures { result ≡ first_items n }
{
    ((1usize << n) - 1) as i64
}

#[tactic(auto, using(crate::proofs::Asked::questions), unfolding(crate::specs::law::StationFields::station_head))]
pub(crate) fn station_head(case: &[i64], offset: usize) -> Answer
    requires { offset ≤ case_extent }
    ensures { result ≡ first_no (station_head case.now offset) }
{
    let last_direction = last(count(case, offset, 0));
    let last_state = last(count(case, offset, 1));
    field(case, offset, 1, 8)?;
    field(case, offset + 1, 1, 16)?;
    field(case, offset + 2, 0, 12)?;
    field(case, offset + 3, 0, last_direction)?;
    field(case, offset + 4, 0, last_state)
}

#[tactic(auto, using(crate::proofs::Asked::questions), unfolding(crate::specs::law::StationFields::state_row_fields))]
fn state_fields(case: &[i64], at: usize, sets: i64) -> Answer
    requires { at ≤ case_extent + station_extent }
    ensures { result ≡ first_no (state_row_fields case.now at sets) }
{
    field(case, at, 0, sets)?;
    fields(case, at + 1, 2, 0, 1073741823)?;
    field(case, at + 3, 0, MOST_WEIGHT)
}

// The rows of a station whose first row, which begins at `offset`, has counts in range.
#[derive(Clone, Copy)]
pub(crate) struct StationRows<'a> {
    pub(crate) case: &'a [i64],
    pub(crate) offset: usize,
    ghost early: { offset ≤ case_extent },
    ghost counted: { StationCounted case.now offset },
}

impl StationRows<'_> {
    // 10 and 11 of its directions' rows; below, of its states' and of its machines'.
    #[tactic(auto, using(crate::proofs::Asked::questions, crate::proofs::Rows::direction_laws), unfolding(crate::specs::law::StationFields::direction_fields))]
    fn directions(&self) -> Answer
        ensures { result ≡ first_no (over (direction_fields self.now.case.now self.now.offset) 0 (direction_count self.now.case.now self.now.offset)) }
    {
        let directions = count(self.case, self.offset, 0);
        let width = direction_width(self.case);
        let mut at = self.offset + STATION;
        for _ in 0..directions {
            fields(self.case, at, 2, 0, MOST_SET)?;
            field(self.case, at + 2, 0, MOST_WEIGHT)?;
            at += width;
        }
        Ok(())
    }

    // Where the rows of its states begin, and those of its machines.
    #[tactic(auto, using(crate::proofs::Rows::state_laws))]
    fn states_at(&self) -> usize
        ensures { result ≡ state_at self.now.case.now self.now.offset 0 }
    {
        self.offset + STATION + count(self.case, self.offset, 0) * direction_width(self.case)
    }

    #[tactic(auto, using(crate::proofs::Rows::state_laws), unfolding(crate::specs::law::Layout::machine_at))]
    fn machines_at(&self) -> usize
        ensures { result ≡ machine_at self.now.case.now self.now.offset 0 }
    {
        self.states_at() + count(self.case, self.offset, 1) * STATE
    }

    #[tactic(auto, using(crate::proofs::Asked::questions, crate::proofs::Rows::state_laws), unfolding(crate::specs::law::StationFields::state_fields))]
    fn states(&self) -> Answer
        ensures { result ≡ first_no (over (state_fields self.now.case.now self.now.offset) 0 (state_count self.now.case.now self.now.offset)) }
    {
        let sets = first_items(count(self.case, self.offset, 0));
        let states = count(self.case, self.offset, 1);
        let first = self.states_at();
        for z in 0..states {
            state_fields(self.case, first + z * STATE, sets)?;
        }
        Ok(())
    }

    #[tactic(auto, using(crate::proofs::Asked::questions, crate::proofs::Rows::machine_laws), unfolding(crate::specs::law::StationFields::machine_fields))]
    fn machines(&self) -> Answer
        ensures { result ≡ first_no (over (machine_fields self.now.case.now self.now.offset) 0 (machine_count self.now.case.now self.now.offset)) }
    {
        let machines = count(self.case, self.offset, 2);
        let mut at = self.machines_at();
        for _ in 0..machines {
            field(self.case, at, 0, MOST_FLOW)?;
            field(self.case, at + 1, 1001, 10000)?;
            at += machine_width(self.case, at);
        }
        Ok(())
    }

    // All of them but the first.
    #[tactic(auto, using(crate::proofs::Asked::questions), unfolding(crate::specs::law::StationFields::part_fields))]
    fn parts(&self) -> Answer
        ensures { result ≡ first_no (part_fields self.now.case.now self.now.offset) }
    {
        self.directions()?;
        self.states()?;
        self.machines()
    }

    // The index past the last of them: each machine's row begins where the one before it ends.
    #[tactic(auto, using(crate::proofs::Rows::machine_laws))]
    pub(crate) fn end(&self) -> usize
        requires { MachinesNarrow self.now.case.now self.now.offset }
        ensures { result ≡ station_end self.now.case.now self.now.offset }
    {
        let rows = count(self.case, self.offset, 2);
        let mut end = self.machines_at();
        for _ in 0..rows {
            end += machine_width(self.case, end);
        }
        end
    }
}

// All rows of the station whose rows begin at `offset`.
#[tactic(auto, using(crate::proofs::Asked::questions, crate::proofs::Rows::station_laws), unfolding(crate::specs::law::StationFields::row_fields))]
fn station_fields(case: &[i64], offset: usize) -> Answer
    requires { offset ≤ case_extent }
    ensures { result ≡ first_no (row_fields case.now offset) }
{
    station_head(case, offset)?;
    StationRows { case, offset }.parts()
}

// All stations' rows, and then 12.
#[tactic(auto, using(crate::proofs::Asked::questions, crate::proofs::Rows::station_laws), unfolding(crate::specs::inside::Opened::stations))]
pub(crate) fn station_rows(case: &[i64], first: usize, stations: usize) -> Answer
    requires { (first ≤ stations_extent) × (first ≡ station_at case.now 0) × (stations ≤ 8) × (stations ≡ stations_of case.now) }
    ensures { result ≡ first_no (all_station_fields case.now ++ leftover case.now) }
{
    let mut offset = first;
    for _ in 0..stations {
        station_fields(case, offset)?;
        offset = StationRows { case, offset }.end();
    }
    ask(case.len() <= offset, 12, 0, offset)
}
