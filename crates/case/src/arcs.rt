// 10 and 11 of the arc rows. The arc's kind chooses the ranges.
ghost use Rattle.std.specs.Prelude.{◌≡◌, ◌≤◌};
ghost use Rattle.numbers.specs.law.Question.{first_no};
ghost use Rattle.numbers.specs.law.Items.{over};
ghost use Rattle.case.specs.law.Extents.{arc_capacity, arcs_extent, stations_extent};
ghost use Rattle.case.specs.law.Layout.{count_at, arc_at};
ghost use Rattle.case.specs.law.ArcFields.{end_fields, pipe_fields, least_both_ways, member_fields, compressor_fields, kind_fields, arc_fields};

use super::fields::{MOST_FLOW, MOST_PRESSURE, MOST_WEIGHT, field, fields};
use super::offsets::{ARC, count, last};
use numbers::answer::Answer;

#[tactic(auto, using(crate::proofs::Asked::questions), unfolding(crate::specs::law::ArcFields::end_fields))]
fn end_fields(case: &[i64], offset: usize) -> Answer
    requires { offset ≤ stations_extent }
    ensures { result ≡ first_no (end_fields case.now offset) }
{
    let last_node = last(count(case, 0, 1));
    field(case, offset, 0, 6)?;
    fields(case, offset + 1, 2, 0, last_node)?;
    field(case, offset + 3, 0, MOST_FLOW)
}

#[tactic(auto, using(crate::proofs::Asked::questions), unfolding(crate::specs::law::ArcFields::pipe_fields))]
fn pipe_fields(case: &[i64], offset: usize) -> Answer
    requires { offset ≤ stations_extent }
    ensures { result ≡ first_no (pipe_fields case.now offset) }
{
    field(case, offset + 4, 1, 100000000)?;
    fields(case, offset + 5, 2, 0, 10000000)?;
    field(case, offset + 7, -200000, 200000)?;
    fields(case, offset + 8, 3, 0, 0)
}

// A shortcut goes both ways.
fn least_both_ways(kind: usize) -> i64
    ensures { result ≡ least_both_ways kind }
{
    i64::from(kind == 3)
}

#[tactic(auto, using(crate::proofs::Asked::questions), unfolding(crate::specs::law::ArcFields::member_fields))]
fn member_fields(case: &[i64], offset: usize, kind: usize) -> Answer
    requires { (offset ≤ stations_extent) × (kind ≡ count_at case.now offset) }
    ensures { result ≡ first_no (member_fields case.now offset) }
{
    let last_station = last(count(case, 0, 3));
    let least = least_both_ways(kind);
    field(case, offset + 4, 0, last_station)?;
    field(case, offset + 5, least, 1)?;
    field(case, offset + 6, 0, MOST_WEIGHT)?;
    field(case, offset + 7, 0, 1)
}

#[tactic(auto, using(crate::proofs::Asked::questions), unfolding(crate::specs::law::ArcFields::compressor_fields))]
fn compressor_fields(case: &[i64], offset: usize) -> Answer
    requires { offset ≤ stations_extent }
    ensures { result ≡ first_no (compressor_fields case.now offset) }
{
    field(case, offset + 8, 0, 4095)?;
    field(case, offset + 9, 0, 12)?;
    field(case, offset + 10, 0, MOST_PRESSURE)
}

// The seven fields past the first four.
#[tactic(auto, using(crate::proofs::Asked::questions), unfolding(crate::specs::law::ArcFields::kind_fields))]
fn kind_fields(case: &[i64], offset: usize) -> Answer
    requires { offset ≤ stations_extent }
    ensures { result ≡ first_no (kind_fields case.now offset) }
{
    let kind = count(case, offset, 0);
    match kind {
        0 | 1 => fields(case, offset + 4, 7, 0, 0),
        2 => pipe_fields(case, offset),
        3 | 4 => {
            member_fields(case, offset, kind)?;
            fields(case, offset + 8, 3, 0, 0)
        }
        _ => {
            member_fields(case, offset, kind)?;
            compressor_fields(case, offset)
        }
    }
}

#[tactic(auto, using(crate::proofs::Asked::questions), unfolding(crate::specs::law::ArcFields::arc_fields, crate::specs::law::Layout::arc_at))]
pub(crate) fn arc_rows(case: &[i64], first: usize, arcs: usize) -> Answer
    requires { (first ≤ arcs_extent) × (arcs ≤ arc_capacity) × (first ≡ arc_at case.now 0) }
    ensures { result ≡ first_no (over (arc_fields case.now) 0 arcs) }
{
    for e in 0..arcs {
        let offset = first + e * ARC;
        end_fields(case, offset)?;
        kind_fields(case, offset)?;
    }
    Ok(())
}
