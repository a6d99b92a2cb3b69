// 10 and 11 of the node rows.
ghost use Rattle.std.specs.Prelude.{◌≡◌, ◌+◌, ◌≤◌};
ghost use Rattle.numbers.specs.law.Question.{first_no};
ghost use Rattle.numbers.specs.law.Items.{over};
ghost use Rattle.case.specs.law.Extents.{node_capacity, node_extent, arcs_extent};
ghost use Rattle.case.specs.law.Layout.{steps_of};
ghost use Rattle.case.specs.law.NodeFields.{node_head, bound_fields, demand_field, node_row_fields, node_fields};

use super::fields::{LEAST_FLOW, MOST_FLOW, MOST_PRESSURE, field, fields};
use super::offsets::{BOUNDS, DEMANDS, HEAD, count, node_width, number};
use numbers::answer::Answer;

// Kind and p0 of the row that begins at `offset`.
#[tactic(auto, using(crate::proofs::Asked::questions), unfolding(crate::specs::law::NodeFields::node_head))]
fn node_head(case: &[i64], offset: usize) -> Answer
    requires { offset ≤ arcs_extent }
    ensures { result ≡ first_no (node_head case.now offset) }
{
    field(case, offset, 0, 2)?;
    field(case, offset + 1, 0, MOST_PRESSURE)
}

// The four bounds that begin at `offset`.
#[tactic(auto, using(crate::proofs::Asked::questions), unfolding(crate::specs::law::NodeFields::bound_fields))]
fn bound_fields(case: &[i64], offset: usize) -> Answer
    requires { offset ≤ arcs_extent + node_extent }
    ensures { result ≡ first_no (bound_fields case.now offset) }
{
    let low = number(case, offset, 0);
    let high = number(case, offset, 1);
    let actlow = number(case, offset, 2);
    fields(case, offset, 2, 0, MOST_PRESSURE)?;
    field(case, offset + 2, low, MOST_PRESSURE)?;
    field(case, offset + 3, actlow, high)
}

// The demands of the row that begins at `offset`, whose range goes by the node's kind.
#[tactic(auto, using(crate::proofs::Asked::questions, crate::specs::inside::NodeRows::demands_are))]
fn demand_fields(case: &[i64], offset: usize, steps: usize) -> Answer
    requires { (offset ≤ arcs_extent) × (steps ≤ 48) }
    ensures { result ≡ first_no (over (demand_field case.now offset) 0 steps) }
{
    let (low, high) = match count(case, offset, 0) {
        1 => (0, MOST_FLOW),
        2 => (LEAST_FLOW, 0),
        _ => (0, 0),
    };
    fields(case, offset + DEMANDS, steps, low, high)
}

#[tactic(auto, using(crate::proofs::Asked::questions), unfolding(crate::specs::law::NodeFields::node_row_fields, crate::specs::law::Layout::bounds_in))]
fn node_fields(case: &[i64], offset: usize, steps: usize) -> Answer
    requires { (offset ≤ arcs_extent) × (steps ≤ 48) × (steps ≡ steps_of case.now) }
    ensures { result ≡ first_no (node_row_fields case.now offset) }
{
    node_head(case, offset)?;
    bound_fields(case, offset + BOUNDS)?;
    demand_fields(case, offset, steps)
}

// Each row begins where the one before it ends.
#[tactic(auto, using(crate::proofs::Asked::questions, crate::proofs::Rows::node_laws), unfolding(crate::specs::law::NodeFields::node_fields))]
pub(crate) fn node_rows(case: &[i64], steps: usize, nodes: usize) -> Answer
    requires { (nodes ≤ node_capacity) × (steps ≤ 48) × (steps ≡ steps_of case.now) }
    ensures { result ≡ first_no (over (node_fields case.now) 0 nodes) }
{
    let width = node_width(case);
    let mut offset = HEAD + steps;
    for _ in 0..nodes {
        node_fields(case, offset, steps)?;
        offset += width;
    }
    Ok(())
}
