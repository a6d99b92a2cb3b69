// How many items the judge's arrays have room for, and the limits of the head's counts.
ghost use Rattle.std.specs.Prelude.{◌≡◌, pos};
ghost use Rattle.case.specs.law.Extents.{most_nodes, most_arcs};

// A place for each node, for each arc, for each station: there is no heap, and so every array has room for the most that a case may have.
pub const NODES: usize = 60;

pub const ARCS: usize = 120;

pub const STATIONS: usize = 8;

// A node set is one number with room for so many nodes.
pub const SET_ROOM: usize = 60;

pub(crate) const MOST_SET: i64 = 1152921504606846975; // 2^60 - 1

pub(crate) const LAST_EDITION: i64 = 1;

#[tactic(auto, unfolding(crate::specs::law::Extents::most_nodes))]
pub(crate) fn most_nodes(case: &[i64]) -> i64
    ensures { result ≡ pos (most_nodes case.now) }
{
    60
}

#[tactic(auto, unfolding(crate::specs::law::Extents::most_arcs))]
pub(crate) fn most_arcs(case: &[i64]) -> i64
    ensures { result ≡ pos (most_arcs case.now) }
{
    120
}
