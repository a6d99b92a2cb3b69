// Where rows begin, for reading. A row past the end of the list begins at the end: nothing is read there.
ghost use Rattle.std.specs.Prelude.{◌≡◌, ◌+◌, ◌*◌, ◌<◌, ◌^◌, min, length};
ghost use Rattle.case.specs.law.Layout.{number_at, node_width, node_at, bounds_in, demand_in, arc_at, direction_width, direction_at, state_at, machine_width};
ghost use Rattle.case.specs.inside.Counts.{Counts};
ghost use Rattle.case.specs.law.Field.{last_of};

use numbers::compare::index;

// How many numbers the head and the rows have whose width is the same in every case.
pub const HEAD: usize = 7;

pub const ARC: usize = 11;

pub(crate) const STATION: usize = 5;

pub(crate) const STATE: usize = 4;

// How far into a node's row its bounds begin, which hold in every step, and its demands.
pub const BOUNDS: usize = 2;

pub const DEMANDS: usize = 6;

// The number `j` places into the row that begins at `offset`: no struct holds the address, for there is one to each call.
// Asked in two steps: by `case.get(offset..)` the largest case takes 1.13 times as long.
pub(crate) fn number(case: &[i64], offset: usize, j: usize) -> i64
    ensures { result ≡ number_at case.now (offset + j) }
{
    if offset < case.len() && j < case.len() - offset {
        case[offset + j]
    } else {
        0
    }
}

pub(crate) fn count(case: &[i64], offset: usize, j: usize) -> usize
    ensures { Counts case.now (offset + j) result }
{
    index(number(case, offset, j))
}

// The place `count` rows of `width` numbers past `at`, or the end. For how many rows there is room is a quotient, which a loop over rows finds once: with
// `saturating_mul` and `saturating_add` the largest case takes 1.19 times as long.
pub(crate) fn along(end: usize, at: usize, count: usize, width: usize) -> usize
    ensures { result ≡ min (at + count * width) end }
{
    let begin = at.min(end);
    match (end - begin).checked_div(width) {
        Some(rows) if rows < count => end,
        _ => begin + count * width,
    }
}

// How many numbers a node's row has, a direction's, and the machine's that begins at `offset`. A width and a place are functions of the case, as
// document 02 has them go by the edition (docs/DECISIONS.md): a parameter that has no use yet is for later editions.
#[tactic(auto, unfolding(crate::specs::law::Layout::node_width))]
pub(crate) fn node_width(case: &[i64]) -> usize
    ensures { result ≡ node_width case.now }
{
    DEMANDS + count(case, 0, 4)
}

#[tactic(auto, unfolding(crate::specs::law::Layout::direction_width))]
pub(crate) fn direction_width(case: &[i64]) -> usize
    ensures { result ≡ direction_width case.now }
{
    3
}

#[tactic(auto, unfolding(crate::specs::law::Layout::machine_width))]
pub(crate) fn machine_width(case: &[i64], offset: usize) -> usize
    ensures { result ≡ machine_width case.now offset }
{
    2
}

#[tactic(auto, unfolding(crate::specs::law::Layout::node_at, crate::specs::law::Layout::node_width))]
pub(crate) fn node_at(case: &[i64], v: usize) -> usize
    ensures { result ≡ min (node_at case.now v) (length case.now) }
{
    let steps = count(case, 0, 4);
    along(case.len(), HEAD + steps, v, node_width(case))
}

// Where the bounds of the node whose row begins at `offset` stand in the step with index `i`, and where its demand does.
#[tactic(auto, unfolding(crate::specs::law::Layout::bounds_in))]
pub(crate) fn bounds_at(case: &[i64], offset: usize, i: usize) -> usize
    ensures { result ≡ min (offset + bounds_in case.now i) (length case.now) }
{
    along(case.len(), offset, BOUNDS, 1)
}

#[tactic(auto, unfolding(crate::specs::law::Layout::demand_in))]
pub(crate) fn demand_at(case: &[i64], offset: usize, i: usize) -> usize
    ensures { result ≡ min (offset + demand_in case.now i) (length case.now) }
{
    let end = case.len();
    along(end, along(end, offset, DEMANDS, 1), i, 1)
}

#[tactic(auto, unfolding(crate::specs::law::Layout::arc_at))]
pub(crate) fn arc_at(case: &[i64], e: usize) -> usize
    ensures { result ≡ min (arc_at case.now e) (length case.now) }
{
    let nodes = count(case, 0, 1);
    along(case.len(), node_at(case, nodes), e, ARC)
}

#[tactic(auto, unfolding(crate::specs::law::Layout::direction_at, crate::specs::law::Layout::direction_width))]
pub(crate) fn direction_at(case: &[i64], offset: usize, f: usize) -> usize
    ensures { result ≡ min (direction_at case.now offset f) (length case.now) }
{
    let end = case.len();
    along(
        end,
        along(end, offset, STATION, 1),
        f,
        direction_width(case),
    )
}

#[tactic(auto, unfolding(crate::specs::law::Layout::state_at))]
pub(crate) fn state_at(case: &[i64], offset: usize, z: usize) -> usize
    ensures { result ≡ min (state_at case.now offset z) (length case.now) }
{
    let directions = count(case, offset, 0);
    along(case.len(), direction_at(case, offset, directions), z, STATE)
}

// The last index of `n` items, -1 where there are none: as a field's upper limit it lets no index pass, so no Option is asked apart.
pub(crate) fn last(n: usize) -> i64
    requires { n < 2 ^ 63 }
    ensures { result ≡ last_of n }
{
    (n as i64) - 1
}
