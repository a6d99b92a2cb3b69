// A station's arcs and nodes. Every function is total, but for the set of the arcs that are active.
ghost use Rattle.std.specs.Prelude.{◌≡◌, Bool, ℕ, ◌+◌, ◌<◌, ◌≤◌, ◌^◌, pos};
ghost use Rattle.numbers.specs.law.Sums.{only_n};
ghost use Rattle.case.specs.law.Layout.{arcs_of};
ghost use Rattle.case.specs.law.StationArcs.{belongs, station_arcs};
ghost use Rattle.case.specs.law.StationNodes.{with_node, with_ends, ends_of, station_nodes, plain, plain_nodes};
ghost use Rattle.case.specs.law.States.{active_at_start, start_set};

use super::extents::SET_ROOM;
use super::offsets::{arc_at, count};

// Is arc `e` one of station `s`'s artificial arcs?
pub(crate) fn belongs(case: &[i64], s: usize, e: usize) -> bool
    ensures { result ≡ belongs case.now s e }
{
    let offset = arc_at(case, e);
    3 <= count(case, offset, 0) && count(case, offset, 4) == s
}

// Is arc `e` a valve, a regulator or a pipe?
pub(crate) fn plain(case: &[i64], e: usize) -> bool
    ensures { result ≡ plain case.now e }
{
    let offset = arc_at(case, e);
    count(case, offset, 0) <= 2
}

// How many arcs are the station's.
pub(crate) fn station_arcs(case: &[i64], s: usize) -> usize
    ensures { result ≡ station_arcs case.now s }
{
    let arcs = count(case, 0, 2);
    (0..arcs).filter(|e| belongs(case, s, *e)).count()
}

// A set of the station's arcs, with arc `e`, its `n`-th, in it if the arc is active at step 0.
fn with_arc(case: &[i64], set: usize, n: usize, e: usize) -> usize
    requires { (n < 62) × (set < 2 ^ n) }
    ensures { result ≡ set + only_n (active_at_start case.now e) (2 ^ n) }
{
    if active(case, e) {
        set + (1usize << n)
    } else {
        set
    }
}

// Those of the station's arcs that are active at step 0, as a set.
#[tactic(auto, using(crate::proofs::Gathered::own_arcs))]
pub(crate) fn start_set(case: &[i64], s: usize) -> i64
    requires { station_arcs case.now s ≤ 30 }
    ensures { result ≡ start_set case.now s }
{
    let arcs = count(case, 0, 2);
    let mut set: usize = 0;
    // Tried as a filtered range with `enumerate`: the invariant would have to name the list of the arcs that passed, and the proof did not close.
    let mut n: usize = 0;
    for e in 0..arcs {
        if belongs(case, s, e) {
            set = with_arc(case, set, n, e);
            n += 1;
        }
    }
    set as i64
}

// Is arc `e` active at step 0?
pub fn active(case: &[i64], e: usize) -> bool
    ensures { result ≡ active_at_start case.now e }
{
    let offset = arc_at(case, e);
    1 <= count(case, offset, 7)
}

// The set with the node in it.
#[tactic(auto, unfolding(crate::specs::law::StationNodes::with_node))]
fn with_node(set: usize, v: usize) -> usize
    ensures { result ≡ with_node set v }
{
    if v < SET_ROOM {
        set | (1usize << v)
    } else {
        set
    }
}

// The set with both ends of arc `e` in it.
fn with_ends(case: &[i64], set: usize, e: usize) -> usize
    ensures { result ≡ with_ends case.now set e }
{
    let offset = arc_at(case, e);
    with_node(
        with_node(set, count(case, offset, 1)),
        count(case, offset, 2),
    )
}

// The ends of the arcs that `named` names, as a node set.
#[tactic(auto, using(crate::proofs::Gathered::ends))]
fn ends<F: Fn(usize) -> bool>(case: &[i64], named: F) -> i64
    requires { F.IsAlwaysCallable named }
    ensures { (w : ℕ → Bool) → ((e : ℕ) (b : Bool) → F.post named e b → b ≡ w e) → result ≡ pos (ends_of case.now w (arcs_of case.now)) }
{
    let arcs = count(case, 0, 2);
    let mut nodes: usize = 0;
    for e in 0..arcs {
        if named(e) {
            nodes = with_ends(case, nodes, e);
        }
    }
    nodes as i64
}

// The ends of the station's arcs, as a node set.
#[tactic(auto, unfolding(crate::specs::law::StationNodes::station_nodes))]
pub(crate) fn station_nodes(case: &[i64], s: usize) -> i64
    ensures { result ≡ station_nodes case.now s }
{
    ends(case, |e| belongs(case, s, e))
}

// The ends of the arcs of kind 0 to 2, as a node set.
#[tactic(auto, unfolding(crate::specs::law::StationNodes::plain_nodes))]
pub(crate) fn plain_nodes(case: &[i64]) -> i64
    ensures { result ≡ plain_nodes case.now }
{
    ends(case, |e| plain(case, e))
}
