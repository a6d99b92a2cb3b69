// Nodes, arcs and stations read off the list. Every function is total: a number past the end reads as 0.
ghost use Rattle.std.specs.Prelude.{◌≡◌, ◌+◌, min, length};
ghost use Rattle.case.specs.law.Layout.{machine_at, machine_width};
ghost use Rattle.case.specs.law.Records.{time_of, time_before, node_of, arc_of, artificial_of, station_row, direction_row, state_row, machine_from};

use super::offsets::{
    HEAD, along, arc_at, bounds_at, count, demand_at, direction_at, machine_width, node_at, number,
    state_at,
};
use super::records::{Arc, Artificial, Direction, Machine, Node, State, Station};

// The time at which the step with index `i` ends: index 0 is document 01's step 1.
pub fn time(case: &[i64], i: usize) -> i64
    ensures { result ≡ time_of case.now i }
{
    number(case, HEAD, i)
}

// The time at which it begins.
pub fn time_before(case: &[i64], i: usize) -> i64
    ensures { result ≡ time_before case.now i }
{
    if i == 0 { 0 } else { time(case, i - 1) }
}

pub fn node(case: &[i64], v: usize, i: usize) -> Node
    ensures { result ≡ node_of case.now v i }
{
    let offset = node_at(case, v);
    let bounds = bounds_at(case, offset, i);
    Node {
        kind: count(case, offset, 0),
        p0: number(case, offset, 1),
        low: number(case, bounds, 0),
        high: number(case, bounds, 1),
        actlow: number(case, bounds, 2),
        acthigh: number(case, bounds, 3),
        demand: number(case, demand_at(case, offset, i), 0),
    }
}

pub(crate) fn arc(case: &[i64], e: usize) -> Arc
    ensures { result ≡ arc_of case.now e }
{
    let offset = arc_at(case, e);
    Arc {
        kind: count(case, offset, 0),
        from: count(case, offset, 1),
        to: count(case, offset, 2),
        qmax: number(case, offset, 3),
    }
}

pub(crate) fn artificial(case: &[i64], e: usize) -> Artificial
    ensures { result ≡ artificial_of case.now e }
{
    let offset = arc_at(case, e);
    Artificial {
        station: count(case, offset, 4),
        bothways: count(case, offset, 5),
        weight: count(case, offset, 6),
        active: count(case, offset, 7),
        machines: number(case, offset, 8),
        most: count(case, offset, 9),
        outbound: number(case, offset, 10),
    }
}

// The station whose rows begin at `offset`, and its directions, states and machines.
pub fn station(case: &[i64], offset: usize) -> Station
    ensures { result ≡ station_row case.now offset }
{
    Station {
        directions: count(case, offset, 0),
        states: count(case, offset, 1),
        machines: count(case, offset, 2),
        direction: count(case, offset, 3),
        state: count(case, offset, 4),
    }
}

pub fn direction(case: &[i64], offset: usize, f: usize) -> Direction
    ensures { result ≡ direction_row case.now offset f }
{
    let at = direction_at(case, offset, f);
    Direction {
        entry: number(case, at, 0),
        exit: number(case, at, 1),
        weight: count(case, at, 2),
    }
}

pub fn state(case: &[i64], offset: usize, z: usize) -> State
    ensures { result ≡ state_row case.now offset z }
{
    let at = state_at(case, offset, z);
    State {
        directions: number(case, at, 0),
        on: number(case, at, 1),
        off: number(case, at, 2),
        weight: count(case, at, 3),
    }
}

// Where the rows of the station's machines begin, or the end.
#[tactic(auto, unfolding(crate::specs::law::Layout::machine_at))]
pub fn first_machine(case: &[i64], offset: usize) -> usize
    ensures { result ≡ min (machine_at case.now offset 0) (length case.now) }
{
    let states = count(case, offset, 1);
    state_at(case, offset, states)
}

// Where the row of the machine ends whose row begins at `at`, or the end: the next machine's begins there.
#[tactic(auto, unfolding(crate::specs::law::Layout::machine_width))]
pub fn past_machine(case: &[i64], at: usize) -> usize
    ensures { result ≡ min (at + machine_width case.now at) (length case.now) }
{
    along(case.len(), at, 1, machine_width(case, at))
}

// The machine whose row begins at `at`.
pub fn machine_from(case: &[i64], at: usize) -> Machine
    ensures { result ≡ machine_from case.now at }
{
    Machine {
        flow: number(case, at, 0),
        ratio: number(case, at, 1),
    }
}
