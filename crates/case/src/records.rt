// Nodes, arcs and stations as records by value; read.rt reads them off the list.
// An arc's kind stays the list's number: document 01 names the form "match on the kind number chooses ranges, flow, pressure and machine rules". So does
// a node's, as the law's record has a number, and so do `bothways` and `active`: a record is read before 11 has said that they are 0 or 1, and a bool would
// need a place for the others.
use super::extents::STATIONS;
use numbers::answer::Answer;

// A node, with its bounds and its demand in one step.
#[derive(Clone, Copy, Debug, PartialEq, Eq)]
pub struct Node {
    pub kind: usize, // 0 inner, 1 source, 2 sink
    pub p0: i64,
    pub low: i64,
    pub high: i64,
    pub actlow: i64,
    pub acthigh: i64,
    pub demand: i64,
}

// What an arc of every kind has.
#[derive(Clone, Copy, Debug, PartialEq, Eq)]
pub struct Arc {
    pub kind: usize, // 0 valve, 1 regulator, 2 pipe, 3 shortcut, 4 regulating, 5 compressor, 6 combined
    pub from: usize,
    pub to: usize,
    pub qmax: i64,
}

// What a pipe has besides.
#[derive(Clone, Copy, Debug, PartialEq, Eq)]
pub struct Pipe {
    pub c: i64, // g per mbar
    pub f: i64, // friction at from, millionths of a mbar per g/s
    pub g: i64, // friction at to
    pub h: i64, // slope, millionths
}

// What an artificial arc has besides.
#[derive(Clone, Copy, Debug, PartialEq, Eq)]
pub struct Artificial {
    pub station: usize,
    pub bothways: usize,
    pub weight: usize,
    pub active: usize, // at step 0
    pub machines: i64, // a set
    pub most: usize, // most machines
    pub outbound: i64,
}

#[derive(Clone, Copy, Debug, PartialEq, Eq)]
pub struct Station {
    pub directions: usize,
    pub states: usize,
    pub machines: usize,
    pub direction: usize, // at step 0
    pub state: usize, // at step 0
}

#[derive(Clone, Copy, Debug, PartialEq, Eq)]
pub struct Direction {
    pub entry: i64, // a node set
    pub exit: i64, // a node set
    pub weight: usize,
}

#[derive(Clone, Copy, Debug, PartialEq, Eq)]
pub struct State {
    pub directions: i64, // a set of the station's directions
    pub on: i64, // a set of the station's arcs
    pub off: i64, // a set of the station's arcs
    pub weight: usize,
}

#[derive(Clone, Copy, Debug, PartialEq, Eq)]
pub struct Machine {
    pub flow: i64,
    pub ratio: i64, // thousandths
}

// What is found once of a station: where its rows begin, and its nodes.
#[derive(Clone, Copy, Debug, Default, PartialEq, Eq)]
pub struct Site {
    pub offset: usize,
    pub nodes: i64, // a node set
}

// What is found once for a case, so that no judge of a step looks for it again. Its array has a room for each station, as there is no heap.
#[derive(Clone, Copy, Debug, PartialEq, Eq)]
pub struct Layout {
    pub steps: usize,
    pub nodes: usize,
    pub arcs: usize,
    pub stations: usize,
    pub sites: [Site; STATIONS],
    pub plain: i64, // the nodes that end an arc of kind 0 to 2, a node set
}

// The answer on a case, and its layout where 10 to 12 have let the list pass. Not a Result: the layout is promised beside
// a no of 13 to 17 too, and the promise is public.
#[derive(Clone, Copy, Debug, PartialEq, Eq)]
pub struct Laying {
    pub answer: Answer,
    pub layout: Layout,
}
