// The middle layer: a case is a list of numbers. What it holds, as records, and whether it is a case at all.
#![tactic(auto)]

pub mod extents; // extents.rt: the limits of a case's counts, and the capacities of arrays
pub mod offsets; // offsets.rt: where rows begin, for reading
pub mod records; // records.rt: nodes, arcs and stations as records
pub mod read; // read.rt: the records of a list
pub mod fields; // fields.rt: 10 and 11 of one field, and of fields that share a range
pub mod head; // head.rt: 10 and 11 of the head and the times
pub mod nodes; // nodes.rt: 10 and 11 of the node rows
pub mod arcs; // arcs.rt: 10 and 11 of the arc rows
pub mod stations; // stations.rt: 10 and 11 of the station rows, and 12
pub mod members; // members.rt: a station's arcs and nodes
pub mod rules; // rules.rt: 13 to 17
pub mod judge; // judge.rt: the answer on a case, and its layout
