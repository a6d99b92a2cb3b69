// The upper layer: a plan judged against its case, rules 20 to 33, the six totals, and the ledger of a region.
#![tactic(auto)]

mod arrays; // arrays.rt: arrays that are filled from the front
pub mod sums; // sums.rt: a sum over indices
pub mod accepted; // accepted.rt: nodes and arcs of an accepted case
pub mod rows; // rows.rt: the rows of one step as records
pub mod setting; // setting.rt: an arc's setting, read off kind and number
pub mod nodes; // nodes.rt: 21 to 23
pub mod flows; // flows.rt: 24 and 25
pub mod machines; // machines.rt: sums over the machines of a set
pub mod pressures; // pressures.rt: 26 and 27
pub mod step; // step.rt: one step of a plan, by what has been answered yes of it
pub mod pipes; // pipes.rt: 28 and 29
pub mod arcs; // arcs.rt: 24 to 29 of every arc
pub mod passes; // passes.rt: what 30 to 32 ask of the arcs, for all stations in one pass
pub mod stations; // stations.rt: 30 to 32
pub mod balance; // balance.rt: 33
pub mod previous; // previous.rt: what is carried from step to step
pub mod totals; // totals.rt: the six totals
pub mod verdict; // verdict.rt: accepted with the totals, or refused
pub mod steps; // steps.rt: one step, and every step
pub mod judge; // judge.rt: the verdict on two lists, and on two byte strings
pub mod figures; // figures.rt: the ledger's six figures, or its refusal
pub mod region; // region.rt: what one step brings into a region and leaves over
pub mod ledger; // ledger.rt: 40, 41 and the figures
