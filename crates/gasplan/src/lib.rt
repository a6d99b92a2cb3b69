// The library for programs in other languages. Each function answers 0, with its values at the front of `out`; or the number of the question that
// has a "no", with step and place in out[0] and out[1]; or -1, and touches nothing, where `out` has fewer than 6 places.
#![tactic(auto)]

pub mod codec; // codec.rt: groups of seven
pub mod judge; // judge.rt: case and plan
pub mod ledger; // ledger.rt: a region's figures
pub mod meters; // meters.rt: two meters at a border point
mod tell; // tell.rt: answers as the other side sees them
