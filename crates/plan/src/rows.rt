// The rows of one step as records by value, read off the step's part of the plan list. A number past the end reads as 0.
ghost use Rattle.std.specs.Prelude.{◌≡◌, ◌<◌};
ghost use Rattle.case.specs.law.Layout.{arcs_of, stations_of};
ghost use Rattle.plan.specs.law.PlanRecords.{node_row, pressure_in, arc_row, choice_of};

use super::accepted::Accepted;
use numbers::compare::at;

#[derive(Clone, Copy, Debug, PartialEq, Eq)]
pub struct NodeRow {
    pub p: i64,
    pub d: i64,
    pub splus: i64,
    pub sminus: i64,
    pub uplus: i64,
    pub uminus: i64,
}

#[derive(Clone, Copy, Debug, PartialEq, Eq)]
pub struct ArcRow {
    pub a: i64,
    pub b: i64,
    pub setting: i64,
    pub machines: i64, // a set
}

// A station's row.
#[derive(Clone, Copy, Debug, PartialEq, Eq)]
pub struct Choice {
    pub direction: i64,
    pub state: i64,
}

pub(crate) fn node_row(rows: &[i64], v: usize) -> NodeRow
    requires { v < 1000000 }
    ensures { result ≡ node_row rows.now v }
{
    let offset = v * 6;
    NodeRow {
        p: at(rows, offset),
        d: at(rows, offset + 1),
        splus: at(rows, offset + 2),
        sminus: at(rows, offset + 3),
        uplus: at(rows, offset + 4),
        uminus: at(rows, offset + 5),
    }
}

// A node's pressure alone.
pub(crate) fn pressure(rows: &[i64], v: usize) -> i64
    requires { v < 1000000 }
    ensures { result ≡ pressure_in rows.now v }
{
    at(rows, v * 6)
}

impl Accepted<'_> {
    #[tactic(auto, using(crate::proofs::CaseFacts::few))]
    pub(crate) fn arc_row(&self, rows: &[i64], e: usize) -> ArcRow
        requires { e < arcs_of self.now.list.now }
        ensures { result ≡ arc_row self.now.list.now rows.now e }
    {
        let offset = self.layout.nodes * 6 + e * 4;
        ArcRow {
            a: at(rows, offset),
            b: at(rows, offset + 1),
            setting: at(rows, offset + 2),
            machines: at(rows, offset + 3),
        }
    }

    #[tactic(auto, using(crate::proofs::CaseFacts::few))]
    pub(crate) fn choice_of(&self, rows: &[i64], s: usize) -> Choice
        requires { s < stations_of self.now.list.now }
        ensures { result ≡ choice_of self.now.list.now rows.now s }
    {
        let offset = self.layout.nodes * 6 + self.layout.arcs * 4 + s * 2;
        Choice {
            direction: at(rows, offset),
            state: at(rows, offset + 1),
        }
    }
}
