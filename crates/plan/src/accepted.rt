// An accepted case. Its nodes and arcs are read where they stand: 10 to 12 have seen that they are there.
ghost use Rattle.std.specs.Prelude.{◌≡◌, ◌+◌, ◌<◌, ◌≤◌, length};
ghost use Rattle.case.specs.law.Layout.{number_at, count_at, nodes_of, arcs_of, stations_of, steps_of};
ghost use Rattle.case.specs.law.Layout.{node_width, node_at, bounds_in, demand_in, arc_at, station_at};
ghost use Rattle.case.specs.law.LayoutOf.{LayoutOf};
ghost use Rattle.case.specs.law.Records.{node_of, arc_of, pipe_of, artificial_of};
ghost use Rattle.plan.specs.law.Pipes.{duration};
ghost use Rattle.plan.specs.law.PlanLayout.{step_width};
ghost use Rattle.plan.specs.inside.StationPass.{own_station};
ghost use Rattle.plan.specs.inside.Preconditions.{AcceptedCase};

use case::offsets::{ARC, BOUNDS, DEMANDS, HEAD};
use case::read::{time, time_before};
use case::records::{Arc, Artificial, Layout, Node, Pipe};
use numbers::compare::index;

// The number `j` places into the row that begins at `offset`: no struct holds the address, for there is one to each call.
fn number(case: &[i64], offset: usize, j: usize) -> i64
    requires { offset + j < length case.now }
    ensures { result ≡ number_at case.now (offset + j) }
{
    case[offset + j]
}

fn count(case: &[i64], offset: usize, j: usize) -> usize
    requires { offset + j < length case.now }
    ensures { result ≡ count_at case.now (offset + j) }
{
    index(number(case, offset, j))
}

// Where the bounds of the node whose row begins at `offset` stand in the step with index `i`, and where its demand does.
#[tactic(auto, unfolding(case::specs::law::Layout::bounds_in))]
fn bounds_at(case: &[i64], offset: usize, i: usize) -> usize
    requires { offset + demand_in case.now i < length case.now }
    ensures { result ≡ offset + bounds_in case.now i }
{
    offset + BOUNDS
}

#[tactic(auto, unfolding(case::specs::law::Layout::demand_in))]
fn demand_at(case: &[i64], offset: usize, i: usize) -> usize
    requires { offset + demand_in case.now i < length case.now }
    ensures { result ≡ offset + demand_in case.now i }
{
    offset + DEMANDS + i
}

// The list of an accepted case, and its layout. That an index is one of its nodes, arcs, stations or steps stands in the contracts of the methods that take it:
// an index of a type of its own would be made at each turn of a loop, to hold what the loop says.
#[derive(Clone, Copy)]
pub(crate) struct Accepted<'a> {
    pub(crate) list: &'a [i64],
    pub(crate) layout: &'a Layout,
    ghost yes: { AcceptedCase list.now },
    ghost laid: { LayoutOf list.now layout.now },
}

impl Accepted<'_> {
    #[tactic(auto, using(crate::proofs::CaseRows::begins), unfolding(case::specs::law::Layout::node_width))]
    fn node_width(&self) -> usize
        ensures { result ≡ node_width self.now.list.now }
    {
        DEMANDS + self.layout.steps
    }

    #[tactic(auto, using(crate::proofs::CaseRows::begins), unfolding(case::specs::law::Layout::node_at))]
    fn node_at(&self, v: usize) -> usize
        requires { v ≤ nodes_of self.now.list.now }
        ensures { result ≡ node_at self.now.list.now v }
    {
        HEAD + self.layout.steps + v * self.node_width()
    }

    #[tactic(auto, using(crate::proofs::CaseRows::begins), unfolding(case::specs::law::Layout::arc_at))]
    fn arc_at(&self, e: usize) -> usize
        requires { e < arcs_of self.now.list.now }
        ensures { result ≡ arc_at self.now.list.now e }
    {
        self.node_at(self.layout.nodes) + e * ARC
    }

    // Read without asking: with the total readers of `case::read` a judged plan takes 2.7 times as long, and a ledger 2.9 times.
    #[tactic(auto, using(crate::proofs::CaseRows::node_inside))]
    pub(crate) fn node(&self, v: usize, i: usize) -> Node
        requires { (v < nodes_of self.now.list.now) × (i < steps_of self.now.list.now) }
        ensures { result ≡ node_of self.now.list.now v i }
    {
        let case = self.list;
        let offset = self.node_at(v);
        let bounds = bounds_at(case, offset, i);
        Node {
            kind: count(case, offset, 0),
            p0: number(case, offset, 1),
            low: number(case, bounds, 0),
            high: number(case, bounds, 1),
            actlow: number(case, bounds, 2),
            acthigh: number(case, bounds, 3),
            demand: number(case, demand_at(case, offset, i), 0),
        }
    }

    // Read without asking, as are a pipe and an artificial arc, for the reason beside `node`.
    #[tactic(auto, using(crate::proofs::CaseRows::arc_inside))]
    pub(crate) fn arc(&self, e: usize) -> Arc
        requires { e < arcs_of self.now.list.now }
        ensures { result ≡ arc_of self.now.list.now e }
    {
        let case = self.list;
        let offset = self.arc_at(e);
        Arc {
            kind: count(case, offset, 0),
            from: count(case, offset, 1),
            to: count(case, offset, 2),
            qmax: number(case, offset, 3),
        }
    }

    // Not one function with `arc`: it fills another record from other fields.
    #[tactic(auto, using(crate::proofs::CaseRows::arc_inside))]
    pub(crate) fn pipe(&self, e: usize) -> Pipe
        requires { e < arcs_of self.now.list.now }
        ensures { result ≡ pipe_of self.now.list.now e }
    {
        let case = self.list;
        let offset = self.arc_at(e);
        Pipe {
            c: number(case, offset, 4),
            f: number(case, offset, 5),
            g: number(case, offset, 6),
            h: number(case, offset, 7),
        }
    }

    #[tactic(auto, using(crate::proofs::CaseRows::arc_inside))]
    pub(crate) fn artificial(&self, e: usize) -> Artificial
        requires { e < arcs_of self.now.list.now }
        ensures { result ≡ artificial_of self.now.list.now e }
    {
        let case = self.list;
        let offset = self.arc_at(e);
        Artificial {
            station: count(case, offset, 4),
            bothways: count(case, offset, 5),
            weight: count(case, offset, 6),
            active: count(case, offset, 7),
            machines: number(case, offset, 8),
            most: count(case, offset, 9),
            outbound: number(case, offset, 10),
        }
    }

    // The station of an artificial arc, and none of any other arc.
    #[tactic(auto, unfolding(crate::specs::inside::StationPass::own_station))]
    pub(crate) fn own_station(&self, e: usize) -> Option<usize>
        requires { e < arcs_of self.now.list.now }
        ensures { result ≡ own_station self.now.list.now e }
    {
        if 3 <= self.arc(e).kind {
            Some(self.artificial(e).station)
        } else {
            None
        }
    }

    // Where the rows of station `s` begin.
    #[tactic(auto, using(crate::proofs::CaseRows::laid))]
    pub(crate) fn station_at(&self, s: usize) -> usize
        requires { s < stations_of self.now.list.now }
        ensures { result ≡ station_at self.now.list.now s }
    {
        self.layout.sites[s].offset
    }

    // dt
    #[tactic(auto, using(crate::proofs::CaseFacts::few), unfolding(crate::specs::law::Pipes::duration))]
    pub(crate) fn duration(&self, i: usize) -> i64
        requires { i < steps_of self.now.list.now }
        ensures { result ≡ duration self.now.list.now i }
    {
        time(self.list, i) - time_before(self.list, i)
    }

    // How many numbers a step of a plan has.
    #[tactic(auto, using(crate::proofs::CaseFacts::few), unfolding(crate::specs::law::PlanLayout::step_width))]
    pub(crate) fn step_width(&self) -> usize
        ensures { result ≡ step_width self.now.list.now }
    {
        self.layout.nodes * 6 + self.layout.arcs * 4 + self.layout.stations * 2
    }
}
