// A region is a set of nodes: its inner pipes, its edge, and what one step brings in and leaves over.
ghost use Rattle.std.specs.Prelude.{◌≡◌, ◌<◌};
ghost use Rattle.numbers.specs.inside.SignedBounds.{Bounded};
ghost use Rattle.case.specs.law.Extents.{node_capacity};
ghost use Rattle.case.specs.law.Layout.{number_at, nodes_of, arcs_of, steps_of};
ghost use Rattle.plan.specs.inside.Preconditions.{StepKept};
ghost use Rattle.plan.specs.law.Balance.{net_flow};
ghost use Rattle.plan.specs.law.Region.{inward, inner_pipe, inner_pipes, inner_gas, region_gas, edge_flow, edge_flows, region_supply, supplies_in, brought_in};
ghost use Rattle.plan.specs.law.RegionResidual.{own_node, own_nodes, own_pipe, own_pipes};
ghost use Rattle.plan.specs.inside.RegionSet.{inside_of};
ghost use Rattle.plan.specs.inside.RegionPreconditions.{RegionRoom, RegionAdded};

use super::accepted::Accepted;
use super::pipes::PipeStep;
use super::rows::node_row;
use super::step::{Kept, Passed, Pressures, Step};
use super::sums::{sum, sum_n};
use case::extents::NODES;

// The region as an array has a bool for each node. No node past its end is inside.
#[tactic(auto, unfolding(crate::specs::inside::RegionSet::inside_of))]
fn is_inside(inside: &[bool], v: usize) -> bool
    ensures { result ≡ inside_of inside.now v }
{
    inside.get(v).copied().unwrap_or(false)
}

impl Accepted<'_> {
    // Is the arc a pipe with both ends in the region?
    pub(crate) fn inner_pipe(&self, inside: &[bool], e: usize) -> bool
        requires { e < arcs_of self.now.list.now }
        ensures { result ≡ inner_pipe self.now.list.now (inside_of inside.now) e }
    {
        let c = self.arc(e);
        c.kind == 2 && is_inside(inside, c.from) && is_inside(inside, c.to)
    }

    #[tactic(auto, using(crate::proofs::PartSizes::parts), unfolding(crate::specs::law::Region::inner_pipes, numbers::specs::law::Sums::count))]
    pub(crate) fn inner_pipes(&self, inside: &[bool]) -> usize
        ensures { result ≡ inner_pipes self.now.list.now (inside_of inside.now) }
    {
        let arcs = self.layout.arcs;
        sum_n(arcs, |e| usize::from(self.inner_pipe(inside, e)))
    }
}

impl Pressures<'_> {
    // An inner pipe's gas. That of a pipe of the edge is not counted.
    #[tactic(auto, unfolding(crate::specs::law::Region::inner_gas, crate::specs::law::Totals::gas_part))]
    fn inner_gas(&self, inside: &[bool], e: usize) -> i64
        requires { e < arcs_of self.now.case.list.now }
        ensures { result ≡ inner_gas self.now.case.list.now (inside_of inside.now) (number_at self.now.list.now) e }
    {
        if self.case.inner_pipe(inside, e) {
            self.pipe_gas(e)
        } else {
            0
        }
    }

    #[tactic(auto, using(crate::proofs::PartSizes::parts), unfolding(crate::specs::law::Region::region_gas))]
    pub(crate) fn region_gas(&self, inside: &[bool]) -> i64
        ensures { result ≡ region_gas self.now.case.list.now (inside_of inside.now) (number_at self.now.list.now) }
    {
        sum(self.case.layout.arcs, |e| self.inner_gas(inside, e))
    }
}

// What flows in through an arc, by whether it begins and ends inside.
fn inward(begins: bool, ends: bool, from: i64, to: i64) -> i64
    requires { Bounded from 20000000 }
    ensures { result ≡ inward begins ends from to }
{
    match (begins, ends) {
        (true, false) => -from,
        (false, true) => to,
        _ => 0,
    }
}

// d at a node, if it is inside.
#[tactic(auto, unfolding(crate::specs::law::Region::region_supply))]
fn supply(inside: &[bool], rows: &[i64], v: usize) -> i64
    requires { v < node_capacity }
    ensures { result ≡ region_supply (inside_of inside.now) rows.now v }
{
    if is_inside(inside, v) {
        node_row(rows, v).d
    } else {
        0
    }
}

impl Kept<'_> {
    #[tactic(auto, using(crate::specs::inside::RegionSizes::from_small), unfolding(crate::specs::law::Region::edge_flow))]
    fn edge_flow(&self, inside: &[bool], e: usize) -> i64
        requires { e < arcs_of self.now.step.case.list.now }
        ensures { result ≡ edge_flow self.now.step.case.list.now (inside_of inside.now) self.now.step.rows.now e }
    {
        let c = self.step.case.arc(e);
        let flow = Passed { step: self.step }.end_flows(e);
        let begins = is_inside(inside, c.from);
        let ends = is_inside(inside, c.to);
        inward(begins, ends, flow.from, flow.to)
    }

    #[tactic(auto, using(crate::proofs::PartSizes::parts), unfolding(crate::specs::law::Region::edge_flows))]
    fn edge_flows(&self, inside: &[bool]) -> i64
        ensures { result ≡ edge_flows self.now.step.case.list.now (inside_of inside.now) self.now.step.rows.now }
    {
        sum(self.step.case.layout.arcs, |e| self.edge_flow(inside, e))
    }

    #[tactic(auto, using(crate::proofs::PartSizes::parts), unfolding(crate::specs::law::Region::supplies_in))]
    fn supplies(&self, inside: &[bool]) -> i64
        ensures { result ≡ supplies_in self.now.step.case.list.now (inside_of inside.now) self.now.step.rows.now }
    {
        let nodes = self.step.case.layout.nodes;
        sum(nodes, |v| supply(inside, self.step.rows, v))
    }

    fn brought_in(&self, inside: &[bool]) -> i64
        ensures { result ≡ brought_in self.now.step.case.list.now (inside_of inside.now) self.now.step.rows.now self.now.step.i }
    {
        self.step.case.duration(self.step.i) * (self.supplies(inside) + self.edge_flows(inside))
    }

    // The left side of 33 at a node with the net flow `net`, if it is inside.
    #[tactic(auto, unfolding(crate::specs::law::RegionResidual::own_node))]
    fn own_node(&self, inside: &[bool], v: usize, net: i64) -> usize
        requires { (v < nodes_of self.now.step.case.list.now) × (net ≡ net_flow self.now.step.case.list.now self.now.step.rows.now v) }
        ensures { result ≡ own_node self.now.step.case.list.now (inside_of inside.now) self.now.step.rows.now self.now.step.i v }
    {
        if is_inside(inside, v) {
            Passed { step: self.step }.node_residual(v, net)
        } else {
            0
        }
    }

    #[tactic(auto, using(crate::proofs::PartSizes::parts), unfolding(crate::specs::law::RegionResidual::own_nodes))]
    fn own_nodes(&self, inside: &[bool]) -> usize
        ensures { result ≡ own_nodes self.now.step.case.list.now (inside_of inside.now) self.now.step.rows.now self.now.step.i }
    {
        let net = Passed { step: self.step }.net_flows();
        let nodes = self.step.case.layout.nodes;
        sum_n(nodes, |v| self.own_node(inside, v, net[v]))
    }

    // The left side of 28 at an inner pipe.
    #[tactic(auto, unfolding(crate::specs::law::RegionResidual::own_pipe))]
    fn own_pipe(&self, inside: &[bool], e: usize) -> usize
        requires { e < arcs_of self.now.step.case.list.now }
        ensures { result ≡ own_pipe self.now.step.case.list.now (inside_of inside.now) (number_at self.now.step.old.now) self.now.step.rows.now
            self.now.step.i e }
    {
        if self.step.case.inner_pipe(inside, e) {
            PipeStep { step: self.step, e }.residual()
        } else {
            0
        }
    }

    // As `edge_flows`, one sum over the arcs, of other parts.
    #[tactic(auto, using(crate::proofs::PartSizes::parts), unfolding(crate::specs::law::RegionResidual::own_pipes))]
    fn own_pipes(&self, inside: &[bool]) -> usize
        ensures { result ≡ own_pipes self.now.step.case.list.now (inside_of inside.now) (number_at self.now.step.old.now) self.now.step.rows.now
            self.now.step.i }
    {
        sum_n(self.step.case.layout.arcs, |e| self.own_pipe(inside, e))
    }
}

// What is carried from step to step: the pressures, the gas brought in and the residual so far.
#[derive(Clone, Copy, Debug, PartialEq, Eq)]
pub struct Gathered {
    pub pressures: [i64; NODES],
    pub brought: i64,
    pub residual: usize,
}

impl Gathered {
    // With one step more, whose part of the plan is `rows`.
    #[tactic(auto, using(crate::proofs::StepGroups::answered))]
    pub(crate) fn with_step(
        self,
        case: &Accepted,
        inside: &[bool],
        rows: &[i64],
        i: usize,
    ) -> Gathered
        requires { (i < steps_of case.now.list.now) × (StepKept case.now.list.now self.pressures rows.now i) × (RegionRoom self) }
        ensures { RegionAdded case.now.list.now (inside_of inside.now) rows.now i self result }
    {
        let step = Step {
            case: *case,
            old: &self.pressures,
            rows,
            i,
        };
        let kept = Kept { step };
        let own = kept.own_nodes(inside) + kept.own_pipes(inside);
        Gathered {
            pressures: case.row_pressures(self.pressures, rows),
            brought: self.brought + kept.brought_in(inside),
            residual: self.residual + own,
        }
    }
}
