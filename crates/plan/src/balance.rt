// 33, of every node of a step. The arcs are passed once, for all nodes.
ghost use Rattle.std.specs.Prelude.{◌≡◌, ◌<◌, pos, length};
ghost use Rattle.numbers.specs.law.Question.{first_no, found};
ghost use Rattle.numbers.specs.inside.SignedBounds.{Bounded};
ghost use Rattle.case.specs.law.Extents.{node_capacity};
ghost use Rattle.case.specs.law.Layout.{nodes_of, arcs_of};
ghost use Rattle.case.specs.law.LayoutOf.{Holds};
ghost use Rattle.plan.specs.law.Balance.{flow_at_from, flow_at_to, net_flow, node_residual, all_balance_questions};
ghost use Rattle.plan.specs.inside.NetFlow.{moved_at, NetSized};
ghost use Rattle.plan.specs.law.Totals.{node_residuals};

use super::pipes::size;
use super::rows::node_row;
use super::step::Passed;
use case::extents::NODES;
use numbers::answer::{No, ask};
use numbers::compare::at;

// One arc more in the net flows: it takes `out` from node `from` and brings `into` to node `to`.
#[tactic(auto, using(crate::proofs::NetFlows::enters_fits))]
pub(crate) fn moved(net: &mut [i64], from: usize, to: usize, out: i64, into: i64)
    requires { (from < node_capacity) × (to < node_capacity) × (length net.old ≡ node_capacity) ×
        (Bounded out 20000000) × (Bounded into 20000000) × (NetSized net.old) }
    ensures { (length net.new ≡ node_capacity) ×
        (Holds (pos 0) net.new (moved_at net.old from to out into) node_capacity) }
{
    net[from] += out;
    net[to] -= into;
}

// A pipe's flow is a at from and b at to, any other arc's a - b at both.
#[derive(Clone, Copy, Debug, PartialEq, Eq)]
pub struct Ends {
    pub from: i64,
    pub to: i64,
}

impl Passed<'_> {
    #[tactic(auto, using(crate::proofs::NodeParts::flow_laws), unfolding(crate::specs::law::Balance::flow_at_from, crate::specs::law::Balance::flow_at_to))]
    pub(crate) fn end_flows(&self, e: usize) -> Ends
        requires { e < arcs_of self.now.step.case.list.now }
        ensures { (result.from ≡ flow_at_from self.now.step.case.list.now self.now.step.rows.now e) ×
            (result.to ≡ flow_at_to self.now.step.case.list.now self.now.step.rows.now e) }
    {
        let r = self.step.case.arc_row(self.step.rows, e);
        if self.step.case.arc(e).kind == 2 {
            Ends { from: r.a, to: r.b }
        } else {
            let flow = r.a - r.b;
            Ends {
                from: flow,
                to: flow,
            }
        }
    }

    // Each node's flow out less its flow in. Not one function with `artificial_flows`: the law adds up other parts there, and the two share `moved`.
    #[tactic(auto, using(crate::proofs::CaseFacts::asked, crate::proofs::NodeParts::flow_laws, crate::proofs::NodeParts::net_gathered))]
    pub(crate) fn net_flows(&self) -> [i64; NODES]
        ensures { Holds (pos 0) result (net_flow self.now.step.case.list.now self.now.step.rows.now) (nodes_of self.now.step.case.list.now) }
    {
        let case = self.step.case;
        let mut net = [0i64; NODES];
        for e in 0..case.layout.arcs {
            let c = case.arc(e);
            let flow = self.end_flows(e);
            moved(&mut net, c.from, c.to, flow.from, flow.to);
        }
        net
    }

    // The left side of 33, by the node's net flow.
    #[tactic(auto, using(crate::specs::inside::CaseSizes::counted, crate::specs::inside::CaseSizes::duration_sized))]
    pub(crate) fn node_residual(&self, v: usize, net: i64) -> usize
        requires { (v < nodes_of self.now.step.case.list.now) × (net ≡ net_flow self.now.step.case.list.now self.now.step.rows.now v) }
        ensures { result ≡ node_residual self.now.step.case.list.now self.now.step.rows.now self.now.step.i v }
    {
        size(self.step.case.duration(self.step.i)) * size(net - node_row(self.step.rows, v).d)
    }

    // 33 of every node, and the sum of its left sides.
    #[tactic(auto, using(crate::proofs::CaseFacts::asked, crate::proofs::NodeParts::balance_laws), unfolding(crate::specs::inside::Opened::balance))]
    pub(crate) fn balance(&self) -> Result<usize, No>
        ensures { result ≡ found (first_no (all_balance_questions self.now.step.case.list.now self.now.step.rows.now self.now.step.i))
            (node_residuals self.now.step.case.list.now self.now.step.rows.now self.now.step.i) }
    {
        let most = at(self.step.case.list, 5);
        let net = self.net_flows();
        let mut sum: usize = 0;
        for v in 0..self.step.case.layout.nodes {
            let residual = self.node_residual(v, net[v]);
            ask(residual as i64 <= most, 33, self.step.i + 1, v)?;
            sum += residual;
        }
        Ok(sum)
    }
}
