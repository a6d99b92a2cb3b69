// 21 to 23, of every node of a step.
ghost use Rattle.std.specs.Prelude.{◌≡◌, ◌<◌};
ghost use Rattle.numbers.specs.law.Question.{first_no};
ghost use Rattle.case.specs.law.Layout.{nodes_of, steps_of};
ghost use Rattle.plan.specs.law.NodeRules.{slack_limit, slacks_kept, boundary_flow_kept, node_numbers_kept, demand_met, active_bounds_kept};
ghost use Rattle.plan.specs.law.NodeRules.{node_questions, all_node_questions};
ghost use Rattle.plan.specs.inside.Sizes.{NodeSized, NodeRowSized};

use super::accepted::Accepted;
use super::rows::{NodeRow, node_row};
use case::records::Node;
use numbers::answer::{Answer, ask};
use numbers::compare::within;

// The upper limit of a slack, 0 at an inner node.
fn slack_limit(kind: usize, limit: i64) -> i64
    ensures { result ≡ slack_limit kind limit }
{
    if kind == 0 { 0 } else { limit }
}

#[tactic(auto, unfolding(crate::specs::law::NodeRules::slacks_kept))]
fn slacks_kept(n: Node, r: NodeRow) -> bool
    requires { NodeSized n }
    ensures { result ≡ slacks_kept n r }
{
    let demand = slack_limit(n.kind, 10000000);
    let low = slack_limit(n.kind, n.actlow - n.low);
    let high = slack_limit(n.kind, n.high - n.acthigh);
    within(0, r.splus, demand)
        && within(0, r.sminus, demand)
        && within(0, r.uplus, low)
        && within(0, r.uminus, high)
}

// The range of the actual boundary flow goes by the node's kind.
#[tactic(auto, unfolding(crate::specs::law::NodeRules::boundary_flow_kept))]
fn flow_kept(kind: usize, d: i64) -> bool
    ensures { result ≡ boundary_flow_kept kind d }
{
    match kind {
        1 => within(0, d, 10000000),
        2 => within(-10000000, d, 0),
        _ => d == 0,
    }
}

// 21
#[tactic(auto, unfolding(crate::specs::law::NodeRules::node_numbers_kept))]
fn numbers_kept(n: Node, r: NodeRow) -> bool
    requires { NodeSized n }
    ensures { result ≡ node_numbers_kept n r }
{
    within(n.low, r.p, n.high) && flow_kept(n.kind, r.d) && slacks_kept(n, r)
}

// 22
#[tactic(auto, unfolding(crate::specs::law::NodeRules::demand_met))]
fn demand_met(n: Node, r: NodeRow) -> bool
    requires { NodeRowSized r }
    ensures { result ≡ demand_met n r }
{
    n.kind == 0 || r.d + r.splus - r.sminus == n.demand
}

// 23
#[tactic(auto, unfolding(crate::specs::law::NodeRules::active_bounds_kept))]
fn active_bounds_kept(n: Node, r: NodeRow) -> bool
    requires { NodeRowSized r }
    ensures { result ≡ active_bounds_kept n r }
{
    n.demand == 0 || n.actlow <= r.p + r.uplus && r.p - r.uminus <= n.acthigh
}

impl Accepted<'_> {
    #[tactic(auto, using(crate::proofs::CaseFacts::node_asked), unfolding(crate::specs::law::NodeRules::node_questions))]
    fn node_answer(&self, rows: &[i64], i: usize, v: usize) -> Answer
        requires { (i < steps_of self.now.list.now) × (v < nodes_of self.now.list.now) }
        ensures { result ≡ first_no (node_questions self.now.list.now rows.now i v) }
    {
        let n = self.node(v, i);
        let r = node_row(rows, v);
        ask(numbers_kept(n, r), 21, i + 1, v)?;
        ask(demand_met(n, r), 22, i + 1, v)?;
        ask(active_bounds_kept(n, r), 23, i + 1, v)
    }

    #[tactic(auto, using(crate::proofs::CaseFacts::asked), unfolding(crate::specs::law::NodeRules::all_node_questions))]
    pub(crate) fn node_answers(&self, rows: &[i64], i: usize) -> Answer
        requires { i < steps_of self.now.list.now }
        ensures { result ≡ first_no (all_node_questions self.now.list.now rows.now i) }
    {
        for v in 0..self.layout.nodes {
            self.node_answer(rows, i, v)?;
        }
        Ok(())
    }
}
