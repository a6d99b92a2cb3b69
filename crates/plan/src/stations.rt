// 30 to 32, of every station of a step.
ghost use Rattle.std.specs.Prelude.{◌≡◌, ◌<◌};
ghost use Rattle.numbers.specs.law.Question.{first_no};
ghost use Rattle.case.specs.law.Layout.{stations_of};
ghost use Rattle.case.specs.law.Records.{state_row};
ghost use Rattle.case.specs.inside.InSet.{in_both};
ghost use Rattle.plan.specs.law.StationRules.{one_of, obeyed, choice_kept, fence_flow_kept, fence_node_kept, fence_flows_kept};
ghost use Rattle.plan.specs.law.StationRules.{station_questions, all_station_questions};
ghost use Rattle.plan.specs.inside.StationPass.{active_bits, GatheredOf, FlowsPassed};

use super::passes::Gathered;
use super::step::Passed;
use case::read::{direction, state, station};
use case::records::Direction;
use numbers::answer::{Answer, ask};
use numbers::compare::index;
use numbers::sets::{disjoint, member, subset};

// Is it the index of one of `n` items?
#[tactic(auto, using(crate::proofs::Asked::questions))]
fn one_of(x: i64, n: usize) -> bool
    ensures { result ≡ one_of x n }
{
    0 <= x && index(x) < n
}

// Does the state support the direction, and do the active arcs obey it? The station's rows begin at `offset`.
#[tactic(auto, using(crate::proofs::Asked::questions), unfolding(crate::specs::law::StationRules::obeyed))]
fn state_obeyed(case: &[i64], offset: usize, active: i64, f: usize, z: usize) -> bool
    ensures { result ≡ obeyed (state_row case.now offset z) f active }
{
    let x = state(case, offset, z);
    member(x.directions, f) && subset(x.on, active) && disjoint(x.off, active)
}

#[tactic(auto, using(crate::proofs::Asked::questions))]
fn fence_flow_kept(entry: bool, exit: bool, flow: i64) -> bool
    ensures { result ≡ fence_flow_kept entry exit flow }
{
    if entry {
        0 <= flow
    } else if exit {
        flow <= 0
    } else {
        flow == 0
    }
}

// 32 of one node: `inside` are the station's nodes, `plain` the nodes that end an arc of kind 0 to 2; a fence node is in both.
#[tactic(auto, using(crate::proofs::Asked::questions), unfolding(crate::specs::law::StationRules::fence_node_kept, case::specs::inside::InSet::in_both))]
fn fence_kept(chosen: Direction, inside: i64, plain: i64, v: usize, flow: i64) -> bool
    ensures { result ≡ fence_node_kept (in_both inside plain) chosen v flow }
{
    if member(inside, v) && member(plain, v) {
        return fence_flow_kept(member(chosen.entry, v), member(chosen.exit, v), flow);
    }
    true
}

impl Passed<'_> {
    // 30
    #[tactic(auto, using(crate::proofs::StationParts::choice_laws), unfolding(crate::specs::inside::Opened::choice))]
    fn choice_kept(&self, s: usize, active: usize) -> bool
        requires { (s < stations_of self.now.step.case.list.now) × (active ≡ active_bits self.now.step.case.list.now self.now.step.rows.now s) }
        ensures { result ≡ choice_kept self.now.step.case.list.now self.now.step.rows.now s }
    {
        let case = self.step.case;
        let offset = case.station_at(s);
        let has = station(case.list, offset);
        let chosen = case.choice_of(self.step.rows, s);
        one_of(chosen.direction, has.directions)
            && one_of(chosen.state, has.states)
            && state_obeyed(
                case.list,
                offset,
                active as i64,
                index(chosen.direction),
                index(chosen.state),
            )
    }

    // 32
    #[tactic(auto, using(crate::proofs::StationParts::fence_laws), unfolding(crate::specs::law::StationRules::fence_flows_kept))]
    fn fence_flows_kept(&self, s: usize, flows: &[i64]) -> bool
        requires { (s < stations_of self.now.step.case.list.now) × (FlowsPassed self.now.step.case.list.now self.now.step.rows.now flows.now) }
        ensures { result ≡ fence_flows_kept self.now.step.case.list.now self.now.step.rows.now s }
    {
        let case = self.step.case;
        let chosen = direction(
            case.list,
            case.station_at(s),
            index(case.choice_of(self.step.rows, s).direction),
        );
        let inside = case.layout.sites[s].nodes;
        let plain = case.layout.plain;
        for v in 0..case.layout.nodes {
            if !fence_kept(chosen, inside, plain, v, flows[v]) {
                return false;
            }
        }
        true
    }

    // `own` is what was gathered of the station's arcs, `flows` are the net flows into artificial arcs.
    #[tactic(auto, using(crate::proofs::CaseFacts::asked), unfolding(crate::specs::law::StationRules::station_questions))]
    fn station_answer(&self, s: usize, own: Gathered, flows: &[i64]) -> Answer
        requires { (s < stations_of self.now.step.case.list.now) × (GatheredOf self.now.step.case.list.now self.now.step.rows.now s own) ×
            (FlowsPassed self.now.step.case.list.now self.now.step.rows.now flows.now) }
        ensures { result ≡ first_no (station_questions self.now.step.case.list.now self.now.step.rows.now self.now.step.i s) }
    {
        let step = self.step.i + 1;
        ask(self.choice_kept(s, own.active), 30, step, s)?;
        ask(own.once, 31, step, s)?;
        ask(self.fence_flows_kept(s, flows), 32, step, s)
    }

    #[tactic(auto, using(crate::proofs::StationParts::choice_laws), unfolding(crate::specs::law::StationRules::all_station_questions))]
    pub(crate) fn station_answers(&self) -> Answer
        ensures { result ≡ first_no (all_station_questions self.now.step.case.list.now self.now.step.rows.now self.now.step.i) }
    {
        let stations = self.step.case.layout.stations;
        if stations == 0 {
            return Ok(()); // and nothing is gathered for them
        }
        let own = self.gather();
        let flows = self.artificial_flows();
        for s in 0..stations {
            self.station_answer(s, own[s], &flows)?;
        }
        Ok(())
    }
}
