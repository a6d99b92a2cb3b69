// The six totals of an accepted plan, and what a step adds to them.
ghost use Rattle.std.specs.Prelude.{◌≡◌, ◌<◌, ◌+◌, ℕ, not, eqb, pos};
ghost use Rattle.numbers.specs.law.Sums.{only_n};
ghost use Rattle.case.specs.law.Layout.{number_at, nodes_of, arcs_of, stations_of, steps_of};
ghost use Rattle.plan.specs.law.Totals.{pressure_slack_at, demand_slack_at, direction_cost, state_cost, activity_cost, choice_costs, activity_costs};
ghost use Rattle.plan.specs.law.Totals.{pipe_part, pipe_residuals, node_residuals, gas_part, gas_at};
ghost use Rattle.plan.specs.inside.PreviousHolds.{active_of, index_of};
ghost use Rattle.plan.specs.inside.StepTotals.{Slacked, TotalsSized, Added};
ghost use Rattle.plan.specs.inside.Sizes.{PressuresSized};
ghost use Rattle.plan.specs.inside.Preconditions.{StepKept};

use super::accepted::Accepted;
use super::pipes::PipeStep;
use super::previous::Previous;
use super::rows::node_row;
use super::step::{Kept, Pressures, Step};
use super::sums::{sum, sum_n};
use case::extents::{ARCS, NODES, STATIONS};
use case::read::{direction, state};
use numbers::compare::{at, index};

#[derive(Clone, Copy, Debug, PartialEq, Eq)]
pub struct Totals {
    pub pressure: i64, // pressure slack
    pub demand: i64, // demand slack
    pub switching: usize, // switching cost
    pub residual: usize,
    pub opening: i64, // gas in all pipes at 0
    pub closing: i64, // and at k
}

// The two slacks of a step.
#[derive(Clone, Copy, Debug, PartialEq, Eq)]
pub struct Slacks {
    pub pressure: i64,
    pub demand: i64,
}

// The weight of what is chosen, if it was not before.
fn newly<F: Fn(usize) -> usize>(chosen: usize, was: usize, weight: F) -> usize
    requires { F.pre weight chosen }
    ensures { (w : ℕ) → ((r : ℕ) → F.post weight chosen r → r ≡ w) → result ≡ only_n (not (eqb chosen was)) w }
{
    if chosen == was { 0 } else { weight(chosen) }
}

impl Kept<'_> {
    // The pressure slack of a node.
    #[tactic(auto, using(crate::proofs::CaseFacts::few, crate::proofs::PartSizes::each_row), unfolding(crate::specs::law::Totals::pressure_slack_at))]
    fn pressure_slack(&self, v: usize) -> i64
        requires { v < nodes_of self.now.step.case.list.now }
        ensures { result ≡ pressure_slack_at self.now.step.rows.now v }
    {
        let r = node_row(self.step.rows, v);
        r.uplus + r.uminus
    }

    // And its demand slack. Not one function: a closure for the two fields were longer.
    #[tactic(auto, using(crate::proofs::CaseFacts::few, crate::proofs::PartSizes::each_row), unfolding(crate::specs::law::Totals::demand_slack_at))]
    fn demand_slack(&self, v: usize) -> i64
        requires { v < nodes_of self.now.step.case.list.now }
        ensures { result ≡ demand_slack_at self.now.step.rows.now v }
    {
        let r = node_row(self.step.rows, v);
        r.splus + r.sminus
    }

    #[tactic(auto, using(crate::proofs::PartSizes::parts))]
    pub(crate) fn slacks(&self) -> Slacks
        ensures { Slacked self.now.step.case.list.now self.now.step.rows.now result }
    {
        let nodes = self.step.case.layout.nodes;
        Slacks {
            pressure: sum(nodes, |v| self.pressure_slack(v)),
            demand: sum(nodes, |v| self.demand_slack(v)),
        }
    }

    // The weight of the direction of station `s`, if it is newly chosen.
    #[tactic(auto, unfolding(crate::specs::law::Totals::direction_cost))]
    fn direction_cost(&self, s: usize, was: usize) -> usize
        requires { s < stations_of self.now.step.case.list.now }
        ensures { result ≡ direction_cost self.now.step.case.list.now was self.now.step.rows.now s }
    {
        let case = self.step.case;
        let offset = case.station_at(s);
        let chosen = index(case.choice_of(self.step.rows, s).direction);
        newly(chosen, was, |f| direction(case.list, offset, f).weight)
    }

    // The weight of its state, if that is newly chosen: as that of a direction, by another row and another field.
    #[tactic(auto, unfolding(crate::specs::law::Totals::state_cost))]
    fn state_cost(&self, s: usize, was: usize) -> usize
        requires { s < stations_of self.now.step.case.list.now }
        ensures { result ≡ state_cost self.now.step.case.list.now was self.now.step.rows.now s }
    {
        let case = self.step.case;
        let offset = case.station_at(s);
        let chosen = index(case.choice_of(self.step.rows, s).state);
        newly(chosen, was, |z| state(case.list, offset, z).weight)
    }

    #[tactic(auto, using(crate::proofs::PartSizes::parts), unfolding(crate::specs::law::Totals::choice_costs, crate::specs::law::Totals::choice_cost))]
    pub(crate) fn choice_costs(
        &self,
        directions: [usize; STATIONS],
        states: [usize; STATIONS],
    ) -> usize
        ensures { result ≡ choice_costs self.now.step.case.list.now (index_of directions) (index_of states) self.now.step.rows.now }
    {
        sum_n(self.step.case.layout.stations, |s| {
            self.direction_cost(s, directions[s]) + self.state_cost(s, states[s])
        })
    }

    // The weight of an artificial arc whose activity changed.
    #[tactic(auto, unfolding(crate::specs::law::Totals::activity_cost))]
    fn activity_cost(&self, e: usize, was: bool) -> usize
        requires { e < arcs_of self.now.step.case.list.now }
        ensures { result ≡ activity_cost self.now.step.case.list.now was self.now.step.rows.now e }
    {
        let case = self.step.case;
        if 3 <= case.arc(e).kind && was != (1 <= case.arc_row(self.step.rows, e).setting) {
            case.artificial(e).weight
        } else {
            0
        }
    }

    #[tactic(auto, using(crate::proofs::PartSizes::parts), unfolding(crate::specs::law::Totals::activity_costs))]
    pub(crate) fn activity_costs(&self, active: [bool; ARCS]) -> usize
        ensures { result ≡ activity_costs self.now.step.case.list.now (active_of active) self.now.step.rows.now }
    {
        let arcs = self.step.case.layout.arcs;
        sum_n(arcs, |e| self.activity_cost(e, active[e]))
    }

    // The left side of 28, of a pipe.
    #[tactic(auto, unfolding(crate::specs::law::Totals::pipe_part))]
    fn pipe_part(&self, e: usize) -> usize
        requires { e < arcs_of self.now.step.case.list.now }
        ensures { result ≡ pipe_part self.now.step.case.list.now (number_at self.now.step.old.now) self.now.step.rows.now self.now.step.i e }
    {
        if self.step.case.arc(e).kind == 2 {
            PipeStep { step: self.step, e }.residual()
        } else {
            0
        }
    }

    #[tactic(auto, using(crate::proofs::PartSizes::parts), unfolding(crate::specs::law::Totals::pipe_residuals))]
    pub(crate) fn pipe_residuals(&self) -> usize
        ensures { result ≡ pipe_residuals self.now.step.case.list.now (number_at self.now.step.old.now) self.now.step.rows.now self.now.step.i }
    {
        sum_n(self.step.case.layout.arcs, |e| self.pipe_part(e))
    }
}

impl Pressures<'_> {
    // A pipe's gas.
    #[tactic(auto, unfolding(crate::specs::law::Totals::gas_part))]
    pub(crate) fn pipe_gas(&self, e: usize) -> i64
        requires { e < arcs_of self.now.case.list.now }
        ensures { result ≡ gas_part self.now.case.list.now (number_at self.now.list.now) e }
    {
        let c = self.case.arc(e);
        if c.kind == 2 {
            self.case.pipe(e).c * (at(self.list, c.from) + at(self.list, c.to))
        } else {
            0
        }
    }

    // The gas in all pipes.
    #[tactic(auto, using(crate::proofs::PartSizes::parts), unfolding(crate::specs::law::Totals::gas_at))]
    pub(crate) fn gas(&self) -> i64
        ensures { result ≡ gas_at self.now.case.list.now (number_at self.now.list.now) }
    {
        sum(self.case.layout.arcs, |e| self.pipe_gas(e))
    }
}

impl Accepted<'_> {
    // The gas in all pipes by pressures in an array.
    pub(crate) fn gas_at(&self, pressures: [i64; NODES]) -> i64
        requires { PressuresSized (number_at pressures) (nodes_of self.now.list.now) }
        ensures { result ≡ gas_at self.now.list.now (number_at pressures) }
    {
        Pressures {
            case: *self,
            list: &pressures,
        }
        .gas()
    }
}

impl Totals {
    // None yet, but for the gas before step 1.
    pub(crate) fn opened(gas: i64) -> Totals
        ensures { result ≡ record { pressure = pos 0; demand = pos 0; switching = 0; residual = 0; opening = gas; closing = pos 0 } }
    {
        Totals {
            pressure: 0,
            demand: 0,
            switching: 0,
            residual: 0,
            opening: gas,
            closing: 0,
        }
    }

    // With one step more, whose part of the plan is `rows`; `nodes` is the sum of its left sides of 33.
    #[tactic(auto, using(crate::proofs::PartSizes::step_sums, crate::proofs::StepGroups::answered))]
    pub(crate) fn added(
        self,
        case: &Accepted,
        previous: Previous,
        rows: &[i64],
        i: usize,
        nodes: usize,
    ) -> Totals
        requires { (TotalsSized self) × (i < steps_of case.now.list.now) × (StepKept case.now.list.now previous.pressures rows.now i) ×
            (nodes ≡ node_residuals case.now.list.now rows.now i) }
        ensures { Added case.now.list.now rows.now previous i self result }
    {
        let step = Step {
            case: *case,
            old: &previous.pressures,
            rows,
            i,
        };
        let kept = Kept { step };
        let slack = kept.slacks();
        let choices = kept.choice_costs(previous.directions, previous.states);
        let activity = kept.activity_costs(previous.active);
        let pipes = kept.pipe_residuals();
        Totals {
            pressure: self.pressure + slack.pressure,
            demand: self.demand + slack.demand,
            switching: self.switching + (choices + activity),
            residual: self.residual + (pipes + nodes),
            opening: self.opening,
            closing: self.closing,
        }
    }

    // With the gas past the last step.
    pub(crate) fn closed(self, gas: i64) -> Totals
        ensures { result ≡ record {
          pressure = self.pressure;
          demand = self.demand;
          switching = self.switching;
          residual = self.residual;
          opening = self.opening;
          closing = gas;
        } }
    {
        Totals {
            closing: gas,
            ..self
        }
    }
}
