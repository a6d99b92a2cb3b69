// What a step knows of the step before it. Before step 1 it is p0 and the step-0 choices.
ghost use Rattle.std.specs.Prelude.{◌≡◌, false, pos};
ghost use Rattle.case.specs.law.Layout.{nodes_of, arcs_of, stations_of};
ghost use Rattle.case.specs.law.States.{active_at_start};
ghost use Rattle.case.specs.law.LayoutOf.{Holds};
ghost use Rattle.plan.specs.law.PlanRecords.{pressure_in, active_in, direction_in, state_in};
ghost use Rattle.plan.specs.law.BeforeStep.{start_pressure, start_direction, start_state};
ghost use Rattle.plan.specs.inside.PreviousHolds.{Carried};

use super::accepted::Accepted;
use super::arrays::filled;
use super::rows::pressure;
use case::extents::{ARCS, NODES, STATIONS};
use case::members::active;
use case::read::{node, station};
use numbers::compare::index;

// Document 01 names the form: "struct with arrays of previous pressures, activities, directions and states, carried by value from step to step".
#[derive(Clone, Copy, Debug, PartialEq, Eq)]
pub struct Previous {
    pub pressures: [i64; NODES],
    pub active: [bool; ARCS],
    pub directions: [usize; STATIONS],
    pub states: [usize; STATIONS],
}

impl Accepted<'_> {
    #[tactic(auto, using(crate::proofs::CaseFacts::few, crate::proofs::CaseFacts::fits))]
    pub(crate) fn start_pressures(&self) -> [i64; NODES]
        ensures { Holds (pos 0) result (start_pressure self.now.list.now) (nodes_of self.now.list.now) }
    {
        filled([0; NODES], self.layout.nodes, |v| node(self.list, v, 0).p0)
    }

    #[tactic(auto, using(crate::proofs::CaseFacts::few, crate::proofs::CaseFacts::fits))]
    fn start_active(&self) -> [bool; ARCS]
        ensures { Holds false result (active_at_start self.now.list.now) (arcs_of self.now.list.now) }
    {
        filled([false; ARCS], self.layout.arcs, |e| active(self.list, e))
    }

    // Directions and states, here and past a step, are filled by one function, `filled`; what is left differs in the field, and a closure for it were longer.
    #[tactic(auto, using(crate::proofs::CaseFacts::few, crate::proofs::CaseFacts::fits))]
    fn start_directions(&self) -> [usize; STATIONS]
        ensures { Holds 0 result (start_direction self.now.list.now) (stations_of self.now.list.now) }
    {
        filled([0; STATIONS], self.layout.stations, |s| {
            station(self.list, self.station_at(s)).direction
        })
    }

    #[tactic(auto, using(crate::proofs::CaseFacts::few, crate::proofs::CaseFacts::fits))]
    fn start_states(&self) -> [usize; STATIONS]
        ensures { Holds 0 result (start_state self.now.list.now) (stations_of self.now.list.now) }
    {
        filled([0; STATIONS], self.layout.stations, |s| {
            station(self.list, self.station_at(s)).state
        })
    }

    // Before step 1.
    pub(crate) fn start(&self) -> Previous
        ensures { Carried self.now.list.now result (start_pressure self.now.list.now) (active_at_start self.now.list.now)
            (start_direction self.now.list.now) (start_state self.now.list.now) }
    {
        Previous {
            pressures: self.start_pressures(),
            active: self.start_active(),
            directions: self.start_directions(),
            states: self.start_states(),
        }
    }

    #[tactic(auto, using(crate::proofs::CaseFacts::few, crate::proofs::CaseFacts::fits))]
    pub(crate) fn row_pressures(&self, old: [i64; NODES], rows: &[i64]) -> [i64; NODES]
        ensures { Holds (pos 0) result (pressure_in rows.now) (nodes_of self.now.list.now) }
    {
        filled(old, self.layout.nodes, |v| pressure(rows, v))
    }

    #[tactic(auto, using(crate::proofs::CaseFacts::few, crate::proofs::CaseFacts::fits))]
    fn row_active(&self, old: [bool; ARCS], rows: &[i64]) -> [bool; ARCS]
        ensures { Holds false result (active_in self.now.list.now rows.now) (arcs_of self.now.list.now) }
    {
        filled(
            old,
            self.layout.arcs,
            |e| 1 <= self.arc_row(rows, e).setting,
        )
    }

    #[tactic(auto, using(crate::proofs::CaseFacts::few, crate::proofs::CaseFacts::fits))]
    fn row_directions(&self, old: [usize; STATIONS], rows: &[i64]) -> [usize; STATIONS]
        ensures { Holds 0 result (direction_in self.now.list.now rows.now) (stations_of self.now.list.now) }
    {
        filled(old, self.layout.stations, |s| {
            index(self.choice_of(rows, s).direction)
        })
    }

    #[tactic(auto, using(crate::proofs::CaseFacts::few, crate::proofs::CaseFacts::fits))]
    fn row_states(&self, old: [usize; STATIONS], rows: &[i64]) -> [usize; STATIONS]
        ensures { Holds 0 result (state_in self.now.list.now rows.now) (stations_of self.now.list.now) }
    {
        filled(old, self.layout.stations, |s| {
            index(self.choice_of(rows, s).state)
        })
    }

    // Past a step, whose part of the plan is `rows`.
    pub(crate) fn after(&self, previous: Previous, rows: &[i64]) -> Previous
        ensures { Carried self.now.list.now result (pressure_in rows.now) (active_in self.now.list.now rows.now)
            (direction_in self.now.list.now rows.now) (state_in self.now.list.now rows.now) }
    {
        Previous {
            pressures: self.row_pressures(previous.pressures, rows),
            active: self.row_active(previous.active, rows),
            directions: self.row_directions(previous.directions, rows),
            states: self.row_states(previous.states, rows),
        }
    }
}
