// One step of a plan, by what has been answered yes of it.
ghost use Rattle.std.specs.Prelude.{◌<◌};
ghost use Rattle.case.specs.law.Layout.{number_at, nodes_of, steps_of};
ghost use Rattle.plan.specs.law.PlanRecords.{pressure_in};
ghost use Rattle.plan.specs.inside.Sizes.{PressuresSized, FlowsSized, NodesSized};
ghost use Rattle.plan.specs.inside.Preconditions.{MachinesKept, StepKept};

use super::accepted::Accepted;

// Pressures at the nodes of an accepted case. All are in range.
#[derive(Clone, Copy)]
pub(crate) struct Pressures<'a> {
    pub(crate) case: Accepted<'a>,
    pub(crate) list: &'a [i64],
    ghost sized: { PressuresSized (number_at list.now) (nodes_of case.list.now) },
}

// The step with index `i` of an accepted case: its part of the plan, and the pressures before it. All pressures are in range.
#[derive(Clone, Copy)]
pub(crate) struct Step<'a> {
    pub(crate) case: Accepted<'a>,
    pub(crate) old: &'a [i64],
    pub(crate) rows: &'a [i64],
    pub(crate) i: usize,
    ghost step: { i < steps_of case.list.now },
    ghost before: { PressuresSized (number_at old.now) (nodes_of case.list.now) },
    ghost pressures: { PressuresSized (pressure_in rows.now) (nodes_of case.list.now) },
}

// Past 21 to 29: its nodes' rows and its flows are in range, and an arc's machines are its own.
#[derive(Clone, Copy)]
pub(crate) struct Passed<'a> {
    pub(crate) step: Step<'a>,
    ghost node_rows: { NodesSized step.case.list.now step.rows.now },
    ghost flows: { FlowsSized step.case.list.now step.rows.now },
    ghost machines: { MachinesKept step.case.list.now step.rows.now },
}

// Of which every question has been answered yes.
#[derive(Clone, Copy)]
pub(crate) struct Kept<'a> {
    pub(crate) step: Step<'a>,
    ghost kept: { StepKept step.case.list.now step.old.now step.rows.now step.i },
}
