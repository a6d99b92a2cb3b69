// The ledger of a region: after case and plan are judged, 40 and 41, then the six figures.
ghost use Rattle.std.specs.Prelude.{◌≡◌, true, ◌-◌, ◌≤◌, pos};
ghost use Rattle.numbers.specs.law.Sets.{member_of};
ghost use Rattle.numbers.specs.law.Sums.{count};
ghost use Rattle.numbers.specs.law.Question.{first_no, found};
ghost use Rattle.case.specs.law.Extents.{set_room};
ghost use Rattle.case.specs.law.Layout.{nodes_of, steps_of};
ghost use Rattle.case.specs.law.LayoutOf.{Holds};
ghost use Rattle.case.specs.law.StationFields.{first_items};
ghost use Rattle.plan.specs.law.BeforeStep.{pressure_at};
ghost use Rattle.plan.specs.claims.Acceptance.{PlanRules};
ghost use Rattle.plan.specs.law.RegionFigures.{figures_of};
ghost use Rattle.plan.specs.inside.RegionSet.{inside_of};
ghost use Rattle.plan.specs.inside.RegionLoop.{Gathering};
ghost use Rattle.plan.specs.law.Vouched.{Vouched};
ghost use Rattle.plan.specs.law.Ledger.{lowest_of, names_nodes, foreign_node, times_ordered, region_questions, ledger_told, figures_for, ledger_of};

use super::accepted::Accepted;
use super::arrays::filled;
use super::figures::{Figures, Ledger};
use super::judge::judge_head;
use super::region::Gathered;
use super::step::Pressures;
use case::extents::{NODES, SET_ROOM};
use numbers::answer::{Answer, No, ask};
use numbers::compare::{index, within};
use numbers::sets::{count, member, subset};

// The set of the first `n` nodes. As `first_items` of `case`, which asks the same of its caller and so may not be public.
fn first_nodes(n: usize) -> i64
    requires { n ≤ set_room }
    ensures { result ≡ first_items n }
{
    ((1usize << n) - 1) as i64
}

// The lowest item of the set from `n` on, and 0 where there is none, as document 01 has the place of 40.
#[tactic(auto, using(crate::proofs::RegionTests::lowest_on))]
fn lowest(set: i64, n: usize) -> usize
    requires { n ≤ set_room }
    ensures { result ≡ lowest_of set n (set_room - n) }
{
    for v in n..SET_ROOM {
        if member(set, v) {
            return v;
        }
    }
    0
}

impl Accepted<'_> {
    #[tactic(auto, using(crate::proofs::CaseFacts::asked), unfolding(crate::specs::law::Ledger::names_nodes))]
    fn names_nodes(&self, set: i64) -> bool
        ensures { result ≡ names_nodes self.now.list.now set }
    {
        within(0, set, first_nodes(SET_ROOM)) && subset(set, first_nodes(self.layout.nodes))
    }

    // The place of 40.
    #[tactic(auto, using(crate::proofs::CaseFacts::asked), unfolding(crate::specs::law::Ledger::foreign_node))]
    fn foreign_node(&self, set: i64) -> usize
        ensures { result ≡ foreign_node self.now.list.now set }
    {
        if within(0, set, first_nodes(SET_ROOM)) {
            lowest(set, self.layout.nodes)
        } else {
            0
        }
    }

    #[tactic(auto, using(crate::proofs::CaseFacts::asked), unfolding(crate::specs::law::Ledger::times_ordered))]
    fn times_ordered(&self, s: i64, t: i64) -> bool
        ensures { result ≡ times_ordered self.now.list.now s t }
    {
        0 <= s && s <= t && t <= self.layout.steps as i64
    }

    // 40 and 41, of a set and two times as a caller in C gives them: a yes makes them a `Span`.
    #[tactic(auto, using(crate::proofs::CaseFacts::asked), unfolding(crate::specs::law::Ledger::region_questions))]
    fn region_answer(&self, set: i64, s: i64, t: i64) -> Answer
        ensures { result ≡ first_no (region_questions self.now.list.now set s t) }
    {
        if !self.names_nodes(set) {
            return Err(No {
                number: 40,
                step: 0,
                place: self.foreign_node(set),
            });
        }
        ask(self.times_ordered(s, t), 41, 0, 0)
    }

    // Which nodes are in the set, once it is known to name nodes alone: from here on the region is an array, as the law has a test of nodes for it.
    #[tactic(auto, using(crate::proofs::CaseFacts::few, crate::proofs::CaseFacts::fits))]
    fn members(&self, set: i64) -> [bool; NODES]
        requires { names_nodes self.now.list.now set ≡ true }
        ensures { inside_of result ≡ member_of set }
    {
        filled([false; NODES], self.layout.nodes, |v| member(set, v))
    }

    // The figures of an accepted plan, or the refusal by 40 or 41.
    #[tactic(auto, using(crate::proofs::RegionTests::region_kept))]
    fn region_ledger(&self, plan: &[i64], set: i64, s: i64, t: i64) -> Ledger
        requires { PlanRules self.now.list.now plan.now }
        ensures { result ≡ found (first_no (region_questions self.now.list.now set s t))
            (figures_for self.now.list.now plan.now set s t) }
    {
        self.region_answer(set, s, t)?;
        let span = Span {
            case: *self,
            plan,
            s: index(s),
            t: index(t),
        };
        Ok(span.figures(&self.members(set), count(set)))
    }
}

// An accepted plan, and two times in their order.
#[derive(Clone, Copy)]
struct Span<'a> {
    case: Accepted<'a>,
    plan: &'a [i64],
    s: usize,
    t: usize,
    ghost rules: { PlanRules case.list.now plan.now },
    ghost order: { s ≤ t },
    ghost last: { t ≤ steps_of case.list.now },
}

impl Span<'_> {
    // The pressures at a time: p0 at 0, and those of the step that ends then.
    #[tactic(auto, using(crate::specs::inside::RegionLoop::pressures_told, crate::specs::inside::VerdictLaws::plan_laid))]
    fn pressures_at(&self, time: usize) -> [i64; NODES]
        requires { time ≤ steps_of self.now.case.list.now }
        ensures { Holds (pos 0) result (pressure_at self.now.case.list.now self.now.plan.now time) (nodes_of self.now.case.list.now) }
    {
        if time == 0 {
            return self.case.start_pressures();
        }
        self.case
            .row_pressures([0; NODES], self.case.step_rows(self.plan, time - 1))
    }

    // One pass over the steps s+1 to t, which have the indices s to t-1.
    #[tactic(auto, using(crate::specs::inside::RegionLoop::step_asked, crate::specs::inside::VerdictLaws::plan_laid))]
    fn gather(&self, inside: &[bool]) -> Gathered
        ensures { Gathering self.now.case.list.now self.now.plan.now (inside_of inside.now) self.now.s self.now.t result }
    {
        let mut g = Gathered {
            pressures: self.pressures_at(self.s),
            brought: 0,
            residual: 0,
        };
        for i in self.s..self.t {
            let rows = self.case.step_rows(self.plan, i);
            g = g.with_step(&self.case, inside, rows, i);
        }
        g
    }

    // The figures of the region `inside`, which has `size` nodes.
    #[tactic(auto, using(crate::specs::inside::CaseSizes::counted, crate::specs::inside::RegionLoop::pressures_held))]
    #[inline(never)] // so that the ledger's call stays within the stack that the header names
    fn figures(&self, inside: &[bool], size: usize) -> Figures
        requires { size ≡ count (nodes_of self.now.case.list.now) (inside_of inside.now) }
        ensures { result ≡ figures_of self.now.case.list.now self.now.plan.now (inside_of inside.now) self.now.s self.now.t }
    {
        let case = self.case;
        let list = self.pressures_at(self.s);
        let opening = Pressures { case, list: &list };
        let g = self.gather(inside);
        let closing = Pressures {
            case,
            list: &g.pressures,
        };
        Figures {
            nodes: size,
            pipes: case.inner_pipes(inside),
            opening: opening.region_gas(inside),
            closing: closing.region_gas(inside),
            brought: g.brought,
            residual: g.residual,
        }
    }
}

// The figures of the region `set` from time s to time t, or the first "no" of case, plan, set and times. A region of an accepted plan is vouched for:
// its gas changes by what is brought in, up to the residual, and the residual is at most E for each node, inner pipe and step.
#[tactic(auto, using(crate::specs::inside::VerdictLaws::head_laid))]
pub fn ledger(case: &[i64], plan: &[i64], set: i64, s: i64, t: i64) -> Ledger
    ensures told { ledger_told result ≡ ledger_of case.now plan.now set s t }
    ensures balanced { Vouched case.now plan.now set s t result }
{
    let head = judge_head(case, plan);
    head.answer?;
    let accepted = Accepted {
        list: case,
        layout: &head.layout,
    };
    accepted.steps(plan)?;
    accepted.region_ledger(plan, set, s, t)
}
