// 24 and 25, of one arc. The arc's kind chooses the ranges.
ghost use Rattle.std.specs.Prelude.{◌≡◌, ◌&&◌, ◌<◌, leb};
ghost use Rattle.numbers.specs.law.Question.{first_no};
ghost use Rattle.numbers.specs.inside.SignedBounds.{Bounded};
ghost use Rattle.case.specs.law.Layout.{arcs_of};
ghost use Rattle.plan.specs.law.Compared.{within};
ghost use Rattle.plan.specs.law.ArcFlows.{flows_kept, machines_within, setting_allowed, arc_numbers_kept, no_flow_against, flow_allowed};
ghost use Rattle.plan.specs.inside.StepArcs.{flows_asked};

use super::rows::ArcRow;
use super::setting::{Setting, Way, setting_of};
use super::step::Step;
use case::records::{Arc, Artificial};
use numbers::answer::{Answer, ask};
use numbers::compare::within;
use numbers::sets::subset;

// Both flows of an arc, each in its range: the law says it so for each kind.
fn both_within(least: i64, a: i64, most: i64, b: i64, back: i64) -> bool
    ensures { result ≡ (within least a most && within least b back) }
{
    within(least, a, most) && within(least, b, back)
}

#[tactic(auto, unfolding(crate::specs::law::ArcFlows::flows_kept))]
fn flows_kept(c: Arc, r: ArcRow) -> bool
    requires { Bounded c.qmax 10000000 }
    ensures { result ≡ flows_kept c r }
{
    match c.kind {
        1 => both_within(0, r.a, c.qmax, r.b, 0),
        2 => both_within(-c.qmax, r.a, c.qmax, r.b, c.qmax),
        _ => both_within(0, r.a, c.qmax, r.b, c.qmax),
    }
}

#[tactic(auto, unfolding(crate::specs::law::ArcFlows::machines_within))]
fn machines_within(kind: usize, own: i64, machines: i64) -> bool
    ensures { result ≡ machines_within kind own machines }
{
    match kind {
        0..=4 => machines == 0,
        _ => 0 <= machines && subset(machines, own),
    }
}

// Is the setting known and, on a one-way arc, not backward?
fn setting_allowed(bothways: usize, s: Setting) -> bool
    ensures { result ≡ setting_allowed (leb 1 bothways) s }
{
    match s {
        Setting::Unknown => false,
        Setting::Active {
            way: Way::Backward,
            ..
        } => 1 <= bothways,
        Setting::Off | Setting::Active { .. } => true,
    }
}

// 24
#[tactic(auto, unfolding(crate::specs::law::ArcFlows::arc_numbers_kept))]
fn arc_numbers_kept(c: Arc, x: Artificial, r: ArcRow) -> bool
    requires { Bounded c.qmax 10000000 }
    ensures { result ≡ arc_numbers_kept c x r }
{
    flows_kept(c, r)
        && setting_allowed(x.bothways, setting_of(c.kind, r.setting))
        && machines_within(c.kind, x.machines, r.machines)
}

fn no_flow_against(artificial: bool, s: Setting, r: ArcRow) -> bool
    ensures { result ≡ no_flow_against artificial s r }
{
    match s {
        Setting::Unknown => true,
        Setting::Off => r.a == 0 && r.b == 0,
        Setting::Active {
            way: Way::Forward,
            ..
        } => !artificial || r.b == 0,
        Setting::Active {
            way: Way::Backward,
            ..
        } => !artificial || r.a == 0,
    }
}

// 25
#[tactic(auto, unfolding(crate::specs::law::ArcFlows::flow_allowed))]
fn flow_allowed(c: Arc, r: ArcRow) -> bool
    ensures { result ≡ flow_allowed c r }
{
    match c.kind {
        1 | 2 => true,
        _ => no_flow_against(3 <= c.kind, setting_of(c.kind, r.setting), r),
    }
}

impl Step<'_> {
    #[tactic(auto, using(crate::proofs::CaseFacts::arc_asked), unfolding(crate::specs::law::ArcRules::flow_questions))]
    pub(crate) fn flow_answer(&self, e: usize) -> Answer
        requires { e < arcs_of self.now.case.list.now }
        ensures { result ≡ first_no (flows_asked self.now e) }
    {
        let c = self.case.arc(e);
        let x = self.case.artificial(e);
        let r = self.case.arc_row(self.rows, e);
        ask(arc_numbers_kept(c, x, r), 24, self.i + 1, e)?;
        ask(flow_allowed(c, r), 25, self.i + 1, e)
    }
}
