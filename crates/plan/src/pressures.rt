// 26 and 27, of one arc. The arc's kind and its setting choose the rule.
ghost use Rattle.std.specs.Prelude.{◌≡◌, ◌<◌, ◌≤◌};
ghost use Rattle.numbers.specs.law.Question.{first_no};
ghost use Rattle.case.specs.law.Layout.{nodes_of, arcs_of};
ghost use Rattle.case.specs.law.Records.{arc_of};
ghost use Rattle.plan.specs.declared.setting.Mode.TheVariants as modes;
ghost use Rattle.plan.specs.law.Setting.{station_offset, setting_in};
ghost use Rattle.plan.specs.law.ArcPressures.{out_bound, reach_kept, compression_kept, mode_pressures, setting_pressures, pressures_kept};
ghost use Rattle.plan.specs.law.ArcMachines.{machines_carry, mode_machines, setting_machines, machines_used};
ghost use Rattle.plan.specs.inside.Sizes.{MachinesSized};
ghost use Rattle.plan.specs.inside.StepArcs.{Compresses, pressures_asked};

use super::machines::Machines;
use super::rows::pressure;
use super::setting::{Mode, Setting, Way, setting_of};
use super::step::Step;
use case::records::{Artificial, Node};
use numbers::answer::{Answer, ask};
use numbers::sets::count;

// The out bound of an arc whose out end is `out`.
fn out_bound(x: Artificial, out: Node) -> i64
    ensures { result ≡ out_bound x out }
{
    if x.outbound == 0 {
        out.acthigh
    } else {
        x.outbound
    }
}

impl Step<'_> {
    // Do the machines reach the out pressure from the in pressure of the same step?
    #[tactic(auto, using(crate::proofs::CaseFacts::few), unfolding(crate::specs::law::ArcPressures::reach_kept))]
    fn within_reach(&self, offset: usize, e: usize, u: usize, w: usize) -> bool
        requires { Compresses self.now offset e u w }
        ensures { result ≡ reach_kept self.now.case.list.now self.now.rows.now e u w }
    {
        let p_in = pressure(self.rows, u);
        let p_out = pressure(self.rows, w);
        let machines = Machines {
            case: self.case.list,
            offset,
            set: self.case.arc_row(self.rows, e).machines,
        };
        let ratio = 1000 + machines.gain();
        let reach = p_in * ratio;
        1000 * p_out <= reach
    }

    // Compressing from node `u` to node `w`; the rows of the arc's station begin at `offset`.
    #[tactic(auto, using(crate::proofs::CaseFacts::few), unfolding(crate::specs::law::ArcPressures::compression_kept))]
    fn compression_kept(&self, offset: usize, e: usize, u: usize, w: usize) -> bool
        requires { Compresses self.now offset e u w }
        ensures { result ≡ compression_kept self.now.case.list.now self.now.rows.now self.now.i e u w }
    {
        let p_out = pressure(self.rows, w);
        pressure(self.rows, u) <= p_out
            && p_out <= out_bound(self.case.artificial(e), self.case.node(w, self.i))
            && self.within_reach(offset, e, u, w)
    }

    // An active arc from node `u` to node `w`.
    #[tactic(auto, using(crate::proofs::CaseFacts::few, crate::proofs::ArcLaws::station_laws))]
    fn mode_pressures(&self, e: usize, mode: Mode, u: usize, w: usize) -> bool
        requires { (e < arcs_of self.now.case.list.now) × (u < nodes_of self.now.case.list.now) × (w < nodes_of self.now.case.list.now) ×
            (mode ≡ modes.Compressing → 3 ≤ (arc_of self.now.case.list.now e).kind) }
        ensures { result ≡ mode_pressures self.now.case.list.now self.now.rows.now self.now.i e mode u w }
    {
        match mode {
            Mode::Open => pressure(self.rows, u) == pressure(self.rows, w),
            Mode::Regulating => pressure(self.rows, w) <= pressure(self.rows, u),
            Mode::Compressing => {
                let s = self.case.artificial(e).station;
                self.compression_kept(self.case.station_at(s), e, u, w)
            }
        }
    }

    #[tactic(auto, using(crate::proofs::CaseFacts::few, crate::proofs::ArcLaws::end_laws))]
    fn setting_pressures(&self, e: usize, setting: Setting) -> bool
        requires { (e < arcs_of self.now.case.list.now) × (setting ≡ setting_in self.now.case.list.now self.now.rows.now e) }
        ensures { result ≡ setting_pressures self.now.case.list.now self.now.rows.now self.now.i e setting }
    {
        match setting {
            Setting::Unknown | Setting::Off => true,
            Setting::Active { way, mode } => {
                let c = self.case.arc(e);
                match way {
                    Way::Forward => self.mode_pressures(e, mode, c.from, c.to),
                    Way::Backward => self.mode_pressures(e, mode, c.to, c.from),
                }
            }
        }
    }

    // 26
    #[tactic(auto, using(crate::proofs::CaseFacts::few, crate::proofs::ArcLaws::end_laws), unfolding(crate::specs::law::ArcPressures::pressures_kept))]
    fn pressures_kept(&self, e: usize) -> bool
        requires { e < arcs_of self.now.case.list.now }
        ensures { result ≡ pressures_kept self.now.case.list.now self.now.rows.now self.now.i e }
    {
        let c = self.case.arc(e);
        match c.kind {
            1 => pressure(self.rows, c.to) <= pressure(self.rows, c.from),
            _ => self.setting_pressures(
                e,
                setting_of(c.kind, self.case.arc_row(self.rows, e).setting),
            ),
        }
    }

    // Are there few enough machines, and do they carry the flow?
    #[tactic(auto, using(crate::proofs::CaseFacts::few), unfolding(crate::specs::law::ArcMachines::machines_carry))]
    fn machines_carry(&self, offset: usize, e: usize, flow: i64) -> bool
        requires { (e < arcs_of self.now.case.list.now) × (offset ≡ station_offset self.now.case.list.now e) × (MachinesSized self.now.case.list.now offset) }
        ensures { result ≡ machines_carry self.now.case.list.now self.now.rows.now e flow }
    {
        let machines = Machines {
            case: self.case.list,
            offset,
            set: self.case.arc_row(self.rows, e).machines,
        };
        count(machines.set) <= self.case.artificial(e).most && flow <= machines.flow()
    }

    // The machines of an active arc with the flow `flow` in the setting's direction.
    #[tactic(auto, using(crate::proofs::CaseFacts::few, crate::proofs::ArcLaws::station_laws))]
    fn mode_machines(&self, e: usize, mode: Mode, flow: i64) -> bool
        requires { (e < arcs_of self.now.case.list.now) × (mode ≡ modes.Compressing → 3 ≤ (arc_of self.now.case.list.now e).kind) }
        ensures { result ≡ mode_machines self.now.case.list.now self.now.rows.now e mode flow }
    {
        match mode {
            Mode::Compressing => {
                let s = self.case.artificial(e).station;
                self.machines_carry(self.case.station_at(s), e, flow)
            }
            Mode::Open | Mode::Regulating => self.case.arc_row(self.rows, e).machines == 0,
        }
    }

    #[tactic(auto, using(crate::proofs::CaseFacts::few, crate::proofs::ArcLaws::end_laws))]
    fn setting_machines(&self, e: usize, setting: Setting) -> bool
        requires { (e < arcs_of self.now.case.list.now) × (setting ≡ setting_in self.now.case.list.now self.now.rows.now e) }
        ensures { result ≡ setting_machines self.now.case.list.now self.now.rows.now e setting }
    {
        let r = self.case.arc_row(self.rows, e);
        match setting {
            Setting::Unknown | Setting::Off => r.machines == 0,
            Setting::Active { way, mode } => match way {
                Way::Forward => self.mode_machines(e, mode, r.a),
                Way::Backward => self.mode_machines(e, mode, r.b),
            },
        }
    }

    // 27: only compressors and combined arcs have machines.
    #[tactic(auto, using(crate::proofs::CaseFacts::few, crate::proofs::ArcLaws::machines_none), unfolding(crate::specs::law::ArcMachines::machines_used))]
    fn machines_used(&self, e: usize) -> bool
        requires { e < arcs_of self.now.case.list.now }
        ensures { result ≡ machines_used self.now.case.list.now self.now.rows.now e }
    {
        let r = self.case.arc_row(self.rows, e);
        match self.case.arc(e).kind {
            0..=4 => r.machines == 0,
            kind => self.setting_machines(e, setting_of(kind, r.setting)),
        }
    }

    #[tactic(auto, using(crate::proofs::CaseFacts::asked), unfolding(crate::specs::law::ArcRules::pressure_questions))]
    pub(crate) fn pressure_answer(&self, e: usize) -> Answer
        requires { e < arcs_of self.now.case.list.now }
        ensures { result ≡ first_no (pressures_asked self.now e) }
    {
        ask(self.pressures_kept(e), 26, self.i + 1, e)?;
        ask(self.machines_used(e), 27, self.i + 1, e)
    }
}
