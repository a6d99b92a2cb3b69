// What 30 to 32 ask of a step's arcs: one pass over them for all stations.
ghost use Rattle.std.specs.Prelude.{◌≡◌, ℕ, ◌+◌, ◌<◌, ◌^◌, pos, get_or};
ghost use Rattle.numbers.specs.law.Sums.{only_n};
ghost use Rattle.case.specs.law.Layout.{nodes_of, arcs_of, stations_of};
ghost use Rattle.case.specs.law.LayoutOf.{Holds};
ghost use Rattle.plan.specs.law.PlanRecords.{active_in};
ghost use Rattle.plan.specs.inside.StationPass.{no_gathered, with_arc, GatheredOf, artificial_flow};

use super::balance::moved;
use super::step::Passed;
use case::extents::{NODES, STATIONS};
use numbers::compare::index;

// What is gathered of a station's arcs.
#[derive(Clone, Copy, Debug, PartialEq, Eq)]
pub struct Gathered {
    pub arcs: usize, // how many they are
    pub active: usize, // those that are active, a set
    pub once: bool, // is each machine on at most one of them?
    pub taken: usize, // their machines, a set, past a no of `once` too: a turn is the same for every arc
}

impl Passed<'_> {
    // The set with arc `e` in it, if that is active. It is the station's arc `n`, and the arcs before it make up `set`.
    #[tactic(auto, using(crate::proofs::Asked::questions))]
    fn with_active(&self, set: usize, n: usize, e: usize) -> usize
        requires { (e < arcs_of self.now.step.case.list.now) × (n < 62) × (set < 2 ^ n) }
        ensures { result ≡ set + only_n (active_in self.now.step.case.list.now self.now.step.rows.now e) (2 ^ n) }
    {
        if 1 <= self.step.case.arc_row(self.step.rows, e).setting {
            set + (1usize << n)
        } else {
            set
        }
    }

    // What is gathered of a station's arcs, with arc `e` as one more.
    #[tactic(auto, using(crate::proofs::Asked::questions), unfolding(crate::specs::inside::StationPass::with_arc))]
    fn with_arc(&self, g: Gathered, e: usize) -> Gathered
        requires { (e < arcs_of self.now.step.case.list.now) × (g.arcs < 62) × (g.active < 2 ^ g.arcs) }
        ensures { result ≡ with_arc self.now.step.case.list.now self.now.step.rows.now e g }
    {
        let machines = index(self.step.case.arc_row(self.step.rows, e).machines);
        Gathered {
            arcs: g.arcs + 1,
            active: self.with_active(g.active, g.arcs, e),
            once: g.once && machines & g.taken == 0,
            taken: g.taken | machines,
        }
    }

    // Each station's active arcs, and whether 31 holds of it: a machine that an arc has and an arc before it had is on two.
    #[tactic(auto, using(crate::specs::inside::CaseSizes::counted, crate::proofs::StationPasses::own_small))]
    pub(crate) fn gather(&self) -> [Gathered; STATIONS]
        ensures { (s : ℕ) → s < stations_of self.now.step.case.list.now
            → GatheredOf self.now.step.case.list.now self.now.step.rows.now s (get_or result s no_gathered) }
    {
        let case = self.step.case;
        let mut stations = [Gathered {
            arcs: 0,
            active: 0,
            once: true,
            taken: 0,
        }; STATIONS];
        for e in 0..case.layout.arcs {
            if let Some(s) = case.own_station(e) {
                stations[s] = self.with_arc(stations[s], e);
            }
        }
        stations
    }

    // The net flow from each node into artificial arcs. By 14 these are one station's.
    #[tactic(auto, using(crate::proofs::CaseFacts::asked, crate::proofs::StationParts::artificial_laws))]
    pub(crate) fn artificial_flows(&self) -> [i64; NODES]
        ensures { Holds (pos 0) result (artificial_flow self.now.step.case.list.now self.now.step.rows.now) (nodes_of self.now.step.case.list.now) }
    {
        let case = self.step.case;
        let mut net = [0i64; NODES];
        for e in 0..case.layout.arcs {
            let c = case.arc(e);
            if 3 <= c.kind {
                let flow = self.end_flows(e);
                moved(&mut net, c.from, c.to, flow.from, flow.to);
            }
        }
        net
    }
}
