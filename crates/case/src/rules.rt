// 13 to 17, of a case whose fields are all there and in range.
ghost use Rattle.std.specs.Prelude.{◌≡◌, ◌<◌, ◌≤◌, ◌^◌};
ghost use Rattle.numbers.specs.law.Question.{first_no};
ghost use Rattle.numbers.specs.law.Signed.{pos_part};
ghost use Rattle.numbers.specs.law.Sums.{count};
ghost use Rattle.case.specs.law.Extents.{set_room};
ghost use Rattle.case.specs.law.Layout.{arcs_of, stations_of, station_at, state_count};
ghost use Rattle.case.specs.law.Records.{station_of};
ghost use Rattle.case.specs.law.LayoutOf.{LayoutOf};
ghost use Rattle.case.specs.inside.Each.{Tested, EachItem};
ghost use Rattle.case.specs.inside.Counts.{Counted, StationsCounted, StationsRanged, Sized};
ghost use Rattle.case.specs.law.ArcEnds.{all_arc_ends};
ghost use Rattle.case.specs.law.OneStation.{in_station, all_one_station};
ghost use Rattle.case.specs.law.StationSize.{all_station_sizes};
ghost use Rattle.case.specs.law.Directions.{only_fence, direction_kept, all_direction_sets};
ghost use Rattle.case.specs.law.States.{state_kept, machines_kept, start_kept, station_kept, all_state_sets};
ghost use Rattle.case.specs.law.StationArcs.{every, station_arcs};
ghost use Rattle.case.specs.law.StationNodes.{fence_node};
ghost use Rattle.case.specs.law.Judged.{rule_questions};

use super::members::{belongs, start_set, station_arcs};
use super::read::{arc, artificial, direction, state, station};
use super::records::Layout;
use super::stations::first_items;
use numbers::answer::{Answer, ask};
use numbers::sets::{disjoint, member, subset};

// A case that 10 to 12 have let pass, and its layout.
#[derive(Clone, Copy)]
pub(crate) struct Laid<'a> {
    pub(crate) case: &'a [i64],
    pub(crate) layout: Layout,
    ghost counted: { Counted case.now },
    ghost laid: { LayoutOf case.now layout },
    ghost stations: { StationsCounted case.now },
    ghost ranged: { StationsRanged case.now },
}

// One question of each of the first `n` items; the first that does not keep it is the "no". Settlement has its own of rows: a function over a closure asks
// something of its caller, and so may not be public in `numbers`.
fn each<F: Fn(usize) -> bool>(n: usize, number: usize, kept: F) -> Answer
    requires { (i : _) → i < n → F.pre kept i }
    ensures { (test : _) → Tested (F.post kept) test n → result ≡ first_no (EachItem test number n) }
{
    for i in 0..n {
        ask(kept(i), number, 0, i)?;
    }
    Ok(())
}

impl Laid<'_> {
    // 13
    fn arc_ends(&self) -> Answer
        ensures { result ≡ first_no (all_arc_ends self.now.case.now) }
    {
        each(self.layout.arcs, 13, |e| {
            let a = arc(self.case, e);
            a.from != a.to
        })
    }

    // How many of the stations have the node.
    fn stations_with(&self, v: usize) -> usize
        ensures { result ≡ count (stations_of self.now.case.now) (in_station self.now.case.now v) }
    {
        self.layout.sites[..self.layout.stations]
            .iter()
            .filter(|site| member(site.nodes, v))
            .count()
    }

    // 14
    fn one_station(&self) -> Answer
        ensures { result ≡ first_no (all_one_station self.now.case.now) }
    {
        each(self.layout.nodes, 14, |v| self.stations_with(v) <= 1)
    }

    // 15
    fn station_size(&self) -> Answer
        ensures { result ≡ first_no (all_station_sizes self.now.case.now) }
    {
        each(self.layout.stations, 15, |s| {
            station_arcs(self.case, s) <= 30
        })
    }

    // Where the rows of station `s` begin.
    fn offset(&self, s: usize) -> usize
        requires { s < stations_of self.now.case.now }
        ensures { result ≡ station_at self.now.case.now s }
    {
        self.layout.sites[s].offset
    }

    // Does the set hold only nodes that are inside the station and end an arc of kind 0 to 2?
    #[tactic(auto, using(crate::proofs::Ruled::rule_laws))]
    fn only_fence(&self, s: usize, set: i64) -> bool
        requires { (s < stations_of self.now.case.now) × (pos_part set < 2 ^ set_room) }
        ensures { result ≡ only_fence (fence_node self.now.case.now s) set }
    {
        subset(set, self.layout.sites[s].nodes) && subset(set, self.layout.plain)
    }

    #[tactic(auto, using(crate::proofs::Ruled::rule_laws), unfolding(crate::specs::law::Directions::sets_kept))]
    fn direction_kept(&self, s: usize, f: usize) -> bool
        requires { (s < stations_of self.now.case.now) × (f < (station_of self.now.case.now s).directions) }
        ensures { result ≡ direction_kept self.now.case.now s f }
    {
        let d = direction(self.case, self.offset(s), f);
        disjoint(d.entry, d.exit) && self.only_fence(s, d.entry) && self.only_fence(s, d.exit)
    }

    fn directions_kept(&self, s: usize) -> bool
        requires { s < stations_of self.now.case.now }
        ensures { result ≡ every (station_of self.now.case.now s).directions (direction_kept self.now.case.now s) }
    {
        let directions = station(self.case, self.offset(s)).directions;
        (0..directions).all(|f| self.direction_kept(s, f))
    }

    // 16, one call of `each`; so is 17.
    fn direction_sets(&self) -> Answer
        ensures { result ≡ first_no (all_direction_sets self.now.case.now) }
    {
        each(self.layout.stations, 16, |s| self.directions_kept(s))
    }

    #[tactic(auto, unfolding(crate::specs::law::States::state_kept))]
    fn state_kept(&self, s: usize, own: i64, z: usize) -> bool
        requires { s < stations_of self.now.case.now }
        ensures { result ≡ state_kept self.now.case.now (station_at self.now.case.now s) own z }
    {
        let a = state(self.case, self.offset(s), z);
        disjoint(a.on, a.off) && subset(a.on, own) && subset(a.off, own)
    }

    fn states_kept(&self, s: usize, own: i64) -> bool
        requires { s < stations_of self.now.case.now }
        ensures { result ≡ every (station_of self.now.case.now s).states (state_kept self.now.case.now (station_at self.now.case.now s) own) }
    {
        let states = station(self.case, self.offset(s)).states;
        (0..states).all(|z| self.state_kept(s, own, z))
    }

    // Do the machine sets of the station's arcs name only the machines in `own`?
    fn machines_kept(&self, s: usize, own: i64) -> bool
        ensures { result ≡ every (arcs_of self.now.case.now) (machines_kept self.now.case.now s own) }
    {
        (0..self.layout.arcs).all(|e| !belongs(self.case, s, e)
            || subset(artificial(self.case, e).machines, own))
    }

    // Does activity at step 0 obey the step-0 state?
    #[tactic(auto, unfolding(crate::specs::law::States::start_kept))]
    fn start_kept(&self, s: usize, active: i64) -> bool
        requires { s < stations_of self.now.case.now }
        ensures { result ≡ start_kept self.now.case.now (station_at self.now.case.now s) active }
    {
        let offset = self.offset(s);
        let a = state(self.case, offset, station(self.case, offset).state);
        subset(a.on, active) && disjoint(a.off, active)
    }

    #[tactic(auto, unfolding(crate::specs::law::States::station_kept))]
    fn station_kept(&self, s: usize) -> bool
        requires { (s < stations_of self.now.case.now) × (station_arcs self.now.case.now s ≤ 30) }
        ensures { result ≡ station_kept self.now.case.now s }
    {
        let own_arcs = first_items(station_arcs(self.case, s));
        let own_machines = first_items(station(self.case, self.offset(s)).machines);
        let active = start_set(self.case, s);
        self.states_kept(s, own_arcs)
            && self.machines_kept(s, own_machines)
            && self.start_kept(s, active)
    }

    // 17
    fn state_sets(&self) -> Answer
        requires { Sized self.now.case.now }
        ensures { result ≡ first_no (all_state_sets self.now.case.now) }
    {
        each(self.layout.stations, 17, |s| self.station_kept(s))
    }

    // 13 to 16, and then 17, which leans on 15.
    #[tactic(auto, using(crate::proofs::Ruled::rule_laws), unfolding(crate::specs::law::Judged::rule_questions, crate::specs::law::Judged::early_rules))]
    pub(crate) fn rules(&self) -> Answer
        ensures { result ≡ first_no (rule_questions self.now.case.now) }
    {
        self.arc_ends()?;
        self.one_station()?;
        self.station_size()?;
        self.direction_sets()?;
        self.state_sets()
    }
}
