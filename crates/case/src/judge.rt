// The answer on a case, and its layout.
ghost use Rattle.std.specs.Prelude.{◌≡◌};
ghost use Rattle.numbers.specs.law.Question.{first_no, told};
ghost use Rattle.case.specs.law.Layout.{nodes_of, arcs_of, stations_of, steps_of, arc_at, station_at};
ghost use Rattle.case.specs.inside.Counts.{Counted, StationsCounted, StationsNarrow};
ghost use Rattle.case.specs.law.LayoutOf.{Holds, Clear, site_of, no_site, LayoutOf};
ghost use Rattle.case.specs.law.Judged.{row_questions, list_questions, judged_case};
ghost use Rattle.case.specs.law.LayoutOf.{LayingOf};

use super::arcs::arc_rows;
use super::extents::STATIONS;
use super::head::{head, times};
use super::members::{plain_nodes, station_nodes};
use super::nodes::node_rows;
use super::offsets::{ARC, HEAD, count, node_width};
use super::records::{Laying, Layout, Site};
use super::rules::Laid;
use super::stations::{StationRows, station_rows};
use numbers::answer::Answer;

// A case whose head 10 and 11 have let pass, and the head's counts.
#[derive(Clone, Copy)]
struct HeadRead<'a> {
    case: &'a [i64],
    nodes: usize,
    arcs: usize,
    stations: usize,
    steps: usize,
    ghost counted: { Counted case.now },
    ghost nodes_are: { nodes ≡ nodes_of case.now },
    ghost arcs_are: { arcs ≡ arcs_of case.now },
    ghost stations_are: { stations ≡ stations_of case.now },
    ghost steps_are: { steps ≡ steps_of case.now },
}

fn head_read(case: &[i64]) -> HeadRead<'_>
    requires { Counted case.now }
    ensures { result.case.now ≡ case.now }
{
    HeadRead {
        case,
        nodes: count(case, 0, 1),
        arcs: count(case, 0, 2),
        stations: count(case, 0, 3),
        steps: count(case, 0, 4),
    }
}

impl HeadRead<'_> {
    // Where the arcs' rows begin.
    #[tactic(auto, using(crate::proofs::Laid::arc_first, crate::proofs::Laid::nodes_room))]
    fn first_arc(&self) -> usize
        ensures { result ≡ arc_at self.now.case.now 0 }
    {
        HEAD + self.steps + self.nodes * node_width(self.case)
    }

    // And the stations'.
    #[tactic(auto, using(crate::proofs::Laid::begin_laws))]
    fn first_station(&self) -> usize
        ensures { result ≡ station_at self.now.case.now 0 }
    {
        self.first_arc() + self.arcs * ARC
    }

    // 10 to 12 past the head.
    #[tactic(auto, using(crate::proofs::Laid::begin_laws), unfolding(crate::specs::inside::Opened::rows))]
    fn rows(&self) -> Answer
        ensures { result ≡ first_no (row_questions self.now.case.now) }
    {
        times(self.case, self.steps)?;
        node_rows(self.case, self.steps, self.nodes)?;
        arc_rows(self.case, self.first_arc(), self.arcs)?;
        station_rows(self.case, self.first_station(), self.stations)
    }

    // Where each station's rows begin, and its nodes.
    #[tactic(auto, using(crate::proofs::Laid::filled))]
    fn sites(&self) -> [Site; STATIONS]
        requires { (StationsCounted self.now.case.now) × (StationsNarrow self.now.case.now) }
        ensures { (Holds no_site result (site_of self.now.case.now) self.now.stations) × (Clear no_site result self.now.stations) }
    {
        let mut sites = [Site::default(); STATIONS];
        let mut offset = self.first_station();
        for (s, site) in sites[..self.stations].iter_mut().enumerate() {
            let nodes = station_nodes(self.case, s);
            *site = Site { offset, nodes };
            offset = StationRows {
                case: self.case,
                offset,
            }
            .end();
        }
        sites
    }

    // The layout of a case whose fields are all there and in range.
    #[tactic(auto, using(crate::proofs::Laid::begin_laws))]
    fn layout(&self) -> Layout
        requires { (StationsCounted self.now.case.now) × (StationsNarrow self.now.case.now) }
        ensures { LayoutOf self.now.case.now result }
    {
        Layout {
            steps: self.steps,
            nodes: self.nodes,
            arcs: self.arcs,
            stations: self.stations,
            sites: self.sites(),
            plain: plain_nodes(self.case),
        }
    }
}

// 10 to 12.
#[tactic(auto, using(crate::proofs::Laid::begin_laws), unfolding(crate::specs::law::Judged::list_questions))]
fn list_answer(case: &[i64]) -> Answer
    ensures { result ≡ first_no (list_questions case.now) }
{
    head(case)?;
    head_read(case).rows()
}

// The answer on a case with its layout, one of zeros where 10 to 12 refuse the list: nobody reads on there.
#[tactic(auto, using(crate::specs::inside::CountsInRange::list_laws, crate::specs::inside::CaseRows::list_ranged))]
pub fn judge_and_lay(case: &[i64]) -> Laying
    ensures { LayingOf case.now result }
{
    match list_answer(case) {
        Ok(()) => {
            let layout = head_read(case).layout();
            Laying {
                answer: Laid { case, layout }.rules(),
                layout,
            }
        }
        Err(no) => Laying {
            answer: Err(no),
            layout: Layout {
                steps: 0,
                nodes: 0,
                arcs: 0,
                stations: 0,
                sites: [Site::default(); STATIONS],
                plain: 0,
            },
        },
    }
}

// The answer on a case: yes, or the number, the step and the place of the first "no".
pub fn judge_case(case: &[i64]) -> Answer
    ensures { told result ≡ judged_case case.now }
{
    judge_and_lay(case).answer
}
