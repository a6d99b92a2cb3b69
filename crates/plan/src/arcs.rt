// 24 to 29, of every arc of a step.
ghost use Rattle.std.specs.Prelude.{◌≡◌, ◌<◌, ◌++◌};
ghost use Rattle.numbers.specs.law.Question.{first_no};
ghost use Rattle.case.specs.law.Layout.{arcs_of};
ghost use Rattle.plan.specs.inside.StepArcs.{PastFlows, pressures_asked, pipes_asked, arc_asked, arcs_asked};

use super::step::Step;
use numbers::answer::Answer;

impl Step<'_> {
    // 26 to 29, past 24 and 25. 28 and 29 are asked only past 26 and 27, and lean on 24, by which no product of theirs is too large.
    #[tactic(auto, using(crate::proofs::Asked::questions))]
    fn past_flows(&self, e: usize) -> Answer
        requires { PastFlows self.now e }
        ensures { result ≡ first_no (pressures_asked self.now e ++ pipes_asked self.now e) }
    {
        self.pressure_answer(e)?;
        self.pipe_answer(e)
    }

    #[tactic(auto, using(crate::proofs::CaseFacts::asked), unfolding(crate::specs::law::ArcRules::arc_questions))]
    fn arc_answer(&self, e: usize) -> Answer
        requires { e < arcs_of self.now.case.list.now }
        ensures { result ≡ first_no (arc_asked self.now e) }
    {
        self.flow_answer(e)?;
        self.past_flows(e)
    }

    #[tactic(auto, using(crate::proofs::CaseFacts::asked), unfolding(crate::specs::law::ArcRules::all_arc_questions))]
    pub(crate) fn arc_answers(&self) -> Answer
        ensures { result ≡ first_no (arcs_asked self.now) }
    {
        for e in 0..self.case.layout.arcs {
            self.arc_answer(e)?;
        }
        Ok(())
    }
}
