//! The objective comes last, and ends the building.

ghost use Rattle.std.specs.Prelude.{◌≡◌, length, IfOk, Some};
ghost use Rattle.term_nodes.specs.Built.{AllBelow};
ghost use Rattle.term_goals.specs.Goals.{IsMeasured, goal_of, goal_size, terms_of};
ghost use Rattle.sopl_term.specs.Built.{FitsDirection, IsBuilding, asked_direction, asked_worst, built, goal_asked, problem_built, root_built, term_ids};
ghost use Rattle.term_program.specs.Drafts.{IsGoalOf};
ghost use Rattle.term_program.specs.Programs.{IsMade, problem_in, root_in, things_in, with_goal};

use crate::builder::Builder;
use sopl_base::Fault;
use term_goals::{Goal, Objective};
use term_program::Program;
use term_store::{TermId, term_numbers};

impl Builder {
    /// The objective with these terms, one for each scenario.
    #[tactic(auto, using(crate::proofs::Finishing::exist_here))]
    fn goal_over(&self, terms: &[TermId]) -> Result<Goal, Fault>
        requires building { IsBuilding self.now }
        requires each { length terms.now ≡ length (problem_built self.now).weights }
        requires exist { AllBelow (length (built self.now)) (term_ids terms.now) }
        ensures direction { IfOk result (λ goal. (goal_of (built self.now) goal).direction ≡ asked_direction self.now) }
        ensures worst { IfOk result (λ goal. (goal_of (built self.now) goal).worst ≡ asked_worst self.now) }
        ensures terms { IfOk result (λ goal. (goal_of (built self.now) goal).terms ≡ terms_of (built self.now) (term_ids terms.now)) }
        ensures kept { IfOk result (IsGoalOf self.now.draft) }
        ensures measured { IsMeasured (asked_worst self.now) (goal_size (root_built self.now) (problem_built self.now).weights (terms_of (built self.now) (term_ids terms.now))) result }
    {
        let ids = term_numbers(self.draft.alloc, terms)?;
        let root = self.draft.store.root();
        let objective = Objective {
            direction: self.direction,
            worst: self.worst,
            weights: self.draft.weights.as_slice(),
            terms: ids.as_slice(),
        };
        Goal::new(self.draft.alloc, &self.draft.store.here(&root), &objective)
    }

    /// Ends the building with the objective of these terms, one for each scenario, or of none where there is no objective.
    #[tactic(auto, using(crate::proofs::Finishing::ended_sound, crate::proofs::Finishing::ended_problem, crate::proofs::Finishing::none_problem, crate::proofs::Finishing::none_size))]
    pub fn goal(self, terms: &[TermId]) -> Result<Program, Fault>
        requires building { IsBuilding self }
        requires fits { FitsDirection (asked_direction self) (length (problem_built self).weights) terms.now }
        requires exist { AllBelow (length (built self)) (term_ids terms.now) }
        ensures made { IfOk result IsMade }
        ensures root { IfOk result (λ program. root_in program ≡ root_built self) }
        ensures things { IfOk result (λ program. things_in program ≡ built self) }
        ensures problem { IfOk result (λ program. problem_in program ≡ with_goal (problem_built self) (goal_asked self terms.now)) }
        ensures measured { IsMeasured (asked_worst self) (goal_size (root_built self) (problem_built self).weights (terms_of (built self) (term_ids terms.now))) result }
    {
        if terms.is_empty() {
            let program = Program::new(self.draft, None)?;
            return Ok(program);
        }
        match self.goal_over(terms) {
            Ok(goal) => {
                let program = Program::new(self.draft, Some(goal))?;
                Ok(program)
            }
            Err(fault) => Err(fault),
        }
    }
}
