//! The mistakes of constraints and of an objective.

ghost use Rattle.std.specs.Prelude.{◌≡◌, ◌++◌, map, true, false, IfOk};
ghost use Rattle.std.specs.Option.{option_map};
ghost use Rattle.sopl_ast.specs.Constraints.{cons_tree};
ghost use Rattle.sopl_ast.specs.Mistakes.{of_number, of_condition, of_constraint, of_constraints, of_goal};
ghost use Rattle.sopl_ast.specs.Whole.{conses};
ghost use Rattle.sopl_ast.specs.WholeModel.{goal_tree};
ghost use Rattle.sopl_types.specs.Earliest.{earliest};
ghost use Rattle.sopl_types.specs.Known.{known_in};

use crate::mistakes::earlier;
use crate::names::Names;
use sopl_ast::{Cons, Expr, Goal};
use sopl_base::Refusal;
use std::alloc::AllocError;

#[tactic(auto, using(sopl_ast::proofs::ConstraintTrees::constraints, crate::proofs::ConsWalks::cons_walks))]
impl<'a> Names<'a> {
    /// The first mistake of an objective.
    pub fn objective(&self, goal: &'a Option<Goal>) -> Result<Option<Refusal>, AllocError>
        ensures { IfOk result (λ first. first ≡ earliest (of_goal (known_in self.now) (option_map goal_tree goal.now))) }
    {
        match goal {
            None => Ok(None),
            Some(goal) => self.number(false, &goal.expr),
        }
    }

    /// The first mistake of a chance constraint; the two parts of its threshold are to be constants.
    fn chance(
        &self,
        cond: &'a Expr,
        p: &'a Expr,
        q: &'a Expr,
    ) -> Result<Option<Refusal>, AllocError>
        ensures { IfOk result (λ first. first ≡ earliest (of_condition (known_in self.now) false cond.now
            ++ (of_number (known_in self.now) true p.now ++ of_number (known_in self.now) true q.now))) }
    {
        let first = self.condition(false, cond)?;
        let first = earlier(first, self.number(true, p)?);
        Ok(earlier(first, self.number(true, q)?))
    }

    /// The first mistake of a constraint.
    #[cycle(constraint)]
    fn constraint(&self, constraint: &'a Cons) -> Result<Option<Refusal>, AllocError>
        ensures { IfOk result (λ first. first ≡ earliest (of_constraint (known_in self.now) (cons_tree constraint.now))) }
    {
        match constraint {
            Cons::Forall(over, inner) => {
                let within = (&*self).bind(over.as_slice())?;
                let first = within.names.constraint(inner)?;
                Ok(earlier(within.first, first))
            }
            Cons::Block(parts) => self.constraints(parts.as_slice()),
            Cons::Hard(e) => self.condition(false, e),
            Cons::Chance { cond, p, q } => self.chance(cond, p, q),
        }
    }

    /// The first mistake of constraints.
    #[cycle(constraint)]
    pub fn constraints(&self, parts: &'a [Cons]) -> Result<Option<Refusal>, AllocError>
        ensures { IfOk result (λ first. first ≡ earliest (of_constraints (known_in self.now) (conses (map cons_tree parts.now)))) }
    {
        let mut first = None;
        'parts: for part in parts {
            first = earlier(first, self.constraint(part)?);
        }
        Ok(first)
    }
}
