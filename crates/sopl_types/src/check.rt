//! Well-typed models, and the test of a model.

ghost use Rattle.std.specs.Prelude.{◌≡◌, ◌++◌, IfOk, IfErr};
ghost use Rattle.std.specs.Option.{option_map};
ghost use Rattle.sopl_ast.specs.Constraints.{cons_trees};
ghost use Rattle.sopl_ast.specs.Whole.{conses};
ghost use Rattle.sopl_ast.specs.Mistakes.{of_goal, of_constraints, of_model, IsWellTyped};
ghost use Rattle.sopl_ast.specs.Origin.{IsFromTokens};
ghost use Rattle.sopl_ast.specs.WholeModel.{goal_tree, whole};
ghost use Rattle.sopl_base.specs.declared.fault.Fault.TheVariants.{NoMemory};
ghost use Rattle.sopl_types.specs.Earliest.{earliest};
ghost use Rattle.sopl_types.specs.Entered.{declared_in};
ghost use Rattle.sopl_types.specs.Outcome.{IsFirstFault};

use crate::declarations::declarations;
use crate::mistakes::earlier;
use crate::names::{Declared, Names};
use sopl_ast::Model;
use sopl_base::{Fault, Refusal};
use std::alloc::{AllocError, Global};

/// A model that is well typed, and comes from the tokens of a text.
#[derive(Debug, Drop)]
pub struct Typed {
    model: Model,
    ghost origin: { ∥ IsFromTokens (whole model) ∥₁ },
    ghost typed: { IsWellTyped (whole model) },
}

impl Typed {
    /// The model.
    pub fn model(&self) -> &Model
        ensures same { result.now ≡ self.now.model }
        ensures origin { ∥ IsFromTokens (whole result.now) ∥₁ }
        ensures typed { IsWellTyped (whole result.now) }
    {
        &self.model
    }

    /// The model alone.
    pub fn into_model(self) -> Model
        ensures same { result ≡ self.model }
        ensures origin { ∥ IsFromTokens (whole result) ∥₁ }
        ensures typed { IsWellTyped (whole result) }
    {
        self.model
    }
}

/// The first mistake of a model behind its declarations.
#[tactic(auto, using(crate::proofs::EarliestLemmas::earliest_both))]
fn later_mistake(
    alloc: Global,
    declared: &Declared,
    model: &Model,
) -> Result<Option<Refusal>, AllocError>
    ensures { IfOk result (λ first. first ≡ earliest (of_goal (declared_in declared.now) (option_map goal_tree model.now.goal)
        ++ of_constraints (declared_in declared.now) (conses (cons_trees model.now.body)))) }
{
    let names = Names::new(alloc, declared);
    let first = names.objective(&model.goal)?;
    Ok(earlier(first, names.constraints(model.body.as_slice())?))
}

/// The first mistake of a model, if it has one.
fn first_mistake(alloc: Global, model: &Model) -> Result<Option<Refusal>, AllocError>
    ensures { IfOk result (λ first. first ≡ earliest (of_model (whole model.now))) }
{
    let all = declarations(alloc, model.decls.as_slice())?;
    let later = later_mistake(alloc, &all.declared, model)?;
    Ok(earlier(all.first, later))
}

/// The model, if it is well typed. Of several mistakes the first in the text is answered, and of
/// those at one place the one with the lowest code.
#[tactic(auto, using(crate::proofs::Whole::outcomes))]
pub fn check_types(alloc: Global, model: Model) -> Result<Typed, Fault>
    requires origin { IsFromTokens (whole model) }
    ensures same { IfOk result (λ typed. whole typed.model ≡ whole model) }
    ensures refused { IfErr result (IsFirstFault (whole model)) }
    ensures accepted { IsWellTyped (whole model) → IfErr result (λ fault. fault ≡ NoMemory) }
{
    match first_mistake(alloc, &model)? {
        None => Ok(Typed { model }),
        Some(refusal) => Err(Fault::Text(refusal)),
    }
}
