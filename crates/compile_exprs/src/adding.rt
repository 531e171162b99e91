//! What stands on operands that were added before is added.

ghost use Rattle.term_language.specs.Terms as c;
ghost use Rattle.compile_exprs.specs.Made.{HasCondOperands, HasOperands, MakesCond, MakesTerm};
ghost use Rattle.compile_names.specs.declared.setting.Scenarios.{Scenarios};
ghost use Rattle.compile_scene.specs.declared.work.Lowering.{Lowering};
ghost use Rattle.sopl_term.specs.Built.{CanAddCond, CanAddTerm};

use compile_scene::Lowering;
use sopl_base::Fault;
use sopl_term::{CondId, NewCond, NewTerm, TermId};

/// Adds a term.
pub(crate) fn add_term(work: &mut Lowering, new: &NewTerm<'_>) -> Result<TermId, Fault>
    requires can { CanAddTerm work.old.builder new.now }
    ensures made { (setting : Scenarios) (before : Lowering) (t : c.Term) → HasOperands setting before work.old new.now t → MakesTerm setting before work.new t result }
{
    work.builder.add_term(new)
}

/// Adds a condition.
pub(crate) fn add_cond(work: &mut Lowering, new: &NewCond<'_>) -> Result<CondId, Fault>
    requires can { CanAddCond work.old.builder new.now }
    ensures made { (setting : Scenarios) (before : Lowering) (t : c.Cond) → HasCondOperands setting before work.old new.now t → MakesCond setting before work.new t result }
{
    let id = work.builder.add_cond(new)?;
    Ok(id)
}
