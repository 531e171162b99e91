//! Terms are made of several terms.

ghost use Rattle.std.specs.Prelude.{◌≡◌, ◌∷◌, [], IfOk, List, false, map};
ghost use Rattle.term_language.specs.Terms as c;
ghost use Rattle.compile_exprs.specs.Made.{AreTerms, AreThere, IsMade, MakesTerm};
ghost use Rattle.compile_laws.specs.Instances.{extreme_of, function_of, sum_of, terms_of};
ghost use Rattle.compile_laws.specs.Subterms.{subterms};
ghost use Rattle.compile_names.specs.declared.setting.Scenarios.{Scenarios};
ghost use Rattle.compile_scene.specs.Works.{IsReady};
ghost use Rattle.compile_scene.specs.declared.work.Lowering.{Lowering};
ghost use Rattle.term_nodes.specs.Things.{a_term};

use crate::adding::add_term;
use crate::elements::undefined;
use compile_scene::{Lowering, NumberedScenario};
use sopl_ast::Function;
use sopl_base::{Extreme, Fault};
use sopl_term::{NewTerm, TermId};
use std::alloc::{AllocError, Global};
use term_math::Operation;

/// Terms as parts of a sum, none of which is subtracted.
fn parts_of(alloc: Global, terms: &[TermId]) -> Result<Vec<(bool, TermId)>, AllocError>
    ensures { IfOk result (λ list. list.items ≡ map (λ id. (false, id)) terms.now) }
{
    terms.iter().map(|id| (false, *id)).collect(alloc)
}

/// Adds the sum of terms.
pub(crate) fn added_up(work: &mut Lowering, terms: &[TermId]) -> Result<TermId, Fault>
    requires there { AreThere work.old terms.now }
    ensures made { (setting : Scenarios) (before : Lowering) (xs : List c.Term) → AreTerms setting before work.old terms.now (terms_of xs)
        → MakesTerm setting before work.new (c.Sum (sum_of xs)) result }
{
    let parts = parts_of(work.alloc, terms)?;
    add_term(work, &NewTerm::Sum(parts.as_slice()))
}

/// Adds what a function makes of a term.
pub(crate) fn called(work: &mut Lowering, function: Function, id: TermId) -> Result<TermId, Fault>
    requires there { AreThere work.old (id ∷ []) }
    ensures made { (setting : Scenarios) (before : Lowering) (t : c.Term) → IsMade setting before work.old id.0 (a_term t) (subterms t)
        → MakesTerm setting before work.new (function_of function t) result }
{
    match function {
        Function::Negative => add_term(work, &NewTerm::Sum(&[(true, id)])),
        Function::Size => add_term(work, &NewTerm::Operation(Operation::Size, id)),
    }
}

/// Adds the least or the greatest of terms; of none it is never defined.
pub(crate) fn extreme(
    scene: &NumberedScenario<'_, '_>,
    work: &mut Lowering,
    which: Extreme,
    parts: &[TermId],
) -> Result<TermId, Fault>
    requires ready { IsReady scene.now.setting.now work.old }
    requires there { AreThere work.old parts.now }
    ensures made { (before : Lowering) (ts : c.Terms) → AreTerms scene.now.setting.now before work.old parts.now ts
        → MakesTerm scene.now.setting.now before work.new (extreme_of which ts) result }
{
    if parts.is_empty() {
        return undefined(scene, work);
    }
    add_term(work, &NewTerm::Extreme(which, parts))
}
