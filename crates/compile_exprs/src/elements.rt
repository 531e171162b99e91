//! Names and elements of arrays as terms.

ghost use Rattle.std.specs.Prelude.{◌≡◌, [], length, option_map, IfOk, IfSome};
ghost use Rattle.term_language.specs.Terms as c;
ghost use Rattle.compile_exprs.specs.Made.{AreTerms, AreThere, IsPlaced, MakesTerm};
ghost use Rattle.compile_laws.specs.Instances.{elements, item_term, named_term, table_of, undefined};
ghost use Rattle.sopl_scen.specs.Layout.{cells_for};
ghost use Rattle.compile_scene.specs.Scenes.{HasCell, place_of};
ghost use Rattle.compile_scene.specs.Works.{IsReady};
ghost use Rattle.compile_scene.specs.declared.work.Lowering.{Lowering};
ghost use Rattle.term_math.specs.Kept as kept;
ghost use Rattle.unfold_constants.specs.Here.{known_in};

use crate::adding::add_term;
use compile_scene::{Lowering, NumberedScenario};
use sopl_ast::Name;
use sopl_base::Fault;
use sopl_term::{NewTerm, TermId};
use std::alloc::{AllocError, Global};
use term_math::{Element, Table};
use unfold_constants::ConstantScope;

/// An array of no element.
fn empty_array(alloc: Global) -> Result<Table, AllocError>
    ensures empty { IfOk result (λ table. kept.table_of table ≡ table_of []) }
{
    let mut sets = Vec::new(alloc);
    sets.push(Vec::new(alloc))?;
    Ok(Table::of(sets, Vec::new(alloc)))
}

/// Adds what is never defined: an element of an array that has none.
pub(crate) fn undefined(
    scene: &NumberedScenario<'_, '_>,
    work: &mut Lowering,
) -> Result<TermId, Fault>
    requires ready { IsReady scene.now.setting.now work.old }
    ensures made { MakesTerm scene.now.setting.now work.old work.new undefined result }
{
    let table = empty_array(work.alloc)?;
    let id = work.builder.array(table)?;
    add_term(work, &NewTerm::Element(id, &[]))
}

/// Adds a number or what is never defined, or finds the term of a cell.
#[tactic(auto, using(crate::proofs::Steps::cell_made, crate::proofs::Steps::no_operands))]
fn item_term(
    scene: &NumberedScenario<'_, '_>,
    work: &mut Lowering,
    item: Option<Element>,
) -> Result<TermId, Fault>
    requires ready { IsReady scene.now.setting.now work.old }
    requires cell { IfSome item (HasCell (length (cells_for scene.now.setting.now.decisions.now scene.now.setting.now.stochs.now))) }
    ensures made { MakesTerm scene.now.setting.now work.old work.new (item_term (option_map kept.item_of item)) result }
{
    match item {
        Some(Element::Fixed(value)) => add_term(work, &NewTerm::Constant(value)),
        Some(Element::Free(cell)) => Ok(work.builder.cell_term(cell)),
        None => undefined(scene, work),
    }
}

/// Adds what a name without an index stands for.
pub(crate) fn named(
    scene: &NumberedScenario<'_, '_>,
    known: &ConstantScope<'_>,
    work: &mut Lowering,
    name: &Name,
) -> Result<TermId, Fault>
    requires ready { IsReady scene.now.setting.now work.old }
    requires placed { IsPlaced scene.now known.now }
    ensures made { MakesTerm scene.now.setting.now work.old work.new (named_term (place_of scene.now (known_in known.now)) name.now) result }
{
    let item = scene.item(known, name);
    item_term(scene, work, item)
}

/// Adds the element of the array of a name at indices.
pub(crate) fn element(
    scene: &NumberedScenario<'_, '_>,
    known: &ConstantScope<'_>,
    work: &mut Lowering,
    name: &Name,
    at: &[TermId],
) -> Result<TermId, Fault>
    requires placed { IsPlaced scene.now known.now }
    requires ready { IsReady scene.now.setting.now work.old }
    requires there { AreThere work.old at.now }
    ensures made { (before : Lowering) (ts : c.Terms) → AreTerms scene.now.setting.now before work.old at.now ts
        → MakesTerm scene.now.setting.now before work.new (c.Element (table_of (elements (place_of scene.now (known_in known.now)) name.now)) ts) result }
{
    let table = scene.table(work, name)?;
    add_term(work, &NewTerm::Element(table, at))
}
