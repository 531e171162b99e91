//! A chance constraint, an objective and a linear comparison, of which a cell is raised and set back again.
//!
//! What is found was computed by hand.

ghost use Rattle.std.specs.Prelude.{◌≡◌, ◌<◌, ◌∷◌, true, length, pos, IfOk, IfSome, OnOk};
ghost use Rattle.sopl_base.specs.declared.reason.Side.TheVariants as side;
ghost use Rattle.box_problem.specs.Box.{Box, Inside};
ghost use Rattle.box_problem.specs.Steps.{IsCut, narrowed};
ghost use Rattle.box_store.specs.Store.{IsUndone};
ghost use Rattle.open_nodes.specs.Walks.{marked};
ghost use Rattle.prop_set.specs.Kinds.{Fits, IsInStep};
ghost use Rattle.term_program.specs.declared.program.Program.{Program as Stated};
ghost use Rattle.term_program.specs.Programs.{IsMade};
ghost use Rattle.term_program.specs.Stated.{box_problem_of};

use crate::sopl_compile_programs::program_in;
use box_store::BoxStore;
use prop_chance::Chance;
use prop_core::{Finding, Propagator, Watching};
use prop_goal::Goal;
use prop_linear::Linear;
use prop_set::AnyProp;
use sopl_base::{Fault, Reason, Side};
use sopl_search::SearchProblem;
use sopl_term::{Form, Program};
use std::alloc::{AllocError, Global};
use std::process::Abort;
use std::test::Fail;

/// Whether 2 cuts the interval of the first cell.
fn may_be_raised(store: &BoxStore) -> bool
    ensures { result ≡ true → IsCut store.now.box 0 side.Ge (pos 2) }
{
    if store.cells() == 0 {
        return false;
    }
    if store.lo(0) >= 2 {
        return false;
    }
    store.hi(0) >= 2
}

/// Marks the box of a store, raises the lower end of its first cell to 2, and tells a propagator of that cell.
fn raise(member: &mut AnyProp, store: &mut BoxStore) -> Result<(), AllocError>
    requires cut { IsCut store.old.box 0 side.Ge (pos 2) }
    ensures raised { OnOk result (store.new.box ≡ narrowed store.old.box 0 side.Ge (pos 2)) }
    ensures marked { OnOk result (marked store.new.marks ≡ store.old.box ∷ marked store.old.marks) }
    ensures in_step { OnOk result ((program : Stated) → IsInStep member.old program store.old.box
        → IsInStep member.new program store.new.box) }
    ensures still_fits { OnOk result ((program : Stated) → Fits member.old program → Fits member.new program) }
{
    store.reserve(2)?;
    store.mark();
    store.tighten(0, Side::Ge, 2);
    member.touched(0);
    Ok(())
}

/// Tells a propagator of the one cell that was tightened since the newest mark, and goes back to the box at the mark; whether there was one
/// cell.
fn go_back(member: &mut AnyProp, store: &mut BoxStore) -> bool
    requires marked { 0 < length store.old.marks }
    ensures undone { result ≡ true → IsUndone store.old.marks store.new }
    ensures in_step { result ≡ true → (program : Stated) → IsInStep member.old program store.old.box
        → IsInStep member.new program store.new.box }
    ensures still_fits { result ≡ true → (program : Stated) → Fits member.old program → Fits member.new program }
{
    let changed = store.changed();
    if changed.len() != 1 {
        return false;
    }
    let cell = changed[0];
    member.touched(cell);
    store.undo();
    true
}

/// Which propagator is asked: that of the first chance constraint, of the objective, or of the first hard constraint in the first scenario,
/// where it is a linear comparison.
#[derive(Clone, Copy)]
enum Asked {
    Chance,
    Goal,
    Linear,
}

/// The propagator of the first chance constraint, if there is one.
fn chance_member(alloc: Global, program: &Program) -> Result<Option<AnyProp>, AllocError>
    requires made { IsMade program.now }
    ensures fits { IfOk result (λ found. IfSome found (λ made. Fits made program.now)) }
    ensures in_step { IfOk result (λ found. IfSome found (λ made. (b : Box) → IsInStep made program.now b)) }
{
    if program.chances() == 0 {
        return Ok(None);
    }
    let chance = Chance::new(alloc, program, 0)?;
    Ok(Some(AnyProp::Chance(chance)))
}

/// The propagator of the first hard constraint in the first scenario, if there is one, and it is a linear comparison.
#[tactic(auto, using(prop_set::proofs::Together::linear_there))]
fn linear_member(alloc: Global, program: &Program) -> Result<Option<AnyProp>, AllocError>
    requires made { IsMade program.now }
    ensures fits { IfOk result (λ found. IfSome found (λ made. Fits made program.now)) }
    ensures in_step { IfOk result (λ found. IfSome found (λ made. (b : Box) → IsInStep made program.now b)) }
{
    if program.hards() == 0 {
        return Ok(None);
    }
    if program.scenarios() == 0 {
        return Ok(None);
    }
    match program.form(program.hard(0, 0)) {
        Form::Linear => {
            let linear = Linear::new(alloc, program, 0, 0)?;
            Ok(Some(AnyProp::Linear(linear)))
        }
        _ => Ok(None),
    }
}

/// The propagator that is asked, if there is such a one.
fn asked_member(
    alloc: Global,
    program: &Program,
    asked: Asked,
) -> Result<Option<AnyProp>, AllocError>
    requires made { IsMade program.now }
    ensures fits { IfOk result (λ found. IfSome found (λ made. Fits made program.now)) }
    ensures in_step { IfOk result (λ found. IfSome found (λ made. (b : Box) → IsInStep made program.now b)) }
{
    match asked {
        Asked::Chance => chance_member(alloc, program),
        Asked::Goal => {
            let goal = Goal::new(alloc, program)?;
            Ok(Some(AnyProp::Goal(goal)))
        }
        Asked::Linear => linear_member(alloc, program),
    }
}

/// What a new one finds of the box of a store.
fn found_anew(
    alloc: Global,
    program: &Program,
    asked: Asked,
    store: &BoxStore,
    best: Option<i128>,
) -> Result<Finding, AllocError>
    requires made { IsMade program.now }
    requires inside { Inside store.now.box (box_problem_of program.now).root }
{
    match asked_member(alloc, program, asked)? {
        Some(made) => {
            let mut member = made;
            Ok(member.revise(program, store, best))
        }
        None => Ok(Finding::Quiet),
    }
}

/// Adds what a propagator finds that keeps what it has seen, and what a new one finds.
fn add_both(
    alloc: Global,
    program: &Program,
    asked: Asked,
    member: &mut AnyProp,
    store: &BoxStore,
    best: Option<i128>,
    found: &mut Vec<Finding>,
) -> Result<(), AllocError>
    requires made { IsMade program.now }
    requires inside { Inside store.now.box (box_problem_of program.now).root }
    requires fits { Fits member.old program.now }
    requires in_step { IsInStep member.old program.now store.now.box }
    ensures fits { Fits member.new program.now }
    ensures in_step { IsInStep member.new program.now store.now.box }
{
    let kept = member.revise_kept(program, store, best);
    found.push(kept)?;
    found.push(found_anew(alloc, program, asked, store, best)?)?;
    Ok(())
}

/// Adds what both find where the first cell was raised to 2, and then what they find where it was set back.
#[tactic(auto, using(crate::proofs::GoingBack::is_marked, crate::proofs::GoingBack::inside_raised, crate::proofs::GoingBack::inside_again))]
fn add_findings(
    alloc: Global,
    program: &Program,
    asked: Asked,
    member: &mut AnyProp,
    store: &mut BoxStore,
    best: Option<i128>,
    found: &mut Vec<Finding>,
) -> Result<(), AllocError>
    requires made { IsMade program.now }
    requires inside { Inside store.old.box (box_problem_of program.now).root }
    requires fits { Fits member.old program.now }
    requires in_step { IsInStep member.old program.now store.old.box }
{
    if !may_be_raised(store) {
        return Ok(());
    }
    raise(member, store)?;
    add_both(alloc, program, asked, member, store, best, found)?;
    if !go_back(member, store) {
        return Ok(());
    }
    add_both(alloc, program, asked, member, store, best, found)
}

/// What a propagator finds that has been asked at the root box, and each time behind it what a new one finds: where the first cell was
/// raised to 2, and where it was set back.
fn findings_of(
    alloc: Global,
    program: &Program,
    asked: Asked,
    best: Option<i128>,
) -> Result<Vec<Finding>, AllocError>
    requires made { IsMade program.now }
{
    let mut found = Vec::new(alloc);
    let roots = AnyProp::roots(alloc, program)?;
    let mut store = BoxStore::new(alloc, roots.as_slice())?;
    let Some(made) = asked_member(alloc, program, asked)? else {
        return Ok(found);
    };
    let mut member = made;
    member.revise(program, &store, best);
    add_findings(
        alloc,
        program,
        asked,
        &mut member,
        &mut store,
        best,
        &mut found,
    )?;
    Ok(found)
}

/// What they find in a text.
fn findings_in(
    alloc: Global,
    text: &str,
    asked: Asked,
    best: Option<i128>,
) -> Result<Vec<Finding>, Fault> {
    let program = program_in(alloc, text)?;
    Ok(findings_of(alloc, &program, asked, best)?)
}

/// Whether the lower end of the first cell is raised, to 1 or to 2.
fn raises(finding: &Finding) -> bool {
    match finding {
        Finding::Cut(step) => {
            step.cell == 0 && step.side == Side::Ge && (step.k == 1 || step.k == 2)
        }
        _ => false,
    }
}

/// Whether the upper end of the first cell is lowered, to at least 1.
fn lowers(finding: &Finding) -> bool {
    match finding {
        Finding::Cut(step) => step.cell == 0 && step.side == Side::Le && step.k >= 1,
        _ => false,
    }
}

/// Whether the upper end of the second cell is lowered to 4.
fn lowers_to_four(finding: &Finding) -> bool {
    match finding {
        Finding::Cut(step) => step.cell == 1 && step.side == Side::Le && step.k == 4,
        _ => false,
    }
}

/// Two of three demands are to be met: none is met by 0, one by 1, and two by 2.
const TEXT: &str =
    "dvar int x in 0..5; stoch int d in {1:1, 2:1, 3:1}; minimize expected(x); subject to { prob(x >= d) >= 2/3; }";

/// The objective of two cells sums up to three times both.
const SUM_TEXT: &str =
    "dvar int x in 0..5; dvar int y in 0..5; stoch int d in {1:1, 2:1, 3:1}; minimize expected(x + y); subject to { prob(x >= d) >= 2/3; }";

/// Where one cell is at least 2, the other one is at most 4.
const PAIR_TEXT: &str = "dvar int x in 0..5; dvar int y in 0..5; subject to { x + y <= 6; }";

#[test]
fn raised_and_set_back(rt: HostRuntime) -> Result<(), Fail> {
    let found = findings_in(rt.alloc(), TEXT, Asked::Chance, None)?;
    assert!(rt; found.len() == 4, "another number of findings");
    assert!(rt;
        found.get(0) == Some(&Finding::Quiet) && found.get(1) == Some(&Finding::Quiet),
        "no rest where the cell was raised"
    );
    assert!(rt;
        found.get(2).is_some_and(raises),
        "no step where it was set back"
    );
    assert!(rt;
        found.get(2) == found.get(3),
        "another step than that of a new propagator"
    );
    Ok(())
}

#[test]
fn objective_raised_and_set_back(rt: HostRuntime) -> Result<(), Fail> {
    let found = findings_in(rt.alloc(), SUM_TEXT, Asked::Goal, Some(6))?;
    assert!(rt; found.len() == 4, "another number of findings");
    assert!(rt;
        found.get(0) == Some(&Finding::Dead(Reason::Bound)),
        "not closed where the cell was raised"
    );
    assert!(rt;
        found.get(0) == found.get(1),
        "not closed by a new propagator where the cell was raised"
    );
    assert!(rt;
        found.get(2).is_some_and(lowers),
        "no step where it was set back"
    );
    assert!(rt;
        found.get(2) == found.get(3),
        "another step than that of a new propagator"
    );
    Ok(())
}

#[test]
fn linear_raised_and_set_back(rt: HostRuntime) -> Result<(), Fail> {
    let found = findings_in(rt.alloc(), PAIR_TEXT, Asked::Linear, None)?;
    assert!(rt; found.len() == 4, "another number of findings");
    assert!(rt;
        found.get(0).is_some_and(lowers_to_four),
        "no step where the cell was raised"
    );
    assert!(rt;
        found.get(0) == found.get(1),
        "another step than that of a new propagator"
    );
    assert!(rt;
        found.get(2) == Some(&Finding::Quiet) && found.get(3) == Some(&Finding::Quiet),
        "no rest where it was set back"
    );
    Ok(())
}
