//! Programs over one cell, and what closes boxes of theirs.

ghost use Rattle.std.specs.Prelude.{◌≡◌, ◌<◌, ◌≤◌, length, IfOk};
ghost use Rattle.std.specs.List.{AllByRecursion};
ghost use Rattle.box_problem.specs.Box.{box_of};
ghost use Rattle.sopl_term.specs.Built.{IsBuilding, IsNear, asked_direction, built, problem_built, root_built};
ghost use Rattle.term_program.specs.Programs.{IsMade, root_in};

use crate::boxes::add_root;
use box_store::BoxStore;
use sopl_base::{CmpOp, Direction, Fault, Interval, Reason};
use sopl_term::{Builder, CondId, Form, Program, TermId, goal_ends, refuted_in};
use std::alloc::{AllocError, Global};

/// A condition of a term and a number.
fn compared(b: &mut Builder, op: CmpOp, a: TermId, number: i64) -> Result<CondId, Fault>
    requires building { IsBuilding b.old }
    requires exists { a.0 < length (built b.old) }
    ensures building { IsBuilding b.new }
    ensures root { root_built b.new ≡ root_built b.old }
    ensures direction { asked_direction b.new ≡ asked_direction b.old }
    ensures problem { problem_built b.new ≡ problem_built b.old }
    ensures more { length (built b.old) ≤ length (built b.new) }
    ensures exists { IfOk result (λ id. id.0 < length (built b.new)) }
{
    let right = b.constant(number)?;
    let cond = b.compare(op, a, right)?;
    Ok(cond)
}

/// So many times a term.
fn times(b: &mut Builder, number: i64, a: TermId) -> Result<TermId, Fault>
    requires building { IsBuilding b.old }
    requires exists { a.0 < length (built b.old) }
    ensures building { IsBuilding b.new }
    ensures root { root_built b.new ≡ root_built b.old }
    ensures direction { asked_direction b.new ≡ asked_direction b.old }
    ensures problem { problem_built b.new ≡ problem_built b.old }
    ensures more { length (built b.old) ≤ length (built b.new) }
    ensures exists { IfOk result (λ id. id.0 < length (built b.new)) }
{
    let left = b.constant(number)?;
    b.product(left, a)
}

/// The constraint that three times the term is at most 20, in each of three scenarios.
fn add_hard(b: &mut Builder, a: TermId) -> Result<(), Fault>
    requires building { IsBuilding b.old }
    requires exists { a.0 < length (built b.old) }
    requires three { length (problem_built b.old).weights ≡ 3 }
    ensures building { IsBuilding b.new }
    ensures root { root_built b.new ≡ root_built b.old }
    ensures direction { asked_direction b.new ≡ asked_direction b.old }
    ensures more { length (built b.old) ≤ length (built b.new) }
    ensures three { length (problem_built b.new).weights ≡ 3 }
{
    let product = times(b, 3, a)?;
    let cond = compared(b, CmpOp::Le, product, 20)?;
    b.hard(&[cond, cond, cond])?;
    Ok(())
}

/// The constraint that the term is at least 1, 2 and 3 in three scenarios, with a probability of at least two thirds.
fn add_chance(b: &mut Builder, a: TermId) -> Result<(), Fault>
    requires building { IsBuilding b.old }
    requires exists { a.0 < length (built b.old) }
    requires three { length (problem_built b.old).weights ≡ 3 }
    ensures building { IsBuilding b.new }
    ensures root { root_built b.new ≡ root_built b.old }
    ensures direction { asked_direction b.new ≡ asked_direction b.old }
    ensures more { length (built b.old) ≤ length (built b.new) }
    ensures three { length (problem_built b.new).weights ≡ 3 }
{
    let first = compared(b, CmpOp::Ge, a, 1)?;
    let second = compared(b, CmpOp::Ge, a, 2)?;
    let third = compared(b, CmpOp::Ge, a, 3)?;
    b.chance(&[first, second, third], 2, 3)?;
    Ok(())
}

/// The constraints over one cell, which is the term that is given back.
fn constrained(b: &mut Builder) -> Result<TermId, Fault>
    requires building { IsBuilding b.old }
    requires one { length (root_built b.old).lows ≡ 1 }
    requires three { length (problem_built b.old).weights ≡ 3 }
    ensures building { IsBuilding b.new }
    ensures root { root_built b.new ≡ root_built b.old }
    ensures direction { asked_direction b.new ≡ asked_direction b.old }
    ensures three { length (problem_built b.new).weights ≡ 3 }
    ensures exists { IfOk result (λ id. id.0 < length (built b.new)) }
{
    let x = b.cell(0)?;
    add_hard(b, x)?;
    add_chance(b, x)?;
    Ok(x)
}

/// A program over one cell and three scenarios, whose objective is the cell.
fn program(
    alloc: Global,
    roots: &[Interval],
    direction: Direction,
    worst: bool,
) -> Result<Program, Fault>
    requires one { length roots.now ≡ 1 }
    requires near { AllByRecursion IsNear roots.now }
    ensures made { IfOk result IsMade }
    ensures root { IfOk result (λ program. root_in program ≡ box_of roots.now) }
{
    let mut b = Builder::new(alloc, roots, &[1, 1, 1], direction, worst)?;
    let x = constrained(&mut b)?;
    finished(b, direction, x)
}

/// The interval of one cell.
#[tactic(auto, using(crate::proofs::Roots::none_near))]
fn one_root(alloc: Global) -> Result<Vec<Interval>, AllocError>
    ensures one { IfOk result (λ roots. length roots.items ≡ 1) }
    ensures near { IfOk result (λ roots. AllByRecursion IsNear roots.items) }
{
    let mut roots = Vec::new(alloc);
    add_root(&mut roots, 0, 9)?;
    Ok(roots)
}

/// The program with the term as its objective in each of three scenarios; without a direction there is none.
fn finished(b: Builder, direction: Direction, x: TermId) -> Result<Program, Fault>
    requires building { IsBuilding b }
    requires exists { x.0 < length (built b) }
    requires three { length (problem_built b).weights ≡ 3 }
    requires direction { asked_direction b ≡ direction }
    ensures made { IfOk result IsMade }
    ensures root { IfOk result (λ program. root_in program ≡ root_built b) }
{
    match direction {
        Direction::Minimize => b.goal(&[x, x, x]),
        Direction::Maximize => b.goal(&[x, x, x]),
        Direction::Nothing => b.goal(&[]),
    }
}

/// Whether a reason closes the box in which the cell has this interval.
fn closes(
    program: &Program,
    store: &BoxStore,
    reason: Reason,
    best: Option<i128>,
    ends: (i64, i64),
) -> Option<bool>
    requires made { IsMade program.now }
    requires root { store.now.box ≡ root_in program.now }
{
    if program.cells() == 0 {
        return None;
    }
    let root = program.root(0);
    let part = Interval::new(ends.0, ends.1)?;
    if part.lo < root.lo || root.hi < part.hi {
        return None;
    }
    Some(refuted_in(program, reason, store, best, 0, part))
}

const HARD: Reason = Reason::Hard {
    instance: 0,
    scenario: 1,
};

const CHANCE: Reason = Reason::Chance { instance: 0 };

/// What a row is about, a reason, what is best so far, the ends of a box, and whether the reason closes it.
type Closing = (&'static str, Reason, Option<i128>, (i64, i64), bool);

/// The first row whose reason closes its box otherwise.
fn closed_otherwise(program: &Program, store: &BoxStore, rows: &[Closing]) -> Option<&'static str>
    requires made { IsMade program.now }
    requires root { store.now.box ≡ root_in program.now }
{
    for (word, reason, best, ends, want) in rows {
        if closes(program, store, *reason, *best, *ends) != Some(*want) {
            return Some(*word);
        }
    }
    None
}

/// Whether the constraints of a program are linear comparisons.
fn all_linear(program: &Program) -> bool
    requires made { IsMade program.now }
{
    if program.hards() == 0 || program.chances() == 0 || program.scenarios() != 3 {
        return false;
    }
    let hard = program.hard(0, 1);
    let chance = program.chance(0, 2);
    program.form(hard) == Form::Linear && program.form(chance) == Form::Linear
}

/// What is wrong of a program that is to be as small as can be, and of what closes its boxes.
fn minimized(alloc: Global) -> Result<Option<&'static str>, Fault> {
    let roots = one_root(alloc)?;
    let store = BoxStore::new(alloc, roots.as_slice())?;
    let program = program(alloc, roots.as_slice(), Direction::Minimize, false)?;
    let ends = goal_ends(&program, &store);
    if ends != (0, 27) || program.denominator() != 3 || !all_linear(&program) {
        return Ok(Some("what is told of the program"));
    }
    Ok(closed_otherwise(
        &program,
        &store,
        &[
            ("no point of a hard constraint", HARD, None, (7, 9), true),
            ("one point of a hard constraint", HARD, None, (6, 9), false),
            (
                "one scenario of a chance constraint",
                CHANCE,
                None,
                (0, 1),
                true,
            ),
            (
                "two scenarios of a chance constraint",
                CHANCE,
                None,
                (0, 2),
                false,
            ),
            (
                "an objective that is defined",
                Reason::Undefined { scenario: 0 },
                None,
                (0, 9),
                false,
            ),
            ("nothing better", Reason::Bound, Some(6), (2, 5), true),
            ("something better", Reason::Bound, Some(6), (1, 5), false),
            ("nothing best so far", Reason::Bound, None, (2, 5), false),
        ],
    ))
}

/// What is wrong of a program whose worst scenario is to be as great as can be, and of what closes its boxes.
fn maximized(alloc: Global) -> Result<Option<&'static str>, Fault> {
    let roots = one_root(alloc)?;
    let store = BoxStore::new(alloc, roots.as_slice())?;
    let program = program(alloc, roots.as_slice(), Direction::Maximize, true)?;
    let ends = goal_ends(&program, &store);
    if ends != (0, 9) || program.denominator() != 1 {
        return Ok(Some("what is told of the program"));
    }
    Ok(closed_otherwise(
        &program,
        &store,
        &[
            ("nothing better", Reason::Bound, Some(5), (2, 5), true),
            ("something better", Reason::Bound, Some(4), (2, 5), false),
            (
                "no such constraint",
                Reason::Chance { instance: 1 },
                None,
                (0, 0),
                false,
            ),
        ],
    ))
}

/// What is wrong of a program without an objective, and of what closes its boxes.
fn without_objective(alloc: Global) -> Result<Option<&'static str>, Fault> {
    let roots = one_root(alloc)?;
    let store = BoxStore::new(alloc, roots.as_slice())?;
    let program = program(alloc, roots.as_slice(), Direction::Nothing, false)?;
    let ends = goal_ends(&program, &store);
    if ends != (0, 0) || program.denominator() != 1 {
        return Ok(Some("what is told of the program"));
    }
    Ok(closed_otherwise(
        &program,
        &store,
        &[(
            "a point that was found",
            Reason::Bound,
            Some(0),
            (2, 5),
            true,
        )],
    ))
}

#[test]
fn minimized_programs(rt: HostRuntime) {
    assert_eq!(rt; minimized(rt.alloc()), Ok(None));
}

#[test]
fn maximized_programs(rt: HostRuntime) {
    assert_eq!(rt; maximized(rt.alloc()), Ok(None));
}

#[test]
fn programs_without_objective(rt: HostRuntime) {
    assert_eq!(rt; without_objective(rt.alloc()), Ok(None));
}
