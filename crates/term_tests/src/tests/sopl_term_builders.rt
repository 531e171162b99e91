//! What each call of a builder adds, over the box of all points.

ghost use Rattle.std.specs.Prelude.{◌≡◌, ◌<◌, length, IfOk};
ghost use Rattle.std.specs.List.{AllByRecursion};
ghost use Rattle.box_problem.specs.Box.{box_of};
ghost use Rattle.sopl_term.specs.Built.{IsBuilding, IsNear, asked_direction, built, problem_built, root_built};
ghost use Rattle.term_nodes.specs.Things.{cond_at};
ghost use Rattle.term_program.specs.declared.shapes.Form.TheVariants.{Linear};
ghost use Rattle.term_program.specs.Comparisons.{shape_in};
ghost use Rattle.term_program.specs.Programs.{IsMade, problem_in, root_in, things_in};

use crate::boxes::add_root;
use box_store::BoxStore;
use sopl_base::{CmpOp, Direction, Fault, Interval};
use sopl_term::{Builder, CondId, Defined, Form, Program, TermId, Truth, kleene, range_of};
use std::alloc::{AllocError, Global};

/// The intervals of x and y.
#[tactic(auto, using(crate::proofs::Roots::none_near))]
pub(crate) fn two_roots(alloc: Global) -> Result<Vec<Interval>, AllocError>
    ensures two { IfOk result (λ roots. length roots.items ≡ 2) }
    ensures near { IfOk result (λ roots. AllByRecursion IsNear roots.items) }
{
    let mut roots = Vec::new(alloc);
    add_root(&mut roots, -7, 9)?;
    add_root(&mut roots, -5, 4)?;
    Ok(roots)
}

/// What is added of x and y.
#[derive(Clone, Copy)]
enum Made {
    Constant,
    Cell,
    Sum,
    Difference,
    Product,
    Quotient,
    Remainder,
    Least,
    Greatest,
    Size,
    Number,
}

/// A term of x and y.
fn adds(b: &mut Builder, made: Made, x: TermId, y: TermId) -> Result<TermId, Fault>
    requires building { IsBuilding b.old }
    requires two { length (root_built b.old).lows ≡ 2 }
    requires x { x.0 < length (built b.old) }
    requires y { y.0 < length (built b.old) }
    ensures building { IsBuilding b.new }
    ensures root { root_built b.new ≡ root_built b.old }
    ensures problem { problem_built b.new ≡ problem_built b.old }
    ensures direction { asked_direction b.new ≡ asked_direction b.old }
    ensures exists { IfOk result (λ id. id.0 < length (built b.new)) }
{
    match made {
        Made::Constant => b.constant(-3),
        Made::Cell => b.cell(1),
        Made::Sum => b.sum(&[(false, x), (false, y)]),
        Made::Difference => b.sum(&[(false, x), (true, y)]),
        Made::Product => b.product(x, y),
        Made::Quotient => b.quotient(x, -2),
        Made::Remainder => b.remainder(x, 4),
        Made::Least => b.least(&[x, y]),
        Made::Greatest => b.greatest(&[x, y]),
        Made::Size => b.size(x),
        Made::Number => counted(b, x, y),
    }
}

/// Whether x is less than y, as a number.
fn counted(b: &mut Builder, x: TermId, y: TermId) -> Result<TermId, Fault>
    requires building { IsBuilding b.old }
    requires x { x.0 < length (built b.old) }
    requires y { y.0 < length (built b.old) }
    ensures building { IsBuilding b.new }
    ensures root { root_built b.new ≡ root_built b.old }
    ensures problem { problem_built b.new ≡ problem_built b.old }
    ensures direction { asked_direction b.new ≡ asked_direction b.old }
    ensures exists { IfOk result (λ id. id.0 < length (built b.new)) }
{
    let less = b.compare(CmpOp::Lt, x, y)?;
    b.number(less)
}

/// The program whose objective is a term of x and y.
fn of_term(alloc: Global, roots: &[Interval], made: Made) -> Result<Program, Fault>
    requires two { length roots.now ≡ 2 }
    requires near { AllByRecursion IsNear roots.now }
    ensures made { IfOk result IsMade }
    ensures root { IfOk result (λ program. root_in program ≡ box_of roots.now) }
{
    let mut b = Builder::new(alloc, roots, &[1], Direction::Minimize, false)?;
    let x = b.cell(0)?;
    let y = b.cell(1)?;
    let term = adds(&mut b, made, x, y)?;
    b.goal(&[term])
}

/// Whether a term of x and y has this interval over the box of all points, and is Always defined.
fn lies(alloc: Global, made: Made, low: i64, high: i64) -> Result<bool, Fault> {
    let roots = two_roots(alloc)?;
    let store = BoxStore::new(alloc, roots.as_slice())?;
    let program = of_term(alloc, roots.as_slice(), made)?;
    let Some(term) = program.goal(0) else {
        return Ok(false);
    };
    let range = range_of(&program, term, &store);
    Ok(range.interval.lo == low && range.interval.hi == high && range.defined == Defined::Always)
}

const TERMS: &[(&str, Made, i64, i64)] = &[
    ("a number", Made::Constant, -3, -3),
    ("a cell", Made::Cell, -5, 4),
    ("a sum", Made::Sum, -12, 13),
    ("a difference", Made::Difference, -11, 14),
    ("a product", Made::Product, -45, 36),
    ("a quotient", Made::Quotient, -4, 3),
    ("a remainder", Made::Remainder, -3, 3),
    ("the least of both", Made::Least, -7, 4),
    ("the greatest of both", Made::Greatest, -5, 9),
    ("a size", Made::Size, 0, 9),
    ("a condition as a number", Made::Number, 0, 1),
];

/// The first row whose term has another interval.
fn seen_otherwise(alloc: Global) -> Result<Option<&'static str>, Fault> {
    for (word, made, low, high) in TERMS {
        if !lies(alloc, *made, *low, *high)? {
            return Ok(Some(*word));
        }
    }
    Ok(None)
}

#[test]
fn terms_of_builders(rt: HostRuntime) {
    assert_eq!(rt; seen_otherwise(rt.alloc()), Ok(None));
}

/// What is asked of x and y: that x is less than y, that x is x, and what is made of the two.
#[derive(Clone, Copy)]
enum Asked {
    Less,
    Same,
    Not,
    All,
    Any,
    Implies,
}

/// A condition of x and y.
fn asks(b: &mut Builder, asked: Asked, x: TermId, y: TermId) -> Result<CondId, AllocError>
    requires building { IsBuilding b.old }
    requires x { x.0 < length (built b.old) }
    requires y { y.0 < length (built b.old) }
    ensures building { IsBuilding b.new }
    ensures root { root_built b.new ≡ root_built b.old }
    ensures problem { problem_built b.new ≡ problem_built b.old }
    ensures direction { asked_direction b.new ≡ asked_direction b.old }
    ensures exists { IfOk result (λ id. id.0 < length (built b.new)) }
{
    let less = b.compare(CmpOp::Lt, x, y)?;
    let same = b.compare(CmpOp::Le, x, x)?;
    match asked {
        Asked::Less => Ok(less),
        Asked::Same => Ok(same),
        Asked::Not => b.not(same),
        Asked::All => b.all(&[less, same]),
        Asked::Any => b.any(&[less, same]),
        Asked::Implies => b.implies(same, less),
    }
}

/// The program whose one constraint is a condition of x and y.
fn of_cond(alloc: Global, roots: &[Interval], asked: Asked) -> Result<Program, Fault>
    requires two { length roots.now ≡ 2 }
    requires near { AllByRecursion IsNear roots.now }
    ensures made { IfOk result IsMade }
    ensures root { IfOk result (λ program. root_in program ≡ box_of roots.now) }
{
    let mut b = Builder::new(alloc, roots, &[1], Direction::Nothing, false)?;
    let x = b.cell(0)?;
    let y = b.cell(1)?;
    let cond = asks(&mut b, asked, x, y)?;
    b.hard(&[cond])?;
    b.goal(&[])
}

/// Whether a condition of x and y has this truth over the box of all points.
fn judged(alloc: Global, asked: Asked, truth: Truth) -> Result<bool, Fault> {
    let roots = two_roots(alloc)?;
    let store = BoxStore::new(alloc, roots.as_slice())?;
    let program = of_cond(alloc, roots.as_slice(), asked)?;
    if program.hards() == 0 {
        return Ok(false);
    }
    Ok(kleene(&program, program.hard(0, 0), &store) == truth)
}

const CONDS: &[(&str, Asked, Truth)] = &[
    ("x < y", Asked::Less, Truth::Unknown),
    ("x <= x", Asked::Same, Truth::True),
    ("not x <= x", Asked::Not, Truth::False),
    ("x < y and x <= x", Asked::All, Truth::Unknown),
    ("x < y or x <= x", Asked::Any, Truth::True),
    ("x <= x implies x < y", Asked::Implies, Truth::Unknown),
];

/// The first row whose condition has another truth.
fn judged_otherwise(alloc: Global) -> Result<Option<&'static str>, Fault> {
    for (word, asked, truth) in CONDS {
        if !judged(alloc, *asked, *truth)? {
            return Ok(Some(*word));
        }
    }
    Ok(None)
}

#[test]
fn conditions_of_builders(rt: HostRuntime) {
    assert_eq!(rt; judged_otherwise(rt.alloc()), Ok(None));
}

/// What a program tells of its condition that x is less than y: -7 <= x <= 9, -5 <= y <= 4.
fn told(program: &Program) -> bool
    requires made { IsMade program.now }
    requires hard { 0 < length (problem_in program.now).hards }
{
    let cond = program.hard(0, 0);
    let cells = program.cells_of(cond);
    if cells.len() != 2 {
        return false;
    }
    let first = cells[0];
    let second = cells[1];
    if first != 0 || second != 1 {
        return false;
    }
    match program.form(cond) {
        Form::Linear => told_linear(program, cond),
        Form::AllDifferent => false,
        Form::Cumulative => false,
        Form::Other => false,
    }
}

/// What it tells of the condition as a linear comparison: that x - y is less than 0.
fn told_linear(program: &Program, cond: CondId) -> bool
    requires made { IsMade program.now }
    requires linear { shape_in (root_in program.now) (cond_at (things_in program.now) cond.0) ≡ Linear }
{
    let parts = program.parts(cond);
    let op = program.compared(cond);
    let constant = program.constant(cond);
    if parts.len() != 2 || op != CmpOp::Lt || constant != 0 {
        return false;
    }
    let x = parts[0];
    let y = parts[1];
    x.cell == 0 && x.k == 1 && y.cell == 1 && y.k == -1
}

/// Whether a program tells of its condition what it is.
fn tells(alloc: Global) -> Result<bool, Fault> {
    let roots = two_roots(alloc)?;
    let program = of_cond(alloc, roots.as_slice(), Asked::Less)?;
    if program.hards() == 0 {
        return Ok(false);
    }
    Ok(told(&program))
}

#[test]
fn linear_conditions_are_told(rt: HostRuntime) {
    assert_eq!(rt; tells(rt.alloc()), Ok(true));
}

/// What a program tells of its objective x - y: the constant 0, once x and -1 times y.
fn told_objective(program: &Program) -> bool
    requires made { IsMade program.now }
{
    if program.worst() {
        return false;
    }
    let constant = program.goal_constant();
    let atoms = program.goal_atoms();
    if constant != 0 || atoms.len() != 2 {
        return false;
    }
    let x = atoms[0];
    let y = atoms[1];
    x.k == 1 && y.k == -1
}

/// Which cells it tells that the objective mentions: both.
fn told_cells(program: &Program) -> bool
    requires made { IsMade program.now }
{
    let Some(term) = program.goal(0) else {
        return false;
    };
    let cells = program.term_cells(term);
    if cells.len() != 2 {
        return false;
    }
    let first = cells[0];
    let second = cells[1];
    first == 0 && second == 1
}

/// Whether a program tells of its objective what it is.
fn tells_objective(alloc: Global) -> Result<bool, Fault> {
    let roots = two_roots(alloc)?;
    let program = of_term(alloc, roots.as_slice(), Made::Difference)?;
    Ok(told_objective(&program) && told_cells(&program))
}

#[test]
fn objectives_are_told(rt: HostRuntime) {
    assert_eq!(rt; tells_objective(rt.alloc()), Ok(true));
}
