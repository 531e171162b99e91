//! Chains of operations, each on the left of the next, up to as many as a text may have.

ghost use Rattle.std.specs.Prelude.{◌≡◌, ◌<◌, ◌≤◌, length, IfOk};
ghost use Rattle.std.specs.List.{AllByRecursion};
ghost use Rattle.box_problem.specs.Box.{Inside, box_of};
ghost use Rattle.sopl_term.specs.Built.{IsBuilding, IsNear, asked_direction, built, problem_built, root_built};
ghost use Rattle.term_program.specs.Programs.{IsMade, root_in};

use crate::boxes::add_root;
use box_store::BoxStore;
use sopl_base::{CmpOp, Direction, Fault, Interval};
use sopl_term::{Builder, CondId, Defined, Program, TermId, Truth, kleene, range_of};
use std::alloc::{AllocError, Global};

/// What a chain is made of.
#[derive(Clone, Copy)]
enum Link {
    Factor,
    Divisor,
    Modulus,
    Mixed,
}

/// The interval of the one cell x, which is -1.
#[tactic(auto, using(crate::proofs::Roots::none_near))]
fn one_number(alloc: Global) -> Result<Vec<Interval>, AllocError>
    ensures one { IfOk result (λ roots. length roots.items ≡ 1) }
    ensures near { IfOk result (λ roots. AllByRecursion IsNear roots.items) }
{
    let mut roots = Vec::new(alloc);
    add_root(&mut roots, -1, -1)?;
    Ok(roots)
}

/// A chain with one operation more: times x, divided by -1, or what is left by 7.
fn longer(b: &mut Builder, link: Link, chain: TermId, x: TermId) -> Result<TermId, Fault>
    requires building { IsBuilding b.old }
    requires chain { chain.0 < length (built b.old) }
    requires x { x.0 < length (built b.old) }
    ensures building { IsBuilding b.new }
    ensures root { root_built b.new ≡ root_built b.old }
    ensures problem { problem_built b.new ≡ problem_built b.old }
    ensures direction { asked_direction b.new ≡ asked_direction b.old }
    ensures more { length (built b.old) ≤ length (built b.new) }
    ensures exists { IfOk result (λ id. id.0 < length (built b.new)) }
{
    match link {
        Link::Factor => b.product(chain, x),
        Link::Divisor => b.quotient(chain, -1),
        Link::Modulus => b.remainder(chain, 7),
        Link::Mixed => mixed(b, chain, x),
    }
}

/// A chain times x, divided by 1.
fn mixed(b: &mut Builder, chain: TermId, x: TermId) -> Result<TermId, Fault>
    requires building { IsBuilding b.old }
    requires chain { chain.0 < length (built b.old) }
    requires x { x.0 < length (built b.old) }
    ensures building { IsBuilding b.new }
    ensures root { root_built b.new ≡ root_built b.old }
    ensures problem { problem_built b.new ≡ problem_built b.old }
    ensures direction { asked_direction b.new ≡ asked_direction b.old }
    ensures more { length (built b.old) ≤ length (built b.new) }
    ensures exists { IfOk result (λ id. id.0 < length (built b.new)) }
{
    let product = b.product(chain, x)?;
    b.quotient(product, 1)
}

/// A chain that begins with x.
fn chain(b: &mut Builder, link: Link, times: u32) -> Result<TermId, Fault>
    requires building { IsBuilding b.old }
    requires one { length (root_built b.old).lows ≡ 1 }
    ensures building { IsBuilding b.new }
    ensures root { root_built b.new ≡ root_built b.old }
    ensures problem { problem_built b.new ≡ problem_built b.old }
    ensures direction { asked_direction b.new ≡ asked_direction b.old }
    ensures exists { IfOk result (λ id. id.0 < length (built b.new)) }
{
    let x = b.cell(0)?;
    let mut made = x;
    'links: for _turn in 0..times {
        made = longer(b, link, made, x)?;
    }
    Ok(made)
}

/// The condition that a term is greater than 0.
fn positive(b: &mut Builder, a: TermId) -> Result<CondId, Fault>
    requires building { IsBuilding b.old }
    requires exists { a.0 < length (built b.old) }
    ensures building { IsBuilding b.new }
    ensures root { root_built b.new ≡ root_built b.old }
    ensures problem { problem_built b.new ≡ problem_built b.old }
    ensures direction { asked_direction b.new ≡ asked_direction b.old }
    ensures more { length (built b.old) ≤ length (built b.new) }
    ensures exists { IfOk result (λ id. id.0 < length (built b.new)) }
{
    let zero = b.constant(0)?;
    let cond = b.compare(CmpOp::Gt, a, zero)?;
    Ok(cond)
}

/// The program whose objective is a chain, and whose constraint that it is greater than 0.
fn of_chain(alloc: Global, roots: &[Interval], link: Link, times: u32) -> Result<Program, Fault>
    requires one { length roots.now ≡ 1 }
    requires near { AllByRecursion IsNear roots.now }
    ensures made { IfOk result IsMade }
    ensures root { IfOk result (λ program. root_in program ≡ box_of roots.now) }
{
    let mut b = Builder::new(alloc, roots, &[1], Direction::Minimize, false)?;
    let term = chain(&mut b, link, times)?;
    let cond = positive(&mut b, term)?;
    b.hard(&[cond])?;
    b.goal(&[term])
}

/// Whether these are the cells that are wanted.
fn are(cells: &[u32], want: &[u32]) -> bool {
    cells == want
}

/// Whether a program's objective is this number over a box, with x as its one cell.
fn is_number(program: &Program, store: &BoxStore, number: i64) -> bool
    requires made { IsMade program.now }
    requires inside { Inside store.now.box (root_in program.now) }
{
    let Some(term) = program.goal(0) else {
        return false;
    };
    let range = range_of(program, term, store);
    if range.interval.lo != number || range.interval.hi != number {
        return false;
    }
    range.defined == Defined::Always && are(program.term_cells(term), &[0])
}

/// Whether the constraint of a program has this truth over a box, with x as its one cell.
fn is_judged(program: &Program, store: &BoxStore, truth: Truth) -> bool
    requires made { IsMade program.now }
    requires inside { Inside store.now.box (root_in program.now) }
{
    if program.hards() == 0 {
        return false;
    }
    let cond = program.hard(0, 0);
    kleene(program, cond, store) == truth && are(program.cells_of(cond), &[0])
}

/// Whether a chain is this number, and its sign is told.
fn lies(alloc: Global, link: Link, times: u32, number: i64) -> Result<bool, Fault> {
    let roots = one_number(alloc)?;
    let store = BoxStore::new(alloc, roots.as_slice())?;
    let program = of_chain(alloc, roots.as_slice(), link, times)?;
    let truth = if number > 0 {
        Truth::True
    } else {
        Truth::False
    };
    Ok(is_number(&program, &store, number) && is_judged(&program, &store, truth))
}

const CHAINS: &[(&str, Link, u32, i64)] = &[
    ("one factor", Link::Factor, 1, 1),
    ("two factors", Link::Factor, 2, -1),
    ("three factors", Link::Factor, 3, 1),
    ("six divisors", Link::Divisor, 6, -1),
    ("seven moduli", Link::Modulus, 7, -1),
    ("nine of both", Link::Mixed, 9, 1),
    ("many factors", Link::Factor, 200_000, -1),
    ("many divisors", Link::Divisor, 200_001, 1),
    ("many moduli", Link::Modulus, 200_000, -1),
    ("many of both", Link::Mixed, 100_001, 1),
];

/// The first row whose chain is another number.
fn seen_otherwise(alloc: Global) -> Result<Option<&'static str>, Fault> {
    for (word, link, times, number) in CHAINS {
        if !lies(alloc, *link, *times, *number)? {
            return Ok(Some(*word));
        }
    }
    Ok(None)
}

#[test]
fn long_chains(rt: HostRuntime) {
    assert_eq!(rt; seen_otherwise(rt.alloc()), Ok(None));
}
