//! Which terms a program tells of its conditions.

ghost use Rattle.std.specs.Prelude.{◌≡◌, ◌<◌, length, IfOk};
ghost use Rattle.std.specs.List.{AllByRecursion};
ghost use Rattle.sopl_term.specs.Built.{IsBuilding, IsNear, asked_direction, built, problem_built};
ghost use Rattle.term_program.specs.Programs.{IsMade};

use super::sopl_term_builders::two_roots;
use sopl_base::{CmpOp, Direction, Fault, Interval};
use sopl_term::{Builder, CondId, Program, TermId};
use std::alloc::{AllocError, Global};

/// The terms x, y and 1 of a program over two cells, each of which has a term before them.
const X: TermId = TermId(2);

const Y: TermId = TermId(3);

const ONE: TermId = TermId(4);

/// What is asked of x, y and 1.
#[derive(Clone, Copy)]
enum Asked {
    Different,
    NoneDifferent,
    Fitting,
    NoneFitting,
    Less,
    NotDifferent,
}

/// A condition of x, y and 1.
fn asks(
    b: &mut Builder,
    asked: Asked,
    x: TermId,
    y: TermId,
    one: TermId,
) -> Result<CondId, AllocError>
    requires building { IsBuilding b.old }
    requires x { x.0 < length (built b.old) }
    requires y { y.0 < length (built b.old) }
    requires one { one.0 < length (built b.old) }
    ensures building { IsBuilding b.new }
    ensures problem { problem_built b.new ≡ problem_built b.old }
    ensures direction { asked_direction b.new ≡ asked_direction b.old }
    ensures exists { IfOk result (λ id. id.0 < length (built b.new)) }
{
    match asked {
        Asked::Different => b.all_different(&[x, y, x]),
        Asked::NoneDifferent => b.all_different(&[]),
        Asked::Fitting => b.cumulative(&[(x, one, y), (y, x, one)], one),
        Asked::NoneFitting => b.cumulative(&[], y),
        Asked::Less => b.compare(CmpOp::Lt, x, y),
        Asked::NotDifferent => differ_not(b, x, y),
    }
}

/// That two terms do not differ.
fn differ_not(b: &mut Builder, x: TermId, y: TermId) -> Result<CondId, AllocError>
    requires building { IsBuilding b.old }
    requires x { x.0 < length (built b.old) }
    requires y { y.0 < length (built b.old) }
    ensures building { IsBuilding b.new }
    ensures problem { problem_built b.new ≡ problem_built b.old }
    ensures direction { asked_direction b.new ≡ asked_direction b.old }
    ensures exists { IfOk result (λ id. id.0 < length (built b.new)) }
{
    let differ = b.all_different(&[x, y])?;
    b.not(differ)
}

/// The program whose one constraint is a condition of x, y and 1.
fn of_cond(alloc: Global, roots: &[Interval], asked: Asked) -> Result<Program, Fault>
    requires two { length roots.now ≡ 2 }
    requires near { AllByRecursion IsNear roots.now }
    ensures made { IfOk result IsMade }
{
    let mut b = Builder::new(alloc, roots, &[1], Direction::Nothing, false)?;
    let x = b.cell(0)?;
    let y = b.cell(1)?;
    let one = b.constant(1)?;
    let cond = asks(&mut b, asked, x, y, one)?;
    b.hard(&[cond])?;
    b.goal(&[])
}

/// Whether a program tells of its condition that these are its terms.
fn tells(alloc: Global, asked: Asked, want: &[TermId]) -> Result<bool, Fault> {
    let roots = two_roots(alloc)?;
    let program = of_cond(alloc, roots.as_slice(), asked)?;
    if program.hards() == 0 {
        return Ok(false);
    }
    Ok(program.terms(program.hard(0, 0)) == want)
}

const TOLD: &[(&str, Asked, &[TermId])] = &[
    ("`allDifferent`", Asked::Different, &[X, Y, X]),
    ("`allDifferent` of no term", Asked::NoneDifferent, &[]),
    ("`cumulative`", Asked::Fitting, &[X, ONE, Y, Y, X, ONE, ONE]),
    ("`cumulative` of no task", Asked::NoneFitting, &[Y]),
    ("a comparison", Asked::Less, &[]),
    ("not `allDifferent`", Asked::NotDifferent, &[]),
];

/// The first row of whose condition it tells otherwise.
fn told_otherwise(alloc: Global) -> Result<Option<&'static str>, Fault> {
    for (word, asked, want) in TOLD {
        if !tells(alloc, *asked, want)? {
            return Ok(Some(*word));
        }
    }
    Ok(None)
}

#[test]
fn terms_of_conditions(rt: HostRuntime) {
    assert_eq!(rt; told_otherwise(rt.alloc()), Ok(None));
}
