//! Elements of an array that a builder was given, as a whole or by its terms.

ghost use Rattle.std.specs.Prelude.{◌≡◌, ◌<◌, ◌∷◌, [], pos, length, IfOk};
ghost use Rattle.std.specs.List.{AllByRecursion};
ghost use Rattle.box_problem.specs.Box.{box_of};
ghost use Rattle.sopl_term.specs.Built.{IsBuilding, IsKept, IsNear, asked_direction, built, problem_built, root_built};
ghost use Rattle.term_program.specs.Programs.{IsMade, root_in};

use super::pair;
use super::sopl_term_builders::two_roots;
use box_store::BoxStore;
use sopl_base::{Direction, Fault, Interval};
use sopl_term::{Builder, Defined, Indices, Program, TableId, TermId, range_of};
use std::alloc::{AllocError, Global};
use term_math::Element;

/// The index set of 1 and 3.
fn one_set(alloc: Global) -> Result<Vec<Indices>, AllocError>
    ensures set { IfOk result (λ sets. sets.items ≡ (pos 1 ∷ pos 3 ∷ []) ∷ []) }
{
    let mut set = Indices::new(alloc);
    set.push(1)?;
    set.push(3)?;
    let mut sets = Vec::new(alloc);
    sets.push(set)?;
    Ok(sets)
}

/// The array of 10 at 1 and x at 3, by its terms.
#[tactic(auto, using(crate::proofs::Arrays::built_is))]
fn by_terms(b: &mut Builder, sets: &[Indices]) -> Result<TableId, Fault>
    requires building { IsBuilding b.old }
    requires two { length (root_built b.old).lows ≡ 2 }
    requires set { sets.now ≡ (pos 1 ∷ pos 3 ∷ []) ∷ [] }
    ensures building { IsBuilding b.new }
    ensures root { root_built b.new ≡ root_built b.old }
    ensures problem { problem_built b.new ≡ problem_built b.old }
    ensures direction { asked_direction b.new ≡ asked_direction b.old }
    ensures exists { IfOk result (λ id. id.0 < length (built b.new)) }
{
    let ten = b.constant(10)?;
    let x = b.cell(0)?;
    let id = b.table(sets, &[ten, x])?;
    Ok(id)
}

/// The array of 10 at 1 and x at 3, by its terms or as a whole.
fn array(alloc: Global, b: &mut Builder, whole: bool) -> Result<TableId, Fault>
    requires building { IsBuilding b.old }
    requires two { length (root_built b.old).lows ≡ 2 }
    ensures building { IsBuilding b.new }
    ensures root { root_built b.new ≡ root_built b.old }
    ensures problem { problem_built b.new ≡ problem_built b.old }
    ensures direction { asked_direction b.new ≡ asked_direction b.old }
    ensures exists { IfOk result (λ id. id.0 < length (built b.new)) }
{
    if whole {
        let id = b.array(pair(alloc, Element::Fixed(10), Element::Free(0))?)?;
        return Ok(id);
    }
    let sets = one_set(alloc)?;
    by_terms(b, sets.as_slice())
}

/// The index at which an array is asked for: a number, or the cell y.
#[derive(Clone, Copy)]
enum At {
    Number(i64),
    Y,
}

/// The term of an index.
fn index(b: &mut Builder, at: At) -> Result<TermId, Fault>
    requires building { IsBuilding b.old }
    requires two { length (root_built b.old).lows ≡ 2 }
    ensures kept { IsKept b.old b.new }
    ensures exists { IfOk result (λ id. id.0 < length (built b.new)) }
{
    match at {
        At::Number(number) => b.constant(number),
        At::Y => b.cell(1),
    }
}

/// The element of an array at an index.
fn element(b: &mut Builder, table: TableId, at: At) -> Result<TermId, Fault>
    requires building { IsBuilding b.old }
    requires two { length (root_built b.old).lows ≡ 2 }
    requires table { table.0 < length (built b.old) }
    ensures building { IsBuilding b.new }
    ensures root { root_built b.new ≡ root_built b.old }
    ensures problem { problem_built b.new ≡ problem_built b.old }
    ensures direction { asked_direction b.new ≡ asked_direction b.old }
    ensures exists { IfOk result (λ id. id.0 < length (built b.new)) }
{
    let index = index(b, at)?;
    b.element(table, &[index])
}

/// The program whose objective is the element at an index.
fn of_element(alloc: Global, roots: &[Interval], whole: bool, at: At) -> Result<Program, Fault>
    requires two { length roots.now ≡ 2 }
    requires near { AllByRecursion IsNear roots.now }
    ensures made { IfOk result IsMade }
    ensures root { IfOk result (λ program. root_in program ≡ box_of roots.now) }
{
    let mut b = Builder::new(alloc, roots, &[1], Direction::Minimize, false)?;
    let table = array(alloc, &mut b, whole)?;
    let term = element(&mut b, table, at)?;
    b.goal(&[term])
}

/// Whether the element at an index has this interval and this mark over the box of all points.
fn lies(
    alloc: Global,
    whole: bool,
    at: At,
    hull: (i64, i64),
    mark: Defined,
) -> Result<bool, Fault> {
    let roots = two_roots(alloc)?;
    let store = BoxStore::new(alloc, roots.as_slice())?;
    let program = of_element(alloc, roots.as_slice(), whole, at)?;
    let Some(term) = program.goal(0) else {
        return Ok(false);
    };
    let range = range_of(&program, term, &store);
    Ok(range.interval.lo == hull.0 && range.interval.hi == hull.1 && range.defined == mark)
}

/// What a row is about, an index, and the interval and the mark of the element there.
const ELEMENTS: &[(&str, At, (i64, i64), Defined)] = &[
    ("a number", At::Number(1), (10, 10), Defined::Always),
    ("a cell", At::Number(3), (-7, 9), Defined::Always),
    ("no element", At::Number(2), (-7, 10), Defined::Never),
    ("an open index", At::Y, (-7, 10), Defined::Maybe),
];

/// The first row whose element is seen otherwise.
fn seen_otherwise(alloc: Global, whole: bool) -> Result<Option<&'static str>, Fault> {
    for (word, at, hull, mark) in ELEMENTS {
        if !lies(alloc, whole, *at, *hull, *mark)? {
            return Ok(Some(*word));
        }
    }
    Ok(None)
}

#[test]
fn elements_of_arrays(rt: HostRuntime) {
    assert_eq!(rt; seen_otherwise(rt.alloc(), true), Ok(None), "as a whole");
    assert_eq!(rt; seen_otherwise(rt.alloc(), false), Ok(None), "by its terms");
}
