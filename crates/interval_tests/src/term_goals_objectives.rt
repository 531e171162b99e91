ghost use Rattle.std.specs.Prelude.{◌≡◌, [], length, IfOk};
ghost use Rattle.box_problem.specs.Box.{box_of};
ghost use Rattle.term_store.specs.Stores.{IsSoundStore, root_of};
ghost use Rattle.term_goals.specs.Goals.{AreWeights};

use sopl_base::{Direction, Excess, Fault, Interval};
use std::alloc::{AllocError, Global};
use term_goals::{Goal, Objective};
use term_store::{NewTerm, TermId, TermStore};

/// A store over x from -7 to 9 and y from -5 to 4.
fn small(alloc: Global) -> Result<TermStore, AllocError>
    ensures sound { IfOk result (λ store. IsSoundStore store) }
{
    let mut roots = Vec::new(alloc);
    for (lo, hi) in [(-7, 9), (-5, 4)] {
        if let Some(interval) = Interval::new(lo, hi) {
            roots.push(interval)?;
        }
    }
    let store = TermStore::new(alloc, roots.as_slice())?;
    Ok(store)
}

/// A cell.
fn add_cell(store: &mut TermStore, cell: u32) -> Result<u32, Fault>
    requires sound { IsSoundStore store.old }
    ensures sound { IsSoundStore store.new }
    ensures root { root_of store.new ≡ root_of store.old }
{
    let id = store.add_term(&NewTerm::Cell(cell))?;
    Ok(id.0)
}

/// A number.
fn add_constant(store: &mut TermStore, value: i64) -> Result<u32, Fault>
    requires sound { IsSoundStore store.old }
    ensures sound { IsSoundStore store.new }
    ensures root { root_of store.new ≡ root_of store.old }
{
    let id = store.add_term(&NewTerm::Constant(value))?;
    Ok(id.0)
}

/// The sum of two terms.
fn sum(store: &mut TermStore, a: u32, b: u32) -> Result<u32, Fault>
    requires sound { IsSoundStore store.old }
    ensures sound { IsSoundStore store.new }
    ensures root { root_of store.new ≡ root_of store.old }
{
    let count = store.count();
    if a >= count || b >= count {
        return Err(Fault::NoMemory);
    }
    let parts = [(false, TermId(a)), (false, TermId(b))];
    let id = store.add_term(&NewTerm::Sum(&parts))?;
    Ok(id.0)
}

/// The product of two terms.
fn product(store: &mut TermStore, a: u32, b: u32) -> Result<u32, Fault>
    requires sound { IsSoundStore store.old }
    ensures sound { IsSoundStore store.new }
    ensures root { root_of store.new ≡ root_of store.old }
{
    let count = store.count();
    if a >= count || b >= count {
        return Err(Fault::NoMemory);
    }
    let id = store.add_term(&NewTerm::Product(TermId(a), TermId(b)))?;
    Ok(id.0)
}

/// The interval over the root of an objective over two scenarios.
fn ends(
    store: &TermStore,
    alloc: Global,
    kind: (Direction, bool),
    weights: &[i128],
    a: u32,
    b: u32,
) -> Result<(i128, i128), Fault>
    requires sound { IsSoundStore store.now }
    requires weights { AreWeights weights.now }
    requires two { length weights.now ≡ 2 }
{
    let count = store.count();
    if a >= count || b >= count {
        return Err(Fault::NoMemory);
    }
    let (direction, worst) = kind;
    let root = store.root();
    let here = store.here(&root);
    let objective = Objective {
        direction,
        worst,
        weights,
        terms: &[a, b],
    };
    let goal = Goal::new(alloc, &here, &objective)?;
    let seen = goal.ends(&here);
    Ok((seen.low, seen.high))
}

/// The coefficients in the list of an expected objective with weights 3 and 1, each added to ten times those before, where the root has no cell.
fn listed(store: &TermStore, alloc: Global, a: u32, b: u32) -> Result<i128, Fault>
    requires sound { IsSoundStore store.now }
    requires empty { root_of store.now ≡ box_of [] }
{
    let count = store.count();
    if a >= count || b >= count {
        return Err(Fault::NoMemory);
    }
    let root = store.root();
    let here = store.here(&root);
    let objective = Objective {
        direction: Direction::Minimize,
        worst: false,
        weights: &[3, 1],
        terms: &[a, b],
    };
    let goal = Goal::new(alloc, &here, &objective)?;
    let list = goal.atoms(alloc, &here, &[])?;
    let mut sum = goal.constant();
    for atom in list.as_slice() {
        sum = sum.wrapping_mul(10).wrapping_add(atom.k);
    }
    Ok(sum)
}

/// A product in a sum, and a multiple of a product.
fn products(store: &mut TermStore, alloc: Global) -> Result<i128, Fault>
    requires sound { IsSoundStore store.old }
    requires empty { root_of store.old ≡ box_of [] }
{
    let x = add_cell(store, 0)?;
    let y = add_cell(store, 1)?;
    let factor = add_constant(store, -3)?;
    let times = product(store, x, y)?;
    let negative = product(store, factor, times)?;
    let mixed = sum(store, times, factor)?;
    listed(store, alloc, mixed, negative)
}

#[test]
fn products_are_listed(rt: HostRuntime) {
    let mut store = TermStore::new(rt.alloc(), &[]).expect(&rt, "memory");
    assert_eq!(rt; products(&mut store, rt.alloc()), Ok(-873));
}

/// The interval of an expected objective with weights 3 and 1.
fn expected(
    store: &TermStore,
    alloc: Global,
    first: u32,
    second: u32,
) -> Result<(i128, i128), Fault>
    requires sound { IsSoundStore store.now }
{
    ends(
        store,
        alloc,
        (Direction::Minimize, false),
        &[3, 1],
        first,
        second,
    )
}

/// What is wrong of cells that cancel across scenarios, and of products as atoms.
fn summed(store: &mut TermStore, alloc: Global) -> Result<Option<&'static str>, Fault>
    requires sound { IsSoundStore store.old }
{
    let x = add_cell(store, 0)?;
    let y = add_cell(store, 1)?;
    let factor = add_constant(store, -3)?;
    let both = sum(store, x, y)?;
    let less = product(store, factor, x)?;
    let turned = sum(store, less, y)?;
    let times = product(store, x, y)?;
    let negative = product(store, factor, times)?;
    let mixed = sum(store, times, y)?;
    if expected(store, alloc, both, turned)? != (-20, 16) {
        return Ok(Some("cells that cancel"));
    }
    if expected(store, alloc, times, negative)? != (-243, 243) {
        return Ok(Some("a product in both scenarios"));
    }
    if expected(store, alloc, x, mixed)? != (-71, 67) {
        return Ok(Some("a product and a cell"));
    }
    Ok(None)
}

#[test]
fn sums_over_scenarios(rt: HostRuntime) {
    let mut store = small(rt.alloc()).expect(&rt, "memory");
    assert_eq!(rt; summed(&mut store, rt.alloc()), Ok(None));
}

/// What is wrong of the worst of x and y.
fn worst(store: &mut TermStore, alloc: Global) -> Result<Option<&'static str>, Fault>
    requires sound { IsSoundStore store.old }
{
    let x = add_cell(store, 0)?;
    let y = add_cell(store, 1)?;
    if ends(store, alloc, (Direction::Minimize, true), &[3, 1], x, y)? != (-5, 9) {
        return Ok(Some("the greatest of both"));
    }
    if ends(store, alloc, (Direction::Maximize, true), &[3, 1], x, y)? != (-7, 4) {
        return Ok(Some("the least of both"));
    }
    Ok(None)
}

#[test]
fn worst_scenarios(rt: HostRuntime) {
    let mut store = small(rt.alloc()).expect(&rt, "memory");
    assert_eq!(rt; worst(&mut store, rt.alloc()), Ok(None));
}

/// The number that is counted where a constant is the term in both scenarios; 0 where it is not refused.
fn counted(
    store: &mut TermStore,
    alloc: Global,
    constant: i64,
    weights: &[i128],
) -> Result<i128, Fault>
    requires sound { IsSoundStore store.old }
    requires weights { AreWeights weights.now }
    requires two { length weights.now ≡ 2 }
    ensures sound { IsSoundStore store.new }
{
    let number = add_constant(store, constant)?;
    match ends(
        store,
        alloc,
        (Direction::Maximize, false),
        weights,
        number,
        number,
    ) {
        Ok(_) => Ok(0),
        Err(
            Fault::Limit(
                Excess {
                    code: 207,
                    counted,
                    limit: _,
                },
            ),
        ) => Ok(counted),
        Err(fault) => Err(fault),
    }
}

/// What is wrong of sizes of 2^126, of one more, and of more than 2^127.
fn sizes(store: &mut TermStore, alloc: Global) -> Result<Option<&'static str>, Fault>
    requires sound { IsSoundStore store.old }
{
    let least = 279484306681724883751233665136;
    if counted(store, alloc, (1 << 26) - 1, &[1 << 99, 1 << 99])? != 0 {
        return Ok(Some("a size of 2^126"));
    }
    if counted(store, alloc, 304384144, &[1, least])? != (1 << 126) + 1 {
        return Ok(Some("one more than 2^126"));
    }
    if counted(store, alloc, 1 << 40, &[1 << 99, 1 << 99])? != i128::MAX {
        return Ok(Some("more than 2^127"));
    }
    Ok(None)
}

#[test]
fn refused_for_its_size(rt: HostRuntime) {
    let mut store = small(rt.alloc()).expect(&rt, "memory");
    assert_eq!(rt; sizes(&mut store, rt.alloc()), Ok(None));
}
