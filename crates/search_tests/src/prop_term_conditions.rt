ghost use Rattle.std.specs.Prelude.{◌≡◌, ◌<◌, ◌≤◌, ◌^◌, ◌∷◌, [], length, OnOk, IfOk};
ghost use Rattle.std.specs.List.{AllByRecursion};
ghost use Rattle.sopl_base.specs.declared.direction.Direction.TheVariants.{Nothing};
ghost use Rattle.box_problem.specs.Box.{box_of};
ghost use Rattle.sopl_term.specs.Built.{IsBuilding, IsKept, IsNear, asked_direction, built, problem_built, root_built};
ghost use Rattle.term_program.specs.Programs.{IsMade, root_in};

use box_store::BoxStore;
use prop_core::{Calm, fixpoint};
use prop_set::hard_props;
use prop_term::AnyTerm;
use sopl_base::{CmpOp, Direction, Fault, Interval, Steps};
use sopl_term::{Builder, CondId, Program, TermId};
use std::alloc::{AllocError, Global};

/// A cell x from 0 to `most`, for which `factor * x`, or the square of x where `factor` is 0, is compared with a number.
#[derive(Clone, Copy)]
struct Row {
    most: i64,
    factor: i64,
    op: CmpOp,
    number: i64,
}

/// So many times x.
#[tactic(auto, using(crate::proofs::Growing::cells_kept, crate::proofs::Growing::there, crate::proofs::Growing::still, crate::proofs::Growing::grown))]
fn multiple(b: &mut Builder, factor: i64) -> Result<TermId, Fault>
    requires building { IsBuilding b.old }
    requires cell { 0 < length (root_built b.old).lows }
    ensures kept { OnOk result (IsKept b.old b.new) }
    ensures exists { IfOk result (λ id. id.0 < length (built b.new)) }
{
    let number = b.constant(factor)?;
    let x = b.cell(0)?;
    let product = b.product(number, x)?;
    Ok(product)
}

/// The square of x.
#[tactic(auto, using(crate::proofs::Growing::cells_kept, crate::proofs::Growing::there, crate::proofs::Growing::still, crate::proofs::Growing::grown))]
fn square(b: &mut Builder) -> Result<TermId, Fault>
    requires building { IsBuilding b.old }
    requires cell { 0 < length (root_built b.old).lows }
    ensures kept { OnOk result (IsKept b.old b.new) }
    ensures exists { IfOk result (λ id. id.0 < length (built b.new)) }
{
    let x = b.cell(0)?;
    let product = b.product(x, x)?;
    Ok(product)
}

/// What a row compares with a number.
fn left_side(b: &mut Builder, row: &Row) -> Result<TermId, Fault>
    requires building { IsBuilding b.old }
    requires cell { 0 < length (root_built b.old).lows }
    ensures kept { OnOk result (IsKept b.old b.new) }
    ensures exists { IfOk result (λ id. id.0 < length (built b.new)) }
{
    if row.factor == 0 {
        return square(b);
    }
    multiple(b, row.factor)
}

/// The condition of a row.
#[tactic(auto, using(crate::proofs::Growing::cells_kept, crate::proofs::Growing::there, crate::proofs::Growing::still, crate::proofs::Growing::grown))]
fn condition(b: &mut Builder, row: &Row) -> Result<CondId, Fault>
    requires building { IsBuilding b.old }
    requires cell { 0 < length (root_built b.old).lows }
    ensures kept { OnOk result (IsKept b.old b.new) }
    ensures exists { IfOk result (λ id. id.0 < length (built b.new)) }
{
    let left = left_side(b, row)?;
    let right = b.constant(row.number)?;
    Ok(b.compare(row.op, left, right)?)
}

/// The interval from 0 to a number within 2^40.
fn near(most: i64) -> Result<Interval, AllocError>
    ensures { IfOk result IsNear }
{
    if 1_099_511_627_776 < most {
        return Err(AllocError);
    }
    Interval::new(0, most).ok_or(AllocError)
}

/// The program of a row, with the one interval of its root.
fn program_of(alloc: Global, row: &Row, roots: &[Interval]) -> Result<Program, Fault>
    requires one { length roots.now ≡ 1 }
    requires near { AllByRecursion IsNear roots.now }
    ensures made { IfOk result IsMade }
    ensures root { IfOk result (λ program. root_in program ≡ box_of roots.now) }
{
    let mut b = Builder::new(alloc, roots, &[1], Direction::Nothing, false)?;
    let cond = condition(&mut b, row)?;
    b.hard(&[cond])?;
    b.goal(&[])
}

/// The ends of x that a box store has where propagators came to rest; none where a reason closed the box.
fn ends_of(alloc: Global, store: &BoxStore, calm: Calm) -> Result<Vec<i64>, AllocError> {
    let mut ends = Vec::new(alloc);
    if calm == Calm::Quiet {
        ends.extend_from_slice(store.lows())?;
        ends.extend_from_slice(store.highs())?;
    }
    Ok(ends)
}

/// The ends of x in the box in which the propagator of the first constraint comes to rest that goes by tests alone.
#[tactic(auto, using(crate::proofs::Resting::one_fits))]
fn rest_by_tests(
    alloc: Global,
    program: &Program,
    roots: &[Interval],
) -> Result<Vec<i64>, AllocError>
    requires made { IsMade program.now }
    requires one { length roots.now ≡ 1 }
    requires root { root_in program.now ≡ box_of roots.now }
{
    if program.hards() == 0 || program.scenarios() == 0 {
        return Ok(Vec::new(alloc));
    }
    let member = AnyTerm::new(program, 0, 0)?;
    let mut list = Vec::from_slice(alloc, &[member])?;
    let mut store = BoxStore::new(alloc, roots)?;
    let mut steps = Steps::new(alloc);
    let calm = fixpoint(list.as_mut_slice(), program, &mut store, None, &mut steps)?;
    Ok(ends_of(alloc, &store, calm)?)
}

/// The ends of x in the box in which the propagators of all hard constraints come to rest.
fn rest_of(alloc: Global, program: &Program, roots: &[Interval]) -> Result<Vec<i64>, AllocError>
    requires made { IsMade program.now }
    requires one { length roots.now ≡ 1 }
    requires root { root_in program.now ≡ box_of roots.now }
{
    let mut list = hard_props(alloc, program)?;
    let mut store = BoxStore::new(alloc, roots)?;
    let mut steps = Steps::new(alloc);
    let calm = fixpoint(list.as_mut_slice(), program, &mut store, None, &mut steps)?;
    Ok(ends_of(alloc, &store, calm)?)
}

/// Whether so many ends of a row's cell are left, by tests alone and by all propagators.
fn is_left(alloc: Global, row: &Row, want: &[i64]) -> Result<bool, Fault> {
    let roots = Vec::from_slice(alloc, &[near(row.most)?])?;
    let program = program_of(alloc, row, roots.as_slice())?;
    let tested = rest_by_tests(alloc, &program, roots.as_slice())?;
    let left = rest_of(alloc, &program, roots.as_slice())?;
    Ok(tested.as_slice() == want && left.as_slice() == want)
}

#[test]
fn conditions_narrow_their_cell(rt: HostRuntime) {
    for (most, factor, op, number, want) in [
        (9, 3, CmpOp::Le, 20, [0, 6].as_slice()),
        (9, 0, CmpOp::Eq, 9, [3, 3].as_slice()),
        (9, 0, CmpOp::Eq, 10, [].as_slice()),
        (65_535, 3, CmpOp::Le, 20, [0, 6].as_slice()),
        (65_535, 0, CmpOp::Le, 400, [0, 20].as_slice()),
        (9, -2, CmpOp::Ge, -7, [0, 3].as_slice()),
        (9, 1, CmpOp::Ne, 9, [0, 8].as_slice()),
        (9, 2, CmpOp::Eq, 6, [3, 3].as_slice()),
        (9, 2, CmpOp::Eq, 5, [].as_slice()),
        (9, 5, CmpOp::Lt, 15, [0, 2].as_slice()),
        (9, -1, CmpOp::Gt, -4, [0, 3].as_slice()),
        (
            1_099_511_627_776,
            1,
            CmpOp::Ge,
            1_099_511_627_776,
            [1_099_511_627_776, 1_099_511_627_776].as_slice(),
        ),
    ] {
        let row = Row {
            most,
            factor,
            op,
            number,
        };
        assert!(rt;
            is_left(rt.alloc(), &row, want).expect(&rt, "memory"),
            "{factor} times x and {number}, up to {most}"
        );
    }
}
