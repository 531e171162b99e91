//! Constraints that a planner would write, unfolded as the crates above do it.

use sopl_ast::{Binder, Binders, Cons, ConsList, Expr, Factors, MulOp, Name, RangeText};
use sopl_base::{CmpOp, Excess, Fault, Refusal};
use std::alloc::{AllocError, Global};
use std::test::Fail;
use unfold_constraints::{Instances, conditions, instances};
use unfold_tables::{Count, Table};

/// The instances of constraints where nothing is declared, and how many things were counted.
fn unfolded(alloc: Global, body: &ConsList) -> Result<(Instances, u32), Fault> {
    let table = Table::new(alloc);
    let mut count = Count::new();
    let found = instances(alloc, &table, &mut count, body)?;
    Ok((found, count.counted))
}

/// Whether constraints are refused with a code at a place.
fn is_refused(alloc: Global, body: &ConsList, expected: &Refusal) -> bool {
    match unfolded(alloc, body) {
        Err(Fault::Text(refusal)) => refusal.code == expected.code && refusal.at == expected.at,
        _ => false,
    }
}

/// Whether constraints unfold to too much.
fn is_too_much(alloc: Global, body: &ConsList) -> bool {
    matches!(
        unfolded(alloc, body),
        Err(Fault::Limit(Excess {
            code: 205,
            counted: 262145,
            limit: 262144
        }))
    )
}

/// One constraint, alone.
fn alone(alloc: Global, constraint: Cons) -> Result<ConsList, AllocError> {
    let mut body = ConsList::new(alloc);
    body.push(constraint)?;
    Ok(body)
}

/// `i in 1..last`.
fn binder(alloc: Global, last: i64) -> Result<Binder, AllocError> {
    let name = Name::from_bytes(alloc, b"i")?;
    let lo = Expr::literal(12, 1);
    let hi = Expr::literal(15, last);
    Ok(Binder {
        name,
        at: 7,
        range: RangeText::Ends { lo, hi },
    })
}

/// `i in 1..last`, so many times.
fn binders(alloc: Global, last: i64, times: usize) -> Result<Binders, AllocError> {
    let mut over = Binders::new(alloc);
    for _ in 0..times {
        over.push(binder(alloc, last)?)?;
    }
    Ok(over)
}

/// `i`, compared with 1.
fn compared(alloc: Global, at: usize, op: CmpOp) -> Result<Expr, AllocError> {
    let name = Expr::name(at, Name::from_bytes(alloc, b"i")?);
    Expr::compare(alloc, op, name, Expr::literal(0, 1))
}

/// `prob(i == 1) >= p / q`.
fn chance(alloc: Global, p: i64, q: i64) -> Result<Cons, AllocError> {
    let cond = compared(alloc, 33, CmpOp::Eq)?;
    Ok(Cons::chance(cond, Expr::literal(44, p), Expr::literal(46, q)))
}

/// `{ i >= 1; prob(i == 1) >= 1/2; }`.
fn block(alloc: Global) -> Result<Cons, AllocError> {
    let mut inner = alone(alloc, Cons::hard(compared(alloc, 20, CmpOp::Ge)?))?;
    inner.push(chance(alloc, 1, 2)?)?;
    Ok(Cons::block(inner))
}

/// `forall(i in 1..2) { i >= 1; prob(i == 1) >= 1/2; }`.
fn for_two(alloc: Global) -> Result<Cons, AllocError> {
    let over = binders(alloc, 2, 1)?;
    let inner = block(alloc)?;
    Cons::forall(alloc, over, inner)
}

/// `forall(i in 1..2) { i >= 1; prob(i == 1) >= 1/2; } i == 1;`.
fn two_of_each(alloc: Global) -> Result<ConsList, AllocError> {
    let forall = for_two(alloc)?;
    let mut body = alone(alloc, forall)?;
    body.push(Cons::hard(compared(alloc, 52, CmpOp::Eq)?))?;
    Ok(body)
}

/// An instance: the number of its condition, the value of its first binder, and its threshold.
type Row = (u32, Option<i64>, i64, i64);

/// The instances of hard constraints, and then those of chance constraints.
fn rows(alloc: Global, found: &Instances) -> Result<Vec<Row>, AllocError> {
    let mut rows = Vec::new(alloc);
    for item in found.hards.as_slice() {
        let value = item.env.as_slice().first().map(|binding| binding.1);
        rows.push((item.text, value, 0, 0))?;
    }
    for item in found.chances.as_slice() {
        let value = item.env.as_slice().first().map(|binding| binding.1);
        rows.push((item.text, value, item.p, item.q))?;
    }
    Ok(rows)
}

/// The instances of constraints, and how many things were counted.
fn rows_in(alloc: Global, body: &ConsList) -> Result<(Vec<Row>, u32), Fault> {
    let (found, counted) = unfolded(alloc, body)?;
    Ok((rows(alloc, &found)?, counted))
}

/// The instances of two of each, and how many things were counted.
fn rows_of_two(alloc: Global) -> Result<(Vec<Row>, u32), Fault> {
    let body = two_of_each(alloc)?;
    rows_in(alloc, &body)
}

#[test]
fn numbers_instances_by_their_conditions(rt: HostRuntime) -> Result<(), Fail> {
    let (rows, counted) = rows_of_two(rt.alloc())?;
    let expected = [
        (0, Some(1), 0, 0),
        (0, Some(2), 0, 0),
        (2, None, 0, 0),
        (1, Some(1), 1, 2),
        (1, Some(2), 1, 2),
    ];
    assert_eq!(rt; rows.as_slice(), expected.as_slice());
    assert_eq!(rt; counted, 7);
    Ok(())
}

#[test]
fn lists_conditions_in_text_order(rt: HostRuntime) -> Result<(), Fail> {
    let alloc = rt.alloc();
    let body = two_of_each(alloc)?;
    let found = conditions(alloc, &body)?;
    assert_eq!(rt; found.len(), 3);
    for (condition, place) in found.as_slice().iter().zip([20, 33, 52]) {
        assert_eq!(rt; condition.at, place);
    }
    Ok(())
}

/// Whether the threshold p / q is refused.
fn refuses(alloc: Global, p: i64, q: i64) -> Result<bool, AllocError> {
    let body = alone(alloc, chance(alloc, p, q)?)?;
    Ok(is_refused(alloc, &body, &Refusal { code: 115, at: 44 }))
}

/// What a row is about, a numerator and a denominator, and whether these make a threshold.
const THRESHOLDS: &[(&str, i64, i64, bool)] = &[
    ("none of the weight", 0, 1, true),
    ("all of the weight", 1, 1, true),
    ("the greatest denominator", 1048576, 1048576, true),
    ("less than none", -1, 1, false),
    ("more than all", 2, 1, false),
    ("a denominator of 0", 0, 0, false),
    ("a denominator too large", 1, 1048577, false),
];

#[test]
fn judges_thresholds(rt: HostRuntime) -> Result<(), Fail> {
    for (word, p, q, right) in THRESHOLDS {
        assert_eq!(rt; refuses(rt.alloc(), *p, *q)?, !*right, "{word}");
    }
    Ok(())
}

/// `1 div 0`.
fn quotient(alloc: Global) -> Result<Expr, AllocError> {
    let mut product = Factors::new(alloc, Expr::literal(0, 1))?;
    product.push((MulOp::Div, Expr::literal(6, 0)))?;
    Ok(Expr::product_of(0, product))
}

#[test]
fn refuses_a_divisor_of_zero(rt: HostRuntime) -> Result<(), Fail> {
    let alloc = rt.alloc();
    let body = alone(alloc, Cons::hard(quotient(alloc)?))?;
    let refusal = Refusal { code: 110, at: 6 };
    assert!(rt; is_refused(alloc, &body, &refusal));
    Ok(())
}

#[test]
fn counts_the_values_of_binders(rt: HostRuntime) -> Result<(), Fail> {
    let alloc = rt.alloc();
    let over = binders(alloc, 600, 2)?;
    let forall = Cons::forall(alloc, over, Cons::block(ConsList::new(alloc)))?;
    let body = alone(alloc, forall)?;
    assert!(rt; is_too_much(alloc, &body));
    Ok(())
}
