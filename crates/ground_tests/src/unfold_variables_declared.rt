//! Declarations that a planner would write, unfolded as the crates above do it.

use sopl_ast::{Dim, Dims, Dist, Expr, Name, RangeText};
use sopl_base::{Excess, Fault, Refusal};
use std::alloc::{AllocError, Global};
use std::test::Fail;
use unfold_tables::{Count, Ends, NumberSet, Table};
use unfold_variables::{DecisionItem, decisions, stochastics};

/// The dimensions `[i in 1..2]`.
fn two(alloc: Global) -> Result<Dims, AllocError> {
    let binder = Name::from_bytes(alloc, b"i")?;
    let lo = Expr::literal(12, 1);
    let hi = Expr::literal(15, 2);
    let mut dims = Dims::new(alloc);
    dims.push(Dim {
        binder: Some(binder),
        at: 7,
        range: RangeText::Ends { lo, hi },
    })?;
    Ok(dims)
}

/// The expression `i`.
fn index(alloc: Global, at: usize) -> Result<Expr, AllocError> {
    let name = Name::from_bytes(alloc, b"i")?;
    Ok(Expr::name(at, name))
}

/// The decisions of `dvar int x[i in 1..2] in 0..i stage i`.
fn arrayed(alloc: Global) -> Result<Vec<DecisionItem>, Fault> {
    let dims = two(alloc)?;
    ranged(alloc, dims.as_slice())
}

/// The decisions of `dvar int x[..] in 0..i stage i` over these dimensions.
fn ranged(alloc: Global, dims: &[Dim]) -> Result<Vec<DecisionItem>, Fault> {
    let hi = index(alloc, 24)?;
    let lo = Expr::literal(21, 0);
    staged(alloc, dims, &RangeText::Ends { lo, hi })
}

/// The decisions of `dvar int x[..] in .. stage i` over these dimensions and with this domain.
fn staged(alloc: Global, dims: &[Dim], range: &RangeText) -> Result<Vec<DecisionItem>, Fault> {
    let stage = index(alloc, 32)?;
    named(alloc, dims, range, &stage)
}

/// The decisions of `dvar int x[..] in .. stage ..` over these dimensions, with this domain and this stage.
fn named(
    alloc: Global,
    dims: &[Dim],
    range: &RangeText,
    stage: &Expr,
) -> Result<Vec<DecisionItem>, Fault> {
    let name = Name::from_bytes(alloc, b"x")?;
    let table = Table::new(alloc);
    let mut count = Count::new();
    decisions(alloc, &table, &mut count, &name, dims, range, Some(stage))
}

#[test]
fn gives_each_index_its_decision(rt: HostRuntime) -> Result<(), Fail> {
    let Ok(found) = arrayed(rt.alloc()) else {
        return Err(Fail::from("refused"));
    };
    assert_eq!(rt; found.len(), 2);
    for (place, hi) in [(0, 1), (1, 2)] {
        let Some(item) = found.as_slice().get(place) else {
            return Err(Fail::from("too few"));
        };
        assert_eq!(rt;
            item.index.as_slice().first().copied(),
            Some(hi),
            "the index {hi}"
        );
        assert_eq!(rt;
            (item.lo, item.hi, i64::from(item.stage)),
            (0, hi, hi),
            "at the index {hi}"
        );
    }
    Ok(())
}

/// What stops a declaration: the code and the place of a refusal, or the code of a limit and the number that was counted.
fn stop<T: Drop>(outcome: Result<Vec<T>, Fault>) -> Option<(u16, i128)> {
    match outcome {
        Ok(_) => None,
        Err(Fault::Text(Refusal { code, at })) => Some((code, at as i128)),
        Err(Fault::Limit(Excess { code, counted, .. })) => Some((code, counted)),
        Err(Fault::NoMemory) => Some((0, 0)),
    }
}

/// What stops `dvar int x in lo..hi stage k`.
fn decision_stop(alloc: Global, name: &Name, lo: i64, hi: i64, k: i64) -> Option<(u16, i128)> {
    let table = Table::new(alloc);
    let lo = Expr::literal(21, lo);
    let hi = Expr::literal(24, hi);
    let range = RangeText::Ends { lo, hi };
    let stage = Expr::literal(32, k);
    let mut count = Count::new();
    stop(decisions(alloc, &table, &mut count, name, &[], &range, Some(&stage)))
}

#[test]
fn refuses_domains_and_stages(rt: HostRuntime) -> Result<(), Fail> {
    let name = Name::from_bytes(rt.alloc(), b"x")?;
    for (word, lo, hi, k, want) in [
        ("the largest domain and the last stage", 0, 65535, 24, None),
        ("an empty domain", 3, 2, 1, Some((111, 21))),
        ("a domain too large", 0, 65536, 1, Some((203, 65537))),
        ("a stage too late", 2, 2, 25, Some((114, 32))),
        ("the stage 0", 2, 2, 0, Some((114, 32))),
    ] {
        assert_eq!(rt; decision_stop(rt.alloc(), &name, lo, hi, k), want, "{word}");
    }
    Ok(())
}

/// A table with a range of this name.
fn table_of(alloc: Global, name: &Name, lo: i64, hi: i64) -> Result<Table, AllocError> {
    let mut table = Table::new(alloc);
    table.add_set(name, NumberSet::Between(Ends { lo, hi }))?;
    Ok(table)
}

/// What stops `dvar int x in R`, where the table has these ranges.
fn stop_by_name(alloc: Global, table: &Table, name: &Name, range: Name) -> Option<(u16, i128)> {
    let range = RangeText::Named {
        name: range,
        at: 14,
    };
    let mut count = Count::new();
    stop(decisions(alloc, table, &mut count, name, &[], &range, None))
}

/// What stops `dvar int x in R`, where `R` has these ends.
fn named_stop(alloc: Global, name: &Name, lo: i64, hi: i64) -> Option<(u16, i128)> {
    let range = Name::from_bytes(alloc, b"R").ok()?;
    match table_of(alloc, &range, lo, hi) {
        Ok(table) => stop_by_name(alloc, &table, name, range),
        Err(_) => None,
    }
}

#[test]
fn takes_a_domain_by_its_name(rt: HostRuntime) -> Result<(), Fail> {
    let name = Name::from_bytes(rt.alloc(), b"x")?;
    for (word, lo, hi, want) in [
        ("a range of two", 2, 3, None),
        ("an empty range", 3, 2, Some((111, 14))),
    ] {
        assert_eq!(rt; named_stop(rt.alloc(), &name, lo, hi), want, "{word}");
    }
    Ok(())
}

/// The distribution `{v: w, 7: 1}`.
fn pair(alloc: Global, v: i64, w: i64) -> Result<Dist, AllocError> {
    let mut dist = Dist::new(alloc);
    dist.push((Expr::literal(16, v), Expr::literal(19, w)))?;
    dist.push((Expr::literal(22, 7), Expr::literal(25, 1)))?;
    Ok(dist)
}

/// What stops `stoch int d in {v: w, 7: 1}`.
fn draw_stop(alloc: Global, name: &Name, v: i64, w: i64) -> Option<(u16, i128)> {
    let dist = pair(alloc, v, w).ok()?;
    let dist = dist.as_slice();
    let table = Table::new(alloc);
    let mut count = Count::new();
    stop(stochastics(alloc, &table, &mut count, name, &[], dist, None))
}

#[test]
fn refuses_distributions(rt: HostRuntime) -> Result<(), Fail> {
    let name = Name::from_bytes(rt.alloc(), b"d")?;
    for (word, v, w, want) in [
        ("two outcomes", 6, 1, None),
        ("an outcome twice", 7, 1, Some((113, 22))),
        ("a weight of 0", 6, 0, Some((113, 19))),
        (
            "a weight below 0 before an outcome twice",
            7,
            -1,
            Some((113, 19)),
        ),
    ] {
        assert_eq!(rt; draw_stop(rt.alloc(), &name, v, w), want, "{word}");
    }
    Ok(())
}
