//! Trees of small problems, and the limits.

ghost use Rattle.std.specs.Prelude.{◌≡◌, IfOk, IfSome, replicate};
ghost use Rattle.sopl_scen.specs.Layout.{decisions_in};
ghost use Rattle.sopl_scen.specs.Samples.{decided, drawn};

use sopl_ast::Name;
use sopl_base::Fault;
use sopl_scen::Tree;
use std::alloc::{AllocError, Global};
use std::test::Fail;
use unfold_variables::{DecisionItem, Index, StochItem, Weighted};

/// The greatest weight of an outcome.
const MOST: i64 = 1099511627776;

/// A decision from 0 to `hi`.
fn decision(alloc: Global, hi: i64, stage: u32) -> DecisionItem
    ensures { result ≡ decided hi stage }
{
    DecisionItem {
        name: Name::new(alloc),
        index: Index::new(alloc),
        lo: 0,
        hi,
        stage,
    }
}

/// A stochastic variable that is 1 with one weight, or 3 with another.
fn one_or_three(alloc: Global, one: i64, three: i64, stage: u32) -> Result<StochItem, AllocError>
    ensures { IfOk result (λ s. s ≡ drawn one three stage) }
{
    let mut values = Weighted::new(alloc);
    values.push((1, one))?;
    values.push((3, three))?;
    Ok(StochItem {
        name: Name::new(alloc),
        index: Index::new(alloc),
        values,
        stage,
    })
}

/// The tree of decisions of the stages 1 and 2 and of variables of these stages, which stand in order.
fn tree_of(alloc: Global, first: u32, second: u32) -> Option<Tree>
    ensures variables { IfSome result (λ tree. tree.variables ≡ 2) }
    ensures decisions { IfSome result (λ tree. decisions_in tree ≡ 2) }
{
    if first < 1 || first > second || second > 24 {
        return None;
    }
    let decisions = [decision(alloc, 5, 1), decision(alloc, 5, 2)];
    let one = one_or_three(alloc, 1, 2, first).ok()?;
    let two = one_or_three(alloc, 1, 2, second).ok()?;
    Tree::of(alloc, &decisions, &[one, two], 0).ok()
}

#[test]
fn trees(rt: HostRuntime) -> Result<(), Fail> {
    // The stages of two stochastic variables; how many histories stage 2 then has, and how many
    // cells there are; of the last scenario, the number of its history and of its second cell.
    for (word, first, second, histories, cells, history, cell) in [
        ("both are seen before stage 2", 1, 1, 4, 5, 3, 4),
        ("one is seen before stage 2", 1, 2, 2, 3, 1, 2),
        ("none is seen before stage 2", 2, 2, 1, 2, 0, 1),
    ] {
        let Some(tree) = tree_of(rt.alloc(), first, second) else {
            return Err(Fail::from("no tree"));
        };
        assert_eq!(rt; tree.count(), 4, "scenarios, where {word}");
        assert_eq!(rt; tree.total(), 9, "the weight of all, where {word}");
        assert_eq!(rt;
            (tree.weight(1), tree.weight(3)),
            (2, 4),
            "weights, where {word}"
        );
        assert_eq!(rt;
            (tree.histories(2), tree.history(2, 3)),
            (histories, history),
            "histories, where {word}"
        );
        assert_eq!(rt;
            (tree.cells(), tree.cell_of(1, 3)),
            (cells, cell),
            "cells, where {word}"
        );
        assert_eq!(rt;
            (tree.value(0, 2), tree.value(1, 2)),
            (3, 1),
            "values, where {word}"
        );
        assert_eq!(rt;
            (tree.cell_of(0, 3), tree.history(1, 3)),
            (0, 0),
            "stage 1, where {word}"
        );
    }
    Ok(())
}

/// So many variables of stage 1 of these weights.
fn variables(alloc: Global, many: u32, one: i64, three: i64) -> Result<Vec<StochItem>, AllocError>
    ensures { IfOk result (λ found. found.items ≡ replicate many (drawn one three 1)) }
{
    let mut found = Vec::new(alloc);
    'many: for made in 0..many {
        found.push(one_or_three(alloc, one, three, 1)?)?;
    }
    Ok(found)
}

/// The limit that is passed by so many variables of these weights, a decision from 0 to `hi` and so many constraints.
fn limit_of(
    alloc: Global,
    many: u32,
    one: i64,
    three: i64,
    hi: i64,
    constraints: usize,
) -> Option<(u16, i128)> {
    if many > 20
        || one < 1
        || one > MOST
        || three < 1
        || three > MOST
        || hi < 0
        || hi > 65535
        || constraints > 1000
    {
        return None;
    }
    let Ok(stochs) = variables(alloc, many, one, three) else {
        return None;
    };
    let decisions = [decision(alloc, hi, 2)];
    match Tree::of(alloc, &decisions, &stochs, constraints) {
        Err(Fault::Limit(excess)) => Some((excess.code, excess.counted)),
        _ => None,
    }
}

#[test]
fn limits(rt: HostRuntime) -> Result<(), Fail> {
    let alloc = rt.alloc();
    // A running product of 2 ^ 99 goes on to 2 ^ 132, and is given as the greatest number.
    let half = MOST / 256;
    for (word, many, one, three, hi, constraints, limit) in [
        ("a weight of 2 ^ 82", 2, MOST, MOST, 1, 0, None),
        (
            "a weight of 2 ^ 123",
            3,
            MOST,
            MOST,
            1,
            0,
            Some((201, 1 << 123)),
        ),
        (
            "a weight of 2 ^ 132",
            4,
            half,
            half,
            1,
            0,
            Some((201, i128::MAX)),
        ),
        (
            "twice as many scenarios as there may be",
            15,
            1,
            1,
            1,
            0,
            Some((202, 32768)),
        ),
        (
            "as many instances in all scenarios as there may be",
            14,
            1,
            1,
            0,
            49,
            None,
        ),
        ("one constraint more", 14, 1, 1, 0, 50, Some((209, 1064960))),
        ("1024 cells of one bit", 10, 1, 1, 1, 0, None),
        ("1024 cells of two bits", 10, 1, 1, 2, 0, Some((204, 2048))),
    ] {
        assert_eq!(rt;
            limit_of(alloc, many, one, three, hi, constraints),
            limit,
            "{word}"
        );
    }
    Ok(())
}
