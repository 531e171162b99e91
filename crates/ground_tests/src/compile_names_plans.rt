//! Plans of arrays, row by row.

use compile_names::Plan;
use std::alloc::{AllocError, Global};

/// Whether a plan has these sets.
fn has_sets(plan: &Plan, sets: &[&[i64]]) -> bool {
    plan.sets.len() == sets.len()
        && plan
            .sets
            .iter()
            .zip(sets)
            .all(|(set, want)| set.as_slice() == *want)
}

/// Whether the plan of these indices has these sets and this order.
fn is_planned(
    alloc: Global,
    given: &[&[i64]],
    sets: &[&[i64]],
    order: &[Option<usize>],
) -> Result<bool, AllocError> {
    let plan = Plan::of(alloc, given)?;
    Ok(has_sets(&plan, sets) && plan.order.as_slice() == order)
}

#[test]
fn plans_by_indices(rt: HostRuntime) -> Result<(), AllocError> {
    let rows: [(&str, &[&[i64]], &[&[i64]], &[Option<usize>]); 6] = [
        ("no element", &[], &[&[]], &[]),
        ("an element without an index", &[&[]], &[], &[Some(0)]),
        (
            "an index twice",
            &[&[3], &[-1], &[3], &[2]],
            &[&[-1, 2, 3]],
            &[Some(1), Some(3), Some(0)],
        ),
        (
            "an element that is missing",
            &[&[2, 5], &[1, 7], &[2, 7]],
            &[&[1, 2], &[5, 7]],
            &[None, Some(1), Some(0), Some(2)],
        ),
        (
            "an index that is too short",
            &[&[1, 4], &[2]],
            &[&[1, 2], &[0, 4]],
            &[None, Some(0), None, None],
        ),
        (
            "four dimensions",
            &[&[7, 2, 5, 0], &[7, 1, 5, 0]],
            &[&[7], &[1, 2], &[5], &[0]],
            &[Some(1), Some(0)],
        ),
    ];
    for (word, given, sets, order) in &rows {
        assert!(rt; is_planned(rt.alloc(), given, sets, order)?, "{word}");
    }
    Ok(())
}
