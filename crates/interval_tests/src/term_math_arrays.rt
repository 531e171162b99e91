ghost use Rattle.std.specs.Prelude.{◌≡◌, true, IfOk};
ghost use Rattle.term_language.specs.Laws.{IsTable};
ghost use Rattle.term_math.specs.Ascending.{ascends};
ghost use Rattle.term_math.specs.Kept.{table_of};

use std::alloc::{AllocError, Global};
use term_language::Defined;
use term_math::{BoxView, Element, Ends, Indices, Part, Ranges, Table, covered};

/// An array over 1 and 3, and over 2, 5 and 7.
#[tactic(auto, using(term_math::proofs::Apart::grid_is))]
fn grid(alloc: Global) -> Result<Table, AllocError>
    ensures proper { IfOk result (λ table. IsTable (table_of table)) }
{
    let rows = Vec::from_slice(alloc, &[1, 3])?;
    let columns = Vec::from_slice(alloc, &[2, 5, 7])?;
    let mut sets = Vec::new(alloc);
    sets.push(rows)?;
    sets.push(columns)?;
    let elements = Vec::from_slice(
        alloc,
        &[
            Element::Fixed(12),
            Element::Free(1),
            Element::Fixed(17),
            Element::Fixed(32),
            Element::Fixed(35),
            Element::Free(0),
        ],
    )?;
    Ok(Table::of(sets, elements))
}

/// An array with an index set that is empty.
#[tactic(auto, using(term_math::proofs::Apart::empty_is))]
fn empty(alloc: Global) -> Result<Table, AllocError>
    ensures proper { IfOk result (λ table. IsTable (table_of table)) }
{
    let mut sets = Vec::new(alloc);
    sets.push(Vec::new(alloc))?;
    Ok(Table::of(sets, Vec::new(alloc)))
}

/// An array over 3 and 1, which do not ascend.
#[tactic(auto, using(term_math::proofs::Apart::turned_is))]
fn turned(alloc: Global) -> Result<Table, AllocError>
    ensures proper { IfOk result (λ table. IsTable (table_of table)) }
{
    let set = Vec::from_slice(alloc, &[3, 1])?;
    let mut sets = Vec::new(alloc);
    sets.push(set)?;
    let elements = Vec::from_slice(alloc, &[Element::Fixed(30), Element::Fixed(10)])?;
    Ok(Table::of(sets, elements))
}

/// Whether the numbers of a set ascend, as an array over it tells.
#[tactic(auto, using(crate::proofs::Single::only_ascends))]
fn is_ascending(alloc: Global, set: &[i64]) -> Result<bool, AllocError>
    ensures { IfOk result (λ told. told ≡ true → ascends set.now ≡ true) }
{
    let only = Vec::from_slice(alloc, set)?;
    let mut sets = Vec::new(alloc);
    sets.push(only)?;
    let table = Table::of(sets, Vec::new(alloc));
    Ok(table.ascending)
}

#[test]
fn elements_over_numbers_that_do_not_ascend(rt: HostRuntime) {
    let table = turned(rt.alloc()).expect(&rt, "memory");
    let view = BoxView {
        lows: &[],
        highs: &[],
        part: None,
    };
    assert!(rt; !table.ascending);
    assert_eq!(rt; table.known(&[1]), Some(Element::Fixed(10)), "the last");
    assert_eq!(rt; table.known(&[3]), Some(Element::Fixed(30)), "the first");
    assert_eq!(rt; table.known(&[2]), None, "no such number");
    assert_eq!(rt; table.hull(&view), Ends { low: 10, high: 30 }, "the hull");
}

#[test]
fn elements_at_indices(rt: HostRuntime) {
    let table = grid(rt.alloc()).expect(&rt, "memory");
    let cases: [(&str, &[i64], Option<Element>); 10] = [
        ("the first number", &[1, 2], Some(Element::Fixed(12))),
        ("the first cell", &[1, 5], Some(Element::Free(1))),
        (
            "a number of the last row",
            &[3, 2],
            Some(Element::Fixed(32)),
        ),
        ("the last cell", &[3, 7], Some(Element::Free(0))),
        ("no such row", &[2, 2], None),
        ("neither row nor column", &[2, 1], None),
        ("no such column", &[3, 8], None),
        ("one index", &[3], None),
        ("three indices", &[1, 2, 2], None),
        ("no index", &[], None),
    ];
    for (word, index, want) in cases {
        assert_eq!(rt; table.known(index), want, "{word}");
    }
}

#[test]
fn hulls_over_a_box(rt: HostRuntime) {
    let table = grid(rt.alloc()).expect(&rt, "memory");
    let view = BoxView {
        lows: &[-5, -7],
        highs: &[4, 9],
        part: None,
    };
    let part = Part {
        cell: 0,
        ends: Ends { low: 40, high: 41 },
    };
    assert_eq!(rt; table.hull(&view), Ends { low: -7, high: 35 }, "the box");
    assert_eq!(rt;
        table.hull(&view.replaced(&part)),
        Ends { low: -7, high: 41 },
        "a part of it"
    );
}

#[test]
fn nothing_in_an_empty_array(rt: HostRuntime) {
    let table = empty(rt.alloc()).expect(&rt, "memory");
    let view = BoxView {
        lows: &[3],
        highs: &[4],
        part: None,
    };
    assert_eq!(rt; table.hull(&view), Ends { low: 0, high: 0 }, "the hull");
    assert_eq!(rt; table.known(&[0]), None, "an element");
}

#[test]
fn covered_intervals(rt: HostRuntime) {
    let cases: [(&str, i64, i64, &[i64], bool); 8] = [
        ("one number", 2, 2, &[2], true),
        ("three numbers", 2, 4, &[2, 3, 4], true),
        ("three numbers in another order", 2, 4, &[4, 2, 3], true),
        ("one in the middle left out", 2, 4, &[2, 4], false),
        ("one at the top left out", 2, 5, &[2, 3, 4], false),
        ("one at the bottom left out", 1, 4, &[2, 3, 4], false),
        ("a long interval", -(1 << 41), 1 << 41, &[-(1 << 41)], false),
        ("an empty set", 0, 0, &[], false),
    ];
    for (word, low, high, set, want) in cases {
        let ascending = is_ascending(rt.alloc(), set).expect(&rt, "memory");
        assert_eq!(rt;
            covered(&Ends { low, high }, set, ascending),
            want,
            "{word}"
        );
    }
}

#[test]
fn elements_within_intervals(rt: HostRuntime) {
    let table = grid(rt.alloc()).expect(&rt, "memory");
    let view = BoxView {
        lows: &[-5, -7],
        highs: &[4, 9],
        part: None,
    };
    let cases = [
        ("one number", (1, 1), (2, 2), (12, 12), Defined::Always),
        ("one cell", (1, 1), (5, 5), (-7, 9), Defined::Always),
        (
            "columns with a gap",
            (3, 3),
            (2, 5),
            (32, 35),
            Defined::Maybe,
        ),
        (
            "rows past the last",
            (3, 4),
            (2, 2),
            (32, 32),
            Defined::Maybe,
        ),
        ("rows with a gap", (1, 3), (7, 7), (-5, 17), Defined::Maybe),
        ("all and more", (0, 9), (0, 9), (-7, 35), Defined::Maybe),
        ("no row", (2, 2), (2, 7), (-7, 35), Defined::Never),
        ("no column", (1, 1), (3, 4), (-7, 35), Defined::Never),
    ];
    let rows: &[i64] = &[1, 3];
    let columns: &[i64] = &[2, 5, 7];
    let rows_ascend = is_ascending(rt.alloc(), rows).expect(&rt, "memory");
    let columns_ascend = is_ascending(rt.alloc(), columns).expect(&rt, "memory");
    for (word, first, second, hull, mark) in cases {
        let behind = Ranges::First(ends(second), &Ranges::End);
        let ranges = Ranges::First(ends(first), &behind);
        let indices = Indices::none()
            .with(&ends(second), Defined::Always, columns, columns_ascend)
            .with(&ends(first), Defined::Always, rows, rows_ascend);
        let within = table.within(&ranges, &indices, &view);
        assert_eq!(rt; within.ends, ends(hull), "{word}");
        assert!(rt; within.mark == mark, "the mark of {word}");
    }
}

/// An interval by its ends.
fn ends(pair: (i64, i64)) -> Ends {
    Ends {
        low: pair.0,
        high: pair.1,
    }
}
