//! Numbers of `sopl_base`: fractions that are compared, the digits and the middle of an interval, and sums, differences and products that
//! may lack room.

use sopl_base::{Wide, bits, midpoint, reaches};

#[test]
fn fractions_are_compared(rt: HostRuntime) {
    for (word, sum, total, p, q, want) in [
        ("a half, where a half is asked for", 1, 2, 1, 2, true),
        ("a half, where a little more is", 1, 2, 501, 1000, false),
        ("two thirds, where two thirds are", 2, 3, 2, 3, true),
        ("nothing, where nothing is", 0, 1, 0, 1, true),
        ("nothing, where all is", 0, 1, 1, 1, false),
    ] {
        assert_eq!(rt; reaches(sum, total, p, q), want, "{word}");
    }
}

#[test]
fn digits_and_middles(rt: HostRuntime) {
    for (word, lo, hi, want) in [
        ("one number", 3, 3, (0, 3)),
        ("two numbers", 0, 1, (1, 0)),
        ("six numbers", 0, 5, (3, 2)),
        ("eight numbers round 0", -4, 3, (3, -1)),
    ] {
        assert_eq!(rt; (bits(lo, hi), midpoint(lo, hi)), want, "{word}");
    }
}

/// What a row is about, two numbers, and their sum, their difference and their product, where these have room.
type Row = (
    &'static str,
    i128,
    i128,
    Option<i128>,
    Option<i128>,
    Option<i128>,
);

const MOST: i128 = i128::MAX;

const LEAST: i128 = i128::MIN;

const ROWS: &[Row] = &[
    ("small numbers", 2, 3, Some(5), Some(-1), Some(6)),
    ("one below 0", -7, 3, Some(-4), Some(-10), Some(-21)),
    (
        "the greatest and 0",
        MOST,
        0,
        Some(MOST),
        Some(MOST),
        Some(0),
    ),
    (
        "the greatest and 1",
        MOST,
        1,
        None,
        Some(MOST - 1),
        Some(MOST),
    ),
    (
        "the least and 1",
        LEAST,
        1,
        Some(LEAST + 1),
        None,
        Some(LEAST),
    ),
    ("the greatest and 2", MOST, 2, None, Some(MOST - 2), None),
    ("the least and -1", LEAST, -1, None, Some(-MOST), None),
];

/// The number, if there is one.
fn number(wide: Option<Wide>) -> Option<i128> {
    match wide {
        Some(wide) => Some(wide.value),
        None => None,
    }
}

/// The sum, the difference and the product of two numbers.
fn reckoned(a: i128, b: i128) -> (Option<i128>, Option<i128>, Option<i128>) {
    let a = Wide { value: a };
    let b = Wide { value: b };
    (
        number(a.checked_plus(b)),
        number(a.checked_minus(b)),
        number(a.checked_times(b)),
    )
}

#[test]
fn checked_arithmetic(rt: HostRuntime) {
    for (word, a, b, sum, difference, product) in ROWS {
        assert_eq!(rt; reckoned(*a, *b), (*sum, *difference, *product), "{word}");
    }
}
