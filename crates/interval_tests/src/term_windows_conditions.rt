ghost use Rattle.std.specs.Prelude.{◌≡◌, int_le};
ghost use Rattle.std.specs.List.{list_all};

use term_language::Defined;
use term_math::Ends;
use term_windows::{
    Amount, Overlap, TaskRange, Window, always_differ, always_fit, are_apart, first_overlap,
    never_differ, never_fit,
};

/// The interval from one number to another.
fn ends(low: i64, high: i64) -> Ends {
    Ends { low, high }
}

/// Whether an interval is not empty.
fn is_ordered(ends: &Ends) -> bool
    ensures { result ≡ int_le ends.now.low ends.now.high }
{
    ends.low <= ends.high
}

/// Whether none of several is empty.
fn are_ordered(ends: &[Ends]) -> bool
    ensures { result ≡ list_all (λ e. int_le e.low e.high) ends.now }
{
    ends.iter().all(|ends| is_ordered(ends))
}

/// Whether intervals surely do not differ and whether they surely do, where none of them is empty.
#[tactic(auto, using(term_windows::proofs::Slices::all_tried))]
fn told_of(ends: &[Ends]) -> Option<(bool, bool)> {
    if !are_ordered(ends) {
        return None;
    }
    Some((never_differ(ends), always_differ(ends)))
}

#[test]
fn intervals_in_a_window(rt: HostRuntime) {
    let window = Window::from(&ends(1, 9), 3);
    let cases = [
        ("the whole window", ends(1, 3), true),
        ("its middle", ends(2, 2), true),
        ("its last number", ends(3, 3), true),
        ("one number above it", ends(1, 4), false),
        ("just above it", ends(4, 4), false),
        ("one number below it", ends(0, 1), false),
        ("all of it and more", ends(-7, 9), false),
        ("an empty interval", ends(2, -7), true),
        ("all numbers", ends(i64::MIN, i64::MAX), false),
    ];
    for (word, interval, want) in cases {
        assert_eq!(rt; window.has(&interval), want, "{word}");
    }
    assert_eq!(rt;
        window.count(&[ends(1, 3), ends(2, 5), ends(2, 2), ends(0, 3)]),
        2,
        "two of four lie in it"
    );
    assert_eq!(rt;
        window.fewer_than(9),
        Window { low: 1, width: 8 },
        "fewer than nine"
    );
    assert_eq!(rt;
        window.fewer_than(0),
        Window { low: 1, width: 0 },
        "fewer than none"
    );
    assert_eq!(rt;
        window.with_width(7),
        Window { low: 1, width: 7 },
        "another width"
    );
    assert!(rt; !window.with_width(0).has(&ends(1, 1)), "no width");
    let last = Window::from(&ends(i64::MAX, i64::MAX), 1);
    assert!(rt; last.has(&ends(i64::MAX, i64::MAX)), "the greatest number");
    assert!(rt;
        !last.has(&ends(i64::MIN, i64::MAX)),
        "all numbers in a window of the greatest"
    );
}

#[test]
fn intervals_that_differ(rt: HostRuntime) {
    let cases: [(&str, &[Ends], (bool, bool)); 10] = [
        (
            "three in two numbers",
            &[ends(1, 2), ends(1, 2), ends(1, 2), ends(5, 9)],
            (true, false),
        ),
        (
            "two in two numbers",
            &[ends(1, 2), ends(1, 2), ends(5, 9)],
            (false, false),
        ),
        ("a number twice", &[ends(3, 3), ends(3, 3)], (true, false)),
        ("two numbers", &[ends(3, 3), ends(4, 4)], (false, true)),
        (
            "four in three numbers",
            &[ends(1, 2), ends(2, 3), ends(1, 2), ends(2, 3)],
            (true, false),
        ),
        (
            "three in two numbers, one of them fixed",
            &[ends(1, 2), ends(0, 3), ends(1, 2), ends(1, 1)],
            (true, false),
        ),
        (
            "all apart",
            &[ends(1, 2), ends(5, 9), ends(3, 4)],
            (false, true),
        ),
        (
            "two that share a number",
            &[ends(1, 2), ends(3, 4), ends(4, 5)],
            (false, false),
        ),
        (
            "the greatest number twice",
            &[
                ends(i64::MIN, i64::MAX),
                ends(i64::MAX, i64::MAX),
                ends(i64::MAX, i64::MAX),
            ],
            (true, false),
        ),
        ("no interval", &[], (false, true)),
    ];
    for (word, intervals, want) in cases {
        assert_eq!(rt; told_of(intervals), Some(want), "{word}");
    }
    assert!(rt; are_apart(&ends(3, 4), &ends(1, 2)), "neighbours");
    assert!(rt;
        !are_apart(&ends(1, 2), &ends(2, 3)),
        "one number in common"
    );
}

/// An overlap at a place, by its window.
fn overlap(low: i64, width: usize, place: usize) -> Option<Overlap> {
    Some(Overlap {
        window: Window { low, width },
        place,
    })
}

#[test]
fn intervals_that_overlap_a_tight_window(rt: HostRuntime) {
    let cases: [(&str, &[Ends], Option<Overlap>); 8] = [
        (
            "one begins in it",
            &[ends(1, 2), ends(1, 2), ends(2, 5)],
            overlap(1, 2, 2),
        ),
        (
            "one ends in it",
            &[ends(0, 5), ends(4, 5), ends(4, 5)],
            overlap(4, 2, 0),
        ),
        (
            "a window of one number",
            &[ends(1, 1), ends(1, 4)],
            overlap(1, 1, 1),
        ),
        (
            "the window of the first interval",
            &[ends(2, 2), ends(1, 1), ends(2, 4)],
            overlap(2, 1, 2),
        ),
        (
            "a window of two fixed numbers",
            &[ends(1, 1), ends(2, 2), ends(2, 4)],
            overlap(1, 2, 2),
        ),
        (
            "one just above it",
            &[ends(1, 2), ends(1, 2), ends(3, 4)],
            None,
        ),
        ("one round it", &[ends(2, 2), ends(1, 3)], None),
        ("no interval", &[], None),
    ];
    for (word, intervals, want) in cases {
        assert_eq!(rt; first_overlap(intervals), want, "{word}");
    }
}

/// A task that is Always defined.
fn task(start: Ends, duration: Ends, demand: Ends) -> TaskRange {
    TaskRange {
        start,
        duration,
        demand,
        mark: Defined::Always,
    }
}

#[test]
fn what_a_task_asks_for(rt: HostRuntime) {
    let plain = task(ends(0, 1), ends(2, 3), ends(2, 4));
    let cases = [
        ("before it", -1, 0, 0),
        ("where it may have begun", 0, 0, 4),
        ("where it surely runs", 1, 2, 4),
        ("where it may have ended", 2, 0, 4),
        ("at its last time", 3, 0, 4),
        ("behind it", 4, 0, 0),
    ];
    for (word, number, least, most) in cases {
        let time = Amount { number };
        assert_eq!(rt;
            plain.least_asked(&time),
            Amount { number: least },
            "at least, {word}"
        );
        assert_eq!(rt;
            plain.most_asked(&time),
            Amount { number: most },
            "at most, {word}"
        );
    }
    let open = task(ends(0, 1), ends(2, 3), ends(-3, 4));
    assert_eq!(rt;
        open.least_asked(&Amount { number: 1 }),
        Amount { number: 0 },
        "a demand that may be below 0"
    );
    let long = task(
        ends(i64::MIN, i64::MIN),
        ends(i64::MAX, i64::MAX),
        ends(5, 5),
    );
    assert_eq!(rt;
        long.least_asked(&Amount { number: -2 }),
        Amount { number: 5 },
        "at the last time of a long task"
    );
    assert_eq!(rt;
        long.least_asked(&Amount { number: -1 }),
        Amount { number: 0 },
        "just behind a long task"
    );
    assert_eq!(rt;
        long.most_asked(&Amount { number: i64::MAX }),
        Amount { number: 0 },
        "far behind a long task"
    );
}

#[test]
fn parts_of_a_task_below_zero(rt: HostRuntime) {
    let cases = [
        (
            "the start",
            task(ends(-9, -9), ends(0, 3), ends(0, 4)),
            false,
            true,
        ),
        (
            "perhaps the length",
            task(ends(0, 1), ends(-1, 3), ends(0, 4)),
            false,
            false,
        ),
        (
            "perhaps the demand",
            task(ends(0, 1), ends(0, 3), ends(-1, 4)),
            false,
            false,
        ),
        (
            "the length",
            task(ends(0, 1), ends(-2, -1), ends(0, 4)),
            true,
            false,
        ),
        (
            "the demand",
            task(ends(0, 1), ends(0, 3), ends(-2, -1)),
            true,
            false,
        ),
    ];
    for (word, range, negative, sound) in cases {
        assert_eq!(rt; range.is_negative(), negative, "negative by {word}");
        assert_eq!(rt; range.is_sound(), sound, "sound with {word}");
    }
    assert_eq!(rt;
        Amount::lower(&ends(2, 9)),
        Amount { number: 2 },
        "the lower end"
    );
    assert_eq!(rt;
        Amount::upper(&ends(2, 9)),
        Amount { number: 9 },
        "the upper end"
    );
    let left = Amount { number: 9 }.without(&Amount { number: 2 });
    assert_eq!(rt; left, Amount { number: 7 }, "what is left");
}

/// Whether the interval of a demand is not empty.
fn has_demand(task: &TaskRange) -> bool
    ensures { result ≡ int_le task.now.demand.low task.now.demand.high }
{
    is_ordered(&task.demand)
}

/// Whether none of several is empty.
fn have_demands(tasks: &[TaskRange]) -> bool
    ensures { result ≡ list_all (λ t. int_le t.demand.low t.demand.high) tasks.now }
{
    tasks.iter().all(|task| has_demand(task))
}

/// Whether tasks surely do not fit and whether they surely do, where no interval of a demand is empty.
#[tactic(auto, using(term_windows::proofs::TaskSlices::all_tried))]
fn fit(tasks: &[TaskRange], capacity: &Ends) -> Option<(bool, bool)> {
    if !have_demands(tasks) {
        return None;
    }
    Some((never_fit(tasks, capacity), always_fit(tasks, capacity)))
}

#[test]
fn tasks_that_fit(rt: HostRuntime) {
    let first = task(ends(0, 0), ends(2, 3), ends(2, 2));
    let second = task(ends(0, 1), ends(2, 3), ends(2, 2));
    let later = task(ends(3, 4), ends(2, 3), ends(2, 2));
    let shorter = task(ends(0, 1), ends(1, 3), ends(2, 2));
    let backwards = task(ends(0, 1), ends(-2, -1), ends(2, 2));
    let cases: [(&str, &[TaskRange], Ends, (bool, bool)); 10] = [
        (
            "two at once, too much",
            &[first, second],
            ends(1, 3),
            (true, false),
        ),
        (
            "two at once, perhaps too much",
            &[first, second],
            ends(1, 4),
            (false, false),
        ),
        ("two at once", &[first, second], ends(4, 9), (false, true)),
        (
            "one behind the other",
            &[first, later],
            ends(2, 2),
            (false, true),
        ),
        (
            "one behind the other, each too much",
            &[first, later],
            ends(1, 1),
            (true, false),
        ),
        (
            "two that need not meet",
            &[first, shorter],
            ends(3, 3),
            (false, false),
        ),
        ("a length below 0", &[backwards], ends(9, 9), (true, false)),
        (
            "no task, a capacity below 0",
            &[],
            ends(-3, -1),
            (true, false),
        ),
        (
            "no task, a capacity perhaps below 0",
            &[],
            ends(-1, 1),
            (false, false),
        ),
        ("no task", &[], ends(0, 1), (false, true)),
    ];
    for (word, tasks, capacity, want) in cases {
        assert_eq!(rt; fit(tasks, &capacity), Some(want), "{word}");
    }
}
