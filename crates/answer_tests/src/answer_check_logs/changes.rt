//! Logs of which one line is cut out or is another one.

use super::{FOUR, NONE, ONE, ORDER, answered};
use std::alloc::{AllocError, Global};
use std::test::Fail;

// What each of four logs claims or leaves, its text and the log, which is accepted; lines are parted by ` / `.
const RIGHT: &[(&str, &str, &str)] = &[
    (
        "open",
        ONE,
        "sopl-log 1 / n 0 r / x 0 0 / n 1 0 l / o / n 2 0 h / o / end bounded none 1",
    ),
    (
        "bounded",
        FOUR,
        "sopl-log 1 / n 0 r / x 0 1 / n 1 0 l / x 0 0 / n 2 1 l / v / n 3 0 h / o / n 4 1 h / o / end bounded 0 3",
    ),
    (
        "infeasible",
        NONE,
        "sopl-log 1 / n 0 r / f h 0 0 / end infeasible",
    ),
    (
        "optimal",
        ORDER,
        "sopl-log 1 / n 0 r / s h 0 0 1 le 1 / s b 0 le 2 / s h 1 1 2 le 2 / s b 0 le 1 / s h 1 1 2 le 1 / x 0 0 / n 1 0 l / s h 1 0 1 le 0 / s h 1 1 2 le 0 / v / n 2 0 h / x 1 0 / n 3 2 l / f b / n 4 2 h / x 2 0 / n 5 4 l / f b / n 6 4 h / v / end optimal 2",
    ),
];

// For each line of each of these logs what is answered where it is cut out, and where another line stands there: the word of
// the log, the number of the line, the other line if there is one, and the answer. The answers were made by a reading of logs that is not
// this program's.
const CHANGES: &str = r#"open 1 -> {"answer":"unreadable","at":1,"code":301}
open 1 sopl-log 2 -> {"answer":"unreadable","at":1,"code":301}
open 2 -> {"answer":"unreadable","at":2,"code":301}
open 2 n 0 0 l -> {"answer":"unreadable","at":2,"code":302}
open 3 -> {"answer":"unreadable","at":3,"code":301}
open 3 f b -> {"answer":"unreadable","at":4,"code":302}
open 4 -> {"answer":"unreadable","at":4,"code":301}
open 4 n 2 0 l -> {"answer":"unreadable","at":4,"code":302}
open 5 -> {"answer":"unreadable","at":5,"code":301}
open 5 v -> {"answer":"rejected","line":5,"node":1}
open 6 -> {"answer":"unreadable","at":6,"code":301}
open 6 n 2 1 h -> {"answer":"unreadable","at":6,"code":302}
open 7 -> {"answer":"unreadable","at":7,"code":301}
open 7 x 0 0 -> {"answer":"rejected","line":7,"node":2}
open 8 -> {"answer":"unreadable","at":8,"code":301}
open 8 end bounded none 2 -> {"answer":"rejected","line":8,"node":3}
open 8 end optimal 1 -> {"answer":"rejected","line":8,"node":3}
open 8 end infeasible -> {"answer":"rejected","line":5,"node":1}
open 8 end bounded 0 1 -> {"answer":"rejected","line":8,"node":3}
bounded 1 -> {"answer":"unreadable","at":1,"code":301}
bounded 1 sopl-log 2 -> {"answer":"unreadable","at":1,"code":301}
bounded 2 -> {"answer":"unreadable","at":2,"code":301}
bounded 2 n 0 0 l -> {"answer":"unreadable","at":2,"code":302}
bounded 3 -> {"answer":"unreadable","at":3,"code":301}
bounded 3 x 0 2 -> {"answer":"accepted","bound":"3/1","claim":"bounded","value":"0/1"}
bounded 3 x 1 1 -> {"answer":"rejected","line":3,"node":0}
bounded 4 -> {"answer":"unreadable","at":4,"code":301}
bounded 4 n 1 1 l -> {"answer":"unreadable","at":4,"code":302}
bounded 5 -> {"answer":"unreadable","at":5,"code":301}
bounded 5 x 0 1 -> {"answer":"rejected","line":5,"node":1}
bounded 6 -> {"answer":"unreadable","at":6,"code":301}
bounded 6 n 2 1 h -> {"answer":"unreadable","at":10,"code":302}
bounded 7 -> {"answer":"unreadable","at":7,"code":301}
bounded 7 x 0 0 -> {"answer":"rejected","line":7,"node":2}
bounded 8 -> {"answer":"unreadable","at":8,"code":301}
bounded 8 n 4 0 h -> {"answer":"unreadable","at":8,"code":302}
bounded 9 -> {"answer":"unreadable","at":9,"code":301}
bounded 9 v -> {"answer":"rejected","line":9,"node":3}
bounded 10 -> {"answer":"unreadable","at":10,"code":301}
bounded 10 n 4 2 h -> {"answer":"unreadable","at":10,"code":302}
bounded 11 -> {"answer":"unreadable","at":11,"code":301}
bounded 11 x 0 0 -> {"answer":"rejected","line":11,"node":4}
bounded 12 -> {"answer":"unreadable","at":12,"code":301}
bounded 12 end bounded 0 4 -> {"answer":"rejected","line":12,"node":5}
bounded 12 end optimal 3 -> {"answer":"rejected","line":12,"node":5}
bounded 12 end infeasible -> {"answer":"rejected","line":7,"node":2}
bounded 12 end bounded none 3 -> {"answer":"rejected","line":7,"node":2}
infeasible 1 -> {"answer":"unreadable","at":1,"code":301}
infeasible 1 sopl-log 2 -> {"answer":"unreadable","at":1,"code":301}
infeasible 2 -> {"answer":"unreadable","at":2,"code":301}
infeasible 2 n 0 0 l -> {"answer":"unreadable","at":2,"code":302}
infeasible 3 -> {"answer":"unreadable","at":3,"code":301}
infeasible 3 f b -> {"answer":"rejected","line":3,"node":0}
infeasible 4 -> {"answer":"unreadable","at":4,"code":301}
infeasible 4 end optimal 0 -> {"answer":"rejected","line":4,"node":1}
infeasible 4 end bounded none 0 -> {"answer":"rejected","line":4,"node":1}
infeasible 4 end bounded 0 0 -> {"answer":"rejected","line":4,"node":1}
optimal 1 -> {"answer":"unreadable","at":1,"code":301}
optimal 1 sopl-log 2 -> {"answer":"unreadable","at":1,"code":301}
optimal 2 -> {"answer":"unreadable","at":2,"code":301}
optimal 2 n 0 0 l -> {"answer":"unreadable","at":2,"code":302}
optimal 3 -> {"answer":"rejected","line":3,"node":0}
optimal 3 s h 0 0 2 le 1 -> {"answer":"rejected","line":3,"node":0}
optimal 4 -> {"answer":"rejected","line":4,"node":0}
optimal 4 s u 0 0 le 2 -> {"answer":"rejected","line":4,"node":0}
optimal 5 -> {"answer":"rejected","line":5,"node":0}
optimal 5 s h 1 1 2 le 1 -> {"answer":"rejected","line":5,"node":0}
optimal 6 -> {"answer":"rejected","line":6,"node":0}
optimal 6 s b 0 ge 1 -> {"answer":"rejected","line":6,"node":0}
optimal 7 -> {"answer":"rejected","line":21,"node":6}
optimal 7 s h 1 1 3 le 1 -> {"answer":"rejected","line":7,"node":0}
optimal 8 -> {"answer":"unreadable","at":8,"code":301}
optimal 8 x 1 0 -> {"answer":"rejected","line":10,"node":1}
optimal 9 -> {"answer":"unreadable","at":9,"code":301}
optimal 9 n 1 1 l -> {"answer":"unreadable","at":9,"code":302}
optimal 10 -> {"answer":"rejected","line":11,"node":1}
optimal 10 s h 1 0 1 ge 0 -> {"answer":"rejected","line":10,"node":1}
optimal 11 -> {"answer":"rejected","line":11,"node":1}
optimal 11 s h 1 1 3 le 0 -> {"answer":"rejected","line":11,"node":1}
optimal 12 -> {"answer":"unreadable","at":12,"code":301}
optimal 12 o -> {"answer":"accepted","claim":"optimal","value":"2/2"}
optimal 12 f b -> {"answer":"accepted","claim":"optimal","value":"2/2"}
optimal 12 V -> {"answer":"unreadable","at":12,"code":301}
optimal 13 -> {"answer":"unreadable","at":13,"code":301}
optimal 13 n 3 0 h -> {"answer":"unreadable","at":13,"code":302}
optimal 14 -> {"answer":"unreadable","at":14,"code":301}
optimal 14 x 2 0 -> {"answer":"rejected","line":18,"node":4}
optimal 15 -> {"answer":"unreadable","at":15,"code":301}
optimal 15 n 3 3 l -> {"answer":"unreadable","at":15,"code":302}
optimal 16 -> {"answer":"unreadable","at":16,"code":301}
optimal 16 o -> {"answer":"accepted","claim":"optimal","value":"2/2"}
optimal 17 -> {"answer":"unreadable","at":17,"code":301}
optimal 17 n 4 2 l -> {"answer":"unreadable","at":17,"code":302}
optimal 18 -> {"answer":"unreadable","at":18,"code":301}
optimal 18 f b -> {"answer":"unreadable","at":19,"code":302}
optimal 19 -> {"answer":"unreadable","at":19,"code":301}
optimal 19 n 6 4 l -> {"answer":"unreadable","at":19,"code":302}
optimal 20 -> {"answer":"unreadable","at":20,"code":301}
optimal 20 v -> {"answer":"accepted","claim":"optimal","value":"2/2"}
optimal 20 o -> {"answer":"accepted","claim":"optimal","value":"2/2"}
optimal 21 -> {"answer":"unreadable","at":21,"code":301}
optimal 21 n 6 5 h -> {"answer":"unreadable","at":21,"code":302}
optimal 22 -> {"answer":"unreadable","at":22,"code":301}
optimal 22 f b -> {"answer":"rejected","line":23,"node":7}
optimal 23 -> {"answer":"unreadable","at":23,"code":301}
optimal 23 end optimal 3 -> {"answer":"rejected","line":23,"node":7}
optimal 23 end optimal 1 -> {"answer":"rejected","line":22,"node":6}
optimal 23 end infeasible -> {"answer":"rejected","line":4,"node":0}
optimal 23 end bounded 2 2 -> {"answer":"accepted","bound":"2/2","claim":"bounded","value":"2/2"}
optimal 23 end bounded none 2 -> {"answer":"rejected","line":4,"node":0}
"#;

// A log without its line of this number, or with another one in its place.
fn changed(alloc: Global, log: &str, number: usize, other: &str) -> Result<String, AllocError> {
    let mut text = String::new(alloc);
    let place = number.checked_sub(1);
    for (at, line) in log.split(" / ").enumerate() {
        let line = if place == Some(at) { other } else { line };
        text.push_str(line)?;
        if !line.is_empty() {
            text.push('\n')?;
        }
    }
    Ok(text)
}

// The text and the log of a word.
fn right_log(word: &str) -> Option<(&'static str, &'static str)> {
    for (name, text, log) in RIGHT {
        if *name == word {
            return Some((*text, *log));
        }
    }
    None
}

// What is answered of a change, which is told as in the table.
fn answer_to(alloc: Global, change: &str) -> Result<String, AllocError> {
    let (word, behind) = change.split_once(' ').unwrap_or((change, ""));
    let (number, other) = behind.split_once(' ').unwrap_or((behind, ""));
    let Some((text, log)) = right_log(word) else {
        return Ok(String::new(alloc));
    };
    let bytes = changed(alloc, log, number.parse::<usize>().unwrap_or(0), other)?;
    let (_, line) = answered(alloc, text, bytes.as_bytes())?;
    Ok(line)
}

#[test]
fn each_line_counts(rt: HostRuntime) -> Result<(), Fail> {
    for row in CHANGES.lines() {
        let (change, want) = row.split_once(" -> ").unwrap_or((row, ""));
        let told = answer_to(rt.alloc(), change)?;
        assert_eq!(rt; told.as_str().strip_suffix("\n"), Some(want), "{change}");
    }
    Ok(())
}
