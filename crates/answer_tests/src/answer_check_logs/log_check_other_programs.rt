//! Logs that are checked by a checker that was made for another program, whose root box is the same.

ghost use Rattle.std.specs.Prelude.{◌≡◌, ℕ, List, true, IfOk};
ghost use Rattle.term_program.specs.Programs.{IsMade};
ghost use Rattle.term_program.specs.Stated.{box_problem_of};
ghost use Rattle.log_tree.specs.Reads.{IsReading, read};

use super::bytes_of;
use answer_check::program_to_check;
use box_store::BoxStore;
use log_check::{Checker, Verdict};
use log_tree::{Log, read_log, readings_are_texts};
use sopl_term::Program;
use std::alloc::{AllocError, Global};
use std::test::Fail;

// Two numbers, of which the first one counts, the second one, or both.
const FIRST: &str =
    "dvar int x in 0..5; dvar int y in 0..5; stoch int d in {1:1, 3:1} stage 1; minimize expected(x); subject to { prob(x >= d) >= 1/1; }";

const SECOND: &str =
    "dvar int x in 0..5; dvar int y in 0..5; stoch int d in {1:1, 3:1} stage 1; minimize expected(y); subject to { prob(y >= d) >= 1/1; }";

const BOTH: &str =
    "dvar int x in 0..5; dvar int y in 0..5; stoch int d in {1:1, 3:1} stage 1; minimize expected(x + y); subject to { prob(x + y >= d) >= 1/1; }";

// Half of the scenarios are enough; more is better; there is neither a chance constraint nor an objective.
const HALF: &str =
    "dvar int x in 0..5; dvar int y in 0..5; stoch int d in {1:1, 3:1} stage 1; minimize expected(x); subject to { prob(x >= d) >= 1/2; }";

const MOST: &str =
    "dvar int x in 0..5; dvar int y in 0..5; stoch int d in {1:1, 3:1} stage 1; maximize expected(y); subject to { prob(y >= d) >= 1/1; }";

const PLAIN: &str = "dvar int x in 0..5; dvar int y in 0..5; subject to { x + y >= 0; }";

// A log of the first number's least value, and one of the second number's.
const OF_FIRST: &str =
    "sopl-log 1 / n 0 r / s c 0 0 ge 3 / x 1 0 / n 1 0 l / s b 0 le 3 / v / n 2 0 h / f b / end optimal 6";

const OF_SECOND: &str =
    "sopl-log 1 / n 0 r / s c 0 1 ge 3 / x 0 0 / n 1 0 l / s b 1 le 3 / v / n 2 0 h / f b / end optimal 6";

const WRONG_STEP: Verdict = Verdict::Rejected { node: 0, line: 3 };

const WRONG_CLAIM: Verdict = Verdict::Rejected { node: 1, line: 4 };

// What a row is about, the text of the program that a checker is made for, another text and a log, with the verdict on the log by the other
// text and the one by the first; each was worked out by hand.
const LOGS: &[(&str, &str, &str, &str, Verdict, Verdict)] = &[
    (
        "a log that is right by the other program alone",
        FIRST,
        SECOND,
        OF_SECOND,
        Verdict::Accepted,
        WRONG_STEP,
    ),
    (
        "a log that is right by the checker's own program alone",
        FIRST,
        SECOND,
        OF_FIRST,
        WRONG_STEP,
        Verdict::Accepted,
    ),
    (
        "another number of parts of the objective",
        BOTH,
        FIRST,
        OF_FIRST,
        Verdict::Accepted,
        WRONG_STEP,
    ),
    (
        "another threshold over the same weights",
        FIRST,
        HALF,
        OF_FIRST,
        WRONG_STEP,
        Verdict::Accepted,
    ),
    (
        "no chance constraint and no objective",
        PLAIN,
        SECOND,
        OF_SECOND,
        Verdict::Accepted,
        WRONG_STEP,
    ),
    (
        "the least value, where more is better",
        SECOND,
        MOST,
        "sopl-log 1 / n 0 r / f b / end optimal 0",
        WRONG_STEP,
        WRONG_CLAIM,
    ),
    (
        "the greatest value, where less is better",
        MOST,
        SECOND,
        "sopl-log 1 / n 0 r / f b / end optimal 10",
        WRONG_STEP,
        WRONG_CLAIM,
    ),
];

// The verdicts of one checker on a log: by another program, by it again, by the program that it was made for, and by the other one again.
#[derive(Clone, Copy)]
struct Checks {
    first: Verdict,
    again: Verdict,
    own: Verdict,
    last: Verdict,
}

// The box of all points of a program.
fn root_store(alloc: Global, program: &Program) -> Result<BoxStore, AllocError>
    requires made { IsMade program.now }
    ensures root { IfOk result (λ store. store.box ≡ (box_problem_of program.now).root) }
{
    let roots = program.roots(alloc)?;
    let store = BoxStore::new(alloc, roots.as_slice())?;
    Ok(store)
}

// Whether the boxes of two stores are the same.
fn is_same_box(one: &BoxStore, other: &BoxStore) -> bool
    ensures same { result ≡ true → one.now.box ≡ other.now.box }
{
    let lows = one.lows() == other.lows();
    if !lows {
        return false;
    }
    one.highs() == other.highs()
}

// Whether the root boxes of two programs are the same.
fn is_same_root(alloc: Global, one: &Program, other: &Program) -> Result<bool, AllocError>
    requires one { IsMade one.now }
    requires other { IsMade other.now }
    ensures same { IfOk result (λ same. same ≡ true → (box_problem_of one.now).root ≡ (box_problem_of other.now).root) }
{
    let own = root_store(alloc, one)?;
    let root = root_store(alloc, other)?;
    Ok(is_same_box(&own, &root))
}

// The verdicts on a log by a program and by the one that a checker is made for; none where their root boxes differ.
fn checked_by(
    alloc: Global,
    maker: &Program,
    program: &Program,
    log: &Log,
) -> Result<Option<Checks>, AllocError>
    requires maker { IsMade maker.now }
    requires made { IsMade program.now }
    requires read { (bytes : List ℕ) × IsReading bytes (read log.now.rows.items log.now.footer) }
{
    readings_are_texts();
    let same = is_same_root(alloc, maker, program)?;
    if !same {
        return Ok(None);
    }
    let mut checker = Checker::new(alloc, maker, log)?;
    let first = checker.check(program, log);
    let again = checker.check(program, log);
    let own = checker.check(maker, log);
    let last = checker.check(program, log);
    Ok(Some(Checks {
        first,
        again,
        own,
        last,
    }))
}

// Those on the bytes of a log; none where they cannot be read.
fn checked_log(
    alloc: Global,
    maker: &Program,
    program: &Program,
    log: &[u8],
) -> Result<Option<Checks>, AllocError>
    requires maker { IsMade maker.now }
    requires made { IsMade program.now }
{
    match read_log(alloc, log) {
        Ok(log) => checked_by(alloc, maker, program, &log),
        Err(_) => Ok(None),
    }
}

// Those by the program of a text; none where it has none.
fn checked_text(
    alloc: Global,
    maker: &Program,
    text: &str,
    log: &[u8],
) -> Result<Option<Checks>, AllocError>
    requires maker { IsMade maker.now }
{
    match program_to_check(alloc, text.as_bytes()) {
        Ok(program) => checked_log(alloc, maker, &program, log),
        Err(_) => Ok(None),
    }
}

// Those of a checker that is made for the program of another text; none where that has none.
fn checked(
    alloc: Global,
    maker: &str,
    text: &str,
    log: &[u8],
) -> Result<Option<Checks>, AllocError> {
    match program_to_check(alloc, maker.as_bytes()) {
        Ok(program) => checked_text(alloc, &program, text, log),
        Err(_) => Ok(None),
    }
}

#[test]
fn checkers_are_asked_for_other_programs(rt: HostRuntime) -> Result<(), Fail> {
    let alloc = rt.alloc();
    for (word, maker, text, log, verdict, own) in LOGS {
        let bytes = bytes_of(alloc, log)?;
        let Some(told) = checked(alloc, maker, text, bytes.as_bytes())? else {
            panic!(rt; "no verdict on {word}")
        };
        assert_eq!(rt; told.first, *verdict, "{word}");
        assert_eq!(rt; told.again, *verdict, "{word}, again");
        assert_eq!(rt; told.own, *own, "{word}, by the checker's own program");
        assert_eq!(rt;
            told.last,
            *verdict,
            "{word}, behind the checker's own program"
        );
    }
    Ok(())
}
