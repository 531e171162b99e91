//! Words of the command line, and what their runs answer.

use crate::runs::{ORDER, ORDER_ANSWER, ORDER_LOG, TableRow, answers, ends, ran, row_in};
use answer_run::Status;
use std::alloc::{AllocError, Global};
use std::process::Abort;
use std::test::Fail;

/// What words are about, and the words: a search of the ordering text.
const IN_FORM: &str = "\
no option: solve m
a log and a budget: solve m --log f --budget 7000
a sign in the name of a log: solve --log=a=b --budget=4294967295 m
zeros before a budget: solve m --budget=0000007000
";

/// Words of that form are answered, and the log is written.
#[test]
fn words_in_form(rt: HostRuntime) -> Result<(), Fail> {
    for line in IN_FORM.lines() {
        let (about, words) = line.split_once(": ").unwrap_or(("", line));
        let ended = ran(rt.alloc(), words, ORDER)?;
        ends(&rt, about, &ended, Status::Done, ORDER_ANSWER);
        assert_eq!(rt; ended.log.bytes(), ORDER_LOG.as_bytes(), "{about}");
    }
    Ok(())
}

/// What is wrong with words, and the words.
const OUT_OF_FORM: &str = "\
no model: solve
no model: tree
a model that begins as an option does: tree -m
an unknown command: trees m
a command in capitals: Solve m
a budget of 0: solve --budget 0 m
an option without a name: solve -- m
a brancher that is not there: solve --branch nobody m
a brancher where none is there: solve --branch lower m
two budgets: solve --budget 3 --budget 3 m
two budgets, one with a sign: solve --budget 3 --budget=3 m
two budgets around the model: solve --budget=3 m --budget 4
a budget that is the model: solve --budget m
a negative budget: solve --budget -3 m
an empty budget: solve --budget= m
an empty budget behind the model: solve m --budget=
a budget of eleven digits: solve --budget 12345678901 m
a budget of thirteen digits behind a sign: solve --log=a=b --budget=0004294967295 m
a budget of 2^32: solve --budget 4294967296 m
a budget with a letter: solve --budget 3x m
a budget with a sign: solve --budget +3 m
a budget with two signs: solve --budget=+3 m
a log that is the model: solve --log m
an empty log: solve --log= m
a log that begins as an option does: solve --log -f m
two logs: solve --log f --log f m
no log behind its option: solve m --log
an option as a log: solve --log --budget 3 m
two models: solve m m
two models of two names: solve m n
a model behind a budget: solve m --budget 3 n
two models of a tree: tree m n
an option as a second word: solve =m -m
a log and no model: solve --log f
a budget of a tree: tree --budget 3 m
a log of a tree: tree --log=f m
no seat: solve --seats 0 m
too many seats: solve --seats 65 m
seats in letters: solve --seats two m
an order of 2^31: solve --order 2147483648 m
a negative order: solve --order -1 m
";

/// A run on the ordering text is answered as one of words that are not of the form, and no log is written.
fn is_out_of_form(
    rt: &impl Abort,
    alloc: Global,
    about: &str,
    words: &str,
) -> Result<(), AllocError> {
    let ended = ran(alloc, words, ORDER)?;
    ends(rt, about, &ended, Status::Usage, "{\"answer\":\"usage\"}\n");
    assert!(rt; ended.log.bytes().is_empty(), "{about}");
    Ok(())
}

#[test]
fn words_out_of_form(rt: HostRuntime) -> Result<(), Fail> {
    for line in OUT_OF_FORM.lines() {
        let (about, words) = line.split_once(": ").unwrap_or(("", line));
        is_out_of_form(&rt, rt.alloc(), about, words)?;
    }
    for (about, words) in [
        ("no word", ""),
        ("an empty model", "solve "),
        ("an empty command", " m"),
    ] {
        is_out_of_form(&rt, rt.alloc(), about, words)?;
    }
    Ok(())
}

/// Texts, each with the line on which `tree` ends.
const TREES: &str = r##"
one stage: dvar int x in 0..5 stage 1; stoch int d in {1:1, 3:1} stage 1; dvar int y in 0..3 stage 2; maximize expected(4*y - 3*x); subject to { y <= d; y <= x; } -> {"answer":"tree","den":"2","histories":[1,2],"scenarios":[{"seen":[["d",[],1]],"weight":"1"},{"seen":[["d",[],3]],"weight":"1"}]}
two stages: range T = 1..2; stoch int d[t in T] in {0:1, t:2} stage t; dvar int x in 0..1 stage 3; subject to { } -> {"answer":"tree","den":"9","histories":[1,2,4],"scenarios":[{"seen":[["d",[1],0],["d",[2],0]],"weight":"1"},{"seen":[["d",[1],0],["d",[2],2]],"weight":"2"},{"seen":[["d",[1],1],["d",[2],0]],"weight":"2"},{"seen":[["d",[1],1],["d",[2],2]],"weight":"4"}]}
no chance: subject to { } -> {"answer":"tree","den":"1","histories":[1],"scenarios":[{"seen":[],"weight":"1"}]}
"##;

/// The scenarios of a text are shown as its row says, and no log is written.
fn has_tree(rt: &impl Abort, alloc: Global, row: &TableRow<'_>) -> Result<(), AllocError> {
    let about = row.about;
    let ended = ran(alloc, "tree m", row.text)?;
    assert_eq!(rt; ended.status, Status::Done, "{about}");
    answers(rt, about, &ended, row.want);
    assert!(rt; ended.log.bytes().is_empty(), "{about}");
    Ok(())
}

#[test]
fn trees(rt: HostRuntime) -> Result<(), Fail> {
    for line in TREES.lines() {
        match row_in(line) {
            Some(row) => has_tree(&rt, rt.alloc(), &row)?,
            None => assert!(rt; line.is_empty(), "{line}"),
        }
    }
    Ok(())
}
