//! Runs that end with an answer, of each command.

use crate::runs::{ORDER, ORDER_ANSWER, ORDER_LOG, file};
use std::alloc::{AllocError, Global};

/// A run: its words, its model `m` and its second file `o`, which are empty where the words do not name them, its line, and its log,
/// which is empty where nothing is searched.
#[derive(Clone, Copy)]
pub(crate) struct WholeRun {
    pub(crate) words: &'static str,
    pub(crate) model: &'static str,
    pub(crate) other: &'static str,
    pub(crate) line: &'static str,
    pub(crate) log: &'static str,
}

/// The text that is drawn of one stage and the seed 1.
pub(crate) const FIRST: &str =
    "int n = 1;\nrange T = 1..n;\nint price[T] = [7];\nint cost[T] = [2];\nint low[T] = [1];\nint high[T] = [3];\nint weight[T] = [2];\ndvar int x[t in T] in 0..3 stage t;\nstoch int d[t in T] in {low[t]:1, high[t]:weight[t]} stage t;\nmaximize expected(sum(t in T) (price[t]*min(x[t], d[t]) - cost[t]*x[t]));\nsubject to {\n  forall(t in T) sum(s in 1..t) x[s] <= 2*t;\n  prob(sum(t in T) x[t] >= d[1]) >= 1/4;\n}\n";

/// The log of a search of that text.
const FIRST_LOG: &str =
    "sopl-log 1\nn 0 r\ns h 0 0 0 le 2\ns c 0 0 ge 1\nx 0 1\nn 1 0 l\nv\nn 2 0 h\nv\nend optimal 23\n";

/// Two runs that search, of `solve` without a name for the log and with one, and one that summarizes a search; all others search nothing.
pub(crate) const RUNS: &[WholeRun] = &[
    WholeRun {
        words: "solve m",
        model: ORDER,
        other: "",
        line: ORDER_ANSWER,
        log: ORDER_LOG,
    },
    WholeRun {
        words: "solve --log f m",
        model: ORDER,
        other: "",
        line: ORDER_ANSWER,
        log: ORDER_LOG,
    },
    WholeRun {
        words: "check m o",
        model: ORDER,
        other: ORDER_LOG,
        line: "{\"answer\":\"accepted\",\"claim\":\"optimal\",\"value\":\"2/2\"}\n",
        log: "",
    },
    WholeRun {
        words: "check m o",
        model: "range R = 1..3; dvar int x[R] in 1..2; subject to { allDifferent(all(i in R) x[i]); }",
        other: "sopl-log 1\nn 0 r\nf h 0 0\nend infeasible\n",
        line: "{\"answer\":\"accepted\",\"claim\":\"infeasible\"}\n",
        log: "",
    },
    WholeRun {
        words: "eval m o",
        model: "dvar int x in 0..5; stoch int d in {1:1, 2:1, 3:1}; minimize expected(x); subject to { prob(x >= d) >= 2/3; }",
        other: "{\"policy\":{\"decide\":[[\"x\",[],2]],\"next\":[]}}",
        line: "{\"answer\":\"satisfied\",\"chances\":[\"2/3\"],\"value\":\"6/3\"}\n",
        log: "",
    },
    WholeRun {
        words: "tree m",
        model: ORDER,
        other: "",
        line: "{\"answer\":\"tree\",\"den\":\"2\",\"histories\":[1,2],\"scenarios\":[{\"seen\":[[\"d\",[],1]],\"weight\":\"1\"},{\"seen\":[[\"d\",[],3]],\"weight\":\"1\"}]}\n",
        log: "",
    },
    WholeRun {
        words: "gen 1 1",
        model: "",
        other: "",
        line: FIRST,
        log: "",
    },
    WholeRun {
        words: "demo 1 1",
        model: "",
        other: "",
        line: "{\"answer\":\"summary\",\"cells\":1,\"result\":\"optimal\",\"scenarios\":2,\"value\":\"23/3\"}\n",
        log: FIRST_LOG,
    },
];

/// Both files of a run, by their names.
pub(crate) fn files_of(
    alloc: Global,
    whole: &WholeRun,
) -> Result<Vec<(String, Vec<u8>)>, AllocError> {
    let mut texts = Vec::new(alloc);
    for (name, text) in [("m", whole.model), ("o", whole.other)] {
        texts.push(file(alloc, name, text.as_bytes())?)?;
    }
    Ok(texts)
}
