//! Command lines, and how a run over them ends.

use crate::runs::{ORDER, WIDE, file, ran_branching, words_in};
use answer_run::Status;
use sopl_io::MemSource;
use std::alloc::{AllocError, Global};
use std::test::Fail;

/// A log of the ordering text that is not right, and a policy of it that satisfies.
const LOG: &str = "sopl-log 1\nn 0 r\nf h 0 0\nend infeasible\n";

const POLICY: &str =
    "{\"policy\":{\"decide\":[[\"x\",[],1]],\"next\":[{\"seen\":[[\"d\",[],1]],\"then\":{\"decide\":[[\"y\",[],1]],\"next\":[]}},{\"seen\":[[\"d\",[],3]],\"then\":{\"decide\":[[\"y\",[],1]],\"next\":[]}}]}}";

/// The exit status, and the words behind it: over the ordering text `m`, the log `l` and the policy `p`.
const LINES: &str = "\
2 solve
0 solve m
2 solve m m
2 solve m n
2 solve -m
2 solve -- m
2 Solve m
2 solves m
0 solve --budget 4294967295 m
0 solve --budget=0000007000 m
5 solve m --budget 1
5 solve --budget=1 m
2 solve --budget 0 m
2 solve --budget 4294967296 m
2 solve --budget 00000000003 m
2 solve --budget -3 m
2 solve --budget 3x m
2 solve --budget=+3 m
2 solve m --budget=
2 solve m --budget
2 solve --budget m
2 solve --budget=3 m --budget 4
2 solve --budgets 3 m
0 solve --log f m
0 solve m --log=a=b
2 solve m --log
2 solve m --log=
2 solve --log --budget 3 m
2 solve --log f m --log f
0 solve --branch lower m
0 solve --branch=widest m
0 solve m --branch failing
2 solve --branch nobody m
2 solve --branch Lower m
2 solve --branch= m
2 solve --branch lower m --branch lower
0 solve --seats 64 m
2 solve --seats 65 m
2 solve --seats 0 m
0 solve --seats=2 --order 1 m
0 solve --order=2147483647 m
2 solve --order 2147483648 m
0 solve --order 0 m --log f --seats 3 --branch widest --budget 5000
0 tree m
2 tree
2 tree m m
2 tree --budget 3 m
1 check m l
2 check m
2 check m l l
2 check --log l m
0 eval m p
2 eval m
2 eval m p p
2 eval --budget=3 m p
0 gen 1 1
0 gen 9 2147483647
0 gen 0009 0000000000
2 gen 0 1
2 gen 10 1
2 gen 9 2147483648
2 gen 00000000009 1
2 gen 1
2 gen 1 1 1
2 gen 1 -1
2 gen +1 1
2 gen 1 1 --budget 3
2 gen m 1
0 demo 1 1
0 demo --budget 4294967295 1 1
5 demo 2 7 --budget=1
2 demo 1 1 --budget=4294967296
2 demo 1 1 --budget 0
2 demo --branch lower 1 1
2 demo --log f 1 1
2 demo 10 1
2 demo 1
";

/// A source of the three files.
fn files(alloc: Global) -> Result<MemSource, AllocError> {
    let mut texts = Vec::new(alloc);
    for (name, text) in [("m", ORDER), ("l", LOG), ("p", POLICY)] {
        texts.push(file(alloc, name, text.as_bytes())?)?;
    }
    Ok(MemSource::new(texts, Vec::new(alloc)))
}

/// How a run with these words ends.
fn ended(alloc: Global, line: &str) -> Result<Status, AllocError> {
    let words = words_in(alloc, line)?;
    let mut source = files(alloc)?;
    let ended = ran_branching(alloc, &words, &mut source, &WIDE)?;
    Ok(ended.status)
}

#[test]
fn command_lines_end_so(rt: HostRuntime) -> Result<(), Fail> {
    for line in LINES.lines() {
        let (code, words) = line.split_once(" ").unwrap_or(("", ""));
        let status = ended(rt.alloc(), words)?;
        let digit = code.as_bytes().first().copied().unwrap_or(0);
        assert_eq!(rt; status.code(), digit.wrapping_sub(b'0'), "{line}");
    }
    Ok(())
}
