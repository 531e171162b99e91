//! How many term nodes texts have.
//!
//! The nodes of each text were counted by hand. All but the last have 14 coins, so 16,384 scenarios, and a sum that has 256 nodes with its comparison: what stands
//! beside it passes the limit of 4,194,304 by 16,384 a node.

use crate::rows::parts;
use compile_counts::node_excess;
use scen_accept::stated_in;
use sopl_base::Fault;
use std::alloc::Global;
use std::process::Abort;
use std::test::Fail;

/// How many term nodes a text has, where these are too many.
fn counted_in(alloc: Global, text: &str) -> Result<Option<i128>, Fault> {
    let stated = stated_in(alloc, text.as_bytes())?;
    let conditions = stated.ground.conditions(alloc)?;
    match node_excess(alloc, &stated.ground, conditions.as_slice(), &stated.tree)? {
        None => Ok(None),
        Some(excess) => Ok(Some(excess.counted)),
    }
}

/// Texts, and their nodes where these are too many.
const TEXTS: &str = "\
as many as can be: range C = 1..14; stoch int c[C] in {0:1, 1:1}; subject to { sum(i in 1..253) i >= 0; } -> none
one more: range C = 1..14; stoch int c[C] in {0:1, 1:1}; subject to { sum(i in 1..254) i >= 0; } -> 4210688
nine more with a divisor: range C = 1..14; stoch int c[C] in {0:1, 1:1}; dvar int x in 0..1; subject to { sum(i in 1..253) i >= 0; x div (1 + 2 * 3) == 0; } -> 4341760
eleven more with binders in a divisor: range C = 1..14; stoch int c[C] in {0:1, 1:1}; dvar int x in 0..1; subject to { sum(i in 1..253) i >= 0; x mod (1 + sum(i in 1..4) i) == 0; } -> 4374528
six more in two instances: range C = 1..14; stoch int c[C] in {0:1, 1:1}; dvar int x in 0..1; subject to { sum(i in 1..253) i >= 0; forall(i in 1..2) x <= i; } -> 4292608
three more under a chance: range C = 1..14; stoch int c[C] in {0:1, 1:1}; dvar int x in 0..1; subject to { sum(i in 1..253) i >= 0; prob(x == 1) >= 1/2; } -> 4243456
four more in the objective: range C = 1..14; stoch int c[C] in {0:1, 1:1}; dvar int x in 0..1; maximize expected(x + c[1]); subject to { sum(i in 1..253) i >= 0; } -> 4259840
28 more with logic: range C = 1..14; stoch int c[C] in {0:1, 1:1}; dvar int x in 0..1; subject to { sum(i in 1..253) i >= 0; min(x, 1, 2) + abs(-x) - max(c[1], x) == 0 => !(x == 1 && c[2] <= 1 || x == 0); } -> 4653056
twelve more in `allDifferent`: range C = 1..14; stoch int c[C] in {0:1, 1:1}; dvar int x in 0..1; subject to { sum(i in 1..253) i >= 0; allDifferent(all(i in 1..3) (x + i)) == 1; } -> 4390912
fourteen more in `cumulative`: range C = 1..14; stoch int c[C] in {0:1, 1:1}; dvar int x in 0..1; subject to { sum(i in 1..253) i >= 0; cumulative(all(i in 1..2) (x + i, 2, 1), 1) == 1; } -> 4423680
21 more behind two binders: range C = 1..14; stoch int c[C] in {0:1, 1:1}; dvar int x in 0..1; subject to { sum(i in 1..253) i >= 0; sum(i in 1..3, j in i..3) (i * j) >= 0; } -> 4538368
as many as a text of one scenario has: dvar int x in 0..1; maximize expected(x); subject to { sum(i in 1..65536) i >= x; } -> none
";

/// A text has so many nodes.
fn gives(alloc: Global, rt: &impl Abort, word: &str, text: &str, want: &str) -> Result<(), Fail> {
    let found = counted_in(alloc, text)?;
    assert_eq!(rt; found, want.parse::<i128>().ok(), "{word}: {text}");
    Ok(())
}

#[test]
fn nodes_of_texts(rt: HostRuntime) -> Result<(), Fail> {
    for row in TEXTS.lines() {
        let (word, text, want) = parts(row);
        gives(rt.alloc(), &rt, word, text, want)?;
    }
    Ok(())
}
