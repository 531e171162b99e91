//! What texts give by the rules on names and kinds: their first mistake, or none.
//!
//! The place of each mistake was marked by hand in its text.

use crate::rows::parts;
use crate::sopl_unfold_texts::refused;
use scen_accept::typed_in;
use sopl_base::Fault;
use std::alloc::Global;
use std::process::Abort;
use std::test::Fail;

/// What a text gives: `well typed`, or its refusal as its code and its place.
fn answer(alloc: Global, text: &str) -> Result<String, Fault> {
    match typed_in(alloc, text.as_bytes()) {
        Ok(_) => Ok(String::from_str(alloc, "well typed")?),
        Err(fault) => refused(alloc, &fault),
    }
}

/// Texts, and what they give.
const TEXTS: &str = "\
unknown in a constraint: subject to { z <= 1; } -> 105 at 13
unknown on the right side: subject to { 1 <= z; } -> 105 at 18
unknown with an index: subject to { z[1] == 1; } -> 105 at 13
unknown in the objective: maximize expected(z); subject to { } -> 105 at 18
unknown as an end of a domain: dvar int x in 0..n; subject to { } -> 105 at 17
unknown as a domain: dvar int x in R; subject to { } -> 105 at 14
unknown as a dimension: dvar int x[R] in 0..1; subject to { } -> 105 at 11
unknown as its own value: int n = n; subject to { } -> 105 at 8
unknown in an element: int a[i in 1..2] = j; subject to { } -> 105 at 19
unknown in another dimension than its own: int a[i in 1..2][j in 1..i] = 0; subject to { } -> 105 at 25
unknown before its declaration: int n = m; int m = 1; subject to { } -> 105 at 8
unknown behind its constraint: subject to { forall(i in 1..2) i == 1; i == 1; } -> 105 at 39
unknown before its binder: subject to { forall(i in 1..j, j in 1..2) i == j; } -> 105 at 28
unknown behind its sum: subject to { sum(i in 1..2) i + i == 3; } -> 105 at 32
unknown in a capacity: subject to { cumulative(all(i in 1..2) (i, 1, 1), i); } -> 105 at 50
unknown as a weight: stoch int d in {1:w}; subject to { } -> 105 at 18
unknown as a stage: stoch int d in {1:1} stage k; subject to { } -> 105 at 27
unknown in a set: {int} S = {1, b}; subject to { } -> 105 at 14
unknown as an end of a range: range R = 1..b; subject to { } -> 105 at 13
unknown in a threshold: subject to { prob(1 == 1) >= p/2; } -> 105 at 29
unknown under `prob`: subject to { prob(x == 1) >= 1/2; } -> 105 at 18
unknown as the range of `all`: subject to { allDifferent(all(i in R) i); } -> 105 at 35
unknown as a divisor: subject to { 4 div k == 2; } -> 105 at 19
a constant twice: int n = 1; int n = 2; subject to { } -> 106 at 15
a decision named as a range: range n = 1..2; dvar int n in 0..1; subject to { } -> 106 at 25
a stochastic variable named as a decision: dvar int x in 0..1; stoch int x in {1:1}; subject to { } -> 106 at 30
a set named as a decision: dvar int x in 0..1; {int} x = {1}; subject to { } -> 106 at 26
a binder named as a constant: int i = 1; subject to { forall(i in 1..2) 1 == 1; } -> 106 at 31
a binder twice: subject to { forall(i in 1..2, i in 1..2) 1 == 1; } -> 106 at 31
a sum's binder named as that of `forall`: subject to { forall(i in 1..2) sum(i in 1..2) 1 == 1; } -> 106 at 35
a dimension's binder named as a constant: int n = 1; int a[n in 1..2] = 0; subject to { } -> 106 at 17
a dimension's binder twice: int a[i in 1..2][i in 1..2] = 0; subject to { } -> 106 at 17
a dimension's binder twice in decisions: dvar int x[i in 1..2][i in 1..2] in 0..1; subject to { } -> 106 at 22
a sum's binder named as that of a dimension: int a[i in 1..2] = sum(i in 1..2) 1; subject to { } -> 106 at 23
an inner binder of `forall` named as the outer one: subject to { forall(i in 1..2) { forall(i in 1..2) 1 == 1; } } -> 106 at 40
a binder named as its array: int a[a in 1..2] = a; subject to { } -> well typed
one binder in two constraints: subject to { forall(i in 1..2) 1 == 1; forall(i in 1..2) 1 == 1; } -> well typed
one binder of tasks and in their capacity: subject to { cumulative(all(i in 1..2) (i, 1, 1), sum(i in 1..2) i); } -> well typed
one binder in two declarations: int a[i in 1..2] = i; int b[i in 1..2] = i; subject to { } -> well typed
a number as a constraint: subject to { 5; } -> 107 at 13
a decision as a constraint: dvar int x in 0..1; subject to { x; } -> 107 at 33
a sum as a constraint: dvar int x in 0..1; subject to { x + 1; } -> 107 at 33
a decision in parentheses as a constraint: dvar int x in 0..1; subject to { (x); } -> 107 at 33
a minus as a constraint: dvar int x in 0..1; subject to { -x; } -> 107 at 33
a number under `prob`: subject to { prob(1) >= 1/2; } -> 107 at 18
not of a number: subject to { !1; } -> 107 at 14
a number before and: subject to { 1 && 1 == 1; } -> 107 at 13
a number behind or: subject to { 1 == 1 || 2; } -> 107 at 23
a number as a premise: subject to { 1 => 1 == 1; } -> 107 at 13
a number as a conclusion: subject to { 1 == 1 => 2; } -> 107 at 23
a sum over a range as a constraint: subject to { sum(i in 1..2) (i == 1); } -> 107 at 13
a size as a constraint: subject to { abs(1); } -> 107 at 13
a range as a number: range R = 1..2; subject to { R == 1; } -> 107 at 29
an index of a range: range R = 1..2; subject to { R[1] == 1; } -> 107 at 29
a set as a number: {int} S = {1}; subject to { 1 <= S; } -> 107 at 33
a constant as a domain: int n = 1; dvar int x in n; subject to { } -> 107 at 25
a decision as a binder's range: dvar int y in 0..1; subject to { forall(i in y) 1 == 1; } -> 107 at 45
a stochastic variable as a dimension: stoch int d in {1:1}; int a[d] = 0; subject to { } -> 107 at 28
a set as a domain: {int} S = {1, 3}; dvar int x in S; subject to { } -> 107 at 32
a set as a domain behind a dimension: {int} S = {1, 3}; dvar int x[S] in S; subject to { } -> 107 at 35
a binder as a binder's range: subject to { forall(i in 1..2, j in i) 1 == 1; } -> 107 at 36
a comparison as a term: subject to { (1 == 1) + 1 == 2; } -> well typed
a comparison in parentheses as a constraint: subject to { (1 == 1); } -> well typed
a comparison as a factor in the objective: maximize expected((1 == 1) * 2); subject to { } -> well typed
a set as a dimension and as a binder's range: {int} S = {1, 3}; dvar int x[S] in 0..1; subject to { forall(i in S) x[i] == 1; } -> well typed
a range as a domain and as a binder's range: range R = 1..2; dvar int x in R; subject to { sum(i in R) i == 3; } -> well typed
a comparison as a constant: int n = 1 == 1; subject to { } -> well typed
an array without an index: range R = 1..2; int a[R] = [5, 7]; subject to { a == 5; } -> 108 at 48
an index too many: range R = 1..2; int a[R] = [5, 7]; subject to { a[1][1] == 5; } -> 108 at 48
an index of a constant: int n = 1; subject to { n[1] == 1; } -> 108 at 24
decisions without an index: dvar int x[1..2] in 0..1; subject to { x == 1; } -> 108 at 39
an index too many on the right side: stoch int d[1..2] in {1:1}; subject to { 1 == d[1][2]; } -> 108 at 46
an index of a binder: subject to { forall(i in 1..2) i[1] == 1; } -> 108 at 31
a list too deep: int a[1..2] = [[1], [2]]; subject to { } -> 108 at 16
a list not deep enough: int a[1..2][1..2] = [1, 2]; subject to { } -> 108 at 21
a list as a constant: int n = [1]; subject to { } -> 108 at 9
an empty list as a constant: int n = []; subject to { } -> 108 at 8
an empty list as an element: int a[1..2] = [[], 1]; subject to { } -> 108 at 15
a number in place of a list: int a[1..2][1..2] = [[1, 2], 3]; subject to { } -> 108 at 29
an empty list of one dimension: int a[1..2] = []; subject to { } -> well typed
an empty list of two dimensions: int a[1..2][1..2] = []; subject to { } -> well typed
empty lists in a list: int a[1..2][1..2] = [[], []]; subject to { } -> well typed
a number for two dimensions: int a[1..2][1..2] = 5; subject to { } -> well typed
lists in a list: int a[1..2][1..2] = [[1, 2], [3, 4]]; subject to { } -> well typed
a decision as a constant: dvar int x in 0..1; int n = x; subject to { } -> 109 at 28
a stochastic variable in a constant: stoch int d in {1:1}; int n = 1 + d; subject to { } -> 109 at 34
a decision as an end of a range: dvar int x in 0..1; range R = 0..x; subject to { } -> 109 at 33
a decision in a set: dvar int x in 0..1; {int} S = {1, x}; subject to { } -> 109 at 34
a decision as an end of a domain: dvar int x in 0..1; dvar int y in x..1; subject to { } -> 109 at 34
a decision as an end of a dimension: dvar int x in 0..1; int a[0..x] = 0; subject to { } -> 109 at 29
a decision as an outcome: dvar int x in 0..1; stoch int d in {x:1}; subject to { } -> 109 at 36
a decision as a weight: dvar int x in 0..1; stoch int d in {1:x}; subject to { } -> 109 at 38
a decision as a stage: dvar int x in 0..1; dvar int y in 0..1 stage x; subject to { } -> 109 at 45
a decision as an end of a binder: dvar int x in 0..1; subject to { forall(i in 0..x) 1 == 1; } -> 109 at 48
a decision as an end of a sum's binder: dvar int x in 0..1; subject to { sum(i in x..1) i == 1; } -> 109 at 42
a decision as a numerator: dvar int x in 0..1; subject to { prob(1 == 1) >= x/2; } -> 109 at 49
a decision as a denominator: dvar int x in 0..1; subject to { prob(1 == 1) >= 1/x; } -> 109 at 51
a decision as a divisor: dvar int x in 0..1; subject to { 4 div x == 1; } -> 109 at 39
a decision in a modulus: dvar int x in 0..1; subject to { 4 mod (1 + x) == 1; } -> 109 at 44
an index of a decision as a constant: dvar int x[1..2] in 0..1; int n = x[1]; subject to { } -> 109 at 34
a decision as a divisor in a constant: dvar int x in 0..1; int n = (2 * 3 div x) + 1; subject to { } -> 109 at 39
decisions that are divided: dvar int x in 0..1; subject to { x div 2 == x mod 3; } -> well typed
a constant divisor between decisions: dvar int x in 0..1; subject to { 2 * x div 3 * x == 1; } -> well typed
a decision as an index: range R = 1..2; int a[R] = [5, 7]; dvar int x in R; subject to { a[x] == 5; } -> well typed
decisions without an index in a constant: dvar int x[1..2] in 0..1; int n = x; subject to { } -> 108 at 34
unknown before a decision in a constant: dvar int y in 0..1; int n = z + y; subject to { } -> 105 at 28
unknown before a number as a constraint: subject to { z + 1 == y; 5; } -> 105 at 13
unknown within a number as a constraint: subject to { x + z; } -> 105 at 13
unknown before a constant twice: int n = m; int n = 2; subject to { 5; } -> 105 at 8
a constant twice before what is unknown: int n = 1; int n = m; subject to { } -> 106 at 15
";

/// A text gives what stands beside it.
fn gives(alloc: Global, rt: &impl Abort, word: &str, text: &str, want: &str) -> Result<(), Fail> {
    let given = answer(alloc, text)?;
    assert_eq!(rt; given.as_str(), want, "{word}: {text}");
    Ok(())
}

#[test]
fn first_mistakes(rt: HostRuntime) -> Result<(), Fail> {
    for row in TEXTS.lines() {
        let (word, text, want) = parts(row);
        gives(rt.alloc(), &rt, word, text, want)?;
    }
    Ok(())
}
