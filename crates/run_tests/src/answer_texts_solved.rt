//! Tables of texts and their answers, and of texts and what their logs claim. A row begins with what it is about.

use crate::runs::{TableRow, answers, ran, row_in};
use answer_run::Status;
use std::alloc::{AllocError, Global};
use std::process::Abort;
use std::test::Fail;

/// Texts that are solved, each with the line on which `solve` ends.
const SOLVED: &str = r##"
a decision before the chance that it must meet: dvar int x in 0..5 stage 1; stoch int d in {1:1, 3:1} stage 1; maximize expected(x); subject to { x == d; } -> {"answer":"infeasible"}
a decision behind the chance that it must meet: dvar int x in 0..5 stage 2; stoch int d in {1:1, 3:1} stage 1; maximize expected(x); subject to { x == d; } -> {"answer":"optimal","policy":{"decide":[],"next":[{"seen":[["d",[],1]],"then":{"decide":[["x",[],1]],"next":[]}},{"seen":[["d",[],3]],"then":{"decide":[["x",[],3]],"next":[]}}]},"value":"4/2"}
a bound that is no multiple: dvar int x in 0..9; maximize expected(x); subject to { 3*x <= 20; } -> {"answer":"optimal","policy":{"decide":[["x",[],6]],"next":[]},"value":"6/1"}
no variable and no objective: subject to { } -> {"answer":"optimal","policy":{"decide":[],"next":[]},"value":"0/1"}
a threshold of 0: subject to { prob(1 == 2) >= 0/1; } -> {"answer":"optimal","policy":{"decide":[],"next":[]},"value":"0/1"}
a threshold of 1: subject to { prob(1 == 2) >= 1/1; } -> {"answer":"infeasible"}
the least worst value: dvar int x in 0..1; minimize worst(x); subject to { } -> {"answer":"optimal","policy":{"decide":[["x",[],0]],"next":[]},"value":"0/1"}
a sign before a decision: dvar int x in 0..1; maximize expected(-x); subject to { } -> {"answer":"optimal","policy":{"decide":[["x",[],0]],"next":[]},"value":"0/1"}
brackets: dvar int x in 0..1; maximize expected(0 - (1*x)); subject to { (x >= (1)); } -> {"answer":"optimal","policy":{"decide":[["x",[],1]],"next":[]},"value":"-1/1"}
a threshold above a half: dvar int x in 0..5; stoch int d in {1:1, 3:1}; minimize expected(x); subject to { prob(x >= d) >= 501/1000; } -> {"answer":"optimal","policy":{"decide":[["x",[],3]],"next":[]},"value":"6/2"}
an element at an element, which one scenario lacks, in no equality: range R = 1..2; int a[R] = [5, 7]; int b[R] = [1, 2]; stoch int d in {1:1, 3:1}; dvar int x in 0..1; maximize expected(x); subject to { !(a[b[d]] == 7); } -> {"answer":"optimal","policy":{"decide":[["x",[],1]],"next":[]},"value":"2/2"}
an objective that one scenario leaves undefined: range R = 1..2; int a[R] = [5, 7]; stoch int d in {1:1, 3:1}; dvar int x in 0..1; maximize expected(x + a[d]); subject to { } -> {"answer":"infeasible"}
a range with no number: range R = 2..1; dvar int x[R] in 0..1; dvar int y in 1..2; minimize expected(y + sum(i in R) x[i]); subject to { forall(i in R) x[i] == 1; } -> {"answer":"optimal","policy":{"decide":[["y",[],1]],"next":[]},"value":"1/1"}
products of decisions and of chance: stoch int d in {1:1, 3:1}; dvar int x in 0..9; maximize expected(x*d - x*x); subject to { } -> {"answer":"optimal","policy":{"decide":[["x",[],1]],"next":[]},"value":"2/2"}
a remainder and a quotient: dvar int x in 0..40; maximize expected(x); subject to { x mod 7 == 5; x div 12 == 2; } -> {"answer":"optimal","policy":{"decide":[["x",[],33]],"next":[]},"value":"33/1"}
a size and weights: stoch int d in {1:1, 2:3, 6:1}; dvar int x in 0..9; maximize expected(-abs(x - d)); subject to { } -> {"answer":"optimal","policy":{"decide":[["x",[],2]],"next":[]},"value":"-5/5"}
the least and the greatest of two: stoch int d in {1:1, 3:1}; dvar int x in 0..5; maximize expected(4*min(x, d) - max(x, 2)); subject to { } -> {"answer":"optimal","policy":{"decide":[["x",[],3]],"next":[]},"value":"10/2"}
a sum over an array: range R = 1..3; int price[R] = [4, 6, 5]; dvar int x[R] in 0..2; maximize expected(sum(i in R) price[i]*x[i]); subject to { sum(i in R) x[i] <= 4; } -> {"answer":"optimal","policy":{"decide":[["x",[1],0],["x",[2],2],["x",[3],2]],"next":[]},"value":"22/1"}
a set out of order: {int} S = {2, 5, 3}; int square[i in S] = i*i; dvar int x[S] in 0..1; maximize expected(sum(i in S) square[i]*x[i]); subject to { sum(i in S) i*x[i] <= 7; } -> {"answer":"optimal","policy":{"decide":[["x",[2],1],["x",[3],0],["x",[5],1]],"next":[]},"value":"29/1"}
a stage and a domain for each index: range R = 1..2; stoch int d in {1:1, 2:1} stage 1; dvar int x[i in R] in 0..i stage i; maximize expected(x[1]*d + x[2]); subject to { x[1] + x[2] <= d; } -> {"answer":"optimal","policy":{"decide":[["x",[1],1]],"next":[{"seen":[["d",[],1]],"then":{"decide":[["x",[2],0]],"next":[]}},{"seen":[["d",[],2]],"then":{"decide":[["x",[2],1]],"next":[]}}]},"value":"4/2"}
a distribution and a stage for each index: range T = 1..2; stoch int d[t in T] in {0:2, t:1} stage t; dvar int x in 0..3 stage 2; minimize expected(abs(x - d[1] - d[2])); subject to { } -> {"answer":"optimal","policy":{"decide":[],"next":[{"seen":[["d",[1],0]],"then":{"decide":[["x",[],0]],"next":[]}},{"seen":[["d",[1],1]],"then":{"decide":[["x",[],1]],"next":[]}}]},"value":"6/9"}
the worst value of an element by chance: range R = 1..2; int a[R] = [5, 7]; stoch int d in {1:1, 2:3}; dvar int x in 0..9; minimize worst(abs(x - a[d])); subject to { } -> {"answer":"optimal","policy":{"decide":[["x",[],6]],"next":[]},"value":"1/1"}
an equality that one scenario leaves undefined, under a negation: range R = 1..2; int a[R] = [5, 7]; stoch int d in {1:1, 3:1}; dvar int x in 0..1; maximize expected(x); subject to { !(a[d] == 7); } -> {"answer":"optimal","policy":{"decide":[["x",[],1]],"next":[]},"value":"2/2"}
a condition as a number: stoch int d in {1:1, 3:1}; dvar int x in 0..5; maximize expected(3*(x >= d) - x); subject to { } -> {"answer":"optimal","policy":{"decide":[["x",[],1]],"next":[]},"value":"1/2"}
both conditions or another one: dvar int x in 0..9; dvar int y in 0..9; maximize expected(x + y); subject to { x < 3 && y < 5 || x + y < 6; } -> {"answer":"optimal","policy":{"decide":[["x",[],2],["y",[],4]],"next":[]},"value":"6/1"}
an implication and a negation: dvar int x in 0..9; dvar int y in 0..9; maximize expected(3*x + y); subject to { x > 4 => y < 2; !x == 9; } -> {"answer":"optimal","policy":{"decide":[["x",[],8],["y",[],1]],"next":[]},"value":"25/1"}
two binders: range R = 1..3; dvar int x[R] in 0..2; maximize expected(sum(i in R) i*x[i]); subject to { forall(i in R, j in R) (i < j => x[i] != x[j]); } -> {"answer":"optimal","policy":{"decide":[["x",[1],0],["x",[2],1],["x",[3],2]],"next":[]},"value":"8/1"}
groups in one another: range R = 1..2; dvar int x[R] in 0..9; maximize expected(x[1] + x[2]); subject to { { x[1] <= 4; forall(i in R) { x[i] <= 3*i; x[i] mod 2 == 0; } } } -> {"answer":"optimal","policy":{"decide":[["x",[1],2],["x",[2],6]],"next":[]},"value":"8/1"}
a threshold that is just met: dvar int x in 0..5; stoch int d in {1:1, 2:1, 3:1}; minimize expected(x); subject to { prob(x >= d) >= 2/3; } -> {"answer":"optimal","policy":{"decide":[["x",[],2]],"next":[]},"value":"6/3"}
a chance constraint for each index: range R = 1..2; stoch int d in {1:2, 4:1}; dvar int x in 0..9; minimize expected(x); subject to { forall(i in R) prob(x >= i*d) >= 1/i; } -> {"answer":"optimal","policy":{"decide":[["x",[],4]],"next":[]},"value":"12/3"}
the worst distance: dvar int x in 0..5; stoch int d in {1:1, 3:1}; minimize worst(abs(x - d)); subject to { } -> {"answer":"optimal","policy":{"decide":[["x",[],2]],"next":[]},"value":"1/1"}
the worst distance over two stages: dvar int x in 0..5 stage 1; stoch int d in {1:1, 3:1} stage 1; dvar int y in 0..3 stage 2; minimize worst(abs(3*d - 2*y - x)); subject to { } -> {"answer":"optimal","policy":{"decide":[["x",[],3]],"next":[{"seen":[["d",[],1]],"then":{"decide":[["y",[],0]],"next":[]}},{"seen":[["d",[],3]],"then":{"decide":[["y",[],3]],"next":[]}}]},"value":"0/1"}
no objective, behind the chance: dvar int x in 0..5 stage 2; stoch int d in {1:1, 3:1} stage 1; subject to { x == d; } -> {"answer":"optimal","policy":{"decide":[],"next":[{"seen":[["d",[],1]],"then":{"decide":[["x",[],1]],"next":[]}},{"seen":[["d",[],3]],"then":{"decide":[["x",[],3]],"next":[]}}]},"value":"0/1"}
no objective, before the chance: dvar int x in 0..5 stage 1; stoch int d in {1:1, 3:1} stage 1; subject to { x == d; } -> {"answer":"infeasible"}
a sum of nothing but negative terms: subject to { sum(i in 1..2) - i >= 0; } -> {"answer":"infeasible"}
"##;

/// Texts with elements at indices in which decisions stand, each with the line on which `solve` ends, worked by hand: in the objective,
/// in hard and chance constraints, nested, of several dimensions, of a set with gaps, and at indices that may lie outside or always do.
const ELEMENTS: &str = r##"
in the objective: range R = 1..3; int price[R] = [4, 9, 6]; dvar int x in 1..3; maximize expected(price[x]); subject to { } -> {"answer":"optimal","policy":{"decide":[["x",[],2]],"next":[]},"value":"9/1"}
in a hard constraint: range R = 1..3; int a[R] = [5, 7, 5]; dvar int x in R; maximize expected(x); subject to { a[x] == 5; } -> {"answer":"optimal","policy":{"decide":[["x",[],3]],"next":[]},"value":"3/1"}
an index that the array bounds: range R = 1..3; int a[R] = [5, 8, 6]; dvar int x in 0..9; maximize expected(x + a[x]); subject to { } -> {"answer":"optimal","policy":{"decide":[["x",[],2]],"next":[]},"value":"10/1"}
no equality, at an index that may lie outside: range R = 1..2; int a[R] = [5, 7]; dvar int x in 0..4; maximize expected(x); subject to { !(a[x] == 7); } -> {"answer":"optimal","policy":{"decide":[["x",[],4]],"next":[]},"value":"4/1"}
an inequality, at an index that may lie outside: range R = 1..2; int a[R] = [5, 7]; dvar int x in 0..4; maximize expected(x); subject to { a[x] != 7; } -> {"answer":"optimal","policy":{"decide":[["x",[],1]],"next":[]},"value":"1/1"}
no comparison, at an index that always lies outside: range R = 1..2; int a[R] = [5, 7]; dvar int x in 3..4; minimize expected(x); subject to { !(a[x] <= 9); } -> {"answer":"optimal","policy":{"decide":[["x",[],3]],"next":[]},"value":"3/1"}
a comparison, at an index that always lies outside: range R = 1..2; int a[R] = [5, 7]; dvar int x in 3..4; subject to { a[x] <= 9; } -> {"answer":"infeasible"}
an element as an index: range R = 1..3; int a[R] = [2, 3, 1]; dvar int x in R; maximize expected(10*a[a[x]] + x); subject to { } -> {"answer":"optimal","policy":{"decide":[["x",[],1]],"next":[]},"value":"31/1"}
a decision as an index of decisions: range R = 1..3; dvar int x[R] in R; maximize expected(x[x[1]] + 10*x[1]); subject to { x[1] != x[3]; x[1] + x[2] + x[3] == 6; } -> {"answer":"optimal","policy":{"decide":[["x",[1],3],["x",[2],1],["x",[3],2]],"next":[]},"value":"32/1"}
three dimensions: range A = 1..3; range B = 4..4; range C = 0..1; int a[i in A][j in B][k in C] = 10*i + j*k; dvar int x in 0..4; dvar int y in 3..5; dvar int z in 0..1; maximize expected(a[x][y][z]); subject to { a[x][y][z] <= 25; } -> {"answer":"optimal","policy":{"decide":[["x",[],2],["y",[],4],["z",[],1]],"next":[]},"value":"24/1"}
a set with gaps: {int} S = {2, 5, 9}; int a[i in S] = i*i; dvar int x in 0..9; maximize expected(a[x] - 20*x); subject to { } -> {"answer":"optimal","policy":{"decide":[["x",[],2]],"next":[]},"value":"-36/1"}
no equality, at an index that may lie in a gap: {int} S = {1, 3}; int a[i in S] = 1; dvar int x in 1..3; minimize expected(x); subject to { !(a[x] == 1); } -> {"answer":"optimal","policy":{"decide":[["x",[],2]],"next":[]},"value":"2/1"}
in a chance constraint: range R = 1..2; int a[R] = [1, 3]; stoch int d in {1:1, 3:2}; dvar int x in 0..2; minimize expected(x); subject to { prob(a[x] >= d) >= 2/3; } -> {"answer":"optimal","policy":{"decide":[["x",[],2]],"next":[]},"value":"6/3"}
an index of decisions and of chance, in a chance constraint: range R = 1..2; int a[R] = [1, 1]; stoch int d in {0:1, 1:1}; dvar int x in 1..2; maximize expected(x); subject to { prob(a[x + d] == 1) >= 1/2; } -> {"answer":"optimal","policy":{"decide":[["x",[],2]],"next":[]},"value":"4/2"}
chance at an index that is decided: range R = 1..2; stoch int d[i in R] in {i:1, 4:1}; dvar int x in R; minimize expected(d[x]); subject to { } -> {"answer":"optimal","policy":{"decide":[["x",[],1]],"next":[]},"value":"10/4"}
an index that is decided behind the chance: range R = 0..2; stoch int d in {0:1, 1:1} stage 1; dvar int y in 0..1 stage 2; int a[R] = [7, 2, 9]; minimize expected(a[d + y]); subject to { } -> {"answer":"optimal","policy":{"decide":[],"next":[{"seen":[["d",[],0]],"then":{"decide":[["y",[],1]],"next":[]}},{"seen":[["d",[],1]],"then":{"decide":[["y",[],0]],"next":[]}}]},"value":"4/2"}
in the worst value: range R = 1..3; int a[R] = [9, 4, 6]; stoch int d in {1:1, 2:1}; dvar int x in 1..2; minimize worst(a[x + d] + a[x]); subject to { } -> {"answer":"optimal","policy":{"decide":[["x",[],1]],"next":[]},"value":"15/1"}
in a remainder and a size: range R = 1..4; int a[R] = [3, 8, 12, 5]; dvar int x in R; maximize expected(min(a[x] mod 5, abs(6 - a[x]))); subject to { } -> {"answer":"optimal","policy":{"decide":[["x",[],1]],"next":[]},"value":"3/1"}
an element that goes out against itself: range R = 1..2; int a[R] = [5, 7]; dvar int x in 0..3; maximize expected(x + a[x] - a[x]); subject to { } -> {"answer":"optimal","policy":{"decide":[["x",[],2]],"next":[]},"value":"2/1"}
an array with no element: range N = 1..0; int a[N] = 5; dvar int x in 0..1; maximize expected(x); subject to { !(a[x] == 5); } -> {"answer":"optimal","policy":{"decide":[["x",[],1]],"next":[]},"value":"1/1"}
a condition as an index: range R = 0..1; int a[R] = [4, 8]; dvar int x in 0..5; maximize expected(a[x >= 3] - x); subject to { } -> {"answer":"optimal","policy":{"decide":[["x",[],3]],"next":[]},"value":"5/1"}
an implication, at an index that may lie outside: range R = 1..2; int a[R] = [5, 7]; dvar int x in 0..3; dvar int y in 0..1; maximize expected(10*x + y); subject to { a[x] == 7 => y == 0; } -> {"answer":"optimal","policy":{"decide":[["x",[],3],["y",[],1]],"next":[]},"value":"31/1"}
an element as an index that always lies outside: range R = 1..2; int a[R] = [3, 4]; dvar int x in R; subject to { a[a[x]] >= 0; } -> {"answer":"infeasible"}
"##;

/// Texts with `allDifferent` and `cumulative`, each with the line on which `solve` ends, worked by hand: as constraints and as numbers,
/// under `!`, in chance constraints, in one another, of no term, of terms that are never or perhaps defined or that share a decision, of
/// tasks whose starts, lengths, demands and capacity are decided, of lengths that may be negative or 0, and in constant places.
const GLOBALS: &str = r##"
three terms over two numbers: range R = 1..3; dvar int x[R] in 1..2; subject to { allDifferent(all(i in R) x[i]); } -> {"answer":"infeasible"}
an order of three terms: range R = 1..3; dvar int x[R] in 1..3; maximize expected(x[1] - x[3]); subject to { allDifferent(all(i in R) x[i]); } -> {"answer":"optimal","policy":{"decide":[["x",[1],3],["x",[2],2],["x",[3],1]],"next":[]},"value":"2/1"}
two tasks, one behind the other: range R = 1..2; dvar int s[R] in 0..3; minimize expected(max(s[1] + 2, s[2] + 2)); subject to { cumulative(all(i in R) (s[i], 2, 1), 1); s[1] <= s[2]; } -> {"answer":"optimal","policy":{"decide":[["s",[1],0],["s",[2],2]],"next":[]},"value":"4/1"}
two windows that leave one number: range R = 1..3; dvar int x[R] in 1..3; subject to { allDifferent(all(i in R) x[i]); x[1] <= 2; x[2] <= 2; } -> {"answer":"optimal","policy":{"decide":[["x",[1],1],["x",[2],2],["x",[3],3]],"next":[]},"value":"0/1"}
lengths of an array: range R = 1..2; int length[R] = [2, 3]; dvar int start[R] in 0..4; minimize worst(start[1] + 2*start[2]); subject to { cumulative(all(i in R) (start[i], length[i], 1), 1); } -> {"answer":"optimal","policy":{"decide":[["start",[1],3],["start",[2],0]],"next":[]},"value":"3/1"}
an equality that never holds beside allDifferent in the objective: range R = 1..2; int a[R] = [5, 7]; dvar int x in 1..2; maximize expected(a[x] + allDifferent(all(i in R) a[x])); subject to { 1 == 2; } -> {"answer":"infeasible"}
two tasks that start together: range R = 1..2; int a[R] = [5, 7]; dvar int x in 1..2; subject to { cumulative(all(i in R) (a[x], 1, 1), 1); } -> {"answer":"infeasible"}
no term, no task and no length: range R = 1..3; range E = 1..0; dvar int x[R] in 0..4; dvar int c in -1..1; minimize expected(x[1] + 10*x[2] + 100*x[3] + 1000*(c + 1)); subject to { allDifferent(all(i in R) x[i]); allDifferent(all(i in E) x[i]); cumulative(all(i in E) (x[i], 1, 1), c); !allDifferent(all(i in 1..2) (2*x[1] + 0*i)); cumulative(all(i in R) (x[i], 0, 9), 0); x[2] >= allDifferent(all(i in R) x[i]); } -> {"answer":"optimal","policy":{"decide":[["x",[1],2],["x",[2],1],["x",[3],0],["c",[],0]],"next":[]},"value":"1012/1"}
a term that is never defined: range N = 1..0; int a[N] = 5; dvar int x in 0..1; minimize expected(x + 10*allDifferent(all(i in 1..1) a[x])); subject to { !allDifferent(all(i in 1..1) a[x]); } -> {"answer":"optimal","policy":{"decide":[["x",[],0]],"next":[]},"value":"0/1"}
one term that is perhaps defined: range R = 1..1; int a[R] = [1]; dvar int x in 0..1; minimize expected(x); subject to { allDifferent(all(i in R) a[x]); } -> {"answer":"optimal","policy":{"decide":[["x",[],1]],"next":[]},"value":"1/1"}
a length that may be negative: dvar int s in 0..1; dvar int l in -1..1; minimize expected(l + s); subject to { cumulative(all(i in 1..2) (s, l, 1), 1); } -> {"answer":"optimal","policy":{"decide":[["s",[],0],["l",[],0]],"next":[]},"value":"0/1"}
a length that may be negative, under a negation: dvar int s in 0..1; dvar int l in -1..1; maximize expected(l - s); subject to { !cumulative(all(i in 1..2) (s, l, i - 1), 1); } -> {"answer":"optimal","policy":{"decide":[["s",[],0],["l",[],-1]],"next":[]},"value":"-1/1"}
starts, lengths and demands that are decided: range R = 1..2; dvar int s[R] in 0..2; dvar int l in 0..3; dvar int u in 0..2; maximize expected(10*l + 3*u - s[1] - 2*s[2]); subject to { cumulative(all(i in R) (s[i], l, u), 2); } -> {"answer":"optimal","policy":{"decide":[["s",[1],0],["s",[2],0],["l",[],3],["u",[],1]],"next":[]},"value":"33/1"}
one constant twice: subject to { allDifferent(all(i in 1..2) 7); } -> {"answer":"infeasible"}
one element twice: range R = 1..2; int a[R] = [5, 7]; dvar int x in R; subject to { allDifferent(all(i in R) a[x]); } -> {"answer":"infeasible"}
multiples of one element: range R = 1..2; int a[R] = [5, 7]; dvar int x in 0..2; minimize expected(x); subject to { allDifferent(all(i in R) i*a[x]); } -> {"answer":"optimal","policy":{"decide":[["x",[],1]],"next":[]},"value":"1/1"}
terms that share a decision: range R = 1..3; dvar int x[R] in 0..2; minimize expected(100*x[1] + 10*x[2] + x[3]); subject to { allDifferent(all(i in R) x[i] + x[1]); } -> {"answer":"optimal","policy":{"decide":[["x",[1],0],["x",[2],1],["x",[3],2]],"next":[]},"value":"12/1"}
terms of one decision each: dvar int x in 0..2; dvar int y in 1..5; maximize expected(2*x - y); subject to { allDifferent(all(i in 1..2) (2 - i)*2*x + (i - 1)*(5 - y)); } -> {"answer":"optimal","policy":{"decide":[["x",[],2],["y",[],2]],"next":[]},"value":"2/1"}
a capacity that is perhaps defined: range R = 1..2; int a[R] = [5, 7]; dvar int x in 0..3; maximize expected(x); subject to { cumulative(all(i in 1..1) (1, 1, 1), a[x] - 5); } -> {"answer":"optimal","policy":{"decide":[["x",[],2]],"next":[]},"value":"2/1"}
in chance constraints: stoch int d in {1:1, 2:3}; dvar int x in 0..3; maximize expected(x); subject to { prob(allDifferent(all(i in 1..2) i*x + (i - 1)*d)) >= 3/4; prob(cumulative(all(i in 1..2) (i*x, d, 1), 1)) >= 1/4; } -> {"answer":"optimal","policy":{"decide":[["x",[],3]],"next":[]},"value":"12/4"}
both as numbers: dvar int s in 0..3; minimize worst(4*cumulative(all(i in 1..2) (i*s, 2, 1), 1) - 2*allDifferent(all(i in 1..2) i*s) - s); subject to { } -> {"answer":"optimal","policy":{"decide":[["s",[],1]],"next":[]},"value":"-3/1"}
in groups and behind binders: range R = 1..2; int a[R] = [5, 7]; dvar int x in R; subject to { x == 1; forall(i in R) { i == 1; prob(allDifferent(all(j in R) x + j)) >= 1/2; } cumulative(all(i in R) (x, 1, 1), 1); } -> {"answer":"infeasible"}
as an index: range R = 1..2; int a[R] = [5, 7]; dvar int x in R; subject to { a[1 + allDifferent(all(i in R) x)] == 5; } -> {"answer":"optimal","policy":{"decide":[["x",[],1]],"next":[]},"value":"0/1"}
in an implication under a negation: range R = 1..2; dvar int x[R] in R; subject to { !(x[1] == 1 => (x[2] == 1 && allDifferent(all(i in R) x[i]))); } -> {"answer":"optimal","policy":{"decide":[["x",[1],1],["x",[2],1]],"next":[]},"value":"0/1"}
as a factor: range R = 1..2; dvar int x[R] in R; subject to { x[1] * 2 * allDifferent(all(i in R) x[i]) div 2 == 1; } -> {"answer":"optimal","policy":{"decide":[["x",[1],1],["x",[2],2]],"next":[]},"value":"0/1"}
in a sum: range R = 1..2; dvar int x[R] in R; subject to { sum(i in R) (x[i] + allDifferent(all(j in R) x[j])) == 1 || max(x[1], 1) == 1; } -> {"answer":"optimal","policy":{"decide":[["x",[1],1],["x",[2],1]],"next":[]},"value":"0/1"}
behind a binder with no value: range N = 1..0; range R = 1..2; dvar int x in R; subject to { forall(i in N) allDifferent(all(j in R) x + i); } -> {"answer":"optimal","policy":{"decide":[["x",[],1]],"next":[]},"value":"0/1"}
in constants: range R = 1..2; int c = allDifferent(all(i in R) i); dvar int x in 0..c stage c; stoch int d in {c:1}; subject to { x == d; } -> {"answer":"optimal","policy":{"decide":[["x",[],1]],"next":[]},"value":"0/1"}
"##;

/// Texts whose terms pass a limit, each with the line on which both commands end.
const LARGE: &str = r##"
nodes of a sum over elements: range T = 1..14; range R = 1..300; stoch int d[T] in {0:1, 1:1}; dvar int x in 0..1; int a[0..1] = [1, 1]; subject to { sum(i in R) a[x] >= 0; } -> {"answer":"limit","code":206,"counted":"9879552","limit":"4194304"}
nodes of a sum: range T = 1..14; range R = 1..300; stoch int d[T] in {0:1, 1:1}; subject to { sum(i in R) i >= 0; } -> {"answer":"limit","code":206,"counted":"4964352","limit":"4194304"}
the size of a product: dvar int x in 0..65535; subject to { x*1099511627776 >= 0; } -> {"answer":"limit","code":207,"counted":"72056494526300160","limit":"1099511627776"}
the size of a product in a hard constraint before that of the objective: dvar int x in 0..65535; maximize expected(x*1099511627776*2); subject to { x*1099511627775 >= 0; } -> {"answer":"limit","code":207,"counted":"72056494526234625","limit":"1099511627776"}
nodes of allDifferent: range T = 1..14; range R = 1..300; stoch int d[T] in {0:1, 1:1}; dvar int x in 0..1; subject to { allDifferent(all(i in R) x + i); } -> {"answer":"limit","code":206,"counted":"14761984","limit":"4194304"}
nodes of cumulative: range C = 1..14; stoch int c[C] in {0:1, 1:1}; subject to { cumulative(all(i in 1..85) (i, 1, 1), 1); } -> {"answer":"limit","code":206,"counted":"4210688","limit":"4194304"}
the size of starts and of demands: dvar int x in 0..65535; subject to { cumulative(all(i in 1..2) ((i - 1)*x*549755813888, 1, x*1099511627776), x); } -> {"answer":"limit","code":207,"counted":"72056494526300160","limit":"1099511627776"}
"##;

/// Texts that break a rule, each with the line on which both commands end.
const REFUSED: &str = r##"
a name that nobody declared: subject to { z <= 1; } -> {"answer":"refused","at":13,"code":105}
a constant without a value: int n = 1 div 0; subject to { } -> {"answer":"refused","at":8,"code":110}
a domain of no value: dvar int x in 3..2; subject to { } -> {"answer":"refused","at":14,"code":111}
an element too few: range R = 1..2; int a[R] = [5]; subject to { } -> {"answer":"refused","at":27,"code":112}
a weight of 0: stoch int d in {1:0} stage 1; subject to { } -> {"answer":"refused","at":18,"code":113}
a stage above 24: dvar int x in 0..1 stage 25; subject to { } -> {"answer":"refused","at":25,"code":114}
a threshold above 1: subject to { prob(1 == 2) >= 3/2; } -> {"answer":"refused","at":29,"code":115}
an empty text:  -> {"answer":"refused","at":0,"code":104}
a domain that is not written to its end: dvar int x in 0 subject -> {"answer":"refused","at":16,"code":104}
"##;

/// Texts that pass a limit, each with the line on which both commands end.
const LIMITED: &str = r##"
values of a domain: dvar int x in 0..65536; subject to { } -> {"answer":"limit","code":203,"counted":"65537","limit":"65536"}
elements of a range: range R = 1..65537; subject to { } -> {"answer":"limit","code":208,"counted":"65537","limit":"65536"}
values of binders and instances: range R = 1..600; subject to { forall(i in R, j in R) 1 == 1; } -> {"answer":"limit","code":205,"counted":"262145","limit":"262144"}
the weight of all scenarios: stoch int a in {0:1099511627776}; stoch int b in {0:1099511627776}; stoch int c in {0:1048576}; stoch int e in {0:2}; dvar int x in 0..1; maximize expected(x); subject to { } -> {"answer":"limit","code":201,"counted":"2535301200456458802993406410752","limit":"1267650600228229401496703205376"}
scenarios: range T = 1..15; stoch int d[T] in {0:1, 1:1}; subject to { } -> {"answer":"limit","code":202,"counted":"32768","limit":"16384"}
instances in all scenarios: range T = 1..14; range R = 1..64; stoch int d[T] in {0:1, 1:1}; subject to { forall(i in R) 1 == 1; } -> {"answer":"limit","code":209,"counted":"1277952","limit":"1048576"}
bits of all decisions: range R = 1..65; dvar int x[R] in 0..65535; subject to { } -> {"answer":"limit","code":204,"counted":"1040","limit":"1024"}
"##;

/// Runs a command on the text of a row, which ends so; a log is written where the text is solved.
fn command_ends(
    rt: &impl Abort,
    alloc: Global,
    command: &str,
    row: &TableRow<'_>,
    status: Status,
) -> Result<(), AllocError> {
    let about = row.about;
    let ended = ran(alloc, command, row.text)?;
    assert_eq!(rt; ended.status, status, "{about}");
    answers(rt, about, &ended, row.want);
    assert_eq!(rt;
        ended.log.bytes().is_empty(),
        status != Status::Done,
        "{about}"
    );
    Ok(())
}

/// Runs both commands on each text of a table.
fn both_end(rt: &impl Abort, alloc: Global, table: &str, status: Status) -> Result<(), AllocError> {
    for line in table.lines() {
        match row_in(line) {
            Some(row) => {
                command_ends(rt, alloc, "solve m", &row, status)?;
                command_ends(rt, alloc, "tree m", &row, status)?;
            }
            None => assert!(rt; line.is_empty(), "{line}"),
        }
    }
    Ok(())
}

/// Runs `solve` on each text of a table.
fn solves(rt: &impl Abort, alloc: Global, table: &str) -> Result<(), AllocError> {
    for line in table.lines() {
        match row_in(line) {
            Some(row) => command_ends(rt, alloc, "solve m", &row, Status::Done)?,
            None => assert!(rt; line.is_empty(), "{line}"),
        }
    }
    Ok(())
}

#[test]
fn whole_texts(rt: HostRuntime) -> Result<(), Fail> {
    solves(&rt, rt.alloc(), SOLVED)?;
    solves(&rt, rt.alloc(), ELEMENTS)?;
    solves(&rt, rt.alloc(), GLOBALS)?;
    Ok(())
}

#[test]
fn refusals_and_limits(rt: HostRuntime) -> Result<(), Fail> {
    both_end(&rt, rt.alloc(), REFUSED, Status::Refused)?;
    both_end(&rt, rt.alloc(), LIMITED, Status::Limit)?;
    both_end(&rt, rt.alloc(), LARGE, Status::Limit)?;
    Ok(())
}

/// Texts, and what their logs claim: the best sum over the scenarios of their weights times the objective, computed by hand. Chains of
/// signs, of factors and of divisors, that of a binder, the least, the greatest and the size, sums behind binders, conditions as numbers
/// and in one another, arrays by constants, scenarios and cells, binders in binders, and what is undefined in a scenario.
const CLAIMED: &str = r##"
a chain of signs: dvar int x in 3..3; maximize expected(-x - (2 - x) + 7); subject to { } -> end optimal 5
a chain of factors and of divisors: dvar int x in 2..3; maximize expected(x * x * 2 div 3 mod 5 * 10); subject to { } -> end optimal 20
a sign before a quotient and a remainder: dvar int x in 7..7; maximize expected(-x div 2 * 10 + -x mod 2); subject to { } -> end optimal -31
a divisor that is bound: range R = 1..3; dvar int x in 12..12; maximize expected(sum(i in R) (x div i)); subject to { } -> end optimal 22
a modulus that is bound: range R = 1..3; dvar int x in 12..12; maximize expected(sum(i in R) (x mod (i + 4))); subject to { } -> end optimal 7
the greatest, the least and a size: dvar int x in -2..1; maximize expected(max(x, -x, 0) * 10 + min(3, abs(x))); subject to { } -> end optimal 22
a range that begins at what is bound: range R = 1..3; dvar int x[R] in 0..1; maximize expected(sum(i in R, j in i..3) (x[i] * j)); subject to { } -> end optimal 14
an index that is computed of what is bound: range R = 1..3; dvar int x[R] in 0..4; maximize expected(sum(i in R) (x[4 - i] * i)); subject to { forall(i in R) x[i] <= i; } -> end optimal 10
a condition as a factor: dvar int x in 0..3; maximize expected((x >= 2) * 5 - x); subject to { } -> end optimal 3
an implication as a number: dvar int x in 0..1; dvar int y in 0..1; maximize expected(2 * ((x == 1) => (y == 1)) + x - y); subject to { } -> end optimal 2
both and either as numbers: dvar int x in 0..1; dvar int y in 0..1; maximize expected(4 * ((x == 1) && (y == 0)) + ((x == 0) || (y == 1))); subject to { } -> end optimal 4
conditions in one another: dvar int x in 0..9; maximize expected(x); subject to { !(x == 9 || x == 8) && (x >= 5 => x <= 6); } -> end optimal 6
an array by chance: range R = 1..2; int a[R] = [5, 7]; stoch int d in {1:1, 2:3}; dvar int x in 0..1; maximize expected(a[d] + x * d); subject to { } -> end optimal 33
decisions by chance: range R = 1..2; int a[R] = [5, 7]; stoch int d[R] in {1:1, 2:1}; dvar int x[R] in 0..2; maximize expected(sum(i in R) x[d[i]]); subject to { x[1] <= 1; } -> end optimal 12
a sum in a sum: range R = 1..2; maximize expected(sum(i in R) (i * sum(j in 1..i) j)); subject to { } -> end optimal 7
no comparison, with what one scenario leaves undefined: range R = 1..2; int a[R] = [5, 7]; stoch int d in {1:1, 3:1}; dvar int x in 0..1; maximize expected(x); subject to { !(a[d] >= 7); } -> end optimal 2
a comparison with what one scenario leaves undefined: range R = 1..2; int a[R] = [5, 7]; stoch int d in {1:1, 3:1}; dvar int x in 0..1; maximize expected(x); subject to { a[d] < 7; } -> end infeasible
no equality, in any scenario: range R = 1..2; int a[R] = [5, 7]; stoch int d in {1:1, 2:1}; dvar int x in 0..1; maximize expected(x); subject to { !(a[d] == 6); } -> end optimal 2
an objective that one scenario leaves undefined: range R = 1..2; int a[R] = [5, 7]; stoch int d in {1:1, 3:1}; dvar int x in 0..1; maximize expected(a[d] * x); subject to { } -> end infeasible
"##;

/// The log of a search of the text of a row ends with this line.
fn claims(rt: &impl Abort, alloc: Global, row: &TableRow<'_>) -> Result<(), AllocError> {
    let about = row.about;
    let ended = ran(alloc, "solve m", row.text)?;
    let log = std::str::from_utf8(ended.log.bytes()).unwrap_or("");
    assert_eq!(rt; log.lines().last().unwrap_or(""), row.want, "{about}");
    Ok(())
}

#[test]
fn values_of_expressions(rt: HostRuntime) -> Result<(), Fail> {
    for line in CLAIMED.lines() {
        match row_in(line) {
            Some(row) => claims(&rt, rt.alloc(), &row)?,
            None => assert!(rt; line.is_empty(), "{line}"),
        }
    }
    Ok(())
}
