//! Texts that nest deep, and long ones.

/// A word, a text by its parts, and whether it is read. The parts are a prefix, a piece, a middle, a piece
/// behind it, and an end; both pieces are repeated as often as the number says.
pub const NESTS: &str = "\
parentheses, as deep as can be: subject to { ~(~1 == 1~)~; }~63 -> read
parentheses, one too deep: subject to { ~(~1 == 1~)~; }~64 -> 103 at 76
parentheses, far too deep: subject to { ~(~1~)~; }~100 -> 103 at 76
indices, as deep as can be: subject to { ~a[~1~]~; }~63 -> read
indices, one too deep: subject to { ~a[~1~]~; }~64 -> 103 at 140
blocks, as deep as can be: subject to { ~{ ~1;~ }~ }~63 -> read
blocks, one too deep: subject to { ~{ ~1;~ }~ }~64 -> 103 at 139
nots, as many as can be: subject to { ~!~1~~; }~63 -> read
nots, one too many: subject to { ~!~1~~; }~64 -> 103 at 76
minuses, as many as can be: subject to { ~-~1~~; }~63 -> read
minuses, one too many: subject to { ~-~1~~; }~64 -> 103 at 76
implications, as many as can be: subject to { ~1 => ~1~~; }~63 -> read
implications, one too many: subject to { ~1 => ~1~~; }~64 -> 103 at 330
`forall`, as deep as can be: subject to { ~forall(i in R) ~1~~; }~62 -> read
`forall`, one too deep: subject to { ~forall(i in R) ~1~~; }~63 -> 103 at 949
sums over ranges, as deep as can be: subject to { ~sum(i in R) ~1~~; }~62 -> read
sums over ranges, one too deep: subject to { ~sum(i in R) ~1~~; }~63 -> 103 at 760
`abs`, as deep as can be: subject to { ~abs(~1~)~; }~63 -> read
`abs`, one too deep: subject to { ~abs(~1~)~; }~64 -> 103 at 268
`min`, as deep as can be: subject to { ~min(1, ~1~, 2)~; }~63 -> read
`max`, one too deep: subject to { ~max(1, ~1~)~; }~64 -> 103 at 457
`abs` without parentheses at the deepest place: subject to { ~(~abs ;~~ }~63 -> 104 at 80
`abs` at the deepest place: subject to { ~(~abs (1)~)~; }~63 -> 103 at 80
`all` with its parentheses at the deepest place: subject to { ~(~allDifferent ( all (~~~62 -> 103 at 94
`all` without parentheses at the deepest place: subject to { ~(~allDifferent ( all 1~~~62 -> 104 at 94
`allDifferent`, as deep as can be: subject to { ~allDifferent(all(i in R) ~1~)~; }~62 -> read
`allDifferent`, one too deep: subject to { ~allDifferent(all(i in R) ~1~)~; }~63 -> 103 at 1579
tasks, as deep as can be: subject to { ~cumulative(all(i in R) (1, 2, ~3~), 4)~; }~31 -> read
tasks, one too deep: subject to { ~cumulative(all(i in R) (1, 2, ~3~), 4)~; }~32 -> 103 at 957
capacities, as deep as can be: subject to { ~cumulative(all(i in R) (1, 2, 3), ~4~)~; }~62 -> read
capacities, one too deep: subject to { ~cumulative(all(i in R) (1, 2, 3), ~4~)~; }~63 -> 103 at 2135
lists, as deep as can be: int n = ~[~1~]~; subject to { }~64 -> read
lists, one too deep: int n = ~[~1~]~; subject to { }~65 -> 103 at 72
empty lists, as deep as can be: int n = ~[~~]~; subject to { }~64 -> read
parentheses in an index in lists: int n = ~[~a[(1)]~]~; subject to { }~63 -> 103 at 73
parentheses in lists: int n = [~[~(1), (2)~]~]; subject to { }~62 -> read
parentheses in an objective, as deep as can be: minimize expected(~(~1~)~); subject to { }~63 -> read
parentheses in an objective, one too deep: minimize expected(~(~1~)~); subject to { }~64 -> 103 at 81
parentheses in a lower end, as deep as can be: range R = ~(~1~)~..2; subject to { }~64 -> read
parentheses in an upper end, one too deep: range R = 1..~(~1~)~; subject to { }~65 -> 103 at 77
parentheses in a set, as deep as can be: {int} S = { ~(~1~)~ }; subject to { }~63 -> read
parentheses in a set, one too deep: {int} S = { ~(~1~)~ }; subject to { }~64 -> 103 at 75
parentheses in a dimension, as deep as can be: int n[~(~R~)~..5] = 1; subject to { }~63 -> read
parentheses behind a binder, one too deep: int n[i in ~(~1~)~..5] = 1; subject to { }~64 -> 103 at 74
parentheses in an outcome, as deep as can be: stoch int d in { ~(~1~)~:1 } stage 1; subject to { }~63 -> read
parentheses in a weight, one too deep: stoch int d in { 1:~(~1~)~ }; subject to { }~64 -> 103 at 82
parentheses in a domain, as deep as can be: dvar int x in 0..~(~1~)~ stage 1; subject to { }~64 -> read
parentheses in a stage, one too deep: dvar int x in R stage ~(~1~)~; subject to { }~65 -> 103 at 86
parentheses under `prob`, as deep as can be: subject to { prob(~(~1~)~) >= 1/2; }~62 -> read
parentheses under `prob`, one too deep: subject to { prob(~(~1~)~) >= 1/2; }~63 -> 103 at 80
parentheses in a numerator, as deep as can be: subject to { prob(x) >= ~(~1~)~/2; }~63 -> read
parentheses in a denominator, one too deep: subject to { prob(x) >= 1/~(~1~)~; }~64 -> 103 at 89
a long sum: subject to { ~(1) + ~1~~; }~100 -> read
a long chain of and: subject to { ~!1 && ~1~~; }~100 -> read
a long difference: subject to { ~-1 - ~1~~; }~100 -> read
implications in a long chain of and: subject to { ~(1 => 2) && ~1~~; }~100 -> read
sums over ranges, one behind another: subject to { ~sum(i in R) 1 + ~1~~; }~100 -> read
a long product: subject to { ~a[1] * ~1~~; }~100 -> read
many `forall`: subject to { ~forall(i in R) 1; ~1~~; }~100 -> read
many blocks: subject to { ~{ } ~1~~; }~100 -> read
many indices: subject to { a~[1]~~~; }~100 -> read
many dimensions: int n~[R]~~~ = 1; subject to { }~100 -> read
a long list: int n = [~[], ~[]~~]; subject to { }~100 -> read
the least of many: subject to { min(1~, 2~~~); }~100 -> read
many declarations: int n = 1; ~range R = (1)..2; ~subject to { ~~ }~100 -> read
nots and parentheses by turns: subject to { ~!(~!1~)~; }~31 -> read
nots and parentheses by turns, one not too many: subject to { ~!(~!!1~)~; }~31 -> 103 at 76
minuses and parentheses by turns: subject to { ~-(~-1 - 1~)~; }~31 -> read
minuses and parentheses by turns, and a minus behind a minus: subject to { ~-(~-1 - -1~)~; }~31 -> read
minuses and parentheses by turns, one minus too many: subject to { ~-(~-1 - - -1~)~; }~31 -> 103 at 82
a difference at the deepest place: subject to { ~(~1 - 1~)~; }~63 -> read
a minus at the deepest place: subject to { ~(~-1~)~; }~63 -> 103 at 76
a minus behind a minus at the deepest place: subject to { ~(~1 - -1~)~; }~63 -> 103 at 80
not at the deepest place: subject to { ~(~!1~)~; }~63 -> 103 at 76
an implication at the deepest place: subject to { ~(~1 => 1~)~; }~63 -> 103 at 78
an implication one place above: subject to { ~(~1 => 2~)~; }~62 -> read
two implications one place above: subject to { ~(~1 => 2 => 3~)~; }~62 -> 103 at 82
not behind an implication one place above: subject to { ~(~!1 => !2~)~; }~62 -> 103 at 81
parentheses before an implication one place above: subject to { ~(~(1) => 2~)~; }~62 -> read
parentheses behind an implication one place above: subject to { ~(~1 => (2)~)~; }~62 -> 103 at 80
a sum over a range at the deepest place: subject to { ~(~sum(i in R) 1~)~; }~63 -> 103 at 76
a sum over a range one place above: subject to { ~(~sum(i in R) 1~)~; }~62 -> 103 at 78
a minus in a sum over a range two places above: subject to { ~(~sum(i in R) -1~)~; }~61 -> read
parentheses behind a minus in a sum over a range: subject to { ~(~sum(i in R) -(1)~)~; }~61 -> 103 at 87
parentheses in a sum over a range, and behind a minus behind it: subject to { ~(~sum(i in R) (1) + -(2)~)~; }~61 -> read
minuses behind a sum over a range: subject to { ~(~sum(i in R) 1 + -(2) + - -3~)~; }~61 -> read
a minus before a sum over a range: subject to { ~(~-sum(i in R) 1~)~; }~61 -> 103 at 78
a minus before a sum over a range with parentheses in its end: subject to { ~(~-sum(i in (1)..2) 1~)~; }~61 -> 103 at 78
minuses before and within a sum over a range: subject to { ~(~-sum(i in R) -x~)~; }~60 -> read
parentheses behind a minus in a sum's product: subject to { ~(~2 * -sum(i in R) x * -(3)~)~; }~60 -> 103 at 95
parentheses in a sum's product: subject to { ~(~2 * -sum(i in R) x * (3)~)~; }~60 -> read
minuses before both factors: subject to { ~(~-1 * -(1)~)~; }~61 -> read
a minus before an index: subject to { ~(~-a[1]~)~; }~61 -> read
a minus before an index with parentheses: subject to { ~(~-a[(1)]~)~; }~61 -> 103 at 77
a minus before an index, and an index in an index: subject to { ~(~-a[1] * a[b[1]]~)~; }~61 -> read
`forall` in blocks, two too deep: subject to { ~{ ~forall(i in R) 1;~ }~ }~63 -> 103 at 139
`forall` in blocks, one too deep: subject to { ~{ ~forall(i in R) 1;~ }~ }~62 -> 103 at 143
`forall` in blocks, as deep as can be: subject to { ~{ ~forall(i in R) 1;~ }~ }~61 -> read
parentheses behind `forall` in blocks: subject to { ~{ ~forall(i in R) (1); (2);~ }~ }~61 -> read
two parentheses behind `forall` in blocks: subject to { ~{ ~forall(i in R) ((1));~ }~ }~61 -> 103 at 151
blocks behind `forall` in blocks: subject to { ~{ ~forall(i in R) { } { { } }~ }~ }~61 -> read
a chance constraint in blocks, one too deep: subject to { ~{ ~prob(x) >= 1/2;~ }~ }~63 -> 103 at 143
a chance constraint in blocks, as deep as can be: subject to { ~{ ~prob(x) >= (1)/2;~ }~ }~62 -> read
`forall` and blocks by turns, as deep as can be: subject to { ~forall(i in R) { ~1;~ }~ }~31 -> read
`forall` and blocks by turns, and not: subject to { ~forall(i in R) { ~!1;~ }~ }~31 -> read
`forall` and blocks by turns, one too deep: subject to { ~forall(i in R) { ~1;~ }~ }~32 -> 103 at 546
a bracket at the deepest place: subject to { ~(~[~)~; }~63 -> 104 at 76
an index of a literal at the deepest place: subject to { ~(~5[1]~)~; }~63 -> 104 at 77
an index at the deepest place: subject to { ~(~a[1]~)~; }~63 -> 103 at 77
empty parentheses at the deepest place: subject to { ~(~)~)~; }~63 -> 104 at 76
not behind a plus one place above: subject to { ~(~1 + !2~)~; }~62 -> 104 at 79
not behind equal at the deepest place: subject to { ~(~1 == !2~)~; }~63 -> 104 at 81
two pluses at the deepest place: subject to { ~(~1 + + 2~)~; }~63 -> 104 at 80
`forall` as an expression at the deepest place: subject to { ~(~forall~~; }~63 -> 104 at 76
a parenthesis in the deepest index: subject to { ~a[~(~]~; }~63 -> 103 at 139
a bracket in the deepest index: subject to { ~a[~[~]~; }~63 -> 104 at 139
a plus behind as many nots as can be: subject to { ~!~+~~; }~63 -> 104 at 76
a bracket in the deepest block: subject to { ~{ ~[~~ }~63 -> 104 at 139
a brace in the deepest list: int n = ~[~{~]~;~64 -> 104 at 72
no semicolon behind the deepest list: int n = ~[~1~]~ subject~64 -> 104 at 138
parentheses that are not closed: subject to { ~(~1~~; }~63 -> 104 at 77
one closing parenthesis too many: subject to { ~(~1~)~); }~60 -> 104 at 134
a plus in parentheses that are too deep: subject to { ~(~+~)~; }~64 -> 103 at 76
an end in parentheses that are too deep: subject to { ~(~~~~64 -> 103 at 76
a mistake before parentheses that are too deep: subject to { 1 1; ~(~1~)~; }~64 -> 104 at 15
a mistake behind an implication that is too deep: subject to { ~(~1 => => 2~)~; }~63 -> 103 at 78
a brace behind sums over ranges that are too deep: subject to { ~sum(i in R) ~}~~~63 -> 103 at 760
an end at the deepest place: subject to { ~(~~~~63 -> 104 at 76
an end behind as many minuses as can be: subject to { ~-~~~~63 -> 104 at 76
an end behind as many implications as can be: subject to { ~1 => ~~~~63 -> 104 at 328
as many bytes as can be: subject to { }~ ~~~~1048562 -> read
one byte too many: subject to { }~ ~~~~1048563 -> 101 at 1048576
";

/// A text with most of the productions. No prefix of it is a model.
pub const LONG: &str =
    "int n = [[], [1, -2], (a => b)]; int m[R][i in 1..2][j in S] = 3; range R = a + 1..b[2];\n\
{int} S = {1, 2 * c}; {int} T = {}; dvar int x[R] in R stage 1; dvar int y in -1..n mod 2;\n\
stoch int d[1..2] in {1:1, 3:n} stage m; maximize expected(min(x, max(1, 2, 3)) - abs(y div 2));\n\
subject to { forall(i in R, j in 1..2) { x[i][j] <= 5; prob(!a && b || c => d) >= 1/2; }\n\
sum(i in R) -a[i] * x + 2 * -sum(j in 0..9) y != 3; allDifferent(all(i in R) x[i]);\n\
cumulative(all(k in 1..2) (s[k], l, d), 4) == 1; { } }";
