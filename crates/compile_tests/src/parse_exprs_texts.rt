//! Texts with expressions, and what they give by the grammar.

/// What expressions give.
pub const EXPRESSIONS: &str = "\
a literal: subject to { 7; } -> { 7@13; }
zeros before a literal: subject to { 007; } -> { 7@13; }
a name: subject to { x; } -> { x@13; }
an index: subject to { a[i]; } -> { a@13[i@15]; }
two indices: subject to { a[i][j + 1]; } -> { a@13[i@15][(add@18 +j@18 +1@22)]; }
an index in an index: subject to { a[b[i]]; } -> { a@13[b@15[i@17]]; }
parentheses: subject to { (x); } -> { x@13; }
parentheses twice: subject to { ((5)); } -> { 5@13; }
a size: subject to { abs(x); } -> { (abs@13 x@17); }
a size of an implication: subject to { abs(a => b); } -> { (abs@13 (=>@17 a@17 b@22)); }
the least of two: subject to { min(a, b); } -> { (min@13 a@17 b@20); }
the greatest of four: subject to { max(a, (b), 3, d == e); } -> { (max@13 a@17 b@20 3@25 (==@28 d@28 e@33)); }
`allDifferent`: subject to { allDifferent(all(i in R) x[i]); } -> { (allDifferent@13 [i@30 in R@35] x@38[i@40]); }
`allDifferent` over two binders: subject to { allDifferent(all(i in R, j in 1..2) a => b); } -> { (allDifferent@13 [i@30 in R@35][j@38 in 1@43..2@46] (=>@49 a@49 b@54)); }
`allDifferent` in a sum: subject to { 2 * allDifferent(all(i in R) x[i]) + 1; } -> { (add@13 +(mul@13 2@13 *(allDifferent@17 [i@34 in R@39] x@42[i@44])) +1@50); }
`cumulative`: subject to { cumulative(all(i in R) (s[i], l[i], d[i]), 4); } -> { (cumulative@13 [i@28 in R@33] s@37[i@39] l@43[i@45] d@49[i@51] 4@56); }
`cumulative` of all kinds of expressions: subject to { cumulative(all(i in 1..2, j in S) ((a), b => c, !d), e || f); } -> { (cumulative@13 [i@28 in 1@33..2@36][j@39 in S@44] a@48 (=>@53 b@53 c@58) (not@61 d@62) (or@66 e@66 f@71)); }
functions in a function: subject to { min(max(a, b), abs(-c)); } -> { (min@13 (max@17 a@21 b@24) (abs@28 (neg@32 c@33))); }
a product from the left: subject to { a * b div c mod d; } -> { (mul@13 a@13 *b@17 div c@23 mod d@29); }
parentheses on the right of a quotient: subject to { a div (b mod c); } -> { (mul@13 a@13 div (mul@19 b@20 mod c@26)); }
parentheses on the left of a product: subject to { (a * b) * c; } -> { (mul@13 (mul@13 a@14 *b@18) *c@23); }
a sum from the left: subject to { a + b - c + d; } -> { (add@13 +a@13 +b@17 -c@21 +d@25); }
parentheses on the right of a difference: subject to { a - (b - c); } -> { (add@13 +a@13 -(add@17 +b@18 -c@22)); }
parentheses on the left of a sum: subject to { (a + b) + c; } -> { (add@13 +(add@13 +a@14 +b@18) +c@23); }
products in a sum: subject to { a * b + c * d - e; } -> { (add@13 +(mul@13 a@13 *b@17) +(mul@21 c@21 *d@25) -e@29); }
parentheses round a first term: subject to { (a) + b; } -> { (add@13 +a@13 +b@19); }
parentheses round a first factor: subject to { (a) * b; } -> { (mul@13 a@13 *b@19); }
a minus: subject to { -x; } -> { (neg@13 x@14); }
two minuses: subject to { - -x; } -> { (neg@13 (neg@15 x@16)); }
a minus in parentheses behind a minus: subject to { -(-x); } -> { (neg@13 (neg@14 x@16)); }
a minus before a literal: subject to { -5; } -> { (neg@13 5@14); }
a minus before an index: subject to { -a[i]; } -> { (neg@13 a@14[i@16]); }
a minus before a first factor: subject to { -x * y; } -> { (mul@13 (neg@13 x@14) *y@18); }
a minus before a second factor: subject to { x * -y; } -> { (mul@13 x@13 *(neg@17 y@18)); }
a minus behind a minus: subject to { x - -y; } -> { (add@13 +x@13 -(neg@17 y@18)); }
minuses before both terms: subject to { -x - - -y; } -> { (add@13 +(neg@13 x@14) -(neg@18 (neg@20 y@21))); }
minuses in a quotient: subject to { -x div -y; } -> { (mul@13 (neg@13 x@14) div (neg@20 y@21)); }
a minus before a sum in parentheses: subject to { -(a + b) * c; } -> { (mul@13 (neg@13 (add@14 +a@15 +b@19)) *c@24); }
equal: subject to { a == b; } -> { (==@13 a@13 b@18); }
unequal: subject to { a != b; } -> { (!=@13 a@13 b@18); }
less: subject to { a < b; } -> { (<@13 a@13 b@17); }
at most: subject to { a <= b; } -> { (<=@13 a@13 b@18); }
greater: subject to { a > b; } -> { (>@13 a@13 b@17); }
at least: subject to { a >= b; } -> { (>=@13 a@13 b@18); }
a sum and a product compared: subject to { a + b <= c * d; } -> { (<=@13 (add@13 +a@13 +b@17) (mul@22 c@22 *d@26)); }
a comparison on the left of a comparison: subject to { (a < b) < c; } -> { (<@13 (<@13 a@14 b@18) c@23); }
a comparison on the right of a comparison: subject to { a < (b < c); } -> { (<@13 a@13 (<@17 b@18 c@22)); }
a comparison in a sum: subject to { (a < b) + 1; } -> { (add@13 +(<@13 a@14 b@18) +1@23); }
a minus before a comparison: subject to { -(a == b); } -> { (neg@13 (==@14 a@15 b@20)); }
not: subject to { !a; } -> { (not@13 a@14); }
not twice: subject to { !!a; } -> { (not@13 (not@14 a@15)); }
not before parentheses: subject to { !(a); } -> { (not@13 a@14); }
not before a comparison: subject to { !a == b; } -> { (not@13 (==@14 a@14 b@19)); }
not before a comparison of a sum: subject to { !a + b < c; } -> { (not@13 (<@14 (add@14 +a@14 +b@18) c@22)); }
not before and: subject to { !a && b; } -> { (and@13 (not@13 a@14) b@19); }
not of and: subject to { !(a && b); } -> { (not@13 (and@14 a@15 b@20)); }
not behind and: subject to { a && !b; } -> { (and@13 a@13 (not@18 b@19)); }
three joined by and: subject to { a && b && c; } -> { (and@13 a@13 b@18 c@23); }
parentheses on the left of and: subject to { (a && b) && c; } -> { (and@13 (and@13 a@14 b@19) c@25); }
parentheses on the right of and: subject to { a && (b && c); } -> { (and@13 a@13 (and@18 b@19 c@24)); }
three joined by or: subject to { a || b || c; } -> { (or@13 a@13 b@18 c@23); }
parentheses on the left of or: subject to { (a || b) || c; } -> { (or@13 (or@13 a@14 b@19) c@25); }
and on both sides of or: subject to { a && b || c && d; } -> { (or@13 (and@13 a@13 b@18) (and@23 c@23 d@28)); }
and between two ors: subject to { a || b && c || d; } -> { (or@13 a@13 (and@18 b@18 c@23) d@28); }
or in parentheses before and: subject to { (a || b) && c; } -> { (and@13 (or@13 a@14 b@19) c@25); }
an implication: subject to { a => b; } -> { (=>@13 a@13 b@18); }
implications from the right: subject to { a => b => c; } -> { (=>@13 a@13 (=>@18 b@18 c@23)); }
parentheses on the left of an implication: subject to { (a => b) => c; } -> { (=>@13 (=>@13 a@14 b@19) c@25); }
parentheses round a premise: subject to { (a) => b; } -> { (=>@13 a@13 b@20); }
or and and in an implication: subject to { a || b => c && d; } -> { (=>@13 (or@13 a@13 b@18) (and@23 c@23 d@28)); }
not on both sides of an implication: subject to { !a => !b; } -> { (=>@13 (not@13 a@14) (not@19 b@20)); }
comparisons in implications: subject to { a == b => c < d => !e; } -> { (=>@13 (==@13 a@13 b@18) (=>@23 (<@23 c@23 d@27) (not@32 e@33))); }
a sum over a range: subject to { sum(i in R) x; } -> { (sum@13 [i@17 in R@22] x@25); }
a sum over a range that is compared: subject to { sum(i in R) x[i] == 5; } -> { (==@13 (sum@13 [i@17 in R@22] x@25[i@27]) 5@33); }
a sum over two binders: subject to { sum(i in 1..n, j in R) a[i][j]; } -> { (sum@13 [i@17 in 1@22..n@25][j@28 in R@33] a@36[i@38][j@41]); }
a sum over a range that ends at a plus: subject to { sum(i in R) a[i] * x[i] + 5; } -> { (add@13 +(sum@13 [i@17 in R@22] (mul@25 a@25[i@27] *x@32[i@34])) +5@39); }
a minus behind a binder: subject to { sum(i in R) - i; } -> { (sum@13 [i@17 in R@22] (neg@25 i@27)); }
a minus before a sum over a range: subject to { - sum(i in R) a * b; } -> { (neg@13 (sum@15 [i@19 in R@24] (mul@27 a@27 *b@31))); }
two minuses before a sum over a range: subject to { - -sum(i in R) a * b; } -> { (neg@13 (neg@15 (sum@16 [i@20 in R@25] (mul@28 a@28 *b@32)))); }
a sum over a range as a last factor: subject to { 2 * sum(i in R) a * b; } -> { (mul@13 2@13 *(sum@17 [i@21 in R@26] (mul@29 a@29 *b@33))); }
a minus between a factor and a sum: subject to { 2 * -sum(i in R) x[i]; } -> { (mul@13 2@13 *(neg@17 (sum@18 [i@22 in R@27] x@30[i@32]))); }
two minuses between a factor and a sum: subject to { 2 * - -sum(i in R) x * 3; } -> { (mul@13 2@13 *(neg@17 (neg@19 (sum@20 [i@24 in R@29] (mul@32 x@32 *3@36))))); }
a minus before a sum over a range in parentheses: subject to { -(sum(i in R) x) * 2; } -> { (mul@13 (neg@13 (sum@14 [i@19 in R@24] x@27)) *2@32); }
a sum over a range in parentheses as a first factor: subject to { (sum(i in R) x) * 2; } -> { (mul@13 (sum@13 [i@18 in R@23] x@26) *2@31); }
a sum over a range in parentheses as a second factor: subject to { a * (sum(i in R) x) * b; } -> { (mul@13 a@13 *(sum@17 [i@22 in R@27] x@30) *b@35); }
a product in a product's sum: subject to { 2 * sum(i in R) a * 3 + 4; } -> { (add@13 +(mul@13 2@13 *(sum@17 [i@21 in R@26] (mul@29 a@29 *3@33))) +4@37); }
a sum over a range that takes in a second one: subject to { a mod sum(i in R) x div sum(j in S) y * z; } -> { (mul@13 a@13 mod (sum@19 [i@23 in R@28] (mul@31 x@31 div (sum@37 [j@41 in S@46] (mul@49 y@49 *z@53))))); }
a sum in a sum: subject to { sum(i in R) sum(j in S) x * y; } -> { (sum@13 [i@17 in R@22] (sum@25 [j@29 in S@34] (mul@37 x@37 *y@41))); }
a minus between two sums: subject to { sum(i in R) -sum(j in S) x; } -> { (sum@13 [i@17 in R@22] (neg@25 (sum@26 [j@30 in S@35] x@38))); }
parentheses behind a binder: subject to { sum(i in R) (x + y) * 2; } -> { (sum@13 [i@17 in R@22] (mul@25 (add@25 +x@26 +y@30) *2@35)); }
a difference of sums over ranges: subject to { sum(i in R) x - sum(j in S) y - 1; } -> { (add@13 +(sum@13 [i@17 in R@22] x@25) -(sum@29 [j@33 in S@38] y@41) -1@45); }
a difference from a sum behind a minus: subject to { -sum(i in R) x - y; } -> { (add@13 +(neg@13 (sum@14 [i@18 in R@23] x@26)) -y@30); }
a sum over a range before and: subject to { sum(i in R) x && b; } -> { (and@13 (sum@13 [i@17 in R@22] x@25) b@30); }
an expression as an end: subject to { sum(i in a..b + 1) i; } -> { (sum@13 [i@17 in a@22..(add@25 +b@25 +1@29)] i@32); }
minuses in both ends: subject to { sum(i in -1..-b) i; } -> { (sum@13 [i@17 in (neg@22 1@23)..(neg@26 b@27)] i@30); }
an index and parentheses as ends: subject to { sum(i in a[1]..(2)) i; } -> { (sum@13 [i@17 in a@22[1@24]..2@28] i@33); }
parentheses round a first end: subject to { sum(i in (a)..2) i; } -> { (sum@13 [i@17 in a@22..2@27] i@30); }
a sum as an end: subject to { sum(i in sum(j in R) j..9) i; } -> { (sum@13 [i@17 in (sum@22 [j@26 in R@31] j@34)..9@37] i@40); }
a function behind a binder: subject to { sum(i in R) min(i, 2) * 3; } -> { (sum@13 [i@17 in R@22] (mul@25 (min@25 i@29 2@32) *3@37)); }
";

/// Where texts are refused that have no expression.
pub const NO_EXPRESSIONS: &str = "\
no expression: subject to { ; } -> 104 at 13
not before nothing: subject to { !; } -> 104 at 14
a minus before nothing: subject to { -; } -> 104 at 14
a plus in front: subject to { +a; } -> 104 at 13
a plus before nothing: subject to { a +; } -> 104 at 16
two pluses: subject to { a + + b; } -> 104 at 17
a plus behind a minus: subject to { a - + b; } -> 104 at 17
two names: subject to { a b; } -> 104 at 15
a literal behind a name: subject to { a 5; } -> 104 at 15
a name behind a literal: subject to { 5 a; } -> 104 at 15
two stars: subject to { a * * b; } -> 104 at 17
`mod` behind `div`: subject to { a div mod b; } -> 104 at 19
or behind and: subject to { a && || b; } -> 104 at 18
an arrow behind at most: subject to { a <= => b; } -> 104 at 18
an implication of nothing: subject to { a =>; } -> 104 at 17
an implication from nothing: subject to { => a; } -> 104 at 13
one equals sign: subject to { a = b; } -> 104 at 15
dots between names: subject to { a .. b; } -> 104 at 15
a colon between names: subject to { a : b; } -> 104 at 15
a slash between names: subject to { a / b; } -> 104 at 15
a comma between names: subject to { a, b; } -> 104 at 14
not behind equal: subject to { a == !b; } -> 104 at 18
not behind a plus: subject to { a + !b; } -> 104 at 17
not behind a star: subject to { a * !b; } -> 104 at 17
not behind a minus: subject to { -!a; } -> 104 at 14
not behind `abs`: subject to { abs !a; } -> 104 at 17
two comparisons: subject to { 1 < 2 < 3; } -> 104 at 19
two comparisons of equality: subject to { a == b != c; } -> 104 at 20
a comparison with nothing: subject to { a <; } -> 104 at 16
a bracket that is opened at the end: subject to { a[; } -> 104 at 15
an empty index: subject to { a[]; } -> 104 at 15
a comma in an index: subject to { a[i, j]; } -> 104 at 16
an index that is not closed: subject to { a[i; } -> 104 at 16
an index that is closed by a parenthesis: subject to { a[i); } -> 104 at 16
an index of a literal: subject to { 5[i]; } -> 104 at 14
an index of parentheses: subject to { (a)[i]; } -> 104 at 16
empty parentheses: subject to { (); } -> 104 at 14
parentheses that are not closed: subject to { (a; } -> 104 at 15
parentheses that are closed by a bracket: subject to { (a]; } -> 104 at 15
a comma in parentheses: subject to { (a, b); } -> 104 at 15
`abs` alone: subject to { abs; } -> 104 at 16
`abs` of nothing: subject to { abs(); } -> 104 at 17
`abs` of two: subject to { abs(a, b); } -> 104 at 18
`abs` without parentheses: subject to { abs a; } -> 104 at 17
`min` of one: subject to { min(a); } -> 104 at 18
`min` of one and a comma: subject to { min(a,); } -> 104 at 19
`min` of nothing: subject to { min(); } -> 104 at 17
`min` without parentheses: subject to { min a; } -> 104 at 17
`max` that is not closed: subject to { max(a, b; } -> 104 at 21
`max` that begins with a comma: subject to { max(, b); } -> 104 at 17
the word `in`: subject to { in; } -> 104 at 13
the word `range`: subject to { range; } -> 104 at 13
the word `all`: subject to { all; } -> 104 at 13
the word `prob`: subject to { prob; } -> 104 at 17
`prob` in parentheses: subject to { (prob(a) >= 1/2); } -> 104 at 14
the word `forall`: subject to { forall; } -> 104 at 19
`forall` behind not: subject to { !forall(i in R) 1; } -> 104 at 14
parentheses behind a minus that are not closed: subject to { -(a; } -> 104 at 16
the word `sum`: subject to { sum; } -> 104 at 16
a sum of nothing: subject to { sum(i in R); } -> 104 at 24
a sum without a binder: subject to { sum() x; } -> 104 at 17
a binder without a range: subject to { sum(i) x; } -> 104 at 18
a binder with nothing behind `in`: subject to { sum(i in) x; } -> 104 at 21
a comma behind a binder: subject to { sum(i in R,) x; } -> 104 at 24
a second binder without a range: subject to { sum(i in R, j) x; } -> 104 at 26
a literal as a binder: subject to { sum(5 in R) x; } -> 104 at 17
a sum without parentheses: subject to { sum i in R x; } -> 104 at 17
a range in parentheses: subject to { sum(i in (R)) x; } -> 104 at 25
an expression as a range: subject to { sum(i in R + 1) x; } -> 104 at 27
an index as a range: subject to { sum(i in R[1]) x; } -> 104 at 26
no upper end: subject to { sum(i in 1..) x; } -> 104 at 25
three ends: subject to { sum(i in 1..2..3) x; } -> 104 at 26
a comparison as a lower end: subject to { sum(i in a < b..3) x; } -> 104 at 24
a comparison as an upper end: subject to { sum(i in 1..2 < 3) x; } -> 104 at 27
a literal as a range: subject to { sum(i in 5) x; } -> 104 at 23
not behind a binder: subject to { sum(i in R) !x; } -> 104 at 25
a plus behind a binder: subject to { sum(i in R) + x; } -> 104 at 25
empty parentheses behind a binder: subject to { sum(i in R) (); } -> 104 at 26
an index of a sum: subject to { (sum(i in R) x)[1]; } -> 104 at 28
a plus between a minus and a sum: subject to { - + sum(i in R) x; } -> 104 at 15
no comma between binders: subject to { sum(i in R j in S) x; } -> 104 at 24
not in a lower end: subject to { sum(i in !a..2) x; } -> 104 at 22
the word `allDifferent`: subject to { allDifferent; } -> 104 at 25
`allDifferent` without `all`: subject to { allDifferent(x); } -> 104 at 26
`allDifferent` without parentheses: subject to { allDifferent all(i in R) x; } -> 104 at 26
`all` without parentheses: subject to { allDifferent(all i in R) x; } -> 104 at 30
`allDifferent` of nothing: subject to { allDifferent(all(i in R)); } -> 104 at 37
`allDifferent` of two: subject to { allDifferent(all(i in R) a, b); } -> 104 at 39
`all` outside a function: subject to { all(i in R) x; } -> 104 at 13
`cumulative` without `all`: subject to { cumulative(x); } -> 104 at 24
a task without parentheses: subject to { cumulative(all(i in R) a, b, c, 4); } -> 104 at 36
a task of two: subject to { cumulative(all(i in R) (a, b), 4); } -> 104 at 41
a task of four: subject to { cumulative(all(i in R) (a, b, c, d), 4); } -> 104 at 44
`cumulative` without a capacity: subject to { cumulative(all(i in R) (a, b, c)); } -> 104 at 45
`cumulative` with two capacities: subject to { cumulative(all(i in R) (a, b, c), 4, 5); } -> 104 at 48
a task in two parentheses: subject to { cumulative(all(i in R) ((a, b, c)), 4); } -> 104 at 39
`cumulative` of a task without `all`: subject to { cumulative((a, b, c), 4); } -> 104 at 24
";
