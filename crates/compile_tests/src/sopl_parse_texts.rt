//! Texts with declarations, constraints and objectives, and what they give by the grammar.

/// What declarations and objectives give.
pub const DECLARATIONS: &str = "\
a constant: int n = 5; subject to { } -> int n@4 = 5@8; { }
an implication in parentheses as a constant: int n = (a => b); subject to { } -> int n@4 = (=>@8 a@9 b@14); { }
an implication as a constant: int n = a => b; subject to { } -> int n@4 = (=>@8 a@8 b@13); { }
an array over a range: int n[R] = 5; subject to { } -> int n@4[@6 R@6] = 5@11; { }
an array of two dimensions, and an empty list: int n[R][1..3] = []; subject to { } -> int n@4[@6 R@6][@9 1@9..3@12] = [@17]; { }
a binder of a dimension: int n[i in R] = i; subject to { } -> int n@4[i@6 in R@11] = i@16; { }
two binders of dimensions: int n[i in 1..3][j in S] = i * j; subject to { } -> int n@4[i@6 in 1@11..3@14][j@17 in S@22] = (mul@27 i@27 *j@31); { }
a list: int n[1..2] = [1, 2]; subject to { } -> int n@4[@6 1@6..2@9] = [@14 1@15 2@18]; { }
lists in lists: int n = [[], [1], [[2, (3)], !4]]; subject to { } -> int n@4 = [@8 [@9] [@13 1@14] [@18 [@19 2@20 3@23] (not@29 4@30)]]; { }
a sum as a lower end of a dimension: int n[R + 1..5] = 0; subject to { } -> int n@4[@6 (add@6 +R@6 +1@10)..5@13] = 0@18; { }
an index as a lower end of a dimension: int n[R[1]..5] = 0; subject to { } -> int n@4[@6 R@6[1@8]..5@12] = 0@17; { }
parentheses as a lower end of a dimension: int n[(R)..5] = 0; subject to { } -> int n@4[@6 R@6..5@11] = 0@16; { }
a name as a lower end behind a binder: int n[i in R..5] = 0; subject to { } -> int n@4[i@6 in R@11..5@14] = 0@19; { }
parentheses as a lower end behind a binder: int n[i in (R)..5] = 0; subject to { } -> int n@4[i@6 in R@11..5@16] = 0@21; { }
a minus as a lower end of a dimension: int n[-1..1][R] = 0; subject to { } -> int n@4[@6 (neg@6 1@7)..1@10][@13 R@13] = 0@18; { }
a sum over a range as a lower end of a dimension: int n[sum(i in R) i..9] = 0; subject to { } -> int n@4[@6 (sum@6 [i@10 in R@15] i@18)..9@21] = 0@26; { }
two constants: int a = 1; int b = 2; subject to { } -> int a@4 = 1@8; int b@15 = 2@19; { }
a range: range R = 1..5; subject to { } -> range R@6 = 1@10..5@13; { }
expressions as ends of a range: range R = a + 1..b * 2; subject to { } -> range R@6 = (add@10 +a@10 +1@14)..(mul@17 b@17 *2@21); { }
minuses and parentheses as ends of a range: range R = (-1)..-(2); subject to { } -> range R@6 = (neg@10 1@12)..(neg@16 2@17); { }
a sum over a set as an end of a range: range R = sum(i in S) i..9; subject to { } -> range R@6 = (sum@10 [i@14 in S@19] i@22)..9@25; { }
an empty set: {int} S = {}; subject to { } -> set S@6 = { }; { }
a set of one: {int} S = {1}; subject to { } -> set S@6 = { 1@11 }; { }
a set of three expressions: {int} S = {1, -2, n * 3}; subject to { } -> set S@6 = { 1@11 (neg@14 2@15) (mul@18 n@18 *3@22) }; { }
a comparison in parentheses in a set: {int} S = {(1 == 2)}; subject to { } -> set S@6 = { (==@11 1@12 2@17) }; { }
spaces within braces: { int } S = { } ; subject to { } -> set S@8 = { }; { }
a decision between two ends: dvar int x in 0..9; subject to { } -> dvar x@9 in 0@14..9@17; { }
a decision in a range: dvar int x in R; subject to { } -> dvar x@9 in R@14; { }
a decision with a stage: dvar int x in R stage 2; subject to { } -> dvar x@9 in R@14 stage 2@22; { }
an array of decisions with an expression as their stage: dvar int x[R] in R stage a + 1; subject to { } -> dvar x@9[@11 R@11] in R@17 stage (add@25 +a@25 +1@29); { }
decisions whose ends and stage go by a binder: dvar int x[i in R][1..2] in lo[i]..hi[i] stage i; subject to { } -> dvar x@9[i@11 in R@16][@19 1@19..2@22] in lo@28[i@31]..hi@35[i@38] stage i@47; { }
parentheses as ends of a decision: dvar int x in (a)..(b); subject to { } -> dvar x@9 in a@14..b@19; { }
a sum as a lower end of a decision: dvar int x in R + 1..2; subject to { } -> dvar x@9 in (add@14 +R@14 +1@18)..2@21; { }
a stochastic variable of one outcome: stoch int d in {1:1}; subject to { } -> stoch d@10 in { 1@16:1@18 }; { }
a stochastic variable of three outcomes: stoch int d in {1:1, 3:2, n + 1:m * 2} stage 2; subject to { } -> stoch d@10 in { 1@16:1@18 3@21:2@23 (add@26 +n@26 +1@30):(mul@32 m@32 *2@36) } stage 2@45; { }
an array of stochastic variables: stoch int d[i in R] in {-1:w[i]} stage (i); subject to { } -> stoch d@10[i@12 in R@17] in { (neg@24 1@25):w@27[i@29] } stage i@39; { }
a least expected value: minimize expected(x); subject to { } -> minimize expected x@18; { }
a least worst value: minimize worst(x + 1); subject to { } -> minimize worst (add@15 +x@15 +1@19); { }
a greatest expected value: maximize expected(a => b); subject to { } -> maximize expected (=>@18 a@18 b@23); { }
a greatest worst value: maximize worst((x)); subject to { } -> maximize worst x@15; { }
each kind of declaration, and an objective: int n = 1; range R = 1..n; {int} S = {n}; dvar int x in R; stoch int d in {1:1}; maximize worst(x); subject to { } -> int n@4 = 1@8; range R@17 = 1@21..n@24; set S@33 = { n@38 }; dvar x@51 in R@56; stoch d@69 in { 1@75:1@77 }; maximize worst x@96; { }
";

/// Where texts are refused that have no declaration or objective.
pub const NO_DECLARATIONS: &str = "\
`int` alone: int subject to { } -> 104 at 4
a constant without a value: int n subject to { } -> 104 at 6
a constant that ends behind its name: int n; subject to { } -> 104 at 5
a constant without a name: int = 5; subject to { } -> 104 at 4
a literal as a name: int 5 = 5; subject to { } -> 104 at 4
nothing as a value: int n = ; subject to { } -> 104 at 8
no semicolon behind a constant: int n = 5 subject to { } -> 104 at 10
two constants in one declaration: int n = 1, m = 2; subject to { } -> 104 at 9
equal in place of an equals sign: int n == 5; subject to { } -> 104 at 6
a keyword as a name: int int = 5; subject to { } -> 104 at 4
two names: int n m = 5; subject to { } -> 104 at 6
an empty dimension: int n[] = 5; subject to { } -> 104 at 6
a literal as a dimension: int n[5] = 5; subject to { } -> 104 at 7
a binder with nothing behind `in`: int n[i in] = 5; subject to { } -> 104 at 10
a literal as a binder's range: int n[i in 3] = 5; subject to { } -> 104 at 12
a comma between dimensions: int n[R, S] = 5; subject to { } -> 104 at 7
a dimension that is not closed: int n[R = 5; subject to { } -> 104 at 8
a range in parentheses as a dimension: int n[(R)] = 1; subject to { } -> 104 at 9
an expression as a dimension: int n[R + 1] = 1; subject to { } -> 104 at 11
a binder's range in parentheses: int n[i in (R)] = 1; subject to { } -> 104 at 14
two ranges of a binder: int n[i in R in S] = 1; subject to { } -> 104 at 13
a binder in parentheses: int n[(i) in R] = 1; subject to { } -> 104 at 10
a comparison as a dimension: int n[i == j] = 1; subject to { } -> 104 at 8
three ends of a dimension: int n[1..2..3] = 1; subject to { } -> 104 at 10
a name between dimensions: int n[R] S] = 1; subject to { } -> 104 at 9
a dimension in parentheses: int n(R) = 1; subject to { } -> 104 at 5
two binders of a range: int n[i in j in R] = 1; subject to { } -> 104 at 13
a comma at the end of a list: int n = [1,]; subject to { } -> 104 at 11
a comma at the front of a list: int n = [, 1]; subject to { } -> 104 at 9
no comma in a list: int n = [1 2]; subject to { } -> 104 at 11
a list that is not closed: int n = [1; subject to { } -> 104 at 10
a list before a plus: int n = [1] + 2; subject to { } -> 104 at 12
an index of a list: int n = [1][2]; subject to { } -> 104 at 11
a list behind a plus: int n = 1 + [2]; subject to { } -> 104 at 12
a list in parentheses: int n = ([1]); subject to { } -> 104 at 9
ends in a list: int n = [1..2]; subject to { } -> 104 at 10
a stage of a constant: int n = 1 stage 2; subject to { } -> 104 at 10
a domain of a constant: int n in 1..2; subject to { } -> 104 at 6
a literal as a range: range R = 5; subject to { } -> 104 at 11
a name as a range: range R = S; subject to { } -> 104 at 11
a range without an upper end: range R = 1..; subject to { } -> 104 at 13
a range without a lower end: range R = ..5; subject to { } -> 104 at 10
a range with three ends: range R = 1..2..3; subject to { } -> 104 at 14
an array of ranges: range R[1] = 1..2; subject to { } -> 104 at 7
a comparison as a lower end of a range: range R = a < b..5; subject to { } -> 104 at 12
and behind an upper end of a range: range R = 1..2 && 3; subject to { } -> 104 at 15
`in` in the declaration of a range: range R in 1..2; subject to { } -> 104 at 8
a stage of a range: range R = 1..2 stage 1; subject to { } -> 104 at 15
a range in brackets: range R = [1..2]; subject to { } -> 104 at 10
a comma at the end of a set: {int} S = {1,}; subject to { } -> 104 at 13
a set of a comma: {int} S = {,}; subject to { } -> 104 at 11
no comma in a set: {int} S = {1 2}; subject to { } -> 104 at 13
ends in a set: {int} S = {1..3}; subject to { } -> 104 at 12
ends as a set: {int} S = 1..3; subject to { } -> 104 at 10
a set in brackets: {int} S = [1]; subject to { } -> 104 at 10
an array of sets: {int} S[1] = {}; subject to { } -> 104 at 7
a brace before `int` that is not closed: {int S = {}; subject to { } -> 104 at 5
a set without a name: {int} = {}; subject to { } -> 104 at 6
`range` in place of `int`: {range} S = {}; subject to { } -> 104 at 1
nothing in place of `int`: {} S = {}; subject to { } -> 104 at 1
a comparison in a set: {int} S = {a == b}; subject to { } -> 104 at 13
a set in a set: {int} S = {{1}}; subject to { } -> 104 at 11
`in` in the declaration of a set: {int} S in {}; subject to { } -> 104 at 8
no semicolon behind a set: {int} S = {1} subject to { } -> 104 at 14
a decision without `int`: dvar x in R; subject to { } -> 104 at 5
a decision without a domain: dvar int x; subject to { } -> 104 at 10
a decision with a value: dvar int x = 5; subject to { } -> 104 at 11
a decision with outcomes: dvar int x in {1:1}; subject to { } -> 104 at 14
a decision's range in parentheses: dvar int x in (R); subject to { } -> 104 at 17
an expression as a decision's range: dvar int x in R + 1; subject to { } -> 104 at 19
two ranges of a decision: dvar int x in R in S; subject to { } -> 104 at 16
an index as a decision's range: dvar int x in R[1]; subject to { } -> 104 at 18
a comparison behind a decision's upper end: dvar int x in 1..2 == 3; subject to { } -> 104 at 19
a decision's stage without a number: dvar int x in 0..9 stage; subject to { } -> 104 at 24
two stages: dvar int x in R stage 1 stage 2; subject to { } -> 104 at 24
a comparison as a stage: dvar int x in R stage a == b; subject to { } -> 104 at 24
a stage before the domain: dvar int x stage 1 in R; subject to { } -> 104 at 11
a range as a decision: dvar range R = 1..2; subject to { } -> 104 at 5
nothing as a domain: dvar int x in ; subject to { } -> 104 at 14
a second dimension that is not closed: dvar int x[R] [S in R; subject to { } -> 104 at 21
a stage as a domain: dvar int x in stage 1; subject to { } -> 104 at 14
no outcome: stoch int d in {}; subject to { } -> 104 at 16
an outcome without a weight: stoch int d in {1}; subject to { } -> 104 at 17
an outcome with nothing as its weight: stoch int d in {1:}; subject to { } -> 104 at 18
a comma at the end of outcomes: stoch int d in {1:1,}; subject to { } -> 104 at 20
an outcome with two weights: stoch int d in {1:2:3}; subject to { } -> 104 at 19
no comma between outcomes: stoch int d in {1:1 2:1}; subject to { } -> 104 at 20
a range as outcomes: stoch int d in R; subject to { } -> 104 at 15
ends as outcomes: stoch int d in 0..1; subject to { } -> 104 at 15
a comparison as an outcome: stoch int d in {a == b:1}; subject to { } -> 104 at 18
a comparison as a weight: stoch int d in {1:a == b}; subject to { } -> 104 at 20
an equals sign before outcomes: stoch int d = {1:1}; subject to { } -> 104 at 12
a stochastic variable without `int`: stoch d in {1:1}; subject to { } -> 104 at 6
a stochastic variable's stage without a number: stoch int d in {1:1} stage; subject to { } -> 104 at 26
a weight without an outcome: stoch int d in {:1}; subject to { } -> 104 at 16
an objective without `expected` or `worst`: minimize (x); subject to { } -> 104 at 9
an objective without parentheses: minimize expected x; subject to { } -> 104 at 18
no semicolon behind an objective: minimize worst(x) subject to { } -> 104 at 18
an objective of nothing: minimize worst(); subject to { } -> 104 at 15
a plus behind an objective: maximize expected(x) + 1; subject to { } -> 104 at 21
an objective of two: maximize expected(x, y); subject to { } -> 104 at 19
two objectives: minimize expected(x); maximize worst(x); subject to { } -> 104 at 22
a declaration behind an objective: minimize expected(x); int n = 1; subject to { } -> 104 at 22
`minimize` twice: minimize minimize subject to { } -> 104 at 9
an objective without a direction: expected(x); subject to { } -> 104 at 0
an objective that is not closed: maximize worst(x; subject to { } -> 104 at 16
`forall` before `subject to`: forall(i in R) 1; subject to { } -> 104 at 0
an expression before `subject to`: x; subject to { } -> 104 at 0
a constant without `int`: n = 5; subject to { } -> 104 at 0
a semicolon alone: ; subject to { } -> 104 at 0
two semicolons: int n = 5;; subject to { } -> 104 at 10
";

/// What constraints give, and where texts are refused that have none.
pub const CONSTRAINTS: &str = "\
no constraint: subject to {  } -> { }
two constraints: subject to { 1; 2; } -> { 1@13; 2@16; }
an empty block: subject to { { } } -> { { } }
blocks in a block: subject to { { { } { 1; } } } -> { { { } { 1@21; } } }
a constraint behind a block: subject to { { 1; 2; } 3; } -> { { 1@15; 2@18; } 3@23; }
`forall`: subject to { forall(i in R) 1; } -> { forall [i@20 in R@25] 1@28; }
`forall` over an empty block: subject to { forall(i in R) { } } -> { forall [i@20 in R@25] { } }
`forall` in `forall`: subject to { forall(i in R, j in 1..i) forall(k in S) { x; forall(l in k..9) y; } z; } -> { forall [i@20 in R@25][j@28 in 1@33..i@36] forall [k@46 in S@51] { x@56; forall [l@66 in k@71..9@74] y@77; } z@82; }
`forall` over a chance constraint: subject to { forall(i in R) prob(x) >= 1/2; } -> { forall [i@20 in R@25] prob x@33 >= 1@39/2@41; }
a chance constraint: subject to { prob(x == 1) >= 1/4; } -> { prob (==@18 x@18 1@23) >= 1@29/4@31; }
a minus and a product in a threshold: subject to { prob(a => b) >= -1/2 * 3; } -> { prob (=>@18 a@18 b@23) >= (neg@29 1@30)/(mul@32 2@32 *3@36); }
sums in a threshold: subject to { prob(x) >= a + 1/b - 1; } -> { prob x@18 >= (add@24 +a@24 +1@28)/(add@30 +b@30 -1@34); }
parentheses in a threshold: subject to { prob(x) >= (1)/(2); } -> { prob x@18 >= 1@24/2@28; }
sums over ranges in a threshold: subject to { prob(x) >= sum(i in R) i/sum(i in R) 2 * i; } -> { prob x@18 >= (sum@24 [i@28 in R@33] i@36)/(sum@38 [i@42 in R@47] (mul@50 2@50 *i@54)); }
a chance constraint in a block: subject to { { prob((x)) >= 1/2; } } -> { { prob x@20 >= 1@28/2@30; } }
parentheses behind `forall`: subject to { forall(i in R) (i); } -> { forall [i@20 in R@25] i@28; }
an expression as an end of `forall`: subject to { forall(i in a + 1..b) { i; } } -> { forall [i@20 in (add@25 +a@25 +1@29)..b@32] { i@37; } }
two semicolons: subject to { 1;; } -> 104 at 15
no semicolon: subject to { 1 } -> 104 at 15
a comma between constraints: subject to { 1, 2; } -> 104 at 14
no semicolon in a block: subject to { { 1 } } -> 104 at 17
a semicolon behind a block: subject to { { 1; }; } -> 104 at 19
a plus behind a block: subject to { { 1; } + 2; } -> 104 at 20
a semicolon alone in a block: subject to { {;} } -> 104 at 14
`forall` before a semicolon: subject to { forall(i in R); } -> 104 at 27
`forall` before a brace: subject to { forall(i in R) } -> 104 at 28
`forall` without a binder: subject to { forall() 1; } -> 104 at 20
`forall` without parentheses: subject to { forall i in R 1; } -> 104 at 20
a binder without a range: subject to { forall(i) 1; } -> 104 at 21
a comma behind a binder: subject to { forall(i in R, ) 1; } -> 104 at 28
a range in parentheses: subject to { forall(i in (R)) 1; } -> 104 at 28
a literal as a range: subject to { forall(i in 1) 1; } -> 104 at 26
a semicolon behind the block of `forall`: subject to { forall(i in R) { 1; }; } -> 104 at 34
a plus behind `forall`: subject to { forall(i in R) + 1; } -> 104 at 28
`forall` behind a plus: subject to { 1 + forall(i in R) 1; } -> 104 at 17
greater before a threshold: subject to { prob(x) > 1/2; } -> 104 at 21
a threshold without a denominator: subject to { prob(x) >= 1; } -> 104 at 25
a threshold with two denominators: subject to { prob(x) >= 1/2/3; } -> 104 at 27
equal before a threshold: subject to { prob(x) == 1/2; } -> 104 at 21
a comparison behind a threshold: subject to { prob(x) >= 1/2 == y; } -> 104 at 28
and behind a threshold: subject to { prob(x) >= 1/2 && y; } -> 104 at 28
a comparison in a threshold: subject to { prob(x) >= a < b/2; } -> 104 at 26
`prob` without parentheses: subject to { prob x >= 1/2; } -> 104 at 18
`prob` of nothing: subject to { prob() >= 1/2; } -> 104 at 18
no semicolon behind a threshold: subject to { prob(x) >= 1/2 } -> 104 at 28
`prob` of two: subject to { prob(x, y) >= 1/2; } -> 104 at 19
not before `prob`: subject to { !prob(x) >= 1/2; } -> 104 at 14
a factor before `prob`: subject to { 2 * prob(x) >= 1/2; } -> 104 at 17
a plus behind `prob`: subject to { prob(x) + 1 >= 1/2; } -> 104 at 21
nothing as a denominator: subject to { prob(x) >= 1/; } -> 104 at 26
nothing as a numerator: subject to { prob(x) >= /2; } -> 104 at 24
a constant among constraints: subject to { int n = 1; } -> 104 at 13
an objective among constraints: subject to { minimize expected(x); } -> 104 at 13
a decision among constraints: subject to { dvar int x in R; } -> 104 at 13
a list as a constraint: subject to { [1]; } -> 104 at 13
`subject to` among constraints: subject to { subject to { } } -> 104 at 13
";

/// What whole texts give: what stands around the parts, spaces and comments, ends that come too early, and what is no token.
pub const WHOLE: &str = "\
the empty text:  -> 104 at 0
a space:   -> 104 at 1
`subject` alone: subject -> 104 at 7
`subject to` alone: subject to -> 104 at 10
a brace that is opened at the end: subject to { -> 104 at 12
a space at the end: subject to { }  -> { }
a semicolon behind the text: subject to { }; -> 104 at 14
a brace behind the text: subject to { } } -> 104 at 15
a name behind the text: subject to { } x -> 104 at 15
`to` left out: subject { } -> 104 at 8
`subject` left out: to { } -> 104 at 0
a constraint without braces: subject to 1; -> 104 at 11
parentheses in place of braces: subject to ( ) -> 104 at 11
`subject` twice: subject subject to { } -> 104 at 8
two texts: subject to { } subject to { } -> 104 at 15
a name alone: x -> 104 at 0
an opening brace alone: { -> 104 at 1
a closing brace alone: } -> 104 at 0
a literal alone: 5 -> 104 at 0
a comment at the end: subject to { } // c -> { }
a mistake before a comment: subject to { x y; } // c -> 104 at 15
a comment alone:   // only a comment -> 104 at 19
an end too early behind a comment: subject to { 5 /* c */ -> 104 at 22
an end too early behind a declaration: dvar int x in 0..5; subject to { -> 104 at 32
a byte that is no token: subject to { x # 1; } -> 102 at 15
a comment that is not closed: subject to { } /* open -> 102 at 15
a literal that is too large: subject to { 1 <= 1099511627777; } -> 116 at 18
no spaces: subject to{x[1]>=2;y;} -> { (>=@11 x@11[1@13] 2@17); y@19; }
";

/// Texts of several lines, each between its word and what it gives.
pub const LINES: &[(&str, &str, &str)] = &[
    ("several lines", "subject to\n{\n  x;\n}\n", "{ x@15; }"),
    (
        "comments between tokens",
        "/* a */ subject /* b */ to { // c\n x; }",
        "{ x@35; }",
    ),
];
