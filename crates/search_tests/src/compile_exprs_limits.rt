//! Texts, and the limits that their terms pass.

/// Texts behind a word, and the limits that their terms pass: too many nodes, before a term that is too large and with nothing built; a hard constraint's
/// term and not the objective's; the objective's alone; a hard constraint's and not that of a chance constraint before it; of one constraint
/// the first scenario's; an objective whose size is one too great, and one that is at the limit. Terms of `allDifferent` and tasks count once
/// for each value; of a task the start comes first, then its length and its demand, then the next task, and the capacity last.
pub(crate) const LIMITS: &str = "\
too many nodes: range C = 1..14; stoch int c[C] in {0:1, 1:1}; subject to { sum(i in 1..254) i >= 0; } -> 206 4210688
too many nodes before a term that is too large: range C = 1..14; stoch int c[C] in {0:1, 1:1}; dvar int x in 0..65535; subject to { x * 1099511627776 >= sum(i in 1..254) i; } -> 206 4243456
a hard constraint before the objective: dvar int x in 0..65535; maximize expected(x * x * 1099511627776); subject to { x * 1099511627776 >= 0; } -> 207 72056494526300160
the objective alone: dvar int x in 0..65535; maximize expected(x * 1099511627776); subject to { x >= 0; } -> 207 72056494526300160
a hard constraint before a chance constraint: dvar int x in 0..65535; subject to { prob(x * x * 1099511627776 >= 0) >= 1/2; x * 1099511627776 >= 0; } -> 207 72056494526300160
the first scenario of a constraint: dvar int x in 0..65535; stoch int d in {1:1, 2:1}; subject to { x * d * 1099511627776 >= 0; } -> 207 72056494526300160
the first scenario, where it is the greater one: dvar int x in 0..65535; stoch int d in {2:1, 1:1}; subject to { x * d * 1099511627776 >= 0; } -> 207 144112989052600320
an expected value one too large: dvar int x in 0..65535; stoch int a in {0:1073741824}; stoch int b in {0:1073741824}; stoch int c in {0:1073741824}; maximize expected(x * 1048593); subject to { } -> 207 85070672840065989843959263248561209344
an expected value at the limit: dvar int x in 0..65535; stoch int a in {0:1073741824}; stoch int b in {0:1073741824}; stoch int c in {0:1073741824}; maximize expected(x * 1048592); subject to { } -> none
a worst value is not multiplied: dvar int x in 0..65535; stoch int a in {0:1073741824}; stoch int b in {0:1073741824}; stoch int c in {0:1073741824}; maximize worst(x * 1048593); subject to { } -> none
terms of allDifferent count once for each value: range T = 1..14; range R = 1..300; stoch int d[T] in {0:1, 1:1}; dvar int x in 0..1; subject to { allDifferent(all(i in R) x + i); } -> 206 14761984
tasks count once for each value: range C = 1..14; stoch int c[C] in {0:1, 1:1}; subject to { cumulative(all(i in 1..85) (i, 1, 1), 1); } -> 206 4210688
the start of a task first: dvar int x in 0..65535; subject to { cumulative(all(i in 1..2) (x*549755813888, x*1099511627776, 1), x); } -> 207 36028247263150080
a length before a demand: dvar int x in 0..65535; subject to { cumulative(all(i in 1..2) (i, x*1099511627776, x*549755813888), x); } -> 207 72056494526300160
all of a task before the next one: dvar int x in 0..65535; subject to { cumulative(all(i in 1..2) ((i - 1)*x*549755813888, 1, x*1099511627776), x); } -> 207 72056494526300160
the capacity last: dvar int x in 0..65535; subject to { cumulative(all(i in 1..2) (i, 1, x*549755813888), x*1099511627776); } -> 207 36028247263150080
a capacity under a negation: dvar int x in 0..65535; subject to { !cumulative(all(i in 1..2) (i, 1, 1), x*1099511627776); } -> 207 72056494526300160
terms of allDifferent in an objective: dvar int x in 0..65535; maximize expected(2*allDifferent(all(i in 1..2) x*i*1099511627776)); subject to { } -> 207 72056494526300160
";
