//! Texts whose names stand for other numbers and cells in each scenario.

/// An order before the demand is seen, and sales behind it: x is cell 0, and y has the cells 1 and 2. The constraints `y <= d` are `y - 1 <= 0` and `y - 3 <= 0`.
pub(crate) const ORDER: &str =
    "dvar int x in 0..5 stage 1; stoch int d in {1:1, 3:1} stage 1; dvar int y in 0..3 stage 2; \
maximize expected(4*y - 3*x); subject to { y <= d; y <= x; }";

/// A chance constraint before a hard one, in scenarios that weigh 2 and 3.
pub(crate) const STOCK: &str =
    "dvar int x in 0..5; stoch int d in {1:2, 4:3}; minimize expected(x * d + 7); subject to { prob(x >= d) >= 2/3; forall(i in 1..2) x <= i + d; }";
