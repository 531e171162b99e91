//! The operators of a chain of products, and the functions of one number.

ghost use Rattle.std.specs.Prelude.{◌≡◌};
ghost use Rattle.sopl_ast.specs.Numbers.{called};

/// How a further part of a chain joins what stands before it.
#[derive(Clone, Copy, Debug, PartialEq, Eq)]
pub enum MulOp {
    Times,
    Div,
    Mod,
}

/// A function of one number.
#[derive(Clone, Copy, Debug, PartialEq, Eq)]
pub enum Function {
    /// The number with its sign changed.
    Negative,
    /// The size, as `abs` gives it.
    Size,
}

impl Function {
    /// What the function makes of a number.
    pub fn of(self, x: i64) -> i128
        ensures { result ≡ called self x }
    {
        match self {
            Function::Negative => -i128::from(x),
            Function::Size => i128::from(x.unsigned_abs()),
        }
    }
}
