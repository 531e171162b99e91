//! Marks of definedness, and truths.

ghost use Rattle.std.specs.Prelude.{◌≡◌};
ghost use Rattle.term_language.specs.Marks as rule;
ghost use Rattle.term_math.specs.Shown.{ends_of};

use crate::ends::Ends;
use sopl_base::CmpOp;
use term_language::{Defined, Truth};

/// Never where one of two is, Always where both are, else Maybe.
pub fn both(a: Defined, b: Defined) -> Defined
    ensures { result ≡ rule.both a b }
{
    match a {
        Defined::Never => Defined::Never,
        Defined::Maybe => match b {
            Defined::Never => Defined::Never,
            Defined::Maybe => Defined::Maybe,
            Defined::Always => Defined::Maybe,
        },
        Defined::Always => b,
    }
}

/// `!` of three values.
pub fn opposite(a: Truth) -> Truth
    ensures { result ≡ rule.opposite a }
{
    match a {
        Truth::False => Truth::True,
        Truth::Unknown => Truth::Unknown,
        Truth::True => Truth::False,
    }
}

/// `&&` of three values.
pub fn and_truth(a: Truth, b: Truth) -> Truth
    ensures { result ≡ rule.and_truth a b }
{
    match a {
        Truth::False => Truth::False,
        Truth::Unknown => match b {
            Truth::False => Truth::False,
            Truth::Unknown => Truth::Unknown,
            Truth::True => Truth::Unknown,
        },
        Truth::True => b,
    }
}

/// `||` of three values.
pub fn or_truth(a: Truth, b: Truth) -> Truth
    ensures { result ≡ rule.or_truth a b }
{
    match a {
        Truth::False => b,
        Truth::Unknown => match b {
            Truth::False => Truth::Unknown,
            Truth::Unknown => Truth::Unknown,
            Truth::True => Truth::True,
        },
        Truth::True => Truth::True,
    }
}

/// A truth as a number.
pub fn truth_ends(a: Truth) -> Ends
    ensures { ends_of result ≡ rule.truth_ends a }
{
    match a {
        Truth::False => Ends { low: 0, high: 0 },
        Truth::Unknown => Ends { low: 0, high: 1 },
        Truth::True => Ends { low: 1, high: 1 },
    }
}

/// No number of an interval compares so with 0.
pub fn none_compares(op: CmpOp, a: &Ends) -> bool
    ensures { result ≡ rule.none_compares op (ends_of a.now) }
{
    match op {
        CmpOp::Eq => 0 < a.low || a.high < 0,
        CmpOp::Ne => a.low == 0 && a.high == 0,
        CmpOp::Lt => 0 <= a.low,
        CmpOp::Le => 0 < a.low,
        CmpOp::Gt => a.high <= 0,
        CmpOp::Ge => a.high < 0,
    }
}

/// Each number of an interval compares so with 0.
pub fn all_compare(op: CmpOp, a: &Ends) -> bool
    ensures { result ≡ rule.all_compare op (ends_of a.now) }
{
    match op {
        CmpOp::Eq => none_compares(CmpOp::Ne, a),
        CmpOp::Ne => none_compares(CmpOp::Eq, a),
        CmpOp::Lt => none_compares(CmpOp::Ge, a),
        CmpOp::Le => none_compares(CmpOp::Gt, a),
        CmpOp::Gt => none_compares(CmpOp::Le, a),
        CmpOp::Ge => none_compares(CmpOp::Lt, a),
    }
}

/// False where an operand is Never defined or the condition surely fails, True where all are Always defined and it surely holds.
pub fn judged(mark: Defined, fails: bool, holds: bool) -> Truth
    ensures { result ≡ rule.judged mark fails holds }
{
    match mark {
        Defined::Never => Truth::False,
        Defined::Maybe => {
            if fails {
                return Truth::False;
            }
            Truth::Unknown
        }
        Defined::Always => {
            if fails {
                return Truth::False;
            }
            if holds {
                return Truth::True;
            }
            Truth::Unknown
        }
    }
}

/// A comparison of an interval with 0.
pub fn compared(op: CmpOp, a: &Ends, mark: Defined) -> Truth
    ensures { result ≡ rule.compared op (ends_of a.now) mark }
{
    let fails = none_compares(op, a);
    let holds = all_compare(op, a);
    judged(mark, fails, holds)
}
