//! Why a text is not answered: refusals, limits and out of memory.

ghost use Rattle.std.specs.Prelude.{◌≡◌};
ghost use Rattle.sopl_base.specs.declared.fault.Fault.TheVariants.{Text};

use std::alloc::AllocError;

/// A text that breaks a rule: the rule's code, and the offset of the first byte that breaks it.
#[derive(Clone, Copy, Debug, PartialEq, Eq)]
pub struct Refusal {
    pub code: u16,
    pub at: usize,
}

/// A text that is too large: the limit's code, the number that was counted, and the limit.
#[derive(Clone, Copy, Debug, PartialEq, Eq)]
pub struct Excess {
    pub code: u16,
    pub counted: i128,
    pub limit: i128,
}

/// Why a step of the compiler gave no answer.
#[derive(Clone, Copy, Debug, PartialEq, Eq)]
pub enum Fault {
    Text(Refusal),
    Limit(Excess),
    NoMemory,
}

impl Fault {
    /// The refusal of a text with a code, at an offset.
    pub fn refused(code: u16, at: usize) -> Fault
        ensures { result ≡ Text (record { code = code; at = at }) }
    {
        Fault::Text(Refusal { code, at })
    }
}

impl From<AllocError> for Fault {
    ghost use Rattle.std.specs.Prelude.{◌≡◌};
    ghost use Rattle.sopl_base.specs.declared.fault.Fault.{Fault};
    ghost use Rattle.sopl_base.specs.declared.fault.Fault.TheVariants.{NoMemory};

    ghost from_gives = { λ _ fault. fault ≡ NoMemory };

    fn from(_error: AllocError) -> Fault {
        Fault::NoMemory
    }
}
