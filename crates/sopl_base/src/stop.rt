//! Why a search gives no outcome.

use std::alloc::AllocError;

/// Why a search gives no outcome, or a reply none to give: the sink of the log failed, or memory ran out.
#[derive(Clone, Copy, Debug, PartialEq, Eq)]
pub enum SearchStop {
    Write,
    NoMemory,
}

impl From<AllocError> for SearchStop {
    ghost use Rattle.std.specs.Prelude.{◌≡◌};
    ghost use Rattle.sopl_base.specs.declared.stop.SearchStop.{SearchStop};
    ghost use Rattle.sopl_base.specs.declared.stop.SearchStop.TheVariants.{NoMemory};

    ghost from_gives = { λ _ stop. stop ≡ NoMemory };

    fn from(_error: AllocError) -> SearchStop {
        SearchStop::NoMemory
    }
}
