//! How many things are met while a text is unfolded.

ghost use Rattle.std.specs.Prelude.{◌≡◌, [], ◌∷◌};
ghost use Rattle.sopl_ast.specs.UnfoldEvents.{Counted};
ghost use Rattle.unfold_tables.specs.Walks.{Walks};

use sopl_base::{Excess, Fault, codes, limits};

/// How many elements, values of binders and instances of constraints were met so far.
#[derive(Debug, Drop)]
pub struct Count {
    pub counted: u32,
}

impl Count {
    /// Nothing was met.
    pub fn new() -> Count
        ensures { result.counted ≡ 0 }
    {
        Count { counted: 0 }
    }

    /// Counts one thing more.
    pub fn add(&mut self) -> Result<(), Fault>
        ensures { Walks self.old.counted self.new.counted (Counted ∷ []) result }
    {
        if self.counted >= limits::UNFOLDED {
            return Err(Fault::Limit(Excess {
                code: codes::UNFOLDING,
                counted: i128::from(limits::UNFOLDED) + 1,
                limit: i128::from(limits::UNFOLDED),
            }));
        }
        self.counted += 1;
        Ok(())
    }
}
