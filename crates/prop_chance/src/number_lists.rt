//! Lists of numbers of things that may wait.

ghost use Rattle.std.specs.Prelude.{◌≡◌, ◌<◌, get_or, length};
ghost use Rattle.prop_chance.specs.UpToDate.{numbers_in, part_numbers};

use prop_shave::{TouchedParts, TouchedScenarios};

/// Numbers of several things.
pub trait NumberList {
    ghost use Rattle.std.specs.Prelude.{◌≡◌, ◌<◌, ℕ, List, get_or, length};

    /// These numbers.
    ghost numbers: { Self → List ℕ };

    /// How many they are.
    fn len(&self) -> usize
        ensures { result ≡ length (numbers self.now) };

    /// The number at a place.
    fn number_at(&self, at: usize) -> usize
        requires exists { at < length (numbers self.now) }
        ensures { result ≡ get_or (numbers self.now) at 0 };
}

impl NumberList for TouchedScenarios {
    ghost numbers = { numbers_in };

    fn len(&self) -> usize {
        self.numbers.len()
    }

    fn number_at(&self, at: usize) -> usize {
        self.numbers[at] as usize
    }
}

impl NumberList for TouchedParts {
    ghost numbers = { part_numbers };

    fn len(&self) -> usize {
        self.numbers.len()
    }

    fn number_at(&self, at: usize) -> usize {
        self.numbers[at]
    }
}
