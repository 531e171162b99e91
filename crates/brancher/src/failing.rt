//! The brancher that cuts where nodes closed before.

ghost use Rattle.std.specs.Prelude.{◌≡◌, replicate};
ghost use Rattle.brancher.specs.Rules.{free};
ghost use Rattle.brancher.specs.Choices.{AreEnds, Chooses, IsMostHalved};
ghost use Rattle.brancher.specs.Counters.{counters_after, raised, counter_weight};

use crate::branching::Brancher;
use crate::choice::{Choice, Event};
use crate::finding::{halved, most_counted};

/// Halves the interval of the cell whose cuts have closed the most nodes, the first one of several. It counts in 256 counters, each of which serves
/// the cells of one remainder.
#[derive(Drop)]
pub struct Failing {
    counters: [u32; 256],
}

impl Failing {
    /// Makes one whose counters are 0.
    pub fn new() -> Failing
        ensures counters { result.counters ≡ replicate 256 0 }
    {
        Failing { counters: [0; 256] }
    }

    /// Raises the counter of a cell.
    fn raise(&mut self, cell: u32)
        ensures { self.new.counters ≡ raised self.old.counters cell }
    {
        let place = cell as usize % 256;
        self.counters[place] = self.counters[place].saturating_add(1);
    }
}

impl Brancher for Failing {
    ghost use Rattle.std.specs.Prelude.{codes, None};
    ghost use Rattle.brancher.specs.Rules.{free};

    ghost label = { λ _. codes "failing" };

    ghost rule = { λ _. free };

    ghost heard = { λ _. None };

    fn name(&self) -> &str {
        "failing"
    }

    fn choose(&mut self, lows: &[i64], highs: &[i64]) -> Option<Choice>
        requires ends { AreEnds lows.now highs.now }
        ensures chosen { Chooses (IsMostHalved (counter_weight self.old.counters) lows.now highs.now) lows.now highs.now result }
        ensures same { self.new.counters ≡ self.old.counters }
    {
        let cell = most_counted(&self.counters, lows, highs)?;
        Some(halved(cell, lows, highs))
    }

    fn told(&mut self, event: Event)
        ensures counted { self.new.counters ≡ counters_after self.old.counters event }
    {
        if let Event::Closed { cell: Some(cell) } = event {
            self.raise(cell);
        }
    }
}
