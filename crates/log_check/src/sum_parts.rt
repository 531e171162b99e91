//! What sums over the box of a store are made of.

ghost use Rattle.std.specs.Prelude.{◌≡◌, ◌<◌, length, IfSome};
ghost use Rattle.term_program.specs.Programs.{problem_in, root_in, things_in};
ghost use Rattle.term_problem.specs.Problems.{direction_in};
ghost use Rattle.prop_shave.specs.ChanceSums.{condition_cells, weight_over};
ghost use Rattle.prop_shave.specs.GoalSums.{part_at, part_cells, part_over};
ghost use Rattle.log_check.specs.KeptSums.{AreEndParts, AreScenarios};

use box_store::BoxStore;
use prop_shave::{see_part, weight_unless_false};
use sopl_base::Wide;
use term_goals::Atom;
use term_program::{CondId, Program, TermId, kleene};

/// The parts of a sum over the box of a store.
pub(crate) trait SumParts {
    ghost use Rattle.std.specs.Prelude.{◌≡◌, ◌<◌, ℕ, ℤ, List, Contains, IfSome};

    /// Whether what is lent is right.
    ghost asked: { Self → Type 0 };

    /// How many parts there are.
    ghost count: { Self → ℕ };

    /// The cells that each part mentions.
    ghost mention: { Self → ℕ → List ℕ };

    /// What each part is over the box.
    ghost value: { Self → ℕ → ℤ };

    /// How many parts there are.
    fn len(&self) -> usize
        requires asked { asked self.now }
        ensures { result ≡ count self.now };

    /// The cells that a part mentions.
    fn cells(&self, at: usize) -> &[u32]
        requires asked { asked self.now }
        requires exists { at < count self.now }
        ensures { (cell : ℕ) → Contains (mention self.now at) cell → Contains result.now cell };

    /// What a part is over the box, or none where that has no room.
    fn part(&self, at: usize) -> Option<Wide>
        requires asked { asked self.now }
        requires exists { at < count self.now }
        ensures { IfSome result (λ part. part.value ≡ value self.now at) };
}

/// The scenarios of a chance constraint: each counts its weight, unless the condition is False there.
#[derive(Clone, Copy)]
pub(crate) struct WeightParts<'a> {
    pub(crate) program: &'a Program,
    pub(crate) instance: u32,
    pub(crate) store: &'a BoxStore,
}

impl WeightParts<'_> {
    /// The scenario with a number.
    fn scenario(&self, at: usize) -> u32
        requires asked { AreScenarios self.now }
        requires exists { at < length (problem_in self.now.program.now).weights }
        ensures { result ≡ at }
    {
        let _count = self.program.scenarios();
        at as u32
    }
}

impl SumParts for WeightParts<'_> {
    ghost asked = { AreScenarios };

    ghost count = { λ parts. length (problem_in parts.program.now).weights };

    ghost mention = { λ parts. condition_cells (root_in parts.program.now) (problem_in parts.program.now) parts.instance };

    ghost value = { λ parts. weight_over (root_in parts.program.now) (problem_in parts.program.now) parts.instance parts.store.now.box };

    fn len(&self) -> usize {
        self.program.scenarios() as usize
    }

    fn cells(&self, at: usize) -> &[u32] {
        let cond = self.program.chance(self.instance, self.scenario(at));
        self.program.cells_of(cond)
    }

    fn part(&self, at: usize) -> Option<Wide> {
        let scenario = self.scenario(at);
        let cond = self.program.chance(self.instance, scenario);
        let truth = kleene(self.program, cond, self.store);
        Some(weight_unless_false(self.program, scenario, truth))
    }
}

/// The parts of an expected objective's sum: each counts its better end.
#[derive(Clone, Copy)]
pub(crate) struct EndParts<'a> {
    pub(crate) program: &'a Program,
    pub(crate) store: &'a BoxStore,
    pub(crate) atoms: &'a [Atom],
}

impl SumParts for EndParts<'_> {
    ghost asked = { AreEndParts };

    ghost count = { λ parts. length parts.atoms.now };

    ghost mention = { λ parts. part_cells parts.program.now parts.atoms.now };

    ghost value = { λ parts. part_at parts.program.now parts.atoms.now parts.store.now.box };

    fn len(&self) -> usize {
        self.atoms.len()
    }

    fn cells(&self, at: usize) -> &[u32] {
        self.program.term_cells(TermId(self.atoms[at].term))
    }

    fn part(&self, at: usize) -> Option<Wide> {
        let ends = see_part(self.program, &self.atoms[at], self.store)?;
        Some(ends.better)
    }
}
