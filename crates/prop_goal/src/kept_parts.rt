//! Parts of an objective and their ends over a box, kept from one box to the next.

ghost use Rattle.std.specs.Prelude.{◌≡◌, ◌<◌, ℕ, Bool, [], false, length, pos, slice_get, IfOk, IfSome, Some};
ghost use Rattle.box_problem.specs.Box.{Box, Inside};
ghost use Rattle.prop_core.specs.Watches.{AgreeElsewhere};
ghost use Rattle.prop_shave.specs.GoalKnown.{IsPartSeen};
ghost use Rattle.term_goals.specs.Goals.{AtomsExist};
ghost use Rattle.term_goals.specs.declared.sums.Atom.{Atom as Part};
ghost use Rattle.term_program.specs.declared.program.Program.{Program as Stated};
ghost use Rattle.term_program.specs.Programs.{IsMade, root_in, things_in};
ghost use Rattle.prop_chance.specs.UpToDate.{AreListed, IsUpToDate};
ghost use Rattle.prop_goal.specs.Cells.{AreGoalCells};
ghost use Rattle.prop_goal.specs.KeptParts.{AreAlike, AreOneEach, IsPartPut, KeepsParts, better_by, touches};

use crate::goal_cells::GoalCells;
use box_store::BoxStore;
use prop_chance::Outdated;
use prop_shave::{PartEnds, see_part};
use sopl_base::Wide;
use std::alloc::{AllocError, Global};
use term_goals::Atom;
use term_program::Program;

/// Parts of an objective, which are multiples of terms, with their ends over a box, as they were seen last; and which parts are to be seen
/// anew.
#[derive(Drop)]
pub struct KeptParts {
    pub atoms: Vec<Atom>,
    pub ends: Vec<PartEnds>,
    pub outdated: Outdated,
}

/// The ends of a part that was not seen.
fn no_ends() -> PartEnds
    ensures { result.better.value ≡ pos 0 }
{
    PartEnds {
        better: Wide { value: 0 },
        worse: None,
    }
}

impl KeptParts {
    /// These parts, none of which was seen; with room for so many cells.
    pub(crate) fn new(
        alloc: Global,
        atoms: Vec<Atom>,
        cells: usize,
    ) -> Result<KeptParts, AllocError>
        ensures atoms { IfOk result (λ made. made.atoms ≡ atoms) }
        ensures ends { IfOk result (λ made. length made.ends.items ≡ length atoms.items) }
        ensures waits { IfOk result (λ made. length made.outdated.waits.items ≡ length atoms.items) }
        ensures cleared { IfOk result (λ made. (number : ℕ) → better_by made.ends.items number ≡ pos 0) }
        ensures keeps { IfOk result (λ made. (program : Stated) (b : Box) → KeepsParts program b made) }
    {
        let ends = Vec::from_elem(alloc, no_ends(), atoms.len())?;
        let outdated = Outdated::new(alloc, atoms.len(), cells)?;
        let mut made = KeptParts {
            atoms,
            ends,
            outdated,
        };
        made.forget();
        Ok(made)
    }

    /// Takes each part's ends for none that was seen.
    fn clear(&mut self)
        ensures cleared { (number : ℕ) → better_by self.new.ends.items number ≡ pos 0 }
        ensures atoms { self.new.atoms ≡ self.old.atoms }
        ensures outdated { self.new.outdated ≡ self.old.outdated }
        ensures room { length self.new.ends.items ≡ length self.old.ends.items }
    {
        'parts: for at in 0..self.ends.len() {
            self.ends[at] = no_ends();
        }
    }

    /// Forgets what was seen: each part is to be seen anew.
    pub(crate) fn forget(&mut self)
        ensures keeps { (program : Stated) (b : Box) → KeepsParts program b self.new }
        ensures cleared { (number : ℕ) → better_by self.new.ends.items number ≡ pos 0 }
        ensures alike { AreAlike self.old self.new }
    {
        self.clear();
        self.outdated.let_all_wait();
    }

    /// Is told that a cell may have changed.
    pub(crate) fn tell(&mut self, cell: u32)
        ensures keeps { (program : Stated) (b c : Box) → AgreeElsewhere cell b c → KeepsParts program b self.old
            → KeepsParts program c self.new }
        ensures told { (mentions : ℕ → ℕ → Bool) (number : ℕ) → IsUpToDate mentions self.new.outdated number
            → IsUpToDate mentions self.old.outdated number × (mentions cell number ≡ false) }
        ensures ends { self.new.ends ≡ self.old.ends }
        ensures alike { AreAlike self.old self.new }
    {
        self.outdated.tell(cell);
    }

    /// Lets the parts wait that mention a cell which was told, by the parts that mention each cell.
    pub(crate) fn let_told_wait(&mut self, watched: &GoalCells)
        requires watched { (program : Stated) × AreGoalCells watched.now program self.old.atoms.items }
        requires waits { length self.old.outdated.waits.items ≡ length self.old.atoms.items }
        ensures wait { (program : Stated) (number : ℕ) → AreGoalCells watched.now program self.old.atoms.items
            → IsUpToDate (touches program self.old.atoms.items) self.new.outdated number
            → IsUpToDate (touches program self.old.atoms.items) self.old.outdated number }
        ensures clean { self.new.outdated.told.items ≡ [] }
        ensures listed { AreListed self.old.outdated → AreListed self.new.outdated }
        ensures ends { self.new.ends ≡ self.old.ends }
        ensures alike { AreAlike self.old self.new }
    {
        self.outdated
            .let_told_wait(watched.cells.as_slice(), watched.touched.as_slice());
    }

    /// The ends of a part over the box of a store, or none where they have no room.
    pub(crate) fn see(&self, program: &Program, store: &BoxStore, number: usize) -> Option<PartEnds>
        requires made { IsMade program.now }
        requires inside { Inside store.now.box (root_in program.now) }
        requires exist { AtomsExist (length (things_in program.now)) self.now.atoms.items }
        requires exists { number < length self.now.atoms.items }
        ensures seen { IfSome result (λ e. (a : Part) → slice_get self.now.atoms.items number ≡ Some a
            → IsPartSeen program.now store.now.box a e) }
    {
        see_part(program, &self.atoms[number], store)
    }

    /// Sets the ends of a part, which waits no more.
    pub(crate) fn put(&mut self, number: usize, ends: &PartEnds)
        requires exists { number < length self.old.atoms.items }
        requires one_each { AreOneEach self.old }
        ensures put { IsPartPut self.old self.new number ends.now }
        ensures alike { AreAlike self.old self.new }
    {
        self.ends[number] = *ends;
        self.outdated.wait_no_more(number);
    }
}
