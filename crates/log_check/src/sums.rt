//! The sums over a box by which chance constraints and the objective close it.

ghost use Rattle.std.specs.Prelude.{◌≡◌, ◌<◌, ◌∷◌, [], true, false, length, IfOk, IfSome};
ghost use Rattle.std.specs.List.{AllByRecursion};
ghost use Rattle.std.specs.Option.{option_map_or};
ghost use Rattle.term_program.specs.Mentions.{atom_ids};
ghost use Rattle.box_problem.specs.Box.{Box, Inside};
ghost use Rattle.box_store.specs.Store.{AgreesOutside};
ghost use Rattle.term_problem.specs.Objective.{better_end, goal_ends};
ghost use Rattle.term_problem.specs.Problems.{direction_in};
ghost use Rattle.term_program.specs.declared.program.Program.{Program as Stated};
ghost use Rattle.term_program.specs.Programs.{IsListedTerm, IsMade, problem_in, root_in, summed_form};
ghost use Rattle.prop_shave.specs.ChanceSums.{left_over};
ghost use Rattle.log_check.specs.KeptSums.{AreGoalParts, KeepsSums, SumsFollow};

use crate::changes::Changes;
use crate::seen_sum::{CellList, SeenSum};
use crate::sum_parts::{EndParts, WeightParts};
use box_store::BoxStore;
use sopl_base::Wide;
use std::alloc::{AllocError, Global};
use term_goals::Atom;
use term_program::{Program, TermId};

/// For each chance constraint the weight that is left to it, and the better end of an expected objective with the parts of which it is the
/// sum, as they were seen; and which cells have changed since. All is forgotten where a check begins; then the lists of the cells that
/// parts mention, which are those of the program that they were made for, are compared with those of the program that is asked.
#[derive(Drop)]
pub(crate) struct Sums {
    pub(crate) changes: Changes,
    pub(crate) weights: Vec<SeenSum>,
    pub(crate) atoms: Vec<Atom>,
    pub(crate) ends: SeenSum,
}

/// These cells.
fn cell_list(alloc: Global, cells: &[u32]) -> Result<CellList, AllocError>
    ensures cells { IfOk result (λ list. list.cells.items ≡ cells.now) }
{
    let cells = Vec::from_slice(alloc, cells)?;
    Ok(CellList { cells })
}

/// Room for the weight that is left to a chance constraint.
fn weight_sum(alloc: Global, program: &Program, instance: u32) -> Result<SeenSum, AllocError>
    requires made { IsMade program.now }
    requires instance { instance < length (problem_in program.now).chances }
    ensures seen { IfOk result (λ made. made.seen ≡ 0) }
{
    let mut lists = Vec::new(alloc);
    'scenarios: for scenario in 0..program.scenarios() {
        let cells = program.cells_of(program.chance(instance, scenario));
        lists.push(cell_list(alloc, cells)?)?;
    }
    SeenSum::new(alloc, lists)
}

/// Room for the weights that are left to all chance constraints.
fn weight_sums(alloc: Global, program: &Program) -> Result<Vec<SeenSum>, AllocError>
    requires made { IsMade program.now }
{
    let mut sums = Vec::new(alloc);
    'instances: for instance in 0..program.chances() {
        sums.push(weight_sum(alloc, program, instance)?)?;
    }
    Ok(sums)
}

/// The cells that each of these parts of an objective's sum mentions.
fn part_lists(alloc: Global, program: &Program, atoms: &[Atom]) -> Result<Vec<CellList>, AllocError>
    requires made { IsMade program.now }
    requires listed { AllByRecursion (IsListedTerm program.now) (atom_ids atoms.now) }
{
    let mut lists = Vec::new(alloc);
    'parts: for at in 0..atoms.len() {
        let cells = program.term_cells(TermId(atoms[at].term));
        lists.push(cell_list(alloc, cells)?)?;
    }
    Ok(lists)
}

/// Those of an expected objective; of no part where the worst scenario counts.
fn end_lists(alloc: Global, program: &Program) -> Result<Vec<CellList>, AllocError>
    requires made { IsMade program.now }
{
    if program.worst() {
        return Ok(Vec::new(alloc));
    }
    part_lists(alloc, program, program.goal_atoms())
}

/// The constant of an expected objective.
fn constant_of(program: &Program) -> Wide
    requires made { IsMade program.now }
    requires expected { option_map_or (λ goal. goal.worst) (problem_in program.now).goal false ≡ false }
    ensures { result.value ≡ (summed_form (root_in program.now) (problem_in program.now)).constant }
{
    Wide {
        value: program.goal_constant(),
    }
}

impl Sums {
    /// Room for those of a program; nothing was seen.
    pub(crate) fn new(alloc: Global, program: &Program) -> Result<Sums, AllocError>
        requires made { IsMade program.now }
        ensures cells { IfOk result (λ made. length made.changes.last.items ≡ length (root_in program.now).lows) }
    {
        let changes = Changes::new(alloc, program.cells() as usize)?;
        let weights = weight_sums(alloc, program)?;
        let lists = end_lists(alloc, program)?;
        let atoms = Vec::from_elem(alloc, Atom { k: 0, term: 0 }, lists.len())?;
        let ends = SeenSum::new(alloc, lists)?;
        Ok(Sums {
            changes,
            weights,
            atoms,
            ends,
        })
    }

    /// Forgets what was seen.
    pub(crate) fn forget(&mut self)
        ensures in_step { (program : Stated) (b : Box) → length self.old.changes.last.items ≡ length b.lows → KeepsSums program b self.new }
    {
        'instances: for at in 0..self.weights.len() {
            self.weights[at].forget();
        }
        self.ends.forget();
    }

    /// Is told that a cell has changed.
    pub(crate) fn tell(&mut self, cell: u32)
        ensures follow { (b c : Box) → AgreesOutside (cell ∷ []) b c → SumsFollow b c self.old self.new }
    {
        self.changes.tell(cell);
    }

    /// Is told that each of these cells has changed.
    pub(crate) fn tell_all(&mut self, cells: &[u32])
        ensures follow { (b c : Box) → AgreesOutside cells.now b c → SumsFollow b c self.old self.new }
    {
        self.changes.tell_all(cells);
    }

    /// The weight that is left to a chance constraint over the box of a store; none where it is not kept.
    pub(crate) fn left(
        &mut self,
        program: &Program,
        instance: u32,
        store: &BoxStore,
    ) -> Option<Wide>
        requires made { IsMade program.now }
        requires inside { Inside store.now.box (root_in program.now) }
        requires instance { instance < length (problem_in program.now).chances }
        requires in_step { KeepsSums program.now store.now.box self.old }
        ensures left { IfSome result (λ left. left.value ≡ left_over (root_in program.now) (problem_in program.now) instance
            store.now.box) }
        ensures in_step { KeepsSums program.now store.now.box self.new }
    {
        let at = instance as usize;
        if at >= self.weights.len() {
            return None;
        }
        let parts = WeightParts {
            program,
            instance,
            store,
        };
        self.weights[at].renewed(&mut self.changes, &parts)
    }

    /// Takes the parts of an expected objective, unless they were seen; whether they are kept.
    fn takes_atoms(&mut self, program: &Program) -> bool
        requires made { IsMade program.now }
        ensures parts { (b : Box) → KeepsSums program.now b self.old → result ≡ true → AreGoalParts program.now self.new.atoms.items }
        ensures in_step { (b : Box) → KeepsSums program.now b self.old → KeepsSums program.now b self.new }
    {
        if self.ends.seen > 0 {
            return true;
        }
        if program.worst() {
            return false;
        }
        let atoms = program.goal_atoms();
        if self.atoms.len() != atoms.len() {
            return false;
        }
        self.atoms.copy_from_slice(atoms);
        true
    }

    /// The better end of an expected objective over the box of a store; none where it is not kept.
    pub(crate) fn end(&mut self, program: &Program, store: &BoxStore) -> Option<Wide>
        requires made { IsMade program.now }
        requires inside { Inside store.now.box (root_in program.now) }
        requires in_step { KeepsSums program.now store.now.box self.old }
        ensures end { IfSome result (λ end. end.value ≡ better_end (direction_in (problem_in program.now))
            (goal_ends (root_in program.now) store.now.box (problem_in program.now))) }
        ensures in_step { KeepsSums program.now store.now.box self.new }
    {
        if !self.takes_atoms(program) {
            return None;
        }
        let parts = EndParts {
            program,
            store,
            atoms: self.atoms.as_slice(),
        };
        let sum = self.ends.renewed(&mut self.changes, &parts)?;
        constant_of(program).checked_plus(sum)
    }
}
