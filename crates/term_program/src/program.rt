//! A program, and what it tells of itself.

ghost use Rattle.std.specs.Prelude.{◌≡◌, ◌<◌, ◌^◌, false, length, pos, if◌then◌else◌, Some, option_map, slice_get, [], IfOk, IfSome, IfNone};
ghost use Rattle.std.specs.Option.{option_and_then, option_map_or};
ghost use Rattle.std.specs.List.{AllByRecursion};
ghost use Rattle.box_problem.specs.Box.{Box, Inside, box_of, high, low};
ghost use Rattle.term_language.specs.Ends.{exactly, plus};
ghost use Rattle.term_problem.specs.Objective.{goal_ends};
ghost use Rattle.term_nodes.specs.Built.{AllBelow};
ghost use Rattle.term_nodes.specs.Things.{cond_at, term_at, terms_at};
ghost use Rattle.term_problem.specs.Problems.{IsProblem, denominator_in, direction_in};
ghost use Rattle.term_goals.specs.Goals.{AtomsExist, goal_of, listed_ends};
ghost use Rattle.term_program.specs.Drafts.{AreAtomsOf, IsDraft, IsGoalOf, draft_problem, draft_root, draft_things};
ghost use Rattle.term_language.specs.Mentions.{cond_mentions, mentions};
ghost use Rattle.term_program.specs.Globals.{global_terms, term_ids};
ghost use Rattle.term_program.specs.Mentions.{IsListOf, atom_ids};
ghost use Rattle.term_program.specs.Programs.{IsListed, IsListedTerm, IsMade, problem_in, root_in, summed_form, things_in, with_goal};

use crate::draft::Draft;
use crate::globals::GlobalTerms;
use crate::mentions::Mentioned;
use sopl_base::{Direction, Interval};
use std::alloc::{AllocError, Global};
use term_goals::{Atom, Goal};
use term_store::{CondId, TermId};

/// A compiled problem: its terms, the weight of each scenario and that of all together, its constraints and its objective.
#[derive(Drop)]
pub struct Program {
    pub(crate) draft: Draft,
    pub(crate) goal: Option<Goal>,
    pub(crate) atoms: Vec<Atom>,
    pub(crate) mentioned: Mentioned,
    pub(crate) globals: GlobalTerms,
}

/// What the sum of an objective has besides its constant.
#[tactic(auto, using(crate::proofs::Goals::atoms_sum))]
fn atoms_of(draft: &Draft, goal: &Goal) -> Result<Vec<Atom>, AllocError>
    requires draft { IsDraft draft.now }
    requires goal { IsGoalOf draft.now goal.now }
    ensures { IfOk result (λ atoms. AreAtomsOf draft.now goal.now atoms.items) }
{
    let root = draft.store.root();
    let here = draft.store.here(&root);
    let atoms = goal.atoms(draft.alloc, &here, draft.nodes.as_slice())?;
    Ok(atoms)
}

/// What the sum of an objective has besides its constant; nothing where there is no objective.
fn atoms_in(draft: &Draft, goal: &Option<Goal>) -> Result<Vec<Atom>, AllocError>
    requires draft { IsDraft draft.now }
    requires goal { IfSome goal.now (IsGoalOf draft.now) }
    ensures some { IfOk result (λ atoms. IfSome goal.now (λ g. AreAtomsOf draft.now g atoms.items)) }
    ensures none { IfOk result (λ atoms. IfNone goal.now (atoms.items ≡ [])) }
{
    match goal {
        Some(goal) => atoms_of(draft, goal),
        None => Ok(Vec::new(draft.alloc)),
    }
}

impl Program {
    /// The program of a draft, with this objective or with none.
    pub fn new(draft: Draft, goal: Option<Goal>) -> Result<Program, AllocError>
        requires draft { IsDraft draft }
        requires problem { IsProblem (with_goal (draft_problem draft) (option_map (goal_of (draft_things draft)) goal)) }
        requires goal { IfSome goal (IsGoalOf draft) }
        ensures made { IfOk result IsMade }
        ensures root { IfOk result (λ program. root_in program ≡ draft_root draft) }
        ensures things { IfOk result (λ program. things_in program ≡ draft_things draft) }
        ensures problem { IfOk result (λ program. problem_in program ≡ with_goal (draft_problem draft) (option_map (goal_of (draft_things draft)) goal)) }
    {
        let atoms = atoms_in(&draft, &goal)?;
        let mentioned = Mentioned::of(&draft, &goal, atoms.as_slice())?;
        let globals = GlobalTerms::of(&draft)?;
        Ok(Program {
            draft,
            goal,
            atoms,
            mentioned,
            globals,
        })
    }

    /// How many cells there are.
    pub fn cells(&self) -> u32
        requires made { IsMade self.now }
        ensures { result ≡ length (root_in self.now).lows }
    {
        self.draft.cells
    }

    /// The interval of a cell in the box of all points.
    pub fn root(&self, cell: u32) -> Interval
        requires made { IsMade self.now }
        requires exists { cell < length (root_in self.now).lows }
        ensures low { result.lo ≡ low (root_in self.now) cell }
        ensures high { result.hi ≡ high (root_in self.now) cell }
    {
        let ends = self.draft.store.root().cell(cell);
        Interval {
            lo: ends.low,
            hi: ends.high,
        }
    }

    /// The interval of each cell in the box of all points.
    #[tactic(auto, using(crate::proofs::Roots::first_none, crate::proofs::Roots::first_more, crate::proofs::Roots::first_all))]
    pub fn roots(&self, alloc: Global) -> Result<Vec<Interval>, AllocError>
        requires made { IsMade self.now }
        ensures root { IfOk result (λ roots. box_of roots.items ≡ root_in self.now) }
        ensures few { IfOk result (λ roots. length roots.items < 2 ^ 32) }
    {
        let mut roots = Vec::new(alloc);
        'cells: for cell in 0..self.cells() {
            roots.push(self.root(cell))?;
        }
        Ok(roots)
    }

    /// The objective's term in a scenario, where there is an objective.
    pub fn goal(&self, scenario: u32) -> Option<TermId>
        requires made { IsMade self.now }
        requires exists { scenario < length (problem_in self.now).weights }
        ensures term { option_map (λ id. term_at (things_in self.now) id.0) result ≡ option_and_then (λ goal. slice_get goal.terms scenario) (problem_in self.now).goal }
        ensures exists { IfSome result (λ id. id.0 < length (things_in self.now)) }
        ensures listed { IfSome result (λ id. IsListedTerm self.now id.0) }
    {
        match &self.goal {
            Some(goal) => match goal.terms().get(scenario as usize) {
                Some(id) => Some(TermId(*id)),
                None => None,
            },
            None => None,
        }
    }

    /// How many scenarios there are.
    pub fn scenarios(&self) -> u32
        requires made { IsMade self.now }
        ensures { result ≡ length (problem_in self.now).weights }
    {
        self.draft.weights.len() as u32
    }

    /// How many hard constraints there are.
    pub fn hards(&self) -> u32
        requires made { IsMade self.now }
        ensures { result ≡ length (problem_in self.now).hards }
    {
        self.draft.hards.len() as u32
    }

    /// How many chance constraints there are.
    pub fn chances(&self) -> u32
        requires made { IsMade self.now }
        ensures { result ≡ length (problem_in self.now).chances }
    {
        self.draft.chances.len() as u32
    }

    /// The condition of a hard constraint in a scenario.
    pub fn hard(&self, instance: u32, scenario: u32) -> CondId
        requires made { IsMade self.now }
        requires instance { instance < length (problem_in self.now).hards }
        requires scenario { scenario < length (problem_in self.now).weights }
        ensures condition { option_and_then (λ conditions. slice_get conditions scenario) (slice_get (problem_in self.now).hards instance) ≡ Some (cond_at (things_in self.now) result.0) }
        ensures exists { result.0 < length (things_in self.now) }
        ensures listed { IsListed self.now result.0 }
    {
        self.draft.hards[instance as usize].at(scenario)
    }

    /// The condition of a chance constraint in a scenario.
    pub fn chance(&self, instance: u32, scenario: u32) -> CondId
        requires made { IsMade self.now }
        requires instance { instance < length (problem_in self.now).chances }
        requires scenario { scenario < length (problem_in self.now).weights }
        ensures condition { option_and_then (λ chance. slice_get chance.conditions scenario) (slice_get (problem_in self.now).chances instance) ≡ Some (cond_at (things_in self.now) result.0) }
        ensures exists { result.0 < length (things_in self.now) }
        ensures listed { IsListed self.now result.0 }
    {
        self.draft.chances[instance as usize]
            .conditions
            .at(scenario)
    }

    /// The terms of an `allDifferent`; of a `cumulative` the start, the length and the demand of each task, and then its capacity. Another condition has none.
    pub fn terms(&self, cond: CondId) -> &[TermId]
        requires made { IsMade self.now }
        ensures terms { terms_at (things_in self.now) (term_ids result.now) ≡ global_terms (cond_at (things_in self.now) cond.0) }
        ensures exist { AllBelow (length (things_in self.now)) (term_ids result.now) }
    {
        self.globals.of_cond(cond.0)
    }

    /// The cells that a condition mentions which `hard` or `chance` gave.
    pub fn cells_of(&self, cond: CondId) -> &[u32]
        requires made { IsMade self.now }
        requires listed { IsListed self.now cond.0 }
        ensures cells { IsListOf (cond_mentions (root_in self.now) (cond_at (things_in self.now) cond.0)) result.now }
    {
        self.mentioned.conditions.of(cond.0)
    }

    /// The cells that a term mentions which `goal` gave.
    pub fn term_cells(&self, term: TermId) -> &[u32]
        requires made { IsMade self.now }
        requires listed { IsListedTerm self.now term.0 }
        ensures cells { IsListOf (mentions (root_in self.now) (term_at (things_in self.now) term.0)) result.now }
    {
        self.mentioned.terms.of(term.0)
    }

    /// The weight of a scenario.
    pub fn weight(&self, scenario: u32) -> i128
        requires exists { scenario < length (problem_in self.now).weights }
        ensures { slice_get (problem_in self.now).weights scenario ≡ Some result }
    {
        self.draft.weights[scenario as usize]
    }

    /// The weight of all scenarios together.
    pub fn total(&self) -> i128
        ensures { result ≡ (problem_in self.now).whole }
    {
        self.draft.whole
    }

    /// The two numbers of a chance constraint's threshold.
    pub fn threshold(&self, instance: u32) -> (i64, i64)
        requires exists { instance < length (problem_in self.now).chances }
        ensures p { option_map (λ chance. chance.p) (slice_get (problem_in self.now).chances instance) ≡ Some result.0 }
        ensures q { option_map (λ chance. chance.q) (slice_get (problem_in self.now).chances instance) ≡ Some result.1 }
    {
        let chance = &self.draft.chances[instance as usize];
        (chance.p, chance.q)
    }

    /// Which values of the objective are better; none where there is no objective.
    #[tactic(auto, using(crate::proofs::Goals::direction_kept))]
    pub fn direction(&self) -> Direction
        ensures { result ≡ direction_in (problem_in self.now) }
    {
        match &self.goal {
            Some(goal) => goal.direction(),
            None => Direction::Nothing,
        }
    }

    /// Whether the worst scenario counts; without an objective it does not.
    #[tactic(auto, using(crate::proofs::Goals::worst_kept))]
    pub fn worst(&self) -> bool
        ensures { result ≡ option_map_or (λ goal. goal.worst) (problem_in self.now).goal false }
    {
        match &self.goal {
            Some(goal) => goal.is_worst(),
            None => false,
        }
    }

    /// The constant of the sum of an expected objective; 0 where there is no objective.
    #[tactic(auto, using(crate::proofs::Goals::constant_kept))]
    pub fn goal_constant(&self) -> i128
        requires made { IsMade self.now }
        requires expected { option_map_or (λ goal. goal.worst) (problem_in self.now).goal false ≡ false }
        ensures constant { result ≡ (summed_form (root_in self.now) (problem_in self.now)).constant }
    {
        match &self.goal {
            Some(goal) => goal.constant(),
            None => 0,
        }
    }

    /// What the sum of an expected objective has besides its constant: multiples of several terms, which exist and whose cells `term_cells` gives. The
    /// intervals of these and the constant sum up to that of the objective. Which terms they are, and in which order, is not promised.
    #[tactic(auto, using(crate::proofs::Goals::atoms_kept, crate::proofs::Goals::atoms_exist))]
    pub fn goal_atoms(&self) -> &[Atom]
        requires made { IsMade self.now }
        requires expected { option_map_or (λ goal. goal.worst) (problem_in self.now).goal false ≡ false }
        ensures sum { (b : Box) → Inside b (root_in self.now)
            → plus (exactly (summed_form (root_in self.now) (problem_in self.now)).constant) (listed_ends (root_in self.now) b (things_in self.now) result.now)
            ≡ goal_ends (root_in self.now) b (problem_in self.now) }
        ensures exist { AtomsExist (length (things_in self.now)) result.now }
        ensures listed { AllByRecursion (IsListedTerm self.now) (atom_ids result.now) }
    {
        self.atoms.as_slice()
    }

    /// The one denominator of all values: the weight of all scenarios for an expected objective, else 1.
    #[tactic(auto, using(crate::proofs::Goals::denominator_kept))]
    pub fn denominator(&self) -> i128
        ensures { result ≡ denominator_in (problem_in self.now) }
    {
        match &self.goal {
            Some(goal) => self.over(goal.is_worst()),
            None => 1,
        }
    }

    /// What values are a part of, where the worst scenario counts or the expected value.
    fn over(&self, worst: bool) -> i128
        ensures { result ≡ (if worst then pos 1 else self.now.draft.whole) }
    {
        if worst { 1 } else { self.draft.whole }
    }
}
