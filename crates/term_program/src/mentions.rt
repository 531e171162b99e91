//! The cells that terms and conditions mention, as they are kept.

ghost use Rattle.std.specs.Prelude.{◌≡◌, ◌∷◌, [], ℕ, List, OnOk, IfOk, IsTrue};
ghost use Rattle.term_math.specs.Shown.{box_in};
ghost use Rattle.term_nodes.specs.Built.{IsBuilt};
ghost use Rattle.term_nodes.specs.Things.{things};
ghost use Rattle.term_program.specs.Drafts.{IsDraft, draft_root, draft_things};
ghost use Rattle.term_program.specs.Mentions.{AreLists, AreMentioned, Gained, HasList, HaveLists, IsListOf, atom_ids, chance_ids, cond_lists, goal_ids, hard_ids, term_lists};

use crate::draft::{ChanceConditions, Conditions, Draft};
use std::alloc::{AllocError, Global};
use std::collections::BTreeMap;
use term_cells::Nodes;
use term_goals::{Atom, Goal};

/// For each of several terms, or of several conditions, by its number, the cells that it mentions.
#[derive(Drop)]
pub struct Mentions {
    lists: BTreeMap<u32, Vec<u32>>,
}

impl Mentions {
    /// Of nothing.
    pub(crate) fn new(alloc: Global) -> Mentions
        ensures { (f : ℕ → List ℕ) → AreLists f result }
    {
        Mentions {
            lists: BTreeMap::new(alloc),
        }
    }

    /// Keeps the cells of a number.
    #[tactic(auto, using(crate::proofs::Lists::put_lists, crate::proofs::Lists::put_there, crate::proofs::Lists::put_stays))]
    fn put(&mut self, id: u32, cells: Vec<u32>) -> Result<(), AllocError>
        ensures lists { (f : ℕ → List ℕ) → AreLists f self.old → IsListOf (f id) cells.items → OnOk result (AreLists f self.new) }
        ensures stays { (other : ℕ) → IsTrue (HasList self.old other) → OnOk result (IsTrue (HasList self.new other)) }
        ensures has_list { OnOk result (IsTrue (HasList self.new id)) }
    {
        self.lists.insert(id, cells)?;
        Ok(())
    }

    /// Whether the cells of a number are kept.
    fn has(&self, id: u32) -> bool
        ensures { result ≡ HasList self.now id }
    {
        self.lists.contains_key(&id)
    }

    /// The cells of a number; none where they are not kept.
    pub(crate) fn of(&self, id: u32) -> &[u32]
        requires has_list { IsTrue (HasList self.now id) }
        ensures { (f : ℕ → List ℕ) → AreLists f self.now → IsListOf (f id) result.now }
    {
        match self.lists.get(&id) {
            Some(cells) => cells.as_slice(),
            None => &[],
        }
    }

    /// Keeps the cells of a condition.
    #[tactic(auto, using(crate::proofs::Lists::gained_one, crate::proofs::Lists::gained_same))]
    fn put_cond(&mut self, draft: &Draft, id: u32) -> Result<(), AllocError>
        requires draft { IsDraft draft.now }
        requires lists { AreLists (cond_lists (draft_root draft.now) (draft_things draft.now)) self.old }
        ensures { OnOk result (Gained (cond_lists (draft_root draft.now) (draft_things draft.now)) self.old self.new (id ∷ [])) }
    {
        if self.has(id) {
            return Ok(());
        }
        let cells = cond_cells(draft, id)?;
        self.put(id, cells)?;
        Ok(())
    }

    /// Keeps the cells of several conditions.
    #[tactic(auto, using(crate::proofs::Lists::gained_next, crate::proofs::Lists::gained_all, crate::proofs::Lists::gained_none))]
    fn put_conds(&mut self, draft: &Draft, ids: &[u32]) -> Result<(), AllocError>
        requires draft { IsDraft draft.now }
        requires lists { AreLists (cond_lists (draft_root draft.now) (draft_things draft.now)) self.old }
        ensures { OnOk result (Gained (cond_lists (draft_root draft.now) (draft_things draft.now)) self.old self.new ids.now) }
    {
        'ids: for id in ids {
            self.put_cond(draft, *id)?;
        }
        Ok(())
    }

    /// Keeps the cells of a term.
    #[tactic(auto, using(crate::proofs::Lists::gained_one, crate::proofs::Lists::gained_same))]
    fn put_term(&mut self, draft: &Draft, id: u32) -> Result<(), AllocError>
        requires draft { IsDraft draft.now }
        requires lists { AreLists (term_lists (draft_root draft.now) (draft_things draft.now)) self.old }
        ensures { OnOk result (Gained (term_lists (draft_root draft.now) (draft_things draft.now)) self.old self.new (id ∷ [])) }
    {
        if self.has(id) {
            return Ok(());
        }
        let cells = term_cells(draft, id)?;
        self.put(id, cells)?;
        Ok(())
    }

    /// Keeps the cells of several terms.
    #[tactic(auto, using(crate::proofs::Lists::gained_next, crate::proofs::Lists::gained_all, crate::proofs::Lists::gained_none))]
    fn put_terms(&mut self, draft: &Draft, ids: &[u32]) -> Result<(), AllocError>
        requires draft { IsDraft draft.now }
        requires lists { AreLists (term_lists (draft_root draft.now) (draft_things draft.now)) self.old }
        ensures { OnOk result (Gained (term_lists (draft_root draft.now) (draft_things draft.now)) self.old self.new ids.now) }
    {
        'ids: for id in ids {
            self.put_term(draft, *id)?;
        }
        Ok(())
    }

    /// Keeps the cells of the terms of an objective, where there is one.
    fn put_goal(&mut self, draft: &Draft, goal: &Option<Goal>) -> Result<(), AllocError>
        requires draft { IsDraft draft.now }
        requires lists { AreLists (term_lists (draft_root draft.now) (draft_things draft.now)) self.old }
        ensures { OnOk result (Gained (term_lists (draft_root draft.now) (draft_things draft.now)) self.old self.new (goal_ids goal.now)) }
    {
        match goal {
            Some(goal) => self.put_terms(draft, goal.terms()),
            None => Ok(()),
        }
    }

    /// Keeps the cells of the terms of atoms.
    #[tactic(auto, using(crate::proofs::Lists::atoms_next, crate::proofs::Lists::atoms_all, crate::proofs::Lists::gained_none))]
    fn put_atoms(&mut self, draft: &Draft, atoms: &[Atom]) -> Result<(), AllocError>
        requires draft { IsDraft draft.now }
        requires lists { AreLists (term_lists (draft_root draft.now) (draft_things draft.now)) self.old }
        ensures { OnOk result (Gained (term_lists (draft_root draft.now) (draft_things draft.now)) self.old self.new (atom_ids atoms.now)) }
    {
        'atoms: for atom in atoms {
            self.put_term(draft, atom.term)?;
        }
        Ok(())
    }

    /// Keeps the cells of the conditions of hard constraints.
    #[tactic(auto, using(crate::proofs::Lists::hards_next, crate::proofs::Lists::hards_all, crate::proofs::Lists::gained_none))]
    fn put_hards(&mut self, draft: &Draft, hards: &[Conditions]) -> Result<(), AllocError>
        requires draft { IsDraft draft.now }
        requires lists { AreLists (cond_lists (draft_root draft.now) (draft_things draft.now)) self.old }
        ensures { OnOk result (Gained (cond_lists (draft_root draft.now) (draft_things draft.now)) self.old self.new (hard_ids hards.now)) }
    {
        'hards: for hard in hards {
            self.put_conds(draft, hard.ids.as_slice())?;
        }
        Ok(())
    }

    /// Keeps the cells of the conditions of chance constraints.
    #[tactic(auto, using(crate::proofs::Lists::chances_next, crate::proofs::Lists::chances_all, crate::proofs::Lists::gained_none))]
    fn put_chances(&mut self, draft: &Draft, chances: &[ChanceConditions]) -> Result<(), AllocError>
        requires draft { IsDraft draft.now }
        requires lists { AreLists (cond_lists (draft_root draft.now) (draft_things draft.now)) self.old }
        ensures { OnOk result (Gained (cond_lists (draft_root draft.now) (draft_things draft.now)) self.old self.new (chance_ids chances.now)) }
    {
        'chances: for chance in chances {
            self.put_conds(draft, chance.conditions.ids.as_slice())?;
        }
        Ok(())
    }
}

/// The nodes of a draft.
fn nodes_of(draft: &Draft) -> Nodes<'_>
    requires draft { IsDraft draft.now }
    ensures built { IsBuilt (box_in result.root) result.items.now }
    ensures root { box_in result.root ≡ draft_root draft.now }
    ensures things { things result.items.now ≡ draft_things draft.now }
{
    let root = draft.store.root();
    let here = draft.store.here(&root);
    Nodes {
        items: here.items,
        root: here.root,
    }
}

/// The cells that a condition mentions.
#[tactic(auto, using(crate::proofs::Lists::cond_listed))]
fn cond_cells(draft: &Draft, id: u32) -> Result<Vec<u32>, AllocError>
    requires draft { IsDraft draft.now }
    ensures { IfOk result (λ cells. IsListOf (cond_lists (draft_root draft.now) (draft_things draft.now) id) cells.items) }
{
    let cells = nodes_of(draft).cells_of_cond(draft.alloc, id)?;
    Ok(cells)
}

/// The cells that a term mentions.
#[tactic(auto, using(crate::proofs::Lists::term_listed))]
pub(crate) fn term_cells(draft: &Draft, id: u32) -> Result<Vec<u32>, AllocError>
    requires draft { IsDraft draft.now }
    ensures { IfOk result (λ cells. IsListOf (term_lists (draft_root draft.now) (draft_things draft.now) id) cells.items) }
{
    let cells = nodes_of(draft).cells_of_term(draft.alloc, id)?;
    Ok(cells)
}

/// What the conditions of constraints mention.
fn of_constraints(draft: &Draft) -> Result<Mentions, AllocError>
    requires draft { IsDraft draft.now }
    ensures lists { IfOk result (AreLists (cond_lists (draft_root draft.now) (draft_things draft.now))) }
    ensures hards { IfOk result (λ m. HaveLists m (hard_ids draft.now.hards.items)) }
    ensures chances { IfOk result (λ m. HaveLists m (chance_ids draft.now.chances.items)) }
{
    let mut kept = Mentions::new(draft.alloc);
    kept.put_hards(draft, draft.hards.as_slice())?;
    kept.put_chances(draft, draft.chances.as_slice())?;
    Ok(kept)
}

/// What the terms of an objective mention, and those of the atoms of its sum.
fn of_objective(draft: &Draft, goal: &Option<Goal>, atoms: &[Atom]) -> Result<Mentions, AllocError>
    requires draft { IsDraft draft.now }
    ensures lists { IfOk result (AreLists (term_lists (draft_root draft.now) (draft_things draft.now))) }
    ensures terms { IfOk result (λ m. HaveLists m (goal_ids goal.now)) }
    ensures atoms { IfOk result (λ m. HaveLists m (atom_ids atoms.now)) }
{
    let mut kept = Mentions::new(draft.alloc);
    kept.put_atoms(draft, atoms)?;
    kept.put_goal(draft, goal)?;
    Ok(kept)
}

/// What the conditions of constraints and the terms of the objective mention.
#[derive(Drop)]
pub struct Mentioned {
    pub(crate) conditions: Mentions,
    pub(crate) terms: Mentions,
}

impl Mentioned {
    /// What is mentioned in a draft, in its objective, where there is one, and in the atoms of its sum.
    pub(crate) fn of(
        draft: &Draft,
        goal: &Option<Goal>,
        atoms: &[Atom],
    ) -> Result<Mentioned, AllocError>
        requires draft { IsDraft draft.now }
        ensures { IfOk result (AreMentioned draft.now goal.now atoms.now) }
    {
        let conditions = of_constraints(draft)?;
        let terms = of_objective(draft, goal, atoms)?;
        Ok(Mentioned { conditions, terms })
    }
}
