//! The terms of `allDifferent` and of `cumulative`, as they are kept.

ghost use Rattle.std.specs.Prelude.{◌≡◌, ◌+◌, ◌++◌, ◌∷◌, [], List, length, OnOk, IfOk};
ghost use Rattle.std.specs.List.{flat_map};
ghost use Rattle.term_nodes.specs.Things.{Thing, cond_at};
ghost use Rattle.term_program.specs.Drafts.{IsDraft, draft_things};
ghost use Rattle.term_program.specs.Globals.{AreTermsOf, ListsNode, ListsTerms, numbers_in, term_ids};

use crate::draft::Draft;
use std::alloc::{AllocError, Global};
use std::collections::BTreeMap;
use term_nodes::{Node, Task, item_at};
use term_store::TermId;

/// For each `allDifferent` and each `cumulative`, by its number, its terms.
#[derive(Drop)]
pub struct GlobalTerms {
    lists: BTreeMap<u32, Vec<TermId>>,
}

/// Terms by their numbers.
#[tactic(auto, using(crate::proofs::Listing::next_id, crate::proofs::Listing::all_ids))]
fn terms_of(alloc: Global, ids: &[u32]) -> Result<Vec<TermId>, AllocError>
    ensures { IfOk result (λ terms. term_ids terms.items ≡ ids.now) }
{
    let mut terms = Vec::new(alloc);
    'ids: for id in ids {
        terms.push(TermId(*id))?;
    }
    Ok(terms)
}

/// Adds the start, the length and the demand of a task.
fn push_task(terms: &mut Vec<TermId>, task: &Task) -> Result<(), AllocError>
    ensures { OnOk result (term_ids terms.new.items ≡ term_ids terms.old.items ++ numbers_in task.now) }
{
    terms.push(TermId(task.start))?;
    terms.push(TermId(task.duration))?;
    terms.push(TermId(task.demand))?;
    Ok(())
}

/// The start, the length and the demand of each task, and then the capacity.
#[tactic(auto, using(crate::proofs::Listing::next_task, crate::proofs::Listing::all_tasks))]
fn terms_of_tasks(alloc: Global, tasks: &[Task], capacity: u32) -> Result<Vec<TermId>, AllocError>
    ensures { IfOk result (λ terms. term_ids terms.items ≡ flat_map numbers_in tasks.now ++ capacity ∷ []) }
{
    let mut terms = Vec::new(alloc);
    'tasks: for task in tasks {
        push_task(&mut terms, task)?;
    }
    terms.push(TermId(capacity))?;
    Ok(terms)
}

/// The terms of a node that is `allDifferent` or `cumulative`; of another one none.
#[tactic(auto, using(crate::proofs::Listing::different_listed, crate::proofs::Listing::cumulative_listed, crate::proofs::Listing::none_listed))]
fn terms_of_node(alloc: Global, node: &Node) -> Result<Vec<TermId>, AllocError>
    ensures { IfOk result (λ terms. ListsNode node.now terms.items) }
{
    match node {
        Node::AllDifferent(ids) => terms_of(alloc, ids.as_slice()),
        Node::Cumulative(tasks, capacity) => terms_of_tasks(alloc, tasks.as_slice(), *capacity),
        Node::Constant(_) => Ok(Vec::new(alloc)),
        Node::Cell(_) => Ok(Vec::new(alloc)),
        Node::Sum(_) => Ok(Vec::new(alloc)),
        Node::Product(_, _) => Ok(Vec::new(alloc)),
        Node::Operation(_, _) => Ok(Vec::new(alloc)),
        Node::Extreme(_, _, _) => Ok(Vec::new(alloc)),
        Node::Element(_, _) => Ok(Vec::new(alloc)),
        Node::Number(_) => Ok(Vec::new(alloc)),
        Node::Compare(_) => Ok(Vec::new(alloc)),
        Node::Not(_) => Ok(Vec::new(alloc)),
        Node::All(_) => Ok(Vec::new(alloc)),
        Node::Any(_) => Ok(Vec::new(alloc)),
        Node::Implies(_, _) => Ok(Vec::new(alloc)),
        Node::Table(_) => Ok(Vec::new(alloc)),
    }
}

impl GlobalTerms {
    /// Of nothing.
    fn new(alloc: Global) -> GlobalTerms
        ensures { (all : List Thing) → AreTermsOf all 0 result }
    {
        GlobalTerms {
            lists: BTreeMap::new(alloc),
        }
    }

    /// Keeps the terms of the condition that comes next, where it has some.
    #[tactic(auto, using(crate::proofs::Listing::next_kept, crate::proofs::Listing::next_empty))]
    fn put(&mut self, id: u32, terms: Vec<TermId>) -> Result<(), AllocError>
        ensures { (all : List Thing) → AreTermsOf all id self.old → ListsTerms all (cond_at all id) terms.items → OnOk result (AreTermsOf all (id + 1) self.new) }
    {
        if terms.is_empty() {
            return Ok(());
        }
        self.lists.insert(id, terms)?;
        Ok(())
    }

    /// Keeps the terms of the node that comes next.
    #[tactic(auto, using(crate::proofs::Listing::node_listed, crate::proofs::Listing::nothing_listed))]
    fn put_next(&mut self, draft: &Draft, id: u32) -> Result<(), AllocError>
        requires draft { IsDraft draft.now }
        requires before { AreTermsOf (draft_things draft.now) id self.old }
        ensures { OnOk result (AreTermsOf (draft_things draft.now) (id + 1) self.new) }
    {
        let root = draft.store.root();
        let here = draft.store.here(&root);
        let Some(item) = item_at(here.items, id) else {
            return Ok(());
        };
        let terms = terms_of_node(draft.alloc, &item.node)?;
        self.put(id, terms)?;
        Ok(())
    }

    /// Those of a draft.
    pub(crate) fn of(draft: &Draft) -> Result<GlobalTerms, AllocError>
        requires draft { IsDraft draft.now }
        ensures { IfOk result (AreTermsOf (draft_things draft.now) (length (draft_things draft.now))) }
    {
        let mut kept = GlobalTerms::new(draft.alloc);
        'nodes: for id in 0..draft.store.count() {
            kept.put_next(draft, id)?;
        }
        Ok(kept)
    }

    /// The terms of a condition; none where it is neither `allDifferent` nor `cumulative`.
    #[tactic(auto, using(crate::proofs::Listing::found_listed, crate::proofs::Listing::not_found))]
    pub(crate) fn of_cond(&self, id: u32) -> &[TermId]
        ensures { (all : List Thing) → AreTermsOf all (length all) self.now → ListsTerms all (cond_at all id) result.now }
    {
        match self.lists.get(&id) {
            Some(terms) => terms.as_slice(),
            None => &[],
        }
    }
}
