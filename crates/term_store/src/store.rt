//! A store of terms and conditions over a root box.

ghost use Rattle.std.specs.Prelude.{◌≡◌, [], length, IfOk, OnErr};
ghost use Rattle.box_problem.specs.Box.{box_of};
ghost use Rattle.term_language.specs.Laws.{IsTable};
ghost use Rattle.term_language.specs.Sizes.{size};
ghost use Rattle.term_math.specs.Kept.{table_of};
ghost use Rattle.term_nodes.specs.Things.{no_table, table_in, term_in, thing_of};
ghost use Rattle.term_nodes.specs.Built.{IsBelow, IsNew, IsRight};
ghost use Rattle.term_store.specs.Additions.{AddsCond, AddsTable, AddsTerm, MayAddCond, MayAddTerm, new_cond, new_term};
ghost use Rattle.term_store.specs.Stores.{IsAdded, IsMeasured, IsSoundStore, all, root_of};

use crate::additions::{NewCond, NewTerm};
use crate::ids::{CondId, TableId, TermId};
use crate::known::condition;
use sopl_base::{Fault, Interval};
use std::alloc::{AllocError, Global};
use std::collections::BTreeMap;
use term_language::Truth;
use term_math::Table;
use term_nodes::{Facts, Item, Node, push};

/// Terms and conditions over the cells of a root box, each by a number.
#[derive(Drop)]
pub struct TermStore {
    pub(crate) alloc: Global,
    pub(crate) lows: Vec<i64>,
    pub(crate) highs: Vec<i64>,
    pub(crate) items: Vec<Item>,
    pub(crate) constants: BTreeMap<i64, u32>,
}

impl TermStore {
    /// The store over the box of these intervals, with nothing in it.
    pub fn new(alloc: Global, roots: &[Interval]) -> Result<TermStore, AllocError>
        ensures sound { IfOk result (λ store. IsSoundStore store) }
        ensures root { IfOk result (λ store. root_of store ≡ box_of roots.now) }
        ensures empty { IfOk result (λ store. all store ≡ []) }
    {
        let lows = lows_of(alloc, roots)?;
        let highs = highs_of(alloc, roots)?;
        Ok(TermStore {
            alloc,
            lows,
            highs,
            items: Vec::new(alloc),
            constants: BTreeMap::new(alloc),
        })
    }

    /// How many terms and conditions there are.
    pub fn count(&self) -> u32
        requires sound { IsSoundStore self.now }
        ensures count { result ≡ length (all self.now) }
    {
        self.items.len() as u32
    }

    /// Adds a node with what is known of it.
    fn add(&mut self, node: Node, facts: Facts) -> Result<u32, AllocError>
        requires sound { IsSoundStore self.old }
        requires new { IsNew (root_of self.old) self.old.items.items (record { node = node; facts = facts }) }
        ensures sound { IsSoundStore self.new }
        ensures root { root_of self.new ≡ root_of self.old }
        ensures added { IfOk result (λ id. IsAdded (all self.old) (all self.new) id (thing_of (all self.old) node)) }
        ensures err { OnErr result (all self.new ≡ all self.old) }
    {
        let id = push(&mut self.items, Item { node, facts })?;
        Ok(id)
    }

    /// Adds a node, where the size of its term is at most 2^40.
    fn add_node(&mut self, node: Node) -> Result<u32, Fault>
        requires sound { IsSoundStore self.old }
        requires below { IsBelow (length self.old.items.items) node }
        requires right { IsRight (root_of self.old) (all self.old) node }
        requires table { table_in (thing_of (all self.old) node) ≡ no_table }
        ensures sound { IsSoundStore self.new }
        ensures root { root_of self.new ≡ root_of self.old }
        ensures added { IfOk result (λ id. IsAdded (all self.old) (all self.new) id (thing_of (all self.old) node)) }
        ensures measured { IsMeasured (size (root_of self.old) (term_in (thing_of (all self.old) node))) result }
        ensures err { OnErr result (all self.new ≡ all self.old) }
    {
        let facts = self.facts(&node)?;
        let id = self.add(node, facts)?;
        Ok(id)
    }

    /// Adds a term; a constant that equals one that was added before is that one.
    pub fn add_term(&mut self, new: &NewTerm<'_>) -> Result<TermId, Fault>
        requires sound { IsSoundStore self.old }
        requires may { MayAddTerm (length (all self.old)) new.now }
        ensures sound { IsSoundStore self.new }
        ensures root { root_of self.new ≡ root_of self.old }
        ensures adds { AddsTerm (root_of self.old) (all self.old) (all self.new) (new_term (all self.old) new.now) result }
    {
        if let Some(id) = self.standing(new) {
            return Ok(id);
        }
        let node = self.term_node(new)?;
        let id = self.add_node(node)?;
        self.remember(new, id);
        Ok(TermId(id))
    }

    /// Adds a condition.
    pub fn add_cond(&mut self, new: &NewCond<'_>) -> Result<CondId, AllocError>
        requires sound { IsSoundStore self.old }
        requires may { MayAddCond (length (all self.old)) new.now }
        ensures sound { IsSoundStore self.new }
        ensures root { root_of self.new ≡ root_of self.old }
        ensures adds { AddsCond (all self.old) (all self.new) (new_cond (all self.old) new.now) result }
    {
        let node = self.cond_node(new)?;
        match self.add_node(node) {
            Ok(id) => Ok(CondId(id)),
            Err(_) => Err(AllocError),
        }
    }

    /// Adds an array, with one element for each of its indices.
    pub fn add_table(&mut self, table: Table) -> Result<TableId, AllocError>
        requires sound { IsSoundStore self.old }
        requires table { IsTable (table_of table) }
        ensures sound { IsSoundStore self.new }
        ensures root { root_of self.new ≡ root_of self.old }
        ensures adds { AddsTable (all self.old) (all self.new) (table_of table) result }
    {
        let id = self.add(Node::Table(table), condition(self.alloc, Truth::True))?;
        Ok(TableId(id))
    }
}

/// The lower ends of intervals.
fn lows_of(alloc: Global, roots: &[Interval]) -> Result<Vec<i64>, AllocError>
    ensures { IfOk result (λ lows. lows.items ≡ (box_of roots.now).lows) }
{
    roots.iter().map(|root| root.lo).collect(alloc)
}

/// The upper ends of intervals.
fn highs_of(alloc: Global, roots: &[Interval]) -> Result<Vec<i64>, AllocError>
    ensures { IfOk result (λ highs. highs.items ≡ (box_of roots.now).highs) }
{
    roots.iter().map(|root| root.hi).collect(alloc)
}
