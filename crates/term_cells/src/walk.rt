//! Each node that a term or a condition is made of is visited, once for each time that it stands there.

ghost use Rattle.std.specs.Prelude.{◌≡◌, ◌<◌, ◌++◌, [], IfNone, IfSome, OnOk, if◌then◌else◌};
ghost use Rattle.term_language.specs.Terms as term;
ghost use Rattle.term_language.specs.Rules as rule;
ghost use Rattle.term_math.specs.Shown.{box_in, form_of};
ghost use Rattle.term_nodes.specs.Built.{AllBelow, IsBuilt, PartsBelow, TasksBelow};
ghost use Rattle.term_nodes.specs.Things.{cond_at, conds_at, parts_at, table_at, tasks_at, term_at, terms_at, things};
ghost use Rattle.term_language.specs.Mentions.{cond_mentions, conds_mention, mentions, parts_mention, table_mentions, tasks_mention, terms_mention};
ghost use Rattle.term_cells.specs.Cells.{form_cells, left_mentions, other_mentions, task_mentions, with_cells};

use crate::elements::{put_elements, put_form};
use crate::kept::put;
use std::alloc::AllocError;
use std::collections::BTreeSet;
use term_math::{BoxView, Form};
use term_nodes::{Item, Node, Signed, Task, item_at, table_at};

/// Nodes, and the root box that they were built over, which no call here reads.
#[derive(Clone, Copy)]
pub struct Nodes<'a> {
    pub items: &'a [Item],
    pub root: BoxView<'a>,
}

impl<'a> Nodes<'a> {
    /// Puts the cells that a term mentions into a set: down its left operands by a loop, since a chain of them is as deep as its text is
    /// long.
    #[cycle(term)]
    #[tactic(auto, using(crate::proofs::Chains::first_others, crate::proofs::Chains::next_others, crate::proofs::Chains::no_left))]
    pub(crate) fn term(&self, id: u32, cells: &mut BTreeSet<u32>) -> Result<(), AllocError>
        requires built { IsBuilt (box_in self.now.root) self.now.items.now }
        ensures { OnOk result (cells.new.keys ≡ with_cells cells.old.keys (mentions (box_in self.now.root) (term_at (things self.now.items.now) id))) }
    {
        self.others(id, cells)?;
        let mut at = id;
        'chain: while let Some(left) = self.left(at) {
            self.others(left, cells)?;
            at = left;
        }
        Ok(())
    }

    /// The left operand of the node of this number.
    #[tactic(auto, using(term_nodes::proofs::Links::if_below, crate::proofs::Chains::if_left, crate::proofs::Chains::if_none, crate::proofs::Chains::left_nothing))]
    fn left(&self, id: u32) -> Option<u32>
        requires built { IsBuilt (box_in self.now.root) self.now.items.now }
        ensures below { IfSome result (λ left. left < id) }
        ensures left { IfSome result (λ left. left_mentions (box_in self.now.root) (term_at (things self.now.items.now) id)
            ≡ mentions (box_in self.now.root) (term_at (things self.now.items.now) left)) }
        ensures none { IfNone result (left_mentions (box_in self.now.root) (term_at (things self.now.items.now) id) ≡ []) }
    {
        let item = item_at(self.items, id)?;
        item.node.left()
    }

    /// Puts the cells that a term mentions into a set, but for those of its left operand.
    #[cycle(term)]
    #[tactic(auto, using(crate::proofs::Walking::others_of_node, crate::proofs::Walking::no_term_here, crate::proofs::Walking::of_operation, crate::proofs::Walking::of_extreme, crate::proofs::Walking::form_of_node, term_nodes::proofs::Steps::below_at))]
    fn others(&self, id: u32, cells: &mut BTreeSet<u32>) -> Result<(), AllocError>
        requires built { IsBuilt (box_in self.now.root) self.now.items.now }
        ensures { OnOk result (cells.new.keys ≡ with_cells cells.old.keys (other_mentions (box_in self.now.root) (term_at (things self.now.items.now) id))) }
    {
        let Some(item) = item_at(self.items, id) else {
            return Ok(());
        };
        match &item.node {
            Node::Constant(_) => Ok(()),
            Node::Cell(cell) => put(cells, *cell),
            Node::Sum(parts) => self.parts(id, parts.as_slice(), cells),
            Node::Product(_, b) => self.term(*b, cells),
            Node::Operation(_, _) => Ok(()),
            Node::Extreme(_, first, later) => self.first_and_later(
                id,
                *first,
                later.as_slice(),
                cells,
            ),
            Node::Element(table, at) => {
                self.element(&item.facts.form, id, *table, at.as_slice(), cells)
            }
            Node::Number(c) => self.cond(*c, cells),
            Node::Compare(_) => Ok(()),
            Node::Not(_) => Ok(()),
            Node::All(_) => Ok(()),
            Node::Any(_) => Ok(()),
            Node::Implies(_, _) => Ok(()),
            Node::AllDifferent(_) => Ok(()),
            Node::Cumulative(_, _) => Ok(()),
            Node::Table(_) => Ok(()),
        }
    }

    /// Puts the cells that the parts of a sum mention into a set.
    #[cycle(term)]
    #[tactic(auto, using(crate::proofs::Walking::next_part, crate::proofs::Walking::no_part_left, term_nodes::proofs::Steps::part_below))]
    fn parts(
        &self,
        limit: u32,
        parts: &[Signed],
        cells: &mut BTreeSet<u32>,
    ) -> Result<(), AllocError>
        requires built { IsBuilt (box_in self.now.root) self.now.items.now }
        requires below { PartsBelow limit parts.now }
        ensures { OnOk result (cells.new.keys ≡ with_cells cells.old.keys (parts_mention (box_in self.now.root) (parts_at (things self.now.items.now) parts.now))) }
    {
        'parts: for part in parts {
            self.term(part.term, cells)?;
        }
        Ok(())
    }

    /// Puts the cells that several terms mention into a set.
    #[cycle(term)]
    #[tactic(auto, using(crate::proofs::Walking::next_term, crate::proofs::Walking::no_term_left, term_nodes::proofs::Steps::cond_below))]
    fn terms(&self, limit: u32, ids: &[u32], cells: &mut BTreeSet<u32>) -> Result<(), AllocError>
        requires built { IsBuilt (box_in self.now.root) self.now.items.now }
        requires below { AllBelow limit ids.now }
        ensures { OnOk result (cells.new.keys ≡ with_cells cells.old.keys (terms_mention (box_in self.now.root) (terms_at (things self.now.items.now) ids.now))) }
    {
        'ids: for id in ids {
            self.term(*id, cells)?;
        }
        Ok(())
    }

    /// Puts the cells that two terms mention into a set.
    #[cycle(term)]
    #[tactic(auto, using(crate::proofs::Inserting::two_lists))]
    fn both_terms(
        &self,
        limit: u32,
        a: u32,
        b: u32,
        cells: &mut BTreeSet<u32>,
    ) -> Result<(), AllocError>
        requires built { IsBuilt (box_in self.now.root) self.now.items.now }
        requires left { a < limit }
        requires right { b < limit }
        ensures { OnOk result (cells.new.keys ≡ with_cells cells.old.keys (mentions (box_in self.now.root) (term_at (things self.now.items.now) a)
            ++ mentions (box_in self.now.root) (term_at (things self.now.items.now) b))) }
    {
        self.term(a, cells)?;
        self.term(b, cells)
    }

    /// Puts the cells that one term and several more mention into a set.
    #[cycle(term)]
    #[tactic(auto, using(crate::proofs::Inserting::two_lists))]
    fn first_and_later(
        &self,
        limit: u32,
        first: u32,
        later: &[u32],
        cells: &mut BTreeSet<u32>,
    ) -> Result<(), AllocError>
        requires built { IsBuilt (box_in self.now.root) self.now.items.now }
        requires first { first < limit }
        requires below { AllBelow limit later.now }
        ensures { OnOk result (cells.new.keys ≡ with_cells cells.old.keys (mentions (box_in self.now.root) (term_at (things self.now.items.now) first)
            ++ terms_mention (box_in self.now.root) (terms_at (things self.now.items.now) later.now))) }
    {
        self.term(first, cells)?;
        self.terms(limit, later, cells)
    }

    /// Puts the cells that an element mentions into a set, where its linear form is given.
    #[cycle(term)]
    #[tactic(auto, using(crate::proofs::Inserting::two_lists, crate::proofs::Putting::element_told))]
    fn element(
        &self,
        form: &Form,
        limit: u32,
        table: u32,
        at: &[u32],
        cells: &mut BTreeSet<u32>,
    ) -> Result<(), AllocError>
        requires built { IsBuilt (box_in self.now.root) self.now.items.now }
        requires below { AllBelow limit at.now }
        requires form { form_of form.now ≡ rule.form (box_in self.now.root) (term.Element (table_at (things self.now.items.now) table) (terms_at (things self.now.items.now) at.now)) }
        ensures { OnOk result (cells.new.keys ≡ with_cells cells.old.keys
            (mentions (box_in self.now.root) (term.Element (table_at (things self.now.items.now) table) (terms_at (things self.now.items.now) at.now)))) }
    {
        self.named(form, table, cells)?;
        self.terms(limit, at, cells)
    }

    /// Puts the cells of a form into a set if nothing else is in it, and else those of an array.
    #[tactic(auto, using(crate::proofs::Putting::of_form, crate::proofs::Putting::of_table, crate::proofs::Putting::of_no_table))]
    fn named(&self, form: &Form, table: u32, cells: &mut BTreeSet<u32>) -> Result<(), AllocError>
        requires built { IsBuilt (box_in self.now.root) self.now.items.now }
        ensures { OnOk result (cells.new.keys ≡ with_cells cells.old.keys
            (if (form_of form.now).plain then form_cells (form_of form.now).cells else table_mentions (table_at (things self.now.items.now) table))) }
    {
        if form.plain {
            return put_form(form, cells);
        }
        match table_at(self.items, table) {
            Some(found) => put_elements(found.elements.as_slice(), cells),
            None => Ok(()),
        }
    }

    /// Puts the cells that a condition mentions into a set.
    #[cycle(term)]
    #[tactic(auto, using(crate::proofs::Walking::cond_of_node, crate::proofs::Walking::no_cond_here, term_nodes::proofs::Steps::below_at))]
    pub(crate) fn cond(&self, id: u32, cells: &mut BTreeSet<u32>) -> Result<(), AllocError>
        requires built { IsBuilt (box_in self.now.root) self.now.items.now }
        ensures { OnOk result (cells.new.keys ≡ with_cells cells.old.keys (cond_mentions (box_in self.now.root) (cond_at (things self.now.items.now) id))) }
    {
        let Some(item) = item_at(self.items, id) else {
            return Ok(());
        };
        match &item.node {
            Node::Constant(_) => Ok(()),
            Node::Cell(_) => Ok(()),
            Node::Sum(_) => Ok(()),
            Node::Product(_, _) => Ok(()),
            Node::Operation(_, _) => Ok(()),
            Node::Extreme(_, _, _) => Ok(()),
            Node::Element(_, _) => Ok(()),
            Node::Number(_) => Ok(()),
            Node::Compare(comparison) => self.both_terms(
                id,
                comparison.left,
                comparison.right,
                cells,
            ),
            Node::Not(c) => self.cond(*c, cells),
            Node::All(conds) => self.conds(id, conds.as_slice(), cells),
            Node::Any(conds) => self.conds(id, conds.as_slice(), cells),
            Node::Implies(a, c) => self.both_conds(id, *a, *c, cells),
            Node::AllDifferent(terms) => self.terms(id, terms.as_slice(), cells),
            Node::Cumulative(tasks, capacity) => {
                self.tasks_and_capacity(id, tasks.as_slice(), *capacity, cells)
            }
            Node::Table(_) => Ok(()),
        }
    }

    /// Puts the cells that several conditions mention into a set.
    #[cycle(term)]
    #[tactic(auto, using(crate::proofs::Walking::next_cond, crate::proofs::Walking::no_cond_left, term_nodes::proofs::Steps::cond_below))]
    fn conds(&self, limit: u32, ids: &[u32], cells: &mut BTreeSet<u32>) -> Result<(), AllocError>
        requires built { IsBuilt (box_in self.now.root) self.now.items.now }
        requires below { AllBelow limit ids.now }
        ensures { OnOk result (cells.new.keys ≡ with_cells cells.old.keys (conds_mention (box_in self.now.root) (conds_at (things self.now.items.now) ids.now))) }
    {
        'ids: for id in ids {
            self.cond(*id, cells)?;
        }
        Ok(())
    }

    /// Puts the cells that two conditions mention into a set.
    #[cycle(term)]
    #[tactic(auto, using(crate::proofs::Inserting::two_lists))]
    fn both_conds(
        &self,
        limit: u32,
        a: u32,
        c: u32,
        cells: &mut BTreeSet<u32>,
    ) -> Result<(), AllocError>
        requires built { IsBuilt (box_in self.now.root) self.now.items.now }
        requires left { a < limit }
        requires right { c < limit }
        ensures { OnOk result (cells.new.keys ≡ with_cells cells.old.keys (cond_mentions (box_in self.now.root) (cond_at (things self.now.items.now) a)
            ++ cond_mentions (box_in self.now.root) (cond_at (things self.now.items.now) c))) }
    {
        self.cond(a, cells)?;
        self.cond(c, cells)
    }

    /// Puts the cells that the numbers of a task mention into a set.
    #[cycle(term)]
    #[tactic(auto, using(crate::proofs::Walking::three_lists))]
    fn task(&self, limit: u32, task: &Task, cells: &mut BTreeSet<u32>) -> Result<(), AllocError>
        requires built { IsBuilt (box_in self.now.root) self.now.items.now }
        requires start { task.now.start < limit }
        requires duration { task.now.duration < limit }
        requires demand { task.now.demand < limit }
        ensures { OnOk result (cells.new.keys ≡ with_cells cells.old.keys (task_mentions (box_in self.now.root) (things self.now.items.now) task.now)) }
    {
        self.term(task.start, cells)?;
        self.term(task.duration, cells)?;
        self.term(task.demand, cells)
    }

    /// Puts the cells that several tasks mention into a set.
    #[cycle(term)]
    #[tactic(auto, using(crate::proofs::Walking::next_task, crate::proofs::Walking::no_task_left))]
    fn tasks(&self, limit: u32, tasks: &[Task], cells: &mut BTreeSet<u32>) -> Result<(), AllocError>
        requires built { IsBuilt (box_in self.now.root) self.now.items.now }
        requires below { TasksBelow limit tasks.now }
        ensures { OnOk result (cells.new.keys ≡ with_cells cells.old.keys (tasks_mention (box_in self.now.root) (tasks_at (things self.now.items.now) tasks.now))) }
    {
        'tasks: for task in tasks {
            self.task(limit, task, cells)?;
        }
        Ok(())
    }

    /// Puts the cells that several tasks and a capacity mention into a set.
    #[cycle(term)]
    #[tactic(auto, using(crate::proofs::Inserting::two_lists))]
    fn tasks_and_capacity(
        &self,
        limit: u32,
        tasks: &[Task],
        capacity: u32,
        cells: &mut BTreeSet<u32>,
    ) -> Result<(), AllocError>
        requires built { IsBuilt (box_in self.now.root) self.now.items.now }
        requires below { TasksBelow limit tasks.now }
        requires capacity { capacity < limit }
        ensures { OnOk result (cells.new.keys ≡ with_cells cells.old.keys (tasks_mention (box_in self.now.root) (tasks_at (things self.now.items.now) tasks.now)
            ++ mentions (box_in self.now.root) (term_at (things self.now.items.now) capacity))) }
    {
        self.tasks(limit, tasks, cells)?;
        self.term(capacity, cells)
    }
}
