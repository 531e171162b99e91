//! Nodes with what is known of them over the root box.

ghost use Rattle.std.specs.Prelude.{◌≡◌, ◌<◌, ◌&&◌, length, IsSome, IfSome, IfNone};
ghost use Rattle.box_problem.specs.Box.{Box};
ghost use Rattle.term_language.specs.Marks.{is_always};
ghost use Rattle.term_language.specs.Rules.{form};
ghost use Rattle.term_math.specs.Shown.{form_of};
ghost use Rattle.term_math.specs.Kept.{table_of};
ghost use Rattle.term_nodes.specs.Things.{no_table, nothing, table_at, term_at, thing_at, things};
ghost use Rattle.term_nodes.specs.Built.{IsAt, IsBuilt};

use crate::nodes::Node;
use term_language::{Defined, Truth};
use term_math::{Ends, Form, Table};

/// What is known of a node over the root box: the linear form and the mark of a term; by the wide reading the mark of a term, the interval
/// and the weight of the non-linear part of it, and the truth of a condition.
#[derive(Drop)]
pub struct Facts {
    pub form: Form,
    pub mark: Defined,
    pub wide_mark: Defined,
    pub wide: Ends,
    pub weight: u64,
    pub truth: Truth,
}

impl Facts {
    /// Nothing but cells is in the term, and it is Always defined.
    pub fn is_plain(&self) -> bool
        ensures { result ≡ (self.now.form.plain && is_always self.now.wide_mark) }
    {
        if !self.form.plain {
            return false;
        }
        match self.wide_mark {
            Defined::Never => false,
            Defined::Maybe => false,
            Defined::Always => true,
        }
    }
}

/// A node, and what is known of it.
#[derive(Drop)]
pub struct Item {
    pub node: Node,
    pub facts: Facts,
}

/// The node of this number.
#[tactic(auto, using(crate::proofs::Reading::is_at, crate::proofs::Reading::nothing_past))]
pub fn item_at(items: &[Item], id: u32) -> Option<&Item>
    ensures some { (root : Box) → IsBuilt root items.now → IfSome result (λ item. IsAt root (things items.now) id item.now) }
    ensures exists { IsSome result → id < length items.now }
    ensures none { IfNone result (thing_at (things items.now) id ≡ nothing) }
{
    items.get(id as usize)
}

/// The array of this number.
#[tactic(auto, using(crate::proofs::Steps::table_is))]
pub fn table_at(items: &[Item], id: u32) -> Option<&Table>
    ensures some { (root : Box) → IsBuilt root items.now → IfSome result (λ table. table_of table.now ≡ table_at (things items.now) id) }
    ensures none { (root : Box) → IsBuilt root items.now → IfNone result (no_table ≡ table_at (things items.now) id) }
{
    let item = item_at(items, id)?;
    match &item.node {
        Node::Table(table) => Some(table),
        Node::Constant(_) => None,
        Node::Cell(_) => None,
        Node::Sum(_) => None,
        Node::Product(_, _) => None,
        Node::Operation(_, _) => None,
        Node::Extreme(_, _, _) => None,
        Node::Element(_, _) => None,
        Node::Number(_) => None,
        Node::Compare(_) => None,
        Node::Not(_) => None,
        Node::All(_) => None,
        Node::Any(_) => None,
        Node::Implies(_, _) => None,
        Node::AllDifferent(_) => None,
        Node::Cumulative(_, _) => None,
    }
}

/// The linear form of the term of this number.
#[tactic(auto, using(crate::proofs::Reading::form_is))]
pub fn form_at(items: &[Item], id: u32) -> &Form
    requires exists { id < length items.now }
    ensures { (root : Box) → IsBuilt root items.now → form_of result.now ≡ form root (term_at (things items.now) id) }
{
    &items[id as usize].facts.form
}
