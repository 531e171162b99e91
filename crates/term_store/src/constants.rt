//! Constants that were added before: equal ones are one node.

ghost use Rattle.std.specs.Prelude.{◌≡◌, ◌≤◌, true, IfSome};
ghost use Rattle.sopl_base.specs.declared.limits.TheConstants as largest;
ghost use Rattle.term_language.specs.Sizes.{size};
ghost use Rattle.term_language.specs.Terms.{Constant};
ghost use Rattle.term_nodes.specs.Things.{a_term};
ghost use Rattle.term_nodes.specs.declared.nodes.Node.TheVariants as variant;
ghost use Rattle.term_store.specs.Additions.{Stands, new_term};
ghost use Rattle.term_store.specs.Stores.{IsSoundStore, all, root_of};

use crate::additions::NewTerm;
use crate::ids::TermId;
use crate::store::TermStore;
use term_nodes::{Node, item_at};

/// Whether a node is this number.
fn is_number(node: &Node, value: &i64) -> bool
    ensures { result ≡ true → node.now ≡ variant.Constant value.now }
{
    match node {
        Node::Constant(number) => *number == *value,
        _ => false,
    }
}

impl TermStore {
    /// The number of an equal constant, if one was added before and is remembered.
    #[tactic(auto, using(crate::proofs::Added::constant_stands, crate::proofs::Added::constant_small))]
    fn constant_known(&self, value: &i64) -> Option<TermId>
        requires sound { IsSoundStore self.now }
        ensures stands { IfSome result (λ id. Stands (all self.now) id.0 (a_term (Constant value.now))) }
        ensures small { IfSome result (λ id. size (root_of self.now) (Constant value.now) ≤ largest.TERM_SIZE) }
    {
        let id = *self.constants.get(value)?;
        let item = item_at(self.items.as_slice(), id)?;
        if !is_number(&item.node, value) {
            return None;
        }
        Some(TermId(id))
    }

    /// The number of an equal term, if it is a constant that was added before and is remembered.
    pub(crate) fn standing(&self, new: &NewTerm<'_>) -> Option<TermId>
        requires sound { IsSoundStore self.now }
        ensures stands { IfSome result (λ id. Stands (all self.now) id.0 (a_term (new_term (all self.now) new.now))) }
        ensures small { IfSome result (λ id. size (root_of self.now) (new_term (all self.now) new.now) ≤ largest.TERM_SIZE) }
    {
        match new {
            NewTerm::Constant(value) => self.constant_known(value),
            _ => None,
        }
    }

    /// Remembers the number of a constant; where there is no memory for it, an equal one becomes a node of its own.
    pub(crate) fn remember(&mut self, new: &NewTerm<'_>, id: u32)
        ensures sound { IsSoundStore self.old → IsSoundStore self.new }
        ensures root { root_of self.new ≡ root_of self.old }
        ensures same { all self.new ≡ all self.old }
    {
        if let NewTerm::Constant(value) = new {
            let _ = self.constants.insert(*value, id);
        }
    }
}
