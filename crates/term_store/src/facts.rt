//! What is known of a node that is to be added.

ghost use Rattle.std.specs.Prelude.{◌≡◌, length, pos, IfOk};
ghost use Rattle.term_language.specs.Sizes.{size};
ghost use Rattle.term_language.specs.Terms.{Constant};
ghost use Rattle.term_nodes.specs.Built.{IsBelow, IsRight, facts_of, kept};
ghost use Rattle.term_nodes.specs.Things.{term_in, thing_of};
ghost use Rattle.term_store.specs.Stores.{IsMeasured, IsSoundStore, all, root_of};

use crate::known::condition;
use crate::store::TermStore;
use crate::terms::atom;
use sopl_base::Fault;
use term_math::Element;
use term_nodes::{Facts, Node};

impl TermStore {
    /// What is known of a condition's node over the root box, or of an array's.
    #[tactic(auto, using(crate::proofs::Adding::cond_known))]
    fn cond_facts(&self, node: &Node) -> Facts
        requires sound { IsSoundStore self.now }
        requires below { IsBelow (length self.now.items.items) node.now }
        requires right { IsRight (root_of self.now) (all self.now) node.now }
        requires no_term { term_in (thing_of (all self.now) node.now) ≡ Constant (pos 0) }
        ensures { kept result ≡ facts_of (root_of self.now) (thing_of (all self.now) node.now) }
    {
        condition(self.alloc, self.truth_of(node))
    }

    /// What is known of a node over the root box, where the size of its term is at most 2^40.
    pub(crate) fn facts(&self, node: &Node) -> Result<Facts, Fault>
        requires sound { IsSoundStore self.now }
        requires below { IsBelow (length self.now.items.items) node.now }
        requires right { IsRight (root_of self.now) (all self.now) node.now }
        ensures facts { IfOk result (λ facts. kept facts ≡ facts_of (root_of self.now) (thing_of (all self.now) node.now)) }
        ensures measured { IsMeasured (size (root_of self.now) (term_in (thing_of (all self.now) node.now))) result }
    {
        match node {
            Node::Constant(value) => self.leaf_facts(&Element::Fixed(*value)),
            Node::Cell(cell) => self.leaf_facts(&Element::Free(*cell)),
            Node::Sum(parts) => {
                let form = self.measured_sum(parts.as_slice())?;
                Ok(self.sum_facts(parts.as_slice(), form))
            }
            Node::Product(a, b) => {
                let form = self.measured_product(*a, *b)?;
                Ok(self.product_facts(*a, *b, form))
            }
            Node::Operation(operation, a) => self.operation_facts(operation, *a),
            Node::Extreme(extreme, first, later) => {
                self.extreme_facts(*extreme, *first, later.as_slice())
            }
            Node::Element(table, at) => self.element_facts(*table, at.as_slice()),
            Node::Number(c) => Ok(atom(self.alloc, self.truth_known(*c))),
            Node::Compare(_)
            | Node::Not(_)
            | Node::All(_)
            | Node::Any(_)
            | Node::Implies(_, _)
            | Node::AllDifferent(_)
            | Node::Cumulative(_, _)
            | Node::Table(_) => Ok(self.cond_facts(node)),
        }
    }
}
