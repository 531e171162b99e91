//! What terms and conditions are over the root box by the wide reading.

ghost use Rattle.std.specs.Prelude.{◌≡◌, ◌<◌, ◌≤◌, length};
ghost use Rattle.sopl_base.specs.declared.limits.TheConstants as largest;
ghost use Rattle.term_language.specs.Marks as marks;
ghost use Rattle.term_language.specs.Rules as rule;
ghost use Rattle.term_language.specs.Sizes.{size};
ghost use Rattle.term_language.specs.Terms as term;
ghost use Rattle.term_math.specs.Shown.{box_in, ends_of};
ghost use Rattle.term_nodes.specs.Built.{AllBelow, IsBelow, IsRight, PartsBelow};
ghost use Rattle.term_nodes.specs.Seen.{CanRead, extreme_range, range, reading_of, sight, sight_of, sum_sight};
ghost use Rattle.term_nodes.specs.Things.{cond_at, cond_in, parts_at, table_at, term_at, terms_at, thing_of};
ghost use Rattle.term_store.specs.Stores.{IsSoundStore, all, root_of};

use crate::store::TermStore;
use term_language::{Defined, Truth};
use term_math::{AbstractValue, Ends, Extreme};
use term_nodes::{Evaluator, Node, Signed};

impl TermStore {
    /// How many nodes there are.
    fn nodes(&self) -> u32
        requires sound { IsSoundStore self.now }
        ensures { result ≡ length self.now.items.items }
    {
        self.items.len() as u32
    }

    /// The nodes over the root box.
    #[tactic(auto, using(box_problem::proofs::Boxes::part_of_itself))]
    fn wide(&self) -> Evaluator<'_>
        requires sound { IsSoundStore self.now }
        ensures ready { CanRead result }
        ensures root { box_in result.root ≡ root_of self.now }
        ensures view { box_in result.view ≡ root_of self.now }
        ensures reading { reading_of result ≡ rule.Wide }
        ensures items { result.items.now ≡ self.now.items.items }
    {
        Evaluator {
            items: self.items.as_slice(),
            root: self.root(),
            view: self.root(),
            wide: true,
        }
    }

    /// What a term is.
    #[tactic(auto, using(term_nodes::proofs::Reading::wide_is))]
    pub(crate) fn wide_known(&self, id: u32) -> AbstractValue
        requires sound { IsSoundStore self.now }
        requires exists { id < length self.now.items.items }
        ensures { sight_of result ≡ sight rule.Wide (root_of self.now) (root_of self.now) (term_at (all self.now) id) }
    {
        let item = &self.items[id as usize];
        AbstractValue {
            ends: item.facts.wide,
            mark: item.facts.wide_mark,
        }
    }

    /// The whole interval of a term, and its mark.
    pub(crate) fn range_known(&self, id: u32) -> AbstractValue
        requires sound { IsSoundStore self.now }
        requires exists { id < length self.now.items.items }
        ensures { sight_of result ≡ range rule.Wide (root_of self.now) (root_of self.now) (term_at (all self.now) id) }
    {
        self.wide().range(id)
    }

    /// The whole interval of a term.
    pub(crate) fn interval_known(&self, id: u32) -> Ends
        requires sound { IsSoundStore self.now }
        requires exists { id < length self.now.items.items }
        ensures { ends_of result ≡ rule.interval rule.Wide (root_of self.now) (root_of self.now) (term_at (all self.now) id) }
    {
        self.range_known(id).ends
    }

    /// What a sum is.
    pub(crate) fn sum_wide(&self, parts: &[Signed]) -> AbstractValue
        requires sound { IsSoundStore self.now }
        requires exist { PartsBelow (length self.now.items.items) parts.now }
        requires small { size (root_of self.now) (term.Sum (parts_at (all self.now) parts.now)) ≤ largest.TERM_SIZE }
        ensures { sight_of result ≡ sum_sight rule.Wide (root_of self.now) (root_of self.now) (parts_at (all self.now) parts.now) }
    {
        self.wide().sum(self.nodes(), parts)
    }

    /// The least or the greatest of whole intervals, and the mark of all.
    pub(crate) fn extreme_known(&self, extreme: Extreme, first: u32, later: &[u32]) -> AbstractValue
        requires sound { IsSoundStore self.now }
        requires first { first < length self.now.items.items }
        requires exist { AllBelow (length self.now.items.items) later.now }
        ensures { sight_of result ≡ extreme_range rule.Wide (root_of self.now) (root_of self.now) extreme (term_at (all self.now) first) (terms_at (all self.now) later.now) }
    {
        self.wide()
            .extreme_range(self.nodes(), extreme, first, later)
    }

    /// The mark of several terms, all together.
    pub(crate) fn wide_marks(&self, at: &[u32]) -> Defined
        requires sound { IsSoundStore self.now }
        requires exist { AllBelow (length self.now.items.items) at.now }
        ensures { result ≡ marks.all_marks (rule.marks rule.Wide (root_of self.now) (root_of self.now) (terms_at (all self.now) at.now)) }
    {
        self.wide().marks(self.nodes(), at)
    }

    /// The mark of an element.
    pub(crate) fn element_wide_mark(&self, table: u32, at: &[u32]) -> Defined
        requires sound { IsSoundStore self.now }
        requires exist { AllBelow (length self.now.items.items) at.now }
        ensures { result ≡ rule.mark rule.Wide (root_of self.now) (root_of self.now) (term.Element (table_at (all self.now) table) (terms_at (all self.now) at.now)) }
    {
        self.wide().element_range(self.nodes(), table, at).mark
    }

    /// The truth of a condition.
    pub(crate) fn truth_known(&self, id: u32) -> Truth
        requires sound { IsSoundStore self.now }
        ensures { result ≡ rule.truth rule.Wide (root_of self.now) (root_of self.now) (cond_at (all self.now) id) }
    {
        self.wide().truth(id)
    }

    /// The truth of a condition, by its node; another node counts as a condition that holds.
    pub(crate) fn truth_of(&self, node: &Node) -> Truth
        requires sound { IsSoundStore self.now }
        requires below { IsBelow (length self.now.items.items) node.now }
        requires right { IsRight (root_of self.now) (all self.now) node.now }
        ensures { result ≡ rule.truth rule.Wide (root_of self.now) (root_of self.now) (cond_in (thing_of (all self.now) node.now)) }
    {
        self.wide().node_truth(self.nodes(), node)
    }
}
