//! What terms and conditions are over a box.

ghost use Rattle.std.specs.Prelude.{◌≡◌, ◌<◌, ◌≤◌, true, [], length, negsuc};
ghost use Rattle.term_language.specs.Arrays as arrays;
ghost use Rattle.term_language.specs.Ends as ends;
ghost use Rattle.term_language.specs.Forms as forms;
ghost use Rattle.term_language.specs.Marks as marks;
ghost use Rattle.term_language.specs.Rules as rule;
ghost use Rattle.term_language.specs.Terms as term;
ghost use Rattle.term_math.specs.Ascending.{all_ascend};
ghost use Rattle.term_math.specs.Shown.{box_in, ends_of, form_of};
ghost use Rattle.term_math.specs.Kept.{sets_of, table_of};
ghost use Rattle.term_math.specs.Within.{known_of, ranges_of, with_dimensions};
ghost use Rattle.term_math.specs.Made.{IsPossible};
ghost use Rattle.term_nodes.specs.Things.{cond_at, cond_in, conds_at, parts_at, table_at, term_at, terms_at, thing_of, things};
ghost use Rattle.term_nodes.specs.Built.{AllBelow, IsBelow, IsRight, IsSoundTerm, PartsBelow};
ghost use Rattle.term_nodes.specs.Operands.{left_operand, steps_down};
ghost use Rattle.term_nodes.specs.Seen.{CanRead, IsReady, element_sight, extreme_range, indexed_sight, known_sight, reading_of, sight, sight_of, sum_sight};

use crate::items::{Item, form_at, item_at, table_at};
use crate::nodes::{Comparison, Node, Signed};
use term_language::{Defined, Truth};
use term_math::{
    AbstractValue, BoxView, Ends, Extreme, Indices, Operation, Ranges, Table, and_truth, both,
    compared, factor, made, opposite, or_truth, truth_ends,
};

/// Nodes, the root box, and a box inside it; or the root box by the wide reading, where what is kept of each node says what it is.
#[derive(Clone, Copy)]
pub struct Evaluator<'a> {
    pub items: &'a [Item],
    pub root: BoxView<'a>,
    pub view: BoxView<'a>,
    pub wide: bool,
}

#[tactic(auto, using(crate::proofs::Plain::can_read, crate::proofs::Plain::is_near))]
impl<'a> Evaluator<'a> {
    /// The whole interval of a term over the box, and its mark, where elements are read whose indices the box allows.
    pub fn near_range(&self, id: u32) -> AbstractValue
        requires ready { IsReady self.now }
        requires exists { id < length self.now.items.now }
        ensures interval { ends_of result.ends ≡ rule.interval rule.Near (box_in self.now.root) (box_in self.now.view) (term_at (things self.now.items.now) id) }
        ensures mark { result.mark ≡ rule.mark rule.Near (box_in self.now.root) (box_in self.now.view) (term_at (things self.now.items.now) id) }
    {
        self.range(id)
    }

    /// What a term is over the box, where elements are read whose indices the box allows.
    pub fn near_sight(&self, id: u32) -> AbstractValue
        requires ready { IsReady self.now }
        ensures { sight_of result ≡ sight rule.Near (box_in self.now.root) (box_in self.now.view) (term_at (things self.now.items.now) id) }
    {
        self.seen(id)
    }

    /// The truth of a condition over the box, where elements are read whose indices the box allows.
    pub fn near_truth(&self, id: u32) -> Truth
        requires ready { IsReady self.now }
        ensures { result ≡ rule.truth rule.Near (box_in self.now.root) (box_in self.now.view) (cond_at (things self.now.items.now) id) }
    {
        self.truth(id)
    }
}

impl<'a> Evaluator<'a> {
    /// The whole interval of a term over the box, and its mark.
    #[cycle(seen)]
    pub fn range(&self, id: u32) -> AbstractValue
        requires ready { CanRead self.now }
        requires exists { id < length self.now.items.now }
        ensures interval { ends_of result.ends ≡ rule.interval (reading_of self.now) (box_in self.now.root) (box_in self.now.view) (term_at (things self.now.items.now) id) }
        ensures mark { result.mark ≡ rule.mark (reading_of self.now) (box_in self.now.root) (box_in self.now.view) (term_at (things self.now.items.now) id) }
    {
        let seen = self.seen(id);
        self.whole(id, &seen)
    }

    /// The whole interval of a term over the box, and its mark, where it is given what the term is there.
    fn whole(&self, id: u32, seen: &AbstractValue) -> AbstractValue
        requires ready { CanRead self.now }
        requires exists { id < length self.now.items.now }
        requires seen { sight_of seen.now ≡ sight (reading_of self.now) (box_in self.now.root) (box_in self.now.view) (term_at (things self.now.items.now) id) }
        ensures interval { ends_of result.ends ≡ rule.interval (reading_of self.now) (box_in self.now.root) (box_in self.now.view) (term_at (things self.now.items.now) id) }
        ensures mark { result.mark ≡ rule.mark (reading_of self.now) (box_in self.now.root) (box_in self.now.view) (term_at (things self.now.items.now) id) }
    {
        let form = form_at(self.items, id);
        AbstractValue {
            ends: self.view.whole(form, &seen.ends),
            mark: seen.mark,
        }
    }

    /// What a term is over the box.
    #[cycle(seen)]
    #[tactic(auto, using(crate::proofs::Plain::plain_seen, crate::proofs::Plain::wide_seen, crate::proofs::Plain::is_near, crate::proofs::Links::product_operand, crate::proofs::Links::operation_operand, crate::proofs::Steps::seen_at, crate::proofs::Steps::below_at, crate::proofs::Steps::sound_at, crate::proofs::Steps::right_at, crate::proofs::Steps::plain_at))]
    pub fn seen(&self, id: u32) -> AbstractValue
        requires ready { CanRead self.now }
        ensures { sight_of result ≡ sight (reading_of self.now) (box_in self.now.root) (box_in self.now.view) (term_at (things self.now.items.now) id) }
    {
        let Some(item) = item_at(self.items, id) else {
            return AbstractValue::clear();
        };
        if item.facts.is_plain() {
            return AbstractValue::clear();
        }
        if self.wide {
            return AbstractValue {
                ends: item.facts.wide,
                mark: item.facts.wide_mark,
            };
        }
        match &item.node {
            Node::Constant(_) => AbstractValue::clear(),
            Node::Cell(_) => AbstractValue::clear(),
            Node::Sum(parts) => self.sum(id, parts.as_slice()),
            Node::Product(a, _) => self.chain(id, *a),
            Node::Operation(_, a) => self.chain(id, *a),
            Node::Extreme(extreme, first, later) => {
                self.extreme(
                    item.facts.form.plain,
                    id,
                    *extreme,
                    *first,
                    later.as_slice(),
                )
            }
            Node::Element(table, at) => {
                self.element(item.facts.form.plain, id, *table, at.as_slice())
            }
            Node::Number(c) => self.number(id, *c),
            Node::Compare(_) => AbstractValue::clear(),
            Node::Not(_) => AbstractValue::clear(),
            Node::All(_) => AbstractValue::clear(),
            Node::Any(_) => AbstractValue::clear(),
            Node::Implies(_, _) => AbstractValue::clear(),
            Node::AllDifferent(_) => AbstractValue::clear(),
            Node::Cumulative(_, _) => AbstractValue::clear(),
            Node::Table(_) => AbstractValue::clear(),
        }
    }

    /// What a node with a left operand is over the box: from the end of the chain of left operands up to it.
    #[cycle(seen)]
    #[tactic(auto, using(crate::proofs::Links::from_left, crate::proofs::Links::reached_sight))]
    fn chain(&self, id: u32, left: u32) -> AbstractValue
        requires ready { CanRead self.now }
        requires below { left < id }
        requires left { term_at (things self.now.items.now) left ≡ left_operand (term_at (things self.now.items.now) id) }
        ensures { sight_of result ≡ sight (reading_of self.now) (box_in self.now.root) (box_in self.now.view) (term_at (things self.now.items.now) id) }
    {
        let bottom = self.bottom(left);
        let below = self.seen(bottom.id);
        self.segment(id, bottom.steps + 1, &below)
    }

    /// What the first node of a chain is over the box, where it is given what stands so many steps below it. The lower half goes before the
    /// upper one, so calls nest as deep as the steps can be halved, and no number of each node has to be kept.
    #[cycle(seen)]
    #[tactic(auto, using(crate::proofs::Links::no_steps, crate::proofs::Links::last_step, crate::proofs::Links::further_sight, crate::proofs::Links::reached_sight))]
    fn segment(&self, top: u32, steps: u32, below: &AbstractValue) -> AbstractValue
        requires ready { CanRead self.now }
        requires below { sight_of below.now ≡ sight (reading_of self.now) (box_in self.now.root) (box_in self.now.view) (steps_down steps (term_at (things self.now.items.now) top)) }
        ensures { sight_of result ≡ sight (reading_of self.now) (box_in self.now.root) (box_in self.now.view) (term_at (things self.now.items.now) top) }
    {
        if steps == 0 {
            return *below;
        }
        if steps == 1 {
            return self.raised(top, below);
        }
        let half = steps / 2;
        let middle = self.lower(top, half);
        let seen = self.segment(middle, steps - half, below);
        self.segment(top, half, &seen)
    }

    /// What a node is over the box, where it is given what its left operand is; one that has none is what it is given.
    #[cycle(seen)]
    #[tactic(auto, using(crate::proofs::Links::product_below, crate::proofs::Links::operation_below, crate::proofs::Links::no_operand, crate::proofs::Links::nothing_there, crate::proofs::Steps::seen_at, crate::proofs::Steps::below_at, crate::proofs::Steps::sound_at, crate::proofs::Steps::right_at, crate::proofs::Steps::plain_at))]
    fn raised(&self, id: u32, below: &AbstractValue) -> AbstractValue
        requires ready { CanRead self.now }
        requires below { sight_of below.now ≡ sight (reading_of self.now) (box_in self.now.root) (box_in self.now.view) (left_operand (term_at (things self.now.items.now) id)) }
        ensures { sight_of result ≡ sight (reading_of self.now) (box_in self.now.root) (box_in self.now.view) (term_at (things self.now.items.now) id) }
    {
        let Some(item) = item_at(self.items, id) else {
            return *below;
        };
        match &item.node {
            Node::Product(a, b) => self.product(id, *a, *b, below),
            Node::Operation(operation, a) => {
                self.operation(item.facts.form.plain, operation, *a, below)
            }
            Node::Constant(_) => *below,
            Node::Cell(_) => *below,
            Node::Sum(_) => *below,
            Node::Extreme(_, _, _) => *below,
            Node::Element(_, _) => *below,
            Node::Number(_) => *below,
            Node::Compare(_) => *below,
            Node::Not(_) => *below,
            Node::All(_) => *below,
            Node::Any(_) => *below,
            Node::Implies(_, _) => *below,
            Node::AllDifferent(_) => *below,
            Node::Cumulative(_, _) => *below,
            Node::Table(_) => *below,
        }
    }

    /// What a sum is over the box.
    #[cycle(seen)]
    #[tactic(auto, using(crate::proofs::Steps::next_part, crate::proofs::Steps::no_parts, crate::proofs::Steps::part_below, crate::proofs::Ready::times_fit, crate::proofs::Ready::sum_fit))]
    pub fn sum(&self, limit: u32, parts: &[Signed]) -> AbstractValue
        requires ready { CanRead self.now }
        requires below { PartsBelow limit parts.now }
        requires sound { IsSoundTerm (box_in self.now.root) (term.Sum (parts_at (things self.now.items.now) parts.now)) }
        ensures { sight_of result ≡ sum_sight (reading_of self.now) (box_in self.now.root) (box_in self.now.view) (parts_at (things self.now.items.now) parts.now) }
    {
        let mut sum = AbstractValue::clear();
        for i in (0..parts.len()).rev() {
            let part = &parts[i];
            let seen = self.seen(part.term);
            sum = sum.with_part(part.subtracted, &seen);
        }
        sum
    }

    /// What a product is over the box, where it is given what its first factor is.
    #[cycle(seen)]
    #[tactic(auto, using(crate::proofs::Ready::product_fit))]
    fn product(&self, limit: u32, a: u32, b: u32, left: &AbstractValue) -> AbstractValue
        requires ready { CanRead self.now }
        requires exists { limit ≤ length self.now.items.now }
        requires left { a < limit }
        requires right { b < limit }
        requires sound { IsSoundTerm (box_in self.now.root) (term.Product (term_at (things self.now.items.now) a) (term_at (things self.now.items.now) b)) }
        requires seen { sight_of left.now ≡ sight (reading_of self.now) (box_in self.now.root) (box_in self.now.view) (term_at (things self.now.items.now) a) }
        ensures { sight_of result ≡ sight (reading_of self.now) (box_in self.now.root) (box_in self.now.view) (term.Product (term_at (things self.now.items.now) a) (term_at (things self.now.items.now) b)) }
    {
        let right = self.seen(b);
        let f = form_at(self.items, a);
        let g = form_at(self.items, b);
        AbstractValue {
            ends: self.view.product(f, g, &left.ends, &right.ends),
            mark: both(left.mark, right.mark),
        }
    }

    /// What is made of one number over the box, where it is given what that is; where it folds to a number, it is plain.
    #[tactic(auto, using(crate::proofs::Ranges::operation_small, crate::proofs::Ranges::operation_folded, crate::proofs::Ranges::operation_alone))]
    fn operation(
        &self,
        plain: bool,
        operation: &Operation,
        a: u32,
        below: &AbstractValue,
    ) -> AbstractValue
        requires ready { CanRead self.now }
        requires exists { a < length self.now.items.now }
        requires possible { IsPossible operation.now }
        requires plain { plain ≡ (rule.form (box_in self.now.root) (term.Made operation.now (term_at (things self.now.items.now) a))).plain }
        requires seen { sight_of below.now ≡ sight (reading_of self.now) (box_in self.now.root) (box_in self.now.view) (term_at (things self.now.items.now) a) }
        ensures { sight_of result ≡ sight (reading_of self.now) (box_in self.now.root) (box_in self.now.view) (term.Made operation.now (term_at (things self.now.items.now) a)) }
    {
        let range = self.whole(a, below);
        if plain {
            return AbstractValue {
                ends: Ends::zero(),
                mark: range.mark,
            };
        }
        AbstractValue {
            ends: made(operation, &range.ends),
            mark: range.mark,
        }
    }

    /// What the least or the greatest of several is over the box; where it folds to a number, it is plain.
    #[cycle(seen)]
    #[tactic(auto, using(crate::proofs::Ranges::extreme_folded, crate::proofs::Ranges::extreme_alone))]
    fn extreme(
        &self,
        plain: bool,
        limit: u32,
        extreme: Extreme,
        first: u32,
        later: &[u32],
    ) -> AbstractValue
        requires ready { CanRead self.now }
        requires exists { limit ≤ length self.now.items.now }
        requires first { first < limit }
        requires below { AllBelow limit later.now }
        requires plain { plain ≡ (rule.form (box_in self.now.root) (term.Selected extreme (term_at (things self.now.items.now) first) (terms_at (things self.now.items.now) later.now))).plain }
        ensures { sight_of result ≡ sight (reading_of self.now) (box_in self.now.root) (box_in self.now.view)
            (term.Selected extreme (term_at (things self.now.items.now) first) (terms_at (things self.now.items.now) later.now)) }
    {
        let range = self.extreme_range(limit, extreme, first, later);
        if plain {
            return AbstractValue {
                ends: Ends::zero(),
                mark: range.mark,
            };
        }
        range
    }

    /// The least or the greatest of the whole intervals of several, and the mark of all.
    #[cycle(seen)]
    #[tactic(auto, using(crate::proofs::Ranges::next_taken, crate::proofs::Ranges::none_taken, crate::proofs::Ranges::taken_is, crate::proofs::Steps::cond_below))]
    pub fn extreme_range(
        &self,
        limit: u32,
        extreme: Extreme,
        first: u32,
        later: &[u32],
    ) -> AbstractValue
        requires ready { CanRead self.now }
        requires exists { limit ≤ length self.now.items.now }
        requires first { first < limit }
        requires below { AllBelow limit later.now }
        ensures { sight_of result ≡ extreme_range (reading_of self.now) (box_in self.now.root) (box_in self.now.view) extreme (term_at (things self.now.items.now) first)
            (terms_at (things self.now.items.now) later.now) }
    {
        let mut taken = self.range(first);
        for id in later {
            let other = self.range(*id);
            taken = taken.or_other(extreme, &other);
        }
        taken
    }

    /// What an element is over the box; where it is one item whatever the box, it is plain.
    #[cycle(seen)]
    #[tactic(auto, using(crate::proofs::Elements::element_plain, crate::proofs::Elements::element_alone))]
    fn element(&self, plain: bool, limit: u32, table: u32, at: &[u32]) -> AbstractValue
        requires ready { CanRead self.now }
        requires exists { limit ≤ length self.now.items.now }
        requires below { AllBelow limit at.now }
        requires near { reading_of self.now ≡ rule.Near }
        requires plain { plain ≡ (rule.form (box_in self.now.root) (term.Element (table_at (things self.now.items.now) table) (terms_at (things self.now.items.now) at.now))).plain }
        ensures { sight_of result ≡ sight (reading_of self.now) (box_in self.now.root) (box_in self.now.view) (term.Element (table_at (things self.now.items.now) table) (terms_at (things self.now.items.now) at.now)) }
    {
        let range = self.element_range(limit, table, at);
        if plain {
            return AbstractValue {
                ends: Ends::zero(),
                mark: range.mark,
            };
        }
        range
    }

    /// The whole interval of an element over the box, and its mark.
    #[cycle(seen)]
    #[tactic(auto, using(crate::proofs::Indexing::no_table_there))]
    pub fn element_range(&self, limit: u32, table: u32, at: &[u32]) -> AbstractValue
        requires ready { CanRead self.now }
        requires exists { limit ≤ length self.now.items.now }
        requires below { AllBelow limit at.now }
        ensures { sight_of result ≡ element_sight (box_in self.now.view) (table_at (things self.now.items.now) table)
            (marks.all_marks (rule.marks (reading_of self.now) (box_in self.now.root) (box_in self.now.view) (terms_at (things self.now.items.now) at.now)))
            (rule.intervals (reading_of self.now) (box_in self.now.root) (box_in self.now.view) (terms_at (things self.now.items.now) at.now)) }
    {
        let Some(found) = table_at(self.items, table) else {
            return AbstractValue::never(Ends::zero());
        };
        if found.elements.is_empty() {
            return AbstractValue::never(Ends::zero());
        }
        self.indexed(
            limit,
            found,
            at,
            found.sets.as_slice(),
            &Indices::none(),
            &Ranges::End,
        )
    }

    /// What an element is over the box, where that of the indices behind these is given, and their dimensions: those of one number say yes or no,
    /// and calls nest for the others alone, which an array of n elements has no more than the binary digits of n.
    #[cycle(seen)]
    #[tactic(auto, using(crate::proofs::Indexing::next_narrow, crate::proofs::Indexing::next_wide, crate::proofs::Indexing::no_set_left, crate::proofs::Indexing::no_index_left))]
    fn indexed(
        &self,
        limit: u32,
        found: &Table,
        at: &[u32],
        sets: &[Vec<i64>],
        indices: &Indices,
        behind: &Ranges,
    ) -> AbstractValue
        requires ready { CanRead self.now }
        requires exists { limit ≤ length self.now.items.now }
        requires below { AllBelow limit at.now }
        requires complete { length (table_of found.now).items ≡ length (arrays.indices (table_of found.now).sets) }
        requires ascend { found.now.ascending ≡ true → all_ascend sets.now ≡ true }
        ensures { sight_of result ≡ indexed_sight (reading_of self.now) (box_in self.now.root) (box_in self.now.view) (table_of found.now) (terms_at (things self.now.items.now) at.now)
            (sets_of sets.now) indices.now.mark (known_of indices.now (ranges_of behind.now)) }
    {
        let mut left = at;
        let mut dimensions = sets;
        let mut known = *indices;
        while let Some((last, before)) = left.split_last() {
            let Some((set, others)) = dimensions.split_last() else {
                return AbstractValue::never(found.hull(&self.view));
            };
            let range = self.range(*last);
            let more = known.with(&range.ends, range.mark, set.as_slice(), found.ascending);
            if set.len() != 1 {
                let ranges = Ranges::First(range.ends, &*behind);
                return self.indexed(limit, found, before, others, &more, &ranges);
            }
            left = before;
            dimensions = others;
            known = more;
        }
        self.after_indices(found, dimensions, &known, behind)
    }

    /// What an element is over the box, where all its indices are known: Never where it has more dimensions.
    #[tactic(auto, using(crate::proofs::Indexing::sets_left, crate::proofs::Indexing::no_sets_left))]
    pub fn after_indices(
        &self,
        found: &Table,
        sets: &[Vec<i64>],
        indices: &Indices,
        ranges: &Ranges,
    ) -> AbstractValue
        requires complete { length (table_of found.now).items ≡ length (arrays.indices (table_of found.now).sets) }
        ensures { sight_of result ≡ known_sight (box_in self.now.view) (table_of found.now) indices.now.mark
            (with_dimensions [] (sets_of sets.now) (known_of indices.now (ranges_of ranges.now))) }
    {
        if !sets.is_empty() {
            return AbstractValue::never(found.hull(&self.view));
        }
        found.within(ranges, indices, &self.view)
    }

    /// What a condition as a number is over the box.
    #[cycle(seen)]
    fn number(&self, limit: u32, c: u32) -> AbstractValue
        requires ready { CanRead self.now }
        requires below { c < limit }
        ensures { sight_of result ≡ sight (reading_of self.now) (box_in self.now.root) (box_in self.now.view) (term.Number (cond_at (things self.now.items.now) c)) }
    {
        let truth = self.truth(c);
        AbstractValue {
            ends: truth_ends(truth),
            mark: Defined::Always,
        }
    }

    /// The truth of a condition over the box.
    #[cycle(seen)]
    #[tactic(auto, using(crate::proofs::Steps::truth_at, crate::proofs::Plain::wide_truth))]
    pub fn truth(&self, id: u32) -> Truth
        requires ready { CanRead self.now }
        ensures { result ≡ rule.truth (reading_of self.now) (box_in self.now.root) (box_in self.now.view) (cond_at (things self.now.items.now) id) }
    {
        let Some(item) = item_at(self.items, id) else {
            return Truth::True;
        };
        if self.wide {
            return item.facts.truth;
        }
        self.node_truth(id, &item.node)
    }

    /// The truth of a condition over the box, by its node; another node counts as a condition that holds.
    #[cycle(seen)]
    pub fn node_truth(&self, limit: u32, node: &Node) -> Truth
        requires ready { CanRead self.now }
        requires exists { limit ≤ length self.now.items.now }
        requires below { IsBelow limit node.now }
        requires right { IsRight (box_in self.now.root) (things self.now.items.now) node.now }
        ensures { result ≡ rule.truth (reading_of self.now) (box_in self.now.root) (box_in self.now.view) (cond_in (thing_of (things self.now.items.now) node.now)) }
    {
        match node {
            Node::Constant(_)
            | Node::Cell(_)
            | Node::Sum(_)
            | Node::Product(_, _)
            | Node::Operation(_, _)
            | Node::Extreme(_, _, _)
            | Node::Element(_, _)
            | Node::Number(_)
            | Node::Table(_) => Truth::True,
            Node::Compare(comparison) => self.compare(limit, comparison),
            Node::Not(c) => opposite(self.truth(*c)),
            Node::All(conds) => self.all(limit, conds.as_slice()),
            Node::Any(conds) => self.any(limit, conds.as_slice()),
            Node::Implies(a, c) => self.implies(limit, *a, *c),
            Node::AllDifferent(terms) => self.all_different(limit, terms.as_slice()),
            Node::Cumulative(tasks, capacity) => {
                self.cumulative(limit, tasks.as_slice(), *capacity)
            }
        }
    }

    /// The truth of a comparison over the box.
    #[cycle(seen)]
    #[tactic(auto, using(crate::proofs::Ready::difference_fit))]
    fn compare(&self, limit: u32, comparison: &Comparison) -> Truth
        requires ready { CanRead self.now }
        requires exists { limit ≤ length self.now.items.now }
        requires left { comparison.now.left < limit }
        requires right { comparison.now.right < limit }
        requires difference { form_of comparison.now.form ≡ forms.plus_form (negsuc 0) (rule.form (box_in self.now.root) (term_at (things self.now.items.now) comparison.now.left))
            (rule.form (box_in self.now.root) (term_at (things self.now.items.now) comparison.now.right)) }
        ensures { result ≡ rule.truth (reading_of self.now) (box_in self.now.root) (box_in self.now.view)
            (term.Compare comparison.now.op (term_at (things self.now.items.now) comparison.now.left) (term_at (things self.now.items.now) comparison.now.right)) }
    {
        let left = self.seen(comparison.left);
        let right = self.seen(comparison.right);
        let difference = self
            .view
            .difference(&comparison.form, &left.ends, &right.ends);
        compared(comparison.op, &difference, both(left.mark, right.mark))
    }

    /// Whether one condition does not hold or the other one does, over the box.
    #[cycle(seen)]
    fn implies(&self, limit: u32, a: u32, c: u32) -> Truth
        requires ready { CanRead self.now }
        requires left { a < limit }
        requires right { c < limit }
        ensures { result ≡ rule.truth (reading_of self.now) (box_in self.now.root) (box_in self.now.view) (term.Implies (cond_at (things self.now.items.now) a) (cond_at (things self.now.items.now) c)) }
    {
        let premise = self.truth(a);
        let conclusion = self.truth(c);
        or_truth(opposite(premise), conclusion)
    }

    /// Whether all conditions hold over the box.
    #[cycle(seen)]
    #[tactic(auto, using(crate::proofs::Steps::next_all, crate::proofs::Steps::none_all, crate::proofs::Steps::cond_below))]
    fn all(&self, limit: u32, conds: &[u32]) -> Truth
        requires ready { CanRead self.now }
        requires below { AllBelow limit conds.now }
        ensures { result ≡ rule.all_truth (reading_of self.now) (box_in self.now.root) (box_in self.now.view) (conds_at (things self.now.items.now) conds.now) }
    {
        let mut truth = Truth::True;
        for i in (0..conds.len()).rev() {
            let here = self.truth(conds[i]);
            truth = and_truth(here, truth);
        }
        truth
    }

    /// Whether some condition holds over the box.
    #[cycle(seen)]
    #[tactic(auto, using(crate::proofs::Steps::next_any, crate::proofs::Steps::none_any, crate::proofs::Steps::cond_below))]
    fn any(&self, limit: u32, conds: &[u32]) -> Truth
        requires ready { CanRead self.now }
        requires below { AllBelow limit conds.now }
        ensures { result ≡ rule.any_truth (reading_of self.now) (box_in self.now.root) (box_in self.now.view) (conds_at (things self.now.items.now) conds.now) }
    {
        let mut truth = Truth::False;
        for i in (0..conds.len()).rev() {
            let here = self.truth(conds[i]);
            truth = or_truth(here, truth);
        }
        truth
    }
}
