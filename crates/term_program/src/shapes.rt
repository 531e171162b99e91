//! What form conditions have.

ghost use Rattle.std.specs.Prelude.{◌≡◌, ◌<◌, false, length, option_map, IfSome, IfNone, Some, None};
ghost use Rattle.term_language.specs.Marks as marks;
ghost use Rattle.term_language.specs.Marks.{is_always};
ghost use Rattle.term_language.specs.Rules as rule;
ghost use Rattle.term_nodes.specs.Things.{cond_at, term_at};
ghost use Rattle.term_math.specs.Shown.{cells_of};
ghost use Rattle.term_program.specs.declared.shapes.Form.TheVariants.{Linear};
ghost use Rattle.term_program.specs.Programs.{IsMade, root_in, things_in};
ghost use Rattle.term_program.specs.Comparisons.{IsComparison, difference_of, global_shape, is_comparison, linear_in, shape_in};

use crate::program::Program;
use sopl_base::CmpOp;
use term_language::Defined;
use term_math::{Coefficient, both};
use term_nodes::{Comparison, Node, item_at};
use term_store::CondId;

/// What form a condition has: a comparison that is Always defined and has cells alone in it, `allDifferent`, `cumulative`, or another one.
#[derive(Clone, Copy, Debug, PartialEq, Eq)]
pub enum Form {
    Linear,
    AllDifferent,
    Cumulative,
    Other,
}

impl Program {
    /// The mark of a term over the box of all points.
    fn root_mark(&self, id: u32) -> Defined
        requires made { IsMade self.now }
        requires exists { id < length (things_in self.now) }
        ensures { result ≡ rule.mark rule.Near (root_in self.now) (root_in self.now) (term_at (things_in self.now) id) }
    {
        self.draft.store.range_of(id, &self.draft.store.root()).mark
    }

    /// Whether both sides of a comparison are Always defined over the box of all points.
    fn is_defined(&self, left: u32, right: u32) -> bool
        requires made { IsMade self.now }
        requires left { left < length (things_in self.now) }
        requires right { right < length (things_in self.now) }
        ensures { result ≡ is_always (marks.both (rule.mark rule.Near (root_in self.now) (root_in self.now) (term_at (things_in self.now) left))
            (rule.mark rule.Near (root_in self.now) (root_in self.now) (term_at (things_in self.now) right))) }
    {
        match both(self.root_mark(left), self.root_mark(right)) {
            Defined::Never => false,
            Defined::Maybe => false,
            Defined::Always => true,
        }
    }

    /// The comparison that a condition is, if it is one.
    #[tactic(auto, using(crate::proofs::Comparisons::compared_there, crate::proofs::Comparisons::not_compared, crate::proofs::Comparisons::nothing_compared))]
    fn comparison(&self, cond: u32) -> Option<&Comparison>
        requires made { IsMade self.now }
        ensures some { IfSome result (λ c. IsComparison (root_in self.now) (things_in self.now) cond c.now) }
        ensures none { IfNone result (is_comparison (cond_at (things_in self.now) cond) ≡ false) }
    {
        let root = self.draft.store.root();
        let here = self.draft.store.here(&root);
        let Some(item) = item_at(here.items, cond) else {
            return None;
        };
        match &item.node {
            Node::Compare(comparison) => Some(comparison),
            Node::Constant(_) => None,
            Node::Cell(_) => None,
            Node::Sum(_) => None,
            Node::Product(_, _) => None,
            Node::Operation(_, _) => None,
            Node::Extreme(_, _, _) => None,
            Node::Element(_, _) => None,
            Node::Number(_) => None,
            Node::Not(_) => None,
            Node::All(_) => None,
            Node::Any(_) => None,
            Node::Implies(_, _) => None,
            Node::AllDifferent(_) => None,
            Node::Cumulative(_, _) => None,
            Node::Table(_) => None,
        }
    }

    /// The linear comparison that a condition is, if it is one.
    #[tactic(auto, using(crate::proofs::Comparisons::linear_there, crate::proofs::Comparisons::not_plain, crate::proofs::Comparisons::not_defined, crate::proofs::Comparisons::no_comparison))]
    fn linear(&self, cond: u32) -> Option<&Comparison>
        requires made { IsMade self.now }
        ensures some { IfSome result (λ c. linear_in (root_in self.now) (cond_at (things_in self.now) cond) ≡ Some (difference_of c.now)) }
        ensures none { IfNone result (linear_in (root_in self.now) (cond_at (things_in self.now) cond) ≡ None) }
    {
        let Some(comparison) = self.comparison(cond) else {
            return None;
        };
        if !comparison.form.plain {
            return None;
        }
        if !self.is_defined(comparison.left, comparison.right) {
            return None;
        }
        Some(comparison)
    }

    /// Which of the global conditions a condition is, or that it is none.
    #[tactic(auto, using(crate::proofs::Comparisons::different_there, crate::proofs::Comparisons::cumulative_there, crate::proofs::Comparisons::not_global, crate::proofs::Comparisons::nothing_global))]
    fn global_form(&self, cond: u32) -> Form
        requires made { IsMade self.now }
        ensures { result ≡ global_shape (cond_at (things_in self.now) cond) }
    {
        let root = self.draft.store.root();
        let here = self.draft.store.here(&root);
        let Some(item) = item_at(here.items, cond) else {
            return Form::Other;
        };
        match &item.node {
            Node::AllDifferent(_) => Form::AllDifferent,
            Node::Cumulative(_, _) => Form::Cumulative,
            Node::Constant(_) => Form::Other,
            Node::Cell(_) => Form::Other,
            Node::Sum(_) => Form::Other,
            Node::Product(_, _) => Form::Other,
            Node::Operation(_, _) => Form::Other,
            Node::Extreme(_, _, _) => Form::Other,
            Node::Element(_, _) => Form::Other,
            Node::Number(_) => Form::Other,
            Node::Compare(_) => Form::Other,
            Node::Not(_) => Form::Other,
            Node::All(_) => Form::Other,
            Node::Any(_) => Form::Other,
            Node::Implies(_, _) => Form::Other,
            Node::Table(_) => Form::Other,
        }
    }

    /// What form a condition has.
    #[tactic(auto, using(crate::proofs::Comparisons::linear_shape, crate::proofs::Comparisons::other_shape))]
    pub fn form(&self, cond: CondId) -> Form
        requires made { IsMade self.now }
        ensures { result ≡ shape_in (root_in self.now) (cond_at (things_in self.now) cond.0) }
    {
        match self.linear(cond.0) {
            Some(_) => Form::Linear,
            None => self.global_form(cond.0),
        }
    }

    /// The operator of a linear comparison.
    #[tactic(auto, using(crate::proofs::Comparisons::no_linear))]
    pub fn compared(&self, cond: CondId) -> CmpOp
        requires made { IsMade self.now }
        requires linear { shape_in (root_in self.now) (cond_at (things_in self.now) cond.0) ≡ Linear }
        ensures { option_map (λ d. d.op) (linear_in (root_in self.now) (cond_at (things_in self.now) cond.0)) ≡ Some result }
    {
        match self.linear(cond.0) {
            Some(comparison) => comparison.op,
            None => CmpOp::Eq,
        }
    }

    /// The constant of a linear comparison's left side minus its right one.
    #[tactic(auto, using(crate::proofs::Comparisons::no_linear))]
    pub fn constant(&self, cond: CondId) -> i64
        requires made { IsMade self.now }
        requires linear { shape_in (root_in self.now) (cond_at (things_in self.now) cond.0) ≡ Linear }
        ensures { option_map (λ d. d.form.constant) (linear_in (root_in self.now) (cond_at (things_in self.now) cond.0)) ≡ Some result }
    {
        match self.linear(cond.0) {
            Some(comparison) => comparison.form.constant,
            None => 0,
        }
    }

    /// The cells of a linear comparison's left side minus its right one, in ascending order, each once and none of them 0 times.
    #[tactic(auto, using(crate::proofs::Comparisons::no_linear))]
    pub fn parts(&self, cond: CondId) -> &[Coefficient]
        requires made { IsMade self.now }
        requires linear { shape_in (root_in self.now) (cond_at (things_in self.now) cond.0) ≡ Linear }
        ensures { option_map (λ d. d.form.cells) (linear_in (root_in self.now) (cond_at (things_in self.now) cond.0)) ≡ Some (cells_of result.now) }
    {
        match self.linear(cond.0) {
            Some(comparison) => comparison.form.cells.as_slice(),
            None => &[],
        }
    }
}
