//! Chains of left operands: a product of many factors, and what is divided again and again, are as deep as their text is long, so they
//! are walked by loops.

ghost use Rattle.std.specs.Prelude.{◌≡◌, ◌≢◌, ◌+◌, ◌<◌, ◌≤◌, ◌&&◌, true, IfNone, IfSome};
ghost use Rattle.term_language.specs.Marks.{is_always};
ghost use Rattle.term_language.specs.Rules.{Wide, form, mark};
ghost use Rattle.term_math.specs.Shown.{box_in};
ghost use Rattle.term_nodes.specs.Things.{term_at, things};
ghost use Rattle.term_nodes.specs.Operands.{left_operand, steps_down};
ghost use Rattle.term_nodes.specs.Seen.{CanRead};

use crate::evaluation::Evaluator;
use crate::items::item_at;

/// Where a chain ends, and how many steps it is down to there.
#[derive(Clone, Copy)]
pub(crate) struct Bottom {
    pub id: u32,
    pub steps: u32,
}

impl<'a> Evaluator<'a> {
    /// The left operand of the node of this number; of one that has none, the node itself.
    #[tactic(auto, using(crate::proofs::Links::left_below, crate::proofs::Links::left_is, crate::proofs::Links::left_none, crate::proofs::Links::left_nothing))]
    fn left(&self, id: u32) -> u32
        requires ready { CanRead self.now }
        ensures below { result ≤ id }
        ensures left { term_at (things self.now.items.now) result ≡ left_operand (term_at (things self.now.items.now) id) }
    {
        let Some(item) = item_at(self.items, id) else {
            return id;
        };
        match item.node.left() {
            Some(a) => a,
            None => id,
        }
    }

    /// The left operand of the node of this number, where the node is not plain.
    #[tactic(auto, using(crate::proofs::Links::if_below, crate::proofs::Links::if_left, crate::proofs::Links::if_ends, crate::proofs::Links::nothing_ends, crate::proofs::Links::plain_ends))]
    fn link(&self, id: u32) -> Option<u32>
        requires ready { CanRead self.now }
        ensures below { IfSome result (λ left. left < id) }
        ensures left { IfSome result (λ left. term_at (things self.now.items.now) left ≡ left_operand (term_at (things self.now.items.now) id)) }
        ensures none { IfNone result (left_operand (term_at (things self.now.items.now) id) ≢ term_at (things self.now.items.now) id
            → ((form (box_in self.now.root) (term_at (things self.now.items.now) id)).plain
            && is_always (mark Wide (box_in self.now.root) (box_in self.now.root) (term_at (things self.now.items.now) id))) ≡ true) }
    {
        let item = item_at(self.items, id)?;
        if item.facts.is_plain() {
            return None;
        }
        item.node.left()
    }

    /// Where the chain of left operands ends that begins at this number: at a node that is plain, or that has none.
    #[tactic(auto, using(crate::proofs::Links::one_step))]
    pub(crate) fn bottom(&self, top: u32) -> Bottom
        requires ready { CanRead self.now }
        ensures below { result.id + result.steps ≤ top }
        ensures reached { term_at (things self.now.items.now) result.id ≡ steps_down result.steps (term_at (things self.now.items.now) top) }
        ensures end { left_operand (term_at (things self.now.items.now) result.id) ≢ term_at (things self.now.items.now) result.id
            → ((form (box_in self.now.root) (term_at (things self.now.items.now) result.id)).plain
            && is_always (mark Wide (box_in self.now.root) (box_in self.now.root) (term_at (things self.now.items.now) result.id))) ≡ true }
    {
        let mut id = top;
        let mut steps = 0;
        'chain: while let Some(left) = self.link(id) {
            id = left;
            steps += 1;
        }
        Bottom { id, steps }
    }

    /// The node that is reached by so many steps, each to the left operand.
    #[tactic(auto, using(crate::proofs::Links::one_step))]
    pub(crate) fn lower(&self, top: u32, steps: u32) -> u32
        requires ready { CanRead self.now }
        ensures below { result ≤ top }
        ensures reached { term_at (things self.now.items.now) result ≡ steps_down steps (term_at (things self.now.items.now) top) }
    {
        let mut id = top;
        'chain: for _step in 0..steps {
            id = self.left(id);
        }
        id
    }
}
