//! Which operands mention a cell.

ghost use Rattle.std.specs.Prelude.{◌≡◌, ◌+◌, ◌<◌, ◌≤◌, ℕ, length, IfNone, IfSome, get_or};
ghost use Rattle.prop_operands.specs.Kept.{AreOperands, IsOnly, MentionsThere, NoneMentions};
ghost use Rattle.prop_operands.specs.declared.operands.Operand.{Operand};

use crate::operands::Operands;
use prop_shave::has;
use term_program::{Program, TermId};

impl Operands {
    /// The first place from one on, whose operand mentions a cell.
    #[tactic(auto, using(crate::proofs::Mentioning::none_more, crate::proofs::Mentioning::none_at_first, crate::proofs::Mentioning::none_left, crate::proofs::Mentioning::found_there))]
    fn next_place(&self, program: &Program, cell: u32, from: usize) -> Option<usize>
        requires operands { AreOperands program.now self.now }
        ensures exists { IfSome result (λ place. place < length self.now.list.items) }
        ensures behind { IfSome result (λ place. from ≤ place) }
        ensures here { IfSome result (MentionsThere program.now self.now.list.items cell) }
        ensures some { IfSome result (NoneMentions program.now self.now.list.items cell from) }
        ensures none { IfNone result (NoneMentions program.now self.now.list.items cell from (length self.now.list.items)) }
    {
        'places: for place in from..self.list.len() {
            if has(self.list[place].cells.as_slice(), cell) {
                return Some(place);
            }
        }
        None
    }

    /// The place of the only operand that mentions a cell; none where none or several do.
    #[tactic(auto, using(crate::proofs::Mentioning::none_only, crate::proofs::Mentioning::two_not_only))]
    pub fn only_place(&self, program: &Program, cell: u32) -> Option<usize>
        requires operands { AreOperands program.now self.now }
        ensures some { IfSome result (IsOnly program.now self.now.list.items cell) }
        ensures none { IfNone result ((place : ℕ) → ¬ IsOnly program.now self.now.list.items cell place) }
    {
        let Some(first) = self.next_place(program, cell, 0) else {
            return None;
        };
        match self.next_place(program, cell, first + 1) {
            Some(_) => None,
            None => Some(first),
        }
    }

    /// The term of an operand.
    pub fn term(&self, place: usize) -> TermId
        requires exists { place < length self.now.list.items }
        ensures { (x : Operand) → result ≡ (get_or self.now.list.items place x).term }
    {
        self.list[place].term
    }
}
