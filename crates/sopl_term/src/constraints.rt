//! Constraints are added.

ghost use Rattle.std.specs.Prelude.{◌≡◌, ◌≤ℤ◌, ◌^◌, ◌<◌, ◌++◌, ◌∷◌, [], pos, length, OnOk, OnErr};
ghost use Rattle.term_nodes.specs.Built.{AllBelow};
ghost use Rattle.sopl_term.specs.Built.{IsBuilding, IsUnder, built, cond_ids, conds_of, problem_built, with_chance, with_hard};
ghost use Rattle.term_program.specs.Drafts.{IsThreshold};

use crate::builder::Builder;
use std::alloc::AllocError;
use term_program::{ChanceConditions, Conditions};
use term_store::{CondId, cond_numbers};

/// Puts one more behind a list that has fewer than 2^32 - 1; a longer one counts as out of memory.
fn put<T: Drop>(list: &mut Vec<T>, item: T) -> Result<(), AllocError>
    ensures ok { OnOk result (list.new.items ≡ list.old.items ++ item ∷ []) }
    ensures few { OnOk result (length list.old.items < 4294967295) }
    ensures err { OnErr result (list.new.items ≡ list.old.items) }
{
    if list.len() >= u32::MAX as usize {
        return Err(AllocError);
    }
    list.push(item)?;
    Ok(())
}

/// A chance constraint with this threshold.
fn with_threshold(ids: Vec<u32>, p: i64, q: i64) -> ChanceConditions
    requires from_zero { pos 0 ≤ℤ p }
    requires to_whole { p ≤ℤ q }
    requires positive { pos 1 ≤ℤ q }
    requires small { q ≤ℤ pos (2 ^ 20) }
    ensures ids { result.conditions.ids ≡ ids }
    ensures p { result.p ≡ p }
    ensures q { result.q ≡ q }
    ensures threshold { IsThreshold result }
{
    ChanceConditions {
        conditions: Conditions { ids },
        p,
        q,
    }
}

impl Builder {
    /// A hard constraint, by its condition in each scenario.
    #[tactic(auto, using(crate::proofs::Hards::hard_either, crate::proofs::Hards::hard_problem, crate::proofs::Hards::hard_same, crate::proofs::Hards::nothing_added))]
    pub fn hard(&mut self, conds: &[CondId]) -> Result<(), AllocError>
        requires building { IsBuilding self.old }
        requires each { length conds.now ≡ length (problem_built self.old).weights }
        requires exist { AllBelow (length (built self.old)) (cond_ids conds.now) }
        ensures under { IsUnder self.old self.new }
        ensures ok { OnOk result (problem_built self.new ≡ with_hard (problem_built self.old) (conds_of self.old conds.now)) }
        ensures err { OnErr result (problem_built self.new ≡ problem_built self.old) }
    {
        let ids = cond_numbers(self.draft.alloc, conds)?;
        put(&mut self.draft.hards, Conditions { ids })
    }

    /// A chance constraint, by its condition in each scenario and its threshold `p / q`.
    #[tactic(auto, using(crate::proofs::Chances::chance_either, crate::proofs::Chances::chance_problem, crate::proofs::Chances::chance_same, crate::proofs::Hards::nothing_added))]
    pub fn chance(&mut self, conds: &[CondId], p: i64, q: i64) -> Result<(), AllocError>
        requires building { IsBuilding self.old }
        requires each { length conds.now ≡ length (problem_built self.old).weights }
        requires exist { AllBelow (length (built self.old)) (cond_ids conds.now) }
        requires from_zero { pos 0 ≤ℤ p }
        requires to_whole { p ≤ℤ q }
        requires positive { pos 1 ≤ℤ q }
        requires small { q ≤ℤ pos (2 ^ 20) }
        ensures under { IsUnder self.old self.new }
        ensures ok { OnOk result (problem_built self.new ≡ with_chance (problem_built self.old) (conds_of self.old conds.now) p q) }
        ensures err { OnErr result (problem_built self.new ≡ problem_built self.old) }
    {
        let ids = cond_numbers(self.draft.alloc, conds)?;
        put(&mut self.draft.chances, with_threshold(ids, p, q))
    }
}
