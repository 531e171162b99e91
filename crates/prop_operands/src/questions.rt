//! Whether a global condition is False over a box, and over parts of it.

ghost use Rattle.std.specs.Prelude.{◌≡◌, ◌≤ℤ◌, ℕ, pos, true, false, length, All, IfNone, IfSome};
ghost use Rattle.box_problem.specs.Box.{high, low};
ghost use Rattle.box_problem.specs.Rightness.{IsRight};
ghost use Rattle.prop_shave.specs.Opened.{IsOpen, IsWhole};
ghost use Rattle.prop_shave.specs.Probes.{IsAsked, IsEndOf, closes, closes_part};
ghost use Rattle.term_program.specs.Programs.{root_in, with_interval};
ghost use Rattle.term_program.specs.Stated.{box_problem_of};
ghost use Rattle.prop_operands.specs.Questions.{IsAbout, IsLookedAt};

use crate::operands::Operands;
use prop_shave::{CellEnd, Probe, Shave};
use sopl_base::{Interval, Step};
use term_math::Ends;

/// What a global condition asks of the intervals of its operands.
pub trait Question {
    ghost use Rattle.std.specs.Prelude.{◌≡◌, ℕ, Bool, List, length};
    ghost use Rattle.term_language.specs.Ends as rule;
    ghost use Rattle.term_crowds.specs.Crowds.{AllOrdered};
    ghost use Rattle.term_windows.specs.Windows.{spans};

    /// Whether it fails by these intervals.
    ghost fails: { List rule.Ends → Bool };

    /// Whether it has room to be asked of so many.
    ghost has_room: { Self → ℕ → Type 0 };

    /// Whether it fails by these intervals, none of which is empty.
    fn is_failed(&mut self, ends: &[Ends]) -> bool
        requires room { has_room self.old (length ends.now) }
        requires ordered { AllOrdered (spans ends.now) }
        ensures failed { result ≡ fails (spans ends.now) }
        ensures room { (count : ℕ) → has_room self.old count → has_room self.new count };
}

/// Whether a condition is False over the box of a store. Where it is not, the operands were looked at.
#[tactic(auto, using(crate::proofs::Asking::never_closes, crate::proofs::Asking::asked_closes))]
pub fn closes_box<Q: Question>(operands: &mut Operands, question: &mut Q, probe: &Probe<'_>) -> bool
    requires asked { IsAsked probe.now }
    requires about { IsAbout Q.fails operands.old probe.now }
    requires room { Q.has_room question.old (length operands.old.list.items) }
    ensures closed { result ≡ closes probe.now probe.now.store.now.box }
    ensures about { IsAbout Q.fails operands.new probe.now }
    ensures looked { result ≡ false → IsLookedAt Q.fails operands.new probe.now }
    ensures list { operands.new.list ≡ operands.old.list }
    ensures room { (count : ℕ) → Q.has_room question.old count → Q.has_room question.new count }
{
    if !operands.look(probe.program, probe.store) {
        return true;
    }
    question.is_failed(operands.known())
}

/// Whether a condition is False over the part of the box of a store in which a cell has another interval.
#[tactic(auto, using(crate::proofs::Asking::never_closes, crate::proofs::Asking::asked_closes))]
fn closes_with<Q: Question>(
    operands: &mut Operands,
    question: &mut Q,
    probe: &Probe<'_>,
    cell: u32,
    part: Interval,
) -> bool
    requires asked { IsAsked probe.now }
    requires looked { IsLookedAt Q.fails operands.old probe.now }
    requires room { Q.has_room question.old (length operands.old.list.items) }
    requires from_low { low (root_in probe.now.program.now) cell ≤ℤ part.lo }
    requires to_high { part.hi ≤ℤ high (root_in probe.now.program.now) cell }
    ensures closed { result ≡ closes probe.now (with_interval probe.now.store.now.box cell part.lo part.hi) }
    ensures looked { IsLookedAt Q.fails operands.new probe.now }
    ensures list { operands.new.list ≡ operands.old.list }
    ensures room { (count : ℕ) → Q.has_room question.old count → Q.has_room question.new count }
{
    if !operands.try_with(probe.program, probe.store, cell, part) {
        return true;
    }
    question.is_failed(operands.tried())
}

/// Whether a condition is False with a cell at one end of its interval.
#[tactic(auto, using(prop_shave::proofs::Opening::part_from, prop_shave::proofs::Opening::part_to))]
fn closes_end<Q: Question>(
    operands: &mut Operands,
    question: &mut Q,
    probe: &Probe<'_>,
    end: &CellEnd,
) -> bool
    requires asked { IsAsked probe.now }
    requires looked { IsLookedAt Q.fails operands.old probe.now }
    requires room { Q.has_room question.old (length operands.old.list.items) }
    requires end { IsEndOf probe.now end.now }
    ensures closed { result ≡ closes_part probe.now end.now (pos 1) }
    ensures looked { IsLookedAt Q.fails operands.new probe.now }
    ensures list { operands.new.list ≡ operands.old.list }
    ensures room { (count : ℕ) → Q.has_room question.old count → Q.has_room question.new count }
{
    let value = end.values(&Shave { count: 1, by: 1 });
    closes_with(operands, question, probe, end.cell, value)
}

/// Whether a condition is False with a cell at neither end of its interval.
#[tactic(auto, using(prop_shave::proofs::Opening::fixed_open, prop_shave::proofs::Opening::both_open, prop_shave::proofs::Opening::upper_end))]
fn is_open<Q: Question>(
    operands: &mut Operands,
    question: &mut Q,
    probe: &Probe<'_>,
    cell: u32,
) -> bool
    requires asked { IsAsked probe.now }
    requires whole { IsWhole probe.now }
    requires looked { IsLookedAt Q.fails operands.old probe.now }
    requires room { Q.has_room question.old (length operands.old.list.items) }
    ensures open_there { result ≡ true → IsOpen probe.now cell }
    ensures looked { IsLookedAt Q.fails operands.new probe.now }
    ensures list { operands.new.list ≡ operands.old.list }
    ensures room { (count : ℕ) → Q.has_room question.old count → Q.has_room question.new count }
{
    let Some(lower) = probe.lower_end(cell) else {
        return true;
    };
    if closes_end(operands, question, probe, &lower) {
        return false;
    }
    !closes_end(operands, question, probe, &lower.upper())
}

/// A right step at one of the ends of a cell, or none where the condition is False with the cell at neither.
fn step_at<Q: Question>(
    operands: &mut Operands,
    question: &mut Q,
    probe: &Probe<'_>,
    cell: u32,
) -> Option<Step>
    requires asked { IsAsked probe.now }
    requires whole { IsWhole probe.now }
    requires looked { IsLookedAt Q.fails operands.old probe.now }
    requires room { Q.has_room question.old (length operands.old.list.items) }
    ensures right { IfSome result (IsRight (box_problem_of probe.now.program.now) probe.now.best probe.now.store.now.box) }
    ensures own_reason { IfSome result (λ step. step.reason ≡ probe.now.reason) }
    ensures none { IfNone result (IsOpen probe.now cell) }
    ensures looked { IsLookedAt Q.fails operands.new probe.now }
    ensures list { operands.new.list ≡ operands.old.list }
    ensures room { (count : ℕ) → Q.has_room question.old count → Q.has_room question.new count }
{
    if is_open(operands, question, probe, cell) {
        return None;
    }
    probe.step_at(cell)
}

/// A right step at one of the ends of these cells, or none where the condition is False with none of them at an end.
pub fn step_among<Q: Question>(
    operands: &mut Operands,
    question: &mut Q,
    probe: &Probe<'_>,
    cells: &[u32],
) -> Option<Step>
    requires asked { IsAsked probe.now }
    requires whole { IsWhole probe.now }
    requires looked { IsLookedAt Q.fails operands.old probe.now }
    requires room { Q.has_room question.old (length operands.old.list.items) }
    ensures right { IfSome result (IsRight (box_problem_of probe.now.program.now) probe.now.best probe.now.store.now.box) }
    ensures own_reason { IfSome result (λ step. step.reason ≡ probe.now.reason) }
    ensures none { IfNone result (All (IsOpen probe.now) cells.now) }
    ensures looked { IsLookedAt Q.fails operands.new probe.now }
    ensures list { operands.new.list ≡ operands.old.list }
    ensures room { (count : ℕ) → Q.has_room question.old count → Q.has_room question.new count }
{
    'cells: for cell in cells {
        if let Some(step) = step_at(operands, question, probe, *cell) {
            return Some(step);
        }
    }
    None
}
