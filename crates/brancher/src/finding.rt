//! Finding a cell.

ghost use Rattle.std.specs.Prelude.{◌≡◌, ◌<◌, ◌+◌, true, false, length, IfSome};
ghost use Rattle.brancher.specs.Choices.{AreEnds, IsHalf, IsUnfixed, cell_end, cell_width};
ghost use Rattle.brancher.specs.Finding.{Exceeds, FindsFirst, FindsMost, IsOutdone};
ghost use Rattle.brancher.specs.Counters.{counter_weight};

use crate::choice::Choice;
use sopl_base::midpoint;

/// Whether a cell has more than one value.
fn is_unfixed(lows: &[i64], highs: &[i64], cell: usize) -> bool
    requires ends { AreEnds lows.now highs.now }
    requires exists { cell < length lows.now }
    ensures unfixed { result ≡ true → IsUnfixed lows.now highs.now cell }
    ensures fixed { result ≡ false → cell_end lows.now cell ≡ cell_end highs.now cell }
{
    lows[cell] < highs[cell]
}

/// The first cell that has more than one value.
pub(crate) fn first_unfixed(lows: &[i64], highs: &[i64]) -> Option<u32>
    requires ends { AreEnds lows.now highs.now }
    ensures { FindsFirst lows.now highs.now (length lows.now) result }
{
    'cells: for at in 0..lows.len() {
        if is_unfixed(lows, highs, at) {
            return Some(at as u32);
        }
    }
    None
}

/// How far the ends of a cell are apart.
fn width_of(lows: &[i64], highs: &[i64], cell: usize) -> i64
    requires ends { AreEnds lows.now highs.now }
    requires exists { cell < length lows.now }
    ensures { result ≡ cell_width lows.now highs.now cell }
{
    highs[cell] - lows[cell]
}

/// Whether a cell that has more than one value is wider than what was found.
fn is_wider(lows: &[i64], highs: &[i64], cell: usize, found: Option<u32>) -> bool
    requires ends { AreEnds lows.now highs.now }
    requires exists { cell < length lows.now }
    requires found { IfSome found (λ best. best < length lows.now) }
    ensures more { result ≡ true → Exceeds (cell_width lows.now highs.now) found cell }
    ensures no_more { result ≡ false → IsOutdone (cell_width lows.now highs.now) found cell }
{
    match found {
        Some(best) => width_of(lows, highs, cell) > width_of(lows, highs, best as usize),
        None => true,
    }
}

#[tactic(auto, using(crate::proofs::Weights::kept_most, crate::proofs::Weights::new_most, crate::proofs::Weights::fixed_most, crate::proofs::Weights::found_exists))]
/// What is found with one cell more.
fn wider_of(lows: &[i64], highs: &[i64], cell: usize, found: Option<u32>) -> Option<u32>
    requires ends { AreEnds lows.now highs.now }
    requires exists { cell < length lows.now }
    requires found { FindsMost (cell_width lows.now highs.now) lows.now highs.now cell found }
    ensures { FindsMost (cell_width lows.now highs.now) lows.now highs.now (cell + 1) result }
{
    if !is_unfixed(lows, highs, cell) {
        return found;
    }
    if !is_wider(lows, highs, cell, found) {
        return found;
    }
    Some(cell as u32)
}

/// The first of the cells that are the widest among those that have more than one value.
pub(crate) fn widest_cell(lows: &[i64], highs: &[i64]) -> Option<u32>
    requires ends { AreEnds lows.now highs.now }
    ensures { FindsMost (cell_width lows.now highs.now) lows.now highs.now (length lows.now) result }
{
    let mut found = None;
    'cells: for at in 0..lows.len() {
        found = wider_of(lows, highs, at, found);
    }
    found
}

/// Whether a cell that has more than one value has a greater counter than what was found.
fn is_counted_more(counters: &[u32; 256], cell: usize, found: Option<u32>) -> bool
    ensures more { result ≡ true → Exceeds (counter_weight counters.now) found cell }
    ensures no_more { result ≡ false → IsOutdone (counter_weight counters.now) found cell }
{
    match found {
        Some(best) => counters[cell % 256] > counters[best as usize % 256],
        None => true,
    }
}

#[tactic(auto, using(crate::proofs::Weights::kept_most, crate::proofs::Weights::new_most, crate::proofs::Weights::fixed_most, crate::proofs::Weights::found_exists))]
/// What is found with one cell more.
fn more_counted_of(
    counters: &[u32; 256],
    lows: &[i64],
    highs: &[i64],
    cell: usize,
    found: Option<u32>,
) -> Option<u32>
    requires ends { AreEnds lows.now highs.now }
    requires exists { cell < length lows.now }
    requires found { FindsMost (counter_weight counters.now) lows.now highs.now cell found }
    ensures { FindsMost (counter_weight counters.now) lows.now highs.now (cell + 1) result }
{
    if !is_unfixed(lows, highs, cell) {
        return found;
    }
    if !is_counted_more(counters, cell, found) {
        return found;
    }
    Some(cell as u32)
}

/// The first of the cells that have the greatest counter among those that have more than one value.
pub(crate) fn most_counted(counters: &[u32; 256], lows: &[i64], highs: &[i64]) -> Option<u32>
    requires ends { AreEnds lows.now highs.now }
    ensures { FindsMost (counter_weight counters.now) lows.now highs.now (length lows.now) result }
{
    let mut found = None;
    'cells: for at in 0..lows.len() {
        found = more_counted_of(counters, lows, highs, at, found);
    }
    found
}

/// A cell, cut in the middle of its interval, the low half first.
pub(crate) fn halved(cell: u32, lows: &[i64], highs: &[i64]) -> Choice
    requires ends { AreEnds lows.now highs.now }
    requires exists { cell < length lows.now }
    requires unfixed { IsUnfixed lows.now highs.now cell }
    ensures cell { result.cell ≡ cell }
    ensures cut { IsHalf lows.now highs.now result }
    ensures low_first { result.low_first ≡ true }
{
    let lo = lows[cell as usize];
    let hi = highs[cell as usize];
    Choice {
        cell,
        cut: midpoint(lo, hi),
        low_first: true,
    }
}
