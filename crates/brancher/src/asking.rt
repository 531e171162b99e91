//! The brancher that a search asks, or none, and what becomes of its answer.

ghost use Rattle.std.specs.Prelude.{◌≡◌, true, length, find, slice_get, map, option_map, Some, if◌then◌else◌};
ghost use Rattle.std.specs.Str.{bytes_eq};
ghost use Rattle.brancher.specs.Choices.{AreEnds, Chooses};
ghost use Rattle.brancher.specs.Heard.{with_event_told};
ghost use Rattle.brancher.specs.Picks.{IsPicked, IsProperChoice, IsFirstHalved, chosen_rule, text_now};

use crate::branching::Brancher;
use crate::choice::{Choice, Event};
use crate::finding::{first_unfixed, halved};

/// The depth from which on no brancher is asked.
const FIRST_UNASKED: u32 = 512;

/// Whether a choice cuts a cell into two halves that are not empty.
fn is_proper(lows: &[i64], highs: &[i64], choice: Choice) -> bool
    requires ends { AreEnds lows.now highs.now }
    ensures proper { result ≡ true → IsProperChoice lows.now highs.now choice }
    ensures whole { IsProperChoice lows.now highs.now choice → result ≡ true }
{
    let cell = choice.cell as usize;
    if cell >= lows.len() {
        return false;
    }
    if choice.cut < lows[cell] {
        return false;
    }
    choice.cut < highs[cell]
}

/// The first cell that has more than one value, halved.
fn first_halved(lows: &[i64], highs: &[i64]) -> Option<Choice>
    requires ends { AreEnds lows.now highs.now }
    ensures { Chooses (IsFirstHalved lows.now highs.now) lows.now highs.now result }
{
    let cell = first_unfixed(lows, highs)?;
    Some(halved(cell, lows, highs))
}

/// A choice where it cuts a cell into two halves that are not empty; else the first cell that has more than one value, halved.
#[tactic(auto, using(crate::proofs::Repairs::halved_proper, crate::proofs::Repairs::halved_none))]
fn repaired(answer: Option<Choice>, lows: &[i64], highs: &[i64]) -> Option<Choice>
    requires ends { AreEnds lows.now highs.now }
    ensures proper { Chooses (IsProperChoice lows.now highs.now) lows.now highs.now result }
    ensures kept { Chooses (IsProperChoice lows.now highs.now) lows.now highs.now answer → result ≡ answer }
{
    let Some(choice) = answer else {
        return first_halved(lows, highs);
    };
    if !is_proper(lows, highs, choice) {
        return first_halved(lows, highs);
    }
    Some(choice)
}

/// Where the box of a node at this depth is cut, the cells of which have these lower and upper ends: as the brancher chooses, if one is
/// there, the node is not deeper than 511, and its answer cuts a cell into two halves that are not empty; else the first cell that has
/// more than one value is halved, the low half first. None where each cell has one value; then no one is asked.
#[tactic(auto, using(crate::proofs::Repairs::picked_none, crate::proofs::Repairs::picked_deep, crate::proofs::Repairs::picked_without, crate::proofs::Repairs::picked_by))]
pub fn pick(
    brancher: &mut Option<Box<dyn Brancher>>,
    lows: &[i64],
    highs: &[i64],
    depth: u32,
) -> Option<Choice>
    requires ends { AreEnds lows.now highs.now }
    ensures picked { IsPicked (option_map rule brancher.old) depth lows.now highs.now result }
    ensures same { option_map rule brancher.new ≡ option_map rule brancher.old }
    ensures same_heard { option_map heard brancher.new ≡ option_map heard brancher.old }
{
    let _open = first_unfixed(lows, highs)?;
    if depth >= FIRST_UNASKED {
        return first_halved(lows, highs);
    }
    let Some(asked) = brancher else {
        return first_halved(lows, highs);
    };
    let answer = asked.choose(lows, highs);
    repaired(answer, lows, highs)
}

/// Tells the brancher, if one is there, how a node ended.
pub fn tell(brancher: &mut Option<Box<dyn Brancher>>, event: Event)
    ensures heard { option_map heard brancher.new ≡ with_event_told (option_map heard brancher.old) event }
    ensures same { option_map rule brancher.new ≡ option_map rule brancher.old }
{
    if let Some(asked) = brancher {
        asked.told(event);
    }
}

/// One where it has this name, and else what was found.
fn found_with(
    one: Box<dyn Brancher>,
    name: &str,
    found: Option<Box<dyn Brancher>>,
) -> Option<Box<dyn Brancher>>
    ensures { result ≡ (if bytes_eq (label one) name.now then Some one else found) }
{
    if one.name() == name {
        return Some(one);
    }
    found
}

/// The first brancher of this name; the others are dropped.
#[tactic(auto, using(crate::proofs::Firsts::found_more))]
fn first_named(list: Vec<Box<dyn Brancher>>, name: &str) -> Option<Box<dyn Brancher>>
    ensures { result ≡ find (λ b. bytes_eq (label b) name.now) list.items }
{
    let mut list = list;
    let mut found = None;
    'each: while let Some(one) = list.pop() {
        found = found_with(one, name, found);
    }
    found
}

/// The first brancher; the others are dropped.
fn first_of(list: Vec<Box<dyn Brancher>>) -> Option<Box<dyn Brancher>>
    ensures { result ≡ slice_get list.items 0 }
{
    let mut list = list;
    if list.is_empty() {
        return None;
    }
    Some(list.swap_remove(0))
}

/// The brancher that a search asks: the first of this name, or the first of all where no name is given. The others are dropped.
#[tactic(auto, using(crate::proofs::Firsts::chosen_named, crate::proofs::Firsts::chosen_first))]
pub fn chosen(list: Vec<Box<dyn Brancher>>, name: Option<&str>) -> Option<Box<dyn Brancher>>
    ensures { option_map rule result ≡ chosen_rule (map (λ b. (label b, rule b)) list.items) (option_map text_now name.entry) }
{
    match name {
        Some(name) => first_named(list, name),
        None => first_of(list),
    }
}
