//! The constants of a text, and its ranges and sets, as they are kept.

ghost use Rattle.std.specs.Prelude.{◌≡◌, ◌≤◌, ℕ, List, length, take, false};
ghost use Rattle.std.specs.List.{list_any};
ghost use Rattle.std.specs.Str.{bytes_eq};
ghost use Rattle.unfold_tables.specs.Starts.{start_of};

use crate::elements::Elements;
use crate::sets::NumberSet;
use indexmap::IndexMap;
use std::alloc::Global;

/// What a name stands for: a constant, or a range or a set.
#[derive(Drop)]
pub enum TableEntry {
    Array(Elements),
    Set(NumberSet),
}

/// A name, and what it stands for.
#[derive(Drop)]
pub struct Entry {
    pub name: Vec<u8>,
    pub entity: TableEntry,
}

/// The constants, ranges and sets of a text, in the order in which they were entered, and the place of the first entry of each name.
#[derive(Drop)]
pub struct Table {
    pub(crate) alloc: Global,
    pub(crate) entries: Vec<Entry>,
    pub(crate) places: IndexMap<Vec<u8>, usize>,
    ghost within: { (name : List ℕ) → start_of name places.entries (length entries.items) ≤ length entries.items },
    ghost passed: { (name : List ℕ) → list_any (λ e. bytes_eq name e.name.items) (take (start_of name places.entries (length entries.items)) entries.items) ≡ false },
}
