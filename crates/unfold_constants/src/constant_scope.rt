//! What is known at a constant place.

ghost use Rattle.std.specs.Prelude.{◌≡◌, ℕ, List, length, take, false};
ghost use Rattle.std.specs.List.{list_any};
ghost use Rattle.std.specs.Str.{bytes_eq};
ghost use Rattle.unfold_constants.specs.Starts.{start_in};

use indexmap::IndexMap;
use sopl_ast::Name;
use std::alloc::Global;
use unfold_tables::Table;

/// The constants, ranges and sets of a text, and what binders and dimensions give their names. Where many names are to be bound, the place of each is kept.
#[derive(Drop)]
pub struct ConstantScope<'a> {
    pub(crate) alloc: Global,
    pub(crate) table: &'a Table,
    pub(crate) bound: Vec<(&'a Name, i64)>,
    pub(crate) indexed: bool,
    pub(crate) places: IndexMap<&'a [u8], usize>,
    ghost passed: { (name : List ℕ) → list_any (λ b. bytes_eq name b.0.now) (take (start_in indexed name places.entries (length bound.items)) bound.items) ≡ false },
}
