//! The names of one list that go over ranges.

ghost use Rattle.std.specs.Prelude.{◌≡◌, ◌∷◌, ◌++◌, ℕ, List, [], map, IfOk};
ghost use Rattle.std.specs.List.{list_any};
ghost use Rattle.std.specs.Str.{bytes_eq};
ghost use Rattle.sopl_ast.specs.Mistakes.{entity_of, no_names};
ghost use Rattle.sopl_types.specs.Entered.{bound_over, declared_in};

use crate::names::{Declared, NameKind};
use sopl_ast::Name;
use std::alloc::{AllocError, Global};

/// The names of one list that go over ranges, in the order of the list; a table tells whether a name
/// is among them.
#[derive(Drop)]
pub struct Bound<'a> {
    names: Vec<&'a Name>,
    table: Declared,
    ghost tabled: { (name : List ℕ) → entity_of (declared_in table) name ≡ entity_of (bound_over (map (λ other. other.now) names.items) no_names) name },
}

impl<'a> Bound<'a> {
    /// No names; it takes no memory.
    pub fn new(alloc: Global) -> Self
        ensures { result.names.items ≡ [] }
    {
        Bound {
            names: Vec::new(alloc),
            table: Declared::new(alloc),
        }
    }

    /// These, and one name behind them.
    pub fn with(self, alloc: Global, name: &'a Name) -> Result<Bound<'a>, AllocError>
        ensures { IfOk result (λ bound. bound.names.items ≡ self.entry.names.items ++ name.entry ∷ []) }
    {
        let Bound {
            mut names,
            mut table,
        } = self;
        names.push(name)?;
        table.declare(alloc, name, NameKind::Constant(0))?;
        Ok(Bound { names, table })
    }

    /// Whether a name is among them.
    pub fn has(&self, name: &Name) -> bool
        ensures { result ≡ list_any (λ other. bytes_eq other.now name.now) self.now.names.items }
    {
        self.table.entity(name).is_some()
    }
}
