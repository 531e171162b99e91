//! How constants, ranges and sets are entered in a table, and found in it.

ghost use Rattle.std.specs.Prelude.{◌≡◌, ℕ, ℤ, List, [], ◌∷◌, ◌++◌, IsTrue, is_some, length, drop, option_map, OnOk, OnErr};
ghost use Rattle.std.specs.Cmp.Lexicographic.{pointwise};
ghost use Rattle.std.specs.Map.{lookup};
ghost use Rattle.std.specs.Prelude.{nat_eq};
ghost use Rattle.std.specs.Str.{bytes_eq};
ghost use Rattle.sopl_ast.specs.Known.{nothing_known, constant_value, set_named};
ghost use Rattle.unfold_tables.specs.Starts.{start_of};
ghost use Rattle.unfold_tables.specs.Tables.{table_known, constants_in, sets_in, constants_under, sets_under, named, elements_in, number_set, items};

use crate::elements::Elements;
use crate::sets::NumberSet;
use crate::table::{Entry, Table, TableEntry};
use indexmap::IndexMap;
use sopl_ast::Name;
use std::alloc::{AllocError, Global};

impl Table {
    /// Nothing is known; it takes no memory.
    pub fn new(alloc: Global) -> Table
        ensures nothing { table_known result ≡ nothing_known }
    {
        Table {
            alloc,
            entries: Vec::new(alloc),
            places: IndexMap::new(alloc),
        }
    }

    /// Enters the elements of a constant.
    pub fn add_constant(&mut self, name: &Name, elements: Elements) -> Result<(), AllocError>
        ensures added { OnOk result (table_known self.new
            ≡ record (table_known self.old) { constants = (table_known self.old).constants ++ named name.now (elements_in elements) }) }
        ensures kept { OnErr result (table_known self.new ≡ table_known self.old) }
    {
        self.add(name, TableEntry::Array(elements))
    }

    /// Enters the numbers of a range or a set.
    pub fn add_set(&mut self, name: &Name, numbers: NumberSet) -> Result<(), AllocError>
        ensures added { OnOk result (table_known self.new
            ≡ record (table_known self.old) { sets = (table_known self.old).sets ++ (record { name = name.now; numbers = number_set numbers }) ∷ [] }) }
        ensures kept { OnErr result (table_known self.new ≡ table_known self.old) }
    {
        self.add(name, TableEntry::Set(numbers))
    }

    /// Enters what a name stands for, behind all others.
    fn add(&mut self, name: &Name, entity: TableEntry) -> Result<(), AllocError>
        ensures constants { OnOk result (constants_in self.new.entries.items ≡ constants_in self.old.entries.items ++ constants_under name.now entity) }
        ensures sets { OnOk result (sets_in self.new.entries.items ≡ sets_in self.old.entries.items ++ sets_under name.now entity) }
        ensures kept { OnErr result (self.new.entries.items ≡ self.old.entries.items) }
    {
        self.place(name)?;
        let name = Vec::from_slice(self.alloc, name.as_slice())?;
        self.entries.push(Entry { name, entity })?;
        Ok(())
    }

    /// Notes that the entries of a name begin behind all that stand, unless they begin before.
    fn place(&mut self, name: &Name) -> Result<(), AllocError>
        ensures entries { self.new.entries.items ≡ self.old.entries.items }
        ensures placed { OnOk result (IsTrue (is_some (lookup (λ key. pointwise nat_eq name.now key.items) self.new.places.entries))) }
    {
        if self.places.get(name.as_slice()).is_some() {
            return Ok(());
        }
        let key = Vec::from_slice(self.alloc, name.as_slice())?;
        self.places.insert(key, self.entries.len())?;
        Ok(())
    }

    /// Where the entries of a name begin.
    fn start(&self, name: &Name) -> usize
        ensures { result ≡ start_of name.now self.now.places.entries (length self.now.entries.items) }
    {
        match self.places.get(name.as_slice()) {
            Some(place) => *place,
            None => self.entries.len(),
        }
    }

    /// The entries from the first one of a name on.
    pub(crate) fn entries_of(&self, name: &Name) -> &[Entry]
        ensures { result.now ≡ drop (start_of name.now self.now.places.entries (length self.now.entries.items)) self.now.entries.items }
    {
        &self.entries.as_slice()[self.start(name)..]
    }

    /// The value of an element, if there is one.
    #[tactic(auto, using(crate::proofs::Lookups::entries))]
    pub fn element(&self, name: &Name, index: &[i64]) -> Option<i64>
        ensures { result ≡ constant_value name.now index.now (table_known self.now).constants }
    {
        let entries = self.entries_of(name);
        'entries: for entry in entries {
            if let Some(value) = entry.element(name, index) {
                return Some(value);
            }
        }
        None
    }

    /// The numbers of a range or a set, if there is one of this name.
    #[tactic(auto, using(crate::proofs::Lookups::entries))]
    pub fn numbers(&self, name: &Name) -> Option<&NumberSet>
        ensures { option_map (λ set. number_set set.now) result ≡ set_named name.now (table_known self.now).sets }
    {
        let entries = self.entries_of(name);
        'entries: for entry in entries {
            if let Some(numbers) = entry.numbers(name) {
                return Some(numbers);
            }
        }
        None
    }
}

impl Entry {
    /// Whether it has this name.
    pub(crate) fn is(&self, name: &Name) -> bool
        ensures { result ≡ bytes_eq name.now self.now.name.items }
    {
        name.as_slice() == self.name.as_slice()
    }

    /// The value of an element, if it has one.
    fn element(&self, name: &Name, index: &[i64]) -> Option<i64>
        ensures { result ≡ constant_value name.now index.now (constants_under self.now.name.items self.now.entity) }
    {
        match &self.entity {
            TableEntry::Array(elements) => self.value(elements, name, index),
            TableEntry::Set(_) => None,
        }
    }

    /// The value at an index among its elements, if it has this name.
    fn value(&self, elements: &Elements, name: &Name, index: &[i64]) -> Option<i64>
        ensures { result ≡ constant_value name.now index.now (named self.now.name.items (elements_in elements.now)) }
    {
        if !self.is(name) {
            return None;
        }
        elements.value(index)
    }

    /// The numbers of a range or a set, if it is one of this name.
    fn numbers(&self, name: &Name) -> Option<&NumberSet>
        ensures { option_map (λ set. number_set set.now) result ≡ set_named name.now (sets_under self.now.name.items self.now.entity) }
    {
        if !self.is(name) {
            return None;
        }
        match &self.entity {
            TableEntry::Array(_) => None,
            TableEntry::Set(numbers) => Some(numbers),
        }
    }
}
