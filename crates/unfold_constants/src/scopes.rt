//! How names are bound at a constant place, and what is found there.

ghost use Rattle.std.specs.Prelude.{◌≡◌, ◌≤◌, [], true, nat_eq, is_some, length, drop, IfOk, OnOk, option_map};
ghost use Rattle.std.specs.Cmp.Lexicographic.{pointwise};
ghost use Rattle.std.specs.Map.{lookup};
ghost use Rattle.sopl_ast.specs.Known.{with_bound, is_at, bound_value, known_value, set_named, ascending};
ghost use Rattle.unfold_tables.specs.Tables.{table_known, number_set, shown};
ghost use Rattle.unfold_constants.specs.Here.{known_in, bindings_in, without_last};
ghost use Rattle.unfold_constants.specs.Starts.{start_in};

use crate::constant_scope::ConstantScope;
use indexmap::IndexMap;
use sopl_ast::Name;
use std::alloc::{AllocError, Global};
use unfold_tables::{NumberSet, Numbers, Table, borrowed};

/// So many names are looked for one after the other; where there are more, the place of each is kept.
const FEW: usize = 8;

impl<'a> ConstantScope<'a> {
    /// Where no name is bound; it takes no memory.
    pub fn new(alloc: Global, table: &'a Table) -> ConstantScope<'a>
        ensures { known_in result ≡ table_known table.now }
    {
        ConstantScope::for_names(alloc, table, 0)
    }

    /// Where no name is bound, and so many are to be; it takes no memory.
    #[tactic(auto, using(crate::proofs::Placing::none_passed))]
    pub fn for_names(alloc: Global, table: &'a Table, names: usize) -> ConstantScope<'a>
        ensures { known_in result ≡ table_known table.now }
    {
        ConstantScope {
            alloc,
            table,
            bound: Vec::new(alloc),
            indexed: names > FEW,
            places: IndexMap::new(alloc),
        }
    }

    /// A copy of this scope.
    pub fn copy(&self) -> Result<ConstantScope<'a>, AllocError>
        ensures { IfOk result (λ known. known_in known ≡ known_in self.now) }
    {
        self.copy_for(0)
    }

    /// A copy of this scope, where so many names more are to be bound.
    #[tactic(auto, using(crate::proofs::Copying::copying))]
    pub fn copy_for(&self, names: usize) -> Result<ConstantScope<'a>, AllocError>
        ensures { IfOk result (λ known. known_in known ≡ known_in self.now) }
    {
        let bound = self.bound.as_slice();
        let all = names.saturating_add(bound.len());
        let mut copy = ConstantScope::for_names(self.alloc, self.table, all);
        'bound: for binding in bound {
            copy.bind(binding.0, binding.1)?;
        }
        Ok(copy)
    }

    /// From where on a name may stand among those that are bound.
    fn start(&self, name: &Name) -> usize
        ensures { result ≡ start_in self.now.indexed name.now self.now.places.entries (length self.now.bound.items) }
    {
        if !self.indexed {
            return 0;
        }
        match self.places.get(name.as_slice()) {
            Some(place) => *place,
            None => self.bound.len(),
        }
    }

    /// Keeps the place of a name that is bound next, unless one before it is kept. Where one behind it is kept, no places are any more.
    fn note(&mut self, name: &'a Name) -> Result<(), AllocError>
        ensures known { known_in self.new ≡ known_in self.old }
        ensures placed { OnOk result (self.new.indexed ≡ true → is_some (lookup (λ key. pointwise nat_eq name.now key.now) self.new.places.entries) ≡ true) }
        ensures near { OnOk result (start_in self.new.indexed name.now self.new.places.entries (length self.new.bound.items) ≤ length self.new.bound.items) }
    {
        if !self.indexed {
            return Ok(());
        }
        let end = self.bound.len();
        match self.places.get(name.as_slice()).copied() {
            Some(place) => {
                self.indexed = place <= end;
                Ok(())
            }
            None => {
                self.places.insert(name.as_slice(), end)?;
                Ok(())
            }
        }
    }

    /// Gives one more name this value.
    #[tactic(auto, using(crate::proofs::Bindings::bindings_more))]
    pub fn bind(&mut self, name: &'a Name, value: i64) -> Result<(), AllocError>
        ensures { OnOk result (known_in self.new ≡ with_bound name.now value (known_in self.old)) }
    {
        self.note(name)?;
        self.bound.push((name, value))?;
        Ok(())
    }

    /// Takes away the name that was given its value last.
    #[tactic(auto, using(crate::proofs::Bindings::bindings_fewer))]
    pub fn forget(&mut self)
        ensures { known_in self.new ≡ without_last (known_in self.old) }
    {
        self.bound.pop();
    }

    /// The bound names with their values, in the order in which they were bound.
    pub fn bindings(&self) -> &[(&'a Name, i64)]
        ensures { bindings_in result.now ≡ (known_in self.now).bound }
    {
        self.bound.as_slice()
    }

    /// What a name with an index is bound to.
    fn bound_value(&self, name: &Name, index: &[i64]) -> Option<i64>
        ensures { result ≡ bound_value name.now index.now (known_in self.now).bound }
    {
        bound_value_of(name, index, self.bound.as_slice(), self.start(name))
    }

    /// What a name with an index stands for, if it is bound or a constant's element.
    pub fn value(&self, name: &Name, index: &[i64]) -> Option<i64>
        ensures { result ≡ known_value (known_in self.now) name.now index.now }
    {
        match self.bound_value(name, index) {
            Some(value) => Some(value),
            None => self.table.element(name, index),
        }
    }

    /// The numbers of a range or a set, as they are kept, if there is one of this name.
    pub fn named(&self, name: &Name) -> Option<&'a NumberSet>
        ensures { option_map (λ set. number_set set.now) result ≡ set_named name.now (known_in self.now).sets }
    {
        self.table.numbers(name)
    }

    /// The numbers of a range or a set; none where there is none of this name.
    pub(crate) fn numbers_named(&self, name: &Name) -> Numbers<'a>
        ensures { shown result ≡ ascending (set_named name.now (known_in self.now).sets) }
    {
        borrowed(self.named(name))
    }
}

/// What a name with an index is bound to from a place on; a bound name has no index.
#[tactic(auto, using(crate::proofs::Bindings::bindings))]
fn bound_value_of(name: &Name, index: &[i64], bound: &[(&Name, i64)], start: usize) -> Option<i64>
    ensures { result ≡ bound_value name.now index.now (bindings_in (drop start bound.now)) }
{
    'bound: for place in start..bound.len() {
        let binding = &bound[place];
        if is_bound(name, index, binding.0) {
            return Some(binding.1);
        }
    }
    None
}

/// Whether a name with an index is a bound name.
fn is_bound(name: &Name, index: &[i64], bound: &Name) -> bool
    ensures { result ≡ is_at name.now index.now bound.now [] }
{
    if name.as_slice() != bound.as_slice() {
        return false;
    }
    index.is_empty()
}
