//! What the names of a model stand for.

ghost use Rattle.std.specs.Prelude.{◌≡◌, ℕ, List, OnOk};
ghost use Rattle.std.specs.Option.{option_map};
ghost use Rattle.sopl_ast.specs.Mistakes.{Constant, entity_of, no_names, with_entity};
ghost use Rattle.sopl_types.specs.Entered.{seen, declared_in};
ghost use Rattle.sopl_types.specs.Known.{known_in, known_outside};

use crate::bound::Bound;
use indexmap::IndexMap;
use sopl_ast::Name;
use std::alloc::{AllocError, Global};
use std::mem;

/// What a name stands for: a constant or a variable with so many dimensions, a range, or a set. A
/// name that goes over a range is a constant.
#[derive(Clone, Copy, Debug, PartialEq, Eq)]
pub enum NameKind {
    Constant(usize),
    Variable(usize),
    RangeName,
    SetName,
}

/// The declared names, with what each stands for.
#[derive(Drop)]
pub struct Declared {
    entries: IndexMap<Vec<u8>, NameKind>,
}

impl Declared {
    /// No names; it takes no memory.
    pub fn new(alloc: Global) -> Self
        ensures { declared_in result ≡ no_names }
    {
        Declared {
            entries: IndexMap::new(alloc),
        }
    }

    /// Enters a name. It stands for this from now on, also where it stood for something else.
    pub fn declare(
        &mut self,
        alloc: Global,
        name: &Name,
        entity: NameKind,
    ) -> Result<(), AllocError>
        ensures { OnOk result ((other : List ℕ) → entity_of (declared_in self.new) other
            ≡ entity_of (with_entity name.now (seen entity) (declared_in self.old)) other) }
    {
        let key = Vec::from_slice(alloc, name.as_slice())?;
        self.entries.insert(key, entity)?;
        Ok(())
    }

    /// What a declared name stands for.
    pub fn entity(&self, name: &Name) -> Option<NameKind>
        ensures { option_map seen result ≡ entity_of (declared_in self.now) name.now }
    {
        self.entries.get(name.as_slice()).copied()
    }
}

/// The names that are known around a list of names that go over ranges: the declared ones, or those of
/// a list and what is known around it.
#[derive(Clone, Copy)]
pub enum Outer<'a> {
    Top(&'a Declared),
    Inside(&'a Bound<'a>, &'a Outer<'a>),
}

impl<'a> Outer<'a> {
    /// What a name stands for.
    fn entity(&self, name: &Name) -> Option<NameKind>
        ensures { option_map seen result ≡ entity_of (known_outside self.now) name.now }
    {
        match self {
            Outer::Top(declared) => declared.entity(name),
            Outer::Inside(bound, outer) => {
                if bound.has(name) {
                    return Some(NameKind::Constant(0));
                }
                outer.entity(name)
            }
        }
    }
}

/// The names that are known at a place: those that go over a range in the list there, and those that
/// are known around it.
#[derive(Drop)]
pub struct Names<'a> {
    alloc: Global,
    outer: Outer<'a>,
    bound: Bound<'a>,
}

impl<'a> Names<'a> {
    /// The declared names alone.
    pub fn new(alloc: Global, declared: &'a Declared) -> Self
        ensures { known_in result ≡ declared_in declared.now }
    {
        Names {
            alloc,
            outer: Outer::Top(declared),
            bound: Bound::new(alloc),
        }
    }

    /// These names around a list that has none yet; it takes no memory.
    pub fn inside(names: &'a Names<'a>) -> Self
        ensures { known_in result ≡ known_in names.now }
    {
        Names {
            alloc: names.alloc,
            outer: Outer::Inside(&names.bound, &names.outer),
            bound: Bound::new(names.alloc),
        }
    }

    /// Adds a name that goes over a range.
    pub fn add(&mut self, name: &'a Name) -> Result<(), AllocError>
        ensures { OnOk result (known_in self.new ≡ with_entity name.now (Constant 0) (known_in self.old)) }
    {
        let none = Bound::new(self.alloc);
        let bound = mem::replace(&mut self.bound, none);
        self.bound = bound.with(self.alloc, name)?;
        Ok(())
    }

    /// What a name stands for.
    pub fn entity(&self, name: &Name) -> Option<NameKind>
        ensures { option_map seen result ≡ entity_of (known_in self.now) name.now }
    {
        if self.bound.has(name) {
            return Some(NameKind::Constant(0));
        }
        self.outer.entity(name)
    }
}
