//! Which of several things have a name.

ghost use Rattle.std.specs.Prelude.{◌≡◌, ◌≤◌, ◌^◌, ◌++◌, ◌∷◌, [], ℕ, List, None, length, map, IfOk, OnOk, if◌then◌else◌};
ghost use Rattle.std.specs.Map.{lookup};
ghost use Rattle.std.specs.Str.{bytes_eq};
ghost use Rattle.sopl_ast.specs.References.{now_of};
ghost use Rattle.compile_names.specs.Grouped.{groups_in, IsGrouped, numbers_in, numbers_of, with_number};

use indexmap::IndexMap;
use sopl_ast::Name;
use std::alloc::{AllocError, Global};

/// The numbers of the things that have a name, for each name that there is.
#[derive(Drop)]
pub struct Names {
    groups: IndexMap<Vec<u8>, Vec<u32>>,
}

impl Names {
    /// The numbers of things with these names, from 0 on.
    #[tactic(auto, using(crate::proofs::Grouping::name_grouped, crate::proofs::Grouping::all_grouped))]
    pub fn of(alloc: Global, names: &[&Name]) -> Result<Names, AllocError>
        requires few { length names.now ≤ 2 ^ 32 }
        ensures grouped { IfOk result (λ grouped. IsGrouped grouped (map now_of names.now)) }
    {
        let mut grouped = Names {
            groups: IndexMap::new(alloc),
        };
        'names: for number in 0..names.len() {
            grouped.add(alloc, names[number], number as u32)?;
        }
        Ok(grouped)
    }

    /// The numbers of the things with a name, ascending.
    pub fn numbers(&self, name: &Name) -> &[u32]
        ensures numbers { (all : List (List ℕ)) → IsGrouped self.now all → result.now ≡ numbers_of name.now 0 all }
    {
        match self.groups.get(name.as_slice()) {
            Some(numbers) => numbers.as_slice(),
            None => &[],
        }
    }

    /// Puts a number behind the others of a name.
    fn add(&mut self, alloc: Global, name: &Name, number: u32) -> Result<(), AllocError>
        ensures { OnOk result ((other : List ℕ) → numbers_in self.new other
            ≡ numbers_in self.old other ++ (if bytes_eq other name.now then number ∷ [] else [])) }
    {
        match self.groups.get_index_of(name.as_slice()) {
            Some(place) => self.add_at(place, number),
            None => self.add_new(alloc, name, number),
        }
    }

    /// Puts a number behind the others at a place.
    #[tactic(auto, using(crate::proofs::Grouping::pushed_at))]
    fn add_at(&mut self, place: usize, number: u32) -> Result<(), AllocError>
        ensures { OnOk result (groups_in self.new ≡ with_number place number (groups_in self.old)) }
    {
        match self.groups.get_index_mut(place) {
            Some(numbers) => {
                numbers.push(number)?;
                Ok(())
            }
            None => Ok(()),
        }
    }

    /// Puts the first number of a name.
    #[tactic(auto, using(crate::proofs::Grouping::entered))]
    fn add_new(&mut self, alloc: Global, name: &Name, number: u32) -> Result<(), AllocError>
        requires new { lookup (bytes_eq name.now) (groups_in self.old) ≡ None }
        ensures { OnOk result (groups_in self.new ≡ groups_in self.old ++ (name.now, number ∷ []) ∷ []) }
    {
        let key = Vec::from_slice(alloc, name.as_slice())?;
        let mut numbers = Vec::new(alloc);
        numbers.push(number)?;
        self.groups.insert(key, numbers)?;
        Ok(())
    }
}
