//! A program that is being built, and the arrays of names in it.

ghost use Rattle.std.specs.Prelude.{◌≡◌, [], ℕ, List, Some, nat_eq, OnOk, false};
ghost use Rattle.std.specs.Cmp.Lexicographic.{pointwise};
ghost use Rattle.std.specs.Map.{lookup};
ghost use Rattle.compile_names.specs.declared.setting.Scenarios.{Scenarios};
ghost use Rattle.sopl_scen.specs.Layout.{count_in};
ghost use Rattle.compile_scene.specs.Scenes.{IsLaid, array_in, root_in};
ghost use Rattle.compile_scene.specs.Works.{AreArrays, AreKept, HasArray, IsReady, entries_in, id_in, things_of};
ghost use Rattle.sopl_term.specs.Built.{IsBuilding, root_built};

use indexmap::IndexMap;
use sopl_ast::Name;
use sopl_term::{Builder, TableId};
use std::alloc::{AllocError, Global};

/// The arrays of a name: one that is the same in all scenarios, or one for each.
#[derive(Debug, Drop)]
pub(crate) enum Arrays {
    Same(TableId),
    Each(Vec<TableId>),
}

/// A program that is being built, and the arrays of the names that were asked for.
#[derive(Drop)]
pub struct Lowering {
    pub builder: Builder,
    pub alloc: Global,
    pub(crate) arrays: IndexMap<Vec<u8>, Arrays>,
}

impl Arrays {
    /// The array of a scenario.
    pub(crate) fn id(&self, scenario: u32) -> TableId
        requires has_array { HasArray self.now scenario }
        ensures { result.0 ≡ id_in self.now scenario }
    {
        match self {
            Arrays::Same(id) => *id,
            Arrays::Each(ids) => ids[scenario as usize],
        }
    }
}

impl Lowering {
    /// The work on a program of which no array was asked for yet; it takes no memory.
    #[tactic(auto, using(crate::proofs::Growing::ready_new))]
    pub fn new(alloc: Global, builder: Builder) -> Lowering
        ensures builder { result.builder ≡ builder }
        ensures arrays { entries_in result ≡ [] }
        ensures ready { (setting : Scenarios) → IsLaid setting → IsBuilding builder → root_built builder ≡ root_in setting → IsReady setting result }
    {
        Lowering {
            builder,
            alloc,
            arrays: IndexMap::new(alloc),
        }
    }

    /// Keeps the arrays of a name.
    pub(crate) fn keep(&mut self, name: &Name, arrays: Arrays) -> Result<(), AllocError>
        ensures builder { self.new.builder ≡ self.old.builder }
        ensures kept { OnOk result ((setting : Scenarios) → AreKept setting (things_of self.old) (entries_in self.old)
            → AreArrays (things_of self.old) (count_in setting.tree.now) (array_in setting name.now) arrays
            → AreKept setting (things_of self.old) (entries_in self.new)) }
        ensures found { OnOk result (lookup (λ key. pointwise nat_eq name.now key.items) (entries_in self.new) ≡ Some arrays) }
        ensures others { OnOk result ((other : List ℕ) → pointwise nat_eq other name.now ≡ false
            → lookup (λ key. pointwise nat_eq other key.items) (entries_in self.new) ≡ lookup (λ key. pointwise nat_eq other key.items) (entries_in self.old)) }
    {
        let key = Vec::from_slice(self.alloc, name.as_slice())?;
        self.arrays.insert(key, arrays)?;
        Ok(())
    }
}
