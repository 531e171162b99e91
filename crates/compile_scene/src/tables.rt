//! The arrays of names are added.

ghost use Rattle.std.specs.Prelude.{◌≡◌, ◌<◌, ℕ, None, length, map, nat_eq, IfNone, IfOk, IfSome, OnOk, true};
ghost use Rattle.std.specs.Cmp.Lexicographic.{pointwise};
ghost use Rattle.std.specs.List.{AllByRecursion, list_all};
ghost use Rattle.std.specs.Map.{lookup};
ghost use Rattle.term_language.specs.Laws.{IsTable};
ghost use Rattle.compile_names.specs.Tables.{table_in};
ghost use Rattle.compile_names.specs.Variables.{OriginExists, item_from};
ghost use Rattle.sopl_scen.specs.Layout.{count_in};
ghost use Rattle.term_nodes.specs.Things.{a_table};
ghost use Rattle.term_math.specs.Kept as kept;
ghost use Rattle.compile_scene.specs.Fixed.{is_fixed};
ghost use Rattle.compile_scene.specs.Scenes.{IsLaid, array_in};
ghost use Rattle.compile_scene.specs.Works.{AreArrays, Extends, IsReady, Stands, entries_in, things_of};

use crate::scene::NumberedScenario;
use crate::work::{Arrays, Lowering};
use compile_names::{Array, Origin};
use sopl_ast::Name;
use sopl_term::TableId;
use std::alloc::{AllocError, Global};
use term_math::{Element, Table};

/// Whether a value is a constant.
fn is_fixed(origin: &Origin) -> bool
    ensures { result ≡ is_fixed origin.now }
{
    match origin {
        Origin::Fixed(_) => true,
        Origin::Drawn(_) => false,
        Origin::Decided(_) => false,
    }
}

/// Whether all values are constants.
fn are_fixed(origins: &[Origin]) -> bool
    ensures { result ≡ list_all is_fixed origins.now }
{
    origins.iter().all(|origin| is_fixed(origin))
}

/// A copy of these sets.
#[tactic(auto, using(crate::proofs::Copies::one_copied))]
fn copied(alloc: Global, sets: &[Vec<i64>]) -> Result<Vec<Vec<i64>>, AllocError>
    ensures { IfOk result (λ list. kept.sets_of list.items ≡ kept.sets_of sets.now) }
{
    let mut list = Vec::new(alloc);
    'sets: for set in sets {
        let numbers = Vec::from_slice(alloc, set.as_slice())?;
        list.push(numbers)?;
    }
    Ok(list)
}

impl NumberedScenario<'_, '_> {
    /// The array of a name. When a name is asked for first, its arrays are added: one where all its elements are constants, else one for each scenario.
    #[tactic(auto, using(crate::proofs::Growing::extends_not))]
    pub fn table(&self, work: &mut Lowering, name: &Name) -> Result<TableId, AllocError>
        requires ready { IsReady self.now.setting.now work.old }
        requires exists { self.now.scenario < count_in self.now.setting.now.tree.now }
        ensures extends { OnOk result (Extends self.now.setting.now work.old work.new) }
        ensures stands { IfOk result (λ id. Stands (things_of work.new) id.0 (a_table (array_in self.now.setting.now name.now self.now.scenario))) }
    {
        match self.kept(work, name) {
            Some(id) => Ok(id),
            None => self.added(work, name),
        }
    }

    /// The array of a name, if its arrays are kept.
    fn kept(&self, work: &Lowering, name: &Name) -> Option<TableId>
        requires ready { IsReady self.now.setting.now work.now }
        requires exists { self.now.scenario < count_in self.now.setting.now.tree.now }
        ensures stands { IfSome result (λ id. Stands (things_of work.now) id.0 (a_table (array_in self.now.setting.now name.now self.now.scenario))) }
        ensures none { IfNone result (lookup (λ key. pointwise nat_eq name.now key.items) (entries_in work.now) ≡ None) }
    {
        match work.arrays.get(name.as_slice()) {
            Some(arrays) => Some(arrays.id(self.scenario)),
            None => None,
        }
    }

    /// The array of a name, whose arrays are added and kept.
    fn added(&self, work: &mut Lowering, name: &Name) -> Result<TableId, AllocError>
        requires ready { IsReady self.now.setting.now work.old }
        requires exists { self.now.scenario < count_in self.now.setting.now.tree.now }
        ensures extends { OnOk result (Extends self.now.setting.now work.old work.new) }
        ensures stands { IfOk result (λ id. Stands (things_of work.new) id.0 (a_table (array_in self.now.setting.now name.now self.now.scenario))) }
    {
        let arrays = self.arrays_of(work, name)?;
        let id = arrays.id(self.scenario);
        work.keep(name, arrays)?;
        Ok(id)
    }

    /// Adds the arrays of a name.
    fn arrays_of(&self, work: &mut Lowering, name: &Name) -> Result<Arrays, AllocError>
        requires ready { IsReady self.now.setting.now work.old }
        requires exists { self.now.scenario < count_in self.now.setting.now.tree.now }
        ensures extends { OnOk result (Extends self.now.setting.now work.old work.new) }
        ensures arrays { IfOk result (AreArrays (things_of work.new) (count_in self.now.setting.now.tree.now) (array_in self.now.setting.now name.now)) }
    {
        let array = self.setting.array(work.alloc, name)?;
        self.arrays(work, &array)
    }

    /// Adds an array: once if it is the same in all scenarios, else for each of them.
    fn arrays(&self, work: &mut Lowering, array: &Array) -> Result<Arrays, AllocError>
        requires ready { IsReady self.now.setting.now work.old }
        requires exists { self.now.scenario < count_in self.now.setting.now.tree.now }
        requires origins_exist { AllByRecursion (OriginExists (length self.now.setting.now.stochs.now) (length self.now.setting.now.decisions.now)) array.now.origins.items }
        requires tables { (i : ℕ) → IsTable (table_in self.now.setting.now.tree.now i array.now) }
        ensures extends { OnOk result (Extends self.now.setting.now work.old work.new) }
        ensures arrays { IfOk result (AreArrays (things_of work.new) (count_in self.now.setting.now.tree.now) (λ (i : ℕ). table_in self.now.setting.now.tree.now i array.now)) }
    {
        if are_fixed(array.origins.as_slice()) {
            self.same(work, array)
        } else {
            self.each(work, array)
        }
    }

    /// Adds an array of constants.
    #[tactic(auto, using(crate::proofs::Listing::same_array))]
    fn same(&self, work: &mut Lowering, array: &Array) -> Result<Arrays, AllocError>
        requires ready { IsReady self.now.setting.now work.old }
        requires exists { self.now.scenario < count_in self.now.setting.now.tree.now }
        requires origins_exist { AllByRecursion (OriginExists (length self.now.setting.now.stochs.now) (length self.now.setting.now.decisions.now)) array.now.origins.items }
        requires tables { (i : ℕ) → IsTable (table_in self.now.setting.now.tree.now i array.now) }
        requires fixed { list_all is_fixed array.now.origins.items ≡ true }
        ensures extends { OnOk result (Extends self.now.setting.now work.old work.new) }
        ensures arrays { IfOk result (AreArrays (things_of work.new) (count_in self.now.setting.now.tree.now) (λ (i : ℕ). table_in self.now.setting.now.tree.now i array.now)) }
    {
        let id = self.add(work, array)?;
        Ok(Arrays::Same(id))
    }

    /// Adds an array for each scenario.
    #[tactic(auto, using(crate::proofs::Listing::each_array))]
    fn each(&self, work: &mut Lowering, array: &Array) -> Result<Arrays, AllocError>
        requires ready { IsReady self.now.setting.now work.old }
        requires origins_exist { AllByRecursion (OriginExists (length self.now.setting.now.stochs.now) (length self.now.setting.now.decisions.now)) array.now.origins.items }
        requires tables { (i : ℕ) → IsTable (table_in self.now.setting.now.tree.now i array.now) }
        ensures extends { OnOk result (Extends self.now.setting.now work.old work.new) }
        ensures arrays { IfOk result (AreArrays (things_of work.new) (count_in self.now.setting.now.tree.now) (λ (i : ℕ). table_in self.now.setting.now.tree.now i array.now)) }
    {
        let mut ids = Vec::new(work.alloc);
        'scenarios: for scenario in 0..self.setting.tree.count() {
            let scene = NumberedScenario {
                setting: self.setting,
                scenario,
            };
            ids.push(scene.add(work, array)?)?;
        }
        Ok(Arrays::Each(ids))
    }

    /// Adds the array of this scenario.
    fn add(&self, work: &mut Lowering, array: &Array) -> Result<TableId, AllocError>
        requires ready { IsReady self.now.setting.now work.old }
        requires exists { self.now.scenario < count_in self.now.setting.now.tree.now }
        requires origins_exist { AllByRecursion (OriginExists (length self.now.setting.now.stochs.now) (length self.now.setting.now.decisions.now)) array.now.origins.items }
        requires tables { (i : ℕ) → IsTable (table_in self.now.setting.now.tree.now i array.now) }
        ensures extends { OnOk result (Extends self.now.setting.now work.old work.new) }
        ensures stands { IfOk result (λ id. Stands (things_of work.new) id.0 (a_table (table_in self.now.setting.now.tree.now self.now.scenario array.now))) }
    {
        let table = self.table_of(work.alloc, array)?;
        work.builder.array(table)
    }

    /// An array as it is in this scenario.
    fn table_of(&self, alloc: Global, array: &Array) -> Result<Table, AllocError>
        requires laid_out { IsLaid self.now.setting.now }
        requires exists { self.now.scenario < count_in self.now.setting.now.tree.now }
        requires origins_exist { AllByRecursion (OriginExists (length self.now.setting.now.stochs.now) (length self.now.setting.now.decisions.now)) array.now.origins.items }
        ensures { IfOk result (λ table. kept.table_of table ≡ table_in self.now.setting.now.tree.now self.now.scenario array.now) }
    {
        let sets = copied(alloc, array.sets.as_slice())?;
        let elements = self.elements(alloc, array.origins.as_slice())?;
        Ok(Table::of(sets, elements))
    }

    /// The numbers and cells that values are, by where they come from.
    fn elements(&self, alloc: Global, origins: &[Origin]) -> Result<Vec<Element>, AllocError>
        requires laid_out { IsLaid self.now.setting.now }
        requires exists { self.now.scenario < count_in self.now.setting.now.tree.now }
        requires origins_exist { AllByRecursion (OriginExists (length self.now.setting.now.stochs.now) (length self.now.setting.now.decisions.now)) origins.now }
        ensures { IfOk result (λ list. kept.items_of list.items ≡ map (item_from self.now.setting.now.tree.now self.now.scenario) origins.now) }
    {
        let mut list = Vec::new(alloc);
        'origins: for origin in origins {
            list.push(self.element(*origin))?;
        }
        Ok(list)
    }
}
