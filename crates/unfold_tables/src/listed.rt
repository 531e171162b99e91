//! The elements of the constants of a name, one behind the other.

ghost use Rattle.std.specs.Prelude.{◌≡◌, ◌++◌, ◌∷◌, [], map, IfOk, OnOk};
ghost use Rattle.unfold_tables.specs.Listed.{element_shown, elements_named};
ghost use Rattle.unfold_tables.specs.Tables.{constants_under, elements_in, items, pairs, table_known};

use crate::elements::Elements;
use crate::table::{Entry, Table, TableEntry};
use sopl_ast::Name;
use std::alloc::{AllocError, Global};

/// An element of a constant, as it is lent: its index, and the value there.
#[derive(Clone, Copy, Debug)]
pub struct ConstantElement<'a> {
    pub index: &'a [i64],
    pub value: i64,
}

impl Table {
    /// The elements of the constants of a name, in the order in which they were entered. No index stands twice where no constant has one twice.
    #[tactic(auto, using(crate::proofs::Named::entry_more, crate::proofs::Named::entries_end))]
    pub fn elements_of(
        &self,
        alloc: Global,
        name: &Name,
    ) -> Result<Vec<ConstantElement<'_>>, AllocError>
        ensures { IfOk result (λ list. map element_shown list.items ≡ elements_named name.now (table_known self.now).constants) }
    {
        let mut found = Vec::new(alloc);
        let entries = self.entries_of(name);
        'entries: for entry in entries {
            entry.list(name, &mut found)?;
        }
        Ok(found)
    }
}

impl Entry {
    /// Lists its elements behind others, if it has this name.
    fn list<'a>(
        &'a self,
        name: &Name,
        found: &mut Vec<ConstantElement<'a>>,
    ) -> Result<(), AllocError>
        ensures { OnOk result (map element_shown found.new.items
            ≡ map element_shown found.old.items ++ elements_named name.now (constants_under self.now.name.items self.now.entity)) }
    {
        if !self.is(name) {
            return Ok(());
        }
        match &self.entity {
            TableEntry::Array(elements) => elements.list(found),
            TableEntry::Set(_) => Ok(()),
        }
    }
}

impl Elements {
    /// Lists the elements behind others.
    fn list<'a>(&'a self, found: &mut Vec<ConstantElement<'a>>) -> Result<(), AllocError>
        ensures { OnOk result (map element_shown found.new.items ≡ map element_shown found.old.items ++ elements_in self.now) }
    {
        self.list_first(found)?;
        list_again(self.again.as_slice(), found)
    }

    /// Lists the elements with a new index.
    #[tactic(auto, using(crate::proofs::Named::pair_taken, crate::proofs::Named::pairs_taken))]
    fn list_first<'a>(&'a self, found: &mut Vec<ConstantElement<'a>>) -> Result<(), AllocError>
        ensures { OnOk result (map element_shown found.new.items ≡ map element_shown found.old.items ++ pairs self.now.first.entries) }
    {
        'first: for (index, value) in &self.first {
            let element = ConstantElement {
                index: index.as_slice(),
                value: *value,
            };
            push(found, element)?;
        }
        Ok(())
    }
}

/// Lists elements behind others.
#[tactic(auto, using(crate::proofs::Named::pair_more, crate::proofs::Named::pairs_end))]
fn list_again<'a>(
    elements: &'a [(Vec<i64>, i64)],
    found: &mut Vec<ConstantElement<'a>>,
) -> Result<(), AllocError>
    ensures { OnOk result (map element_shown found.new.items ≡ map element_shown found.old.items ++ pairs elements.now) }
{
    'elements: for element in elements {
        let element = ConstantElement {
            index: element.0.as_slice(),
            value: element.1,
        };
        push(found, element)?;
    }
    Ok(())
}

/// Puts an element behind others.
#[tactic(auto, using(crate::proofs::Named::pushed))]
fn push<'a>(
    found: &mut Vec<ConstantElement<'a>>,
    element: ConstantElement<'a>,
) -> Result<(), AllocError>
    ensures { OnOk result (map element_shown found.new.items ≡ map element_shown found.old.items ++ element_shown element.entry ∷ []) }
{
    found.push(element)?;
    Ok(())
}
