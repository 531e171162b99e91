//! Where the elements of an array take their values from.

ghost use Rattle.std.specs.Prelude.{◌≡◌, ◌<◌, ◌++◌, ℕ, List, length, map, IfOk, OnOk};
ghost use Rattle.sopl_scen.specs.Layout.{Layout};
ghost use Rattle.sopl_ast.specs.Known.{Known};
ghost use Rattle.compile_laws.specs.Instances.{constant_elements, decided_elements, elements, seen_elements};
ghost use Rattle.unfold_tables.specs.Listed.{element_shown};
ghost use Rattle.unfold_tables.specs.Tables.{table_known};
ghost use Rattle.compile_names.specs.Places.{cells_at, place_in, values_at};
ghost use Rattle.compile_names.specs.Variables.{AreThere, OriginExists, decided_entry, drawn_entry, entry_from};
ghost use Rattle.compile_names.specs.Listing.{constant_entry};

use crate::setting::Scenarios;
use sopl_ast::Name;
use std::alloc::{AllocError, Global};
use unfold_tables::ConstantElement;

/// Where a value comes from: it is a constant, or that of the stochastic variable or the decision with a number.
#[derive(Clone, Copy, Debug)]
pub enum Origin {
    Fixed(i64),
    Drawn(u32),
    Decided(u32),
}

/// An element of an array: its index, and where its value comes from.
#[derive(Clone, Copy, Debug)]
pub struct Source<'a> {
    pub index: &'a [i64],
    pub origin: Origin,
}

impl<'a> Scenarios<'a> {
    /// The elements of a name: those of its constants, then its stochastic variables, then its decisions.
    pub(crate) fn sources(&self, alloc: Global, name: &Name) -> Result<Vec<Source<'a>>, AllocError>
        ensures elements { IfOk result (λ list. (known : Known) (tree : Layout) (i : ℕ) → known.constants ≡ (table_known self.now.table.now).constants
            → map (entry_from tree i) list.items ≡ elements (place_in self.now.decisions.now self.now.stochs.now tree i known) name.now) }
        ensures origins_exist { IfOk result (λ list. AreThere (length self.now.stochs.now) (length self.now.decisions.now) list.items) }
    {
        let mut found = Vec::new(alloc);
        self.list_constants(alloc, name, &mut found)?;
        self.list_drawn(name, &mut found)?;
        self.list_decided(name, &mut found)?;
        Ok(found)
    }

    /// Lists the elements of constants behind others.
    fn list_constants(
        &self,
        alloc: Global,
        name: &Name,
        found: &mut Vec<Source<'a>>,
    ) -> Result<(), AllocError>
        ensures elements { OnOk result ((tree : Layout) (i : ℕ) → map (entry_from tree i) found.new.items
            ≡ map (entry_from tree i) found.old.items ++ constant_elements name.now (table_known self.now.table.now).constants) }
        ensures origins_exist { OnOk result ((drawn decided : ℕ) → AreThere drawn decided found.old.items → AreThere drawn decided found.new.items) }
    {
        let elements = self.table.elements_of(alloc, name)?;
        list_fixed(elements.as_slice(), found)
    }

    /// Lists the elements of stochastic variables behind others.
    #[tactic(auto, using(crate::proofs::Listing::drawn_more, crate::proofs::There::there_more))]
    fn list_drawn(&self, name: &Name, found: &mut Vec<Source<'a>>) -> Result<(), AllocError>
        ensures elements { OnOk result ((tree : Layout) (i : ℕ) → map (entry_from tree i) found.new.items
            ≡ map (entry_from tree i) found.old.items ++ seen_elements name.now self.now.stochs.now (values_at tree (length self.now.stochs.now) i)) }
        ensures origins_exist { OnOk result (AreThere (length self.now.stochs.now) (length self.now.decisions.now) found.old.items
            → AreThere (length self.now.stochs.now) (length self.now.decisions.now) found.new.items) }
    {
        let numbers = self.drawn.numbers(name);
        'numbers: for number in numbers {
            found.push(self.drawn_source(*number))?;
        }
        Ok(())
    }

    /// Lists the elements of decisions behind others.
    #[tactic(auto, using(crate::proofs::Listing::decided_more, crate::proofs::There::there_more))]
    fn list_decided(&self, name: &Name, found: &mut Vec<Source<'a>>) -> Result<(), AllocError>
        ensures elements { OnOk result ((tree : Layout) (i : ℕ) → map (entry_from tree i) found.new.items
            ≡ map (entry_from tree i) found.old.items ++ decided_elements name.now self.now.decisions.now (cells_at tree (length self.now.decisions.now) i)) }
        ensures origins_exist { OnOk result (AreThere (length self.now.stochs.now) (length self.now.decisions.now) found.old.items
            → AreThere (length self.now.stochs.now) (length self.now.decisions.now) found.new.items) }
    {
        let numbers = self.decided.numbers(name);
        'numbers: for number in numbers {
            found.push(self.decided_source(*number))?;
        }
        Ok(())
    }

    /// The element of a stochastic variable.
    pub(crate) fn drawn_source(&self, number: u32) -> Source<'a>
        requires exists { number < length self.now.stochs.now }
        ensures element { (tree : Layout) (i : ℕ) → entry_from tree i result ≡ drawn_entry self.now.stochs.now tree i number }
        ensures origins_exist { OriginExists (length self.now.stochs.now) (length self.now.decisions.now) result.origin }
    {
        let stochs = self.stochs;
        let stoch = &stochs[number as usize];
        Source {
            index: stoch.index.as_slice(),
            origin: Origin::Drawn(number),
        }
    }

    /// The element of a decision.
    pub(crate) fn decided_source(&self, number: u32) -> Source<'a>
        requires exists { number < length self.now.decisions.now }
        ensures element { (tree : Layout) (i : ℕ) → entry_from tree i result ≡ decided_entry self.now.decisions.now tree i number }
        ensures origins_exist { OriginExists (length self.now.stochs.now) (length self.now.decisions.now) result.origin }
    {
        let decisions = self.decisions;
        let decision = &decisions[number as usize];
        Source {
            index: decision.index.as_slice(),
            origin: Origin::Decided(number),
        }
    }
}

/// Lists elements of constants behind others.
#[tactic(auto, using(crate::proofs::Listing::fixed_more, crate::proofs::Listing::fixed_end, crate::proofs::There::there_more))]
fn list_fixed<'a>(
    elements: &[ConstantElement<'a>],
    found: &mut Vec<Source<'a>>,
) -> Result<(), AllocError>
    ensures elements { OnOk result ((tree : Layout) (i : ℕ) → map (entry_from tree i) found.new.items
        ≡ map (entry_from tree i) found.old.items ++ map constant_entry (map element_shown elements.now)) }
    ensures origins_exist { OnOk result ((drawn decided : ℕ) → AreThere drawn decided found.old.items → AreThere drawn decided found.new.items) }
{
    'elements: for element in elements {
        found.push(Source {
            index: element.index,
            origin: Origin::Fixed(element.value),
        })?;
    }
    Ok(())
}
