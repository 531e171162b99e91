//! Terms that fold to a number where their operands are numbers, and are atoms else.

ghost use Rattle.std.specs.Prelude.{◌≡◌, ◌<◌, true, false, length, IfOk};
ghost use Rattle.std.specs.List.{list_all};
ghost use Rattle.term_language.specs.Forms.{is_constant};
ghost use Rattle.term_language.specs.Rules as rule;
ghost use Rattle.term_math.specs.Shown.{ends_of};
ghost use Rattle.term_nodes.specs.Built.{AllBelow, kept};
ghost use Rattle.term_nodes.specs.Seen.{sight_of};
ghost use Rattle.term_nodes.specs.Things.{terms_at};
ghost use Rattle.term_store.specs.Atoms.{of_folded, size_of_folded};
ghost use Rattle.term_store.specs.Stores.{IsMeasured, IsSoundStore, all, root_of};

use crate::store::TermStore;
use crate::terms::{measured, number_form};
use sopl_base::Fault;
use std::alloc::Global;
use term_language::{Defined, Truth};
use term_math::{AbstractValue, Ends, Factor, Form, weight_of};
use term_nodes::Facts;

/// What is known of a term that is a number, where its interval has that number alone.
fn number_facts(alloc: Global, mark: Defined, wide: &AbstractValue) -> Facts
    ensures { kept result ≡ of_folded true mark (sight_of wide.now) }
{
    Facts {
        form: number_form(alloc, &Factor { k: wide.ends.high }),
        mark,
        wide_mark: wide.mark,
        wide: Ends::zero(),
        weight: 0,
        truth: Truth::True,
    }
}

/// What is known of a term that is an atom.
fn atom_facts(alloc: Global, mark: Defined, wide: &AbstractValue) -> Facts
    ensures { kept result ≡ of_folded false mark (sight_of wide.now) }
{
    Facts {
        form: Form {
            constant: 0,
            cells: Vec::new(alloc),
            plain: false,
        },
        mark,
        wide_mark: wide.mark,
        wide: wide.ends,
        weight: weight_of(&wide.ends),
        truth: Truth::True,
    }
}

/// What is known of a term that folds to a number or is an atom, where its size is at most 2^40.
pub(crate) fn folded_facts(
    alloc: Global,
    folds: bool,
    mark: Defined,
    wide: &AbstractValue,
) -> Result<Facts, Fault>
    ensures facts { IfOk result (λ facts. kept facts ≡ of_folded folds mark (sight_of wide.now)) }
    ensures measured { IsMeasured (size_of_folded folds (ends_of wide.now.ends)) result }
{
    if folds {
        measured(u128::from(wide.ends.high.unsigned_abs()))?;
        return Ok(number_facts(alloc, mark, wide));
    }
    measured(u128::from(weight_of(&wide.ends)))?;
    Ok(atom_facts(alloc, mark, wide))
}

impl TermStore {
    /// Whether the forms of all terms are numbers.
    #[tactic(auto, using(crate::proofs::Folding::next_constants, crate::proofs::Folding::no_constants, term_nodes::proofs::Steps::cond_below))]
    pub(crate) fn all_constant(&self, ids: &[u32]) -> bool
        requires sound { IsSoundStore self.now }
        requires exist { AllBelow (length self.now.items.items) ids.now }
        ensures { result ≡ list_all is_constant (rule.forms (root_of self.now) (terms_at (all self.now) ids.now)) }
    {
        for id in ids {
            if !self.form_known(*id).is_constant() {
                return false;
            }
        }
        true
    }
}
