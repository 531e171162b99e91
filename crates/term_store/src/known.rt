//! What is known of conditions.

ghost use Rattle.std.specs.Prelude.{◌≡◌};
ghost use Rattle.term_nodes.specs.Built.{kept, of_truth};

use std::alloc::Global;
use term_language::{Defined, Truth};
use term_math::{Ends, Form};
use term_nodes::Facts;

/// What is known of a condition with this truth.
pub(crate) fn condition(alloc: Global, truth: Truth) -> Facts
    ensures { kept result ≡ of_truth truth }
{
    Facts {
        form: Form {
            constant: 0,
            cells: Vec::new(alloc),
            plain: true,
        },
        mark: Defined::Always,
        wide_mark: Defined::Always,
        wide: Ends::zero(),
        weight: 0,
        truth,
    }
}
