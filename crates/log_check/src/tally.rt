//! What the rows add to the last line of a log.

ghost use Rattle.std.specs.Prelude.{◌≡◌, ◌⊎◌, true, Some};
ghost use Rattle.std.specs.Bool.{Decides};
ghost use Rattle.log_rows.specs.Accepted as log;
ghost use Rattle.log_check.specs.Judged.{Passes, bound_in, no_tally};

use log_rows::Footer;
use sopl_base::{Direction, Wide, better};

/// Whether some row reached the value that is claimed, and whether the better end over some row that is not finished is the bound that is
/// claimed, or is better.
#[derive(Clone, Copy)]
pub(crate) struct Tally {
    pub(crate) reached: bool,
    pub(crate) touched: bool,
    pub(crate) passed: bool,
}

/// The value that is claimed to be reached, if any.
pub(crate) fn claimed(footer: &Footer) -> Option<i128>
    ensures claimed { result ≡ log.claimed footer.now }
{
    match footer {
        Footer::Optimal(value) => Some(*value),
        Footer::Infeasible => None,
        Footer::Bounded(found, _) => *found,
    }
}

/// The bound that is claimed, if any.
fn bound_of(footer: &Footer) -> Option<i128>
    ensures bound { result ≡ bound_in footer.now }
{
    match footer {
        Footer::Optimal(_) => None,
        Footer::Infeasible => None,
        Footer::Bounded(_, bound) => Some(*bound),
    }
}

/// Whether a number is this value.
#[tactic(auto, using(crate::proofs::Counting::same_is, crate::proofs::Counting::none_is))]
fn is_value(number: Option<i128>, end: &Wide) -> bool
    ensures same { Decides result (number ≡ Some end.now.value) }
{
    match number {
        Some(value) => value == end.value,
        None => false,
    }
}

/// Whether a value is better than a bound.
#[tactic(auto, using(crate::proofs::Counting::passes_is, crate::proofs::Counting::passes_none))]
fn passes(direction: Direction, bound: Option<i128>, end: &Wide) -> bool
    ensures passes { Decides result (Passes direction end.now.value bound) }
{
    match bound {
        Some(value) => better(direction, end.value, value),
        None => false,
    }
}

impl Tally {
    /// Of no row.
    pub(crate) fn none() -> Tally
        ensures none { result ≡ no_tally }
    {
        Tally {
            reached: false,
            touched: false,
            passed: false,
        }
    }

    /// With a point of this value.
    #[tactic(auto, using(crate::proofs::Counting::either))]
    pub(crate) fn with_point(&self, footer: &Footer, end: &Wide) -> Tally
        ensures reached { Decides result.reached ((self.now.reached ≡ true) ⊎ (log.claimed footer.now ≡ Some end.now.value)) }
        ensures touched { result.touched ≡ self.now.touched }
        ensures passed { result.passed ≡ self.now.passed }
    {
        let here = is_value(claimed(footer), end);
        Tally {
            reached: self.reached | here,
            touched: self.touched,
            passed: self.passed,
        }
    }

    /// With a row that is not finished, over which this is the better end.
    #[tactic(auto, using(crate::proofs::Counting::either))]
    pub(crate) fn with_open(&self, footer: &Footer, direction: Direction, end: &Wide) -> Tally
        ensures reached { result.reached ≡ self.now.reached }
        ensures touched { Decides result.touched ((self.now.touched ≡ true) ⊎ (bound_in footer.now ≡ Some end.now.value)) }
        ensures passed { Decides result.passed ((self.now.passed ≡ true) ⊎ Passes direction end.now.value (bound_in footer.now)) }
    {
        let bound = bound_of(footer);
        let touches = is_value(bound, end);
        let better = passes(direction, bound, end);
        Tally {
            reached: self.reached,
            touched: self.touched | touches,
            passed: self.passed | better,
        }
    }
}
