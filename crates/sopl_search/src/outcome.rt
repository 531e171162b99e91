//! What a search answers.

ghost use Rattle.std.specs.Prelude.{◌≡◌};
ghost use Rattle.log_rows.specs.Ranges.{FooterFits, FoundFits};
ghost use Rattle.sopl_search.specs.Logged.{footer_of};
ghost use Rattle.sopl_search.specs.Outcomes.{value_of};

use crate::values::Values;
use log_rows::Footer;

/// A point that satisfies, and its value.
#[derive(Drop)]
pub struct Found {
    pub value: i128,
    pub cells: Values,
}

/// What a search knows of all points in the end: the best point, that no point satisfies, or the best point that was found
/// within the budget and a value that no point is better than.
#[derive(Drop)]
pub enum Outcome {
    Optimal { value: i128, cells: Values },
    Infeasible,
    Bounded { found: Option<Found>, bound: i128 },
}

/// The value of the best point that was found.
pub(crate) fn value_in(best: &Option<Found>) -> Option<i128>
    ensures value { result ≡ value_of best.now }
    ensures fits { FoundFits (value_of best.now) }
{
    match best {
        Some(found) => Some(found.value),
        None => None,
    }
}

impl Outcome {
    /// What a log claims of it.
    pub(crate) fn footer(&self) -> Footer
        ensures footer { result ≡ footer_of self.now }
        ensures fits { FooterFits (footer_of self.now) }
    {
        match self {
            Outcome::Optimal { value, .. } => Footer::Optimal(*value),
            Outcome::Infeasible => Footer::Infeasible,
            Outcome::Bounded { found, bound } => Footer::Bounded(value_in(found), *bound),
        }
    }
}
