//! The numbers of ranges and sets, borrowed from where they are kept.

ghost use Rattle.std.specs.Prelude.{◌≡◌, [], ◌∷◌, Some, option_map, IfSome, IfNone};
ghost use Rattle.sopl_ast.specs.Known.{ascending};
ghost use Rattle.sopl_ast.specs.Numbers.{up_to};
ghost use Rattle.unfold_tables.specs.Tables.{number_set, shown};

use crate::sets::{Ends, NumberSet, Numbers};

/// The numbers of a range or a set, or none where there is none.
pub fn borrowed<'a>(set: Option<&'a NumberSet>) -> Numbers<'a>
    ensures { shown result ≡ ascending (option_map (λ s. number_set s.now) set.entry) }
{
    match set {
        None => Numbers::Between(Ends { lo: 1, hi: 0 }),
        Some(set) => numbers_of(set),
    }
}

/// The numbers of a range or a set.
fn numbers_of(set: &NumberSet) -> Numbers<'_>
    ensures { shown result ≡ ascending (Some (number_set set.now)) }
{
    match set {
        NumberSet::Between(ends) => Numbers::Between(*ends),
        NumberSet::Listed(numbers) => Numbers::Listed(numbers.as_slice()),
    }
}

impl Ends {
    /// The first number, and the ends of those behind it.
    #[tactic(auto, using(crate::proofs::Upward::upward))]
    fn split_first(&self) -> Option<(i64, Ends)>
        ensures some { IfSome result (λ next. up_to self.now.lo self.now.hi ≡ next.0 ∷ up_to next.1.lo next.1.hi) }
        ensures none { IfNone result (up_to self.now.lo self.now.hi ≡ []) }
    {
        if self.hi < self.lo {
            return None;
        }
        if self.lo == self.hi {
            return Some((self.lo, Ends { lo: 1, hi: 0 }));
        }
        let later = Ends {
            lo: self.lo + 1,
            hi: self.hi,
        };
        Some((self.lo, later))
    }
}

impl<'a> Numbers<'a> {
    /// The first number, and those behind it.
    pub fn split_first(&self) -> Option<(i64, Numbers<'a>)>
        ensures some { IfSome result (λ next. shown self.now ≡ next.0 ∷ shown next.1) }
        ensures none { IfNone result (shown self.now ≡ []) }
    {
        match self {
            Numbers::Between(ends) => {
                let (first, later) = ends.split_first()?;
                Some((first, Numbers::Between(later)))
            }
            Numbers::Listed(numbers) => {
                let (first, later) = numbers.split_first()?;
                Some((*first, Numbers::Listed(later)))
            }
        }
    }
}
