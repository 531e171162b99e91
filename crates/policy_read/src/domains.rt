//! Values that lie outside the domains of their cells.

ghost use Rattle.std.specs.Prelude.{◌≡◌, map};
ghost use Rattle.sopl_scen.specs.Domains.{ends_of};
ghost use Rattle.policy_read.specs.Domains as spec;

use crate::entry::Told;
use sopl_base::Interval;

/// Whether a value lies outside the domain of its cell.
#[tactic(auto, using(crate::proofs::Domained::outside_nowhere, crate::proofs::Domained::outside_there))]
fn is_outside(domains: &[Interval], told: &Told) -> bool
    ensures { result ≡ spec.is_outside (map ends_of domains.now) told.now }
{
    let Some(domain) = domains.get(told.cell as usize) else {
        return false;
    };
    told.value < domain.lo || told.value > domain.hi
}

/// The cell of the first value that lies outside its domain.
pub(crate) fn first_outside(domains: &[Interval], told: &[Told]) -> Option<u64>
    ensures { result ≡ spec.first_outside (map ends_of domains.now) told.now }
{
    'values: for i in 0..told.len() {
        if is_outside(domains, &told[i]) {
            return Some(told[i].cell);
        }
    }
    None
}
