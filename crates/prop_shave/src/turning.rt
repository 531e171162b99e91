//! A sum in which one part takes the place of another.

ghost use Rattle.std.specs.Prelude.{◌≡◌, ◌+ℤ◌, ◌-ℤ◌, IfSome};

use sopl_base::Wide;

/// A sum with one part in it in place of another, or none where there is no room.
pub(crate) fn turned(sum: Wide, before: Wide, after: Wide) -> Option<Wide>
    ensures { IfSome result (λ turned. turned.value ≡ (sum.value +ℤ after.value) -ℤ before.value) }
{
    sum.checked_plus(after)?.checked_minus(before)
}
