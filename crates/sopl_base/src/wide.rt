//! Whole numbers of 128 bits.

ghost use Rattle.std.specs.Prelude.{◌≡◌, ◌+ℤ◌, ◌-ℤ◌, ◌*ℤ◌, FitsSigned, IfNone, IfSome};
ghost use Rattle.std.specs.Int.{w128};

/// A whole number of 128 bits: a weight, a sum of weights times numbers, or a bound of either.
#[derive(Clone, Copy, Debug, PartialEq, Eq)]
pub struct Wide {
    pub value: i128,
}

impl Wide {
    /// A number of 64 bits.
    pub fn of(number: i64) -> Wide
        ensures same { result.value ≡ number }
    {
        Wide {
            value: i128::from(number),
        }
    }

    /// The sum, where it has room.
    pub fn plus(self, other: Wide) -> Wide
        requires fits { FitsSigned w128 (self.value +ℤ other.value) }
        ensures sum { result.value ≡ self.value +ℤ other.value }
    {
        Wide {
            value: self.value + other.value,
        }
    }

    /// The difference, where it has room.
    pub fn minus(self, other: Wide) -> Wide
        requires fits { FitsSigned w128 (self.value -ℤ other.value) }
        ensures difference { result.value ≡ self.value -ℤ other.value }
    {
        Wide {
            value: self.value - other.value,
        }
    }

    /// The product, where it has room.
    pub fn times(self, other: Wide) -> Wide
        requires fits { FitsSigned w128 (self.value *ℤ other.value) }
        ensures product { result.value ≡ self.value *ℤ other.value }
    {
        Wide {
            value: self.value * other.value,
        }
    }

    /// The sum, or none where it has no room.
    pub fn checked_plus(self, other: Wide) -> Option<Wide>
        ensures sum { IfSome result (λ sum. sum.value ≡ self.value +ℤ other.value) }
        ensures none { IfNone result (¬ FitsSigned w128 (self.value +ℤ other.value)) }
    {
        let value = self.value.checked_add(other.value)?;
        Some(Wide { value })
    }

    /// The difference, or none where it has no room.
    pub fn checked_minus(self, other: Wide) -> Option<Wide>
        ensures difference { IfSome result (λ difference. difference.value ≡ self.value -ℤ other.value) }
        ensures none { IfNone result (¬ FitsSigned w128 (self.value -ℤ other.value)) }
    {
        let value = self.value.checked_sub(other.value)?;
        Some(Wide { value })
    }

    /// The product, or none where it has no room.
    pub fn checked_times(self, other: Wide) -> Option<Wide>
        ensures product { IfSome result (λ product. product.value ≡ self.value *ℤ other.value) }
        ensures none { IfNone result (¬ FitsSigned w128 (self.value *ℤ other.value)) }
    {
        let value = self.value.checked_mul(other.value)?;
        Some(Wide { value })
    }
}
