//! Root boxes.

ghost use Rattle.std.specs.Prelude.{◌≡◌, ◌+◌, length, IfSome, OnOk};
ghost use Rattle.std.specs.List.{AllByRecursion};
ghost use Rattle.sopl_term.specs.Built.{IsNear};

use sopl_base::Interval;
use std::alloc::AllocError;

/// An interval whose ends lie within 2^40.
fn near(lo: i64, hi: i64) -> Option<Interval>
    ensures { IfSome result IsNear }
{
    if lo < -1_099_511_627_776 || 1_099_511_627_776 < hi {
        return None;
    }
    Interval::new(lo, hi)
}

/// Adds the interval of a cell.
#[tactic(auto, using(crate::proofs::Roots::near_pushed))]
pub fn add_root(roots: &mut Vec<Interval>, lo: i64, hi: i64) -> Result<(), AllocError>
    requires near { AllByRecursion IsNear roots.old.items }
    ensures near { OnOk result (AllByRecursion IsNear roots.new.items) }
    ensures one { OnOk result (length roots.new.items ≡ length roots.old.items + 1) }
{
    let Some(root) = near(lo, hi) else {
        return Err(AllocError);
    };
    roots.push(root)?;
    Ok(())
}
