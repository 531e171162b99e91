//! Members that are told of a cell that has changed.

ghost use Rattle.std.specs.Prelude.{◌≡◌, ◌<◌, ℕ, length, map, Contains};
ghost use Rattle.prop_core.specs.Members.{StillFit};
ghost use Rattle.prop_core.specs.Waking.{AreTouched, AreWoken, FollowsCell, IsWatchOf, StillInStep};

use crate::watch::Watch;
use crate::watching::Watching;

/// Tells the members at these places of a cell that may have changed.
fn touch_at<P: Watching>(list: &mut [P], places: &[usize], cell: u32)
    requires below { (k : ℕ) → Contains places.now k → k < length list.old }
    ensures still_in_step { StillInStep P.in_step list.old list.new }
    ensures touched { AreTouched P.in_step cell places.now list.old list.new }
    ensures same_reasons { map P.reasons list.new ≡ map P.reasons list.old }
    ensures same_watches { map P.watches list.new ≡ map P.watches list.old }
    ensures still_fit { StillFit P.fits list.old list.new }
{
    'places: for place in places {
        let at = *place;
        list[at].touched(cell);
    }
}

/// Tells the members that watch a cell that it may have changed.
pub fn touch<P: Watching>(list: &mut [P], watch: &Watch, cell: u32)
    requires watch { (cells : ℕ) × (cell < cells) × IsWatchOf (map P.watches list.old) watch.now cells }
    ensures in_step { FollowsCell P.problem P.fits P.in_step cell list.old list.new }
    ensures same_reasons { map P.reasons list.new ≡ map P.reasons list.old }
    ensures same_watches { map P.watches list.new ≡ map P.watches list.old }
    ensures still_fit { StillFit P.fits list.old list.new }
{
    touch_at(list, watch.places(cell), cell);
}

/// Lets the members at these places wait.
pub(crate) fn let_wait(waits: &mut [bool], places: &[usize])
    requires below { (k : ℕ) → Contains places.now k → k < length waits.old }
    ensures { AreWoken places.now waits.old waits.new }
{
    'places: for place in places {
        let at = *place;
        waits[at] = true;
    }
}
