//! One finding of several propagators that keep what they reckoned.

ghost use Rattle.std.specs.Prelude.{◌≡◌, ◌≤◌, length, map};
ghost use Rattle.box_problem.specs.Box.{Inside};
ghost use Rattle.prop_core.specs.Members.{AllFit, StillFit};
ghost use Rattle.prop_core.specs.Sweeps.{Sweeps};
ghost use Rattle.prop_core.specs.Watches.{AllInStep, AreCalm};

use crate::finding::Finding;
use crate::sweeping::Sweep;
use crate::watching::Watching;
use box_store::BoxStore;

/// The first finding of the members from `start` on and before `stop` that wait, or that all of these rest.
fn find_kept_between<P: Watching>(
    list: &mut [P],
    waits: &mut [bool],
    start: usize,
    stop: usize,
    program: &P::Program,
    store: &BoxStore,
    best: Option<i128>,
) -> Sweep
    requires fits { AllFit P.fits program.now list.old }
    requires inside { Inside store.now.box (P.problem program.now).root }
    requires as_long { length waits.old ≡ length list.old }
    requires in_step { AllInStep P.in_step program.now store.now.box list.old }
    requires calm { AreCalm (P.problem program.now) (map P.reasons list.old) best store.now.box waits.old }
    requires bound { stop ≤ length list.old }
    ensures finds { Sweeps (P.problem program.now) (map P.reasons list.old) best store.now.box start stop result.finding }
    ensures bound { result.next ≤ length list.old }
    ensures in_step { AllInStep P.in_step program.now store.now.box list.new }
    ensures calm { AreCalm (P.problem program.now) (map P.reasons list.old) best store.now.box waits.new }
    ensures same_reasons { map P.reasons list.new ≡ map P.reasons list.old }
    ensures same_watches { map P.watches list.new ≡ map P.watches list.old }
    ensures still_fit { StillFit P.fits list.old list.new }
{
    'members: for at in start..stop {
        if !waits[at] {
            continue;
        }
        match list[at].revise_kept(program, store, best) {
            Finding::Quiet => {
                waits[at] = false;
            }
            finding => {
                return Sweep {
                    finding,
                    next: at + 1,
                };
            }
        }
    }
    Sweep {
        finding: Finding::Quiet,
        next: stop,
    }
}

/// The first finding of the members that wait, of those from `start` on and then of those before it, or that all rest.
pub(crate) fn find_kept<P: Watching>(
    list: &mut [P],
    waits: &mut [bool],
    start: usize,
    program: &P::Program,
    store: &BoxStore,
    best: Option<i128>,
) -> Sweep
    requires fits { AllFit P.fits program.now list.old }
    requires inside { Inside store.now.box (P.problem program.now).root }
    requires as_long { length waits.old ≡ length list.old }
    requires in_step { AllInStep P.in_step program.now store.now.box list.old }
    requires calm { AreCalm (P.problem program.now) (map P.reasons list.old) best store.now.box waits.old }
    requires start { start ≤ length list.old }
    ensures finds { Sweeps (P.problem program.now) (map P.reasons list.old) best store.now.box 0 (length list.old) result.finding }
    ensures bound { result.next ≤ length list.old }
    ensures in_step { AllInStep P.in_step program.now store.now.box list.new }
    ensures calm { AreCalm (P.problem program.now) (map P.reasons list.old) best store.now.box waits.new }
    ensures same_reasons { map P.reasons list.new ≡ map P.reasons list.old }
    ensures same_watches { map P.watches list.new ≡ map P.watches list.old }
    ensures still_fit { StillFit P.fits list.old list.new }
{
    let count = list.len();
    let later = find_kept_between(list, waits, start, count, program, store, best);
    match later.finding {
        Finding::Quiet => find_kept_between(list, waits, 0, start, program, store, best),
        _ => later,
    }
}
