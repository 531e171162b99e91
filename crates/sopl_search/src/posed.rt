//! What a search reads of the problem that propagators narrow.

use box_store::BoxStore;
use prop_core::Watching;
use sopl_base::{Direction, Interval};
use std::alloc::{AllocError, Global};

/// A propagator whose programs tell the box of all points, which values are better, and the better end over a box.
pub trait SearchProblem: Watching {
    ghost use Rattle.std.specs.Prelude.{◌≡◌, ◌<◌, ◌^◌, length, IfOk};
    ghost use Rattle.box_problem.specs.Box.{Inside, box_of};

    /// What it needs of a program.
    ghost valid: { Self.Program → Type 0 };

    /// The interval of each cell in the box of all points.
    fn roots(alloc: Global, program: &Self::Program) -> Result<Vec<Interval>, AllocError>
        requires valid { valid program.now }
        ensures root { IfOk result (λ roots. box_of roots.items ≡ (Self.problem program.now).root) }
        ensures few { IfOk result (λ roots. length roots.items < 2 ^ 32) };

    /// Which values are better.
    fn direction(program: &Self::Program) -> Direction
        requires valid { valid program.now }
        ensures { result ≡ (Self.problem program.now).direction };

    /// The better end of the objective's interval over the box of a store.
    fn end(program: &Self::Program, store: &BoxStore) -> i128
        requires valid { valid program.now }
        requires inside { Inside store.now.box (Self.problem program.now).root }
        ensures { result ≡ (Self.problem program.now).end store.now.box };
}
