//! The places that binders give.

ghost use Rattle.std.specs.Prelude.{◌≡◌, ◌++◌, IfOk, OnOk, drop, length, map};
ghost use Rattle.sopl_ast.specs.Constants.{all_bindings};
ghost use Rattle.sopl_ast.specs.Lists.{binders};
ghost use Rattle.unfold_constants.specs.Choosing.{leave_name, left, open_in};
ghost use Rattle.unfold_constants.specs.Here.{known_in};
ghost use Rattle.compile_counts.specs.Entering.{ended, inside, waiting};
ghost use Rattle.compile_counts.specs.Walked.{AreMet};

use crate::constants::numbers_at;
use sopl_ast::Binder;
use std::alloc::{AllocError, Global};
use unfold_constants::{BinderWalk, ConstantScope};

/// What is known for each way in which binders take their values, the last one fastest. Their ranges belong to the constant expression that begins at `whole`;
/// with none, the ends of each are constant places of their own.
#[tactic(auto, using(crate::proofs::Entering::entering))]
pub fn all_places<'a>(
    alloc: Global,
    known: &ConstantScope<'a>,
    whole: Option<usize>,
    over: &'a [Binder],
) -> Result<Vec<ConstantScope<'a>>, AllocError>
    requires met { AreMet (known_in known.now) whole (binders over.now) }
    ensures places { IfOk result (λ found. map known_in found.items ≡ all_bindings (known_in known.now) (binders over.now)) }
{
    let mut found = Vec::new(alloc);
    let mut choices = BinderWalk::new(known, over.len())?;
    enter(&mut found, &mut choices, whole, over)?;
    'choices: while choices.advance()? {
        enter(&mut found, &mut choices, whole, over)?;
    }
    Ok(found)
}

/// Adds what is known where all binders have values; else opens the name of the next one, whose range is evaluated.
#[tactic(auto, using(crate::proofs::Entering::entering))]
fn enter<'a>(
    found: &mut Vec<ConstantScope<'a>>,
    choices: &mut BinderWalk<'a>,
    whole: Option<usize>,
    over: &'a [Binder],
) -> Result<(), AllocError>
    requires met { AreMet (known_in choices.old.here) whole (binders (drop (length (open_in choices.old)) over.now)) }
    ensures added { OnOk result (map known_in found.new.items
        ≡ map known_in found.old.items ++ ended (known_in choices.old.here) (binders (drop (length (open_in choices.old)) over.now))) }
    ensures opened { OnOk result (waiting over.now (known_in choices.new.here) (open_in choices.new)
        ≡ inside (known_in choices.old.here) (binders (drop (length (open_in choices.old)) over.now))
        ++ waiting over.now (left leave_name (known_in choices.old.here) (open_in choices.old)) (open_in choices.old)) }
{
    let Some(binder) = over.get(choices.depth()) else {
        found.push(choices.here.copy()?)?;
        choices.leave();
        return Ok(());
    };
    let numbers = numbers_at(&choices.here, whole, &binder.range)?;
    choices.open(&binder.name, &numbers)?;
    Ok(())
}
