//! Which cells of `allDifferent` stand alone.

ghost use Rattle.std.specs.Prelude.{◌≡◌, true, IfOk};
ghost use Rattle.term_program.specs.Programs.{IsMade};
ghost use Rattle.prop_alldiff.specs.Kinds.{AreOthersAlone, IsAlone};
ghost use Rattle.prop_operands.specs.Kept.{AreOperands};

use prop_operands::Operands;
use prop_shave::put_if;
use std::alloc::{AllocError, Global};
use term_program::Program;

/// Whether a cell stands alone in one of these operands.
#[tactic(auto, using(crate::proofs::Sharing::alone_there))]
fn is_alone(program: &Program, operands: &Operands, cell: u32) -> bool
    requires made { IsMade program.now }
    requires operands { AreOperands program.now operands.now }
    ensures { result ≡ true → IsAlone program.now operands.now.list.items cell }
{
    let Some(place) = operands.only_place(program, cell) else {
        return false;
    };
    match program.one_cell(operands.term(place)) {
        Some(one) => one.cell == cell,
        None => false,
    }
}

/// Those of these cells that do not stand alone.
#[tactic(auto, using(crate::proofs::Sharing::no_cell, crate::proofs::Sharing::next_cell, crate::proofs::Sharing::all_cells))]
pub(crate) fn shared_cells(
    alloc: Global,
    program: &Program,
    operands: &Operands,
    cells: &[u32],
) -> Result<Vec<u32>, AllocError>
    requires made { IsMade program.now }
    requires operands { AreOperands program.now operands.now }
    ensures { IfOk result (λ shared. AreOthersAlone program.now operands.now.list.items cells.now shared.items) }
{
    let mut shared = Vec::new(alloc);
    'cells: for cell in cells {
        let alone = is_alone(program, operands, *cell);
        put_if(&mut shared, *cell, !alone)?;
    }
    Ok(shared)
}
