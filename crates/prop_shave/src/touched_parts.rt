//! The parts of an objective's sum that mention a cell.

ghost use Rattle.std.specs.Prelude.{◌≡◌, IfOk};
ghost use Rattle.std.specs.List.{AllByRecursion};
ghost use Rattle.term_program.specs.Mentions.{atom_ids};
ghost use Rattle.term_program.specs.Programs.{IsListedTerm, IsMade, root_in, things_in};
ghost use Rattle.prop_shave.specs.GoalSums.{is_touched, touched_by};

use crate::lists::{has, put_if};
use std::alloc::{AllocError, Global};
use term_goals::Atom;
use term_program::{Program, TermId};

/// The numbers of several parts of an objective's sum.
#[derive(Drop)]
pub struct TouchedParts {
    pub numbers: Vec<usize>,
}

/// Whether a part mentions a cell.
fn touches(program: &Program, atom: &Atom, cell: u32) -> bool
    requires made { IsMade program.now }
    requires listed { IsListedTerm program.now atom.now.term }
    ensures { result ≡ is_touched (root_in program.now) (things_in program.now) cell atom.now }
{
    has(program.term_cells(TermId(atom.term)), cell)
}

/// The parts that mention a cell, in the same order.
pub fn parts_touching(
    alloc: Global,
    program: &Program,
    atoms: &[Atom],
    cell: u32,
) -> Result<TouchedParts, AllocError>
    requires made { IsMade program.now }
    requires listed { AllByRecursion (IsListedTerm program.now) (atom_ids atoms.now) }
    ensures touched { IfOk result (λ list. list.numbers.items ≡ touched_by (root_in program.now) (things_in program.now) atoms.now cell) }
{
    let mut numbers = Vec::new(alloc);
    'atoms: for at in 0..atoms.len() {
        let wanted = touches(program, &atoms[at], cell);
        put_if(&mut numbers, at, wanted)?;
    }
    Ok(TouchedParts { numbers })
}
