//! Linear forms: a constant, a multiple of each cell, and whether there is something else.

ghost use Rattle.std.specs.Prelude.{◌≡◌};
ghost use Rattle.term_language.specs.Forms as rule;
ghost use Rattle.term_math.specs.Shown.{form_of};

use crate::ends::Factor;

/// So many times a cell.
#[derive(Clone, Copy, Debug, PartialEq, Eq)]
pub struct Coefficient {
    pub cell: u32,
    pub k: i64,
}

/// The constant, the cells in ascending order, none of them 0 times; it is plain where nothing else is in it.
#[derive(Drop)]
pub struct Form {
    pub constant: i64,
    pub cells: Vec<Coefficient>,
    pub plain: bool,
}

impl Coefficient {
    /// Its number as a factor.
    pub fn factor(&self) -> Factor
        ensures { result.k ≡ self.now.k }
    {
        Factor { k: self.k }
    }
}

impl Form {
    /// No cell and nothing else is in it.
    pub fn is_constant(&self) -> bool
        ensures { result ≡ rule.is_constant (form_of self.now) }
    {
        if !self.plain {
            return false;
        }
        self.cells.is_empty()
    }

    /// Its constant as a factor.
    pub fn factor(&self) -> Factor
        ensures { result.k ≡ self.now.constant }
    {
        Factor { k: self.constant }
    }
}
