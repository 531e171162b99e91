//! Where the rows of a log begin, and which rows are the sides of each.

ghost use Rattle.std.specs.Prelude.{◌≡◌, ◌<◌, ◌≤◌, ◌^◌, ◌++◌, ◌∷◌, [], length, vec_capacity};
ghost use Rattle.log_rows.specs.Rows.{AreOrdered};
ghost use Rattle.log_check.specs.Sides as spec;
ghost use Rattle.log_check.specs.Verdicts.{first_line};

use log_rows::{Parent, Row};
use sopl_base::Side;

/// The line at which a row begins, and the rows that are its low and its high side, where there are any.
#[derive(Clone, Copy)]
pub(crate) struct Sides {
    pub(crate) line: u64,
    pub(crate) low: Option<usize>,
    pub(crate) high: Option<usize>,
}

impl Sides {
    /// This row's sides with a row as one of them.
    fn with(&self, side: Side, row: usize) -> Sides
        ensures with { result ≡ spec.with_row self.now side row }
    {
        match side {
            Side::Le => Sides {
                line: self.line,
                low: Some(row),
                high: self.high,
            },
            Side::Ge => Sides {
                line: self.line,
                low: self.low,
                high: Some(row),
            },
        }
    }
}

/// Makes a row the side of its parent.
fn take_side(sides: &mut Vec<Sides>, parent: &Option<Parent>, row: usize)
    requires within { spec.IsParentWithin (length sides.old.items) parent.now }
    ensures taken { sides.new.items ≡ spec.with_side sides.old.items parent.now row }
    ensures capacity { vec_capacity sides.new ≡ vec_capacity sides.old }
{
    match parent {
        None => (),
        Some(split) => {
            let at = split.node as usize;
            let before = sides[at];
            sides[at] = before.with(split.side, row);
        }
    }
}

/// Adds a row that begins at a line.
fn add_row(sides: &mut Vec<Sides>, parent: &Option<Parent>, row: usize, line: u64)
    requires within { spec.IsParentWithin (length sides.old.items) parent.now }
    requires room { length sides.old.items < vec_capacity sides.old }
    ensures added { sides.new.items ≡ spec.with_side sides.old.items parent.now row ++ spec.row_begins line ∷ [] }
    ensures capacity { vec_capacity sides.new ≡ vec_capacity sides.old }
{
    take_side(sides, parent, row);
    sides.push_reserved(Sides {
        line,
        low: None,
        high: None,
    });
}

/// Fills the table anew, with the first line and the sides of each row.
pub(crate) fn fill_sides(sides: &mut Vec<Sides>, rows: &[Row])
    requires ordered { AreOrdered rows.now }
    requires room { length rows.now ≤ vec_capacity sides.old }
    requires fits { first_line rows.now (length rows.now) < 2 ^ 64 }
    ensures sides { spec.AreSides rows.now sides.new.items }
    ensures capacity { vec_capacity sides.new ≡ vec_capacity sides.old }
{
    sides.clear();
    let mut line = 2_u64;
    'rows: for at in 0..rows.len() {
        let row = &rows[at];
        add_row(sides, &row.parent, at, line);
        line += 2 + row.steps.as_slice().len() as u64;
    }
}
