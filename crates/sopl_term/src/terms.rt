//! Terms are added.

ghost use Rattle.std.specs.Prelude.{◌≡◌, ◌<◌, ◌≤◌, length};
ghost use Rattle.term_language.specs.Terms as term;
ghost use Rattle.term_language.specs.Sizes as sizes;
ghost use Rattle.sopl_base.specs.declared.extreme.Extreme.TheVariants as which;
ghost use Rattle.sopl_base.specs.declared.limits.TheConstants as largest;
ghost use Rattle.term_language.specs.declared.made.Operation.TheVariants as made;
ghost use Rattle.term_nodes.specs.Things.{a_term, thing_at};
ghost use Rattle.term_store.specs.declared.additions.NewTerm.TheVariants as new;
ghost use Rattle.sopl_term.specs.Built.{CanAddTerm, HasAddedTerm, IsBuilding, built, root_built};

use crate::builder::Builder;
use sopl_base::Fault;
use term_math::{Divisor, Extreme, Operation};
use term_store::{CondId, NewTerm, TableId, TermId};

impl Builder {
    /// A term: what was added before is as it was, and the number stands for the term; it is refused where its size passes 2^40.
    pub fn add_term(&mut self, new: &NewTerm<'_>) -> Result<TermId, Fault>
        requires can { CanAddTerm self.old new.now }
        ensures added { HasAddedTerm self.old self.new new.now result }
    {
        self.draft.store.add_term(new)
    }

    /// A number.
    pub fn constant(&mut self, value: i64) -> Result<TermId, Fault>
        requires can { CanAddTerm self.old (new.Constant value) }
        ensures added { HasAddedTerm self.old self.new (new.Constant value) result }
    {
        self.add_term(&NewTerm::Constant(value))
    }

    /// A cell, as one term more; the term that each cell has from the start is `cell_term`.
    pub fn cell(&mut self, cell: u32) -> Result<TermId, Fault>
        requires can { CanAddTerm self.old (new.Cell cell) }
        requires exists { cell < length (root_built self.old).lows }
        ensures added { HasAddedTerm self.old self.new (new.Cell cell) result }
    {
        self.add_term(&NewTerm::Cell(cell))
    }

    /// The term that a cell has from the start, so that nothing need be added for a mention of the cell.
    #[tactic(auto, using(crate::proofs::CellNodes::cell_there, crate::proofs::CellNodes::cell_exists, crate::proofs::CellNodes::cell_stands, crate::proofs::CellNodes::cell_small))]
    pub fn cell_term(&self, cell: u32) -> TermId
        requires building { IsBuilding self.now }
        requires exists { cell < length (root_built self.now).lows }
        ensures exists { result.0 < length (built self.now) }
        ensures is { thing_at (built self.now) result.0 ≡ a_term (term.Cell cell) }
        ensures small { sizes.size (root_built self.now) (term.Cell cell) ≤ largest.TERM_SIZE }
    {
        TermId(self.draft.nodes[cell as usize])
    }

    /// A sum, of which the parts that come with `true` are subtracted.
    pub fn sum(&mut self, parts: &[(bool, TermId)]) -> Result<TermId, Fault>
        requires can { CanAddTerm self.old (new.Sum parts) }
        ensures added { HasAddedTerm self.old self.new (new.Sum parts.entry) result }
    {
        self.add_term(&NewTerm::Sum(parts))
    }

    /// A product.
    pub fn product(&mut self, a: TermId, b: TermId) -> Result<TermId, Fault>
        requires can { CanAddTerm self.old (new.Product a b) }
        ensures added { HasAddedTerm self.old self.new (new.Product a b) result }
    {
        self.add_term(&NewTerm::Product(a, b))
    }

    /// A quotient by a number, cut towards 0.
    pub fn quotient(&mut self, a: TermId, divisor: i64) -> Result<TermId, Fault>
        requires can { CanAddTerm self.old (new.Operation (made.Quotient (record { number = divisor })) a) }
        ensures added { HasAddedTerm self.old self.new (new.Operation (made.Quotient (record { number = divisor })) a) result }
    {
        let by = Divisor { number: divisor };
        self.add_term(&NewTerm::Operation(Operation::Quotient(by), a))
    }

    /// A remainder by a number, with the sign of what is divided.
    pub fn remainder(&mut self, a: TermId, divisor: i64) -> Result<TermId, Fault>
        requires can { CanAddTerm self.old (new.Operation (made.Remainder (record { number = divisor })) a) }
        ensures added { HasAddedTerm self.old self.new (new.Operation (made.Remainder (record { number = divisor })) a) result }
    {
        let by = Divisor { number: divisor };
        self.add_term(&NewTerm::Operation(Operation::Remainder(by), a))
    }

    /// The least of terms, of which there is at least one.
    pub fn least(&mut self, parts: &[TermId]) -> Result<TermId, Fault>
        requires can { CanAddTerm self.old (new.Extreme which.Least parts) }
        ensures added { HasAddedTerm self.old self.new (new.Extreme which.Least parts.entry) result }
    {
        self.add_term(&NewTerm::Extreme(Extreme::Least, parts))
    }

    /// The greatest of terms, of which there is at least one.
    pub fn greatest(&mut self, parts: &[TermId]) -> Result<TermId, Fault>
        requires can { CanAddTerm self.old (new.Extreme which.Greatest parts) }
        ensures added { HasAddedTerm self.old self.new (new.Extreme which.Greatest parts.entry) result }
    {
        self.add_term(&NewTerm::Extreme(Extreme::Greatest, parts))
    }

    /// The size of a number, as `abs` gives it.
    pub fn size(&mut self, a: TermId) -> Result<TermId, Fault>
        requires can { CanAddTerm self.old (new.Operation made.Size a) }
        ensures added { HasAddedTerm self.old self.new (new.Operation made.Size a) result }
    {
        self.add_term(&NewTerm::Operation(Operation::Size, a))
    }

    /// The element of an array at indices, one for each dimension; at other indices than the array's it is undefined.
    pub fn element(&mut self, table: TableId, at: &[TermId]) -> Result<TermId, Fault>
        requires can { CanAddTerm self.old (new.Element table at) }
        ensures added { HasAddedTerm self.old self.new (new.Element table at.entry) result }
    {
        self.add_term(&NewTerm::Element(table, at))
    }

    /// A condition as a number: 1 where it holds, else 0.
    pub fn number(&mut self, cond: CondId) -> Result<TermId, Fault>
        requires can { CanAddTerm self.old (new.Number cond) }
        ensures added { HasAddedTerm self.old self.new (new.Number cond) result }
    {
        self.add_term(&NewTerm::Number(cond))
    }
}
