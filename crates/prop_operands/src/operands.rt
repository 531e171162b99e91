//! Operands, and their intervals.

ghost use Rattle.std.specs.Prelude.{◌≡◌, ◌+◌, ◌<◌, ◌≤ℤ◌, length, true, false, All, IfOk, take};
ghost use Rattle.box_problem.specs.Box.{Inside, high, low};
ghost use Rattle.prop_shave.specs.Sums.{has_cell};
ghost use Rattle.term_language.specs.Ends as rule;
ghost use Rattle.term_language.specs.declared.answers.Defined.TheVariants.{Never};
ghost use Rattle.term_math.specs.Shown.{ends_of};
ghost use Rattle.term_nodes.specs.Built.{AllBelow};
ghost use Rattle.term_program.specs.Globals.{term_ids};
ghost use Rattle.term_program.specs.Programs.{IsMade, ends_in, root_in, things_in, with_interval};
ghost use Rattle.prop_operands.specs.Kept.{AreOperands, AreSeen, IsOperand, operand_ids, operands_mark};

use box_store::BoxStore;
use prop_shave::has;
use sopl_base::Interval;
use std::alloc::{AllocError, Global};
use term_language::Defined;
use term_math::Ends;
use term_program::{Program, Range, TermId, range_in, range_of};

/// A term of a program, and the cells that it mentions.
#[derive(Drop)]
pub struct Operand {
    pub(crate) term: TermId,
    pub(crate) cells: Vec<u32>,
}

/// Several terms of a program, with room for the interval of each: over the box of a store, and over a part of it.
#[derive(Drop)]
pub struct Operands {
    pub(crate) list: Vec<Operand>,
    pub(crate) known: Vec<Ends>,
    pub(crate) tried: Vec<Ends>,
}

/// An operand of a program.
fn operand_of(program: &Program, term: TermId) -> Result<Operand, AllocError>
    requires made { IsMade program.now }
    requires exists { term.0 < length (things_in program.now) }
    ensures operand { IfOk result (IsOperand program.now) }
    ensures term { IfOk result (λ x. x.term ≡ term) }
{
    let cells = program.cells_in(term)?;
    Ok(Operand { term, cells })
}

/// Room for so many intervals.
fn room(alloc: Global, count: usize) -> Result<Vec<Ends>, AllocError>
    ensures { IfOk result (λ list. length list.items ≡ count) }
{
    Vec::from_elem(alloc, Ends { low: 0, high: 0 }, count)
}

/// The operands that these terms are.
#[tactic(auto, using(crate::proofs::Keeping::none_listed, crate::proofs::Keeping::next_listed, crate::proofs::Keeping::all_listed))]
fn list_of(alloc: Global, program: &Program, terms: &[TermId]) -> Result<Vec<Operand>, AllocError>
    requires made { IsMade program.now }
    requires exist { AllBelow (length (things_in program.now)) (term_ids terms.now) }
    ensures each { IfOk result (λ list. All (IsOperand program.now) list.items) }
    ensures terms { IfOk result (λ list. operand_ids list.items ≡ term_ids terms.now) }
{
    let mut list = Vec::new(alloc);
    'terms: for term in terms {
        list.push(operand_of(program, *term)?)?;
    }
    Ok(list)
}

/// The ends of a range.
fn ends_of_range(range: &Range) -> Ends
    ensures { ends_of result ≡ ends_in range.now.interval }
{
    Ends {
        low: range.interval.lo,
        high: range.interval.hi,
    }
}

/// Whether a term is Never defined.
fn is_never(range: &Range) -> bool
    ensures never { result ≡ true → range.now.defined ≡ Never }
    ensures ever { result ≡ false → ¬ range.now.defined ≡ Never }
{
    match range.defined {
        Defined::Never => true,
        Defined::Maybe => false,
        Defined::Always => false,
    }
}

impl Operands {
    /// The operands that these terms are, which exist.
    pub fn new(alloc: Global, program: &Program, terms: &[TermId]) -> Result<Operands, AllocError>
        requires made { IsMade program.now }
        requires exist { AllBelow (length (things_in program.now)) (term_ids terms.now) }
        ensures operands { IfOk result (AreOperands program.now) }
        ensures terms { IfOk result (λ made. operand_ids made.list.items ≡ term_ids terms.now) }
    {
        let list = list_of(alloc, program, terms)?;
        let known = room(alloc, list.len())?;
        let tried = room(alloc, list.len())?;
        Ok(Operands { list, known, tried })
    }

    /// Sees one operand over the box of a store, or tells that it is Never defined there.
    fn look_at(&mut self, program: &Program, store: &BoxStore, place: usize) -> bool
        requires made { IsMade program.now }
        requires operands { AreOperands program.now self.old }
        requires inside { Inside store.now.box (root_in program.now) }
        requires exists { place < length self.old.list.items }
        ensures operands { AreOperands program.now self.new }
        ensures list { self.new.list ≡ self.old.list }
        ensures never { result ≡ false → operands_mark program.now self.old.list.items store.now.box ≡ Never }
        ensures seen { result ≡ true → AreSeen program.now store.now.box (take place self.old.list.items) (take place self.old.known.items)
            → AreSeen program.now store.now.box (take (place + 1) self.old.list.items) (take (place + 1) self.new.known.items) }
    {
        let range = range_of(program, self.list[place].term, store);
        if is_never(&range) {
            return false;
        }
        self.known[place] = ends_of_range(&range);
        true
    }

    /// Sees all operands over the box of a store, or tells that one of them is Never defined there.
    pub fn look(&mut self, program: &Program, store: &BoxStore) -> bool
        requires made { IsMade program.now }
        requires operands { AreOperands program.now self.old }
        requires inside { Inside store.now.box (root_in program.now) }
        ensures operands { AreOperands program.now self.new }
        ensures list { self.new.list ≡ self.old.list }
        ensures never { result ≡ false → operands_mark program.now self.old.list.items store.now.box ≡ Never }
        ensures seen { result ≡ true → AreSeen program.now store.now.box self.old.list.items self.new.known.items }
    {
        'places: for place in 0..self.list.len() {
            if !self.look_at(program, store, place) {
                return false;
            }
        }
        true
    }

    /// Sees one operand over a part of the box of a store, or tells that it is Never defined there. What does not mention the cell is as it was.
    fn try_at(
        &mut self,
        program: &Program,
        store: &BoxStore,
        cell: u32,
        part: Interval,
        place: usize,
    ) -> bool
        requires made { IsMade program.now }
        requires operands { AreOperands program.now self.old }
        requires inside { Inside store.now.box (root_in program.now) }
        requires from_low { low (root_in program.now) cell ≤ℤ part.lo }
        requires to_high { part.hi ≤ℤ high (root_in program.now) cell }
        requires seen { AreSeen program.now store.now.box self.old.list.items self.old.known.items }
        requires exists { place < length self.old.list.items }
        ensures operands { AreOperands program.now self.new }
        ensures list { self.new.list ≡ self.old.list }
        ensures known { self.new.known ≡ self.old.known }
        ensures never { result ≡ false → operands_mark program.now self.old.list.items (with_interval store.now.box cell part.lo part.hi) ≡ Never }
        ensures seen { result ≡ true
            → AreSeen program.now (with_interval store.now.box cell part.lo part.hi) (take place self.old.list.items) (take place self.old.tried.items)
            → AreSeen program.now (with_interval store.now.box cell part.lo part.hi) (take (place + 1) self.old.list.items) (take (place + 1) self.new.tried.items) }
    {
        if !has(self.list[place].cells.as_slice(), cell) {
            self.tried[place] = self.known[place];
            return true;
        }
        let range = range_in(program, self.list[place].term, store, cell, part);
        if is_never(&range) {
            return false;
        }
        self.tried[place] = ends_of_range(&range);
        true
    }

    /// Sees all operands over the part of the box of a store in which a cell has another interval, or tells that one of them is Never defined there.
    pub fn try_with(
        &mut self,
        program: &Program,
        store: &BoxStore,
        cell: u32,
        part: Interval,
    ) -> bool
        requires made { IsMade program.now }
        requires operands { AreOperands program.now self.old }
        requires inside { Inside store.now.box (root_in program.now) }
        requires from_low { low (root_in program.now) cell ≤ℤ part.lo }
        requires to_high { part.hi ≤ℤ high (root_in program.now) cell }
        requires seen { AreSeen program.now store.now.box self.old.list.items self.old.known.items }
        ensures operands { AreOperands program.now self.new }
        ensures list { self.new.list ≡ self.old.list }
        ensures known { self.new.known ≡ self.old.known }
        ensures never { result ≡ false → operands_mark program.now self.old.list.items (with_interval store.now.box cell part.lo part.hi) ≡ Never }
        ensures seen { result ≡ true → AreSeen program.now (with_interval store.now.box cell part.lo part.hi) self.old.list.items self.new.tried.items }
    {
        'places: for place in 0..self.list.len() {
            if !self.try_at(program, store, cell, part, place) {
                return false;
            }
        }
        true
    }

    /// The intervals over the box that was looked at.
    pub fn known(&self) -> &[Ends]
        ensures { result.now ≡ self.now.known.items }
    {
        self.known.as_slice()
    }

    /// The intervals over the part that was tried last.
    pub fn tried(&self) -> &[Ends]
        ensures { result.now ≡ self.now.tried.items }
    {
        self.tried.as_slice()
    }
}
