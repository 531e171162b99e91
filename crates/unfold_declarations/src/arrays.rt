//! The dimensions of arrays, the prefixes of their indices, and the walk through them.

ghost use Rattle.std.specs.Prelude.{◌≡◌, [], ◌∷◌, ◌++◌, length, option_map, if◌then◌else◌, Some, None, IfOk, OnOk};
ghost use Rattle.sopl_ast.specs.Arrays.{taking as taking_in, dimensions_of, dimension_events};
ghost use Rattle.unfold_constants.specs.Choosing.{advanced, left};
ghost use Rattle.unfold_constants.specs.CountedAnswers.{Answers};
ghost use Rattle.unfold_tables.specs.Tables.{shown};
ghost use Rattle.unfold_tables.specs.Walks.{Walks};
ghost use Rattle.unfold_constants.specs.Here.{known_in};
ghost use Rattle.unfold_declarations.specs.Declaring as spec;
ghost use Rattle.unfold_declarations.specs.Places.{any_empty as any_empty_in, give_dimension, leave_dimension, losing};
ghost use Rattle.unfold_declarations.specs.Shown.{dimensions_in, dimensions_open, prefix_in, open_dimension};

use crate::calls::numbers_at;
use smallvec::SmallVec;
use sopl_ast::{Dim, Name};
use sopl_base::Fault;
use std::alloc::{AllocError, Global};
use unfold_constants::ConstantScope;
use unfold_tables::{Count, Numbers};

/// A dimension of an array: the name that stands for its index, if it has one, and the numbers of its index set in ascending order.
#[derive(Clone, Copy)]
pub struct Dimension<'a> {
    pub name: Option<&'a Name>,
    pub numbers: Numbers<'a>,
}

/// The dimensions of an array, whose ranges are evaluated in order.
pub fn dimensions<'a>(
    alloc: Global,
    known: &ConstantScope<'a>,
    count: &mut Count,
    dims: &'a [Dim],
) -> Result<Vec<Dimension<'a>>, Fault>
    ensures met { Walks count.old.counted count.new.counted (dimension_events (known_in known.now) dims.now) result }
    ensures found { IfOk result (λ found. dimensions_in found.items ≡ dimensions_of (known_in known.now) dims.now) }
{
    listed_dimensions(alloc, known, count, dims)
}

/// Lists the dimensions of an array, as a step that counts what was evaluated.
pub(crate) fn listed_dimensions<'a>(
    alloc: Global,
    known: &ConstantScope<'a>,
    count: &mut Count,
    dims: &'a [Dim],
) -> Result<Vec<Dimension<'a>>, Fault>
    ensures { Answers (λ found. dimensions_in found.items) count.new.counted result (spec.dimensions (known_in known.now) [] dims.now count.old.counted) }
{
    let mut found = Vec::new(alloc);
    'dims: for dim in dims {
        let numbers = numbers_at(known, count, &dim.range)?;
        add(&mut found, dim, &numbers)?;
    }
    Ok(found)
}

/// Adds a dimension at the end.
fn add<'a>(
    found: &mut Vec<Dimension<'a>>,
    dim: &'a Dim,
    numbers: &Numbers<'a>,
) -> Result<(), AllocError>
    ensures { OnOk result (dimensions_in found.new.items
        ≡ dimensions_in found.old.items ++ (record { name = dim.now.binder; numbers = shown numbers.now }) ∷ []) }
{
    found.push(Dimension {
        name: dim.binder.as_ref(),
        numbers: *numbers,
    })?;
    Ok(())
}

/// Whether one of the dimensions has no numbers, so that there is no index.
#[tactic(auto, using(crate::proofs::Walking::emptiness))]
pub fn any_empty(dimensions: &[Dimension<'_>]) -> bool
    ensures { result ≡ any_empty_in (dimensions_in dimensions.now) }
{
    'dimensions: for dimension in dimensions {
        if dimension.numbers.has_length(0) {
            return true;
        }
    }
    false
}

/// Where elements of an array are evaluated: what is known there, and the prefix of their indices.
#[derive(Drop)]
pub struct IndexPrefix<'a> {
    pub alloc: Global,
    pub known: ConstantScope<'a>,
    pub index: SmallVec<i64, 4>,
}

/// A name, if there is one, stands for a number.
fn bind<'a>(
    known: &mut ConstantScope<'a>,
    name: Option<&'a Name>,
    number: i64,
) -> Result<(), AllocError>
    ensures { OnOk result (known_in known.new ≡ taking_in (option_map (λ n. n.now) name.entry) number (known_in known.old)) }
{
    match name {
        None => Ok(()),
        Some(name) => known.bind(name, number),
    }
}

/// Takes away what a name, if there is one, stands for; it is the last one that was bound.
fn forget(known: &mut ConstantScope<'_>, name: Option<&Name>)
    ensures { known_in known.new ≡ losing (option_map (λ n. n.now) name.entry) (known_in known.old) }
{
    match name {
        None => {}
        Some(_) => known.forget(),
    }
}

impl<'a> IndexPrefix<'a> {
    /// Where no number of an index is there yet.
    pub fn new(alloc: Global, known: &ConstantScope<'a>) -> Result<IndexPrefix<'a>, AllocError>
        ensures known { IfOk result (λ prefix. known_in prefix.known ≡ known_in known.now) }
        ensures index { IfOk result (λ prefix. prefix.index.items ≡ []) }
    {
        Ok(IndexPrefix {
            alloc,
            known: known.copy()?,
            index: SmallVec::new(alloc),
        })
    }

    /// A copy of this prefix.
    fn copy(&self) -> Result<IndexPrefix<'a>, AllocError>
        ensures { IfOk result (λ prefix. prefix_in prefix ≡ prefix_in self.now) }
    {
        Ok(IndexPrefix {
            alloc: self.alloc,
            known: self.known.copy()?,
            index: SmallVec::from_slice(self.alloc, self.index.as_slice())?,
        })
    }

    /// This prefix with one number more of a dimension, for which its name stands, if it has one.
    pub(crate) fn longer(
        &self,
        name: Option<&'a Name>,
        number: i64,
    ) -> Result<IndexPrefix<'a>, AllocError>
        ensures { IfOk result (λ prefix. prefix_in prefix ≡ give_dimension (option_map (λ n. n.now) name.entry) number (prefix_in self.now)) }
    {
        let mut prefix = self.copy()?;
        prefix.take(name, number)?;
        Ok(prefix)
    }

    /// Adds a number of a dimension, for which its name stands, if it has one.
    fn take(&mut self, name: Option<&'a Name>, number: i64) -> Result<(), AllocError>
        ensures { OnOk result (prefix_in self.new ≡ give_dimension (option_map (λ n. n.now) name.entry) number (prefix_in self.old)) }
    {
        bind(&mut self.known, name, number)?;
        self.index.push(number)?;
        Ok(())
    }

    /// Takes away the number of a dimension, the last one, and what its name stands for.
    fn leave(&mut self, name: Option<&Name>)
        ensures { prefix_in self.new ≡ leave_dimension (option_map (λ n. n.now) name.entry) (prefix_in self.old) }
    {
        forget(&mut self.known, name);
        self.index.pop();
    }
}

/// The dimensions that are open, the innermost last, each with the numbers that it has not had yet; and the prefix of the indices in which all of them but perhaps
/// the innermost have taken a number. However many there are, there is no recursion for them.
#[derive(Drop)]
pub struct IndexWalk<'a> {
    pub prefix: IndexPrefix<'a>,
    kept: Vec<Dimension<'a>>,
}

#[tactic(auto, using(crate::proofs::Walking::walking))]
impl<'a> IndexWalk<'a> {
    /// Where the indices begin with a prefix, and no dimension behind it is open.
    pub fn new(prefix: &IndexPrefix<'a>) -> Result<IndexWalk<'a>, AllocError>
        ensures prefix { IfOk result (λ walk. prefix_in walk.prefix ≡ prefix_in prefix.now) }
        ensures kept { IfOk result (λ walk. dimensions_open walk ≡ []) }
    {
        Ok(IndexWalk {
            prefix: prefix.copy()?,
            kept: Vec::new(prefix.alloc),
        })
    }

    /// How many dimensions are open.
    pub fn depth(&self) -> usize
        ensures { result ≡ length (dimensions_open self.now) }
    {
        self.kept.len()
    }

    /// Opens a dimension inside the others.
    pub fn begin(&mut self, dimension: &Dimension<'a>) -> Result<(), AllocError>
        ensures prefix { OnOk result (prefix_in self.new.prefix ≡ prefix_in self.old.prefix) }
        ensures kept { OnOk result (dimensions_open self.new ≡ open_dimension dimension.now ∷ dimensions_open self.old) }
    {
        self.kept.push(*dimension)?;
        Ok(())
    }

    /// The innermost dimension, if one is open, gives its number up.
    pub fn leave(&mut self)
        ensures prefix { prefix_in self.new.prefix ≡ left leave_dimension (prefix_in self.old.prefix) (dimensions_open self.old) }
        ensures kept { dimensions_open self.new ≡ dimensions_open self.old }
    {
        if let Some(dimension) = self.kept.last() {
            self.prefix.leave(dimension.name);
        }
    }

    /// Gives the innermost dimension that has a number left the next one, and closes those inside it, which have none; false where no dimension has one left.
    pub fn advance(&mut self) -> Result<bool, AllocError>
        ensures { IfOk result (λ more. (if more then Some (prefix_in self.new.prefix, dimensions_open self.new) else None)
            ≡ advanced give_dimension leave_dimension (prefix_in self.old.prefix) (dimensions_open self.old)) }
    {
        'kept: while let Some(dimension) = self.kept.pop() {
            if let Some((number, later)) = dimension.numbers.split_first() {
                let name = dimension.name;
                self.begin(&Dimension {
                    name,
                    numbers: later,
                })?;
                self.prefix.take(name, number)?;
                return Ok(true);
            }
            self.leave();
        }
        Ok(false)
    }
}
