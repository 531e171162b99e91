//! Decisions that have the same domain and the same stage at each index of their array, which are evaluated once.

ghost use Rattle.std.specs.Prelude.{◌≡◌, is_some, option_map, IfOk, IfSome, Ok};
ghost use Rattle.std.specs.List.{list_any};
ghost use Rattle.sopl_ast.specs.Ranges.{range_of};
ghost use Rattle.unfold_constants.specs.CountedAnswers.{Answers};
ghost use Rattle.unfold_constants.specs.Here.{known_in};
ghost use Rattle.unfold_variables.specs.Equal.{AreEqual, parts_in};
ghost use Rattle.unfold_variables.specs.Listing as spec;

use crate::arrays::{Element, array};
use crate::domains::{domain, stage};
use crate::elements::{DecisionArray, decision};
use crate::items::DecisionItem;
use sopl_ast::{Dim, Expr, Name, RangeText};
use sopl_base::Fault;
use std::alloc::{AllocError, Global};
use unfold_constants::ConstantScope;
use unfold_declarations::IndexPrefix;
use unfold_tables::{Count, Ends};

/// The domain and the stage of a decision.
#[derive(Clone, Copy, Debug)]
pub struct DecisionParts {
    pub domain: Ends,
    pub stage: u32,
}

/// A decision at each index, with this domain and this stage.
#[derive(Clone, Copy)]
struct EqualDecisions<'a> {
    name: &'a Name,
    parts: DecisionParts,
}

impl Element<DecisionItem> for EqualDecisions<'_> {
    ghost use Rattle.unfold_constants.specs.Evaluation.{done};

    ghost step = { λ array known index. done (record {
      name = array.name.now;
      index = index;
      lo = array.parts.domain.lo;
      hi = array.parts.domain.hi;
      stage = array.parts.stage;
    }) };

    fn at(&self, prefix: &IndexPrefix<'_>, _count: &mut Count) -> Result<DecisionItem, Fault> {
        let parts = self.parts;
        Ok(decision(prefix, self.name, &parts.domain, parts.stage)?)
    }
}

/// Whether a name goes over a dimension.
fn is_named(dim: &Dim) -> bool
    ensures { result ≡ is_some dim.now.binder }
{
    dim.binder.is_some()
}

/// Whether a name goes over one of the dimensions.
fn any_named(dims: &[Dim]) -> bool
    ensures { result ≡ list_any (λ d. is_some d.binder) dims.now }
{
    dims.iter().any(|dim| is_named(dim))
}

/// The domain and the stage of a decision, where they stand.
fn decision_parts<'a>(
    known: &ConstantScope<'a>,
    count: &mut Count,
    range: &'a RangeText,
    e: Option<&'a Expr>,
) -> Result<DecisionParts, Fault>
    ensures { Answers parts_in count.new.counted result
        (spec.decision_parts (known_in known.now) (range_of range.now) (option_map (λ x. x.now) e.entry) count.old.counted) }
{
    let domain = domain(known, count, range)?;
    let stage = stage(known, count, e)?;
    Ok(DecisionParts { domain, stage })
}

/// What was answered, or none where the text is refused or passes a limit.
fn answered(met: Result<DecisionParts, Fault>) -> Result<Option<DecisionParts>, AllocError>
    ensures { IfOk result (λ found. IfSome found (λ parts. met ≡ Ok parts)) }
{
    match met {
        Ok(parts) => Ok(Some(parts)),
        Err(Fault::NoMemory) => Err(AllocError),
        Err(_) => Ok(None),
    }
}

/// The domain and the stage that all decisions of an array have, where its dimensions have no names, so that what is known is the same at each index, and
/// nothing is counted or refused in what they are evaluated from.
fn equal_parts<'a>(
    known: &ConstantScope<'a>,
    dims: &'a [Dim],
    element: &DecisionArray<'a>,
) -> Result<Option<DecisionParts>, AllocError>
    ensures { IfOk result (λ found. IfSome found (λ parts.
        AreEqual (known_in known.now) element.now.name.now dims.now (range_of element.now.range.now) (option_map (λ e. e.now) element.now.stage) parts)) }
{
    if any_named(dims) {
        return Ok(None);
    }
    let mut count = Count::new();
    let met = decision_parts(known, &mut count, element.range, element.stage);
    if count.counted != 0 {
        return Ok(None);
    }
    let parts = answered(met)?;
    Ok(parts)
}

/// The decisions of an array.
pub(crate) fn decision_array<'a>(
    alloc: Global,
    known: &ConstantScope<'a>,
    count: &mut Count,
    dims: &'a [Dim],
    element: &DecisionArray<'a>,
) -> Result<Vec<DecisionItem>, Fault>
    ensures { Answers (λ found. found.items) count.new.counted result
        (spec.array (λ here index. spec.decision here element.now.name.now (range_of element.now.range.now) (option_map (λ e. e.now) element.now.stage) index)
        (known_in known.now) dims.now count.old.counted) }
{
    match equal_parts(known, dims, element)? {
        Some(parts) => {
            let name = element.name;
            array(alloc, known, count, dims, &EqualDecisions { name, parts })
        }
        None => array(alloc, known, count, dims, element),
    }
}
