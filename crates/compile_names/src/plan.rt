//! The sets of an array, and which element stands at each index.

ghost use Rattle.std.specs.Prelude.{◌≡◌, map, IfOk};
ghost use Rattle.sopl_ast.specs.References.{now_of};
ghost use Rattle.compile_laws.specs.Instances as instances;
ghost use Rattle.term_math.specs.Kept as kept;
ghost use Rattle.term_language.specs.Arrays.{indices};
ghost use Rattle.compile_names.specs.Plans.{order_of, place_among};

use crate::first_places::Places;
use crate::sets::sets_of;
use std::alloc::{AllocError, Global};

/// The index sets of an array, and for each index of them, in lexicographic order, the number of the first element that has it.
#[derive(Debug, Drop)]
pub struct Plan {
    pub sets: Vec<Vec<i64>>,
    pub order: Vec<Option<usize>>,
}

impl Plan {
    /// The plan of elements with these indices; where there is none, there is one set with no number. An index that no element has, as
    /// there is none where the elements have all indices of some sets, has no element in the order.
    pub fn of(alloc: Global, given: &[&[i64]]) -> Result<Plan, AllocError>
        ensures sets { IfOk result (λ plan. kept.sets_of plan.sets.items ≡ instances.sets_of (map now_of given.now)) }
        ensures order { IfOk result (λ plan. plan.order.items ≡ order_of (map now_of given.now)) }
    {
        let sets = sets_of(alloc, given)?;
        let order = ordered(alloc, given, sets.as_slice())?;
        Ok(Plan { sets, order })
    }
}

/// For each index of sets, in lexicographic order, the number of the first element that has it.
#[tactic(auto, using(crate::proofs::Ordering::order_is))]
fn ordered(
    alloc: Global,
    given: &[&[i64]],
    sets: &[Vec<i64>],
) -> Result<Vec<Option<usize>>, AllocError>
    ensures { IfOk result (λ order. order.items ≡ map (place_among 0 (map now_of given.now)) (indices (kept.sets_of sets.now))) }
{
    let places = Places::of(alloc, given)?;
    let mut index = Vec::new(alloc);
    let mut order = Vec::new(alloc);
    places.list(&mut index, sets, &mut order)?;
    Ok(order)
}
