//! The mistakes of initial values.

ghost use Rattle.std.specs.Prelude.{◌≡◌, map, IfOk};
ghost use Rattle.sopl_ast.specs.Inits.{init_tree};
ghost use Rattle.sopl_ast.specs.Mistakes.{of_init, of_inits, first_of, wrong_depths};
ghost use Rattle.sopl_ast.specs.Whole.{inits};
ghost use Rattle.sopl_types.specs.Depths as spec;
ghost use Rattle.sopl_types.specs.Depths.{wrong_left, wrong_left_parts};
ghost use Rattle.sopl_types.specs.Earliest.{earliest};
ghost use Rattle.sopl_types.specs.Known.{known_in};

use crate::mistakes::{earlier, unless};
use crate::names::Names;
use sopl_ast::Init;
use sopl_base::{Refusal, codes};
use std::alloc::AllocError;

#[tactic(auto, using(crate::proofs::InitWalks::init_walks))]
impl<'a> Names<'a> {
    /// The first mistake of the expressions of an initial value.
    #[cycle(initial)]
    pub fn initial(&self, value: &'a Init) -> Result<Option<Refusal>, AllocError>
        ensures { IfOk result (λ first. first ≡ earliest (of_init (known_in self.now) (init_tree value.now))) }
    {
        match value {
            Init::One(e) => self.number(true, e),
            Init::Many { parts, .. } => self.initial_parts(parts.as_slice()),
        }
    }

    #[cycle(initial)]
    fn initial_parts(&self, parts: &'a [Init]) -> Result<Option<Refusal>, AllocError>
        ensures { IfOk result (λ first. first ≡ earliest (of_inits (known_in self.now) (inits (map init_tree parts.now)))) }
    {
        let mut first = None;
        'parts: for part in parts {
            first = earlier(first, self.initial(part)?);
        }
        Ok(first)
    }
}

/// The first expression or empty bracket of an initial value that stands in another number of
/// brackets than there are dimensions.
#[tactic(auto, using(crate::proofs::DepthLemmas::depth_at_top))]
pub fn wrong_depth(dims: usize, value: &Init) -> Option<Refusal>
    ensures { result ≡ earliest (first_of (wrong_depths dims 0 (init_tree value.now))) }
{
    match value {
        Init::One(_) => None,
        Init::Many { .. } => wrong_inside(Some(dims), value),
    }
}

/// The first such place inside an initial value; `left` is how many brackets may follow, and none where there are too many.
#[cycle(depths)]
#[tactic(auto, using(crate::proofs::InitWalks::init_walks, crate::proofs::DepthLemmas::depths))]
fn wrong_inside(left: Option<usize>, value: &Init) -> Option<Refusal>
    ensures { result ≡ earliest (first_of (wrong_left left (init_tree value.now))) }
{
    match value {
        Init::One(e) => unless(is_full(left), codes::DIMENSIONS, e.at),
        Init::Many { at, parts } => {
            let parts = parts.as_slice();
            if parts.is_empty() {
                return unless(has_room(left), codes::DIMENSIONS, *at);
            }
            wrong_parts(one_less(left), parts)
        }
    }
}

#[cycle(depths)]
#[tactic(auto, using(crate::proofs::InitWalks::init_walks, crate::proofs::DepthLemmas::depths))]
fn wrong_parts(left: Option<usize>, parts: &[Init]) -> Option<Refusal>
    ensures { result ≡ earliest (first_of (wrong_left_parts left (inits (map init_tree parts.now)))) }
{
    'parts: for part in parts {
        if let Some(found) = wrong_inside(left, part) {
            return Some(found);
        }
    }
    None
}

fn is_full(left: Option<usize>) -> bool
    ensures { result ≡ spec.is_full left }
{
    match left {
        None => false,
        Some(left) => left == 0,
    }
}

fn has_room(left: Option<usize>) -> bool
    ensures { result ≡ spec.has_room left }
{
    match left {
        None => false,
        Some(left) => 0 < left,
    }
}

#[tactic(auto, using(crate::proofs::DepthLemmas::less_one))]
fn one_less(left: Option<usize>) -> Option<usize>
    ensures { result ≡ spec.one_less left }
{
    match left {
        None => None,
        Some(0) => None,
        Some(left) => Some(left - 1),
    }
}
