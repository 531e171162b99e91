//! From the bytes of a text to its ground problem and its scenarios, or to the first refusal or limit.

ghost use Rattle.std.specs.Prelude.{◌≡◌, Ok, Err, IfOk, IfErr};
ghost use Rattle.sopl_ast.specs.Accepted.{IsTextOf};
ghost use Rattle.sopl_ast.specs.Tokens.{Lexes};
ghost use Rattle.sopl_ast.specs.WholeModel.{whole};
ghost use Rattle.scen_accept.specs.Faults.{IsTextFault};
ghost use Rattle.scen_accept.specs.Shown.{tokens_shown};
ghost use Rattle.scen_accept.specs.Stated.{IsLaid, States};

use crate::accepted::AcceptedProblem;
use sopl_ast::{Model, Token};
use sopl_base::Fault;
use sopl_lex::lex;
use sopl_parse::parse;
use sopl_scen::{Tree, scenarios};
use sopl_types::{Typed, check_types};
use sopl_unfold::{Ground, unfold};
use std::alloc::Global;

/// The tokens of a text.
#[tactic(auto, using(crate::proofs::Texts::tokens_found, crate::proofs::Texts::tokens_refused))]
fn tokens_of(alloc: Global, text: &[u8]) -> Result<Vec<Token>, Fault>
    ensures tokens { IfOk result (λ tokens. Lexes text.now (Ok (tokens_shown tokens))) }
    ensures refused { IfErr result (IsTextFault text.now) }
{
    lex(alloc, text)
}

/// The model that a text spells.
#[tactic(auto, using(crate::proofs::Texts::model_found, crate::proofs::Texts::model_refused))]
fn model_of(alloc: Global, text: &[u8]) -> Result<Model, Fault>
    ensures model { IfOk result (λ model. IsTextOf text.now (whole model)) }
    ensures refused { IfErr result (IsTextFault text.now) }
{
    let tokens = tokens_of(alloc, text)?;
    parse(alloc, tokens.as_slice(), text.len())
}

/// The model that a text spells, without mistakes.
#[tactic(auto, using(crate::proofs::Texts::typed_found, crate::proofs::Texts::typed_refused, crate::proofs::NamesFormed::model_from_tokens))]
pub fn typed_in(alloc: Global, text: &[u8]) -> Result<Typed, Fault>
    ensures model { IfOk result (λ typed. IsTextOf text.now (whole typed.model)) }
    ensures refused { IfErr result (IsTextFault text.now) }
{
    let model = model_of(alloc, text)?;
    check_types(alloc, model)
}

/// The ground problem of a text.
#[tactic(auto, using(crate::proofs::Texts::ground_found, crate::proofs::Texts::ground_refused))]
fn ground_in(alloc: Global, text: &[u8]) -> Result<Ground, Fault>
    ensures model { IfOk result (λ ground. IsTextOf text.now (whole ground.typed.model)) }
    ensures refused { IfErr result (IsTextFault text.now) }
{
    let typed = typed_in(alloc, text)?;
    unfold(alloc, typed)
}

/// A ground problem with its scenarios, where they were made.
fn with_scenarios(ground: Ground, tree: Result<Tree, Fault>) -> Result<AcceptedProblem, Fault>
    ensures stated { IfOk result (λ stated. (stated.ground ≡ ground) × (Ok stated.tree ≡ tree)) }
    ensures refused { IfErr result (λ fault. tree ≡ Err fault) }
{
    Ok(AcceptedProblem {
        ground,
        tree: tree?,
    })
}

/// What a text states, where it is accepted: its model has no mistake, nothing stops its unfolding, and neither its scenarios
/// nor its decisions pass a limit. Else its first refusal or limit, in the order of the tokens (101, 102, 116), the spelling
/// (103, 104), names and kinds (105 to 109), the unfolding (110 to 115, 203, 205, 208), and the sizes (201, 202, 209, 204).
#[tactic(auto, using(crate::proofs::Texts::text_stated, crate::proofs::Texts::text_laid, crate::proofs::Texts::size_refused))]
pub fn stated_in(alloc: Global, text: &[u8]) -> Result<AcceptedProblem, Fault>
    ensures stated { IfOk result (States text.now) }
    ensures laid_out { IfOk result IsLaid }
    ensures refused { IfErr result (IsTextFault text.now) }
{
    let ground = ground_in(alloc, text)?;
    let tree = scenarios(alloc, &ground);
    with_scenarios(ground, tree)
}
