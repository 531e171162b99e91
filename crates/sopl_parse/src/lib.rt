//! The model that the tokens of a text spell, and what is read of its declarations: constants, ranges, sets, decisions and stochastic variables.
//! Its tests stand in `compile_tests`.
#![tactic(auto)]

mod constraints;
mod declaring;
mod dims;
mod ends;
mod inits;
mod lists;
mod models;

ghost use Rattle.std.specs.Prelude.{◌≡◌, IfErr, IfOk, MatchResult};
ghost use Rattle.sopl_base.specs.declared.fault.Fault.TheVariants.{NoMemory};
ghost use Rattle.sopl_ast.specs.Grammar.{SpellsWithin};
ghost use Rattle.sopl_ast.specs.Misspelled.{place_in};
ghost use Rattle.sopl_ast.specs.Whole.{ModelTree};
ghost use Rattle.sopl_ast.specs.WholeModel.{whole};
ghost use Rattle.parse_grammar.specs.Phrases.{model as model_of};
ghost use Rattle.parse_exprs.specs.ReaderAnswers.{Answers};
ghost use Rattle.sopl_parse.specs.Faults.{fault_of, IsSpellingFault};

pub use declaring::declarations;
pub use ends::{ended, finished, found};
use models::model;
use parse_exprs::{ParseStop, Reader};
use sopl_ast::{Model, Token};
use sopl_base::{Fault, codes, limits};
use std::alloc::Global;

/// The model that the tokens of a text spell; `length` is the length of the text. The offset of a
/// refusal is that of the token where reading stopped, or the length of the text where no token was
/// left.
#[tactic(auto, using(crate::proofs::Refused::read_spelled, crate::proofs::Refused::read_only, crate::proofs::Refused::halts_only, crate::proofs::Refused::halts_refused))]
pub fn parse(alloc: Global, tokens: &[Token], length: usize) -> Result<Model, Fault>
    // What is read is what the tokens spell ..
    ensures spelled { IfOk result (λ model. SpellsWithin tokens.now (whole model)) }

    // .. and what they spell is read, unless memory runs out.
    ensures complete { (tree : ModelTree) → SpellsWithin tokens.now tree →
        MatchResult result (λ model. whole model ≡ tree) (λ fault. fault ≡ NoMemory) }

    // A refusal stands at the one place where no model goes on, or where one nests too deep.
    ensures refused { IfErr result (IsSpellingFault length tokens.now) }
{
    match read(alloc, tokens) {
        Ok(model) => Ok(model),
        Err(halt) => Err(fault(&halt, length)),
    }
}

/// The model that the tokens spell, or where reading stops.
fn read<'a>(alloc: Global, tokens: &'a [Token]) -> Result<Model, ParseStop<'a>>
    ensures { Answers whole result (model_of 64 tokens.now) }
{
    let reader = Reader {
        alloc,
        depth: limits::OPENINGS,
    };
    model(&reader, tokens)
}

/// Where the tokens begin, or the length of the text where there is none.
fn start(tokens: &[Token], length: usize) -> usize
    ensures { result ≡ place_in length tokens.now }
{
    match tokens {
        [first, ..] => first.span.start,
        [] => length,
    }
}

/// The fault of a reader that halts, in a text of this length.
fn fault(halt: &ParseStop<'_>, length: usize) -> Fault
    ensures { result ≡ fault_of length halt.now }
{
    match halt {
        ParseStop::Syntax(left) => Fault::refused(codes::SYNTAX, start(left, length)),
        ParseStop::Depth(left) => Fault::refused(codes::DEPTH, start(left, length)),
        ParseStop::NoMemory => Fault::NoMemory,
    }
}
