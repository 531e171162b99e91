//! The tokens of a model text.
//! Its tests stand in `ground_tests`.
#![tactic(auto)]

mod pieces;
mod runs;
mod tables;

ghost use Rattle.std.specs.Prelude.{◌≡◌, ℕ, ◌<◌, ◌≤◌, List, [], ◌∷◌, ◌++◌, length, Result, IfOk, IfErr, OnOk};
ghost use Rattle.sopl_base.specs.declared.fault.Refusal.{Refusal};
ghost use Rattle.sopl_ast.specs.declared.token.Token.{Token};
ghost use Rattle.sopl_ast.specs.Tokens.{Lexes, Tokens};
ghost use Rattle.sopl_lex.specs.TextAnswers.{Answers};
ghost use Rattle.sopl_lex.specs.Reads.{Reads, RefusesAs};

use pieces::front;
use runs::skipped;
use sopl_ast::Token;
use sopl_base::{Fault, Span, codes, limits};
use std::alloc::{AllocError, Global};

/// The tokens of a text, in order. Spaces and comments are passed over.
pub fn lex(alloc: Global, text: &[u8]) -> Result<Vec<Token>, Fault>
    // What is answered is the outcome of the text ..
    ensures found { Answers (λ tokens. tokens.items) result (Lexes text.now) }

    // .. and the outcome of the text is what is answered.
    ensures only { (outcome : Result (List Token) Refusal) → Lexes text.now outcome →
        Answers (λ tokens. tokens.items) result (λ answer. answer ≡ outcome) }
{
    read(alloc, text)
}

/// Each text has one outcome, and at most one list of tokens. It does nothing when it runs.
#[tactic(auto, using(crate::proofs::Meet::lexes_one, crate::proofs::Meet::tokens_one, crate::proofs::Outcomes::lexes_some))]
pub fn one_outcome()
    ensures at_least { (text : List ℕ) → (outcome : Result (List Token) Refusal) × Lexes text outcome }
    ensures at_most { (text : List ℕ) (first second : Result (List Token) Refusal) →
        Lexes text first → Lexes text second → first ≡ second }

    // There is one list also where the text is too long or a literal is too large.
    ensures one_list { (text : List ℕ) (first second : List Token) →
        Tokens text first → Tokens text second → first ≡ second }
{}

#[tactic(auto, using(crate::proofs::StepLemmas::reads_start))]
fn read(alloc: Global, text: &[u8]) -> Result<Vec<Token>, Fault>
    ensures { Answers (λ tokens. tokens.items) result (Lexes text.now) }
{
    if text.len() > limits::TEXT_BYTES {
        return Err(Fault::refused(codes::TEXT_LENGTH, limits::TEXT_BYTES));
    }
    let mut tokens = Vec::new(alloc);
    let mut at = 0;
    'pieces: while at < text.len() {
        at = step(alloc, text, at, &mut tokens)?;
    }
    Ok(tokens)
}

/// Reads the piece at `at`, and answers the offset of its end.
fn step(alloc: Global, text: &[u8], at: usize, tokens: &mut Vec<Token>) -> Result<usize, Fault>
    requires inside { at < length text.now }
    requires before { Reads text.now at tokens.old.items }
    ensures onward { IfOk result (λ end. at < end) }
    ensures after { IfOk result (λ end. Reads text.now end tokens.new.items) }
    ensures err { IfErr result (RefusesAs text.now) }
{
    let piece = front(alloc, skipped(text, at), at)?;
    let end = at + piece.len;
    if let Some(kind) = piece.kind {
        let span = Span { start: at, end };
        push(tokens, Token { kind, span })?;
    }
    Ok(end)
}

fn push(tokens: &mut Vec<Token>, token: Token) -> Result<(), AllocError>
    ensures { OnOk result (tokens.new.items ≡ tokens.old.items ++ token ∷ []) }
{
    tokens.push(token)?;
    Ok(())
}
