//! Chains: parts that stand one behind the other, as many as there are.

ghost use Rattle.std.specs.Prelude.{◌≡◌, [], ◌∷◌, ◌++◌, length, option_map};
ghost use Rattle.parse_grammar.specs.Reading.{Next as NextOf, chain as chain_of};
ghost use Rattle.parse_exprs.specs.ReaderAnswers.{Answers};

use crate::parts::Parts;
use crate::reader::{Next, Read};
use sopl_ast::Token;

/// The parts that stand one behind the other at the front of the tokens, put behind those that are
/// in the list already. `next` reads a part, and answers none where the chain ends.
pub fn chain<'a, T: Drop, L: Parts<T>, N: Fn(&'a [Token]) -> Next<'a, T>>(
    mut parts: L,
    tokens: &'a [Token],
    next: N,
) -> Read<'a, L>
    requires { (ts : _) → N.pre next ts }
    ensures { (reads : NextOf L.Shown)
        → ((ts : _) (r : _) → N.post next ts r → Answers (λ x. (option_map L.shown x.0, x.1.now)) r (reads ts.now))
        → Answers (λ x. (L.listed x.0, x.1.now)) result (chain_of reads (length tokens.now) (L.listed parts) tokens.now) }
{
    let mut left = tokens;
    'parts: for _turn in 0..tokens.len() {
        let (part, behind) = next(left)?;
        left = behind;
        let Some(part) = part else {
            break;
        };
        parts.add(part)?;
    }
    Ok((parts, left))
}
