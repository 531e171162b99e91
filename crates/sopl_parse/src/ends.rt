//! What is made of a reading that may have stopped: a phrase hands its outcome in as it is, and has no exit of its own there.

ghost use Rattle.std.specs.Prelude.{◌≡◌, false};
ghost use Rattle.parse_grammar.specs.Phrases.{way};
ghost use Rattle.sopl_parse.specs.Endings.{Ends, Finishes, with_some};

use parse_exprs::{Next, ParseStop, Read, Reader};
use parse_grammar::Mark;
use sopl_ast::Token;

/// What was read, where a mark follows it, and the tokens behind the mark.
pub fn ended<'a, T: Drop>(reader: &Reader, mark: Mark, read: Read<'a, T>) -> Read<'a, T>
    ensures { Ends (way false reader.now.depth) mark read.entry result }
{
    let read = read?;
    reader.closed(mark, read)
}

/// What was read, as a part that there is.
pub fn found<'a, T: Drop>(read: Read<'a, T>) -> Next<'a, T>
    ensures { result ≡ with_some read.entry }
{
    let (part, left) = read?;
    Ok((Some(part), left))
}

/// What was read, where nothing is left behind it.
pub fn finished<'a, T: Drop>(read: Read<'a, T>) -> Result<T, ParseStop<'a>>
    ensures { Finishes read.entry result }
{
    let (whole, left) = read?;
    match left {
        [] => Ok(whole),
        [..] => Err(ParseStop::Syntax(left)),
    }
}
