//! Replies that speak of no text.

ghost use Rattle.std.specs.Prelude.{◌≡◌, IfOk, IfErr, string_bytes};
ghost use Rattle.sopl_base.specs.declared.stop.SearchStop.TheVariants as search;
ghost use Rattle.answer_lines.specs.AnswerData.{line_of, word_data};

use answer_lines::word_line;
use answer_texts::{Reply, Status};
use sopl_base::SearchStop;
use std::alloc::Global;

/// A reply that is one word.
pub fn word_reply(alloc: Global, status: Status, word: &str) -> Result<Reply, SearchStop>
    ensures status { IfOk result (λ reply. reply.status ≡ status) }
    ensures line { IfOk result (λ reply. string_bytes reply.line ≡ line_of (word_data word.now)) }
    ensures memory { IfErr result (λ stop. stop ≡ search.NoMemory) }
{
    let line = word_line(alloc, word)?;
    Ok(Reply { status, line })
}
