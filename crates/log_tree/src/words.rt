//! The words of a line, which single spaces part.

ghost use Rattle.std.specs.Prelude.{◌≡◌};
ghost use Rattle.log_tree.specs.Words.{word_of, rest_of, letter_of};

/// What stands before the first space, or the whole text.
#[tactic(auto, using(crate::proofs::Parting::word_more, crate::proofs::Parting::word_ends, crate::proofs::Parting::word_all))]
pub(crate) fn word(text: &[u8]) -> &[u8]
    ensures { result.now ≡ word_of text.now }
{
    'bytes: for i in 0..text.len() {
        if text[i] == b' ' {
            return &text[..i];
        }
    }
    text
}

/// What stands behind the first space, or nothing.
#[tactic(auto, using(crate::proofs::Parting::rest_more, crate::proofs::Parting::rest_ends, crate::proofs::Parting::rest_all))]
pub(crate) fn rest(text: &[u8]) -> &[u8]
    ensures { result.now ≡ rest_of text.now }
{
    'bytes: for i in 0..text.len() {
        if text[i] == b' ' {
            return &text[i + 1..];
        }
    }
    &[]
}

/// The first byte of a text, and 0 where there is none.
pub(crate) fn letter(text: &[u8]) -> u8
    ensures { result ≡ letter_of text.now }
{
    match text {
        [] => 0,
        [first, ..] => *first,
    }
}
