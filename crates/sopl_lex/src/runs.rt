//! How far runs of bytes reach.

ghost use Rattle.std.specs.Prelude.{◌≡◌, ◌+◌, ◌≤◌, length, take, drop, min};
ghost use Rattle.std.specs.Char.{is_ascii_digit};
ghost use Rattle.std.specs.List.{prefix_len};
ghost use Rattle.sopl_base.specs.declared.limits.TheConstants as largest;
ghost use Rattle.sopl_ast.specs.Pieces.{before_close, begins_with, decimal, is_letter, is_name_byte, is_space};
ghost use Rattle.sopl_lex.specs.Front.{is_line_byte};

use sopl_base::limits;

/// The text without its first `count` bytes.
pub fn skipped(text: &[u8], count: usize) -> &[u8]
    requires { count ≤ length text.now }
    ensures { result.now ≡ drop count text.now }
{
    &text[count..]
}

/// The first `count` bytes of the text.
pub fn taken(text: &[u8], count: usize) -> &[u8]
    requires { count ≤ length text.now }
    ensures { result.now ≡ take count text.now }
{
    &text[..count]
}

/// Whether a byte is a space, a tab, a line feed or a carriage return.
pub fn is_space(byte: u8) -> bool
    ensures { result ≡ is_space byte }
{
    byte == b' ' || byte == b'\t' || byte == b'\n' || byte == b'\r'
}

/// Whether a name begins with the byte.
pub fn is_letter(byte: u8) -> bool
    ensures { result ≡ is_letter byte }
{
    byte.is_ascii_alphabetic() || byte == b'_'
}

/// Whether a name goes on with the byte.
fn is_name_byte(byte: u8) -> bool
    ensures { result ≡ is_name_byte byte }
{
    is_letter(byte) || byte.is_ascii_digit()
}

/// Whether the text begins with these two bytes.
pub fn begins_with(text: &[u8], first: u8, second: u8) -> bool
    ensures { result ≡ begins_with first second text.now }
{
    match text {
        [a, b, ..] => *a == first && *b == second,
        _ => false,
    }
}

/// A number in digits: its value or one more than the greatest literal where it is
/// larger, and how many they are.
#[derive(Clone, Copy)]
pub struct Number {
    pub value: u64,
    pub len: usize,
}

/// The digits at the front of the text.
#[tactic(auto, using(crate::proofs::RunLemmas::run_more, crate::proofs::RunLemmas::run_stops, crate::proofs::RunLemmas::run_end))]
pub fn digits(text: &[u8]) -> Number
    ensures len { result.len ≡ prefix_len is_ascii_digit text.now }
    ensures value { result.value ≡ min (decimal (take result.len text.now)) (largest.LITERAL + 1) }
{
    let mut value = 0;
    'digits: for (i, byte) in text.iter().enumerate() {
        if !byte.is_ascii_digit() {
            return Number { value, len: i };
        }
        value = (10 * value + u64::from(*byte - b'0')).min(limits::LITERAL + 1);
    }
    Number {
        value,
        len: text.len(),
    }
}

/// The length of the name or keyword at the front of the text.
#[tactic(auto, using(crate::proofs::RunLemmas::run_more, crate::proofs::RunLemmas::run_stops, crate::proofs::RunLemmas::run_end))]
pub fn name_len(text: &[u8]) -> usize
    ensures len { result ≡ prefix_len is_name_byte text.now }
    ensures within { result ≤ length text.now }
{
    'bytes: for (i, byte) in text.iter().enumerate() {
        if !is_name_byte(*byte) {
            return i;
        }
    }
    text.len()
}

/// The length of the prefix of the text that holds no line feed.
#[tactic(auto, using(crate::proofs::RunLemmas::run_more, crate::proofs::RunLemmas::run_stops, crate::proofs::RunLemmas::run_end))]
pub fn line_len(text: &[u8]) -> usize
    ensures { result ≡ prefix_len is_line_byte text.now }
{
    'bytes: for (i, byte) in text.iter().enumerate() {
        if *byte == b'\n' {
            return i;
        }
    }
    text.len()
}

/// How many bytes stand before the first `*/`; all of them where there is none.
#[tactic(auto, using(crate::proofs::RunLemmas::close_more, crate::proofs::RunLemmas::close_here, crate::proofs::RunLemmas::close_end))]
pub fn before_close(text: &[u8]) -> usize
    ensures count { result ≡ before_close text.now }
    ensures within { result ≤ length text.now }
{
    'bytes: for i in 0..text.len() {
        if begins_with(skipped(text, i), b'*', b'/') {
            return i;
        }
    }
    text.len()
}
