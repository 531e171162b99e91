//! The parts of the words behind a command: options with their values, and positional words.

ghost use Rattle.std.specs.Prelude.{◌≡◌, ◌∷◌, ◌≤◌, length, IfSome, option_map};
ghost use Rattle.answer_run.specs.declared.options.Kind.TheVariants.{Plain as spec_plain};
ghost use Rattle.answer_run.specs.Words as spec;
ghost use Rattle.answer_run.specs.Shown.{part_shown, row_shown, text_shown};
ghost use Rattle.answer_run.specs.Splits.{option_first, parts_behind, word_first, found_with as spec_found_with};

use crate::commands::CommandRow;
use crate::words::Word;

/// What a part of the words behind a command is.
#[derive(Clone, Copy, Debug, PartialEq, Eq)]
pub enum Kind {
    /// The value of `--budget`.
    Budget,
    /// The value of `--branch`.
    Branch,
    /// The value of `--seats`.
    Seats,
    /// The value of `--order`.
    Order,
    /// The value of `--log`.
    Log,
    /// A positional word, behind so many others.
    Plain(usize),
}

/// A part of the words behind a command.
#[derive(Clone, Copy, Drop)]
pub struct Part<'a> {
    pub kind: Kind,
    pub value: &'a str,
}

/// The first part of some words, how many positional words were seen with it, and the words behind it.
#[derive(Clone, Copy, Drop)]
struct Split<'a> {
    part: Part<'a>,
    seen: usize,
    later: &'a [Word],
}

/// Whether a word is a value or a positional word.
fn is_value(word: &str) -> bool
    ensures { result ≡ spec.is_value word.now }
{
    match word.as_bytes() {
        [] => false,
        [first, ..] => *first != b'-',
    }
}

/// Whether a kind is a positional word behind so many others.
fn same_place(place: usize, kind: Kind) -> bool
    ensures { result ≡ spec.same_kind (spec_plain place) kind }
{
    match kind {
        Kind::Plain(other) => place == other,
        _ => false,
    }
}

/// Whether two kinds are the same.
fn same_kind(one: Kind, other: Kind) -> bool
    ensures { result ≡ spec.same_kind one other }
{
    match one {
        Kind::Budget => matches!(other, Kind::Budget),
        Kind::Branch => matches!(other, Kind::Branch),
        Kind::Seats => matches!(other, Kind::Seats),
        Kind::Order => matches!(other, Kind::Order),
        Kind::Log => matches!(other, Kind::Log),
        Kind::Plain(place) => same_place(place, other),
    }
}

/// The option of this name.
fn option_of(word: &str) -> Option<Kind>
    ensures { result ≡ spec.option_of word.now }
{
    if word == "--budget" {
        return Some(Kind::Budget);
    }
    if word == "--branch" {
        return Some(Kind::Branch);
    }
    if word == "--seats" {
        return Some(Kind::Seats);
    }
    if word == "--order" {
        return Some(Kind::Order);
    }
    if word == "--log" {
        return Some(Kind::Log);
    }
    None
}

/// Whether a command has an option.
fn has_option(row: CommandRow, kind: Kind) -> bool
    ensures { result ≡ spec.has_option (row_shown row) kind }
{
    row.options.iter().any(|option| same_kind(*option, kind))
}

/// The command's option of this name.
fn option_named(row: CommandRow, word: &str) -> Option<Kind>
    ensures { result ≡ spec.option_named (row_shown row) word.now }
{
    let kind = option_of(word)?;
    if has_option(row, kind) {
        return Some(kind);
    }
    None
}

/// A part with this value, where it is one.
fn part_of<'a>(kind: Kind, value: &'a str) -> Option<Part<'a>>
    ensures { option_map part_shown result ≡ spec.part_of kind value.now }
{
    if is_value(value) {
        return Some(Part { kind, value });
    }
    None
}

/// An option with its value, as one word.
fn joined_part<'a>(row: CommandRow, word: &'a str) -> Option<Part<'a>>
    ensures { option_map part_shown result ≡ spec.joined_part (row_shown row) word.now }
{
    let (name, value) = word.split_once('=')?;
    let kind = option_named(row, name)?;
    part_of(kind, value)
}

/// An option with its value, which is the first of some words.
fn valued_part<'a>(row: CommandRow, seen: usize, kind: Kind, later: &'a [Word]) -> Option<Split<'a>>
    ensures parts { option_first (row_shown row) seen kind later.now ≡ parts_behind (row_shown row) result }
    ensures fewer { IfSome result (λ split. length split.later.now ≤ length later.now) }
{
    let [value, behind @ ..] = later else {
        return None;
    };
    let part = part_of(kind, value.as_str())?;
    Some(Split {
        part,
        seen,
        later: behind,
    })
}

/// A part that is one word: a positional word where the command has one more, or an option with its value.
fn whole_part<'a>(
    row: CommandRow,
    seen: usize,
    word: &'a str,
    later: &'a [Word],
) -> Option<Split<'a>>
    ensures parts { word_first (row_shown row) seen word.now later.now ≡ parts_behind (row_shown row) result }
    ensures fewer { IfSome result (λ split. length split.later.now ≤ length later.now) }
{
    if !is_value(word) {
        let part = joined_part(row, word)?;
        return Some(Split { part, seen, later });
    }
    if seen >= row.positional {
        return None;
    }
    let part = Part {
        kind: Kind::Plain(seen),
        value: word,
    };
    Some(Split {
        part,
        seen: seen + 1,
        later,
    })
}

/// The first part of a word and of the words behind it.
#[tactic(auto, using(crate::proofs::Parts::at_option, crate::proofs::Parts::at_word))]
fn first_part<'a>(
    row: CommandRow,
    seen: usize,
    word: &'a str,
    later: &'a [Word],
) -> Option<Split<'a>>
    ensures parts { spec.parts_of (row_shown row) seen (word.now ∷ later.now) ≡ parts_behind (row_shown row) result }
    ensures fewer { IfSome result (λ split. length split.later.now ≤ length later.now) }
{
    match option_named(row, word) {
        Some(kind) => valued_part(row, seen, kind, later),
        None => whole_part(row, seen, word, later),
    }
}

/// The value of a kind that was found, with a part more. Or nothing where that is a second one of the kind.
fn found_with<'a>(found: Option<&'a str>, kind: Kind, part: &Part<'a>) -> Option<Option<&'a str>>
    ensures { option_map (option_map text_shown) result ≡ spec_found_with kind (option_map text_shown found.entry) (part_shown part.now) }
{
    if !same_kind(part.kind, kind) {
        return Some(found);
    }
    if found.is_some() {
        return None;
    }
    Some(Some(part.value))
}

/// The value of the one part of a kind, if there is one. Or nothing where the words are no parts, more than one is of the kind, or a positional word is missing.
#[tactic(auto, using(crate::proofs::Parts::given_end, crate::proofs::Parts::given_few, crate::proofs::Parts::given_none))]
pub fn given<'a>(row: CommandRow, kind: Kind, words: &'a [Word]) -> Option<Option<&'a str>>
    ensures { option_map (option_map text_shown) result ≡ spec.given (row_shown row) kind words.now }
{
    let mut found = None;
    let mut seen = 0;
    let mut left = words;
    'parts: while let [word, later @ ..] = left {
        let split = first_part(row, seen, word.as_str(), later)?;
        found = found_with(found, kind, &split.part)?;
        seen = split.seen;
        left = split.later;
    }
    if seen != row.positional {
        return None;
    }
    Some(found)
}
