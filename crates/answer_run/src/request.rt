//! What the words of the command line say.

ghost use Rattle.std.specs.Prelude.{◌≡◌, ◌≤◌, IfSome, option_map};
ghost use Rattle.std.specs.Char.{is_ascii_digit};
ghost use Rattle.std.specs.List.{list_all};
ghost use Rattle.sopl_search.specs.Schedules.{AreSeats, IsOrder};
ghost use Rattle.answer_run.specs.Words as spec;
ghost use Rattle.answer_run.specs.Shown.{request_shown, row_shown, text_shown};

use crate::commands::{CommandRow, Job, row_named};
use crate::options::{Kind, given};
use crate::words::{Word, Words};

/// How many nodes a search may finish where the words give no budget.
const USUAL_BUDGET: u32 = 1_000_000;

/// The digits that a number may have.
const MOST_DIGITS: usize = 10;

/// What words say: what is done on what, the file of the model and the second file, which is empty where the command has none, where they
/// are files; how many nodes a search may finish, the name of the brancher that it asks, if one is given, how many seats it has, the order
/// in which they take steps, if one is given, the name of the log that it writes, which is empty where none is given; and how many stages
/// are drawn, and by which seed, both 0 where the text is not drawn.
#[derive(Clone, Copy, Drop)]
pub struct WordRequest<'a> {
    pub job: Job,
    pub model: &'a str,
    pub second: &'a str,
    pub budget: u32,
    pub branch: Option<&'a str>,
    pub seats: u32,
    pub order: Option<u32>,
    pub log: &'a str,
    pub stages: u32,
    pub seed: u32,
}

/// Whether bytes are decimal digits.
fn all_digits(word: &[u8]) -> bool
    ensures { result ≡ list_all is_ascii_digit word.now }
{
    word.iter().all(|byte| byte.is_ascii_digit())
}

/// Whether a word is decimal digits, at least one and not too many.
#[tactic(auto, using(crate::proofs::Numbers::few_digits))]
fn is_digits(word: &[u8]) -> bool
    ensures { result ≡ spec.is_digits word.now }
{
    if word.is_empty() || word.len() > MOST_DIGITS {
        return false;
    }
    all_digits(word)
}

/// A number where it lies between these two.
fn between(least: u32, number: u32, most: u32) -> Option<u32>
    ensures number { result ≡ spec.in_range least most number }
    ensures from { IfSome result (λ n. least ≤ n) }
    ensures to { IfSome result (λ n. n ≤ most) }
{
    if number < least || number > most {
        return None;
    }
    Some(number)
}

/// The number that a word writes in decimal digits, where it lies between these two.
fn number_of(word: &str, least: u32, most: u32) -> Option<u32>
    ensures number { result ≡ spec.number_of least most word.now }
    ensures from { IfSome result (λ number. least ≤ number) }
    ensures to { IfSome result (λ number. number ≤ most) }
{
    if !is_digits(word.as_bytes()) {
        return None;
    }
    match word.parse::<u32>() {
        Ok(number) => between(least, number, most),
        Err(_) => None,
    }
}

/// The budget, which is the usual one where none is given.
fn budget_in(row: CommandRow, words: &[Word]) -> Option<u32>
    ensures budget { result ≡ spec.budget_in (row_shown row) words.now }
    ensures least { IfSome result (λ budget. 1 ≤ budget) }
{
    match given(row, Kind::Budget, words)? {
        Some(value) => number_of(value, 1, u32::MAX),
        None => Some(USUAL_BUDGET),
    }
}

/// How many seats there are, which is one where no number is given.
fn seats_in(row: CommandRow, words: &[Word]) -> Option<u32>
    ensures seats { result ≡ spec.seats_in (row_shown row) words.now }
    ensures few { IfSome result AreSeats }
{
    match given(row, Kind::Seats, words)? {
        Some(value) => number_of(value, 1, 64),
        None => Some(1),
    }
}

/// The order in which seats take steps, if one is given.
fn order_in(row: CommandRow, words: &[Word]) -> Option<Option<u32>>
    ensures order { result ≡ spec.order_in (row_shown row) words.now }
    ensures below { IfSome result IsOrder }
{
    match given(row, Kind::Order, words)? {
        Some(value) => {
            let order = number_of(value, 0, 2_147_483_647)?;
            Some(Some(order))
        }
        None => Some(None),
    }
}

/// The name that a part of this kind gives, which is empty where there is none.
fn named_in<'a>(row: CommandRow, kind: Kind, words: &'a [Word]) -> Option<&'a str>
    ensures { option_map text_shown result ≡ spec.named_in (row_shown row) kind words.now }
{
    match given(row, kind, words)? {
        Some(name) => Some(name),
        None => Some(""),
    }
}

/// The positional word behind so many others.
fn positional_in<'a>(row: CommandRow, place: usize, words: &'a [Word]) -> Option<&'a str>
    ensures { option_map text_shown result ≡ spec.positional_in (row_shown row) place words.now }
{
    given(row, Kind::Plain(place), words)?
}

/// The number that a positional word writes, where the command draws its text of such numbers, and else 0.
fn drawn_in(row: CommandRow, place: usize, least: u32, most: u32, words: &[Word]) -> Option<u32>
    ensures { result ≡ spec.drawn_in (row_shown row) place least most words.now }
{
    match row.job {
        Job::Drawn(_) => number_of(positional_in(row, place, words)?, least, most),
        Job::Text(_) | Job::Pair(_) => Some(0),
    }
}

/// What a command and the words behind it say.
fn requested<'a>(row: CommandRow, words: &'a [Word]) -> Option<WordRequest<'a>>
    ensures request { option_map request_shown result ≡ spec.requested (row_shown row) words.now }
    ensures least { IfSome result (λ request. 1 ≤ request.budget) }
    ensures seats { IfSome result (λ request. AreSeats request.seats) }
    ensures order { IfSome result (λ request. IsOrder request.order) }
{
    let budget = budget_in(row, words)?;
    let branch = given(row, Kind::Branch, words)?;
    let seats = seats_in(row, words)?;
    let order = order_in(row, words)?;
    let log = named_in(row, Kind::Log, words)?;
    let second = named_in(row, Kind::Plain(1), words)?;
    let model = positional_in(row, 0, words)?;
    let stages = drawn_in(row, 0, 1, 9, words)?;
    let seed = drawn_in(row, 1, 0, 2_147_483_647, words)?;
    Some(WordRequest {
        job: row.job,
        model,
        second,
        budget,
        branch,
        seats,
        order,
        log,
        stages,
        seed,
    })
}

/// What words say: the name of a command, and behind it its options and its files.
pub fn request_in(words: &Words) -> Option<WordRequest<'_>>
    ensures request { option_map request_shown result ≡ spec.request_of words.now }
    ensures least { IfSome result (λ request. 1 ≤ request.budget) }
    ensures seats { IfSome result (λ request. AreSeats request.seats) }
    ensures order { IfSome result (λ request. IsOrder request.order) }
{
    let [name, later @ ..] = words.as_slice() else {
        return None;
    };
    requested(row_named(name.as_str())?, later)
}
