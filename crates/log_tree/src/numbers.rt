//! Numbers in digits.

ghost use Rattle.std.specs.Prelude.{◌≡◌, ◌^◌, option_map};
ghost use Rattle.std.specs.Char.{is_ascii_digit};
ghost use Rattle.std.specs.List.{list_all};
ghost use Rattle.std.specs.Option.{option_and_then};
ghost use Rattle.log_tree.specs.Numbers.{size_in_word, below, signed_in_word, wide_in_word, positive_within, negative_within};

/// A number with its sign.
#[derive(Clone, Copy)]
pub(crate) struct Int64 {
    pub(crate) value: i64,
}

/// A number with its sign, up to 128 bits.
#[derive(Clone, Copy)]
pub(crate) struct Int128 {
    pub(crate) value: i128,
}

/// Whether there are digits alone.
fn are_digits(word: &[u8]) -> bool
    ensures { result ≡ list_all is_ascii_digit word.now }
{
    word.iter().all(|byte| byte.is_ascii_digit())
}

/// A number in digits, of 128 bits.
fn size(word: &[u8]) -> Option<u128>
    ensures { result ≡ size_in_word word.now }
{
    if !are_digits(word) {
        return None;
    }
    let Ok(text) = std::str::from_utf8(word) else {
        return None;
    };
    match text.parse::<u128>() {
        Ok(number) => Some(number),
        Err(_) => None,
    }
}

/// A number of 64 bits.
pub(crate) fn node_number(word: &[u8]) -> Option<u64>
    ensures { result ≡ option_and_then (below (2 ^ 64)) (size_in_word word.now) }
{
    match u64::try_from(size(word)?) {
        Ok(number) => Some(number),
        Err(_) => None,
    }
}

/// A number of 32 bits.
pub(crate) fn number(word: &[u8]) -> Option<u32>
    ensures { result ≡ option_and_then (below (2 ^ 32)) (size_in_word word.now) }
{
    match u32::try_from(size(word)?) {
        Ok(number) => Some(number),
        Err(_) => None,
    }
}

/// A number with its sign, of 128 bits.
pub(crate) fn wide_in(word: &[u8]) -> Option<Int128>
    ensures { option_map (λ signed. signed.value) result ≡ wide_in_word word.now }
{
    match word {
        [b'-', digits @ ..] => negative(size(digits)?),
        _ => positive(size(word)?),
    }
}

/// The number of this size above 0, where it has 128 bits.
fn positive(size: u128) -> Option<Int128>
    ensures { option_map (λ signed. signed.value) result ≡ positive_within (2 ^ 127) size }
{
    match i128::try_from(size) {
        Ok(value) => Some(Int128 { value }),
        Err(_) => None,
    }
}

/// The number of this size below 0, where it has 128 bits.
fn negative(size: u128) -> Option<Int128>
    ensures { option_map (λ signed. signed.value) result ≡ negative_within (2 ^ 127) size }
{
    match 0_i128.checked_sub_unsigned(size) {
        Some(value) => Some(Int128 { value }),
        None => None,
    }
}

/// A number with its sign, of 64 bits.
pub(crate) fn signed_in(word: &[u8]) -> Option<Int64>
    ensures { option_map (λ signed. signed.value) result ≡ signed_in_word word.now }
{
    match i64::try_from(wide_in(word)?.value) {
        Ok(value) => Some(Int64 { value }),
        Err(_) => None,
    }
}
