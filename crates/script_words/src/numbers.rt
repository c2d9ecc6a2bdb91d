ghost use Rattle.std.specs.Prelude.{◌^◌, ◌≡◌, ◌≤◌, IfSome, IsNone, length, option_and_then, option_map, true};
ghost use Rattle.script_words.specs.{digits_value, fields, first_said, has_no_needless_zero, integer_said, is_ascii_digit, is_space, just_one, list_all, moment_said, negative_said, number_said};
ghost use Rattle.script_words.specs.{position_or_len, small_said, word_ahead};

use crate::fields::{next_field, without_spaces};

/// The number that the word says, at most `u32::MAX`: of a scope, a task or an actor, or a count.
pub fn small(word: &[u8]) -> Option<u32>
    ensures { result ≡ small_said word.now }
{
    let number = number(word, u64::from(u32::MAX))?;
    Some(number as u32)
}

/// The moment that the word says, in milliseconds, at most `u64::MAX`.
pub fn moment(word: &[u8]) -> Option<u64>
    ensures { result ≡ moment_said word.now }
{
    number(word, u64::MAX)
}

/// The number that the first field of the text says, at most `u32::MAX`, and the text after it.
pub fn next_small(text: &[u8]) -> Option<(u32, &[u8])>
    ensures { option_map (λ found. (found.0, fields found.1.now)) result ≡ first_said small_said (fields text.now) }
{
    let (number, rest) = next_number(text, u64::from(u32::MAX))?;
    Some((number as u32, rest))
}

/// The number that the first field of the text says, if it is at most the limit, and the text after it. The field is
/// walked once.
#[tactic(auto, using(crate::proofs::NumberFields::first_found, crate::proofs::NumberFields::first_refused))]
fn next_number(text: &[u8], limit: u64) -> Option<(u64, &[u8])>
    ensures value { option_map (λ found. (found.0, fields found.1.now)) result ≡ first_said (number_said limit) (fields text.now) }
    ensures within { IfSome result (λ found. found.0 ≤ limit) }
{
    let text = without_spaces(text);
    let (number, len) = numeral_ahead(text, limit)?;
    Some((number, text.split_at(len).1))
}

/// The number that the only field of the text says, at most `u32::MAX`.
pub fn last_small(text: &[u8]) -> Option<u32>
    ensures { result ≡ option_and_then small_said (just_one (fields text.now)) }
{
    let number = last_number(text, u64::from(u32::MAX))?;
    Some(number as u32)
}

/// The moment that the only field of the text says.
pub fn last_moment(text: &[u8]) -> Option<u64>
    ensures { result ≡ option_and_then moment_said (just_one (fields text.now)) }
{
    last_number(text, u64::MAX)
}

/// The number that the only field of the text says, if it is at most the limit.
#[tactic(auto, using(crate::proofs::NumberFields::last_by_steps))]
fn last_number(text: &[u8], limit: u64) -> Option<u64>
    ensures value { result ≡ option_and_then (number_said limit) (just_one (fields text.now)) }
    ensures within { IfSome result (λ number. number ≤ limit) }
{
    let (number, rest) = next_number(text, limit)?;
    match next_field(rest) {
        Some(_) => None,
        None => Some(number),
    }
}

/// The number that the bytes before the first space say, if it is at most the limit, and how many they are.
#[tactic(auto, unfolding(crate::specs::Numbers::number_said, crate::specs::Numbers::is_numeral))]
fn numeral_ahead(text: &[u8], limit: u64) -> Option<(u64, usize)>
    ensures value { option_map (λ found. found.0) result ≡ number_said limit (word_ahead text.now) }
    ensures place { IfSome result (λ found. found.1 ≡ position_or_len is_space text.now) }
    ensures within { IfSome result (λ found. (found.0 ≤ limit) × (found.1 ≤ length text.now)) }
{
    let (number, len) = digits_ahead(text)?;
    if number <= limit && has_no_needless_zero(text.split_at(len).0) {
        Some((number, len))
    } else {
        None
    }
}

/// The number with the decimal digits before the first space, and how many they are; `None` if another byte is
/// among them, or if the number is greater than `u64::MAX`.
fn digits_ahead(text: &[u8]) -> Option<(u64, usize)>
    ensures none { IsNone result → list_all is_ascii_digit (word_ahead text.now) ≡ true → 2 ^ 64 ≤ digits_value 10 (word_ahead text.now) }
    ensures some { IfSome result (λ found. (list_all is_ascii_digit (word_ahead text.now) ≡ true) × (found.0 ≡ digits_value 10 (word_ahead text.now)) × (found.1 ≡ position_or_len is_space text.now)) }
    ensures within { IfSome result (λ found. found.1 ≤ length text.now) }
{
    let mut value: u64 = 0;
    for (index, byte) in text.iter().enumerate() {
        if byte.is_ascii_digit() {
            value = value.checked_mul(10)?.checked_add(u64::from(*byte - b'0'))?;
        } else if *byte == b' ' {
            return Some((value, index));
        } else {
            return None;
        }
    }
    Some((value, text.len()))
}

/// The number that the word says, of an `i64`; a `-` may be in front.
#[tactic(auto, unfolding(crate::specs::Numbers::integer_said))]
pub fn integer(word: &[u8]) -> Option<i64>
    ensures { result ≡ integer_said word.now }
{
    match word {
        [] => None,
        [b'-', digits @ ..] => negative(digits),
        [_, ..] => {
            let number = number(word, i64::MAX as u64)?;
            Some(number as i64)
        }
    }
}

/// The number below 0 with these digits, of an `i64`.
#[tactic(auto, unfolding(crate::specs::Numbers::negative_said))]
fn negative(digits: &[u8]) -> Option<i64>
    ensures { result ≡ negative_said digits.now }
{
    let magnitude = number(digits, 1 << 63)?;
    if magnitude == 0 {
        return None;
    }
    Some(-1 - (magnitude - 1) as i64)
}

/// The number that the word says, if it is at most the limit.
#[tactic(auto, using(crate::proofs::NumberFields::said_whole, crate::proofs::NumberFields::not_said, crate::proofs::NumberFields::not_whole))]
fn number(word: &[u8], limit: u64) -> Option<u64>
    ensures value { result ≡ number_said limit word.now }
    ensures within { IfSome result (λ number. number ≤ limit) }
{
    let (number, len) = numeral_ahead(word, limit)?;
    if len == word.len() {
        Some(number)
    } else {
        None
    }
}

/// Whether the word is one byte, or has a first byte that is no `0`.
fn has_no_needless_zero(word: &[u8]) -> bool
    ensures { result ≡ has_no_needless_zero word.now }
{
    match word {
        [] => false,
        [_] => true,
        [first, ..] => *first != b'0',
    }
}
