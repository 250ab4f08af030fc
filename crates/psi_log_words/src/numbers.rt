//! The numbers that words and their pieces are.

ghost use Rattle.std.specs.Prelude.{◌≡◌, ◌&&◌, ◌+◌, ◌-◌, ◌*◌, ◌<◌, ◌≤◌, ◌^◌, false, true, nat_lt, IfOk, MatchOption};
ghost use Rattle.std.specs.List.{prefix_len, take_while, before_first, after_first};
ghost use Rattle.std.specs.Str.Parse.{digits_value};
ghost use Rattle.psi_log_words.specs.Refusal.{Gives};
ghost use Rattle.psi_log_words.specs.Words.{is_comma, is_digit, is_numeral, number_in};

use crate::refusals::{LogCause, LogError};

// The number with one digit more, where it has 64 bits.
fn with_digit(value: u64, byte: u8) -> Option<u64>
    requires least { 48 ≤ byte }
    requires most { byte ≤ 57 }
    ensures { MatchOption result (2 ^ 64 ≤ value * 10 + (byte - 48)) (λ n. n ≡ value * 10 + (byte - 48)) }
{
    let digit = (byte - b'0') as u64;
    if value < 1_000_000_000_000_000_000 {
        return Some(value * 10 + digit);
    }
    value.checked_mul(10)?.checked_add(digit)
}

// The number that the digits at the front of a word write, where it has 64 bits, and how many they are.
fn digits(word: &[u8]) -> Option<(u64, usize)>
    ensures { MatchOption result (2 ^ 64 ≤ digits_value 10 (take_while is_digit word.now)) (λ read. (read.0 ≡ digits_value 10 (take_while is_digit word.now)) × (read.1 ≡ prefix_len is_digit word.now)) }
{
    let mut value: u64 = 0;
    for (count, byte) in word.iter().enumerate() {
        if !byte.is_ascii_digit() {
            return Some((value, count));
        }
        match with_digit(value, *byte) {
            Some(next) => value = next,
            None => return None,
        }
    }
    Some((value, word.len()))
}

// The number that the digits at the front of a word write, and how many they are, where they are a numeral whose
// number has 64 bits: one digit, or several of which the first isn't 0.
fn numeral(word: &[u8]) -> Option<(u64, usize)>
    ensures { MatchOption result ((is_numeral (take_while is_digit word.now) && nat_lt (digits_value 10 (take_while is_digit word.now)) (2 ^ 64)) ≡ false) (λ read. (is_numeral (take_while is_digit word.now) ≡ true) × (read.0 ≡ digits_value 10 (take_while is_digit word.now)) × (read.1 ≡ prefix_len is_digit word.now)) }
{
    let (value, count) = digits(word)?;
    if count == 0 || (count > 1 && word[0] == b'0') {
        return None;
    }
    Some((value, count))
}

/// Returns a number from `least` to `most`.
///
/// # Errors
///
/// `Number` where the word isn't a numeral, or its number isn't in this range.
pub fn number_in(line: u32, least: u64, most: u64, word: &[u8]) -> Result<u64, LogError>
    ensures value { Gives (λ n. n) result (number_in line least most word.now) }
    ensures range { IfOk result (λ n. (least ≤ n) × (n ≤ most)) }
{
    let Some((value, count)) = numeral(word) else {
        return Err(LogCause::Number.at(line));
    };
    if count == word.len() && least <= value && value <= most {
        return Ok(value);
    }
    Err(LogCause::Number.at(line))
}

/// Returns the number from 0 to `most` that is the first piece of a word, and what follows the comma after it; nothing
/// where there is none.
///
/// # Errors
///
/// `Number` where the piece isn't a numeral, or its number isn't in this range.
pub fn piece_in(line: u32, most: u64, word: &[u8]) -> Result<(u64, &[u8]), LogError>
    ensures value { Gives (λ read. read.0) result (number_in line 0 most (before_first is_comma word.now)) }
    ensures range { IfOk result (λ read. read.0 ≤ most) }
    ensures rest { IfOk result (λ read. read.1.now ≡ after_first is_comma word.now) }
{
    let Some((value, count)) = numeral(word) else {
        return Err(LogCause::Number.at(line));
    };
    if value > most {
        return Err(LogCause::Number.at(line));
    }
    if count == word.len() {
        return Ok((value, &[]));
    }
    if word[count] == b',' {
        let (_, rest) = word.split_at(count + 1);
        return Ok((value, rest));
    }
    Err(LogCause::Number.at(line))
}
