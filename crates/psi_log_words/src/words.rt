//! The lines of a text, the words of a line, and the number of pieces of a word.

ghost use Rattle.std.specs.Prelude.{◌≡◌, ◌∷◌, [], ◌++◌, ◌+◌, ◌≤◌, length, map, take, vec_len, Ok, IfOk, IfErr, OnOk, codes};
ghost use Rattle.std.specs.List.{position, before_first, count_by};
ghost use Rattle.std.specs.Str.{bytes_eq};
ghost use Rattle.psi_log_words.specs.Refusal.{Gives, IsLogError};
ghost use Rattle.psi_log_words.specs.Words.{is_feed, is_comma, line_of, tokens_of, has_pieces, read_version, read_named};

use crate::numbers::number_in;
use crate::refusals::{LogCause, LogError};
use std::alloc::AllocError;

// One word more than a line may have: that of a step with a set has `step`, two numbers, `set`, and 4,096 states.
const MANY: usize = 4_101;

// The place of the first line feed.
fn feed_at(text: &[u8]) -> Option<usize>
    ensures { result ≡ position is_feed text.now }
{
    text.iter().position(|byte| *byte == b'\n')
}

/// Returns a line, where it begins the text, and what follows its line feed.
///
/// # Errors
///
/// `Truncated` where there is no line feed.
#[tactic(auto, unfolding(crate::specs::Words::line_of))]
pub fn line_of(line: u32, text: &[u8]) -> Result<(&[u8], &[u8]), LogError>
    ensures { Gives (λ parts. (parts.0.now, parts.1.now)) result (line_of line text.now) }
{
    match feed_at(text) {
        Some(at) => {
            let (first, _) = text.split_at(at);
            let (_, rest) = text.split_at(at + 1);
            Ok((first, rest))
        }
        None => Err(LogCause::Truncated.at(line)),
    }
}

// Puts a word after others, where they aren't 4,101 yet.
fn keep<'t>(words: &mut Vec<&'t [u8]>, word: &'t [u8]) -> Result<(), AllocError>
    requires { vec_len words.old ≤ 4101 }
    ensures { OnOk result (map (λ word. word.now) words.new.items ≡ take 4101 (map (λ word. word.now) words.old.items ++ word.now ∷ [])) }
{
    if words.len() < MANY {
        words.push(word)?;
    }
    Ok(())
}

/// Returns the words of the line that begins a text, in place of those that the vector holds, and what follows the
/// line feed: two words are parted by each space. Of more than 4,101 words, which no line may have, the first 4,101
/// are kept. The vector's memory stays from line to line.
///
/// # Errors
///
/// `Truncated` where there is no line feed; `OutOfMemory`.
pub fn read_words<'t>(
    line: u32,
    text: &'t [u8],
    words: &mut Vec<&'t [u8]>,
) -> Result<&'t [u8], LogError>
    ensures line { IfOk result (λ rest. line_of line text.now ≡ Ok (before_first is_feed text.now, rest.now)) }
    ensures words { OnOk result (map (λ word. word.now) words.new.items ≡ take 4101 (tokens_of (before_first is_feed text.now))) }
    ensures refused { IfErr result (λ error. IsLogError error (line_of line text.now)) }
{
    words.clear();
    let mut first = 0;
    for (at, byte) in text.iter().enumerate() {
        if *byte == b'\n' {
            keep(words, &text[first..at])?;
            return Ok(&text[at + 1..]);
        }
        if *byte == b' ' {
            keep(words, &text[first..at])?;
            first = at + 1;
        }
    }
    Err(LogCause::Truncated.at(line))
}

// The number of commas.
fn commas(word: &[u8]) -> usize
    ensures value { result ≡ count_by is_comma word.now }
    ensures few { result ≤ length word.now }
{
    let mut count = 0;
    for byte in word {
        if *byte == b',' {
            count += 1;
        }
    }
    count
}

/// Returns whether the word has `count` pieces, which commas separate.
#[tactic(auto, using(crate::proofs::ValueLemmas::pieces_count))]
pub fn has_pieces(count: usize, word: &[u8]) -> bool
    ensures { result ≡ has_pieces count word.now }
{
    commas(word) + 1 == count
}

/// Returns the version that line 1 names.
///
/// # Errors
///
/// `NotLog` where the line doesn't begin with `psi-log ` and its space, and `Version` where it goes on with
/// anything but `1` or `2`.
#[tactic(auto, unfolding(crate::specs::Words::read_version), using(crate::proofs::ValueLemmas::short_line))]
pub fn read_version(line: &[u8]) -> Result<u8, LogError>
    ensures { Gives (λ version. version) result (read_version line.now) }
{
    if line.len() < 8 {
        return Err(LogCause::NotLog.at(1));
    }
    let (front, rest) = line.split_at(8);
    if front != b"psi-log ".as_slice() {
        return Err(LogCause::NotLog.at(1));
    }
    if rest == b"1".as_slice() {
        return Ok(1);
    }
    if rest == b"2".as_slice() {
        return Ok(2);
    }
    Err(LogCause::Version.at(1))
}

/// Returns the number from `least` to `most` that the words of a line name.
///
/// # Errors
///
/// `Shape` where there aren't two words or the first isn't the name, and `Number` where the second isn't such
/// a number.
#[tactic(auto, unfolding(crate::specs::Words::read_named))]
pub fn read_named(
    line: u32,
    name: &[u8],
    least: u64,
    most: u64,
    words: &[&[u8]],
) -> Result<u64, LogError>
    ensures value { Gives (λ n. n) result (read_named line name.now least most (map (λ word. word.now) words.now)) }
    ensures range { IfOk result (λ n. (least ≤ n) × (n ≤ most)) }
{
    match words {
        [first, number] => {
            if *first != name {
                return Err(LogCause::Shape.at(line));
            }
            number_in(line, least, most, number)
        }
        _ => Err(LogCause::Shape.at(line)),
    }
}
