//! The beginning of a step's line.

ghost use Rattle.std.specs.Prelude.{◌≡◌, ◌∷◌, [], ◌++◌, ◌+◌, ◌≤◌, length, codes, decimal, IsTrue, IfSome};
ghost use Rattle.psi_log_format.specs.Log.{greatest_horizon};
ghost use Rattle.psi_log_format.specs.Room.{spaced_words};
ghost use Rattle.psi_log_scan.specs.Scanned.{Stands};

use crate::header::greatest_horizon;
use crate::same::are_same;
use crate::scan::{digit_of, has_byte, number_at, small_at};
use psi_state::{MOST_EVENTS, Step};

/// Returns whether a word stands at a place. Callers pass a constant, so that the compiler compares its bytes at once.
#[inline]
pub fn has_name(text: &[u8], at: usize, word: &[u8]) -> bool
    ensures within { IsTrue result → at + length word.now ≤ length text.now }
    ensures there { IsTrue result → Stands text.now at (at + length word.now) word.now }
{
    if at > text.len() || text.len() - at < word.len() {
        return false;
    }
    are_same(&text[at..at + word.len()], word)
}

// The number of at most seven digits that stands after the word of a step, and the place after it.
#[inline]
fn time_at(text: &[u8]) -> Option<(u32, usize)>
    ensures within { IfSome result (λ read. read.1 ≤ length text.now) }
    ensures there { IfSome result (λ read. Stands text.now 5 read.1 (decimal read.0)) }
{
    if text.len() < 12 {
        return number_at(text, 5);
    }
    let digits = &text[5..12];
    let mut value = digit_of(digits[0])?;
    for place in 1..7 {
        let Some(digit) = digit_of(digits[place]) else {
            return Some((value, 5 + place));
        };
        if value == 0 || value > 999_999 {
            return None;
        }
        value = 10 * value + digit;
    }
    Some((value, 12))
}

/// Returns the step whose line begins a text, and the place after its event.
#[inline]
#[tactic(auto, using(crate::proofs::SetLineLemmas::step_stands))]
pub fn step_at(version: u8, text: &[u8]) -> Option<(Step, usize)>
    ensures least { IfSome result (λ read. 1 ≤ read.0.number) }
    ensures most { IfSome result (λ read. read.0.number ≤ greatest_horizon version) }
    ensures event { IfSome result (λ read. read.0.event ≤ 1024) }
    ensures there { IfSome result (λ read. Stands text.now 0 read.1 (codes "step" ++ spaced_words (decimal read.0.number ∷ decimal read.0.event ∷ []))) }
{
    if !has_name(text, 0, b"step ") {
        return None;
    }
    let (number, end) = time_at(text)?;
    if number < 1 || number > greatest_horizon(version) || !has_byte(text, end, b' ') {
        return None;
    }
    let (event, end) = small_at(text, end + 1)?;
    if event as u32 > MOST_EVENTS {
        return None;
    }
    Some((Step { number, event }, end))
}
