//! The words of a region in their form: the fixed words, the number of words, and the number of pieces of each.

ghost use Rattle.std.specs.Prelude.{◌≡◌, ◌≤◌, map, length, true, IfOk, IfSome, option_copied};
ghost use Rattle.std.specs.List.{list_all};
ghost use Rattle.psi_log_words.specs.Refusal.{Gives};
ghost use Rattle.psi_log_words.specs.Words.{has_pieces};
ghost use Rattle.psi_log_words.specs.Regions.{box_form, set_form, move_form, form_of};
ghost use Rattle.psi_log_words.specs.FormsViews.{given, HasForm};

use crate::refusals::{LogCause, LogError};
use crate::words::has_pieces;
use psi_state::{Bounds, MOST_SPLIT};

/// The words of a region in their form.
#[derive(Clone, Copy, Debug)]
pub enum Given<'w> {
    /// A box, by the words of its two corners.
    Box(&'w [u8], &'w [u8]),
    /// A set, by the words of its states.
    Set(&'w [&'w [u8]]),
    /// A box, by the box before it and the words of what changed.
    Move(&'w Bounds, &'w [&'w [u8]]),
}

// Whether each word has `count` pieces.
#[tactic(auto, using(crate::proofs::TurnLemmas::shaped_turn, crate::proofs::TurnLemmas::shaped_fails, crate::proofs::TurnLemmas::shaped_ends))]
fn are_shaped(count: usize, words: &[&[u8]]) -> bool
    ensures { result ≡ list_all (has_pieces count) (map (λ word. word.now) words.now) }
{
    for word in words {
        if !has_pieces(count, word) {
            return false;
        }
    }
    true
}

// The words after `box`: two states.
#[tactic(auto, unfolding(crate::specs::Regions::box_form))]
fn box_form<'w>(line: u32, queues: u8, words: &'w [&'w [u8]]) -> Result<Given<'w>, LogError>
    ensures value { Gives given result (box_form line queues (map (λ word. word.now) words.now)) }
    ensures form { IfOk result (λ given. HasForm queues given) }
{
    match words {
        [lo, hi] => {
            if has_pieces(queues as usize, lo) && has_pieces(queues as usize, hi) {
                Ok(Given::Box(lo, hi))
            } else {
                Err(LogCause::Shape.at(line))
            }
        }
        _ => Err(LogCause::Shape.at(line)),
    }
}

// The words after `set`: 1 to 4,096 states.
#[tactic(auto, unfolding(crate::specs::Regions::set_form))]
fn set_form<'w>(line: u32, queues: u8, words: &'w [&'w [u8]]) -> Result<Given<'w>, LogError>
    ensures value { Gives given result (set_form line queues (map (λ word. word.now) words.now)) }
    ensures form { IfOk result (λ given. HasForm queues given) }
{
    if !words.is_empty()
        && words.len() <= MOST_SPLIT as usize
        && are_shaped(queues as usize, words)
    {
        Ok(Given::Set(words))
    } else {
        Err(LogCause::Shape.at(line))
    }
}

// The words after `move`: at most 32, each of three pieces.
#[tactic(auto, unfolding(crate::specs::Regions::move_form))]
fn move_form<'w>(line: u32, from: &'w Bounds, words: &'w [&'w [u8]]) -> Result<Given<'w>, LogError>
    ensures value { Gives given result (move_form line from.now (map (λ word. word.now) words.now)) }
    ensures form { IfOk result (λ given. HasForm (length from.now.lo) given) }
{
    if words.len() <= 32 && are_shaped(3, words) {
        Ok(Given::Move(from, words))
    } else {
        Err(LogCause::Shape.at(line))
    }
}

/// Returns the form of a region's words. Where a box before them is given, a box has to be written by what changed
/// from it.
///
/// # Errors
///
/// `Shape` where the words have no such form.
#[tactic(auto, unfolding(crate::specs::Regions::form_of))]
pub fn form_of<'w>(
    line: u32,
    queues: u8,
    before: Option<&'w Bounds>,
    words: &'w [&'w [u8]],
) -> Result<Given<'w>, LogError>
    requires { IfSome before (λ from. length from.now.lo ≡ queues) }
    ensures value { Gives given result (form_of line queues (option_copied before.entry) (map (λ word. word.now) words.now)) }
    ensures form { IfOk result (λ given. HasForm queues given) }
{
    let [name, words @ ..] = words else {
        return Err(LogCause::Shape.at(line));
    };
    if *name == b"set".as_slice() {
        return set_form(line, queues, words);
    }
    match before {
        Some(from) if *name == b"move".as_slice() => move_form(line, from, words),
        None if *name == b"box".as_slice() => box_form(line, queues, words),
        _ => Err(LogCause::Shape.at(line)),
    }
}
