//! The numbers of a region's words, and the order of these.

ghost use Rattle.std.specs.Prelude.{◌≡◌, ◌&&◌, ℕ, List, ◌+◌, ◌-◌, ◌<◌, ◌≤◌, ◌++◌, length, map, take, drop, true, Ok, IfOk, IfErr, OnOk};
ghost use Rattle.std.specs.List.{list_all};
ghost use Rattle.psi_log_words.specs.Refusal.{Gives, IsLogError, each};
ghost use Rattle.psi_log_words.specs.Words.{has_pieces, number_in};
ghost use Rattle.psi_log_words.specs.Regions.{given_box, given_set, read_state, ascends, read_given};
ghost use Rattle.psi_log_words.specs.FormsViews.{given as given_of, HasForm};
ghost use Rattle.psi_log_format.specs.Listed.{region_of, IsThere};
ghost use Rattle.psi_log_format.specs.Log.{in_box};

use crate::forms::Given;
use crate::moves::read_move;
use crate::numbers::piece_in;
use crate::refusals::{LogCause, LogError};
use psi_log_format::{ListedRegion, StateList};
use psi_state::{Bounds, State};

/// Returns the numbers of a state, of a word that has one piece for each queue.
///
/// # Errors
///
/// `Number` where a piece isn't a number from 0 to 65,535.
#[tactic(auto, unfolding(crate::specs::Regions::read_state))]
pub fn read_state(line: u32, queues: u8, word: &[u8]) -> Result<State, LogError>
    requires some { 1 ≤ queues }
    requires few { queues ≤ 32 }
    requires shaped { has_pieces queues word.now ≡ true }
    ensures value { Gives (λ x. x) result (read_state line word.now) }
    ensures count { IfOk result (λ x. length x ≡ queues) }
{
    let mut x = State::zero(queues);
    let mut rest = word;
    for queue in 0..queues {
        let (number, after) = piece_in(line, 65_535, rest)?;
        x.set(queue, number as u16);
        rest = after;
    }
    Ok(x)
}

// The states of words, put after those of the list.
#[tactic(auto, using(crate::proofs::TurnLemmas::onto_none, crate::proofs::TurnLemmas::turn_ends))]
fn read_states(
    line: u32,
    queues: u8,
    words: &[&[u8]],
    states: &mut StateList,
) -> Result<(), LogError>
    requires some { 1 ≤ queues }
    requires few { queues ≤ 32 }
    requires shaped { list_all (has_pieces queues) (map (λ word. word.now) words.now) ≡ true }
    requires queues { states.old.queues ≡ queues }
    ensures queues { states.new.queues ≡ queues }
    ensures value { OnOk result (each (read_state line) (map (λ word. word.now) words.now) ≡ Ok (drop (length states.old.states) states.new.states)) }
    ensures kept { OnOk result (take (length states.old.states) states.new.states ≡ states.old.states) }
    ensures count { OnOk result (length states.old.states ≤ length states.new.states) }
    ensures refused { IfErr result (λ error. IsLogError error (each (read_state line) (map (λ word. word.now) words.now))) }
{
    for word in words {
        let x = read_state(line, queues, word)?;
        states.push(&x)?;
    }
    Ok(())
}

// Whether the state at a place is lexicographically below the next one, where there is one.
#[tactic(auto, using(crate::proofs::OrderLemmas::order_last, crate::proofs::OrderLemmas::order_next))]
fn is_in_order(states: &StateList, place: usize) -> bool
    requires { place < length states.now.states }
    ensures { ascends (drop place states.now.states) ≡ (result && ascends (drop (place + 1) states.now.states)) }
{
    let count = states.len();
    if place + 1 == count {
        return true;
    }
    states.is_below_next(place)
}

// Whether the states from a place on are in ascending lexicographic order.
#[tactic(auto, using(crate::proofs::OrderLemmas::order_none))]
fn ascends(states: &StateList, first: usize) -> bool
    ensures { result ≡ ascends (drop first states.now.states) }
{
    for place in first..states.len() {
        if !is_in_order(states, place) {
            return false;
        }
    }
    true
}

// The two corners of a box, of words that have one piece for each queue.
#[tactic(auto, unfolding(crate::specs::Regions::read_given), using(crate::proofs::StateLemmas::below_again, crate::proofs::StateLemmas::below_no))]
fn read_box(line: u32, queues: u8, lo: &[u8], hi: &[u8]) -> Result<Bounds, LogError>
    requires some { 1 ≤ queues }
    requires few { queues ≤ 32 }
    requires low { has_pieces queues lo.now ≡ true }
    requires high { has_pieces queues hi.now ≡ true }
    ensures value { Gives in_box result (read_given line queues (given_box lo.now hi.now)) }
    ensures count { IfOk result (λ bounds. length bounds.lo ≡ queues) }
{
    let lo = read_state(line, queues, lo)?;
    let hi = read_state(line, queues, hi)?;
    if !lo.leq(&hi) {
        return Err(LogCause::Shape.at(line));
    }
    Ok(Bounds::new(lo, hi))
}

// The states of a set, put after those of the list, of words that have one piece for each queue.
#[tactic(auto, unfolding(crate::specs::Regions::read_given), using(crate::proofs::TurnLemmas::each_length, crate::proofs::TurnLemmas::rest_whole, crate::proofs::TurnLemmas::rest_there))]
fn read_set(
    line: u32,
    queues: u8,
    words: &[&[u8]],
    states: &mut StateList,
) -> Result<ListedRegion, LogError>
    requires some { 1 ≤ queues }
    requires few { queues ≤ 32 }
    requires count { length words.now ≤ 4096 }
    requires shaped { list_all (has_pieces queues) (map (λ word. word.now) words.now) ≡ true }
    requires queues { states.old.queues ≡ queues }
    ensures queues { states.new.queues ≡ queues }
    ensures value { IfOk result (λ kept. read_given line queues (given_set (map (λ word. word.now) words.now)) ≡ Ok (region_of states.new.states kept)) }
    ensures refused { IfErr result (λ error. IsLogError error (read_given line queues (given_set (map (λ word. word.now) words.now)))) }
    ensures there { IfOk result (λ kept. IsThere queues states.new.states kept) }
    ensures kept { OnOk result (take (length states.old.states) states.new.states ≡ states.old.states) }
    ensures more { OnOk result (length states.old.states ≤ length states.new.states) }
{
    let first = states.len();
    read_states(line, queues, words, states)?;
    if !ascends(states, first) {
        return Err(LogCause::Shape.at(line));
    }
    Ok(ListedRegion::Set {
        first,
        count: words.len() as u16,
    })
}

/// Returns the region of words in their form; the states of a set are put after those of the list.
///
/// # Errors
///
/// `Number` where a number isn't of its form or range; then `Shape` where a box, a set or a move isn't in its
/// order; `OutOfMemory`.
pub fn read_given(
    line: u32,
    queues: u8,
    given: Given<'_>,
    states: &mut StateList,
) -> Result<ListedRegion, LogError>
    requires some { 1 ≤ queues }
    requires few { queues ≤ 32 }
    requires form { HasForm queues given }
    requires queues { states.old.queues ≡ queues }
    ensures queues { states.new.queues ≡ queues }
    ensures value { IfOk result (λ kept. read_given line queues (given_of given.entry) ≡ Ok (region_of states.new.states kept)) }
    ensures refused { IfErr result (λ error. IsLogError error (read_given line queues (given_of given.entry))) }
    ensures there { IfOk result (λ kept. IsThere queues states.new.states kept) }
    ensures kept { OnOk result (take (length states.old.states) states.new.states ≡ states.old.states) }
    ensures more { OnOk result (length states.old.states ≤ length states.new.states) }
{
    match given {
        Given::Box(lo, hi) => Ok(ListedRegion::Box(read_box(line, queues, lo, hi)?)),
        Given::Set(words) => read_set(line, queues, words, states),
        Given::Move(from, words) => { Ok(ListedRegion::Box(read_move(line, queues, from, words)?)) }
    }
}
