//! The states of a set's words, read one after another: each that is the first one of a run whole, and those of its
//! run from where they differ.

ghost use Rattle.std.specs.Prelude.{◌≡◌, ◌∷◌, ◌+◌, ◌-◌, ◌<◌, ◌≤◌, ◌^◌, ℕ, length, slice_index, take, drop, decimal, true, IsTrue, IfOk, IfSome, OnOk};
ghost use Rattle.psi_log_format.specs.Text.{numbers_text};
ghost use Rattle.psi_log_words.specs.Regions.{ascends};
ghost use Rattle.psi_log_scan.specs.Scanned.{Stands, AreScanned};
ghost use Rattle.psi_log_scan.specs.Inner.RowsViews.{EndsIn, IsNextRow, IsRead};

use crate::runs::{read_run, run_of};
use crate::scan::{has_byte, read_row};
use psi_log_format::StateList;
use psi_state::{MOST_SPLIT, State};
use std::alloc::AllocError;

/// How many decimal digits a number has.
#[inline]
#[tactic(auto, using(crate::proofs::RowsLemmas::length_one, crate::proofs::RowsLemmas::length_two, crate::proofs::RowsLemmas::length_three, crate::proofs::RowsLemmas::length_four, crate::proofs::RowsLemmas::length_five))]
pub(crate) fn width(n: u16) -> usize
    ensures value { result ≡ length (decimal n) }
    ensures some { 1 ≤ result }
    ensures few { result ≤ 5 }
{
    if n < 10 {
        1
    } else if n < 100 {
        2
    } else if n < 1_000 {
        3
    } else if n < 10_000 {
        4
    } else {
        5
    }
}

// The first queue in which a state differs from the one before, or the last one: there the next one is tried.
fn first_apart(before: &State, row: &[u16]) -> usize
    requires { 1 ≤ length row.now }
    ensures { result < length row.now }
{
    let last = row.len() - 1;
    for queue in 0..before.len() {
        let place = queue as usize;
        if place >= last || before.get(queue) != row[place] {
            return place.min(last);
        }
    }
    last
}

// Whether the last state of the list is above the one before it, or the first one of its set, which has the place
// `first`.
#[inline]
fn is_in_order(states: &StateList, first: usize) -> bool
    requires { first < length states.now.states }
    ensures { IsTrue result → first + 1 < length states.now.states → ascends (drop (length states.now.states - 2) states.now.states) ≡ true }
{
    let count = states.len();
    if count - first < 2 {
        return true;
    }
    states.is_below_next(count - 2)
}

// Reads the next state and puts it after those of the list, where it is above the one before it in the set, whose
// first state has the place `first`.
#[inline]
fn next_row(
    text: &[u8],
    at: usize,
    first: usize,
    row: &mut [u16],
    states: &mut StateList,
) -> Result<Option<usize>, AllocError>
    requires some { 1 ≤ length row.old }
    requires queues { states.old.queues ≡ length row.old }
    requires within { at ≤ length text.now }
    requires first { first ≤ length states.old.states }
    ensures count { length row.new ≡ length row.old }
    ensures queues { states.new.queues ≡ states.old.queues }
    ensures kept { OnOk result (take (length states.old.states) states.new.states ≡ states.old.states) }
    ensures more { OnOk result (length states.old.states ≤ length states.new.states) }
    ensures next { IfOk result (λ read. IfSome read (λ end. IsNextRow first text.now at end row.new states.old.states states.new.states)) }
{
    let Some(end) = read_row(text, at, row) else {
        return Ok(None);
    };
    states.push_row(row)?;
    if !is_in_order(states, first) {
        return Ok(None);
    }
    Ok(Some(end))
}

// Reads the run of the last state, which has these numbers, and whose word ends at a place; it begins, with the space
// before it, at `from`. The first state of the set has the place `first`.
#[inline]
fn next_run(
    text: &[u8],
    from: usize,
    at: usize,
    first: usize,
    row: &[u16],
    states: &mut StateList,
) -> Result<usize, AllocError>
    requires some { 1 ≤ length row.now }
    requires few { length row.now ≤ 32 }
    requires queues { states.old.queues ≡ length row.now }
    requires within { at ≤ length text.now }
    requires there { Stands text.now from at (32 ∷ numbers_text row.now) }
    requires first { first < length states.old.states }
    requires last { EndsIn states.old.states row.now }
    ensures queues { states.new.queues ≡ states.old.queues }
    ensures read { IfOk result (λ end. IsRead (length row.now) text.now at end states.old.states states.new.states) }
{
    let count = states.len();
    let done = count - first;
    if done < 2 || done >= MOST_SPLIT as usize {
        return Ok(at);
    }
    let queue = first_apart(&states.get(count - 2), row);
    let Some(run) = run_of(text, from, at, row, queue) else {
        return Ok(at);
    };
    read_run(text, at, MOST_SPLIT as usize - done, &run, row, states)
}

/// Puts the states that stand in a text from a place on, each preceded by a space, after those of the list, and gives
/// the place after them: at most 4,096 states, in ascending order. Where nothing is given, nothing is said of them.
pub(crate) fn read_rows(
    text: &[u8],
    at: usize,
    queues: u8,
    states: &mut StateList,
) -> Result<Option<usize>, AllocError>
    requires some { 1 ≤ queues }
    requires few { queues ≤ 32 }
    requires queues { states.old.queues ≡ queues }
    requires within { at ≤ length text.now }
    ensures queues { states.new.queues ≡ queues }
    ensures kept { OnOk result (take (length states.old.states) states.new.states ≡ states.old.states) }
    ensures more { OnOk result (length states.old.states ≤ length states.new.states) }
    ensures rows { IfOk result (λ read. IfSome read (λ end. AreScanned queues text.now at end states.old.states states.new.states)) }
    ensures order { IfOk result (λ read. IfSome read (λ end. ascends (drop (length states.old.states) states.new.states) ≡ true)) }
{
    let first = states.len();
    let mut numbers = [0; 32];
    let row = &mut numbers[..queues as usize];
    let mut end = at;
    for _ in 0..MOST_SPLIT {
        if !has_byte(text, end, b' ') {
            return Ok(Some(end));
        }
        let Some(next) = next_row(text, end + 1, first, row, states)? else {
            return Ok(None);
        };
        end = next_run(text, end, next, first, row, states)?;
    }
    Ok(Some(end))
}
