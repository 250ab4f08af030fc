//! The line before the steps of a log, and the one after them.

ghost use Rattle.std.specs.Prelude.{◌≡◌, ◌≤◌, length, map, Ok, None, IfOk, IfErr};
ghost use Rattle.psi_log_words.specs.Refusal.{Gives, IsLogError};
ghost use Rattle.psi_log_format.specs.Listed.{region_of, IsThere};
ghost use Rattle.psi_log.specs.Reading.{read_begin, read_end};

use psi_log_format::{ListedRegion, StateList};
use psi_log_words::{LogCause, LogError, form_of, has_pieces, read_given, read_state};
use psi_state::State;

/// The region at which the run begins, of the words of its line; the states of a set are put after those of the list.
///
/// # Errors
///
/// The line's first refusal; `OutOfMemory`.
#[tactic(auto, unfolding(crate::specs::Reading::read_begin))]
pub(crate) fn read_begin(
    queues: u8,
    words: &[&[u8]],
    states: &mut StateList,
) -> Result<ListedRegion, LogError>
    requires some { 1 ≤ queues }
    requires few { queues ≤ 32 }
    requires queues { states.old.queues ≡ queues }
    ensures queues { states.new.queues ≡ queues }
    ensures value { IfOk result (λ kept. read_begin queues (map (λ word. word.now) words.now) ≡ Ok (region_of states.new.states kept)) }
    ensures refused { IfErr result (λ error. IsLogError error (read_begin queues (map (λ word. word.now) words.now))) }
    ensures there { IfOk result (λ kept. IsThere queues states.new.states kept) }
{
    let [first, region @ ..] = words else {
        return Err(LogCause::Shape.at(6));
    };
    if *first != b"begin".as_slice() {
        return Err(LogCause::Shape.at(6));
    }
    match form_of(6, queues, None, region) {
        Ok(form) => read_given(6, queues, form, states),
        Err(error) => Err(error),
    }
}

/// The state at time zero, of the words of its line.
///
/// # Errors
///
/// The line's first refusal.
#[tactic(auto, unfolding(crate::specs::Reading::read_end))]
pub(crate) fn read_end(line: u32, queues: u8, words: &[&[u8]]) -> Result<State, LogError>
    requires some { 1 ≤ queues }
    requires few { queues ≤ 32 }
    ensures value { Gives (λ x. x) result (read_end line queues (map (λ word. word.now) words.now)) }
    ensures count { IfOk result (λ x. length x ≡ queues) }
{
    match words {
        [first, state] => {
            if *first == b"end".as_slice() && has_pieces(queues as usize, state) {
                read_state(line, queues, state)
            } else {
                Err(LogCause::Shape.at(line))
            }
        }
        _ => Err(LogCause::Shape.at(line)),
    }
}
