//! A box that is written by what changed from the box before it.

ghost use Rattle.std.specs.Prelude.{◌≡◌, ◌<◌, ◌≤◌, length, map, true, IfOk};
ghost use Rattle.std.specs.List.{list_all};
ghost use Rattle.psi_log_format.specs.Log.{in_box};
ghost use Rattle.psi_log_words.specs.Refusal.{Gives};
ghost use Rattle.psi_log_words.specs.Words.{pieces_of, has_pieces};
ghost use Rattle.psi_log_words.specs.Regions.{read_change, is_change, read_given, given_move};
ghost use Rattle.psi_log_words.specs.ChangesViews.{change};

use crate::numbers::piece_in;
use crate::refusals::{LogCause, LogError};
use psi_state::Bounds;

/// A queue, with the least and the greatest number of customers that it holds from now on.
#[derive(Clone, Copy, Debug)]
pub struct Change {
    /// The queue, counted from 0.
    pub queue: u8,
    /// The least number of customers.
    pub least: u16,
    /// The greatest number of customers.
    pub greatest: u16,
}

// The three numbers of a change, of a word that has three pieces.
#[tactic(auto, unfolding(crate::specs::Regions::read_change))]
fn read_change(line: u32, queues: u8, word: &[u8]) -> Result<Change, LogError>
    requires some { 1 ≤ queues }
    requires shaped { has_pieces 3 word.now ≡ true }
    ensures value { Gives change result (read_change line queues (pieces_of word.now)) }
    ensures range { IfOk result (λ c. c.queue < queues) }
{
    let (queue, rest) = piece_in(line, queues as u64 - 1, word)?;
    let (least, rest) = piece_in(line, 65_535, rest)?;
    let (greatest, _) = piece_in(line, 65_535, rest)?;
    Ok(Change {
        queue: queue as u8,
        least: least as u16,
        greatest: greatest as u16,
    })
}

/// Returns whether the least number is at most the greatest, and they aren't both those that the queue had.
pub fn is_change(from: &Bounds, c: &Change) -> bool
    requires { c.now.queue < length from.now.lo }
    ensures { result ≡ is_change from.now (change c.now) }
{
    c.least <= c.greatest
        && (from.least(c.queue) != c.least || from.greatest(c.queue) != c.greatest)
}

/// The box that words of three pieces make of the box before it.
///
/// # Errors
///
/// `Number` where a queue isn't below the number of queues, or a bound is no number from 0 to 65,535; then
/// `Shape` where the queues don't ascend, a least number is above the greatest one, or a queue has the bounds
/// that it had.
pub(crate) fn read_move(
    line: u32,
    queues: u8,
    from: &Bounds,
    words: &[&[u8]],
) -> Result<Bounds, LogError>
    requires some { 1 ≤ queues }
    requires same { length from.now.lo ≡ queues }
    requires shaped { list_all (has_pieces 3) (map (λ word. word.now) words.now) ≡ true }
    ensures value { Gives in_box result (read_given line queues (given_move from.now (map (λ word. word.now) words.now))) }
    ensures count { IfOk result (λ bounds. length bounds.lo ≡ queues) }
{
    let mut to = *from;
    let mut next: u8 = 0;
    let mut ordered = true;
    for word in words {
        let c = read_change(line, queues, word)?;
        if ordered && next <= c.queue && is_change(from, &c) {
            to.set(c.queue, c.least, c.greatest);
            next = c.queue + 1;
        } else {
            ordered = false;
        }
    }
    if !ordered {
        return Err(LogCause::Shape.at(line));
    }
    Ok(to)
}
