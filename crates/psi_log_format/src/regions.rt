//! The words of a region, each preceded by a space.

ghost use Rattle.std.specs.Prelude.{◌≡◌, ◌∷◌, [], ◌+◌, ◌*◌, ◌<◌, ◌≤◌, length};
ghost use Rattle.psi_log_format.specs.Log.{in_box, in_set};
ghost use Rattle.psi_log_format.specs.Text.{region_words, differs, change_to, change_text, move_words};
ghost use Rattle.psi_log_format.specs.Room.{Puts, spaced_words, picked};
ghost use Rattle.psi_log_format.specs.Inner.TableKept.{AreDigits};

use crate::digits::{Digits, put_first, put_next};
use crate::pieces::put_state;
use crate::put::put;
use psi_state::{Bounds, State};

/// Puts the words of a box that is written whole.
#[tactic(auto, unfolding(crate::specs::Room::spaced_words))]
pub(crate) fn put_box(out: &mut [u8], at: usize, table: &[Digits], b: &Bounds) -> usize
    requires room { at + 390 ≤ length out.old }
    requires table { AreDigits table.now }
    ensures text { Puts out.old out.new at result (spaced_words (region_words (in_box b.now))) }
    ensures short { result ≤ at + 390 }
{
    let named = put(out, at, b" box");
    let low = put_state(out, named, table, &b.lo());
    put_state(out, low, table, &b.hi())
}

/// Puts the words of a set.
pub(crate) fn put_set(out: &mut [u8], at: usize, table: &[Digits], states: &[State]) -> usize
    requires room { at + 4 + 193 * length states.now ≤ length out.old }
    requires table { AreDigits table.now }
    ensures text { Puts out.old out.new at result (spaced_words (region_words (in_set states.now))) }
    ensures short { result ≤ at + 4 + 193 * length states.now }
{
    let mut end = put(out, at, b" set");
    for x in states {
        end = put_state(out, end, table, x);
    }
    end
}

// Puts the word of queue `q` with its range in a box.
#[tactic(auto, unfolding(crate::specs::Room::spaced_words, crate::specs::Text::numbers_text))]
fn put_range(out: &mut [u8], at: usize, table: &[Digits], to: &Bounds, q: u8) -> usize
    requires queue { q < length to.now.lo }
    requires room { at + 33 ≤ length out.old }
    requires table { AreDigits table.now }
    ensures text { Puts out.old out.new at result (spaced_words (change_text (change_to to.now q) ∷ [])) }
    ensures short { result ≤ at + 33 }
{
    let queue = put_first(out, at, table, q as u16);
    let least = put_next(out, queue, table, to.least(q));
    put_next(out, least, table, to.greatest(q))
}

/// Puts the words of a box by what changed from the box before it.
#[tactic(auto, unfolding(crate::specs::Text::changes))]
pub(crate) fn put_move(
    out: &mut [u8],
    at: usize,
    table: &[Digits],
    from: &Bounds,
    to: &Bounds,
) -> usize
    requires same { length from.now.lo ≡ length to.now.lo }
    requires room { at + 1061 ≤ length out.old }
    requires table { AreDigits table.now }
    ensures text { Puts out.old out.new at result (spaced_words (move_words from.now to.now)) }
    ensures short { result ≤ at + 1061 }
{
    let mut end = put(out, at, b" move");
    // Called for its clause: the corners have one length.
    let _queues = to.len();
    // The queues that changed and aren't written yet, as bits.
    let mut left = from.apart(to);
    for _ in 0..from.len() {
        if left == 0 {
            return end;
        }
        let q = left.trailing_zeros() as u8;
        end = put_range(out, end, table, to, q);
        left &= !(1 << q);
    }
    end
}
