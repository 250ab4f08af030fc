//! The pieces of a line, put one after another in a buffer.

ghost use Rattle.std.specs.Prelude.{◌≡◌, ◌∷◌, [], ◌++◌, ◌+◌, ◌≤◌, length, decimal, codes};
ghost use Rattle.psi_log_format.specs.Text.{numbers_text, line_text, number_words};
ghost use Rattle.psi_log_format.specs.Room.{Puts, spaced_words};
ghost use Rattle.psi_log_format.specs.Inner.TableKept.{AreDigits};

use crate::digits::{Digits, put_first, put_next, put_number};
use crate::put::put;
use itoa::Buffer;
use psi_state::{State, Step};

/// Puts a space and the numbers of a state, joined by commas.
pub(crate) fn put_state(out: &mut [u8], at: usize, table: &[Digits], x: &State) -> usize
    requires room { at + 193 ≤ length out.old }
    requires table { AreDigits table.now }
    ensures text { Puts out.old out.new at result (32 ∷ numbers_text x.now) }
    ensures short { result ≤ at + 193 }
{
    let queues = x.len();
    let mut end = put_first(out, at, table, x.get(0));
    for queue in 1..queues {
        end = put_next(out, end, table, x.get(queue));
    }
    end
}

/// Puts the line of a name and a number.
#[tactic(auto, unfolding(crate::specs::Text::line_text))]
pub(crate) fn put_named(out: &mut [u8], at: usize, name: &[u8], n: u64) -> usize
    requires { at + length name.now + 22 ≤ length out.old }
    ensures text { Puts out.old out.new at result (line_text (number_words name.now n)) }
    ensures short { result ≤ at + length name.now + 22 }
{
    let mut digits = Buffer::new();
    let named = put(out, at, name);
    let spaced = put(out, named, b" ");
    let told = put(out, spaced, digits.format(n).as_bytes());
    put(out, told, b"\n")
}

/// Puts the beginning of a step's line: its number and its event.
#[tactic(auto, unfolding(crate::specs::Room::spaced_words))]
pub(crate) fn put_step(out: &mut [u8], at: usize, table: &[Digits], s: &Step) -> usize
    requires room { at + 46 ≤ length out.old }
    requires table { AreDigits table.now }
    ensures text { Puts out.old out.new at result (codes "step" ++ spaced_words (decimal s.now.number ∷ decimal s.now.event ∷ [])) }
    ensures short { result ≤ at + 46 }
{
    let named = put(out, at, b"step ");
    let numbered = put_number(out, named, s.number);
    put_first(out, numbered, table, s.event)
}
