//! How texts are written: piece by piece, a number by its decimal digits.

ghost use Rattle.std.specs.Prelude.{◌≡◌, ◌<◌, ◌≤◌, ◌+◌, ◌∷◌, ◌++◌, decimal, vec_len, vec_capacity, OnOk};
ghost use Rattle.std.specs.List.{flat_map};
ghost use Rattle.psi_reply.specs.Texts.{number_line, state_text};

use itoa::Buffer;
use psi_state::State;
use std::alloc::AllocError;

/// Appends the pieces one after another.
pub fn push_pieces(text: &mut Vec<u8>, pieces: &[&[u8]]) -> Result<(), AllocError>
    ensures { OnOk result (text.new.items ≡ text.old.items ++ flat_map (λ piece. piece.now) pieces.now) }
{
    for piece in pieces {
        text.extend_from_slice(piece)?;
    }
    Ok(())
}

/// Appends a word, a number and a line feed.
#[tactic(auto, unfolding(crate::specs::Texts::number_line))]
pub fn push_number_line(text: &mut Vec<u8>, word: &[u8], n: u32) -> Result<(), AllocError>
    ensures { OnOk result (text.new.items ≡ text.old.items ++ number_line word.now n) }
{
    let mut digits = Buffer::new();
    push_pieces(text, &[word, digits.format(n).as_bytes(), b"\n"])
}

// Appends a number of customers.
fn push_customers(text: &mut Vec<u8>, customers: u16) -> Result<(), AllocError>
    ensures { OnOk result (text.new.items ≡ text.old.items ++ decimal customers) }
{
    let mut digits = Buffer::new();
    text.extend_from_slice(digits.format(customers).as_bytes())
}

// Appends a number of one digit or two, for which there is room.
#[tactic(auto, using(std::proofs::lemmas::Fmt::decimal_digit))]
fn push_small(text: &mut Vec<u8>, customers: u16)
    requires small { customers < 100 }
    requires room { vec_len text.old + 2 ≤ vec_capacity text.old }
    ensures { text.new.items ≡ text.old.items ++ decimal customers }
{
    if customers < 10 {
        text.push_reserved(b'0' + customers as u8);
        return;
    }
    text.push_reserved(b'0' + (customers / 10) as u8);
    text.push_reserved(b'0' + (customers % 10) as u8);
}

// Appends a comma and a number of customers. Most numbers are small, and then no other call is made.
fn push_further(text: &mut Vec<u8>, customers: u16) -> Result<(), AllocError>
    ensures { OnOk result (text.new.items ≡ text.old.items ++ 44 ∷ decimal customers) }
{
    text.reserve(3)?;
    text.push_reserved(b',');
    if customers < 100 {
        push_small(text, customers);
        return Ok(());
    }
    push_customers(text, customers)?;
    Ok(())
}

/// Appends a state's numbers in the queues' order, joined by commas.
#[tactic(auto, using(psi_log_format::proofs::JoinedLemmas::numbers_text_first))]
pub fn push_state(text: &mut Vec<u8>, state: &State) -> Result<(), AllocError>
    ensures { OnOk result (text.new.items ≡ text.old.items ++ state_text state.now) }
{
    let queues = state.len();
    push_customers(text, state.get(0))?;
    for queue in 1..queues {
        push_further(text, state.get(queue))?;
    }
    Ok(())
}
