//! The texts of a sample, a coupling, a value and a log that is accepted.

ghost use Rattle.std.specs.Prelude.{◌≡◌, ◌≤◌, ◌^◌, ◌++◌, codes, IfOk};
ghost use Rattle.std.specs.Fmt.{decimal};
ghost use Rattle.psi_reply.specs.Texts.{state_text, outcome_text, IsWithinLimit, accepted_text};
ghost use Rattle.psi_reply.specs.Couplings.{coupling_text};
ghost use Rattle.psi_reply.specs.Couplings.{HasLimit as HasCouplingLimit};
ghost use Rattle.psi_reply.specs.Values.{value_text};
ghost use Rattle.psi_reply.specs.Values.{HasLimit as HasValueLimit};

use crate::pieces::{push_number_line, push_pieces, push_state};
use itoa::Buffer;
use psi_couple::{Coupled, Valued};
use psi_state::{Outcome, State};
use std::alloc::{AllocError, Global};

// A line with a word and a horizon, and a line with a state.
#[tactic(auto, unfolding(crate::specs::Texts::number_line))]
fn met_text(alloc: Global, word: &[u8], horizon: u32, state: &State) -> Result<Vec<u8>, AllocError>
    ensures { IfOk result (λ text. text.items ≡ word.now ++ decimal horizon ++ codes "\nstate " ++ state_text state.now ++ codes "\n") }
{
    let mut text = Vec::new(alloc);
    push_number_line(&mut text, word, horizon)?;
    text.extend_from_slice(b"state ")?;
    push_state(&mut text, state)?;
    text.push(b'\n')?;
    Ok(text)
}

// A line with words and 2 to the power `limit`.
#[tactic(auto, unfolding(crate::specs::Texts::number_line))]
fn not_met_text(alloc: Global, words: &[u8], limit: u8) -> Result<Vec<u8>, AllocError>
    requires { limit ≤ 22 }
    ensures { IfOk result (λ text. text.items ≡ words.now ++ decimal (2 ^ limit) ++ codes "\n") }
{
    let mut text = Vec::new(alloc);
    let horizon = 1u32 << limit;
    push_number_line(&mut text, words, horizon)?;
    Ok(text)
}

/// Returns what is printed of a sample: where it is met, a line with the horizon and a line with the state; where
/// it isn't, a line with the greatest horizon.
#[tactic(auto, unfolding(crate::specs::Texts::outcome_text))]
pub fn outcome_text(alloc: Global, outcome: &Outcome) -> Result<Vec<u8>, AllocError>
    requires { IsWithinLimit outcome.now }
    ensures { IfOk result (λ text. text.items ≡ outcome_text outcome.now) }
{
    match *outcome {
        Outcome::Met { horizon, state } => met_text(alloc, b"met ", horizon, &state),
        Outcome::NotMet { limit } => not_met_text(alloc, b"not coupled within ", limit),
    }
}

/// Returns what is printed of a coupling: a line with the least horizon and a line with the state; where there is
/// none, a line with the greatest horizon.
#[tactic(auto, unfolding(crate::specs::Couplings::coupling_text))]
pub fn coupling_text(alloc: Global, coupled: &Coupled) -> Result<Vec<u8>, AllocError>
    requires { HasCouplingLimit coupled.now }
    ensures { IfOk result (λ text. text.items ≡ coupling_text coupled.now) }
{
    match *coupled {
        Coupled::NotAt { limit } => not_met_text(alloc, b"not coupled within ", limit),
        Coupled::At { horizon, state } => met_text(alloc, b"coupled ", horizon, &state),
    }
}

/// Returns what is printed of a reward's value: a line with the horizon and a line with the value; where there is
/// none, a line with the greatest horizon.
#[tactic(auto, unfolding(crate::specs::Values::value_text, crate::specs::Texts::number_line))]
pub fn value_text(alloc: Global, valued: &Valued) -> Result<Vec<u8>, AllocError>
    requires { HasValueLimit valued.now }
    ensures { IfOk result (λ text. text.items ≡ value_text valued.now) }
{
    match *valued {
        Valued::At { horizon, value } => {
            let mut digits = Buffer::new();
            let mut text = Vec::new(alloc);
            push_number_line(&mut text, b"reward-met ", horizon)?;
            push_pieces(
                &mut text,
                &[b"value ", digits.format(value).as_bytes(), b"\n"],
            )?;
            Ok(text)
        }
        Valued::NotAt { limit } => not_met_text(alloc, b"reward not coupled within ", limit),
    }
}

/// Returns what is printed of a log that is accepted: a line with its horizon and a line with its state.
#[tactic(auto, unfolding(crate::specs::Texts::accepted_text))]
pub fn accepted_text(alloc: Global, horizon: u32, state: &State) -> Result<Vec<u8>, AllocError>
    ensures { IfOk result (λ text. text.items ≡ accepted_text horizon state.now) }
{
    met_text(alloc, b"accepted ", horizon, state)
}
