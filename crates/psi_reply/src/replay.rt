//! `replay NET LOG`: the verdict of a network on a log.

ghost use Rattle.std.specs.Prelude.{◌≡◌, ℕ, List};
ghost use Rattle.psi_log_words.specs.Refusal.{Gives};
ghost use Rattle.psi_net_model.specs.Network.{Network};
ghost use Rattle.psi_replay.specs.Passes.{replayed};
ghost use Rattle.psi_replay.specs.declared.answers.Verdict.TheVariants.{Accepted};
ghost use Rattle.psi_reply.specs.Replay.{judgement};
ghost use Rattle.psi_reply.specs.Reply.{verdict_reply, replay_reply};
ghost use Rattle.psi_reply.specs.Ending.{EndsWith};
ghost use Rattle.psi_reply.specs.Ended.{ending_of};

use crate::ending::Ending;
use crate::texts::accepted_text;
use psi_command::Status;
use psi_log::LogError;
use psi_replay::Verdict;
use psi_state::State;
use std::alloc::Global;

// The work on a log that is accepted.
fn accept<'w>(alloc: Global, horizon: u32, state: &State) -> Ending<'w>
    ensures { EndsWith (ending_of result) (verdict_reply (Accepted horizon state.now)) }
{
    Ending::printed(Status::Done, accepted_text(alloc, horizon, state))
}

// The work on a log with this verdict.
fn tell<'w>(alloc: Global, verdict: Verdict) -> Ending<'w>
    ensures { EndsWith (ending_of result) (verdict_reply verdict) }
{
    match verdict {
        Verdict::Accepted { horizon, state } => accept(alloc, horizon, &state),
        Verdict::Rejected { line, cause } => Ending::LogRejected { line, cause },
    }
}

/// Does the work for a replay that gave this verdict: the horizon and the state of a log that is accepted, the first
/// line that is refused or breaks a rule, with its cause, or `OutOfMemory`.
#[tactic(auto, using(crate::proofs::ReplayingLemmas::verdict_replied, crate::proofs::ReplayingLemmas::refusal_replied))]
pub fn verdict_ending<'w>(alloc: Global, verdict: Result<Verdict, LogError>) -> Ending<'w>
    ensures { (net : Network) (text : List ℕ) → Gives (λ given. given) verdict (replayed (judgement net) text) → EndsWith (ending_of result) (replay_reply net text) }
{
    match verdict {
        Ok(verdict) => tell(alloc, verdict),
        Err(LogError::Refused { line, cause }) => Ending::LogRefused { line, cause },
        Err(LogError::OutOfMemory) => Ending::OutOfMemory,
    }
}
