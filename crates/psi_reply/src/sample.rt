//! `sample NET SEED STREAM`: a sample of a network.

ghost use Rattle.std.specs.Prelude.{◌≡◌, IfOk};
ghost use Rattle.psi_reply.specs.Texts.{outcome_text, IsWithinLimit};
ghost use Rattle.psi_reply.specs.Sample.{sampled, outcome_status};
ghost use Rattle.psi_program.specs.Reply.{text_reply};
ghost use Rattle.psi_reply.specs.Ending.{EndsWith};
ghost use Rattle.psi_reply.specs.Ended.{ending_of};

use crate::ending::Ending;
use crate::planning::plan_for;
use crate::texts::outcome_text;
use psi_command::Status;
use psi_horizon::OutOfMemory;
use psi_net_model::Net;
use psi_state::Outcome;
use std::alloc::Global;

// The sample of a network under the words of a seed and a stream.
fn sample_of(alloc: Global, net: &Net, seed: u64, stream: u64) -> Result<Outcome, OutOfMemory>
    ensures value { IfOk result (λ outcome. outcome ≡ sampled net.now seed stream) }
    ensures limit { IfOk result IsWithinLimit }
{
    let mut plan = plan_for(alloc, net, seed, stream)?;
    let outcome = plan.sample();
    drop(plan);
    Ok(outcome)
}

/// The status of a sample, once it is printed.
pub(crate) fn outcome_status(outcome: &Outcome) -> Status
    ensures { result ≡ outcome_status outcome.now }
{
    match outcome {
        Outcome::Met { .. } => Status::Done,
        Outcome::NotMet { .. } => Status::NotCoupled,
    }
}

/// Does the work for `sample`: the sample that a seed and a stream draw of the network; status `Done` where it is met,
/// `NotCoupled` where it isn't met within the network's limit; or `OutOfMemory`.
pub fn sample_ending<'w>(alloc: Global, net: &Net, seed: u64, stream: u64) -> Ending<'w>
    ensures { EndsWith (ending_of result) (text_reply (outcome_status (sampled net.now seed stream)) (outcome_text (sampled net.now seed stream))) }
{
    let Ok(outcome) = sample_of(alloc, net, seed, stream) else {
        return Ending::OutOfMemory;
    };
    Ending::printed(outcome_status(&outcome), outcome_text(alloc, &outcome))
}
