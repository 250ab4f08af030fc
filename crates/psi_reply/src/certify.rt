//! `sample NET SEED STREAM log`: the reply where there is no log.

ghost use Rattle.std.specs.Prelude.{◌≤◌};
ghost use Rattle.psi_state.specs.declared.Outcome.TheVariants.{NotMet};
ghost use Rattle.psi_command.specs.declared.status.Status.TheVariants.{NotCoupled};
ghost use Rattle.psi_reply.specs.Texts.{outcome_text};
ghost use Rattle.psi_program.specs.Reply.{text_reply};
ghost use Rattle.psi_reply.specs.Ending.{EndsWith};
ghost use Rattle.psi_reply.specs.Ended.{ending_of};

use crate::ending::Ending;
use crate::texts::outcome_text;
use psi_command::Status;
use psi_state::Outcome;
use std::alloc::Global;

/// Returns the ending for a sample that isn't met within 2 to the power `limit` steps, `limit` being at most 22: status
/// `NotCoupled` with its text, or `OutOfMemory`.
pub fn unmet_ending<'w>(alloc: Global, limit: u8) -> Ending<'w>
    requires { limit ≤ 22 }
    ensures { EndsWith (ending_of result) (text_reply NotCoupled (outcome_text (NotMet limit))) }
{
    let text = outcome_text(alloc, &Outcome::NotMet { limit });
    Ending::printed(Status::NotCoupled, text)
}
