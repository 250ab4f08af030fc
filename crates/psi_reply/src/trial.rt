//! `trial NUMBER`: four samples of a network that is made from a number.

ghost use Rattle.std.specs.Prelude.{◌≡◌, IfOk, OnOk};
ghost use Rattle.psi_net_model.specs.Generated.{generated_network};
ghost use Rattle.psi_net_model.specs.Valid.{IsNetwork};
ghost use Rattle.psi_command.specs.declared.status.Status.TheVariants.{Done};
ghost use Rattle.psi_reply.specs.Report.{samples_of};
ghost use Rattle.psi_reply.specs.Trial.{trial_text};
ghost use Rattle.psi_program.specs.Reply.{text_reply};
ghost use Rattle.psi_reply.specs.Ending.{EndsWith, HasReplied};
ghost use Rattle.psi_reply.specs.Ended.{ending_of};

use crate::ending::Ending;
use crate::pieces::push_number_line;
use crate::report::report_of;
use psi_command::Status;
use psi_net_model::{Net, generated};
use std::alloc::{AllocError, Global};

// The text of the trial of a network.
#[tactic(auto, unfolding(crate::specs::Trial::trial_text))]
fn trial_text(alloc: Global, net: &Net, number: u16) -> Result<Vec<u8>, AllocError>
    ensures text { IfOk result (λ text. text.items ≡ trial_text number net.now (samples_of net.now number 0 4)) }
    ensures kept { OnOk result (IsNetwork net.now) }
{
    let report = report_of(alloc, net, number as u64, 0, 4)?;
    let system = net.system();
    let mut text = Vec::new(alloc);
    push_number_line(&mut text, b"trial ", number as u32)?;
    push_number_line(&mut text, b"queues ", net.queues() as u32)?;
    push_number_line(&mut text, b"events ", net.events() as u32)?;
    push_number_line(&mut text, b"modulus ", system.wheel().modulus())?;
    text.extend_from_slice(report.as_slice())?;
    Ok(text)
}

// The trial's text, from its number.
fn text_of(alloc: Global, number: u16) -> Result<Vec<u8>, AllocError>
    ensures text { IfOk result (λ text. text.items ≡ trial_text number (generated_network number) (samples_of (generated_network number) number 0 4)) }
    ensures kept { OnOk result (IsNetwork (generated_network number)) }
{
    let net = generated(alloc, number)?;
    trial_text(alloc, &net, number)
}

/// Does the work for `trial`: a network is made from the number, and four samples of it are drawn and counted; status
/// `Done`, or `OutOfMemory`. No file is read.
pub fn trial_ending<'w>(alloc: Global, number: u16) -> Ending<'w>
    ensures reply { let net = generated_network number in EndsWith (ending_of result) (text_reply Done (trial_text number net (samples_of net number 0 4))) }
    ensures kept { HasReplied (ending_of result) → IsNetwork (generated_network number) }
{
    Ending::printed(Status::Done, text_of(alloc, number))
}
