//! `couple NET SEED STREAM`: the least horizon of any length at which a network's runs couple.

ghost use Rattle.psi_reply.specs.Couplings.{coupling_text, HasLimit};
ghost use Rattle.psi_program.specs.Reply.{text_reply};
ghost use Rattle.psi_reply.specs.Couple.{coupling, coupling_status};
ghost use Rattle.psi_reply.specs.Ended.{ending_of};
ghost use Rattle.psi_reply.specs.Ending.{EndsWith};
ghost use Rattle.std.specs.Prelude.{◌≡◌, IfOk};

use crate::ending::Ending;
use crate::planning::plan_for;
use crate::texts::coupling_text;
use psi_command::Status;
use psi_couple::{Coupled, least_horizon};
use psi_horizon::OutOfMemory;
use psi_net_model::Net;
use std::alloc::Global;

// The status of a coupling, once it is printed.
fn coupling_status(coupled: &Coupled) -> Status
    ensures { result ≡ coupling_status coupled.now }
{
    match coupled {
        Coupled::At { .. } => Status::Done,
        Coupled::NotAt { .. } => Status::NotCoupled,
    }
}

// The least coupling of a network under the words of a seed and a stream.
fn coupling_of(alloc: Global, net: &Net, seed: u64, stream: u64) -> Result<Coupled, OutOfMemory>
    ensures value { IfOk result (λ coupled. coupled ≡ coupling net.now seed stream) }
    ensures limit { IfOk result HasLimit }
{
    let mut plan = plan_for(alloc, net, seed, stream)?;
    let coupled = least_horizon(&mut plan);
    drop(plan);
    Ok(coupled)
}

/// Does the work for `couple`: the least horizon in steps, a power of two or not, at which the network's region run
/// couples under the words of a seed and a stream, with its state; status `Done`, or `NotCoupled` where none up to the
/// limit does; or `OutOfMemory`.
pub fn couple_ending<'w>(alloc: Global, net: &Net, seed: u64, stream: u64) -> Ending<'w>
    ensures { EndsWith (ending_of result) (text_reply (coupling_status (coupling net.now seed stream)) (coupling_text (coupling net.now seed stream))) }
{
    let Ok(coupled) = coupling_of(alloc, net, seed, stream) else {
        return Ending::OutOfMemory;
    };
    Ending::printed(coupling_status(&coupled), coupling_text(alloc, &coupled))
}
