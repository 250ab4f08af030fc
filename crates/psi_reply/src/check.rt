//! `check NET`: the description of a network.

ghost use Rattle.std.specs.Prelude.{◌≡◌, ◌++◌, OnOk, IfOk, is_none};
ghost use Rattle.std.specs.List.{list_all};
ghost use Rattle.psi_net_model.specs.Network.{marks_of};
ghost use Rattle.psi_command.specs.declared.status.Status.TheVariants.{Done};
ghost use Rattle.psi_reply.specs.Check.{queue_line, mark_text, event_line, monotone_line, queue_lines, event_lines, check_text, AreMarked};
ghost use Rattle.psi_program.specs.Reply.{text_reply};
ghost use Rattle.psi_reply.specs.Ending.{EndsWith, HasReplied};
ghost use Rattle.psi_reply.specs.Ended.{ending_of};

use crate::ending::Ending;
use crate::pieces::{push_number_line, push_pieces, push_state};
use itoa::Buffer;
use psi_command::Status;
use psi_event::EventLaw;
use psi_net_model::Net;
use psi_state::State;
use std::alloc::{AllocError, Global};

// Appends the line of a queue.
#[tactic(auto, unfolding(crate::specs::Check::queue_line))]
fn push_queue(
    text: &mut Vec<u8>,
    name: &[u8],
    capacity: u16,
    servers: u16,
) -> Result<(), AllocError>
    ensures { OnOk result (text.new.items ≡ text.old.items ++ queue_line name.now capacity servers) }
{
    let mut capacity_digits = Buffer::new();
    let capacity = capacity_digits.format(capacity).as_bytes();
    let mut server_digits = Buffer::new();
    let servers = server_digits.format(servers).as_bytes();
    push_pieces(
        text,
        &[b"queue ", name, b" ", capacity, b" ", servers, b"\n"],
    )
}

// Appends what is said of an event that keeps the order of states, or of two states whose order it breaks.
fn push_mark(text: &mut Vec<u8>, mark: &Option<(State, State)>) -> Result<(), AllocError>
    ensures { OnOk result (text.new.items ≡ text.old.items ++ mark_text mark.now) }
{
    match mark {
        None => text.extend_from_slice(b"monotone"),
        Some((x, y)) => {
            text.extend_from_slice(b"upset ")?;
            push_state(text, x)?;
            text.extend_from_slice(b" ")?;
            push_state(text, y)
        }
    }
}

// Appends the line of an event.
#[tactic(auto, unfolding(crate::specs::Check::event_line))]
fn push_event(
    text: &mut Vec<u8>,
    name: &[u8],
    server: u16,
    rate: u32,
    mark: &Option<(State, State)>,
) -> Result<(), AllocError>
    ensures { OnOk result (text.new.items ≡ text.old.items ++ event_line name.now server rate mark.now) }
{
    let mut server_digits = Buffer::new();
    let server = server_digits.format(server).as_bytes();
    let mut rate_digits = Buffer::new();
    let rate = rate_digits.format(rate).as_bytes();
    push_pieces(text, &[b"event ", name, b" ", server, b" ", rate, b" "])?;
    push_mark(text, mark)?;
    text.push(b'\n')?;
    Ok(())
}

// Appends whether all events are monotone.
fn push_monotone(text: &mut Vec<u8>, monotone: bool) -> Result<(), AllocError>
    ensures { OnOk result (text.new.items ≡ text.old.items ++ monotone_line monotone) }
{
    if monotone {
        push_pieces(text, &[b"monotone yes\n"])
    } else {
        push_pieces(text, &[b"monotone no\n"])
    }
}

// Appends the lines of the queues.
fn push_queues(text: &mut Vec<u8>, net: &Net) -> Result<(), AllocError>
    ensures { OnOk result (text.new.items ≡ text.old.items ++ queue_lines net.now) }
{
    for i in 0..net.queues() {
        let name = net.name(i);
        push_queue(text, name.bytes(), net.capacity(i), net.servers(i))?;
    }
    Ok(())
}

// Appends the lines of the events, and returns whether all events are monotone.
fn push_events(text: &mut Vec<u8>, net: &Net) -> Result<bool, AllocError>
    ensures lines { OnOk result (text.new.items ≡ text.old.items ++ event_lines net.now) }
    ensures monotone { IfOk result (λ monotone. monotone ≡ list_all is_none (marks_of net.now)) }
    ensures marks { OnOk result (AreMarked net.now) }
{
    let system = net.system();
    // Called for its clause: the events fit the capacities.
    let _caps = system.caps();
    let mut monotone = true;
    for e in 0..net.events() {
        let name = net.event_name(e);
        let mark = system.event(e).upset();
        monotone = monotone && mark.is_none();
        push_event(
            text,
            name.bytes(),
            net.event_server(e),
            net.event_rate(e),
            &mark,
        )?;
    }
    Ok(monotone)
}

// The description of a network.
#[tactic(auto, unfolding(crate::specs::Check::check_text))]
fn check_text(alloc: Global, net: &Net) -> Result<Vec<u8>, AllocError>
    ensures text { IfOk result (λ text. text.items ≡ check_text net.now) }
    ensures marks { OnOk result (AreMarked net.now) }
{
    let system = net.system();
    let wheel = system.wheel();
    let mut text = Vec::new(alloc);
    push_number_line(&mut text, b"queues ", net.queues() as u32)?;
    push_queues(&mut text, net)?;
    push_number_line(&mut text, b"events ", net.events() as u32)?;
    let monotone = push_events(&mut text, net)?;
    push_number_line(&mut text, b"modulus ", wheel.modulus())?;
    push_number_line(&mut text, b"idle ", wheel.idle())?;
    push_number_line(&mut text, b"limit ", system.limit() as u32)?;
    push_number_line(&mut text, b"split ", system.split() as u32)?;
    push_monotone(&mut text, monotone)?;
    Ok(text)
}

/// Does the work for `check`: the description of the network, with the mark of each event; status `Done`, or
/// `OutOfMemory`.
pub fn check_ending<'w>(alloc: Global, net: &Net) -> Ending<'w>
    ensures reply { EndsWith (ending_of result) (text_reply Done (check_text net.now)) }
    ensures marks { HasReplied (ending_of result) → AreMarked net.now }
{
    Ending::printed(Status::Done, check_text(alloc, net))
}
