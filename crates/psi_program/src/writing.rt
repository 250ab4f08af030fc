//! Writing the text with which a call ends.

ghost use Rattle.std.specs.Prelude.{◌≡◌, MatchResult};
ghost use Rattle.psi_program.specs.SeenBy.{sink_seen};
ghost use Rattle.psi_program.specs.Written.{reply_with, IsWrittenAs, IsSpared};

use psi_io::{Sink, SinkFault, write_all};

/// The text with which a call ends.
#[derive(Clone, Copy, Debug)]
pub enum Text<'t> {
    /// A text for out.
    Printed(&'t [u8]),
    /// A line for err.
    Reported(&'t [u8]),
}

// The status once a text is written, or that of a failed write.
fn status_of<S: Copy>(written: Result<(), SinkFault>, status: S, fault: S) -> S
    ensures { MatchResult written (λ _. result ≡ status) (λ _. result ≡ fault) }
{
    match written {
        Ok(()) => status,
        Err(_) => fault,
    }
}

/// Writes the text with which a call ends, as one piece, and returns the call's status, or the one of a fault where the
/// text couldn't be written whole. It does not allocate.
pub fn finish<S: Copy, O: Sink, E: Sink>(
    status: S,
    fault: S,
    text: Text<'_>,
    out: &mut O,
    err: &mut E,
) -> S
    ensures written { IsWrittenAs (reply_with status text.entry) fault
        (sink_seen O.held O.took O.faults out.old out.new) (sink_seen E.held E.took E.faults err.old err.new) result }
    // Where each sink takes its text, the status is the call's, and no count rose.
    ensures taken { IsSpared (O.takes out.old) (E.takes err.old) (reply_with status text.entry)
        (sink_seen O.held O.took O.faults out.old out.new) (sink_seen E.held E.took E.faults err.old err.new) result }
{
    match text {
        Text::Printed(text) => status_of(write_all(out, text), status, fault),
        Text::Reported(line) => status_of(write_all(err, line), status, fault),
    }
}
