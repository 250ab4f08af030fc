//! The lines of `psi` under another program's name.

ghost use Rattle.std.specs.Prelude.{◌≡◌, ◌≤◌, length};
ghost use Rattle.psi_program.specs.Finished.{IsFinished};
ghost use Rattle.psi_program.specs.SeenBy.{sink_seen};
ghost use Rattle.psi_reply.specs.Ended.{ending_of};
ghost use Rattle.psi_streams.specs.Named.{named_line, named_ending, faults};

use arrayvec::ArrayVec;
use psi_command::Status;
use psi_io::Sink;
use psi_reply::{Ending, Line};

// A line of err, on the stack: at most seven bytes longer than one of `psi`.
type NamedLine = ArrayVec<u8, 256>;

// A line of `psi` under a program's name, of at most 10 bytes, which replaces its first three bytes. No line stays none.
#[tactic(auto, unfolding(crate::specs::Named::named_line))]
fn named_line(name: &[u8], line: &Line) -> NamedLine
    requires { length name.now ≤ 10 }
    ensures { result.items ≡ named_line name.now line.now.items }
{
    let mut named = NamedLine::new();
    if let [_, _, _, rest @ ..] = line.as_slice() {
        let _ = named.try_extend_from_slice(name);
        let _ = named.try_extend_from_slice(rest);
    }
    named
}

/// Writes the text of an ending to out, or its line to err under the name, of at most 10 bytes, and answers the status of
/// the call: that of the ending, or `WriteFault` where the text couldn't be written whole. It does not allocate.
pub(crate) fn finish<O: Sink, E: Sink>(
    name: &[u8],
    ending: &Ending<'_>,
    out: &mut O,
    err: &mut E,
) -> Status
    requires { length name.now ≤ 10 }
    ensures { IsFinished (faults name.now) (λ end. end ≡ named_ending name.now (ending_of ending.now)) (O.takes out.old) (E.takes err.old)
        (sink_seen O.held O.took O.faults out.old out.new) (sink_seen E.held E.took E.faults err.old err.new) result }
{
    let line = named_line(name, &ending.line());
    let text = ending.text(line.as_slice());
    psi_program::finish(ending.status(), Status::WriteFault, text, out, err)
}
