//! Writing what a call ends with.

ghost use Rattle.std.specs.Prelude.{◌≡◌};
ghost use Rattle.psi_program.specs.SeenBy.{sink_seen};
ghost use Rattle.psi_program.specs.Finished.{IsFinished};
ghost use Rattle.psi_reply.specs.Ending.{faults};
ghost use Rattle.psi_reply.specs.Ended.{ending_of};

use psi_command::Status;
use psi_io::Sink;
use psi_reply::Ending;

/// Writes the text of an ending to out, or its line to err, and returns the status of the call: that of the
/// ending, or `WriteFault` where the text couldn't be written whole. It does not allocate.
pub(crate) fn finish<O: Sink, E: Sink>(ending: &Ending<'_>, out: &mut O, err: &mut E) -> Status
    ensures { IsFinished faults (λ end. end ≡ ending_of ending.now) (O.takes out.old) (E.takes err.old)
        (sink_seen O.held O.took O.faults out.old out.new) (sink_seen E.held E.took E.faults err.old err.new) result }
{
    let line = ending.line();
    let text = ending.text(line.as_slice());
    psi_program::finish(ending.status(), Status::WriteFault, text, out, err)
}
