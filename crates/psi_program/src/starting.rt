//! The start of a program by the system.

ghost use Rattle.std.specs.Prelude.{ℕ, map, string_bytes};
ghost use Rattle.std.specs.Process.{exit_status};
ghost use Rattle.psi_program.specs.Run.{Run, HasRun, IsStarted, HasEnded};

use psi_io::{DiskShelf, Shelf, Sink, StdSink};
use std::alloc::Global;
use std::io::{ErrorKind, Write};
use std::process::ExitCode;
use std::rt::{Env, Files};
use std::{env, io};

/// The exit status if an allocation for the arguments fails; that of each program if an allocation fails.
const NO_MEMORY: u8 = 8;

/// The exit status where the system can't give the words, as those that aren't UTF-8.
const NO_WORDS: u8 = 13;

/// A program: what it does for the words after its name.
///
/// `is_run` is its meaning: a relation between the words, the answers that its reads got, the bytes that its outputs
/// accepted, the counts of faults and the exit status. A program that doesn't name it promises nothing.
pub trait Program {
    ghost is_run: { Self → Run → Type 0 } = { λ _ _. Unit {0} };

    /// Does what the words ask for, over a shelf of files and two sinks, and returns the exit status. What crosses
    /// these in the call is a run of the program, whatever the models of the shelf and the sinks have.
    fn run<F: Shelf, O: Sink, E: Sink>(
        &self,
        alloc: Global,
        words: &[String],
        shelf: &mut F,
        out: &mut O,
        err: &mut E,
    ) -> u8
        ensures run { HasRun (is_run self.now) (map string_bytes words.now)
            (record { gave = F.gave shelf.old; out = O.took out.old; err = E.took err.old; tally = record { asked = F.asked shelf.old; files = F.faults shelf.old; out = O.faults out.old; err = E.faults err.old } })
            (record { gave = F.gave shelf.new; out = O.took out.new; err = E.took err.new; tally = record { asked = F.asked shelf.new; files = F.faults shelf.new; out = O.faults out.new; err = E.faults err.new } })
            result };
}

// The words after the program's name.
fn words<R: Env + Alloc<A = Global>>(rt: &R) -> io::Result<Vec<String>> {
    let mut words = Vec::new(rt.alloc());
    for word in env::args(rt)?.skip(1) {
        words.push(word)?;
    }
    Ok(words)
}

/// Runs a program once, over the words of the system, a shelf and two sinks.
///
/// The exit status is 8 if an allocation for the arguments fails, and 13 where the system can't give them; the shelf
/// and the sinks are then left alone. Otherwise what crosses the shelf and the sinks is a run of the program.
pub fn start<P: Program, R: Env + Alloc<A = Global>, F: Shelf, O: Sink, E: Sink>(
    program: &P,
    rt: &R,
    shelf: &mut F,
    out: &mut O,
    err: &mut E,
) -> ExitCode
    ensures { IsStarted (P.is_run program.now)
        (record { gave = F.gave shelf.old; out = O.took out.old; err = E.took err.old; tally = record { asked = F.asked shelf.old; files = F.faults shelf.old; out = O.faults out.old; err = E.faults err.old } })
        (record { gave = F.gave shelf.new; out = O.took out.new; err = E.took err.new; tally = record { asked = F.asked shelf.new; files = F.faults shelf.new; out = O.faults out.new; err = E.faults err.new } })
        (exit_status result) }
{
    let words = match words(rt) {
        Ok(words) => words,
        Err(error) if error.kind() == ErrorKind::OutOfMemory => return ExitCode::from(NO_MEMORY),
        Err(_) => return ExitCode::from(NO_WORDS),
    };
    let status = program.run(rt.alloc(), words.as_slice(), shelf, out, err);
    ExitCode::from(status)
}

/// Runs a program once, over the arguments and the files of the system, and two writers as its outputs.
///
/// The process ends because the system has no arguments for it, or as a run of the program: by the bytes that the system
/// answered to its reads, and those that the writers accepted.
pub fn run_program<P: Program, R: Env + Files + AllocGlobal, O: Write + Drop, E: Write + Drop>(
    program: &P,
    rt: &R,
    out: O,
    err: E,
) -> ExitCode
    ensures { HasEnded (P.is_run program.now) (exit_status result) }
{
    let mut shelf = DiskShelf::new(rt);
    let mut out = StdSink::new(out);
    let mut err = StdSink::new(err);
    start(program, rt, &mut shelf, &mut out, &mut err)
}
