//! The program `psi`: perfect samples of queueing networks.
#![tactic(auto)]

ghost use Rattle.std.specs.Process.{exit_status};
ghost use Rattle.psi_program.specs.Run.{HasEnded};
ghost use Rattle.psi_run.specs.Run.{IsRunOf};

use psi_io::{Shelf, Sink};
use psi_program::{Program, run_program};
use psi_run::run;
use std::alloc::Global;
use std::process::ExitCode;

/// The program, as the system starts it.
struct Psi;

impl Program for Psi {
    ghost is_run = { λ _. IsRunOf };

    fn run<F: Shelf, O: Sink, E: Sink>(
        &self,
        alloc: Global,
        words: &[String],
        shelf: &mut F,
        out: &mut O,
        err: &mut E,
    ) -> u8 {
        run(alloc, words, shelf, out, err).code()
    }
}

/// Runs the program over the words, the files and the two outputs of the system.
///
/// It ends because the system has no words for it, or as a run of the program: by the bytes that the system answered to its reads, and those
/// that it accepted on its outputs.
fn run_psi(rt: &HostRuntime) -> ExitCode
    ensures process { HasEnded IsRunOf (exit_status result) }
{
    run_program(&Psi, rt, rt.stdout(), rt.stderr())
}

fn main(rt: HostRuntime) -> ExitCode {
    run_psi(&rt)
}
