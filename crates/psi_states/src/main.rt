//! The program `psi_states`: the states of many streams.
//!
//! `psi_states NET SEED FIRST COUNT` prints a table of the samples of a network, one row for each of COUNT streams from FIRST
//! on; with `closed TOTAL` behind, of a closed network with so many customers.
#![tactic(auto)]

ghost use Rattle.std.specs.Process.{exit_status};
ghost use Rattle.psi_program.specs.Run.{HasEnded};
ghost use Rattle.psi_streams.specs.Run.{IsRunOf};
ghost use Rattle.psi_states.specs.Program.{states};

mod program;

use crate::program::run;
use psi_io::{Shelf, Sink};
use psi_program::{Program, run_program};
use std::alloc::Global;
use std::process::ExitCode;

/// The program, as the system starts it.
struct Stating;

impl Program for Stating {
    ghost is_run = { λ _. IsRunOf states };

    fn run<F: Shelf, O: Sink, E: Sink>(
        &self,
        alloc: Global,
        words: &[String],
        shelf: &mut F,
        out: &mut O,
        err: &mut E,
    ) -> u8 {
        run(alloc, words, shelf, out, err).code()
    }
}

/// Runs the program over the words, the files and the two outputs of the system.
///
/// It ends for want of words, or as a run of the program: by the bytes that the system answered to its reads, and those
/// that it accepted on its outputs.
fn run_states(rt: &HostRuntime) -> ExitCode
    ensures process { HasEnded (IsRunOf states) (exit_status result) }
{
    run_program(&Stating, rt, rt.stdout(), rt.stderr())
}

fn main(rt: HostRuntime) -> ExitCode {
    run_states(&rt)
}
