//! The law on the runs for a sample, the contract of a function that does nothing.

ghost use Rattle.psi_run.specs.Headline.{SamplesOfGiven, SamplesOfWhole};

/// Each run for `sample NET SEED STREAM` that ends with none of the statuses 6, 7 and 8 prints a sample of the network
/// in NET: of the network that the bytes read as which were answered to the read of NET (`given`), and of the network that
/// NET holds, whatever the files hold of which the answers are prefixes (`whole`).
///
/// It speaks of what crossed the edges of the program, so it holds for the process that the system starts, too.
pub fn samples_are_right()
    ensures given { SamplesOfGiven }
    ensures whole { SamplesOfWhole }
{}
