//! Laws on the states and the samples that the program prints.

ghost use Rattle.psi_law_printed.specs.Agreement.{StatesAgree, ValuesAgree, HorizonsAgree};
ghost use Rattle.psi_law_printed.specs.Printed.{SamplesAreCounted, ReportsAreCounted, ClosedSamplesAreCounted};

/// The commands agree, for one network that a file describes, one seed and one stream.
///
/// - `states`: `sample`, `couple`, `exact` and every accepted log give the same state, if they give one.
/// - `values`: a value that `reward` gives is that of this state.
/// - `horizons`: `couple` gives a state where `sample` does, at a horizon that is at most that of `sample` and more than half of it;
///   and there `reward` gives a value of each reward.
pub fn states_agree()
    ensures states { StatesAgree }
    ensures values { ValuesAgree }
    ensures horizons { HorizonsAgree }
{
    // Nothing is called: it is true of every file.
}

/// What [`run`](psi_run::run) prints for the network of a file is counted by the law of samples.
///
/// - `samples`: the samples of the network, of all lists of random words, have the law, and the reply to `sample`, `couple` or
///   `reward` is that of the one at the random words of the seed and the stream.
/// - `reports`: the reply to `report` is the report of the samples at the random words of the seed and of each stream.
/// - `closed`: so it is of the samples of a closed network and of the reply to `closed`.
pub fn printed_samples_are_counted()
    ensures samples { SamplesAreCounted }
    ensures reports { ReportsAreCounted }
    ensures closed { ClosedSamplesAreCounted }
{
    // Nothing is called: it is true of every file.
}
