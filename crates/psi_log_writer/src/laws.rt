//! The law on the log of a run, the contract of a function that does nothing.

ghost use Rattle.psi_log_writer.specs.Accepted.{LogsAreAccepted};

/// A checker accepts the log of each run that ends with one state, with the horizon and this state: each of its
/// regions holds what the step's event makes of the one before (Bušić, Gaujal and Vincent 2008), and the last one is
/// the state alone (coupling from the past, Propp and Wilson 1996).
pub fn logs_are_accepted()
    ensures { LogsAreAccepted }
{}
