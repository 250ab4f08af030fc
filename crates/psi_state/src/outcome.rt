//! How a sample ends, and one step of it.

use crate::State;

/// How a sample by coupling from the past ends (Propp and Wilson 1996).
#[derive(Clone, Copy, PartialEq, Eq, Debug)]
pub enum Outcome {
    /// Every state that starts `horizon` steps before time zero, or earlier, is `state` at time zero.
    Met {
        /// The number of steps before time zero: a power of two, at most 4,194,304.
        horizon: u32,
        /// The state in which they meet: the sample.
        state: State,
    },
    /// No region run of a horizon 1, 2, 4, .., 2 to the power `limit` ends in one state. Where every event is
    /// monotone, not all states have met there; otherwise they may have.
    NotMet {
        /// The exponent of the greatest horizon that was tried, 0 to 22.
        limit: u8,
    },
}

/// One step of a run that ends at time zero.
#[derive(Clone, Copy, PartialEq, Eq, Debug)]
pub struct Step {
    /// The time of the step, in steps before time zero, 1 to 4,194,304: 1 is the last step of the run.
    pub number: u32,
    /// The number of the event that happens in the step, or the number of events where none does.
    pub event: u16,
}
