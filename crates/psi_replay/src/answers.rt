//! How a replay ends.

use psi_state::State;

/// Whether a log certifies its state.
#[derive(Clone, Copy, PartialEq, Eq, Debug)]
pub enum Verdict {
    /// The log breaks no rule: every state that starts `horizon` steps before time zero, or earlier, is `state`
    /// at time zero.
    Accepted {
        /// The number of steps before time zero, 1 to 4,194,304.
        horizon: u32,
        /// The state at time zero.
        state: State,
    },
    /// A line of the log breaks a rule.
    Rejected {
        /// The first such line, counted from 1.
        line: u32,
        /// The number of the line's first cause, 1 to 8, as [`crate::RuleCause`] has them.
        cause: u8,
    },
}
