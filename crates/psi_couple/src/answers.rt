//! How the search for a horizon ends.

use psi_state::State;

/// The least horizon whose region run ends with one state, if there is one.
#[derive(Clone, Copy, PartialEq, Eq, Debug)]
pub enum Coupled {
    /// The run of `horizon` ends with `state` alone, and no shorter run ends with one state.
    At {
        /// The number of steps before time zero, 1 to 4,194,304; not only powers of two.
        horizon: u32,
        /// The state with which the run ends: every state that starts there or earlier is in it at time
        /// zero.
        state: State,
    },
    /// No run of a horizon from 1 to 2 to the power `limit` ends with one state.
    NotAt {
        /// The exponent of the greatest horizon, 0 to 22.
        limit: u8,
    },
}

/// The least of the horizons 1, 2, 4, .. at which a reward has one value for all states with which the
/// region run ends, if there is one.
#[derive(Clone, Copy, PartialEq, Eq, Debug)]
pub enum Valued {
    /// All states with which the run of `horizon` ends have `value`.
    At {
        /// The number of steps before time zero: a power of two, at most 4,194,304.
        horizon: u32,
        /// The value of the reward, in its unit: every state that starts there or earlier has it at time
        /// zero.
        value: i64,
    },
    /// No run of a horizon 1, 2, 4, .., 2 to the power `limit` ends with states of one value.
    NotAt {
        /// The exponent of the greatest horizon that was tried, 0 to 22.
        limit: u8,
    },
}
