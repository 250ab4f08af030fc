//! What a survey reports.

use crate::sizes::Sizes;
use psi_state::State;

/// The least horizon at which the composed map is constant, if there is one.
#[derive(Clone, Copy, PartialEq, Eq, Debug)]
pub enum Meeting {
    /// The map of the last `horizon` steps sends every state to `state`, and no shorter one sends all
    /// states to one.
    Constant {
        /// The number of steps before time zero, 1 to 4,096; not only powers of two.
        horizon: u32,
        /// The state in which all states are at time zero that start there or earlier.
        state: State,
    },
    /// No map of the last 1 to 2 to the power `exponent` steps is constant.
    NotConstant {
        /// The exponent of the greatest horizon, 0 to 12.
        exponent: u8,
    },
}

/// What the composed map of all states shows.
#[derive(Clone, Copy, Debug)]
pub struct Survey {
    /// The numbers of states that are left of all after the last 1, 2, 4, .., 2 to the power `h` steps.
    pub sizes: Sizes,
    /// The least horizon from 1 to 2 to the power `h` at which one state is left, if there is one.
    pub meeting: Meeting,
}
