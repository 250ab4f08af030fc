//! What the rows of a report say.

use psi_net_model::Name;

/// What a figure is of.
#[derive(Clone, Copy, PartialEq, Eq, Debug)]
pub enum Item {
    /// The sum of a queue's customers.
    Sum,
    /// The least number of a queue's customers.
    Least,
    /// The greatest number of a queue's customers.
    Greatest,
    /// The sum of a reward's values.
    RewardSum,
    /// The least of a reward's values.
    RewardLeast,
    /// The greatest of a reward's values.
    RewardGreatest,
}

/// How many samples have a horizon.
#[derive(Clone, Copy, PartialEq, Eq, Debug)]
pub struct HorizonCount {
    /// The horizon, in steps.
    pub horizon: u64,
    /// The number of samples that are met there.
    pub count: u64,
}

/// A figure of a queue or a reward, over the samples that are met.
#[derive(Clone, Copy, Debug)]
pub struct Figure {
    /// What it is of.
    pub item: Item,
    /// The name of the queue or the reward.
    pub name: Name,
    /// How much it is: of a queue customers, of a reward its values.
    pub value: i128,
}
