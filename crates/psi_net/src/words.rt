//! The words that a file uses for kinds.

/// The word that the key `kind` of an event's table has.
#[derive(Clone, Copy, Debug)]
pub(crate) enum KindWord {
    /// `"arrival"`.
    Arrival,
    /// `"service"`.
    Service,
    /// `"index"`.
    Index,
    /// `"batch"`.
    Batch,
    /// `"negative"`.
    Negative,
    /// `"fork"`.
    Fork,
    /// `"join"`.
    Join,
    /// `"guarded"`, in files of version 2.
    Guarded,
}

/// The word that the key `kind` of a reward's table has.
#[derive(Clone, Copy, Debug)]
pub(crate) enum RewardWord {
    /// `"linear"`.
    Linear,
    /// `"table"`.
    Table,
    /// `"greatest"`.
    Greatest,
    /// `"least"`.
    Least,
    /// `"above"`.
    Above,
}
