//! What a log says of its sample at the head.

/// The most bytes of a log.
pub const MOST_LOG_BYTES: u32 = 33_554_432;

/// The five numbers at the head of a log.
#[derive(Clone, Copy, PartialEq, Eq, Debug)]
pub struct Header {
    /// The version of the log's grammar, 1 or 2.
    pub version: u8,
    /// The number of queues of a state, 1 to 32.
    pub queues: u8,
    /// The seed of the words that the events are drawn by.
    pub seed: u64,
    /// The stream of the words that the events are drawn by.
    pub stream: u64,
    /// The number of steps before time zero at which the run begins, 1 to 1,048,576 in version 1 and 1 to
    /// 4,194,304 in version 2.
    pub horizon: u32,
}
