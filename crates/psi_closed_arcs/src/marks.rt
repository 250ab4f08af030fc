//! Which ends of arcs are reached from both sides.

ghost use Rattle.std.specs.Prelude.{◌≡◌, length};

use crate::spans::Span;
use crate::sums::Sums;
use crate::windows::{Rule, Window};

/// The ends that are reached over the arcs that a rule allows, from the first queue and from the last: a set for each
/// queue, and one for the last one's other side.
#[derive(Drop)]
pub(crate) struct Marks {
    pub(crate) rule: Rule,
    pub(crate) before: Vec<Sums>,
    pub(crate) after: Vec<Sums>,
    ghost before_all: { length before.items ≡ 33 },
    ghost after_all: { length after.items ≡ 33 },
}

/// The marks of one queue: the window of the rule there, and the ends that are reached before the queue and past it.
///
/// A loop over the queue's rows holds them by value, so that they are read once.
#[derive(Clone, Copy)]
pub(crate) struct LevelMarks {
    pub(crate) window: Window,
    pub(crate) before: Sums,
    pub(crate) after: Sums,
}

/// The marks of one queue in a step from queue `from` to queue `to`.
#[derive(Clone, Copy)]
pub(crate) struct LevelReach {
    pub(crate) level: u8,
    pub(crate) from: u8,
    pub(crate) to: u8,
    pub(crate) changing: LevelMarks,
    pub(crate) short: LevelMarks,
    pub(crate) full: LevelMarks,
}

/// Room for what a step has to mark. It holds nothing that a later call reads.
#[derive(Drop)]
pub struct Reach {
    pub(crate) changing: Marks,
    pub(crate) short: Marks,
    pub(crate) full: Marks,
    pub(crate) spans: Vec<Span>,
    pub(crate) next: Vec<Sums>,
    ghost spans_all: { length spans.items ≡ 32 },
    ghost next_all: { length next.items ≡ 257 },
}
