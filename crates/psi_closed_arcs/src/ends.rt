//! Arcs, and the ends that they leave.

ghost use Rattle.std.specs.Prelude.{◌≡◌, ◌+◌, ◌*◌};

/// The customers of a state at one queue: `value` of them at queue `level`, counted from 0, and `before` at the
/// queues that come before it, together.
#[derive(Clone, Copy)]
pub struct Arc {
    pub level: u8,
    pub before: u16,
    pub value: u16,
}

/// The ends of a queue: 0 to 256 customers before it.
pub(crate) const ENDS: u32 = 257;

/// The numbers of the arcs of a queue: as many as it has ends, for each of these.
pub(crate) const ARCS: u32 = 66_049;

/// The number of an end: queue `level` with `sum` customers before it.
#[inline]
pub(crate) fn end_of(level: u8, sum: u16) -> usize
    ensures { result ≡ level * 257 + sum }
{
    level as usize * ENDS as usize + sum as usize
}
