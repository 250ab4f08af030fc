//! Why a kind makes no event.

ghost use Rattle.std.specs.Prelude.{◌≡◌};

use crate::OutOfMemory;
use psi_guard::GuardRefusal;

/// Why a kind of event can't be lowered.
#[derive(Clone, Copy, PartialEq, Eq, Debug)]
pub enum KindRefusal {
    /// The source is in the list of queues that are joined, or is the queue that loses customers; or the
    /// queue that a join leads to is in its list.
    SelfTarget,
    /// A queue stands twice in a list, or an earlier part names the queue of a part.
    Repeated,
    /// The number of tables isn't that of the queues of the list, or the length of a table isn't the
    /// capacity of its queue.
    TableLength,
    /// The size is 0, or above the capacity of a queue of the list, or 2 or more with a source; or the
    /// amount is 0.
    SizeRange,
    /// A list that must not be empty is empty, or a guarded kind has no part.
    Empty,
    /// A part names no queue of the network, its most or its ceiling is above the queue's capacity, or its
    /// shift isn't from -65,535 to 65,535.
    PartRange,
    /// The least number of a part is above its most, or its floor above its ceiling.
    EmptyGuard,
    /// An allocation for the event failed.
    OutOfMemory,
}

impl KindRefusal {
    ghost use Rattle.psi_kinds.specs.Refusals.{of_parts};

    // The refusal of a part as that of a kind.
    pub(crate) fn of_parts(refusal: GuardRefusal) -> KindRefusal
        ensures { result ≡ of_parts refusal }
    {
        match refusal {
            GuardRefusal::Empty => KindRefusal::EmptyGuard,
            GuardRefusal::Repeated => KindRefusal::Repeated,
            GuardRefusal::OutOfRange => KindRefusal::PartRange,
        }
    }
}

impl From<OutOfMemory> for KindRefusal {
    ghost use Rattle.psi_kinds.specs.declared.refusals.KindRefusal.TheVariants.{OutOfMemory};

    ghost from_gives = { λ _ refusal. refusal ≡ OutOfMemory };

    fn from(_error: OutOfMemory) -> KindRefusal {
        KindRefusal::OutOfMemory
    }
}
