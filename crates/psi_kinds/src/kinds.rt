//! What an event does, in the terms of queueing.

ghost use Rattle.std.specs.Prelude.{◌≡◌, OnOk};

use crate::{OutOfMemory, Tables};
use psi_guard::Parts;
use psi_route::{Full, Source};
use psi_state::Queues;
use std::alloc::Global;

/// What an event does to a state. Queues are counted from 0, sizes and amounts are in customers.
///
/// A queue has room for b where its capacity is at least b above what it holds. A source is a queue with
/// the least number of customers at which one of its servers works; it serves where the queue holds at least
/// as many.
#[derive(Drop, Debug)]
pub enum Kind {
    /// One customer joins the first queue of the list that has room; if none has, nothing changes.
    Arrival {
        /// The list, not empty.
        to: Queues,
    },
    /// Where the source serves, one customer leaves it for the first queue of the list that has room. It
    /// leaves the network where the list is empty; where no queue of the list has room, `full` says
    /// whether it is lost or stays.
    Service {
        /// The source, not one of the list.
        from: Source,
        /// The list, which may be empty.
        to: Queues,
        /// What happens to the customer where no queue has room.
        full: Full,
    },
    /// As an arrival, or as a service where there is a source, but `size` customers join the queue with the
    /// least index among those with room for as many: the least value of its table at what it holds, and
    /// the first of these in the list.
    Index {
        /// The source, not one of the list.
        from: Option<Source>,
        /// The list, not empty.
        to: Queues,
        /// For each queue of the list, as many values as its capacity.
        table: Tables,
        /// What happens to the customer of a source where no queue has room.
        full: Full,
        /// The number of customers that join, 1 up to the least capacity of the list, and 1 with a source.
        size: u16,
    },
    /// `size` customers join the first queue of the list with room for as many; if none has, nothing
    /// changes.
    Batch {
        /// The list, not empty.
        to: Queues,
        /// The number of customers, 1 up to the least capacity of the list.
        size: u16,
    },
    /// A negative customer (Gelenbe 1991): where there is no source or the source serves, one customer
    /// leaves the source and `amount` leave `on`, or all where it holds fewer.
    Negative {
        /// The source, another queue than `on`.
        from: Option<Source>,
        /// The queue that loses customers.
        on: u8,
        /// The number of customers that it loses, 1 or more.
        amount: u16,
    },
    /// Where there is no source or the source serves, and every queue of the list has room, one customer
    /// leaves the source and one joins every queue of the list; otherwise nothing changes.
    Fork {
        /// The source, not one of the list.
        from: Option<Source>,
        /// The list, not empty.
        to: Queues,
    },
    /// Where every queue of the list holds a customer and `to` has room, one leaves every queue of the list
    /// and one joins `to`; otherwise nothing changes.
    Join {
        /// The list, not empty.
        from: Queues,
        /// The queue that is joined, not one of the list, if any.
        to: Option<u8>,
    },
    /// Where every queue that a part names holds a number between the part's bounds, each of them is
    /// shifted within the part's floor and ceiling; otherwise nothing changes.
    Guarded {
        /// The parts, 1 to 32, of different queues.
        parts: Parts,
    },
}

impl Kind {
    /// Puts the least and greatest values of its tables at hand; the kind stays the same.
    ///
    /// # Errors
    ///
    /// [`OutOfMemory`] if an allocation fails. The kind may then have other tables.
    pub fn index(&mut self, alloc: Global) -> Result<(), OutOfMemory>
        ensures { OnOk result (self.new ≡ self.old) }
    {
        match self {
            Kind::Index { table, .. } => table.index_all(alloc),
            _ => Ok(()),
        }
    }
}
