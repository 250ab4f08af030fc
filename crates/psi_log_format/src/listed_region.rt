//! A region of a log: one that owns its box, and has its states in a list, and one that borrows.

ghost use Rattle.std.specs.Prelude.{◌≡◌};
ghost use Rattle.psi_log_format.specs.Listed.{region_of, IsThere, shown, HasWidth};

use crate::row_list::Rows;
use crate::state_list::StateList;
use psi_state::Bounds;

/// A region of a log: a box, or a set of states by their places in a list of states.
#[derive(Clone, Copy, Debug)]
pub enum ListedRegion {
    /// The states between two corners.
    Box(Bounds),
    /// `count` states of the list, from the place `first` on.
    Set { first: usize, count: u16 },
}

/// A region of a log, borrowed.
#[derive(Drop)]
pub enum BorrowedRegion<'l> {
    /// The states between two corners.
    Box(&'l Bounds),
    /// States one by one, in ascending order.
    Set(Rows<'l>),
}

impl ListedRegion {
    /// Returns the region, borrowed with the list that its states stand in. Nothing is copied.
    #[inline]
    pub fn borrow<'l>(&'l self, states: &'l StateList) -> BorrowedRegion<'l>
        requires { IsThere states.now.queues states.now.states self.now }
        ensures region { shown result ≡ region_of states.entry.now.states self.entry.now }
        ensures width { HasWidth states.entry.now.queues result }
    {
        match self {
            ListedRegion::Box(bounds) => BorrowedRegion::Box(bounds),
            ListedRegion::Set { first, count } => {
                BorrowedRegion::Set(states.all().part(*first, *count as usize))
            }
        }
    }
}
