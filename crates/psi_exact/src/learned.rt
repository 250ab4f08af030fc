//! What the first events of a network make of all states, learned once for all steps.

ghost use Rattle.std.specs.Prelude.{◌≡◌, ℕ, ◌+◌, ◌<◌, ◌≤◌, ◌++◌, true, false, length, IfOk};
ghost use Rattle.psi_exact.specs.Inner.ImagesKept.{AreImages, images_at};

use psi_state::MOST_EVENTS;
use std::alloc::{AllocError, Global};

// The most ranks that are kept, in 4 megabytes: those of 32 events where there are 65,536 states.
const MOST_RANKS: u32 = 2_097_152;

/// The ranks of what the first events of a network make of each state: all ranks of an event stand together,
/// in the order of the states, and the events stand in their order.
#[derive(Drop)]
pub(crate) struct LearnedImages {
    pub(crate) size: u32,
    pub(crate) known: u16,
    pub(crate) ranks: Vec<u16>,
}

impl LearnedImages {
    /// No event, with room for what events make of `size` states.
    pub(crate) fn reserve(alloc: Global, size: u32) -> Result<LearnedImages, AllocError>
        requires { size ≤ 65536 }
        ensures { IfOk result (λ images. AreImages size images) }
    {
        let room = MOST_RANKS.min(MOST_EVENTS * size);
        Ok(LearnedImages {
            size,
            known: 0,
            ranks: Vec::with_capacity(alloc, room as usize)?,
        })
    }

    /// Forgets all events.
    pub(crate) fn clear(&mut self)
        ensures kept { (count : ℕ) → AreImages count self.old → AreImages count self.new }
        ensures none { self.new.known ≡ 0 }
    {
        self.known = 0;
        self.ranks.clear();
    }

    /// Adds the ranks of what one event more makes of each state, if there is room, and returns whether there
    /// was.
    pub(crate) fn push(&mut self, images: &[u16]) -> bool
        requires valid { AreImages (length images.now) self.old }
        requires few { self.old.known < 1024 }
        ensures valid { AreImages (length images.now) self.new }
        ensures full { result ≡ false → (self.new.ranks.items ≡ self.old.ranks.items) × (self.new.known ≡ self.old.known) }
        ensures ranks { result ≡ true → self.new.ranks.items ≡ self.old.ranks.items ++ images.now }
        ensures known { result ≡ true → self.new.known ≡ self.old.known + 1 }
    {
        if self.ranks.capacity() - self.ranks.len() < images.len() {
            return false;
        }
        self.ranks.extend_from_slice(images).unwrap();
        self.known += 1;
        true
    }

    /// The ranks of what an event makes of each state. The events are counted from 0.
    pub(crate) fn of(&self, number: u16) -> &[u16]
        requires valid { AreImages self.now.size self.now }
        requires known { number < self.now.known }
        ensures { result.now ≡ images_at self.now number }
    {
        let size = self.size as usize;
        let first = number as usize * size;
        &self.ranks.as_slice()[first..first + size]
    }
}
