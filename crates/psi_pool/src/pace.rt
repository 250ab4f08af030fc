//! When repeats are taken out of a list of states.

ghost use Rattle.std.specs.Prelude.{◌≡◌, ◌-◌, ◌*◌, ◌/◌, ◌<◌, ◌≤◌, ◌↔◌, min, max, IsTrue};
ghost use Rattle.psi_pool.specs.Paced.{counts_of, begun};

use std::marker::Model;

// The least and the greatest number of steps between two times.
const LEAST: u16 = 4;

const MOST: u16 = 1024;

/// After how many steps repeats are taken out of a list of states, and how many of these are left.
/// It is seen as these two numbers.
///
/// Repeats make the next steps dearer, and to take them out costs about as much as a step. So it is
/// done oftener where it took many states away, and more seldom where it took few.
#[derive(Clone, Copy)]
pub struct Pace {
    every: u16,
    left: u16,
}

impl Model for Pace {
    ghost use Rattle.psi_pool.specs.Paced.{Paced};

    ghost Value = { Paced };

    ghost view = { λ p. record { every = p.every; left = p.left } };

    ghost inverse = { λ p. record { every = p.every; left = p.left } };
}

impl Pace {
    /// Returns the pace of a list whose first step is to come: repeats are taken out after 4 steps.
    pub fn start() -> Pace
        ensures { result ≡ counts_of 4 }
    {
        Pace {
            every: LEAST,
            left: LEAST,
        }
    }

    /// Begins to count: not all of the steps are left. It does nothing where that is so already.
    #[inline]
    pub fn begin(&mut self)
        ensures { self.new ≡ begun self.old }
    {
        self.left = self.left.min(self.every.saturating_sub(1));
    }

    /// Counts a step, and returns whether repeats are to be taken out after it.
    #[inline]
    pub fn is_due(&mut self) -> bool
        ensures counted { self.new ≡ record { every = self.old.every; left = self.old.left - 1 } }
        ensures due { IsTrue result ↔ (self.new.left ≡ 0) }
    {
        self.left = self.left.saturating_sub(1);
        self.left == 0
    }

    /// Begins to count again after `after` of `before` states, or of as many pairs of states, were
    /// left: half as many steps as before where at least a quarter fell away, but no fewer than 4, and
    /// twice as many otherwise, but no more than 1,024.
    pub fn adapt(&mut self, before: u16, after: u16)
        ensures oftener { 4 * after ≤ 3 * before → self.new ≡ counts_of (max (self.old.every / 2) 4) }
        ensures seldomer { 3 * before < 4 * after → self.new ≡ counts_of (min (2 * self.old.every) 1024) }
    {
        self.every = if 4 * u32::from(after) <= 3 * u32::from(before) {
            (self.every / 2).max(LEAST)
        } else {
            self.every.saturating_mul(2).min(MOST)
        };
        self.left = self.every;
    }
}
