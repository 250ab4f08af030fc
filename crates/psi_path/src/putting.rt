//! Sums of a path that were found otherwise than by walking it here.

ghost use Rattle.std.specs.Prelude.{◌≡◌, ◌<◌, length, slice_set};

use crate::walk::Walk;

impl Walk {
    /// Sets the sum of the customers of queue `q`; queues are counted from 0.
    pub fn put_customers(&mut self, q: u8, sum: u64)
        requires { q < length self.old.queues }
        ensures { self.new ≡ record self.old { queues = slice_set self.old.queues q sum } }
    {
        self.running.queues[q as usize] = sum;
    }

    /// Sets the sum of the values of reward `r`; rewards are counted from 0.
    pub fn put_reward(&mut self, r: usize, sum: i128)
        requires { r < length self.old.rewards }
        ensures { self.new ≡ record self.old { rewards = slice_set self.old.rewards r sum } }
    {
        self.running.rewards[r] = sum;
    }
}
