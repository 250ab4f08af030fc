//! The arcs of all states of a total within capacities, and of more.

ghost use Rattle.std.specs.Prelude.{◌≡◌, ℕ, ◌+◌, ◌<◌, ◌≤◌, ◌↔◌, ◌⊎◌, true, length};
ghost use Rattle.psi_closed_arcs.specs.Sums.{has};
ghost use Rattle.psi_closed_arcs.specs.Held.{Listed, IsAny};

use crate::arcs::Arcs;
use crate::sums::Sums;
use psi_state::State;

// The sums of `before` customers and at most `most` more, up to `total`.
#[inline]
fn reached(before: u16, most: u16, total: u16) -> Sums
    requires { total ≤ 256 }
    ensures { (t : ℕ) → t < 320 → (has result t ≡ true) ↔ ((before ≤ t) × ((t ≤ before + most) × (t ≤ total))) }
{
    let last = (u32::from(before) + u32::from(most)).min(u32::from(total));
    Sums::all().at_least(u32::from(before)).below(last + 1)
}

impl Arcs {
    /// The set of the arcs of states within the capacities, one for each queue, whose queues up to the arc's hold at
    /// most `total` customers. What was in the set before is not.
    pub fn fill(&mut self, caps: &State)
        requires { length caps.now ≡ self.old.levels }
        ensures levels { self.new.levels ≡ self.old.levels }
        ensures total { self.new.total ≡ self.old.total }
        ensures arcs { (l s v : ℕ) → Listed self.new.arcs l s v ↔ IsAny caps.now self.old.total l s v }
    {
        for level in 0..self.levels() {
            self.fill_queue(level, caps.get(level));
        }
    }

    // Lets queue `level` have all arcs with at most `most` customers.
    fn fill_queue(&mut self, level: u8, most: u16)
        requires level { level < self.old.levels }
        ensures levels { self.new.levels ≡ self.old.levels }
        ensures total { self.new.total ≡ self.old.total }
        ensures own { (s v : ℕ) → Listed self.new.arcs level s v ↔ ((v ≤ most) × (s + v ≤ self.old.total)) }
        ensures others { (l s v : ℕ) → (l ≡ level → ⊥) → Listed self.new.arcs l s v ↔ Listed self.old.arcs l s v }
    {
        let total = self.total();
        for before in 0..total + 1 {
            self.put(level, before, reached(before, most, total));
        }
    }
}
