//! The four tests of whether a guarded event keeps the order of states, and the pair that they show.

ghost use Rattle.std.specs.Prelude.{◌≡◌, ℕ, ◌<◌, ◌≤◌, List, Option, IsTrue, IfSome, length, slice_index, unsigned_abs};
ghost use Rattle.psi_guard.specs.Guarding.{AnswersAs, around_least, around_most, exceeds, other_below, own_above, leasts, over_pairs, over_queues, part_of, own_below, other_above};
ghost use Rattle.psi_guard.specs.Rule.{FitsGuard};

use crate::event::moved;
use crate::guarded::Guarded;
use crate::parts::Part;
use psi_state::State;

impl Guarded {
    // The first upset pair that a queue shows by itself, above its most.
    pub(crate) fn first_own_above(&self) -> Option<(State, State)>
        ensures { result ≡ over_queues self.now.caps (own_above self.now.caps self.now.parts) }
    {
        self.first_over(|p| self.own_above(p))
    }

    // The first upset pair that one queue above its most shows by another, which grows.
    pub(crate) fn first_other_above(&self) -> Option<(State, State)>
        ensures { result ≡ over_pairs self.now.caps (other_above self.now.caps self.now.parts) }
    {
        self.first_over(|p| self.other_above_of(p))
    }

    // The first upset pair that a queue shows by itself, below its least.
    pub(crate) fn first_own_below(&self) -> Option<(State, State)>
        ensures { result ≡ over_queues self.now.caps (own_below self.now.caps self.now.parts) }
    {
        self.first_over(|p| self.own_below(p))
    }

    // The first upset pair that one queue below its least shows by another, which shrinks.
    pub(crate) fn first_other_below(&self) -> Option<(State, State)>
        ensures { result ≡ over_pairs self.now.caps (other_below self.now.caps self.now.parts) }
    {
        self.first_over(|p| self.other_below_of(p))
    }

    // The first answer of a test over the queues, by their numbers.
    fn first_over<F: Fn(u8) -> Option<(State, State)>>(&self, test: F) -> Option<(State, State)>
        requires { (p : ℕ) → p < length self.now.caps → F.pre test p }
        ensures { (f : ℕ → Option (List ℕ × List ℕ)) → AnswersAs self.now.caps (F.post test) f → result ≡ over_queues self.now.caps f }
    {
        for p in 0..self.caps.len() {
            if let Some(pair) = test(p) {
                return Some(pair);
            }
        }
        None
    }

    // An upset pair of queue `p` by itself: at its most it moves past what it keeps with one customer more.
    fn own_above(&self, p: u8) -> Option<(State, State)>
        requires { p < length self.now.caps }
        ensures { result ≡ own_above self.now.caps self.now.parts p }
    {
        let own = self.part_of(p);
        if own.most < self.caps.get(p) && own.most + 1 < moved(own, own.most) {
            return Some(self.around_most(p));
        }
        None
    }

    // The first queue that shows an upset pair with queue `p` above its most: none where `p` can't hold more.
    fn other_above_of(&self, p: u8) -> Option<(State, State)>
        requires { p < length self.now.caps }
        ensures { result ≡ over_queues self.now.caps (other_above self.now.caps self.now.parts p) }
    {
        if self.part_of(p).most < self.caps.get(p) {
            self.first_over(|q| self.other_above(p, q))
        } else {
            None
        }
    }

    // An upset pair by queue `q`, which grows at its least unless queue `p` holds more than its most.
    fn other_above(&self, p: u8, q: u8) -> Option<(State, State)>
        requires first { p < length self.now.caps }
        requires second { q < length self.now.caps }
        ensures { result ≡ other_above self.now.caps self.now.parts p q }
    {
        let other = self.part_of(q);
        if self.part_of(p).most < self.caps.get(p)
            && p != q
            && other.least < moved(other, other.least)
        {
            return Some(self.around_most(p));
        }
        None
    }

    // An upset pair of queue `p` by itself: at its least it moves below what it keeps with one customer less.
    fn own_below(&self, p: u8) -> Option<(State, State)>
        requires { p < length self.now.caps }
        ensures { result ≡ own_below self.now.caps self.now.parts p }
    {
        let own = self.part_of(p);
        if 0 < own.least && moved(own, own.least) < own.least - 1 {
            return Some(self.around_least(p));
        }
        None
    }

    // The first queue that shows an upset pair with queue `p` below its least: none where `p` can't hold less.
    fn other_below_of(&self, p: u8) -> Option<(State, State)>
        requires { p < length self.now.caps }
        ensures { result ≡ over_queues self.now.caps (other_below self.now.caps self.now.parts p) }
    {
        if self.part_of(p).least == 0 {
            return None;
        }
        self.first_over(|q| self.other_below(p, q))
    }

    // An upset pair by queue `q`, which shrinks at its most unless queue `p` holds less than its least.
    fn other_below(&self, p: u8, q: u8) -> Option<(State, State)>
        requires first { p < length self.now.caps }
        requires second { q < length self.now.caps }
        ensures { result ≡ other_below self.now.caps self.now.parts p q }
    {
        let other = self.part_of(q);
        if 0 < self.part_of(p).least && p != q && moved(other, other.most) < other.most {
            let (mut low, mut high) = self.around_least(p);
            low.set(q, other.most);
            high.set(q, other.most);
            return Some((low, high));
        }
        None
    }

    // Queue `p` at its most, and with one customer more; every other queue at its least.
    fn around_most(&self, p: u8) -> (State, State)
        requires place { p < length self.now.caps }
        requires room { IsTrue (exceeds self.now.caps self.now.parts p) }
        ensures { result ≡ around_most self.now.caps self.now.parts p }
    {
        let own = self.part_of(p);
        let mut low = self.leasts();
        let mut high = low;
        low.set(p, own.most);
        high.set(p, own.most + 1);
        (low, high)
    }

    // Queue `p` with one customer less than its least, and at it; every other queue at its least.
    fn around_least(&self, p: u8) -> (State, State)
        requires { p < length self.now.caps }
        ensures value { result ≡ around_least self.now.caps self.now.parts p }
        ensures low { length result.0 ≡ length self.now.caps }
        ensures high { length result.1 ≡ length self.now.caps }
    {
        let own = self.part_of(p);
        let high = self.leasts();
        let mut low = high;
        low.set(p, own.least.saturating_sub(1));
        (low, high)
    }

    // The state in which each queue holds its least.
    fn leasts(&self) -> State
        ensures value { result ≡ leasts self.now.caps self.now.parts }
        ensures length { length result ≡ length self.now.caps }
    {
        let mut x = State::zero(self.caps.len());
        for q in 0..self.caps.len() {
            x.set(q, self.part_of(q).least);
        }
        x
    }

    // The part of a queue: a queue that no part names may hold any number and keeps it.
    pub(crate) fn part_of(&self, queue: u8) -> Part
        requires { queue < length self.now.caps }
        ensures value { result ≡ part_of self.now.caps self.now.parts queue }
        ensures fits { FitsGuard (slice_index self.now.caps queue) result }
        ensures shift { unsigned_abs result.shift ≤ 65535 }
    {
        let place = self.places[queue as usize];
        if place < self.count() {
            let part = self.part(place);
            if part.queue == queue {
                return part;
            }
        }
        for i in 0..self.count() {
            let part = self.part(i);
            if part.queue == queue {
                return part;
            }
        }
        let cap = self.caps.get(queue);
        Part {
            queue,
            least: 0,
            most: cap,
            shift: 0,
            floor: 0,
            ceiling: cap,
        }
    }
}
