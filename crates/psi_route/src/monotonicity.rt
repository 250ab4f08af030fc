//! Whether a route keeps the order of states, and two states whose order it breaks.

use crate::route::Route;
use psi_state::State;

impl Route {
    ghost use Rattle.std.specs.Prelude.{◌≡◌, ◌+◌, ◌<◌, ◌≤◌, length, slice_index, MatchOption, IsTrue};
    ghost use Rattle.psi_route.specs.Routing.{full_but, pair_of, pair_between, pair_behind, first_pair, batch_pair, upset_of};
    ghost use Rattle.psi_route.specs.Falls.{NoFall, NoFalls, IsFall, IsPast, AreFalls};
    ghost use Rattle.psi_route.specs.Route.{shape_of};

    // The two states whose order the route breaks, if there are any.
    pub(crate) fn broken(&self) -> Option<(State, State)>
        ensures { result ≡ upset_of (shape_of self.now) }
    {
        if self.size >= 2 {
            return Some(self.batch_pair());
        }
        if self.is_plain() {
            return None;
        }
        self.first_pair()
    }

    // The pair of a route of several customers: they just have room in the first target, or lack one place.
    fn batch_pair(&self) -> (State, State)
        requires { 2 ≤ self.now.size }
        ensures { result ≡ batch_pair (shape_of self.now) }
    {
        let mut x = self.caps;
        let mut y = self.caps;
        let number = self.cap(0) - self.size;
        x.set(self.target(0), number);
        y.set(self.target(0), number + 1);
        (x, y)
    }

    // The first pair over the places whose keys fall.
    fn first_pair(&self) -> Option<(State, State)>
        requires { 0 < length self.now.tables.items }
        ensures { result ≡ first_pair (shape_of self.now) }
    {
        for a in 0..self.places() {
            if !self.tables[a as usize].rises() {
                let pair = self.pair_behind(a);
                if pair.is_some() {
                    return pair;
                }
            }
        }
        None
    }

    // The first pair over the places whose keys those of place `a` cross.
    fn pair_behind(&self, a: u8) -> Option<(State, State)>
        requires place { a < length self.now.targets }
        requires tables { 0 < length self.now.tables.items }
        ensures { result ≡ pair_behind (shape_of self.now) a }
    {
        for b in 0..self.places() {
            let pair = self.pair_between(a, b);
            if pair.is_some() {
                return pair;
            }
        }
        None
    }

    // The first pair over the numbers of customers at place `a`, then at place `b`.
    fn pair_between(&self, a: u8, b: u8) -> Option<(State, State)>
        requires first { a < length self.now.targets }
        requires second { b < length self.now.targets }
        requires tables { 0 < length self.now.tables.items }
        ensures { result ≡ pair_between (shape_of self.now) a b }
    {
        let found = self.least_fall(a, b);
        match found {
            None => None,
            Some((v, w)) => Some(self.pair_of(a, b, v, w)),
        }
    }

    // The least fall of a key of place `a` past one of place `b`, if there is one.
    fn least_fall(&self, a: u8, b: u8) -> Option<(u16, u16)>
        requires first { a < length self.now.targets }
        requires second { b < length self.now.targets }
        requires tables { 0 < length self.now.tables.items }
        ensures { AreFalls (shape_of self.now) a b (slice_index self.now.caps (slice_index self.now.targets b)) result }
    {
        let clear = self.clear(a, b);
        let rising = self.tables[a as usize].rising_front();
        let mut found = None;
        for w in clear..self.cap(b) {
            let past = self.past(a, b, w, found);
            if past <= rising {
                break;
            }
            let fall = self.first_fall(a, b, w, past);
            found = self.earlier(a, b, w, past, fall, found);
        }
        found
    }

    // How many numbers of customers at place `b` at least have keys past which no key of place `a` falls: all where the
    // values of the two places lie wholly beside one another.
    fn clear(&self, a: u8, b: u8) -> u16
        requires first { a < length self.now.targets }
        requires second { b < length self.now.targets }
        requires tables { 0 < length self.now.tables.items }
        ensures none { NoFalls (shape_of self.now) a b result }
        ensures within { result ≤ slice_index self.now.caps (slice_index self.now.targets b) }
    {
        if a == b {
            return self.cap(b);
        }
        let own = &self.tables[a as usize];
        let other = &self.tables[b as usize];
        let (last, end) = (own.len() - 1, other.len() - 1);
        if own.greatest(0, last) < other.least(0, end)
            || other.greatest(0, end) < own.least(0, last)
        {
            return self.cap(b);
        }
        own.first_passed(other, (a < b) as u32)
    }

    // How many numbers of customers at place `a` may have a fall that is less than the found one.
    fn past(&self, a: u8, b: u8, w: u16, found: Option<(u16, u16)>) -> u16
        requires first { a < length self.now.targets }
        requires second { b < length self.now.targets }
        requires found { AreFalls (shape_of self.now) a b w found }
        ensures past { IsPast (shape_of self.now) a b found result }
        ensures within { result ≤ slice_index self.now.caps (slice_index self.now.targets a) }
    {
        match found {
            None => self.cap(a),
            Some((v, _)) => v + 1,
        }
    }

    // The least fall of place `a` past place `b` with up to `w` customers, from that with `w` and the least with fewer.
    fn earlier(
        &self,
        a: u8,
        b: u8,
        w: u16,
        past: u16,
        fall: Option<u16>,
        found: Option<(u16, u16)>,
    ) -> Option<(u16, u16)>
        requires first { a < length self.now.targets }
        requires second { b < length self.now.targets }
        requires number { w < slice_index self.now.caps (slice_index self.now.targets b) }
        requires tables { 0 < length self.now.tables.items }
        requires past { IsPast (shape_of self.now) a b found past }
        requires fall { MatchOption fall (NoFall (shape_of self.now) a b w past) (λ v. IsFall (shape_of self.now) a b w v) }
        requires found { AreFalls (shape_of self.now) a b w found }
        ensures { AreFalls (shape_of self.now) a b (w + 1) result }
    {
        match (fall, found) {
            (None, _) => found,
            (Some(v), Some((least, _))) if v >= least => found,
            (Some(v), _) => Some((v, w)),
        }
    }

    // The least number of customers at place `a` at which one more takes its key from above that of place
    // `b` with `w` to below it. The first `past` numbers are looked at.
    fn first_fall(&self, a: u8, b: u8, w: u16, past: u16) -> Option<u16>
        requires first { a < length self.now.targets }
        requires second { b < length self.now.targets }
        requires number { w < slice_index self.now.caps (slice_index self.now.targets b) }
        requires tables { 0 < length self.now.tables.items }
        requires past { past ≤ slice_index self.now.caps (slice_index self.now.targets a) }
        ensures { MatchOption result (NoFall (shape_of self.now) a b w past) (λ v. IsFall (shape_of self.now) a b w v) }
    {
        if a == b || past < 2 {
            return None;
        }
        let table = &self.tables[a as usize];
        let bound = self.weight(b, w) as u64 + (a < b) as u64;
        let first = table.first_at_least_between(0, past, bound);
        if first == past {
            return None;
        }
        let below = table.first_below(first, past, bound);
        if below == past {
            return None;
        }
        Some(below - 1)
    }

    // The pair made of the two places and their numbers of customers.
    fn pair_of(&self, a: u8, b: u8, v: u16, w: u16) -> (State, State)
        requires first { a < length self.now.targets }
        requires second { b < length self.now.targets }
        requires number { v < slice_index self.now.caps (slice_index self.now.targets a) }
        ensures { result ≡ pair_of (shape_of self.now) a b v w }
    {
        (self.full_but(a, b, v, w), self.full_but(a, b, v + 1, w))
    }

    // The state in which places `a` and `b` hold `v` and `w` customers, and every other queue is full.
    fn full_but(&self, a: u8, b: u8, v: u16, w: u16) -> State
        requires first { a < length self.now.targets }
        requires second { b < length self.now.targets }
        ensures { result ≡ full_but (shape_of self.now) a b v w }
    {
        let mut x = self.caps;
        x.set(self.target(b), w);
        x.set(self.target(a), v);
        x
    }
}
