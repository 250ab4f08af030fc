//! The keys that the targets offer in a box of states.

ghost use Rattle.std.specs.Prelude.{◌≡◌, ℕ, ◌<◌, ◌≤◌, Some, None, length, slice_index};
ghost use Rattle.psi_state.specs.State.{IsBelow};

use crate::keys::Key;
use crate::route::Route;
use psi_state::Bounds;

/// The least of the keys that are offered, and the least of those of the other places.
#[derive(Clone, Copy)]
pub(crate) struct Offers {
    pub first: Option<Key>,
    pub second: Option<Key>,
}

impl Offers {
    ghost use Rattle.psi_route.specs.Offers.{IsAdded, beside};

    /// No place offers a key.
    pub fn none() -> Offers
        ensures first { result.first ≡ None }
        ensures second { result.second ≡ None }
    {
        Offers {
            first: None,
            second: None,
        }
    }

    /// Returns what is offered once the next place offers this key, or none.
    pub fn with(self, offered: Option<Key>) -> Offers
        ensures { IsAdded self.first self.second offered result.first result.second }
    {
        let Some(key) = offered else {
            return self;
        };
        match self.first {
            Some(best) if best.is_before(key) => Offers {
                first: self.first,
                second: Key::lesser(self.second, offered),
            },
            _ => Offers {
                first: offered,
                second: self.first,
            },
        }
    }

    /// Returns the least key of a place other than `place`.
    pub fn beside(self, place: u8) -> Option<Key>
        ensures { result ≡ beside self.first self.second place }
    {
        match self.first {
            None => None,
            Some(key) => if key.place == place {
                self.second
            } else {
                self.first
            },
        }
    }
}

impl Route {
    ghost use Rattle.psi_route.specs.Routing.{routing, weight};
    ghost use Rattle.psi_route.specs.Route.{shape_of};
    ghost use Rattle.psi_route.specs.Offers.{IsRival, IsBar, AreLeastTwo};
    ghost use Rattle.psi_route.specs.declared.keys.Key.{Key};

    /// The least key of a target with room in some state of the box, and the least one of the other targets.
    pub(crate) fn rivals(&self, b: &Bounds) -> Offers
        requires tables { 0 < length self.now.tables.items }
        requires inside { IsBelow b.now.lo b.now.hi × IsBelow b.now.hi self.now.caps }
        ensures { AreLeastTwo (IsRival (routing (shape_of self.now)) b.now.lo b.now.hi) (length self.now.targets) result.first result.second }
    {
        self.least_two(|i| self.rival(b, i))
    }

    /// The two least of the greatest keys of the targets that always have room in the box.
    pub(crate) fn bars(&self, b: &Bounds) -> Offers
        requires tables { 0 < length self.now.tables.items }
        requires inside { IsBelow b.now.lo b.now.hi × IsBelow b.now.hi self.now.caps }
        ensures { AreLeastTwo (IsBar (routing (shape_of self.now)) b.now.lo b.now.hi) (length self.now.targets) result.first result.second }
    {
        self.least_two(|i| self.bar(b, i))
    }

    // The least of the keys that the places offer, and the least one of the other places.
    fn least_two<F: Fn(u8) -> Option<Key>>(&self, offer: F) -> Offers
        requires callable { (i : ℕ) → i < length self.now.targets → F.pre offer i }
        requires placed { (i : ℕ) (key : Key) → i < length self.now.targets → F.post offer i (Some key) → key.place ≡ i }
        ensures { AreLeastTwo (F.post offer) (length self.now.targets) result.first result.second }
    {
        let mut found = Offers::none();
        for i in 0..self.places() {
            found = found.with(offer(i));
        }
        found
    }

    // The least key of the target at place `i` with a number of customers that leaves room.
    fn rival(&self, b: &Bounds, i: u8) -> Option<Key>
        requires tables { 0 < length self.now.tables.items }
        requires place { i < length self.now.targets }
        requires inside { IsBelow b.now.lo b.now.hi × IsBelow b.now.hi self.now.caps }
        ensures { IsRival (routing (shape_of self.now)) b.now.lo b.now.hi i result }
    {
        let queue = self.target(i);
        let least = b.least(queue);
        let most = self.most_with_room(i);
        if most < least {
            return None;
        }
        let weight = self.tables[i as usize].least(least, most.min(b.greatest(queue)));
        Some(Key { weight, place: i })
    }

    // The greatest key of the target at place `i`, where each number of customers leaves room.
    fn bar(&self, b: &Bounds, i: u8) -> Option<Key>
        requires tables { 0 < length self.now.tables.items }
        requires place { i < length self.now.targets }
        requires inside { IsBelow b.now.lo b.now.hi × IsBelow b.now.hi self.now.caps }
        ensures { IsBar (routing (shape_of self.now)) b.now.lo b.now.hi i result }
    {
        let most = b.greatest(self.target(i));
        if self.most_with_room(i) < most {
            return None;
        }
        let weight = self.tables[i as usize].greatest(b.least(self.target(i)), most);
        Some(Key { weight, place: i })
    }
}
