//! What a route does to a state.

use crate::keys::Leader;
use crate::parts::Full;
use crate::route::Route;
use psi_index::IndexTable;
use psi_state::State;

impl Route {
    ghost use Rattle.std.specs.Prelude.{◌≡◌, ◌+◌, ◌<◌, ◌≤◌, length, slice_index, nat_le, IfSome, None};
    ghost use Rattle.psi_route.specs.Routing.{routing, has_room, best, taken, moved, routed, HasRoom};
    ghost use Rattle.psi_route.specs.Route.{shape_of};
    ghost use Rattle.psi_route.specs.Leader.{IsLeader};

    // Moves the customers, in place.
    pub(crate) fn move_customers(&self, x: &mut State)
        requires { length x.old ≡ length self.now.caps }
        ensures { x.new ≡ routed (shape_of self.now) x.old }
    {
        if !self.serves(x) {
            return;
        }
        if self.is_plain() {
            self.join_first(x);
        } else {
            self.join_least(x);
        }
    }

    // Whether the source serves; without one, customers come each time.
    pub(crate) fn serves(&self, x: &State) -> bool
        requires { length x.now ≡ length self.now.caps }
        ensures { let r = routing (shape_of self.now) in result ≡ nat_le r.least (slice_index x.now r.source) }
    {
        x.get(self.server.queue) >= self.server.least
    }

    // Whether the target at place `i` has room for the customers who come.
    pub(crate) fn has_room(&self, x: &State, i: u8) -> bool
        requires place { i < length self.now.targets }
        requires length { length x.now ≡ length self.now.caps }
        ensures { result ≡ has_room (routing (shape_of self.now)) x.now i }
    {
        self.held(x, i) <= self.most_with_room(i)
    }

    // Lets the customers join the first target with room, where the source serves and there are no tables.
    fn join_first(&self, x: &mut State)
        requires length { length x.old ≡ length self.now.caps }
        requires plain { length self.now.tables.items ≡ 0 }
        requires serve { let r = routing (shape_of self.now) in r.least ≤ slice_index x.old r.source }
        ensures { x.new ≡ moved (routing (shape_of self.now)) x.old (best (routing (shape_of self.now)) x.old) }
    {
        for i in 0..self.places() {
            let queue = self.target(i);
            let held = x.get(queue);
            if held <= self.most_with_room(i) {
                self.take_one(x);
                x.set(queue, held + self.size);
                return;
            }
        }
        self.turn_away(x);
    }

    // Lets the customers join the target with the least key, where the source serves and there are tables. It stays
    // out of line: inlined, it would spill the registers of every event's loop over the states of a set, and a route
    // without tables would save registers that it doesn't use.
    #[inline(never)]
    fn join_least(&self, x: &mut State)
        requires tables { 0 < length self.now.tables.items }
        requires length { length x.old ≡ length self.now.caps }
        requires serve { let r = routing (shape_of self.now) in r.least ≤ slice_index x.old r.source }
        ensures { x.new ≡ moved (routing (shape_of self.now)) x.old (best (routing (shape_of self.now)) x.old) }
    {
        let chosen = self.least_key(x);
        self.join(x, chosen);
    }

    // The place of the chosen target by the keys, if any has room.
    fn least_key(&self, x: &State) -> Option<u8>
        requires tables { 0 < length self.now.tables.items }
        requires length { length x.now ≡ length self.now.caps }
        ensures { result ≡ best (routing (shape_of self.now)) x.now }
    {
        // Read once: in the loop it would be read for each target.
        let tables: &[IndexTable] = &self.tables;
        let mut leader = Leader::none();
        for i in 0..self.places() {
            leader = self.better(tables, x, i, leader);
        }
        leader.chosen()
    }

    // The leader of the places up to `i`, from that of those before it: of equal weights the earlier place has the
    // lesser key.
    fn better(&self, tables: &[IndexTable], x: &State, i: u8, leader: Leader) -> Leader
        requires tables { 0 < length self.now.tables.items }
        requires own { tables.now ≡ self.now.tables.items }
        requires place { i < length self.now.targets }
        requires length { length x.now ≡ length self.now.caps }
        requires leader { IsLeader (routing (shape_of self.now)) x.now i leader }
        ensures { IsLeader (routing (shape_of self.now)) x.now (i + 1) result }
    {
        if !self.has_room(x, i) {
            return leader;
        }
        let weight = self.weight_in(tables, i, self.held(x, i)) as u64;
        if weight < leader.weight {
            Leader {
                weight,
                place: i as usize,
            }
        } else {
            leader
        }
    }

    // Lets the customers join the target at the chosen place, if there is one, where the source serves.
    fn join(&self, x: &mut State, chosen: Option<u8>)
        requires length { length x.old ≡ length self.now.caps }
        requires serve { let r = routing (shape_of self.now) in r.least ≤ slice_index x.old r.source }
        requires place { IfSome chosen (λ j. j < length self.now.targets) }
        requires room { IfSome chosen (λ j. HasRoom (routing (shape_of self.now)) j (slice_index x.old (slice_index self.now.targets j))) }
        ensures { x.new ≡ moved (routing (shape_of self.now)) x.old chosen }
    {
        match chosen {
            Some(place) => {
                let queue = self.target(place);
                let number = x.get(queue) + self.size;
                self.take_one(x);
                x.set(queue, number);
            }
            None => self.turn_away(x),
        }
    }

    // Lets a customer leave the source for whom no target has room, if it is lost or has nowhere to go.
    fn turn_away(&self, x: &mut State)
        requires length { length x.old ≡ length self.now.caps }
        requires serve { let r = routing (shape_of self.now) in r.least ≤ slice_index x.old r.source }
        ensures { x.new ≡ moved (routing (shape_of self.now)) x.old None }
    {
        if self.full == Full::Lost || self.places() == 0 {
            self.take_one(x);
        }
    }

    // Lets one customer leave the source, if there is one; it serves.
    fn take_one(&self, x: &mut State)
        requires length { length x.old ≡ length self.now.caps }
        requires serve { let r = routing (shape_of self.now) in r.least ≤ slice_index x.old r.source }
        ensures { x.new ≡ taken (routing (shape_of self.now)) x.old }
    {
        let queue = self.server.queue;
        x.set(queue, x.get(queue) - self.server.leaving);
    }
}
