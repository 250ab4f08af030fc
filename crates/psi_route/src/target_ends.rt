//! The least and the greatest number of customers that a route leaves at a target, by its rivals.

ghost use Rattle.std.specs.Prelude.{◌≡◌, ℕ, ◌+◌, ◌-◌, ◌<◌, ◌≤◌, length, slice_index};

use crate::keys::Key;
use crate::route::Route;

impl Route {
    ghost use Rattle.psi_route.specs.Routing.{routing, HasRoom, Lacks};
    ghost use Rattle.psi_route.specs.Route.{shape_of};
    ghost use Rattle.psi_route.specs.Ends.{IsLeastAfter, IsGreatestAfter};
    ghost use Rattle.psi_route.specs.Keys.{key_of};
    ghost use Rattle.psi_route.specs.Offers.{MayStay, MustRise, MayRise, MustStay};

    /// The least number of customers that the route leaves at the target at place `j`, which held from
    /// `least` to `greatest`, where the source serves; `rival` is the least key of another target with room in
    /// some state of the box.
    pub(crate) fn target_low(&self, j: u8, least: u16, greatest: u16, rival: Option<Key>) -> u16
        requires tables { 0 < length self.now.tables.items }
        requires place { j < length self.now.targets }
        requires within { (least ≤ greatest) × (greatest ≤ slice_index self.now.caps (slice_index self.now.targets j)) }
        ensures { IsLeastAfter (MayStay (routing (shape_of self.now)) j rival) (MustRise (routing (shape_of self.now)) j rival) self.now.size least greatest result }
    {
        let last = least + (greatest - least).min(self.size - 1);
        let stays = self.first_staying(j, least, last, rival);
        if stays <= last {
            stays
        } else {
            least + self.size
        }
    }

    /// The greatest number of customers that the route leaves at the target at place `j`, which held from
    /// `least` to `greatest`, where the source serves; `bar` is the least key above which another target is
    /// always chosen.
    pub(crate) fn target_high(&self, j: u8, least: u16, greatest: u16, bar: Option<Key>) -> u16
        requires tables { 0 < length self.now.tables.items }
        requires place { j < length self.now.targets }
        requires within { (least ≤ greatest) × (greatest ≤ slice_index self.now.caps (slice_index self.now.targets j)) }
        ensures { IsGreatestAfter (MayRise (routing (shape_of self.now)) j bar) (MustStay (routing (shape_of self.now)) j bar) self.now.size least greatest result }
    {
        let first = greatest - (greatest - least).min(self.size - 1);
        let past = self.past_rising(j, first, greatest, bar);
        if past > first {
            past - 1 + self.size
        } else {
            greatest
        }
    }

    // The first number of customers from `first` on that can stay as they are at a target where the source serves,
    // or a number past `last` where none up to it can.
    fn first_staying(&self, j: u8, first: u16, last: u16, rival: Option<Key>) -> u16
        requires tables { 0 < length self.now.tables.items }
        requires place { j < length self.now.targets }
        requires within { (first ≤ last) × (last ≤ slice_index self.now.caps (slice_index self.now.targets j)) }
        ensures from { first ≤ result }
        ensures rises { (v : ℕ) → first ≤ v → v < result → v ≤ last → MustRise (routing (shape_of self.now)) j rival v }
        ensures stays { result ≤ last → MayStay (routing (shape_of self.now)) j rival result }
    {
        let past = self.past_room(j, first, last);
        match rival {
            None => past,
            Some(key) => self.first_behind(j, first, past, key),
        }
    }

    // One more than the greatest number of customers from `first` to `last` that can become more at a target where
    // the source serves, or `first` where none can.
    fn past_rising(&self, j: u8, first: u16, last: u16, bar: Option<Key>) -> u16
        requires tables { 0 < length self.now.tables.items }
        requires place { j < length self.now.targets }
        requires within { (first ≤ last) × (last ≤ slice_index self.now.caps (slice_index self.now.targets j)) }
        ensures from { first ≤ result }
        ensures within { result ≤ last + 1 }
        ensures stays { (v : ℕ) → result ≤ v → v ≤ last → MustStay (routing (shape_of self.now)) j bar v }
        ensures rises { first < result → MayRise (routing (shape_of self.now)) j bar (result - 1) }
    {
        let past = self.past_room(j, first, last);
        match bar {
            None => past,
            Some(key) => self.past_before(j, first, past, key),
        }
    }

    // One more than the greatest number of customers from `first` to `last` that leaves room, or `first` where none
    // does.
    fn past_room(&self, j: u8, first: u16, last: u16) -> u16
        requires place { j < length self.now.targets }
        requires within { (first ≤ last) × (last ≤ slice_index self.now.caps (slice_index self.now.targets j)) }
        ensures from { first ≤ result }
        ensures few { result ≤ slice_index self.now.caps (slice_index self.now.targets j) }
        ensures within { result ≤ last + 1 }
        ensures room { (v : ℕ) → first ≤ v → v < result → HasRoom (routing (shape_of self.now)) j v }
        ensures none { (v : ℕ) → result ≤ v → v ≤ last → Lacks (routing (shape_of self.now)) j v }
    {
        let most = self.most_with_room(j);
        if most < first {
            first
        } else {
            last.min(most) + 1
        }
    }

    // The first number of customers from `first` on and before `past` with which the target's key comes after `key`,
    // or `past` where there is none.
    fn first_behind(&self, j: u8, first: u16, past: u16, key: Key) -> u16
        requires tables { 0 < length self.now.tables.items }
        requires place { j < length self.now.targets }
        requires within { (first ≤ past) × (past ≤ slice_index self.now.caps (slice_index self.now.targets j)) }
        ensures within { (first ≤ result) × (result ≤ past) }
        ensures before { (v : ℕ) → first ≤ v → v < result → (routing (shape_of self.now)).key j v ≤ key_of key }
        ensures found { result < past → key_of key < (routing (shape_of self.now)).key j result }
    {
        let bound = key.weight as u64 + (j <= key.place) as u64;
        self.tables[j as usize].first_at_least_between(first, past, bound)
    }

    // One more than the last number of customers from `first` on and before `past` with which the target's key comes
    // before `key`, or `first` where there is none.
    fn past_before(&self, j: u8, first: u16, past: u16, key: Key) -> u16
        requires tables { 0 < length self.now.tables.items }
        requires place { j < length self.now.targets }
        requires within { (first ≤ past) × (past ≤ slice_index self.now.caps (slice_index self.now.targets j)) }
        ensures within { (first ≤ result) × (result ≤ past) }
        ensures after { (v : ℕ) → result ≤ v → v < past → key_of key ≤ (routing (shape_of self.now)).key j v }
        ensures found { first < result → (routing (shape_of self.now)).key j (result - 1) < key_of key }
    {
        let bound = key.weight as u64 + (j < key.place) as u64;
        self.tables[j as usize].past_last_below(first, past, bound)
    }
}
