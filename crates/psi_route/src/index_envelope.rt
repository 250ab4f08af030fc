//! The envelope of a route by its tables, target by target.

ghost use Rattle.std.specs.Prelude.{◌≡◌, ◌<◌, ◌≤◌, length, slice_index, true, false};
ghost use Rattle.std.specs.Bool.{MatchBool};
ghost use Rattle.psi_state.specs.State.{IsBelow};

use crate::envelope::Coming;
use crate::keys::Key;
use crate::offers::Offers;
use crate::route::Route;
use psi_state::Bounds;

impl Route {
    ghost use Rattle.psi_route.specs.Routing.{routing};
    ghost use Rattle.psi_route.specs.Route.{shape_of};
    ghost use Rattle.psi_route.specs.Ends.{IsLeastAfter, AreTargetEnds};
    ghost use Rattle.psi_route.specs.Coming.{Comes, Misses, AreComing};
    ghost use Rattle.psi_route.specs.Offers.{IsRival, AreLeastTwo, MayStay, MustRise};

    /// Lets each target have its ends after the route, and returns how far the customers come past all of
    /// them; `always` says whether the source serves at the lower corner.
    ///
    /// What the targets offer is read off the box before the first of them changes; then each reads no ends
    /// but its own.
    pub(crate) fn weigh(&self, b: &mut Bounds, always: bool) -> Coming
        requires tables { 0 < length self.now.tables.items }
        requires ordered { IsBelow b.old.lo b.old.hi }
        requires within { IsBelow b.old.hi self.now.caps }
        requires coming { let r = routing (shape_of self.now) in MatchBool always (Comes r b.old.lo 0) (Misses r b.old.lo 0) × Comes r b.old.hi 0 }
        ensures ends { AreTargetEnds (routing (shape_of self.now)) b.old.lo b.old.hi b.new.lo b.new.hi (length self.now.targets) }
        ensures left { AreComing (routing (shape_of self.now)) b.old.lo b.old.hi (length self.now.targets) result }
    {
        let rivals = self.served_rivals(b, always);
        let bars = self.bars(b);
        for j in 0..self.places() {
            let queue = self.target(j);
            let least = b.least(queue);
            let greatest = b.greatest(queue);
            let low = self.low_after(always, j, least, greatest, rivals.beside(j));
            let high = self.target_high(j, least, greatest, bars.beside(j));
            b.set(queue, low, high);
        }
        Coming {
            always: always && rivals.first.is_none(),
            sometimes: bars.first.is_none(),
        }
    }

    // The least key of a target with room in some state of the box, and the least one of the other targets, where
    // the source always serves; else they aren't asked for.
    fn served_rivals(&self, b: &Bounds, always: bool) -> Offers
        requires tables { 0 < length self.now.tables.items }
        requires inside { IsBelow b.now.lo b.now.hi × IsBelow b.now.hi self.now.caps }
        ensures { always ≡ true → AreLeastTwo (IsRival (routing (shape_of self.now)) b.now.lo b.now.hi) (length self.now.targets) result.first result.second }
    {
        if !always {
            return Offers::none();
        }
        self.rivals(b)
    }

    // The least number of customers that the route leaves at the target at place `j`, which held from `least`
    // to `greatest`; it is the least one as it was where the source doesn't always serve.
    fn low_after(&self, always: bool, j: u8, least: u16, greatest: u16, rival: Option<Key>) -> u16
        requires tables { 0 < length self.now.tables.items }
        requires place { j < length self.now.targets }
        requires within { (least ≤ greatest) × (greatest ≤ slice_index self.now.caps (slice_index self.now.targets j)) }
        ensures kept { always ≡ false → result ≡ least }
        ensures served { always ≡ true → IsLeastAfter (MayStay (routing (shape_of self.now)) j rival) (MustRise (routing (shape_of self.now)) j rival) self.now.size least greatest result }
    {
        if always {
            self.target_low(j, least, greatest, rival)
        } else {
            least
        }
    }
}
