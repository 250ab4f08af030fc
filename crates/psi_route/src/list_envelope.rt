//! The envelope of a route without tables, by one pass over its list.

ghost use Rattle.std.specs.Prelude.{◌≡◌, ◌+◌, ◌<◌, ◌≤◌, true, false, length, min};
ghost use Rattle.std.specs.Bool.{MatchBool};
ghost use Rattle.psi_state.specs.State.{IsBelow};

use crate::envelope::Coming;
use crate::route::Route;
use psi_state::Bounds;

impl Route {
    ghost use Rattle.psi_route.specs.Routing.{routing};
    ghost use Rattle.psi_route.specs.Route.{shape_of};
    ghost use Rattle.psi_route.specs.Ends.{AreTargetEnds};
    ghost use Rattle.psi_route.specs.Coming.{Comes, Misses, AreComing};

    /// Lets each target have its ends after the route, and returns how far the customers come past all of
    /// them; `always` says whether the source serves at the lower corner.
    ///
    /// Where some target has room at the upper corner no customer comes past it, so the rest stays.
    pub(crate) fn sweep(&self, b: &mut Bounds, always: bool) -> Coming
        requires plain { length self.now.tables.items ≡ 0 }
        requires ordered { IsBelow b.old.lo b.old.hi }
        requires within { IsBelow b.old.hi self.now.caps }
        requires coming { let r = routing (shape_of self.now) in MatchBool always (Comes r b.old.lo 0) (Misses r b.old.lo 0) × Comes r b.old.hi 0 }
        ensures ends { AreTargetEnds (routing (shape_of self.now)) b.old.lo b.old.hi b.new.lo b.new.hi (length self.now.targets) }
        ensures left { AreComing (routing (shape_of self.now)) b.old.lo b.old.hi (length self.now.targets) result }
    {
        let mut always = always;
        for j in 0..self.places() {
            let queue = self.target(j);
            let room = self.most_with_room(j);
            let least = b.least(queue);
            if least <= room {
                let greatest = b.greatest(queue);
                let low = self.lowest(always, least, greatest, room);
                b.set(queue, low, greatest.min(room) + self.size);
                if greatest <= room {
                    return Coming {
                        always: false,
                        sometimes: false,
                    };
                }
                always = false;
            }
        }
        Coming {
            always,
            sometimes: true,
        }
    }

    // The least number at a target that held from `least` to `greatest` customers, of which up to `room` leave
    // room for more; `always` says whether the customers come to it in each state.
    fn lowest(&self, always: bool, least: u16, greatest: u16, room: u16) -> u16
        requires low { least ≤ room }
        requires fits { room + self.now.size < 65536 }
        ensures kept { always ≡ false → result ≡ least }
        ensures roomy { always ≡ true → greatest ≤ room → result ≡ least + self.now.size }
        ensures narrow { always ≡ true → room < greatest → result ≡ min (least + self.now.size) (room + 1) }
    {
        if !always {
            least
        } else if greatest <= room {
            least + self.size
        } else {
            (least + self.size).min(room + 1)
        }
    }
}
