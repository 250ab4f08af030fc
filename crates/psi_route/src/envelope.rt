//! The envelope of a route, in place.

ghost use Rattle.std.specs.Prelude.{◌≡◌, ◌≤◌, true, length, slice_index, IfSome, if◌then◌else◌};
ghost use Rattle.std.specs.Bool.{MatchBool};
ghost use Rattle.psi_state.specs.State.{IsBelow, box};
ghost use Rattle.psi_state.specs.Sets.{image};
ghost use Rattle.psi_state.specs.Hull.{corners, IsTight};

use crate::parts::Full;
use crate::route::Route;
use psi_state::Bounds;

/// Whether the customers come as far as a place of the list: the source serves, and no earlier target has
/// room for them.
#[derive(Clone, Copy)]
pub(crate) struct Coming {
    /// Whether they do at the lower corner of the box, and so in each of its states.
    pub always: bool,
    /// Whether they do at the upper corner, and so in some state.
    pub sometimes: bool,
}

impl Route {
    ghost use Rattle.psi_route.specs.Routing.{routing, routed};
    ghost use Rattle.psi_route.specs.Route.{shape_of};
    ghost use Rattle.psi_route.specs.Ends.{AreTargetEnds};
    ghost use Rattle.psi_route.specs.Coming.{Comes, Misses, AreComing, is_gone, without};

    /// Makes of the box the least one that holds what the route makes of its states.
    ///
    /// First the targets have their ends. Whether the source loses a customer at a corner follows from how far
    /// the customers come past the targets, so the source comes last.
    pub(crate) fn spread(&self, b: &mut Bounds)
        requires { IsBelow b.old.hi self.now.caps }
        ensures hull { b.new ≡ corners (image (routed (shape_of self.now)) (box b.old.lo b.old.hi)) }
        ensures tight { IsTight (image (routed (shape_of self.now)) (box b.old.lo b.old.hi)) b.new.lo b.new.hi }
        ensures ordered { IsBelow b.old.lo b.old.hi }
    {
        // Called for its clause: the corners are in order.
        let _queues = b.len();
        let coming = self.coming(b);
        if coming.sometimes {
            let left = self.set_targets(b, coming.always);
            self.set_source(b, coming, left);
        }
    }

    // Whether the source serves in each state of the box, and in some.
    fn coming(&self, b: &Bounds) -> Coming
        requires { length b.now.lo ≡ length self.now.caps }
        ensures { AreComing (routing (shape_of self.now)) b.now.lo b.now.hi 0 result }
    {
        match self.source {
            None => Coming {
                always: true,
                sometimes: true,
            },
            Some(source) => Coming {
                always: b.least(source.queue) >= source.k,
                sometimes: b.greatest(source.queue) >= source.k,
            },
        }
    }

    // Lets each target have its ends after the route, and returns how far the customers come past all of them;
    // `always` says whether the source serves at the lower corner.
    fn set_targets(&self, b: &mut Bounds, always: bool) -> Coming
        requires ordered { IsBelow b.old.lo b.old.hi }
        requires within { IsBelow b.old.hi self.now.caps }
        requires coming { let r = routing (shape_of self.now) in MatchBool always (Comes r b.old.lo 0) (Misses r b.old.lo 0) × Comes r b.old.hi 0 }
        ensures ends { AreTargetEnds (routing (shape_of self.now)) b.old.lo b.old.hi b.new.lo b.new.hi (length self.now.targets) }
        ensures left { AreComing (routing (shape_of self.now)) b.old.lo b.old.hi (length self.now.targets) result }
    {
        if self.is_plain() {
            self.sweep(b, always)
        } else {
            self.weigh(b, always)
        }
    }

    // Lets the source have its ends, where the targets have theirs.
    fn set_source(&self, b: &mut Bounds, coming: Coming, left: Coming)
        requires length { length b.old.lo ≡ length self.now.caps }
        requires low { coming.always ≡ true → IfSome self.now.source (λ s. 1 ≤ slice_index b.old.lo s.queue) }
        requires high { coming.sometimes ≡ true → IfSome self.now.source (λ s. 1 ≤ slice_index b.old.hi s.queue) }
        requires ordered { let r = routing (shape_of self.now) in IsBelow (without r (is_gone r coming.always left.always) b.old.lo) (without r (is_gone r coming.sometimes left.sometimes) b.old.hi) }
        ensures { let r = routing (shape_of self.now) in b.new ≡ record { lo = without r (is_gone r coming.always left.always) b.old.lo; hi = without r (is_gone r coming.sometimes left.sometimes) b.old.hi } }
    {
        if let Some(source) = self.source {
            let least = b.least(source.queue) - self.gone(coming.always, left.always);
            let greatest = b.greatest(source.queue) - self.gone(coming.sometimes, left.sometimes);
            b.set(source.queue, least, greatest);
        }
    }

    // How many leave the source, where it serves and where the customers come past every target.
    fn gone(&self, serves: bool, passes: bool) -> u16
        ensures value { result ≡ (if is_gone (routing (shape_of self.now)) serves passes then 1 else 0) }
        ensures some { MatchBool serves (result ≤ 1) (result ≡ 0) }
    {
        (serves && (self.full == Full::Lost || self.places() == 0 || !passes)) as u16
    }
}
