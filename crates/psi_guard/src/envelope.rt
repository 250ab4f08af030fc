//! The tight box around what a guarded event makes of a box.

ghost use Rattle.std.specs.Prelude.{◌≡◌, ◌<◌, ◌≤◌, ◌⊎◌, ℕ, MatchBool, MatchOption, unsigned_abs};
ghost use Rattle.psi_state.specs.State.{IsBelow, box};
ghost use Rattle.psi_state.specs.Sets.{image};
ghost use Rattle.psi_state.specs.Hull.{corners, IsTight};
ghost use Rattle.psi_guard.specs.Guarding.{guarded};
ghost use Rattle.psi_guard.specs.Rule.{rule};
ghost use Rattle.psi_guard.specs.Envelope.{CanMoveAll, CanTurn, IsGreatestOf, IsLeastOf, Knows, MayKeep, MissesSome, one_more, others};

use crate::event::moved;
use crate::guarded::Guarded;
use crate::parts::Part;
use psi_state::Bounds;

// Which queues of a box can hold a number that the event doesn't happen with.
#[derive(Clone, Copy)]
pub(crate) enum Leaving {
    Nowhere,
    One(u8),
    Several,
}

impl Guarded {
    // Puts the tight box around what the event makes of a box in its place: both ends of each named queue
    // change, and no others.
    pub(crate) fn move_ends(&self, b: &mut Bounds)
        requires { IsBelow b.old.hi self.now.caps }
        ensures hull { b.new ≡ corners (image (guarded self.now.parts) (box b.old.lo b.old.hi)) }
        ensures tight { IsTight (image (guarded self.now.parts) (box b.old.lo b.old.hi)) b.new.lo b.new.hi }
        ensures ordered { IsBelow b.old.lo b.old.hi }
    {
        // Called for its clause: the corners are in order.
        let _queues = b.len();
        let moves = self.can_move(b);
        let leaving = self.leaving(b);
        for i in 0..self.count() {
            let part = self.part(i);
            let l = b.least(part.queue);
            let h = b.greatest(part.queue);
            let (low, high) = ends(part, l, h, moves, others(leaving, part.queue));
            b.set(part.queue, low, high);
        }
    }

    // Whether the event happens in some state of the box.
    fn can_move(&self, b: &Bounds) -> bool
        requires ordered { IsBelow b.now.lo b.now.hi }
        requires below { IsBelow b.now.hi self.now.caps }
        ensures { MatchBool result (CanMoveAll (rule self.now.caps self.now.parts) b.now.lo b.now.hi) (MissesSome (rule self.now.caps self.now.parts) b.now.lo b.now.hi) }
    {
        for i in 0..self.count() {
            let part = self.part(i);
            let l = b.least(part.queue);
            let h = b.greatest(part.queue);
            if h < part.least || part.most < l {
                return false;
            }
        }
        true
    }

    // Which queues leave their guards in the box.
    fn leaving(&self, b: &Bounds) -> Leaving
        requires ordered { IsBelow b.now.lo b.now.hi }
        requires below { IsBelow b.now.hi self.now.caps }
        ensures { Knows (rule self.now.caps self.now.parts) b.now.lo b.now.hi result }
    {
        let mut leaving = Leaving::Nowhere;
        for i in 0..self.count() {
            let part = self.part(i);
            let l = b.least(part.queue);
            let h = b.greatest(part.queue);
            if l < part.least || part.most < h {
                leaving = one_more(leaving, part.queue);
            }
        }
        leaving
    }
}

// The queues that leave their guards, with one more.
fn one_more(leaving: Leaving, queue: u8) -> Leaving
    ensures { result ≡ one_more leaving queue }
{
    match leaving {
        Leaving::Nowhere => Leaving::One(queue),
        Leaving::One(_) => Leaving::Several,
        Leaving::Several => Leaving::Several,
    }
}

// Whether a queue other than this one leaves its guard.
fn others(leaving: Leaving, queue: u8) -> bool
    ensures { result ≡ others leaving queue }
{
    match leaving {
        Leaving::Nowhere => false,
        Leaving::One(first) => first != queue,
        Leaving::Several => true,
    }
}

// The least and the greatest number of a part's queue that held `l` to `h`.
fn ends(part: Part, l: u16, h: u16, moves: bool, stays: bool) -> (u16, u16)
    requires ordered { l ≤ h }
    requires some { CanTurn part l h moves stays }
    requires shift { unsigned_abs part.shift ≤ 65535 }
    ensures least { IsLeastOf part l h moves stays result.0 }
    ensures greatest { IsGreatestOf part l h moves stays result.1 }
    ensures ordered { result.0 ≤ result.1 }
{
    (
        low_end(part, l, h, moves, stays),
        high_end(part, l, h, moves, stays),
    )
}

// The least number of a part's queue that held `l` to `h`: of those moved, if the event happens in some
// state, and of those kept, where it doesn't happen.
fn low_end(part: Part, l: u16, h: u16, moves: bool, stays: bool) -> u16
    requires ordered { l ≤ h }
    requires some { CanTurn part l h moves stays }
    requires shift { unsigned_abs part.shift ≤ 65535 }
    ensures { IsLeastOf part l h moves stays result }
{
    let image = moved(part, l.max(part.least));
    match least_kept(part, l, h, stays) {
        None => image,
        Some(kept) => { if moves && image < kept { image } else { kept } }
    }
}

// The greatest number of a part's queue that held `l` to `h`.
fn high_end(part: Part, l: u16, h: u16, moves: bool, stays: bool) -> u16
    requires shift { unsigned_abs part.shift ≤ 65535 }
    requires some { CanTurn part l h moves stays }
    requires ordered { l ≤ h }
    ensures { IsGreatestOf part l h moves stays result }
{
    let image = moved(part, h.min(part.most));
    match greatest_kept(part, l, h, stays) {
        None => image,
        Some(kept) => { if moves && kept < image { image } else { kept } }
    }
}

// The least number from `l` to `h` that the queue may keep, if there is one.
fn least_kept(part: Part, l: u16, h: u16, stays: bool) -> Option<u16>
    requires { l ≤ h }
    ensures { MatchOption result
        ((v : ℕ) → l ≤ v → v ≤ h → MayKeep part stays v → ⊥)
        (λ u. MayKeep part stays u × (l ≤ u) × (u ≤ h) × ((v : ℕ) → l ≤ v → v ≤ h → MayKeep part stays v → u ≤ v)) }
{
    if stays || l < part.least || part.most < l {
        return Some(l);
    }
    if part.most < h {
        return Some(part.most + 1);
    }
    None
}

// The greatest number from `l` to `h` that the queue may keep, if there is one.
fn greatest_kept(part: Part, l: u16, h: u16, stays: bool) -> Option<u16>
    requires { l ≤ h }
    ensures { MatchOption result
        ((v : ℕ) → l ≤ v → v ≤ h → MayKeep part stays v → ⊥)
        (λ w. MayKeep part stays w × (l ≤ w) × (w ≤ h) × ((v : ℕ) → l ≤ v → v ≤ h → MayKeep part stays v → v ≤ w)) }
{
    if h < part.least || part.most < h || stays {
        return Some(h);
    }
    if l < part.least {
        return Some(part.least - 1);
    }
    None
}
