//! The contract of walkers.

ghost use Rattle.std.specs.Prelude.{◌≡◌, ◌≤◌, ℕ, List, length, map};
ghost use Rattle.psi_state.specs.State.{IsBelow};
ghost use Rattle.psi_event.specs.Law.{Function};
ghost use Rattle.psi_path.specs.Path.{path_of, state_of};
ghost use Rattle.psi_path.specs.Sums.{Worth, HasCounts, ArePathSums};

use crate::rewards::Rewards;
use crate::sample_path::SamplePath;
use crate::walk::Walk;
use psi_event::EventLaw;
use psi_past::Past;
use psi_state::State;

/// A way to walk the paths of one network with its rewards, one after another.
///
/// No call allocates.
pub trait PathWalker {
    // Whether it walks the paths of the network of these capacities and functions of events, with these rewards.
    ghost walks: { Self → (caps : List ℕ) → List Function → List Worth → Type 0 };

    /// Walks a path as [`Walk::run`] does, of the network of this walker, and writes the same sums into `walk`.
    fn run<E: EventLaw, P: Past, R: Rewards>(
        &mut self,
        path: &mut SamplePath<'_, E, P, R>,
        walk: &mut Walk,
    ) -> State
        requires walker { walks self.old path.old.system.now.caps (map E.function path.old.system.now.events) (R.worths path.old.rewards.now) }
        requires start { IsBelow path.old.start path.old.system.now.caps }
        requires steps { path.old.steps ≤ 4290772992 }
        requires rewards { R.capacities path.old.rewards.now ≡ path.old.system.now.caps }
        requires counts { HasCounts (length path.old.system.now.caps) (length (R.worths path.old.rewards.now)) (length path.old.system.now.events) walk.old }
        ensures state { result ≡ state_of (path_of E.function path.old.system.now (P.words path.old.past) path.old.start) path.old.steps }
        ensures within { IsBelow result path.old.system.now.caps }
        ensures sums { ArePathSums (length path.old.system.now.caps) (length (R.worths path.old.rewards.now)) (length path.old.system.now.events) (R.worths path.old.rewards.now)
            (path_of E.function path.old.system.now (P.words path.old.past) path.old.start) path.old.steps walk.new }
        ensures counts { HasCounts (length path.old.system.now.caps) (length (R.worths path.old.rewards.now)) (length path.old.system.now.events) walk.new }
        ensures words { P.words path.new.past ≡ P.words path.old.past }
        ensures path { path.new ≡ record path.old { past = path.new.past } }
        ensures same { self.new ≡ self.old };
}
