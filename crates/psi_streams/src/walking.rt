//! The walk of the paths that begin in samples.

ghost use Rattle.std.specs.Prelude.{◌≡◌, ◌≤◌, map, IfOk};
ghost use Rattle.psi_state.specs.State.{IsBelow};
ghost use Rattle.psi_net_model.specs.Network.{caps_of};
ghost use Rattle.psi_report.specs.Samples.{IsSampleOf};
ghost use Rattle.psi_table.specs.Paths.{stream_path, AreSumsFor, AreSumsOf, AreOfStream};
ghost use Rattle.psi_streams.specs.Ways.{Walks, IsWayOf};

use psi_event::{EventLaw, PiecewiseLaw};
use psi_net_model::Net;
use psi_past::{Past, SeedPast};
use psi_path::{OutOfMemory, PathWalker, Rewards, SamplePath, Walk};
use psi_path_packed::ByWords;
use psi_path_table::TableWalk;
use psi_rate::System;
use psi_state::{Outcome, State};
use psi_table::{NetRewards, Walked};
use std::alloc::Global;

/// How the paths of a network are walked.
#[derive(Drop)]
pub(crate) enum Way {
    /// By applying each event.
    Plain,
    /// By a table of the states.
    Table(TableWalk),
    /// On packed states.
    Packed(ByWords),
}

impl Way {
    // Returns the fastest way for paths of so many steps in a network with these rewards.
    fn new<E: PiecewiseLaw, R: Rewards>(
        alloc: Global,
        system: &System<'_, E>,
        rewards: &R,
        steps: u32,
    ) -> Result<Way, OutOfMemory>
        requires { R.capacities rewards.now ≡ system.now.caps }
        ensures { IfOk result (Walks system.now.caps (map E.function system.now.events) (R.worths rewards.now)) }
    {
        // Made in any case, so that memory does not depend on the number of steps.
        let table = TableWalk::new(alloc, system)?;
        let packed = ByWords::new(alloc, system, rewards)?;
        if let Some(table) = table {
            // Each path takes the time of about so many steps to read the counts of the table.
            if steps >= table.entries() {
                return Ok(Way::Table(table));
            }
        }
        let Some(packed) = packed else {
            return Ok(Way::Plain);
        };
        Ok(Way::Packed(packed))
    }
}

impl PathWalker for Way {
    ghost walks = { λ way caps functions worths. Walks caps functions worths way };

    fn run<E: EventLaw, P: Past, R: Rewards>(
        &mut self,
        path: &mut SamplePath<'_, E, P, R>,
        walk: &mut Walk,
    ) -> State {
        match self {
            Way::Plain => walk.run(path),
            Way::Table(table) => table.run(path, walk),
            Way::Packed(packed) => packed.run(path, walk),
        }
    }
}

/// Walks paths of `steps` steps, at most 4,290,772,992, and keeps the sums of the last one.
#[derive(Drop)]
pub(crate) struct Walking {
    pub(crate) walk: Walk,
    pub(crate) steps: u32,
    pub(crate) way: Way,
}

impl Walking {
    /// Returns a walk for paths of `steps` steps in a network.
    pub(crate) fn new(alloc: Global, net: &Net, steps: u32) -> Result<Walking, OutOfMemory>
        ensures steps { IfOk result (λ walking. walking.steps ≡ steps) }
        ensures counts { IfOk result (λ walking. AreSumsFor net.now walking.walk) }
        ensures way { IfOk result (λ walking. IsWayOf net.now walking.way) }
    {
        let queues = net.queues();
        let rewards = net.rewards() as usize;
        let walk = Walk::new(alloc, queues, rewards, net.events())?;
        let way = Way::new(alloc, &net.system(), &NetRewards { net }, steps)?;
        Ok(Walking { walk, steps, way })
    }

    /// Walks the path of a stream from its sample; where the sample isn't met, there is no path. It does not allocate.
    pub(crate) fn follow(&mut self, net: &Net, seed: u64, stream: u64, outcome: &Outcome)
        requires few { self.old.steps ≤ 4290772992 }
        requires counts { AreSumsFor net.now self.old.walk }
        requires way { IsWayOf net.now self.old.way }
        requires sample { IsSampleOf net.now outcome.now }
        ensures walked { AreOfStream net.now seed self.old.steps stream outcome.now self.new.walk }
        ensures counts { AreSumsFor net.now self.new.walk }
        ensures steps { self.new.steps ≡ self.old.steps }
        ensures way { IsWayOf net.now self.new.way }
    {
        if let Outcome::Met { state, .. } = outcome {
            self.walk_from(net, seed, stream, *state);
        }
    }

    // Walks the path of a stream from a state.
    fn walk_from(&mut self, net: &Net, seed: u64, stream: u64, start: State)
        requires few { self.old.steps ≤ 4290772992 }
        requires counts { AreSumsFor net.now self.old.walk }
        requires way { IsWayOf net.now self.old.way }
        requires within { IsBelow start (caps_of net.now) }
        ensures walked { AreSumsOf net.now (stream_path net.now seed stream start) self.old.steps self.new.walk }
        ensures counts { AreSumsFor net.now self.new.walk }
        ensures steps { self.new.steps ≡ self.old.steps }
        ensures way { IsWayOf net.now self.new.way }
    {
        let mut path = SamplePath {
            system: &net.system(),
            rewards: &NetRewards { net },
            past: SeedPast::new(seed, stream),
            start,
            steps: self.steps,
        };
        let _end = self.way.run(&mut path, &mut self.walk);
    }

    /// Returns the path that was walked last.
    pub(crate) fn walked(&self) -> Walked<'_>
        ensures steps { result.steps ≡ self.now.steps }
        ensures walk { result.walk.now ≡ self.now.walk }
    {
        Walked {
            steps: self.steps,
            walk: &self.walk,
        }
    }
}
