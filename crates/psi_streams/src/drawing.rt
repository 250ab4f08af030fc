//! What draws the samples of many streams, one after another.

ghost use Rattle.std.specs.Prelude.{◌≡◌, ℕ};
ghost use Rattle.psi_state.specs.declared.Outcome.{Outcome};
ghost use Rattle.psi_net_model.specs.Network.{Network};
ghost use Rattle.psi_report.specs.Samples.{IsSampleOf};
ghost use Rattle.psi_reply.specs.Closed.{IsClosedNet};
ghost use Rattle.psi_reply.specs.Networks.{IsSystemOf};

use psi_closed::ClosedPlan;
use psi_event::EventLaw;
use psi_kinds::Event;
use psi_net_model::Net;
use psi_past::SeedPast;
use psi_reply::{NetPlan, next_closed, next_sample};
use psi_state::Outcome;
use std::marker::Model;

/// What draws the sample of each stream of a network. It does not allocate.
pub(crate) trait Streams {
    // The network.
    ghost network: { Self → Network };

    // The sample of each stream.
    ghost drawn: { Self → ℕ → Outcome };

    /// The sample of a stream. It does not allocate.
    fn sample(&mut self, stream: u64) -> Outcome
        ensures value { result ≡ drawn self.old stream }
        ensures counts { IsSampleOf (network self.old) result }
        ensures same { self.new ≡ self.old };
}

/// The streams of a network under one seed. They are seen as the network and the seed.
#[derive(Drop)]
pub(crate) struct OpenStreams<'n> {
    net: &'n Net,
    seed: u64,
    plan: NetPlan<'n>,
}

impl<'n> Model for OpenStreams<'n> {
    ghost use Rattle.psi_streams.specs.Drawing.{Open};
    ghost use Rattle.psi_reply.specs.Networks.{IsSystemOf};

    ghost Value = { Open };

    ghost view = { λ s. record { net = s.net.now; seed = s.seed } };

    ghost invariant = { λ s. IsSystemOf ⟦<Event as EventLaw>⟧.function s.net.now s.plan.system };
}

impl<'n> OpenStreams<'n> {
    /// The streams of a seed, by a plan for the network.
    pub(crate) fn new(net: &'n Net, seed: u64, plan: NetPlan<'n>) -> OpenStreams<'n>
        requires { IsSystemOf ⟦<Event as EventLaw>⟧.function net.now plan.system }
        ensures { result ≡ record { net = net.entry.now; seed = seed } }
    {
        OpenStreams { net, seed, plan }
    }
}

impl<'n> Streams for OpenStreams<'n> {
    ghost use Rattle.psi_reply.specs.Sample.{sampled};

    ghost network = { λ s. s.net };

    ghost drawn = { λ s. sampled s.net s.seed };

    fn sample(&mut self, stream: u64) -> Outcome {
        next_sample(&mut self.plan, self.net, self.seed, stream)
    }
}

/// The streams of a closed network under one seed. They are seen as the network, the seed, and the number of customers in
/// all.
#[derive(Drop)]
pub(crate) struct ClosedStreams<'n> {
    net: &'n Net,
    seed: u64,
    plan: ClosedPlan<'n, SeedPast>,
}

impl<'n> Model for ClosedStreams<'n> {
    ghost use Rattle.psi_streams.specs.Drawing.{Closed};
    ghost use Rattle.psi_reply.specs.Closed.{IsClosedNet};

    ghost Value = { Closed };

    ghost view = { λ s. record { net = s.net.now; seed = s.seed; total = s.plan.network.total } };

    ghost invariant = { λ s. IsClosedNet s.net.now s.plan.network.total s.plan.network };
}

impl<'n> ClosedStreams<'n> {
    /// The streams of a seed, by a plan for the closed network.
    pub(crate) fn new(net: &'n Net, seed: u64, plan: ClosedPlan<'n, SeedPast>) -> ClosedStreams<'n>
        requires { IsClosedNet net.now plan.network.total plan.network }
        ensures { result ≡ record { net = net.entry.now; seed = seed; total = plan.entry.network.total } }
    {
        ClosedStreams { net, seed, plan }
    }
}

impl<'n> Streams for ClosedStreams<'n> {
    ghost use Rattle.psi_reply.specs.Closed.{closed_sampled};

    ghost network = { λ s. s.net };

    ghost drawn = { λ s stream. closed_sampled s.net s.seed stream s.total };

    fn sample(&mut self, stream: u64) -> Outcome {
        next_closed(&mut self.plan, self.net, self.seed, stream)
    }
}
