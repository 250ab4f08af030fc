//! What writes the rows of a table.

ghost use Rattle.std.specs.Prelude.{◌≡◌, ◌≤◌, [], ◌++◌, Some, None, IfOk, IfSome, OnOk};
ghost use Rattle.psi_table.specs.Lines.{header_line};
ghost use Rattle.psi_log_writer.specs.Sending.{Sends};
ghost use Rattle.psi_report.specs.Samples.{IsSampleOf};
ghost use Rattle.psi_table.specs.PathLines.{header_of_kind, paths_header_line, line_of_kind};

use crate::walking::Walking;
use psi_io::{Sink, SinkFault};
use psi_net_model::{Net, OutOfMemory};
use psi_state::Outcome;
use psi_table::Rows;
use std::alloc::Global;
use std::marker::Model;

/// A table of a network's samples under one seed, or of the paths that begin in them, as it is written. It is seen as the network, the
/// seed, the number of steps where it is of paths, and the bytes that wait.
///
/// Only `begin` allocates.
#[derive(Drop)]
pub(crate) struct Tabling<'n> {
    net: &'n Net,
    seed: u64,
    rows: Rows,
    walking: Option<Walking>,
}

impl<'n> Model for Tabling<'n> {
    ghost use Rattle.std.specs.Prelude.{IfSome, option_map};
    ghost use Rattle.psi_streams.specs.Tabled.{Tabled, IsWalkingOf};

    ghost Value = { Tabled };

    ghost view = { λ t. record { net = t.net.now; seed = t.seed; steps = option_map (λ w. w.steps) t.walking; waits = t.rows } };

    ghost invariant = { λ t. IfSome t.walking (IsWalkingOf t.net.now) };
}

impl<'n> Tabling<'n> {
    /// Returns the table of samples, or with a number of steps that of paths, whose header waits.
    pub(crate) fn begin(
        alloc: Global,
        net: &'n Net,
        seed: u64,
        steps: Option<u32>,
    ) -> Result<Tabling<'n>, OutOfMemory>
        requires { IfSome steps (λ n. n ≤ 4290772992) }
        ensures { IfOk result (λ tabling. tabling ≡ record { net = net.entry.now; seed = seed; steps = steps; waits = header_of_kind steps net.entry.now }) }
    {
        match steps {
            None => Tabling::begin_samples(alloc, net, seed),
            Some(steps) => Tabling::begin_paths(alloc, net, seed, steps),
        }
    }

    // The table of samples.
    fn begin_samples(alloc: Global, net: &'n Net, seed: u64) -> Result<Tabling<'n>, OutOfMemory>
        ensures { IfOk result (λ tabling. tabling ≡ record { net = net.entry.now; seed = seed; steps = None; waits = header_line net.entry.now }) }
    {
        let rows = Rows::begin(alloc, net)?;
        Ok(Tabling {
            net,
            seed,
            rows,
            walking: None,
        })
    }

    // The table of paths.
    fn begin_paths(
        alloc: Global,
        net: &'n Net,
        seed: u64,
        steps: u32,
    ) -> Result<Tabling<'n>, OutOfMemory>
        requires { steps ≤ 4290772992 }
        ensures { IfOk result (λ tabling. tabling ≡ record { net = net.entry.now; seed = seed; steps = Some steps; waits = paths_header_line net.entry.now }) }
    {
        let rows = Rows::begin_paths(alloc, net)?;
        let walking = Some(Walking::new(alloc, net, steps)?);
        Ok(Tabling {
            net,
            seed,
            rows,
            walking,
        })
    }

    /// Puts the row of a stream after what waits, which is written first where a block is full. A sample that is met has a
    /// state within the network's capacities.
    ///
    /// # Errors
    ///
    /// [`SinkFault::Failed`] only where the sink's count rose in this call or stands at the greatest u64.
    pub(crate) fn put<O: Sink>(
        &mut self,
        stream: u64,
        outcome: &Outcome,
        out: &mut O,
    ) -> Result<(), SinkFault>
        requires { IsSampleOf self.old.net outcome.now }
        ensures sends { Sends result
            (record { held = O.held out.old; took = O.took out.old; faults = O.faults out.old; takes = O.takes out.old })
            (record { held = O.held out.new; took = O.took out.new; faults = O.faults out.new; takes = O.takes out.new })
            self.new.waits (self.old.waits ++ line_of_kind self.old.steps self.old.net self.old.seed stream outcome.now) }
        ensures net { self.new.net ≡ self.old.net }
        ensures seed { self.new.seed ≡ self.old.seed }
        ensures steps { self.new.steps ≡ self.old.steps }
    {
        match &mut self.walking {
            None => self.rows.put(self.net, stream, outcome, out),
            Some(walking) => {
                walking.follow(self.net, self.seed, stream, outcome);
                let walked = walking.walked();
                self.rows.put_path(self.net, stream, outcome, &walked, out)
            }
        }
    }

    /// Writes what waits; nothing waits then.
    ///
    /// # Errors
    ///
    /// [`SinkFault::Failed`] only where the sink's count rose in this call or stands at the greatest u64.
    pub(crate) fn flush<O: Sink>(&mut self, out: &mut O) -> Result<(), SinkFault>
        ensures sent { Sends result
            (record { held = O.held out.old; took = O.took out.old; faults = O.faults out.old; takes = O.takes out.old })
            (record { held = O.held out.new; took = O.took out.new; faults = O.faults out.new; takes = O.takes out.new })
            self.new.waits self.old.waits }
        ensures none { OnOk result (self.new.waits ≡ []) }
    {
        self.rows.flush(out)
    }
}
