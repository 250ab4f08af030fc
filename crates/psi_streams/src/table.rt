//! A table, drawn and written row by row.

ghost use Rattle.std.specs.Prelude.{◌≡◌, ◌+◌, ◌^◌, ◌≤◌, ◌&&◌, [], MatchResult};
ghost use Rattle.std.specs.List.{list_all};
ghost use Rattle.psi_log_writer.specs.Sending.{IsSent, IsStopped};
ghost use Rattle.psi_table.specs.Paths.{text_of_kind};
ghost use Rattle.psi_table.specs.PathLines.{header_of_kind};
ghost use Rattle.psi_streams.specs.Reply.{is_met};
ghost use Rattle.psi_streams.specs.Drawing.{all_drawn, status_of};

use crate::drawing::Streams;
use crate::tabling::Tabling;
use psi_command::Status;
use psi_io::{Sink, SinkFault};
use psi_state::Outcome;

// Whether a sample is met too, where those before it are all met or not.
fn all_met(met: bool, outcome: &Outcome) -> bool
    ensures { result ≡ (is_met outcome.now && met) }
{
    match outcome {
        Outcome::Met { .. } => met,
        Outcome::NotMet { .. } => false,
    }
}

/// Draws the samples of `count` streams from the first on, and writes their table, or that of the paths which begin in them, by way
/// of a block, in which its header waits; it answers whether all are met. It does not allocate.
///
/// # Errors
///
/// [`SinkFault::Failed`] only where the sink's count rose in this call or stands at the greatest u64. What the
/// sink holds then grew by a prefix of the table, and so did what was accepted.
pub(crate) fn write_table<S: Streams, O: Sink>(
    streams: &mut S,
    tabling: &mut Tabling<'_>,
    first: u64,
    count: u32,
    out: &mut O,
) -> Result<bool, SinkFault>
    requires network { S.network streams.old ≡ tabling.old.net }
    requires streams { first + count ≤ 2 ^ 64 }
    requires begun { tabling.old.waits ≡ header_of_kind tabling.old.steps tabling.old.net }
    ensures { let outcomes = all_drawn (S.drawn streams.old) first count in
        let text = text_of_kind tabling.old.steps tabling.old.net tabling.old.seed first outcomes in
        MatchResult result
        (λ met. (met ≡ list_all is_met outcomes) × IsSent
        (record { held = O.held out.old; took = O.took out.old; faults = O.faults out.old; takes = O.takes out.old })
        (record { held = O.held out.new; took = O.took out.new; faults = O.faults out.new; takes = O.takes out.new })
        [] text)
        (λ _. IsStopped
        (record { held = O.held out.old; took = O.took out.old; faults = O.faults out.old; takes = O.takes out.old })
        (record { held = O.held out.new; took = O.took out.new; faults = O.faults out.new; takes = O.takes out.new })
        text) }
{
    let mut met = true;
    for i in 0..count {
        let stream = first + i as u64;
        let outcome = streams.sample(stream);
        met = all_met(met, &outcome);
        tabling.put(stream, &outcome, out)?;
    }
    tabling.flush(out)?;
    Ok(met)
}

/// The status of the call, once its table is written: `Done` where all samples are met, else `NotCoupled`; or that of a
/// failed write.
pub(crate) fn table_status(written: Result<bool, SinkFault>) -> Status
    ensures { result ≡ status_of written }
{
    match written {
        Ok(true) => Status::Done,
        Ok(false) => Status::NotCoupled,
        Err(_) => Status::WriteFault,
    }
}
