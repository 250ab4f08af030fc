//! `report NET SEED FIRST COUNT`: a report over samples of a network, one for each of several streams.

ghost use Rattle.std.specs.Prelude.{◌≡◌, ◌+◌, ◌^◌, ◌≤◌, IfOk};
ghost use Rattle.psi_report.specs.Samples.{IsSampleOf};
ghost use Rattle.psi_report.specs.Report.{report_text};
ghost use Rattle.psi_report.specs.Totals.{StandsFor};
ghost use Rattle.psi_command.specs.declared.status.Status.TheVariants.{Done};
ghost use Rattle.psi_reply.specs.Sample.{sampled};
ghost use Rattle.psi_reply.specs.Report.{samples_of};
ghost use Rattle.psi_reply.specs.Networks.{IsSystemOf};
ghost use Rattle.psi_program.specs.Reply.{text_reply};
ghost use Rattle.psi_reply.specs.Ending.{EndsWith};
ghost use Rattle.psi_reply.specs.Ended.{ending_of};

use crate::ending::Ending;
use crate::planning::{NetPlan, plan_for};
use psi_command::Status;
use psi_event::EventLaw;
use psi_horizon::OutOfMemory;
use psi_kinds::Event;
use psi_net_model::Net;
use psi_past::SeedPast;
use psi_report::Tally;
use psi_state::Outcome;
use std::alloc::Global;

/// Returns the sample of a stream, by the plan for the network, whose words it replaces. It does not allocate.
pub fn next_sample<'n>(plan: &mut NetPlan<'n>, net: &Net, seed: u64, stream: u64) -> Outcome
    requires { IsSystemOf ⟦<Event as EventLaw>⟧.function net.now plan.old.system }
    ensures value { result ≡ sampled net.now seed stream }
    ensures sample { IsSampleOf net.now result }
    ensures system { plan.new.system ≡ plan.old.system }
{
    // Called for its clause: the network is one that can be sampled.
    let _queues = net.queues();
    plan.replace(SeedPast::new(seed, stream));
    plan.sample()
}

// The totals of the samples of `count` streams. One plan serves all streams.
fn tally_of(
    alloc: Global,
    net: &Net,
    seed: u64,
    first: u64,
    count: u32,
) -> Result<Tally, OutOfMemory>
    requires few { count ≤ 65536 }
    requires streams { first + count ≤ 2 ^ 64 }
    ensures { IfOk result (λ tally. StandsFor tally net.now (samples_of net.now seed first count)) }
{
    let mut tally = Tally::new(alloc, net)?;
    let mut plan = plan_for(alloc, net, seed, first)?;
    for i in 0..count {
        let outcome = next_sample(&mut plan, net, seed, first + i as u64);
        tally.add(net, &outcome);
    }
    drop(plan);
    Ok(tally)
}

/// The report of the samples of `count` streams, at most 65,536 of them, from `first` on.
pub(crate) fn report_of(
    alloc: Global,
    net: &Net,
    seed: u64,
    first: u64,
    count: u32,
) -> Result<Vec<u8>, OutOfMemory>
    requires few { count ≤ 65536 }
    requires streams { first + count ≤ 2 ^ 64 }
    ensures { IfOk result (λ text. text.items ≡ report_text net.now (samples_of net.now seed first count)) }
{
    let tally = tally_of(alloc, net, seed, first, count)?;
    tally.text(alloc, net)
}

/// Does the work for `report`: the report of the samples that a seed and `count` streams draw of the network, 1 to
/// 65,536 of them, from `first` on; status `Done`, or `OutOfMemory`.
pub fn report_ending<'w>(alloc: Global, net: &Net, seed: u64, first: u64, count: u32) -> Ending<'w>
    requires few { count ≤ 65536 }
    requires streams { first + count ≤ 2 ^ 64 }
    ensures { EndsWith (ending_of result) (text_reply Done (report_text net.now (samples_of net.now seed first count))) }
{
    Ending::printed(Status::Done, report_of(alloc, net, seed, first, count))
}
