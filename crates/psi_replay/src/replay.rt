//! The verdict on a log, and on the log that a text is.

ghost use Rattle.std.specs.Prelude.{◌≡◌, ◌+◌, ◌-◌, ◌<◌, length, true, Some, Ok, OnOk};
ghost use Rattle.psi_past.specs.SeedWord.{seed_word};
ghost use Rattle.psi_rate.specs.Composition.{system_functions};
ghost use Rattle.psi_log_words.specs.Refusal.{Gives};
ghost use Rattle.psi_log_format.specs.Listed.{shown};
ghost use Rattle.psi_log.specs.Told.{region_at, step_at};
ghost use Rattle.psi_replay.specs.Judging.{region_before};
ghost use Rattle.psi_log_format.specs.Log.{LogRegion, IsRegion};
ghost use Rattle.psi_replay.specs.Verdict.{is_within, judge_steps, judged, verdict_of, event_numbers, ReachesAccepted, AcceptsWithin};
ghost use Rattle.psi_replay.specs.Passes.{told, and_then, judged_under, replayed};

use crate::answers::Verdict;
use crate::causes::Rejection;
use crate::judging::{StepLine, judge_begin, judge_last, judge_next};
use crate::passing::{verdict_from, verdict_left};
use crate::progress::begin;
use psi_event::EventLaw;
use psi_log::{Log, LogError};
use psi_past::{Past, SeedPast, Windowed};
use psi_rate::System;
use std::alloc::Global;

// The line of the step of a log after `done` others.
fn line_in(log: &Log, done: u32) -> StepLine<'_>
    requires { done < log.now.header.horizon }
    ensures line { result.line ≡ 7 + done }
    ensures time { result.time ≡ log.entry.now.header.horizon - done }
    ensures step { step_at log.entry.now (done + 1) ≡ Some result.step }
    ensures before { region_at log.entry.now done ≡ Some (region_before result) }
    ensures after { region_at log.entry.now (done + 1) ≡ Some (shown result.after) }
    ensures regional { IsRegion log.entry.now.header.queues (shown result.after) }
{
    let horizon = log.header().horizon;
    StepLine {
        line: 7 + done,
        time: horizon - done,
        step: log.step(done + 1),
        before: Some(log.look(done)),
        after: log.look(done + 1),
    }
}

// Judges the lines of the steps of a log, unless a rule is broken already.
fn judge_steps<E: EventLaw, P: Past>(
    system: &System<'_, E>,
    past: &mut P,
    log: &Log,
    before: Result<(), Rejection>,
) -> Result<(), Rejection>
    requires queues { OnOk before (log.now.header.queues ≡ length system.now.caps) }
    requires within { OnOk before (is_within system.now.caps log.now.begin ≡ true) }
    ensures value { let words = P.words past.old in
        (last : LogRegion) → region_at log.now log.now.header.horizon ≡ Some last
        → and_then (told before) (judge_steps system.now.caps system.now.limit (event_numbers system.now words) (system_functions E.function system.now words)
        7 log.now.header.horizon log.now.begin log.now.entries) ≡ and_then (told result) (Ok last) }
{
    let horizon = log.header().horizon;
    let mut judged = before;
    for done in 0..horizon {
        judged = judge_next(system, past, &line_in(log, done), judged);
    }
    judged
}

/// Returns the verdict on a log of a network: accepted where it breaks no rule, whoever wrote it, and rejected else, at
/// the first line that breaks one.
///
/// The events of the steps are those of the words of the header's seed and stream. Where the log is accepted,
/// every state within the capacities that starts at its horizon or earlier is its state at time zero, which is
/// within the capacities too (coupling from the past, Propp and Wilson 1996). The rules, in the order in which
/// they are judged:
///
/// | Line | Cause |
/// |---|---|
/// | 2 | `Header`: the queues aren't as many as the network's |
/// | 5 | `Header`: the horizon is above 2 to the power of the network's limit |
/// | 6, where the run begins | `OutsideBox`: a state of the region has more customers than a queue has room for. `NotCovered`: the region isn't all states |
/// | 6 + i, the i-th step | `StepNumber`: its number isn't the horizon less i, plus 1. `WrongEvent`: its event isn't that of its time's word. `OutsideBox`, as above. `SplitTooLarge`: the region is a set, and the one before a box of more than 4,096 states. `NotCovered`: what the event makes of a state of the region before isn't in the region |
/// | the last | `NotSingle`: the last region has more than one state. `WrongState`: its state isn't the one on the line |
///
/// A region may be larger than it needs to be, and a set may be followed by a box. The call does not allocate. A step
/// from a box to a box costs one envelope (Bušić, Gaujal and Vincent 2008); a step of a set, or from a box of
/// at most 4,096 states to a set, looks at each state by itself.
pub fn verdict<E: EventLaw>(system: &System<'_, E>, log: &Log) -> Verdict
    ensures value { let words = seed_word log.now.header.seed log.now.header.stream in
        result ≡ verdict_of log.now (judged system.now.caps system.now.limit (event_numbers system.now words) (system_functions E.function system.now words) log.now) }
    ensures reached { ReachesAccepted (system_functions E.function system.now (seed_word log.now.header.seed log.now.header.stream)) system.now.caps result }
    ensures within { AcceptsWithin system.now.caps result }
{
    let header = log.header();
    let end = log.end();
    let mut past = Windowed::new(SeedPast::new(header.seed, header.stream));
    let begun = judge_begin(system, &header, &log.look(0));
    let judged = judge_steps(system, &mut past, log, begun);
    let last = judge_last(judged, 7 + header.horizon, &log.look(header.horizon), &end);
    verdict_from(&header, &end, last)
}

/// Returns the verdict of a network on the log that a text is: what [`verdict`] gives on the log that
/// `psi_log::read_log` reads.
///
/// The text is read and judged in one pass, line by line. Where a line breaks a rule, the lines after it are still
/// read, since one that is refused comes first. At any time two regions are held, and the words of one line.
///
/// # Errors
///
/// The first line that isn't as the grammar of logs has it, with its first cause, as `psi_log::LogCause` has them;
/// `OutOfMemory`, and no clause says when that is.
pub fn replay_text<E: EventLaw>(
    alloc: Global,
    system: &System<'_, E>,
    text: &[u8],
) -> Result<Verdict, LogError>
    ensures { Gives (λ v. v) result (replayed (judged_under E.function system.now) text.now) }
{
    let begun = match begin(alloc, system, text) {
        Ok(begun) => begun,
        Err(error) => return Err(error),
    };
    let mut past = begun.past;
    let mut reader = begun.reader;
    verdict_left(system, &mut past, &mut reader, begun.judged)
}
