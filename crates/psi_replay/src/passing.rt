//! The rules of a log that is read in one pass, judged line by line as it is read.

ghost use Rattle.std.specs.Prelude.{◌≡◌, ℕ, ◌+◌, ◌-◌, ◌≤◌, List, ◌++◌, length, true, IfErr, OnOk};
ghost use Rattle.psi_log_words.specs.Refusal.{Gives as GivesRead, IsLogError};
ghost use Rattle.psi_log.specs.Cursor.{IsCursor, EndsAs};
ghost use Rattle.psi_replay.specs.Verdict.{is_within, verdict_of};
ghost use Rattle.psi_log_format.specs.Listed.{shown};
ghost use Rattle.psi_replay.specs.Judging.{region_before};
ghost use Rattle.psi_replay.specs.Passes.{told, told_log, left_with};

use crate::answers::Verdict;
use crate::causes::Rejection;
use crate::judging::{StepLine, judge_last, judge_next};
use psi_event::EventLaw;
use psi_log::{Header, LogError, LogReader};
use psi_past::Past;
use psi_rate::System;
use psi_state::{State, Step};

// The line of the step that was read last.
fn line_read<'r>(reader: &'r LogReader<'_>, step: Step) -> StepLine<'r>
    requires { 1 ≤ reader.now.done }
    ensures line { result.line ≡ 6 + reader.entry.now.done }
    ensures time { result.time ≡ reader.entry.now.header.horizon + 1 - reader.entry.now.done }
    ensures step { result.step ≡ step }
    ensures before { region_before result ≡ reader.entry.now.before }
    ensures after { shown result.after ≡ reader.entry.now.region }
{
    let horizon = reader.header().horizon;
    let before = if reader.stays() {
        None
    } else {
        Some(reader.before())
    };
    StepLine {
        line: 6 + reader.done(),
        time: horizon + 1 - reader.done(),
        step,
        before,
        after: reader.region(),
    }
}

/// How far the lines of steps were read.
#[derive(Debug, Drop)]
pub(crate) struct Passed {
    /// Whether the lines that were read break no rule, or the first that is broken.
    pub(crate) judged: Result<(), Rejection>,
    /// Whether all are read, or why the next one isn't.
    pub(crate) read: Result<(), LogError>,
}

/// Reads the lines of steps, up to the last one or up to one that isn't read, and judges them as long as no rule is broken.
pub(crate) fn judge_lines<E: EventLaw, P: Past>(
    system: &System<'_, E>,
    past: &mut P,
    reader: &mut LogReader<'_>,
    before: Result<(), Rejection>,
) -> Passed
    requires cursor { IsCursor reader.old }
    requires queues { OnOk before (reader.old.header.queues ≡ length system.now.caps) }
    requires within { OnOk before (is_within system.now.caps reader.old.region ≡ true) }
    ensures left { let words = P.words past.old in
        (more : List ℕ) → left_with E.function system.now words reader.old (reader.old.rest ++ more) before ≡ left_with E.function system.now words reader.new (reader.new.rest ++ more) result.judged }
    ensures refused { IfErr result.read (λ error. IsLogError error (left_with E.function system.now (P.words past.old) reader.new reader.new.rest result.judged)) }
    ensures ends { EndsAs reader.old.rest reader.new.rest }
    ensures done { OnOk result.read (reader.new.done ≡ reader.new.header.horizon) }
    ensures queues { OnOk result.judged (reader.new.header.queues ≡ length system.now.caps) }
    ensures within { OnOk result.judged (is_within system.now.caps reader.new.region ≡ true) }
    ensures header { reader.new.header ≡ reader.old.header }
    ensures cursor { IsCursor reader.new }
    ensures words { P.words past.new ≡ P.words past.old }
{
    let horizon = reader.header().horizon;
    let mut judged = before;
    for done in reader.done()..horizon {
        let step = match reader.next() {
            Ok(step) => step,
            Err(error) => {
                return Passed {
                    judged,
                    read: Err(error),
                };
            }
        };
        judged = judge_next(system, past, &line_read(reader, step), judged);
    }
    Passed {
        judged,
        read: Ok(()),
    }
}

/// The verdict on a log of this header and of this state at time zero, whose rules were judged.
pub(crate) fn verdict_from(header: &Header, end: &State, judged: Result<(), Rejection>) -> Verdict
    ensures { result ≡ verdict_of (told_log header.now end.now) (told judged) }
{
    match judged {
        Ok(()) => Verdict::Accepted {
            horizon: header.horizon,
            state: *end,
        },
        Err(rejection) => Verdict::Rejected {
            line: rejection.line,
            cause: rejection.cause.code(),
        },
    }
}

/// The verdict on what is left of a log, after lines that were read and judged. A line that is refused comes before a
/// rule that is broken, wherever it stands.
///
/// # Errors
///
/// The first refusal of a line; `OutOfMemory`.
pub(crate) fn verdict_left<E: EventLaw, P: Past>(
    system: &System<'_, E>,
    past: &mut P,
    reader: &mut LogReader<'_>,
    before: Result<(), Rejection>,
) -> Result<Verdict, LogError>
    requires queues { OnOk before (reader.old.header.queues ≡ length system.now.caps) }
    requires within { OnOk before (is_within system.now.caps reader.old.region ≡ true) }
    ensures value { GivesRead (λ v. v) result (left_with E.function system.now (P.words past.old) reader.old reader.old.rest before) }
{
    let header = reader.header();
    let passed = judge_lines(system, past, reader, before);
    match passed.read {
        Ok(()) => {}
        Err(error) => return Err(error),
    }
    let end = match reader.end() {
        Ok(end) => end,
        Err(error) => return Err(error),
    };
    let last = reader.region();
    let judged = judge_last(passed.judged, 7 + header.horizon, &last, &end);
    Ok(verdict_from(&header, &end, judged))
}
