//! How far a text is read and judged that comes piece by piece.

ghost use Rattle.std.specs.Prelude.{◌≡◌, ℕ, ◌≤◌, List, ◌++◌, length, Ok, IfOk, IfErr, OnOk};
ghost use Rattle.psi_log_words.specs.Refusal.{Gives, IsLogError};
ghost use Rattle.psi_log.specs.Cursor.{begun, IsCursor, EndsAs};
ghost use Rattle.psi_replay.specs.Passes.{judged_under, replayed};
ghost use Rattle.psi_replay.specs.Streams.{left_under, IsJudged, IsSound, IsProgress};

use crate::answers::Verdict;
use crate::causes::Rejection;
use crate::judging::judge_begin;
use crate::passing::{judge_lines, verdict_left};
use crate::replay::replay_text;
use psi_event::EventLaw;
use psi_log::{LogCursor, LogError, LogReader};
use psi_past::{SeedPast, Windowed};
use psi_rate::System;
use std::alloc::{AllocError, Global};

/// A log that is read and judged up to a line, and has no text.
#[derive(Drop)]
pub(crate) struct Reading {
    pub(crate) past: Windowed<SeedPast>,
    /// Whether the lines that were read break no rule, or the first that is broken.
    pub(crate) judged: Result<(), Rejection>,
    pub(crate) cursor: LogCursor,
}

/// How far a text is read and judged.
#[derive(Drop)]
pub(crate) enum Progress {
    /// Nothing is read: the text doesn't have all the lines yet that stand before the steps, or they aren't as they
    /// have to be.
    Unread,
    /// The lines before the steps are read, and maybe steps.
    Begun(Reading),
    /// What was read is lost, since an allocation failed.
    Lost,
}

/// A text that is being read and judged.
#[derive(Drop)]
pub(crate) struct Judging<'t> {
    pub(crate) past: Windowed<SeedPast>,
    /// Whether the lines that were read break no rule, or the first that is broken.
    pub(crate) judged: Result<(), Rejection>,
    pub(crate) reader: LogReader<'t>,
}

/// Reads and judges a text up to its first step.
///
/// # Errors
///
/// The first refusal of a line; `OutOfMemory`.
pub(crate) fn begin<'t, E: EventLaw>(
    alloc: Global,
    system: &System<'_, E>,
    text: &'t [u8],
) -> Result<Judging<'t>, LogError>
    ensures judged { IfOk result (λ j. IsJudged system.now.caps j.past j.judged j.reader) }
    ensures cursor { IfOk result (λ j. IsCursor j.reader) }
    ensures ends { IfOk result (λ j. EndsAs text.now j.reader.rest) }
    ensures left { IfOk result (λ j. replayed (judged_under E.function system.now) text.now ≡ left_under E.function system.now j.reader j.reader.rest j.judged) }
    ensures front { IfOk result (λ j. (more : List ℕ) → length (text.now ++ more) ≤ 33554432
        → replayed (judged_under E.function system.now) (text.now ++ more) ≡ left_under E.function system.now j.reader (j.reader.rest ++ more) j.judged) }
    ensures refused { IfErr result (λ error. IsLogError error (replayed (judged_under E.function system.now) text.now)) }
{
    let reader = match LogReader::open(alloc, text) {
        Ok(reader) => reader,
        Err(error) => return Err(error),
    };
    let header = reader.header();
    let past = Windowed::new(SeedPast::new(header.seed, header.stream));
    let judged = judge_begin(system, &header, &reader.region());
    Ok(Judging {
        past,
        judged,
        reader,
    })
}

/// Reads and judges the lines of a text, and leaves it: what is left of it stands beside.
fn pass<'t, E: EventLaw>(
    system: &System<'_, E>,
    mut past: Windowed<SeedPast>,
    judged: Result<(), Rejection>,
    mut reader: LogReader<'t>,
) -> (Reading, &'t [u8])
    requires judged { IsJudged system.now.caps past judged reader }
    requires cursor { IsCursor reader }
    ensures ends { EndsAs reader.entry.rest result.1.now }
    ensures judged { IsJudged system.now.caps result.0.past result.0.judged result.0.cursor }
    ensures left { (more : List ℕ) → left_under E.function system.now reader.entry (reader.entry.rest ++ more) judged
        ≡ left_under E.function system.now result.0.cursor (result.1.now ++ more) result.0.judged }
{
    let passed = judge_lines(system, &mut past, &mut reader, judged);
    let judged = passed.judged;
    let (cursor, rest) = reader.into_cursor();
    let reading = Reading {
        past,
        judged,
        cursor,
    };
    (reading, rest)
}

/// Reads and judges the whole lines of a piece of text. What is left of it stands beside: a line that isn't read, and what
/// follows it.
///
/// # Errors
///
/// `AllocError` if an allocation fails; no clause says when that is.
pub(crate) fn judge_piece<'t, E: EventLaw>(
    alloc: Global,
    system: &System<'_, E>,
    progress: Progress,
    text: &'t [u8],
) -> Result<(Progress, &'t [u8]), AllocError>
    requires { IsSound system.now.caps progress }
    ensures sound { IfOk result (λ r. IsSound system.now.caps r.0) }
    ensures ends { IfOk result (λ r. EndsAs text.now r.1.now) }
    ensures left { IfOk result (λ r. (taken tail : List ℕ) → IsProgress E.function system.now taken (text.now ++ tail) progress → IsProgress E.function system.now taken (r.1.now ++ tail) r.0) }
{
    match progress {
        Progress::Unread => match begin(alloc, system, text) {
            Ok(begun) => {
                let (reading, rest) = pass(system, begun.past, begun.judged, begun.reader);
                Ok((Progress::Begun(reading), rest))
            }
            Err(_) => Ok((Progress::Unread, text)),
        },
        Progress::Begun(reading) => {
            let reader = match reading.cursor.resume(alloc, text) {
                Ok(reader) => reader,
                Err(error) => return Err(error),
            };
            let (reading, rest) = pass(system, reading.past, reading.judged, reader);
            Ok((Progress::Begun(reading), rest))
        }
        Progress::Lost => Ok((Progress::Lost, text)),
    }
}

/// The verdict on the text of which this is pending.
///
/// # Errors
///
/// As [`crate::replay_text`] has them of the text; `OutOfMemory` where what was read is lost.
pub(crate) fn verdict_on<E: EventLaw>(
    alloc: Global,
    system: &System<'_, E>,
    progress: Progress,
    pending: &[u8],
) -> Result<Verdict, LogError>
    requires { IsSound system.now.caps progress }
    ensures { (taken : List ℕ) → length taken ≤ 33554432 → IsProgress E.function system.now taken pending.now progress → Gives (λ v. v) result (replayed (judged_under E.function system.now) taken) }
{
    match progress {
        Progress::Unread => replay_text(alloc, system, pending),
        Progress::Begun(reading) => {
            let mut past = reading.past;
            let mut reader = match reading.cursor.resume(alloc, pending) {
                Ok(reader) => reader,
                Err(_) => return Err(LogError::OutOfMemory),
            };
            verdict_left(system, &mut past, &mut reader, reading.judged)
        }
        Progress::Lost => Err(LogError::OutOfMemory),
    }
}
