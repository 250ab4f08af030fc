//! The rules of a log, line by line.

ghost use Rattle.std.specs.Prelude.{◌≡◌, ◌==◌, ◌-◌, ◌≤◌, ◌<◌, length, true, option_map, slice_get, MatchOption, Ok, OnOk};
ghost use Rattle.psi_rate.specs.Rates.{event_of};
ghost use Rattle.psi_rate.specs.System.{IsSystem};
ghost use Rattle.psi_rate.specs.Composition.{system_functions};
ghost use Rattle.psi_log_format.specs.Log.{IsRegion};
ghost use Rattle.psi_log_format.specs.Listed.{shown};
ghost use Rattle.psi_replay.specs.Verdict.{is_within, judge_step, judge_end, event_numbers};
ghost use Rattle.psi_replay.specs.Judging.{Gives, region_before};
ghost use Rattle.psi_log_words.specs.Refusal.{holds_or};
ghost use Rattle.psi_replay.specs.Verdict.{rejected};
ghost use Rattle.psi_replay.specs.declared.causes.RuleCause.TheVariants.{StepNumber, WrongEvent};
ghost use Rattle.psi_replay.specs.Passes.{judge_begin, and_then, told};

use crate::causes::{Rejection, RuleCause};
use crate::covering::{covers_itself, holds_all, step_covers};
use crate::regions::{holds, is_single, is_small, is_within};
use psi_event::EventLaw;
use psi_log::{BorrowedRegion, Header};
use psi_past::Past;
use psi_rate::System;
use psi_state::{State, Step};

/// Judges the lines before the steps.
///
/// # Errors
///
/// The first of these that breaks a rule, with its first cause.
#[tactic(auto, unfolding(crate::specs::Passes::judge_begin))]
pub(crate) fn judge_begin<E: EventLaw>(
    system: &System<'_, E>,
    header: &Header,
    begin: &BorrowedRegion<'_>,
) -> Result<(), Rejection>
    requires { IsRegion header.now.queues (shown begin.now) }
    ensures value { Gives (λ _. tt) result (judge_begin system.now.caps system.now.limit header.now (shown begin.now)) }
    ensures queues { OnOk result (header.now.queues ≡ length system.now.caps) }
    ensures within { OnOk result (is_within system.now.caps (shown begin.now) ≡ true) }
    ensures fit { IsSystem E.capacities system.now }
{
    let caps = system.caps();
    RuleCause::Header.unless(header.queues == caps.len(), 2)?;
    RuleCause::Header.unless(header.horizon <= 1 << system.limit(), 5)?;
    RuleCause::OutsideBox.unless(is_within(begin, &caps), 6)?;
    RuleCause::NotCovered.unless(holds_all(&caps, begin), 6)
}

// The number and the event of the word of a time.
#[inline]
fn drawn_at<'n, E: EventLaw, P: Past>(
    system: &System<'n, E>,
    past: &mut P,
    time: u32,
) -> (u16, Option<&'n E>)
    requires { 1 ≤ time }
    ensures number { result.0 ≡ event_numbers system.now (P.words past.old) time }
    ensures event { option_map (λ e. e.now) result.1 ≡ slice_get system.now.events (event_of system.now.rates (P.words past.old (time - 1))) }
    ensures fits { MatchOption result.1 (Unit {0}) (λ e. E.capacities e.now ≡ system.now.caps) }
    ensures words { P.words past.new ≡ P.words past.old }
{
    // Called for its clause: the events fit the capacities.
    let _caps = system.caps();
    system.pick(past.word(time - 1))
}

// Judges the two numbers of a step, which have to be a time and the number of an event.
fn judge_numbers(step: Step, line: u32, time: u32, number: u16) -> Result<(), Rejection>
    ensures { Gives (λ _. tt) result (and_then (holds_or (rejected line StepNumber) (step.number == time)) (holds_or (rejected line WrongEvent) (step.event == number))) }
{
    RuleCause::StepNumber.unless(step.number == time, line)?;
    RuleCause::WrongEvent.unless(step.event == number, line)
}

/// The line of a step, and what its rules speak of.
#[derive(Drop)]
pub(crate) struct StepLine<'l> {
    /// The line, counted from 1.
    pub(crate) line: u32,
    /// The time that its step has to have.
    pub(crate) time: u32,
    /// The step.
    pub(crate) step: Step,
    /// The region before it; `None` where the step leaves it in its place.
    pub(crate) before: Option<BorrowedRegion<'l>>,
    /// The region after it.
    pub(crate) after: BorrowedRegion<'l>,
}

// Judges the line of a step that has another region before it.
#[tactic(auto, unfolding(crate::specs::Verdict::judge_step))]
fn judge_change<'l, E: EventLaw, P: Past>(
    system: &System<'_, E>,
    past: &mut P,
    line: &StepLine<'l>,
    before: &BorrowedRegion<'l>,
) -> Result<(), Rejection>
    requires time { 1 ≤ line.now.time }
    requires before { is_within system.now.caps (shown before.now) ≡ true }
    requires after { IsRegion (length system.now.caps) (shown line.now.after) }
    ensures value { let words = P.words past.old in
        Gives (λ _. tt) result (judge_step system.now.caps system.now.limit (event_numbers system.now words) (system_functions E.function system.now words)
        line.now.line line.now.time (shown before.now) (record { step = line.now.step; region = shown line.now.after })) }
    ensures within { OnOk result (is_within system.now.caps (shown line.now.after) ≡ true) }
    ensures words { P.words past.new ≡ P.words past.old }
{
    let caps = system.caps();
    let (number, event) = drawn_at(system, past, line.time);
    judge_numbers(line.step, line.line, line.time, number)?;
    RuleCause::OutsideBox.unless(is_within(&line.after, &caps), line.line)?;
    RuleCause::SplitTooLarge.unless(is_small(before, &line.after), line.line)?;
    RuleCause::NotCovered.unless(step_covers(event, &caps, before, &line.after), line.line)
}

// Judges the line of a step that leaves the region in its place: less is then asked of it.
#[tactic(auto, unfolding(crate::specs::Verdict::judge_step))]
fn judge_stay<E: EventLaw, P: Past>(
    system: &System<'_, E>,
    past: &mut P,
    line: &StepLine<'_>,
) -> Result<(), Rejection>
    requires time { 1 ≤ line.now.time }
    requires regional { IsRegion (length system.now.caps) (shown line.now.after) }
    requires within { is_within system.now.caps (shown line.now.after) ≡ true }
    ensures value { let words = P.words past.old in
        Gives (λ _. tt) result (judge_step system.now.caps system.now.limit (event_numbers system.now words) (system_functions E.function system.now words)
        line.now.line line.now.time (shown line.now.after) (record { step = line.now.step; region = shown line.now.after })) }
    ensures words { P.words past.new ≡ P.words past.old }
{
    let (number, event) = drawn_at(system, past, line.time);
    judge_numbers(line.step, line.line, line.time, number)?;
    RuleCause::NotCovered.unless(covers_itself(event, &line.after), line.line)
}

/// Judges the line of a step, unless a rule is broken already.
///
/// # Errors
///
/// The first line that breaks a rule, with its first cause.
pub(crate) fn judge_next<E: EventLaw, P: Past>(
    system: &System<'_, E>,
    past: &mut P,
    line: &StepLine<'_>,
    judged: Result<(), Rejection>,
) -> Result<(), Rejection>
    requires time { 1 ≤ line.now.time }
    requires regional { OnOk judged (IsRegion (length system.now.caps) (shown line.now.after)) }
    requires within { OnOk judged (is_within system.now.caps (region_before line.now) ≡ true) }
    ensures value { let words = P.words past.old in
        Gives (λ _. tt) result (and_then (told judged) (judge_step system.now.caps system.now.limit (event_numbers system.now words) (system_functions E.function system.now words)
        line.now.line line.now.time (region_before line.now) (record { step = line.now.step; region = shown line.now.after }))) }
    ensures within { OnOk result (is_within system.now.caps (shown line.now.after) ≡ true) }
    ensures before { OnOk result (told judged ≡ Ok tt) }
    ensures words { P.words past.new ≡ P.words past.old }
{
    match (judged, &line.before) {
        (Ok(()), Some(before)) => judge_change(system, past, line, before),
        (Ok(()), None) => judge_stay(system, past, line),
        (Err(rejection), _) => Err(rejection),
    }
}

/// Judges the last line, unless a rule is broken already.
///
/// # Errors
///
/// The first line that breaks a rule, with its first cause.
#[tactic(auto, unfolding(crate::specs::Verdict::judge_end))]
pub(crate) fn judge_last(
    judged: Result<(), Rejection>,
    line: u32,
    last: &BorrowedRegion<'_>,
    end: &State,
) -> Result<(), Rejection>
    requires { IsRegion (length end.now) (shown last.now) }
    ensures { Gives (λ _. tt) result (and_then (told judged) (judge_end line (shown last.now) end.now)) }
{
    judged?;
    RuleCause::NotSingle.unless(is_single(last), line)?;
    RuleCause::WrongState.unless(holds(last, end, &mut 0), line)
}
