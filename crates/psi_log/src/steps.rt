//! The line of a step, word by word.

ghost use Rattle.std.specs.Prelude.{◌≡◌, ◌≤◌, length, map, Ok, IfOk, IfErr, IfSome, option_copied};
ghost use Rattle.psi_log_words.specs.Refusal.{IsLogError};
ghost use Rattle.psi_log_scan.specs.Lines.{read_step};
ghost use Rattle.psi_log_scan.specs.Scanned.{next_step};
ghost use Rattle.psi_log.specs.Inner.SlotsViews.{entry_of, HasRegion};

use psi_log_format::{Header, ListedRegion, StateList};
use psi_log_scan::greatest_horizon;
use psi_log_words::{LogCause, LogError, form_of, number_in, read_given, read_words};
use psi_state::{Bounds, MOST_EVENTS, Step};

/// A step and the region after it.
#[derive(Clone, Copy, Debug)]
pub(crate) struct Line {
    /// The step: its number, and that of its event.
    pub(crate) step: Step,
    /// The region after it. The states of a set stand in a list.
    pub(crate) region: ListedRegion,
}

// The words of a step and of the region after it; the states of a set are put after those of the list.
#[tactic(auto, unfolding(psi_log_scan::specs::Lines::read_step))]
fn read_step(
    header: &Header,
    line: u32,
    before: Option<&Bounds>,
    words: &[&[u8]],
    states: &mut StateList,
) -> Result<Line, LogError>
    requires some { 1 ≤ header.now.queues }
    requires few { header.now.queues ≤ 32 }
    requires before { IfSome before (λ from. length from.now.lo ≡ header.now.queues) }
    requires queues { states.old.queues ≡ header.now.queues }
    ensures queues { states.new.queues ≡ header.now.queues }
    ensures value { IfOk result (λ read. read_step header.now line (option_copied before.entry) (map (λ word. word.now) words.now) ≡ Ok (entry_of states.new.states read)) }
    ensures refused { IfErr result (λ error. IsLogError error (read_step header.now line (option_copied before.entry) (map (λ word. word.now) words.now))) }
    ensures there { IfOk result (λ read. HasRegion header.now.queues states.new.states read) }
{
    let [first, number, event, region @ ..] = words else {
        return Err(LogCause::Shape.at(line));
    };
    if *first != b"step".as_slice() {
        return Err(LogCause::Shape.at(line));
    }
    let form = match form_of(line, header.queues, before, region) {
        Ok(form) => form,
        Err(error) => return Err(error),
    };
    let most = greatest_horizon(header.version) as u64;
    let number = number_in(line, 1, most, number)? as u32;
    let event = number_in(line, 0, MOST_EVENTS as u64, event)? as u16;
    let region = read_given(line, header.queues, form, states)?;
    Ok(Line {
        step: Step { number, event },
        region,
    })
}

/// The step whose line begins a text, word by word, and what follows the line. The vector holds its words.
///
/// # Errors
///
/// The line's first refusal; `OutOfMemory`.
#[tactic(auto, unfolding(psi_log_scan::specs::Scanned::next_step), using(psi_log_scan::proofs::CutLemmas::step_cut))]
pub(crate) fn read_by_tokens<'t>(
    header: &Header,
    line: u32,
    before: Option<&Bounds>,
    text: &'t [u8],
    words: &mut Vec<&'t [u8]>,
    states: &mut StateList,
) -> Result<(Line, &'t [u8]), LogError>
    requires some { 1 ≤ header.now.queues }
    requires few { header.now.queues ≤ 32 }
    requires before { IfSome before (λ from. length from.now.lo ≡ header.now.queues) }
    requires queues { states.old.queues ≡ header.now.queues }
    ensures queues { states.new.queues ≡ header.now.queues }
    ensures value { IfOk result (λ read. next_step header.now line (option_copied before.entry) text.now ≡ Ok (entry_of states.new.states read.0, read.1.now)) }
    ensures refused { IfErr result (λ error. IsLogError error (next_step header.now line (option_copied before.entry) text.now)) }
    ensures there { IfOk result (λ read. HasRegion header.now.queues states.new.states read.0) }
{
    let rest = read_words(line, text, words)?;
    let read = read_step(header, line, before, words, states)?;
    Ok((read, rest))
}
