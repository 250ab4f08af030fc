//! A place for one region, into which that of a step's line is read.

ghost use Rattle.std.specs.Prelude.{◌≡◌, ℕ, Option, Some, None, ◌≤◌, length, option_copied, false, Ok, IfOk, IfErr, IfSome};
ghost use Rattle.psi_state.specs.State.{Corners};
ghost use Rattle.psi_log_format.specs.Log.{in_box};
ghost use Rattle.psi_log_words.specs.Refusal.{IsLogError};
ghost use Rattle.psi_log_words.specs.Regions.{box_before};
ghost use Rattle.psi_log_scan.specs.Scanned.{next_step};
ghost use Rattle.psi_log_format.specs.Listed.{shown, HasWidth};
ghost use Rattle.psi_log.specs.Inner.SlotsViews.{region_in, either, HasQueues, IsFilled, IsChangedBox, GoesOn};

use crate::steps::read_by_tokens;
use psi_log_format::{BorrowedRegion, Header, ListedRegion, StateList};
use psi_log_scan::{
    LastSet, has_byte, has_name, has_word, read_changes, read_changes_onto, read_like_set,
    read_new_set, step_at,
};
use psi_log_words::LogError;
use psi_state::{Bounds, Step};
use std::alloc::AllocError;

/// A place for one region.
#[derive(Drop)]
pub(crate) struct RegionSlot<'t> {
    /// The region. The states of a set stand in the list.
    pub(crate) region: ListedRegion,
    pub(crate) states: StateList,
    /// The end of its line, where it is a set that was read in one pass.
    pub(crate) last: Option<LastSet<'t>>,
}

/// A step's line that was read.
#[derive(Clone, Copy, Debug)]
pub(crate) struct ReadLine<'t> {
    /// The step.
    pub(crate) step: Step,
    /// Whether the region after it is the one before, which then stands in its old place alone.
    pub(crate) stays: bool,
    /// What follows the line.
    pub(crate) rest: &'t [u8],
}

impl<'t> RegionSlot<'t> {
    /// A region in its slot, where the end of its line isn't kept.
    pub(crate) fn new(region: ListedRegion, states: StateList) -> RegionSlot<'t>
        ensures { result ≡ record { region = region; states = states; last = None } }
    {
        RegionSlot {
            region,
            states,
            last: None,
        }
    }
}

impl RegionSlot<'_> {
    /// The region, borrowed.
    pub(crate) fn borrow(&self, queues: u8) -> BorrowedRegion<'_>
        requires { IsFilled queues self.now }
        ensures region { shown result ≡ region_in self.entry.now }
        ensures width { HasWidth queues result }
    {
        self.region.borrow(&self.states)
    }

    /// The box from which a box has to be written by what changed: in version 2, the region where it is one.
    pub(crate) fn box_in(&self, version: u8) -> Option<&Bounds>
        ensures { option_copied result ≡ box_before version (region_in self.entry.now) }
    {
        match &self.region {
            ListedRegion::Box(bounds) => { if version == 2 { Some(bounds) } else { None } }
            ListedRegion::Set { .. } => None,
        }
    }
}

// Makes a region the box that the changes make of another which stand in a text from a place on, and returns the place
// after them. A box that stood there is written over in its place.
fn changes_onto(
    queues: u8,
    from: &Bounds,
    region: &mut ListedRegion,
    text: &[u8],
    at: usize,
) -> Option<usize>
    requires few { queues ≤ 32 }
    requires same { length from.now.lo ≡ queues }
    requires within { at ≤ length text.now }
    ensures { IfSome result (λ end. IsChangedBox queues from.now text.now at end region.new) }
{
    match region {
        ListedRegion::Box(to) => read_changes_onto(text, at, queues, from, to),
        ListedRegion::Set { .. } => {
            let (to, end) = read_changes(text, at, queues, from)?;
            *region = ListedRegion::Box(to);
            Some(end)
        }
    }
}

// Reads into a slot the box that stands after an event, written by what changed from another box as it is to be:
// whether it is that box, which then isn't put there, and the place after its line.
fn move_onto(
    queues: u8,
    from: &Bounds,
    to: &mut RegionSlot<'_>,
    text: &[u8],
    at: usize,
) -> Option<(bool, usize)>
    requires few { queues ≤ 32 }
    requires same { length from.now.lo ≡ queues }
    requires queues { HasQueues queues to.old }
    ensures queues { HasQueues queues to.new }
    ensures filled { IfSome result (λ read. read.0 ≡ false → IsFilled queues to.new) }
    ensures within { IfSome result (λ read. read.1 ≤ length text.now) }
    ensures line { IfSome result (λ read. GoesOn queues (Some from.now) text.now at read.1 (either read.0 (in_box from.now) (region_in to.new))) }
{
    if !has_name(text, at, b" move") {
        return None;
    }
    if has_byte(text, at + 5, b'\n') {
        return Some((true, at + 6));
    }
    let end = changes_onto(queues, from, &mut to.region, text, at + 5)?;
    if !has_byte(text, end, b'\n') {
        return None;
    }
    to.last = None;
    Some((false, end + 1))
}

// Reads into a slot the set of one state that stands after an event as it is to be, by the line of another slot's
// region where that is such a set too, and returns the place after its line.
fn like_onto<'t>(
    queues: u8,
    from: &RegionSlot<'t>,
    set: LastSet<'t>,
    to: &mut RegionSlot<'t>,
    text: &'t [u8],
    at: usize,
) -> Result<Option<usize>, AllocError>
    requires some { 1 ≤ queues }
    requires few { queues ≤ 32 }
    requires from { IsFilled queues from.now }
    requires last { from.now.last ≡ Some set }
    requires queues { HasQueues queues to.old }
    ensures queues { HasQueues queues to.new }
    ensures filled { IfOk result (λ line. IfSome line (λ end. IsFilled queues to.new)) }
    ensures within { IfOk result (λ line. IfSome line (λ end. end ≤ length text.now)) }
    ensures line { IfOk result (λ line. IfSome line (λ end. (before : Option Corners) → GoesOn queues before text.now at end (region_in to.new))) }
{
    if set.count != 1 {
        return Ok(None);
    }
    let mut numbers = [0; 32];
    let row = &mut numbers[..queues as usize];
    row.copy_from_slice(from.states.all().row(set.first));
    let Some(like) = read_like_set(text, at, set, row) else {
        return Ok(None);
    };
    to.states.clear();
    to.states.push_row(row)?;
    to.region = ListedRegion::Set { first: 0, count: 1 };
    to.last = Some(like);
    Ok(Some(at + like.text.len()))
}

// Reads into a slot the set that stands after an event as it is to be: whether it is the set of another slot, as its
// line ends alike, which then isn't put there, and the place after its line.
fn set_onto<'t>(
    queues: u8,
    from: &RegionSlot<'t>,
    to: &mut RegionSlot<'t>,
    text: &'t [u8],
    at: usize,
) -> Result<Option<(bool, usize)>, AllocError>
    requires some { 1 ≤ queues }
    requires few { queues ≤ 32 }
    requires from { IsFilled queues from.now }
    requires queues { HasQueues queues to.old }
    ensures queues { HasQueues queues to.new }
    ensures filled { IfOk result (λ line. IfSome line (λ read. read.0 ≡ false → IsFilled queues to.new)) }
    ensures within { IfOk result (λ line. IfSome line (λ read. read.1 ≤ length text.now)) }
    ensures line { IfOk result (λ line. IfSome line (λ read. (before : Option Corners) → GoesOn queues before text.now at read.1 (either read.0 (region_in from.now) (region_in to.new)))) }
{
    if let Some(set) = from.last {
        if has_word(text, at, set.text) {
            return Ok(Some((true, at + set.text.len())));
        }
        if let Some(end) = like_onto(queues, from, set, to, text, at)? {
            return Ok(Some((false, end)));
        }
    }
    to.states.clear();
    let Some(set) = read_new_set(queues, text, at, &mut to.states)? else {
        return Ok(None);
    };
    to.region = ListedRegion::Set {
        first: set.first,
        count: set.count,
    };
    to.last = Some(set);
    Ok(Some((false, at + set.text.len())))
}

// The step whose line begins a text, in one pass, with the region before it in a slot, where the line is written as
// it is to be. The region after it is read into another slot, unless it is the one before. Where nothing is given,
// nothing is said of the line.
fn scan_onto<'t>(
    header: &Header,
    from: &RegionSlot<'t>,
    to: &mut RegionSlot<'t>,
    text: &'t [u8],
) -> Result<Option<ReadLine<'t>>, AllocError>
    requires some { 1 ≤ header.now.queues }
    requires few { header.now.queues ≤ 32 }
    requires from { IsFilled header.now.queues from.now }
    requires queues { HasQueues header.now.queues to.old }
    ensures queues { HasQueues header.now.queues to.new }
    ensures filled { IfOk result (λ line. IfSome line (λ read. read.stays ≡ false → IsFilled header.now.queues to.new)) }
    ensures value { IfOk result (λ line. IfSome line (λ read. (n : ℕ) → next_step header.now n (box_before header.now.version (region_in from.now)) text.now
        ≡ Ok (record { step = read.step; region = either read.stays (region_in from.now) (region_in to.new) }, read.rest.now))) }
{
    let Some((step, at)) = step_at(header.version, text) else {
        return Ok(None);
    };
    if let Some(bounds) = from.box_in(header.version) {
        if let Some((stays, end)) = move_onto(header.queues, bounds, to, text, at) {
            let rest = &text[end..];
            return Ok(Some(ReadLine { step, stays, rest }));
        }
    }
    let Some((stays, end)) = set_onto(header.queues, from, to, text, at)? else {
        return Ok(None);
    };
    let rest = &text[end..];
    Ok(Some(ReadLine { step, stays, rest }))
}

/// The step whose line begins a text, with the region before it in a slot. The region after it is read onto another
/// slot, unless it is the one before. The vector holds the words of a line that isn't written as it is to be.
///
/// # Errors
///
/// The line's first refusal; `OutOfMemory`.
pub(crate) fn read_onto<'t>(
    header: &Header,
    line: u32,
    from: &RegionSlot<'t>,
    to: &mut RegionSlot<'t>,
    text: &'t [u8],
    words: &mut Vec<&'t [u8]>,
) -> Result<ReadLine<'t>, LogError>
    requires some { 1 ≤ header.now.queues }
    requires few { header.now.queues ≤ 32 }
    requires from { IsFilled header.now.queues from.now }
    requires queues { HasQueues header.now.queues to.old }
    ensures queues { HasQueues header.now.queues to.new }
    ensures filled { IfOk result (λ read. read.stays ≡ false → IsFilled header.now.queues to.new) }
    ensures value { IfOk result (λ read. next_step header.now line (box_before header.now.version (region_in from.now)) text.now
        ≡ Ok (record { step = read.step; region = either read.stays (region_in from.now) (region_in to.new) }, read.rest.now)) }
    ensures refused { IfErr result (λ error. IsLogError error (next_step header.now line (box_before header.now.version (region_in from.now)) text.now)) }
{
    match scan_onto(header, from, to, text) {
        Ok(Some(read)) => return Ok(read),
        Ok(None) => {}
        Err(_) => return Err(LogError::OutOfMemory),
    }
    let before = from.box_in(header.version);
    let read = read_by_tokens(header, line, before, text, words, &mut to.states);
    let (read, rest) = match read {
        Ok(read) => read,
        Err(error) => return Err(error),
    };
    to.region = read.region;
    to.last = None;
    let step = read.step;
    let stays = false;
    Ok(ReadLine { step, stays, rest })
}
