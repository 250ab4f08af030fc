//! A log that is read in one pass, step by step.

ghost use Rattle.std.specs.Prelude.{◌≡◌, ◌+◌, ◌<◌, ◌≤◌, length, Ok, IfOk, IfErr, OnOk, OnErr, IsTrue};
ghost use Rattle.psi_log_words.specs.Refusal.{Gives, IsLogError};
ghost use Rattle.psi_log.specs.Inner.SlotsViews.{region_in, IsFilled};
ghost use Rattle.psi_log_format.specs.Listed.{shown, HasWidth};
ghost use Rattle.psi_log.specs.Reading.{begin_line, ended};
ghost use Rattle.psi_log.specs.Cursor.{begun, next_of, IsCursor};

use crate::ends::{read_begin, read_end};
use crate::slot::{RegionSlot, read_onto};
use psi_log_format::{BorrowedRegion, Header, ListedRegion, MOST_LOG_BYTES, StateList};
use psi_log_scan::read_header;
use psi_log_words::{LogCause, LogError, read_words};
use psi_state::{State, Step};
use std::alloc::Global;
use std::marker::Model;

/// A log that is read in one pass. It is seen as its header, the number of steps that are read, the regions before and
/// after the last one of them, and the text after it; where no step is read yet, both are the region at which the
/// run begins. It holds these two regions and the words of one line, however many lines the text has.
#[derive(Drop)]
pub struct LogReader<'t> {
    pub(crate) header: Header,
    pub(crate) done: u32,
    pub(crate) slot: Box<RegionSlot<'t>>,
    pub(crate) spare: Box<RegionSlot<'t>>,
    pub(crate) stays: bool,
    pub(crate) rest: &'t [u8],
    pub(crate) words: Vec<&'t [u8]>,
}

impl<'t> Model for LogReader<'t> {
    ghost use Rattle.psi_log.specs.Cursor.{Cursor};
    ghost use Rattle.psi_log.specs.Inner.ReaderViews.{cursor_of, IsKept};

    ghost Value = { Cursor };

    ghost view = { λ r. cursor_of r.header r.done r.slot.value r.spare.value r.stays r.rest.now };

    ghost invariant = { λ r. IsKept r.header r.done r.slot.value r.spare.value r.stays r.rest.now };
}

// The region at which the run begins, in a slot, of the line that begins a text, and what follows it. The vector holds
// the line's words.
#[tactic(auto, unfolding(crate::specs::Reading::begin_line), using(crate::proofs::CutLemmas::begin_cut))]
fn begin_line<'t>(
    alloc: Global,
    queues: u8,
    text: &'t [u8],
    words: &mut Vec<&'t [u8]>,
) -> Result<(RegionSlot<'t>, &'t [u8]), LogError>
    requires some { 1 ≤ queues }
    requires few { queues ≤ 32 }
    ensures value { Gives (λ read. (region_in read.0, read.1.now)) result (begin_line queues text.now) }
    ensures filled { IfOk result (λ read. IsFilled queues read.0) }
{
    let mut states = StateList::new(alloc, queues);
    let rest = read_words(6, text, words)?;
    let region = read_begin(queues, words, &mut states)?;
    Ok((RegionSlot::new(region, states), rest))
}

// What stands before the steps of a text: its header, and the region at which the run begins, in a slot; and what follows
// its line. The vector holds the words of one line after another.
#[tactic(auto, unfolding(crate::specs::Cursor::begun))]
fn begin_of<'t>(
    alloc: Global,
    text: &'t [u8],
    words: &mut Vec<&'t [u8]>,
) -> Result<(Header, RegionSlot<'t>, &'t [u8]), LogError>
    ensures value { Gives (λ read. record { header = read.0; done = 0; before = region_in read.1; region = region_in read.1; rest = read.2.now }) result (begun text.now) }
    ensures filled { IfOk result (λ read. IsFilled read.0.queues read.1) }
    ensures some { IfOk result (λ read. 1 ≤ read.0.queues) }
    ensures few { IfOk result (λ read. read.0.queues ≤ 32) }
{
    if text.len() > MOST_LOG_BYTES as usize {
        return Err(LogCause::TooLong.at(0));
    }
    let (header, rest) = read_header(text, words)?;
    match begin_line(alloc, header.queues, rest, words) {
        Ok((slot, rest)) => Ok((header, slot, rest)),
        Err(error) => Err(error),
    }
}

/// A slot in which no region stands yet, with a list for states.
pub(crate) fn empty_slot<'t>(states: StateList) -> RegionSlot<'t>
    ensures { result.states ≡ states }
{
    RegionSlot::new(ListedRegion::Set { first: 0, count: 0 }, states)
}

impl<'t> LogReader<'t> {
    /// Begins to read a text as a log: its header, and the region at which the run begins.
    ///
    /// # Errors
    ///
    /// The first refusal of the text up to there, as [`crate::read_log`] has it; `OutOfMemory`.
    #[tactic(auto, using(crate::proofs::ReaderLemmas::begun_found, crate::proofs::ReaderLemmas::begins_kept))]
    pub fn open(alloc: Global, text: &'t [u8]) -> Result<LogReader<'t>, LogError>
        ensures value { Gives (λ reader. reader) result (begun text.now) }
        ensures start { IfOk result (λ reader. reader.done ≡ 0) }
        ensures cursor { IfOk result (λ reader. IsCursor reader) }
    {
        let mut words = Vec::new(alloc);
        let (header, begin, rest) = match begin_of(alloc, text, &mut words) {
            Ok(read) => read,
            Err(error) => return Err(error),
        };
        let slot = Box::new(alloc, begin)?;
        let states = StateList::new(alloc, header.queues);
        let spare = Box::new(alloc, empty_slot(states))?;
        Ok(LogReader {
            header,
            done: 0,
            slot,
            spare,
            stays: true,
            rest,
            words,
        })
    }

    /// Returns the header. Its second clause is how a caller learns what every reader keeps.
    pub fn header(&self) -> Header
        ensures value { result ≡ self.now.header }
        ensures cursor { IsCursor self.now }
    {
        self.header
    }

    /// Returns how many steps are read.
    pub fn done(&self) -> u32
        ensures { result ≡ self.now.done }
    {
        self.done
    }

    /// Returns the next step.
    ///
    /// # Errors
    ///
    /// The first refusal of its line, or `OutOfMemory`; the reader then stands where it stood, and has no region
    /// before that one any more.
    pub fn next(&mut self) -> Result<Step, LogError>
        requires { self.old.done < self.old.header.horizon }
        ensures value { IfOk result (λ step. next_of self.old ≡ Ok (record { step = step; region = self.new.region }, self.new.rest)) }
        ensures refused { IfErr result (λ error. IsLogError error (next_of self.old)) }
        ensures cursor { IsCursor self.new }
        ensures header { self.new.header ≡ self.old.header }
        ensures done { OnOk result (self.new.done ≡ self.old.done + 1) }
        ensures before { OnOk result (self.new.before ≡ self.old.region) }
        ensures kept { OnErr result (self.new ≡ record { header = self.old.header; done = self.old.done; before = self.old.region; region = self.old.region; rest = self.old.rest }) }
    {
        self.stays = true;
        let read = match read_onto(
            &self.header,
            7 + self.done,
            &self.slot,
            &mut self.spare,
            self.rest,
            &mut self.words,
        ) {
            Ok(read) => read,
            Err(error) => return Err(error),
        };
        self.done += 1;
        self.rest = read.rest;
        self.stays = read.stays;
        if !read.stays {
            std::mem::swap(&mut self.slot, &mut self.spare);
        }
        Ok(read.step)
    }

    /// Returns the region before the last step that was read, borrowed. Nothing is copied.
    pub fn before(&self) -> BorrowedRegion<'_>
        ensures { shown result ≡ self.entry.now.before }
    {
        if self.stays {
            return self.region();
        }
        self.spare.borrow(self.header.queues)
    }

    /// Returns the region after the last step that was read, borrowed. Nothing is copied.
    pub fn region(&self) -> BorrowedRegion<'_>
        ensures value { shown result ≡ self.entry.now.region }
        ensures width { HasWidth self.entry.now.header.queues result }
    {
        self.slot.borrow(self.header.queues)
    }

    /// Returns whether the last step that was read left the region in its place. It may be false where both regions are
    /// the same.
    pub fn stays(&self) -> bool
        ensures { IsTrue result → self.now.before ≡ self.now.region }
    {
        self.stays
    }

    /// Returns the state at time zero, once all steps are read.
    ///
    /// # Errors
    ///
    /// The first refusal of its line; `TrailingText` where text follows it; `OutOfMemory`.
    #[tactic(auto, unfolding(crate::specs::Reading::ended), using(crate::proofs::CutLemmas::end_cut))]
    pub fn end(&mut self) -> Result<State, LogError>
        requires { self.old.done ≡ self.old.header.horizon }
        ensures value { Gives (λ x. x) result (ended self.old.header self.old.rest) }
        ensures count { IfOk result (λ x. length x ≡ self.old.header.queues) }
        ensures same { self.new ≡ self.old }
    {
        let line = 7 + self.header.horizon;
        let rest = read_words(line, self.rest, &mut self.words)?;
        let end = read_end(line, self.header.queues, &self.words)?;
        if !rest.is_empty() {
            return Err(LogCause::TrailingText.at(line + 1));
        }
        Ok(end)
    }
}
