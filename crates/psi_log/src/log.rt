//! A log in memory.

ghost use Rattle.std.specs.Prelude.{◌≡◌, ◌⊎◌, ◌+◌, ◌-◌, ◌<◌, ◌≤◌, ◌∷◌, Ok, Err, Some, length, take, drop, option_map, option_and_then, IfOk, IfErr, OnOk, IsTrue, MatchOption, ◌↔◌};
ghost use Rattle.psi_state.specs.State.{IsBelow};
ghost use Rattle.psi_log_format.specs.Log.{Certificate, IsLog, IsRegion};
ghost use Rattle.psi_log_format.specs.Text.{IsLogOf};
ghost use Rattle.psi_log_words.specs.Refusal.{Gives, IsLogError};
ghost use Rattle.psi_log_words.specs.Regions.{box_before};
ghost use Rattle.psi_log_words.specs.declared.refusals.LogError.TheVariants.{OutOfMemory};
ghost use Rattle.psi_log_format.specs.Listed.{shown};
ghost use Rattle.psi_log.specs.Reading.{read, read_steps};
ghost use Rattle.psi_log.specs.Cursor.{IsCursor};
ghost use Rattle.psi_log.specs.Inner.LogViews.{entries_of, certificate_of};
ghost use Rattle.psi_log.specs.Told.{region_at, form, step_at, HasState, state_in};

use crate::reader::LogReader;
use psi_log_format::{BorrowedRegion, Header, RegionList};
use psi_log_words::LogError;
use psi_state::{Bounds, State, Step};
use std::alloc::Global;
use std::marker::Model;

/// The form of a region.
#[derive(Clone, Copy, PartialEq, Eq, Debug)]
pub enum Form {
    /// The states between two corners.
    Box(Bounds),
    /// States one by one.
    Set {
        /// The number of states, 1 to 4,096.
        count: u16,
    },
}

/// A log: its header, the region at which the run begins, the steps from the oldest on with the region after
/// each, and the state at time zero. It is seen as that, and meets the counts, ranges and orders of the grammar.
///
/// A box that its text writes by what changed stands whole here, but not again where nothing changed. The states of
/// all sets lie in one vector of numbers.
#[derive(Drop)]
pub struct Log {
    header: Header,
    regions: RegionList,
    steps: Vec<Step>,
    end: State,
}

impl Model for Log {
    ghost use Rattle.psi_log_format.specs.Log.{Certificate};
    ghost use Rattle.psi_log.specs.Inner.LogViews.{certificate_of, IsWhole};

    ghost Value = { Certificate };

    ghost view = { λ l. certificate_of l.header l.regions.regions l.steps.items l.end };

    ghost invariant = { λ l. IsWhole l.header l.regions.regions l.steps.items l.end };
}

impl Log {
    /// Returns the header. Its second clause is how a caller learns what every `Log` keeps.
    pub fn header(&self) -> Header
        ensures value { result ≡ self.now.header }
        ensures log { IsLog self.now }
    {
        self.header
    }

    /// Returns the form of a region: 0 is the region at which the run begins, and `i` the one after the `i`-th step
    /// line.
    pub fn region(&self, i: u32) -> Form
        requires { i ≤ self.now.header.horizon }
        ensures { option_map form (region_at self.now i) ≡ Some result }
    {
        match self.look(i) {
            BorrowedRegion::Box(bounds) => Form::Box(*bounds),
            BorrowedRegion::Set(states) => Form::Set {
                count: states.len() as u16,
            },
        }
    }

    /// Returns a region, borrowed: regions are counted as in [`Log::region`]. Nothing is copied.
    #[tactic(auto, using(crate::proofs::ToldLemmas::regions_count, crate::proofs::ToldLemmas::region_told))]
    pub fn look(&self, i: u32) -> BorrowedRegion<'_>
        requires { i ≤ self.now.header.horizon }
        ensures value { region_at self.entry.now i ≡ Some (shown result) }
        ensures regional { IsRegion self.entry.now.header.queues (shown result) }
    {
        self.regions.get(i as usize)
    }

    /// Returns the step of the `i`-th step line, counted from 1.
    #[tactic(auto, using(crate::proofs::ToldLemmas::steps_count, crate::proofs::ToldLemmas::step_told))]
    pub fn step(&self, i: u32) -> Step
        requires least { 1 ≤ i }
        requires most { i ≤ self.now.header.horizon }
        ensures { step_at self.now i ≡ Some result }
    {
        self.steps[i as usize - 1]
    }

    /// Returns the state at place `j` of a region that is a set; places are counted from 0, and regions as in
    /// [`Log::region`].
    pub fn state(&self, i: u32, j: u16) -> State
        requires number { i ≤ self.now.header.horizon }
        requires place { HasState j (region_at self.now i) }
        ensures { option_and_then (state_in j) (region_at self.now i) ≡ Some result }
    {
        match self.look(i) {
            BorrowedRegion::Set(states) => states.get(j as usize),
            BorrowedRegion::Box(bounds) => bounds.lo(),
        }
    }

    /// Returns whether the state at place `j` of a region that is a set has at most as many customers in each queue as
    /// `most` has; regions and places are counted as in [`Log::state`].
    pub fn state_leq(&self, i: u32, j: u16, most: &State) -> bool
        requires number { i ≤ self.now.header.horizon }
        requires place { HasState j (region_at self.now i) }
        ensures { MatchOption (option_and_then (state_in j) (region_at self.now i)) ⊥ (λ x. IsTrue result ↔ IsBelow x most.now) }
    {
        match self.look(i) {
            BorrowedRegion::Set(states) => states.leq(j as usize, most),
            BorrowedRegion::Box(_) => false,
        }
    }

    /// Returns the state at time zero.
    pub fn end(&self) -> State
        ensures { result ≡ self.now.final }
    {
        self.end
    }
}

// The steps of a log whose reader has read none yet, and the regions: that at which the run begins, and the one after each
// step.
fn read_lines(
    alloc: Global,
    reader: &mut LogReader<'_>,
) -> Result<(Vec<Step>, RegionList), LogError>
    requires { reader.old.done ≡ 0 }
    ensures begin { IfOk result (λ read. read.1.regions ≡ reader.old.region ∷ drop 1 read.1.regions) }
    ensures count { IfOk result (λ read. length read.1.regions ≡ length read.0.items + 1) }
    ensures value { IfOk result (λ read. read_steps reader.old.header reader.old.header.horizon 7 (box_before reader.old.header.version reader.old.region) reader.old.rest
        ≡ Ok (entries_of read.0.items (drop 1 read.1.regions), reader.new.rest)) }
    ensures refused { IfErr result (λ error. IsLogError error (read_steps reader.old.header reader.old.header.horizon 7 (box_before reader.old.header.version reader.old.region) reader.old.rest)) }
    ensures done { OnOk result (reader.new.done ≡ reader.new.header.horizon) }
    ensures header { reader.new.header ≡ reader.old.header }
{
    let header = reader.header();
    let mut steps = Vec::new(alloc);
    let mut regions = RegionList::new(alloc, header.queues);
    regions.push(&reader.region())?;
    for done in 0..header.horizon {
        let step = match reader.next() {
            Ok(step) => step,
            Err(error) => return Err(error),
        };
        steps.push(step)?;
        regions.push(&reader.region())?;
    }
    Ok((steps, regions))
}

/// Returns the log that a text is. The clauses `found` and `only` say that what is read is the log of that text, and
/// that the text of each log of at most 33,554,432 bytes is read as that log, unless an allocation fails.
///
/// # Errors
///
/// The first line that isn't as the grammar has it, with its first cause, as [`crate::LogCause`] has them;
/// `OutOfMemory`, and no clause says when that is.
pub fn read_log(alloc: Global, bytes: &[u8]) -> Result<Log, LogError>
    ensures value { Gives (λ log. log) result (read bytes.now) }
    ensures found { IfOk result (λ log. IsLogOf bytes.now log) }
    ensures only { (c : Certificate) → IsLogOf bytes.now c → (result ≡ Ok c) ⊎ (result ≡ Err OutOfMemory) }
{
    let mut reader = match LogReader::open(alloc, bytes) {
        Ok(reader) => reader,
        Err(error) => return Err(error),
    };
    let (steps, regions) = match read_lines(alloc, &mut reader) {
        Ok(read) => read,
        Err(error) => return Err(error),
    };
    let end = match reader.end() {
        Ok(end) => end,
        Err(error) => return Err(error),
    };
    Ok(Log {
        header: reader.header(),
        regions,
        steps,
        end,
    })
}
