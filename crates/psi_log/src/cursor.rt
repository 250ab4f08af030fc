//! A reader of a log between two texts.

ghost use Rattle.std.specs.Prelude.{◌≡◌, [], IfOk};
ghost use Rattle.psi_log.specs.Cursor.{IsCursor};

use crate::reader::{LogReader, empty_slot};
use crate::slot::RegionSlot;
use psi_log_format::{Header, ListedRegion, StateList};
use std::alloc::{AllocError, Global};
use std::marker::Model;

/// A reader of a log that has left its text: what the lines say that it read. It is seen as a reader with no text
/// left, both of whose regions are the one after the last step that was read.
#[derive(Drop)]
pub struct LogCursor {
    header: Header,
    done: u32,
    region: ListedRegion,
    states: StateList,
    // The list of the spare slot: the memory that it has is that of the next reader's.
    spare: StateList,
}

impl Model for LogCursor {
    ghost use Rattle.psi_log.specs.Cursor.{Cursor};
    ghost use Rattle.psi_log.specs.Inner.ReaderViews.{textless_of, IsTextless};

    ghost Value = { Cursor };

    ghost view = { λ p. textless_of p.header p.done p.region p.states };

    ghost invariant = { λ p. IsTextless p.header p.done p.region p.states p.spare };
}

impl<'t> LogReader<'t> {
    /// Leaves the text. What is kept is what the lines say that were read; beside it stands what is left of the text.
    pub fn into_cursor(self) -> (LogCursor, &'t [u8])
        ensures kept { result.0 ≡ record { header = self.entry.header; done = self.entry.done; before = self.entry.region; region = self.entry.region; rest = [] } }
        ensures rest { result.1.now ≡ self.entry.rest }
    {
        let LogReader {
            header,
            done,
            slot,
            spare,
            rest,
            ..
        } = self;
        let RegionSlot { region, states, .. } = Box::into_inner(slot);
        let RegionSlot { states: spare, .. } = Box::into_inner(spare);
        let cursor = LogCursor {
            header,
            done,
            region,
            states,
            spare,
        };
        (cursor, rest)
    }
}

impl LogCursor {
    /// Goes on with a text, from after the last line that was read.
    ///
    /// # Errors
    ///
    /// `AllocError` if an allocation fails; no clause says when that is.
    pub fn resume<'t>(self, alloc: Global, text: &'t [u8]) -> Result<LogReader<'t>, AllocError>
        ensures value { IfOk result (λ reader. reader ≡ record { header = self.header; done = self.done; before = self.region; region = self.region; rest = text.now }) }
        ensures cursor { IfOk result (λ reader. IsCursor reader) }
    {
        let LogCursor {
            header,
            done,
            region,
            states,
            spare,
        } = self;
        let slot = Box::new(alloc, RegionSlot::new(region, states))?;
        let spare = Box::new(alloc, empty_slot(spare))?;
        Ok(LogReader {
            header,
            done,
            slot,
            spare,
            stays: true,
            rest: text,
            words: Vec::new(alloc),
        })
    }
}
