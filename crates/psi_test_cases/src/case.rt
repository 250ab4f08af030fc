//! A case: a call of the program, and what it must do.

use anyhow::Context;
use psi_io::{MemoryShelf, MemorySink};
use psi_run::{Status, run};
use std::alloc::{AllocError, Global};

/// How many bytes more than the text that is wanted a sink has room for, where the case doesn't
/// limit it: a longer text is cut there, and differs.
const SPARE: usize = 64;

/// A file of the shelf.
#[derive(Drop)]
pub(crate) struct NamedFile {
    pub(crate) name: String,
    pub(crate) bytes: Vec<u8>,
}

impl NamedFile {
    /// An empty file of this name.
    pub(crate) fn new(alloc: Global, name: &str) -> Result<NamedFile, AllocError> {
        Ok(NamedFile {
            name: String::from_str(alloc, name)?,
            bytes: Vec::new(alloc),
        })
    }
}

/// A call of the program, and what it must do.
#[derive(Drop)]
pub(crate) struct Case {
    /// What the case is called; each name stands once.
    pub(crate) name: String,
    /// The words after the program's name.
    pub(crate) words: Vec<String>,
    /// The files of the shelf.
    pub(crate) files: Vec<NamedFile>,
    /// The numbers of the reads that fail, counted from 1.
    pub(crate) unread: Vec<u64>,
    /// How many bytes each of the two sinks has room for.
    pub(crate) room: Option<usize>,
    /// How many bytes a write takes at most.
    pub(crate) most: Option<usize>,
    /// The numbers of the writes to each sink that fail, counted from 1.
    pub(crate) unwritten: Vec<u64>,
    /// The exit status that must come.
    pub(crate) status: u8,
    /// What standard output must hold.
    pub(crate) out: Vec<u8>,
    /// What standard error must hold.
    pub(crate) err: Vec<u8>,
}

impl Case {
    /// A case of this name without words and files, which wants status 0 and no text.
    pub(crate) fn new(alloc: Global, name: String) -> Case {
        Case {
            name,
            words: Vec::new(alloc),
            files: Vec::new(alloc),
            unread: Vec::new(alloc),
            room: None,
            most: None,
            unwritten: Vec::new(alloc),
            status: 0,
            out: Vec::new(alloc),
            err: Vec::new(alloc),
        }
    }

    // The shelf that the call reads.
    fn shelf(&self, alloc: Global) -> anyhow::Result<MemoryShelf> {
        let mut shelf = MemoryShelf::new(alloc, self.unread.clone()?);
        for file in &self.files {
            shelf
                .put(file.name.as_str(), file.bytes.as_slice())
                .ok()
                .context("no memory for a file")?;
        }
        Ok(shelf)
    }

    // A sink for a text of which so many bytes are wanted.
    fn sink(&self, alloc: Global, wanted: usize) -> anyhow::Result<MemorySink> {
        let enough = wanted.saturating_add(SPARE);
        let room = self.room.unwrap_or(enough);
        let most = self.most.unwrap_or(enough).max(1);
        MemorySink::new(alloc, room, most, self.unwritten.clone()?)
            .ok()
            .context("no memory for a sink")
    }

    /// Makes the call, and returns whether it does what it must: the status and both texts are
    /// those that are wanted, and where the status says that a write failed, one write did, and
    /// elsewhere none.
    ///
    /// # Errors
    ///
    /// If an allocation for the shelf or the sinks fails.
    pub(crate) fn agrees(&self, alloc: Global) -> anyhow::Result<bool> {
        let mut shelf = self.shelf(alloc)?;
        let mut out = self.sink(alloc, self.out.len())?;
        let mut err = self.sink(alloc, self.err.len())?;
        let status = run(alloc, self.words.as_slice(), &mut shelf, &mut out, &mut err);
        let faults = out.count().saturating_add(err.count());
        let wanted_faults = if status == Status::WriteFault { 1 } else { 0 };
        Ok(
            status.code() == self.status
                && out.bytes() == self.out.as_slice()
                && err.bytes() == self.err.as_slice()
                && faults == wanted_faults,
        )
    }
}

/// How many calls agree, and how many differ. The counts stand still at the greatest u64.
#[derive(Clone, Copy)]
pub(crate) struct Counts {
    pub(crate) agreeing: u64,
    pub(crate) differing: u64,
}

impl Counts {
    /// Nothing counted yet.
    pub(crate) fn none() -> Counts {
        Counts {
            agreeing: 0,
            differing: 0,
        }
    }

    /// Counts a call that agrees or differs.
    pub(crate) fn count(&mut self, agrees: bool) {
        let place = if agrees {
            &mut self.agreeing
        } else {
            &mut self.differing
        };
        *place = place.saturating_add(1);
    }

    /// Counts the calls that another one has counted.
    pub(crate) fn add(&mut self, other: Counts) {
        self.agreeing = self.agreeing.saturating_add(other.agreeing);
        self.differing = self.differing.saturating_add(other.differing);
    }
}
