//! A case under faults: what a call must do where its reads and its writes fail in turn, or its sinks take few bytes.
//!
//! It follows from what the case wants without a fault. Where a read of a file fails that the call needs, a line of
//! standard error says which, and that is all; where a write fails, or there is no more room, the sink holds the text up
//! to there, the other sink nothing, and the status is that of a failed write; and where each write takes few bytes, the
//! whole text comes.

use crate::case::{Case, Counts};
use std::alloc::{AllocError, Global};

/// The status of a call that couldn't read a file.
const UNREAD: u8 = 6;
/// The status of a call that couldn't write its text.
const UNWRITTEN: u8 = 7;
/// How many places of a longer text are tried, at most twice as many as this.
const PLACES: usize = 1_024;

/// What a call must end with: its status, and the texts of standard output and standard error, of which one is empty.
#[derive(Drop)]
struct Reply {
    status: u8,
    out: Vec<u8>,
    err: Vec<u8>,
}

impl Reply {
    // What the case wants where no read and no write fails.
    fn whole(case: &Case) -> Result<Reply, AllocError> {
        Ok(Reply {
            status: case.status,
            out: case.out.clone()?,
            err: case.err.clone()?,
        })
    }

    // What a call wants of which the read of this number fails.
    fn unread(alloc: Global, number: u64) -> Result<Reply, AllocError> {
        let line = if number == 1 {
            "psi: cannot read network\n"
        } else {
            "psi: cannot read log\n"
        };
        Ok(Reply {
            status: UNREAD,
            out: Vec::new(alloc),
            err: line.as_bytes().to_vec(alloc)?,
        })
    }

    // The length of the text that is written.
    fn len(&self) -> usize {
        self.out.len().max(self.err.len())
    }

    // Lets the case want this reply, of which only so many bytes come, so that a write failed.
    fn cut(&self, case: &mut Case, count: usize) -> Result<(), AllocError> {
        case.status = UNWRITTEN;
        case.out.clear();
        case.out
            .extend_from_slice(front(self.out.as_slice(), count))?;
        case.err.clear();
        case.err
            .extend_from_slice(front(self.err.as_slice(), count))
    }

    // Lets the case want this reply.
    fn all(&self, case: &mut Case) -> Result<(), AllocError> {
        self.cut(case, self.len())?;
        case.status = self.status;
        Ok(())
    }
}

// The first bytes of a text, so many or all.
fn front(text: &[u8], count: usize) -> &[u8] {
    text.get(..count).unwrap_or(text)
}

// How many files a call reads that ends as the case wants: none where its words are no command or a trial, a log only
// once the network is accepted.
fn reads(case: &Case) -> u64 {
    let command = match case.words.first() {
        Some(word) if case.status != 2 => word.as_str(),
        _ => return 0,
    };
    match command {
        "trial" => 0,
        "replay" if case.status != 3 => 2,
        _ => 1,
    }
}

/// Tries a case with each fault in turn.
#[derive(Drop)]
struct Trial {
    alloc: Global,
    case: Case,
    counts: Counts,
}

impl Trial {
    // Makes the call as the case is now.
    fn call(&mut self) -> anyhow::Result<()> {
        self.counts.count(self.case.agrees(self.alloc)?);
        Ok(())
    }

    // Lets each write take at most so many bytes, and all of them come.
    fn takes(&mut self, reply: &Reply, most: usize) -> anyhow::Result<()> {
        self.case.most = Some(most);
        reply.all(&mut self.case)?;
        self.call()?;
        self.case.most = None;
        Ok(())
    }

    // Lets each sink have room for so many bytes, fewer than the text has.
    fn has_room(&mut self, reply: &Reply, room: usize) -> anyhow::Result<()> {
        self.case.room = Some(room);
        reply.cut(&mut self.case, room)?;
        self.call()?;
        self.case.room = None;
        Ok(())
    }

    // Lets the write fail before which so many were done, each of at most `most` bytes.
    fn fails(&mut self, reply: &Reply, most: usize, before: usize) -> anyhow::Result<()> {
        self.case.most = Some(most);
        self.case.unwritten.push((before as u64).saturating_add(1))?;
        reply.cut(&mut self.case, before.saturating_mul(most))?;
        self.call()?;
        self.case.most = None;
        self.case.unwritten.clear();
        Ok(())
    }

    // Lets the text of a reply be written by sinks that take 1 to 7 bytes a write, whose room ends at each byte, or of
    // which each write fails.
    fn write(&mut self, reply: &Reply) -> anyhow::Result<()> {
        let len = reply.len();
        let stride = (len / PLACES).saturating_add(1);
        for most in 1..8 {
            self.takes(reply, most)?;
            let writes = len.div_ceil(most);
            for before in (0..writes).step_by(stride) {
                self.fails(reply, most, before)?;
            }
        }
        for room in (0..len).step_by(stride) {
            self.has_room(reply, room)?;
        }
        Ok(())
    }
}

/// Makes the call of a case with each read failing that it needs and one more, each with each write failing, sinks that
/// take 1 to 7 bytes a write, and room that ends anywhere; counts these calls.
///
/// # Errors
///
/// If an allocation fails.
pub(crate) fn try_faults(alloc: Global, case: Case) -> anyhow::Result<Counts> {
    let whole = Reply::whole(&case)?;
    let needed = reads(&case);
    let mut trial = Trial {
        alloc,
        case,
        counts: Counts::none(),
    };
    trial.write(&whole)?;
    for number in 1..needed.saturating_add(2) {
        trial.case.unread.clear();
        trial.case.unread.push(number)?;
        if number <= needed {
            trial.write(&Reply::unread(alloc, number)?)?;
        } else {
            whole.all(&mut trial.case)?;
            trial.call()?;
        }
    }
    Ok(trial.counts)
}
