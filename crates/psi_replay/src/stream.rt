//! A replay whose text comes piece by piece.

ghost use Rattle.std.specs.Prelude.{◌≡◌, ℕ, ◌≤◌, ◌++◌, [], List, length, drop, IfOk, OnOk};
ghost use Rattle.psi_log_words.specs.Refusal.{Gives};
ghost use Rattle.psi_replay.specs.Passes.{judged_under, replayed};
ghost use Rattle.psi_replay.specs.Streams.{IsSound, IsProgress};

use crate::answers::Verdict;
use crate::progress::{Progress, judge_piece, verdict_on};
use psi_event::EventLaw;
use psi_io::{Consumer, Noted, OutOfMemory};
use psi_log::{LogCause, LogError};
use psi_log_format::MOST_LOG_BYTES;
use psi_rate::System;
use std::alloc::{AllocError, Global};
use std::marker::Model;

// The most bytes of a log.
const MOST: usize = MOST_LOG_BYTES as usize;

// How many bytes are pending at least where lines of them are read before the end: to begin with them and to leave them
// takes some time.
const BATCH: usize = 32_768;

// How many times a text is tried that doesn't begin as a log does. The lines before the steps are short, so the first
// pieces have them.
const TRIES: u8 = 64;

/// The replay of a log whose text comes piece by piece: as [`replay_text`](crate::replay_text) of the pieces, one after
/// another. Whole lines are read and judged as they come, and what is kept is what is left over, up to the next line
/// feed, with two regions and the words of one line. From a line on that isn't read, because it is refused or an
/// allocation fails, the text is held up to its end, once.
///
/// It is seen as the network, and the text that it took.
#[derive(Drop)]
pub struct StreamReplay<'s, 'n, E: EventLaw> {
    alloc: Global,
    system: &'s System<'n, E>,
    taken: Noted,
    // How many bytes were taken, but at most one more than a log may have.
    count: usize,
    progress: Progress,
    // The bytes that were taken and aren't read yet.
    pending: Vec<u8>,
    // How many times lines are still tried.
    tries: u8,
}

impl<'s, 'n, E: EventLaw> Model for StreamReplay<'s, 'n, E> {
    ghost use Rattle.std.specs.Prelude.{◌≡◌, min, length};
    ghost use Rattle.psi_replay.specs.Fed.{Fed};
    ghost use Rattle.psi_replay.specs.Streams.{IsSound, IsProgress};

    ghost Value = { Fed E };

    ghost view = { λ r. record { system = r.system.now; taken = r.taken.bytes } };

    ghost invariant = { λ r. (r.count ≡ min (length r.taken.bytes) 33554433) × IsSound r.system.now.caps r.progress
        × IsProgress E.function r.system.now r.taken.bytes r.pending.items r.progress };
}

// Behind which byte of a piece its last line ends: 0 where none does.
fn lines_end(piece: &[u8]) -> usize
    ensures { result ≤ length piece.now }
{
    match piece.iter().rposition(|byte| *byte == b'\n') {
        Some(at) => at + 1,
        None => 0,
    }
}

// Removes the first `count` bytes, and moves the others to the front.
fn drop_front(bytes: &mut Vec<u8>, count: usize)
    requires { count ≤ length bytes.old.items }
    ensures { bytes.new.items ≡ drop count bytes.old.items }
{
    if count == 0 {
        return;
    }
    let len = bytes.len();
    bytes.copy_within(count..len, 0);
    bytes.truncate(len - count);
}

// Reads and judges the first `count` of the bytes that are pending, which end where a line does, and keeps what is
// left. Whether a line of them wasn't read stands beside.
fn read_on<E: EventLaw>(
    alloc: Global,
    system: &System<'_, E>,
    progress: Progress,
    pending: &mut Vec<u8>,
    count: usize,
) -> Result<(Progress, bool), AllocError>
    requires sound { IsSound system.now.caps progress }
    requires few { count ≤ length pending.old.items }
    ensures sound { IfOk result (λ r. IsSound system.now.caps r.0) }
    ensures left { IfOk result (λ r. (taken : List ℕ) → IsProgress E.function system.now taken pending.old.items progress → IsProgress E.function system.now taken pending.new.items r.0) }
{
    let (lines, _) = pending.split_at(count);
    let (progress, rest) = match judge_piece(alloc, system, progress, lines) {
        Ok(read) => read,
        Err(error) => return Err(error),
    };
    let left = rest.len();
    let read = lines.len() - left;
    drop_front(pending, read);
    Ok((progress, left > 0))
}

impl<'s, 'n, E: EventLaw> StreamReplay<'s, 'n, E> {
    /// Returns the replay of the empty text. It does not allocate yet.
    pub fn new(alloc: Global, system: &'s System<'n, E>) -> Self
        ensures { result ≡ record { system = system.now; taken = [] } }
    {
        StreamReplay {
            alloc,
            system,
            taken: Noted::new(),
            count: 0,
            progress: Progress::Unread,
            pending: Vec::new(alloc),
            tries: TRIES,
        }
    }

    /// Returns the verdict on the log that the text is which was taken: what [`replay_text`](crate::replay_text) gives
    /// on it.
    ///
    /// # Errors
    ///
    /// The first line of the text that isn't as the grammar of logs has it, with its first cause, as `psi_log::LogCause`
    /// has them; `OutOfMemory`, and no clause says when that is.
    pub fn verdict(self) -> Result<Verdict, LogError>
        ensures { Gives (λ v. v) result (replayed (judged_under E.function self.entry.system) self.entry.taken) }
    {
        if self.count > MOST {
            return Err(LogCause::TooLong.at(0));
        }
        verdict_on(self.alloc, self.system, self.progress, &self.pending)
    }

    // Takes a piece, and reads nothing of it.
    fn keep(&mut self, piece: &[u8]) -> Result<(), AllocError>
        ensures taken { OnOk result (self.new.taken ≡ self.old.taken ++ piece.now) }
        ensures setting { self.new.system ≡ self.old.system }
    {
        self.pending.extend_from_slice(piece)?;
        self.taken = self.taken.and(piece);
        self.count = (self.count + piece.len().min(MOST + 1)).min(MOST + 1);
        Ok(())
    }

    // Reads and judges the lines that are pending, after which `behind` bytes stand.
    fn read_lines(&mut self, behind: usize) -> Result<(), AllocError>
        ensures { self.new ≡ self.old }
    {
        if self.tries == 0 {
            return Ok(());
        }
        let count = self.pending.len().saturating_sub(behind);
        let progress = std::mem::replace(&mut self.progress, Progress::Lost);
        let read = read_on(self.alloc, self.system, progress, &mut self.pending, count);
        let (progress, stands) = match read {
            Ok(read) => read,
            Err(error) => return Err(error),
        };
        self.tries = tries_left(self.tries, stands, &progress);
        self.progress = progress;
        Ok(())
    }
}

// How many times lines are still tried, where one stands that wasn't read, or none does. Once the lines before the steps
// are read, one that stands will not be read by going on.
fn tries_left(tries: u8, stands: bool, progress: &Progress) -> u8 {
    if !stands {
        return tries;
    }
    match progress {
        Progress::Unread => tries.saturating_sub(1),
        _ => 0,
    }
}

impl<'s, 'n, E: EventLaw> Consumer for StreamReplay<'s, 'n, E> {
    ghost use Rattle.psi_rate.specs.Composition.{SystemParts};

    ghost taken = { λ r. r.taken };

    ghost Setting = { SystemParts E };

    ghost setting = { λ r. r.system };

    /// Takes a piece of the text, and reads and judges the lines that end in it.
    ///
    /// # Errors
    ///
    /// [`OutOfMemory`] if an allocation for the piece, or for what is left over after its lines, fails; no clause says
    /// when.
    fn take(&mut self, piece: &[u8]) -> Result<(), OutOfMemory> {
        self.keep(piece)?;
        let lines = lines_end(piece);
        if lines == 0 || self.pending.len() < BATCH {
            return Ok(());
        }
        self.read_lines(piece.len() - lines)
    }
}
