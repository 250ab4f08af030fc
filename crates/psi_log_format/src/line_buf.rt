//! The buffer that a log is written from, line by line.

ghost use Rattle.std.specs.Prelude.{◌≡◌, ℕ, [], ◌++◌, ◌+◌, ◌*◌, ◌≤◌, length, take, vec_len, vec_capacity, IfOk};
ghost use Rattle.psi_log_format.specs.Log.{in_box, in_set};
ghost use Rattle.psi_log_format.specs.Text.{region_words, move_words, header_text, begin_text, step_text, end_text};

use crate::OutOfMemory;
use crate::digits::{Digits, small_numbers};
use crate::header::Header;
use crate::pieces::{put_named, put_state, put_step};
use crate::put::put;
use crate::regions::{put_box, put_move, put_set};
use psi_state::{Bounds, State, Step};
use std::alloc::Global;
use std::marker::Model;

// More bytes than the longest line has: that of a step with a set of 4,096 states of 32 queues.
const ROOM: usize = 800_000;

/// A buffer that holds whole lines of a log, seen as their bytes.
///
/// `reserve` allocates all its memory: room for the longest line, and a table of the digits of small numbers.
/// A call whose name begins with `add` appends a line to those that it holds; each other call replaces these,
/// and none allocates. The text of a log is the header, the box at which the run begins, a line for each step,
/// and the state at time zero, one after another.
#[derive(Drop)]
pub struct LineBuf {
    table: Vec<Digits>,
    // The lines are the first `len` bytes; what is after them is free.
    bytes: Vec<u8>,
    len: usize,
}

impl Model for LineBuf {
    ghost use Rattle.std.specs.Prelude.{ℕ, ◌≤◌, List, take, vec_len, vec_capacity};
    ghost use Rattle.psi_log_format.specs.Inner.TableKept.{AreDigits};

    ghost Value = { List ℕ };

    ghost view = { λ b. take b.len b.bytes.items };

    ghost invariant = { λ b. (800000 ≤ vec_capacity b.bytes) × (b.len ≤ vec_len b.bytes) × AreDigits b.table.items };
}

// Lengthens a vector to at least `count` bytes, for which it has the capacity.
#[inline]
fn lengthen(bytes: &mut Vec<u8>, count: usize)
    requires { count ≤ vec_capacity bytes.old }
    ensures front { (n : ℕ) → n ≤ vec_len bytes.old → take n bytes.new.items ≡ take n bytes.old.items }
    ensures enough { count ≤ vec_len bytes.new }
    ensures longer { vec_len bytes.old ≤ vec_len bytes.new }
    ensures capacity { vec_capacity bytes.old ≤ vec_capacity bytes.new }
{
    if bytes.len() < count {
        bytes.resize(count, 0).unwrap();
    }
}

impl LineBuf {
    /// Returns an empty buffer, with room for 800,000 bytes.
    ///
    /// Returns `OutOfMemory` if an allocation fails; no clause says when that is.
    pub fn reserve(alloc: Global) -> Result<LineBuf, OutOfMemory>
        ensures { IfOk result (λ buffer. buffer ≡ []) }
    {
        let table = small_numbers(alloc)?;
        let bytes = Vec::with_capacity(alloc, ROOM)?;
        Ok(LineBuf {
            table,
            bytes,
            len: 0,
        })
    }

    /// Holds nothing any more.
    pub fn clear(&mut self)
        ensures { self.new ≡ [] }
    {
        self.len = 0;
    }

    /// Holds the five lines of a header.
    #[tactic(auto, unfolding(crate::specs::Text::header_text))]
    pub fn header(&mut self, h: &Header)
        ensures { self.new ≡ header_text h.now }
    {
        lengthen(&mut self.bytes, 200);
        let out = self.bytes.as_mut_slice();
        let version = put_named(out, 0, b"psi-log", h.version as u64);
        let queues = put_named(out, version, b"queues", h.queues as u64);
        let seed = put_named(out, queues, b"seed", h.seed);
        let stream = put_named(out, seed, b"stream", h.stream);
        self.len = put_named(out, stream, b"horizon", h.horizon as u64);
    }

    /// Holds the line of the box at which a run begins.
    pub fn begin(&mut self, b: &Bounds)
        ensures { self.new ≡ begin_text (in_box b.now) }
    {
        lengthen(&mut self.bytes, 400);
        let out = self.bytes.as_mut_slice();
        let named = put(out, 0, b"begin");
        let told = put_box(out, named, &self.table, b);
        self.len = put(out, told, b"\n");
    }

    /// Holds the line of a step with the box after it, written whole.
    pub fn step_box(&mut self, s: &Step, b: &Bounds)
        ensures { self.new ≡ step_text s.now (region_words (in_box b.now)) }
    {
        self.clear();
        self.add_step_box(s, b);
    }

    /// Holds the line of a step with the set of states after it: at most 4,096 states, in ascending order.
    pub fn step_set(&mut self, s: &Step, states: &[State])
        requires { length states.now ≤ 4096 }
        ensures { self.new ≡ step_text s.now (region_words (in_set states.now)) }
    {
        self.clear();
        self.add_step_set(s, states);
    }

    /// Holds the line of a step with the box `to` after it, written by what changed from the box `from`
    /// before it.
    pub fn step_move(&mut self, s: &Step, from: &Bounds, to: &Bounds)
        requires { length from.now.lo ≡ length to.now.lo }
        ensures { self.new ≡ step_text s.now (move_words from.now to.now) }
    {
        self.clear();
        self.add_step_move(s, from, to);
    }

    /// Appends the line of a step with the box after it, written whole. What the buffer holds leaves room for
    /// 450 bytes.
    pub fn add_step_box(&mut self, s: &Step, b: &Bounds)
        requires { length self.old + 450 ≤ 800000 }
        ensures { self.new ≡ self.old ++ step_text s.now (region_words (in_box b.now)) }
    {
        lengthen(&mut self.bytes, self.len + 450);
        let out = self.bytes.as_mut_slice();
        let numbered = put_step(out, self.len, &self.table, s);
        let told = put_box(out, numbered, &self.table, b);
        self.len = put(out, told, b"\n");
    }

    /// Appends the line of a step with the set of states after it, in ascending order. What the buffer holds
    /// leaves room for 51 bytes and 193 for each state.
    pub fn add_step_set(&mut self, s: &Step, states: &[State])
        requires { length self.old + 51 + 193 * length states.now ≤ 800000 }
        ensures { self.new ≡ self.old ++ step_text s.now (region_words (in_set states.now)) }
    {
        lengthen(&mut self.bytes, self.len + 51 + 193 * states.len());
        let out = self.bytes.as_mut_slice();
        let numbered = put_step(out, self.len, &self.table, s);
        let told = put_set(out, numbered, &self.table, states);
        self.len = put(out, told, b"\n");
    }

    /// Appends the line of a step with the box `to` after it, written by what changed from the box `from` before
    /// it. What the buffer holds leaves room for 1,200 bytes.
    pub fn add_step_move(&mut self, s: &Step, from: &Bounds, to: &Bounds)
        requires same { length from.now.lo ≡ length to.now.lo }
        requires room { length self.old + 1200 ≤ 800000 }
        ensures { self.new ≡ self.old ++ step_text s.now (move_words from.now to.now) }
    {
        lengthen(&mut self.bytes, self.len + 1200);
        let out = self.bytes.as_mut_slice();
        let numbered = put_step(out, self.len, &self.table, s);
        let told = put_move(out, numbered, &self.table, from, to);
        self.len = put(out, told, b"\n");
    }

    /// Holds the line of the state at time zero.
    pub fn end(&mut self, x: &State)
        ensures { self.new ≡ end_text x.now }
    {
        lengthen(&mut self.bytes, 200);
        let out = self.bytes.as_mut_slice();
        let named = put(out, 0, b"end");
        let told = put_state(out, named, &self.table, x);
        self.len = put(out, told, b"\n");
    }

    /// Returns the bytes that it holds.
    pub fn bytes(&self) -> &[u8]
        ensures { result.now ≡ self.now }
    {
        &self.bytes[..self.len]
    }
}
