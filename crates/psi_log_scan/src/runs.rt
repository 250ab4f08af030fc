//! Runs of a set's states: such as differ from the one before in the number of one queue alone. What stands in their
//! words before and after this number is compared sixteen bytes at once.

ghost use Rattle.std.specs.Prelude.{◌≡◌, ◌⊎◌, ◌∷◌, ◌++◌, ◌+◌, ◌-◌, ◌*◌, ◌<◌, ◌≤◌, ◌^◌, ℕ, length, slice_index, slice_index_or, slice_set, take, drop, decimal, true, false, IsTrue, IfOk, IfSome, OnOk};
ghost use Rattle.psi_log_format.specs.Text.{numbers_text};
ghost use Rattle.psi_log_format.specs.Rows.{rows};
ghost use Rattle.psi_log_scan.specs.Scanned.{Stands, with_commas};
ghost use Rattle.psi_log_scan.specs.Inner.RowsViews.{IsAlike, IsRun, IsRead, EndsIn};

use crate::rows::width;
use crate::scan::{digit_of, small_at};
use psi_log_format::StateList;
use std::alloc::AllocError;

/// What the words of a run have in common: the bytes of one with the space before it, and which of them stand in each,
/// which is all but the digits of the number of one queue.
#[derive(Clone, Copy, Debug)]
pub(crate) struct Run {
    bytes: [u8; 128],
    same: [bool; 128],
    from: usize,
    width: usize,
    len: usize,
    queue: usize,
}

// How long a state's word is before the number of a queue.
fn front_len(row: &[u16], queue: usize) -> usize
    requires queue { queue ≤ length row.now }
    requires few { length row.now ≤ 32 }
    ensures value { result ≡ length (with_commas (take queue row.now)) }
    ensures few { result ≤ 192 }
{
    let mut len = 0;
    for place in 0..queue {
        len += width(row[place]) + 1;
    }
    len
}

// These bytes.
#[inline]
fn array_of(text: &[u8]) -> [u8; 128]
    requires { length text.now ≡ 128 }
    ensures { result ≡ text.now }
{
    let mut bytes = [0; 128];
    bytes.copy_from_slice(text);
    bytes
}

// These numbers, and others after them.
fn padded(row: &[u16]) -> [u16; 32]
    requires { length row.now ≤ 32 }
    ensures front { take (length row.now) result ≡ row.now }
    ensures count { length result ≡ 32 }
    ensures range { (i : ℕ) → slice_index row.now i < 2 ^ 16 }
{
    let mut numbers = [0; 32];
    numbers[..row.len()].copy_from_slice(row);
    numbers
}

// `len` places that count, and others after them that don't.
#[inline]
fn all_until(len: usize) -> [bool; 128]
    requires { len ≤ 128 }
    ensures { (i : ℕ) → i < len → slice_index_or result i false ≡ true }
{
    let mut same = [false; 128];
    for place in 0..len {
        same[place] = true;
    }
    same
}

// For each of `len` places whether it is before a number's digits or after them.
#[inline]
fn around(from: usize, until: usize, len: usize) -> [bool; 128]
    requires within { until ≤ len }
    requires few { len ≤ 128 }
    ensures { (i : ℕ) → i < len → (i < from) ⊎ (until ≤ i) → slice_index_or result i false ≡ true }
{
    let mut same = all_until(len);
    for place in from..until {
        same[place] = false;
    }
    same
}

/// The run of a state whose word stands in a text after a space, the space with it, in which this queue's number
/// grows. There is none where it is longer than 127 bytes, or the text ends before 128.
#[inline(never)]
pub(crate) fn run_of(text: &[u8], at: usize, end: usize, row: &[u16], queue: usize) -> Option<Run>
    requires queue { queue < length row.now }
    requires few { length row.now ≤ 32 }
    requires within { end ≤ length text.now }
    requires there { Stands text.now at end (32 ∷ numbers_text row.now) }
    ensures { IfSome result (λ run. IsRun row.now run) }
{
    let len = end - at;
    if len >= 128 || text.len() - at < 128 {
        return None;
    }
    let from = 1 + front_len(row, queue);
    let width = width(row[queue]);
    Some(Run {
        bytes: array_of(&text[at..at + 128]),
        same: around(from, from + width, len),
        from,
        width,
        len,
        queue,
    })
}

// Whether sixteen bytes are the same as others, wherever they have to be. All of them are looked at, so that the
// compiler compares them at once.
#[inline]
fn agree_where(text: &[u8], bytes: &[u8], same: &[bool]) -> bool
    requires text { length text.now ≡ 16 }
    requires bytes { length bytes.now ≡ 16 }
    requires same { length same.now ≡ 16 }
    ensures { IsTrue result → (i : ℕ) → i < 16 → slice_index_or same.now i false ≡ true → slice_index text.now i ≡ slice_index bytes.now i }
{
    let mut apart = false;
    for place in 0..16 {
        apart |= (text[place] != bytes[place]) & same[place];
    }
    !apart
}

// Whether what stands at a place is as the words of a run are, but for the number's digits.
#[inline]
fn is_alike(text: &[u8], at: usize, run: &Run) -> bool
    requires { run.now.len ≤ 128 }
    ensures within { IsTrue result → at + 128 ≤ length text.now }
    ensures alike { IsTrue result → IsAlike text.now at run.now run.now.len }
{
    if text.len() < 128 || at > text.len() - 128 {
        return false;
    }
    for block in 0..8 {
        let first = 16 * block;
        let part = &text[at + first..at + first + 16];
        let bytes = &run.bytes[first..first + 16];
        let same = &run.same[first..first + 16];
        if !agree_where(part, bytes, same) {
            return false;
        }
        if run.len <= first + 16 {
            return true;
        }
    }
    true
}

// The number of `width` digits that stands at a place.
#[inline(never)]
fn long_number(text: &[u8], at: usize, width: usize) -> Option<u16>
    requires { at + width ≤ length text.now }
    ensures { IfSome result (λ n. Stands text.now at (at + width) (decimal n)) }
{
    let (number, end) = small_at(text, at)?;
    if end != at + width {
        return None;
    }
    Some(number)
}

// The same, where it hasn't two digits; at once where it has one.
#[inline]
fn other_number(text: &[u8], at: usize, width: usize) -> Option<u16>
    requires { at + width ≤ length text.now }
    ensures { IfSome result (λ n. Stands text.now at (at + width) (decimal n)) }
{
    if width != 1 {
        return long_number(text, at, width);
    }
    let first = digit_of(text[at])?;
    Some(first as u16)
}

// The same; at once where it has two digits, as most have.
#[inline]
fn number_of(text: &[u8], at: usize, width: usize) -> Option<u16>
    requires { at + width ≤ length text.now }
    ensures { IfSome result (λ n. Stands text.now at (at + width) (decimal n)) }
{
    if width != 2 {
        let number = other_number(text, at, width)?;
        return Some(number);
    }
    let first = digit_of(text[at])?;
    let second = digit_of(text[at + 1])?;
    if first == 0 {
        return None;
    }
    let number = 10 * first + second;
    Some(number as u16)
}

// The number in which the next state differs from the one that has `last` in the run's queue, and is above it, where
// its word is of the run.
#[inline]
fn next_number(text: &[u8], at: usize, run: &Run, row: &[u16], last: u16) -> Option<u16>
    requires { IsRun row.now run.now }
    ensures within { IfSome result (λ n. at + run.now.len ≤ length text.now) }
    ensures above { IfSome result (λ n. last < n) }
    ensures range { IfSome result (λ n. n < 2 ^ 16) }
    ensures there { IfSome result (λ n. Stands text.now at (at + run.now.len) (32 ∷ numbers_text (slice_set row.now run.now.queue n))) }
{
    if !is_alike(text, at, run) {
        return None;
    }
    let number = number_of(text, at + run.from, run.width)?;
    if number <= last {
        return None;
    }
    // Where the word goes on, it is another one.
    if text[at + run.len] > b' ' {
        return None;
    }
    Some(number)
}

// The first eight of these numbers.
#[inline]
fn eight(row: &[u16; 32]) -> [u16; 8]
    ensures { result ≡ take 8 row.now }
{
    let mut numbers = [0; 8];
    numbers.copy_from_slice(&row[..8]);
    numbers
}

// Puts the first `count` of these numbers after `filled` others. They are copied to a variable first, and as many at
// once as the compiler knows of: it asks then neither whether both overlap nor how many they are.
#[inline]
fn put_first(numbers: &mut [u16; 160], filled: usize, row: &[u16; 32], count: usize)
    requires room { filled + 32 ≤ 160 }
    requires few { count ≤ 32 }
    ensures { take (filled + count) numbers.new ≡ take filled numbers.old ++ take count row.now }
{
    if count > 8 {
        let own = *row;
        numbers[filled..filled + 32].copy_from_slice(&own);
    } else {
        let own = eight(row);
        numbers[filled..filled + 8].copy_from_slice(&own);
    }
}

// Puts states that wait, whose numbers these are, onto the list where another may have no room after them.
#[inline]
fn make_way(
    numbers: &[u16; 160],
    filled: &mut usize,
    count: &mut usize,
    states: &mut StateList,
) -> Result<(), AllocError>
    requires few { filled.old ≤ 160 }
    requires count { filled.old ≡ count.old * states.old.queues }
    ensures queues { states.new.queues ≡ states.old.queues }
    ensures room { OnOk result (filled.new + 32 ≤ 160) }
    ensures count { OnOk result (filled.new ≡ count.new * states.old.queues) }
    ensures states { OnOk result (states.new.states ++ rows count.new states.old.queues (take filled.new numbers.now) ≡ states.old.states ++ rows count.old states.old.queues (take filled.old numbers.now)) }
{
    if *filled + 32 <= 160 {
        return Ok(());
    }
    states.push_rows(*count, &numbers[..*filled])?;
    *filled = 0;
    *count = 0;
    Ok(())
}

/// Appends the states of a run, at most `most`, which stand in a text from a place on, each preceded by a space, to
/// those of the list, the last of which has these numbers; and gives the place after them. They are put onto the list
/// by as many as an array of numbers holds.
#[inline(never)]
pub(crate) fn read_run(
    text: &[u8],
    at: usize,
    most: usize,
    run: &Run,
    row: &[u16],
    states: &mut StateList,
) -> Result<usize, AllocError>
    requires few { length row.now ≤ 32 }
    requires queues { states.old.queues ≡ length row.now }
    requires within { at ≤ length text.now }
    requires run { IsRun row.now run.now }
    requires last { EndsIn states.old.states row.now }
    ensures queues { states.new.queues ≡ states.old.queues }
    ensures read { IfOk result (λ end. IsRead (length row.now) text.now at end states.old.states states.new.states) }
{
    let first = padded(row);
    let mut numbers = [0; 160];
    let mut filled = 0;
    let mut count = 0;
    let mut last = row[run.queue];
    let mut end = at;
    for _ in 0..most {
        let Some(number) = next_number(text, end, run, row, last) else {
            break;
        };
        make_way(&numbers, &mut filled, &mut count, states)?;
        put_first(&mut numbers, filled, &first, row.len());
        numbers[filled + run.queue] = number;
        filled += row.len();
        count += 1;
        last = number;
        end += run.len;
    }
    states.push_rows(count, &numbers[..filled])?;
    Ok(end)
}
