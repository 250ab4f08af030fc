//! The line of a set of one state, read where it is like that of another one: the numbers whose text is the same there
//! are taken from that state, and only the others are read.

ghost use Rattle.std.specs.Prelude.{◌≡◌, ◌∷◌, [], ◌++◌, ◌+◌, ◌<◌, ◌≤◌, length, slice_index, take, drop, decimal, IfSome};
ghost use Rattle.psi_log_format.specs.Text.{numbers_text};
ghost use Rattle.psi_log_scan.specs.Scanned.{Stands, TellsSet, with_comma, with_commas};

use crate::head::has_name;
use crate::rows::width;
use crate::same::alike;
use crate::scan::{has_byte, small_at};
use crate::set_line::LastSet;

// How many bytes a number takes with the comma after it; without a branch where it has one or two digits.
#[inline]
#[tactic(auto, using(crate::proofs::RowsLemmas::length_one, crate::proofs::RowsLemmas::length_two))]
fn bytes_of(n: u16) -> usize
    ensures value { result ≡ length (decimal n) + 1 }
    ensures few { result ≤ 6 }
{
    if n >= 100 {
        return width(n) + 1;
    }
    2 + (n >= 10) as usize
}

// The queue, from one on, up to which the numbers of a row take at most `room` bytes, each with the comma after it,
// and how many bytes they take. It isn't after the last queue.
#[inline]
fn pass(row: &[u16], from: usize, room: usize) -> (usize, usize)
    requires from { from < length row.now }
    requires few { length row.now ≤ 32 }
    ensures after { from ≤ result.0 }
    ensures within { result.0 < length row.now }
    ensures room { result.1 ≤ room }
    ensures len { length (with_commas (take from row.now)) + result.1 ≡ length (with_commas (take result.0 row.now)) }
{
    let last = row.len() - 1;
    let mut len = 0;
    for queue in from..last {
        let next = len + bytes_of(row[queue]);
        if next > room {
            return (queue, len);
        }
        len = next;
    }
    (last, len)
}

// Reads the number of a queue that stands at a place with a comma after it, or with a line feed where it is the last
// one, and returns the place after that. The other numbers stay.
#[inline]
fn read_number(text: &[u8], at: usize, queue: usize, row: &mut [u16]) -> Option<usize>
    requires queue { queue < length row.old }
    ensures count { length row.new ≡ length row.old }
    ensures front { take queue row.new ≡ take queue row.old }
    ensures back { drop (queue + 1) row.new ≡ drop (queue + 1) row.old }
    ensures within { IfSome result (λ end. end ≤ length text.now) }
    ensures more { IfSome result (λ end. queue + 1 < length row.old → Stands text.now at end (with_comma (slice_index row.new queue))) }
    ensures last { IfSome result (λ end. queue + 1 ≡ length row.old → Stands text.now at end (decimal (slice_index row.new queue) ++ 10 ∷ [])) }
{
    let (number, end) = small_at(text, at)?;
    let byte = if queue + 1 < row.len() { b',' } else { b'\n' };
    if !has_byte(text, end, byte) {
        return None;
    }
    row[queue] = number;
    Some(end + 1)
}

// Reads the numbers that stand in a text from a place on, up to a line feed, and returns the place after it. The row
// has those of another line, whose word, with its line feed, is `word`.
fn read_like(text: &[u8], at: usize, word: &[u8], row: &mut [u16]) -> Option<usize>
    requires some { 1 ≤ length row.old }
    requires few { length row.old ≤ 32 }
    requires within { at ≤ length text.now }
    requires word { word.now ≡ numbers_text row.old ++ 10 ∷ [] }
    ensures count { length row.new ≡ length row.old }
    ensures within { IfSome result (λ end. end ≤ length text.now) }
    ensures there { IfSome result (λ end. Stands text.now at end (numbers_text row.new ++ 10 ∷ [])) }
{
    let mut queue = 0;
    let mut place = 0;
    let mut here = at;
    for _ in 0..row.len() {
        let same = alike(&text[here..], &word[place..]);
        if same == word.len() - place {
            return Some(here + same);
        }
        let (next, len) = pass(row, queue, same);
        let bytes = bytes_of(row[next]);
        here = read_number(text, here + len, next, row)?;
        queue = next + 1;
        if queue == row.len() {
            return Some(here);
        }
        place += len + bytes;
    }
    None
}

/// Returns the set of one state whose words stand in a text after an event, as they are to be; the row has the numbers
/// of another such set, and has its own from then on. Where nothing is given, nothing is said of the line.
pub fn read_like_set<'t>(
    text: &'t [u8],
    at: usize,
    last: LastSet<'_>,
    row: &mut [u16],
) -> Option<LastSet<'t>>
    requires some { 1 ≤ length row.old }
    requires few { length row.old ≤ 32 }
    requires last { TellsSet (length row.old) last.text.now (row.old ∷ []) }
    ensures count { length row.new ≡ length row.old }
    ensures place { IfSome result (λ set. (set.first ≡ 0) × (set.count ≡ 1)) }
    ensures told { IfSome result (λ set. TellsSet (length row.old) set.text.now (row.new ∷ [])) }
    ensures there { IfSome result (λ set. Stands text.now at (at + length set.text.now) set.text.now) }
    ensures within { IfSome result (λ set. at + length set.text.now ≤ length text.now) }
{
    if last.text.len() < 5 || !has_name(text, at, b" set ") {
        return None;
    }
    let end = read_like(text, at + 5, &last.text[5..], row)?;
    Some(LastSet {
        text: &text[at..end],
        first: 0,
        count: 1,
    })
}
