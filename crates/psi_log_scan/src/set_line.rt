//! A set, read in one pass over its bytes.

ghost use Rattle.std.specs.Prelude.{◌≡◌, ◌∷◌, [], ◌++◌, ◌+◌, ℕ, Option, ◌<◌, ◌≤◌, ◌^◌, length, slice_index, take, codes, decimal, Ok, IfOk, IfSome, OnOk};
ghost use Rattle.psi_log_scan.specs.LinesViews.{IsLast};
ghost use Rattle.psi_log_scan.specs.Scanned.{Stands, AreScanned};

use crate::head::has_name;
use crate::rows::read_rows;
use crate::scan::has_byte;
use psi_log_format::StateList;
use psi_state::MOST_SPLIT;
use std::alloc::AllocError;

/// The end of a set's line, from after its event on, and the place of its states in a list of states.
#[derive(Clone, Copy, Debug)]
pub struct LastSet<'t> {
    /// The bytes from after its event to its line feed.
    pub text: &'t [u8],
    /// The place of its first state, counted from 0.
    pub first: usize,
    /// The number of its states, 1 to 4,096.
    pub count: u16,
}

/// Returns the set whose words stand in a text after an event, as they are to be; its states are put after those of the
/// list. Where nothing is given, nothing is said of the line.
pub fn read_new_set<'t>(
    queues: u8,
    text: &'t [u8],
    at: usize,
    states: &mut StateList,
) -> Result<Option<LastSet<'t>>, AllocError>
    requires some { 1 ≤ queues }
    requires few { queues ≤ 32 }
    requires queues { states.old.queues ≡ queues }
    ensures queues { states.new.queues ≡ queues }
    ensures kept { OnOk result (take (length states.old.states) states.new.states ≡ states.old.states) }
    ensures more { OnOk result (length states.old.states ≤ length states.new.states) }
    ensures last { IfOk result (λ read. IfSome read (λ set. IsLast queues states.new.states set)) }
    ensures there { IfOk result (λ read. IfSome read (λ set. Stands text.now at (at + length set.text.now) set.text.now)) }
    ensures within { IfOk result (λ read. IfSome read (λ set. at + length set.text.now ≤ length text.now)) }
{
    if !has_name(text, at, b" set") {
        return Ok(None);
    }
    let first = states.len();
    let Some(end) = read_rows(text, at + 4, queues, states)? else {
        return Ok(None);
    };
    let count = states.len() - first;
    if count == 0 || count > MOST_SPLIT as usize || !has_byte(text, end, b'\n') {
        return Ok(None);
    }
    let count = count as u16;
    let text = &text[at..end + 1];
    Ok(Some(LastSet { text, first, count }))
}
