//! A box that is written by what changed, read in one pass over its bytes.

ghost use Rattle.std.specs.Prelude.{◌≡◌, ◌<◌, ◌≤◌, ◌^◌, length, IfSome};
ghost use Rattle.psi_log_format.specs.Text.{change_text};
ghost use Rattle.psi_log_words.specs.ChangesViews.{change};
ghost use Rattle.psi_log_scan.specs.Scanned.{Stands, AreChanged};

use crate::scan::{has_byte, small_at, small_with_comma};
use psi_log_words::{Change, is_change};
use psi_state::Bounds;

// The change of a queue that stands at a place, and the place after it.
fn change_at(text: &[u8], at: usize, queues: u8) -> Option<(Change, usize)>
    ensures queue { IfSome result (λ read. read.0.queue < queues) }
    ensures range { IfSome result (λ read. (read.0.least < 2 ^ 16) × (read.0.greatest < 2 ^ 16)) }
    ensures within { IfSome result (λ read. read.1 ≤ length text.now) }
    ensures there { IfSome result (λ read. Stands text.now at read.1 (change_text (change read.0))) }
{
    if text.len() < 3 {
        return None;
    }
    let last = text.len() - 3;
    let (queue, next) = small_with_comma(text, at, last)?;
    if queue >= queues as u16 {
        return None;
    }
    let (least, next) = small_with_comma(text, next, last)?;
    let (greatest, end) = small_at(text, next)?;
    let queue = queue as u8;
    Some((
        Change {
            queue,
            least,
            greatest,
        },
        end,
    ))
}

/// Makes of a box the one that the changes make of another which stand in a text from a place on, each preceded by a
/// space, and returns the place after them. Where nothing is given, nothing is said of the box.
pub fn read_changes_onto(
    text: &[u8],
    at: usize,
    queues: u8,
    from: &Bounds,
    to: &mut Bounds,
) -> Option<usize>
    requires few { queues ≤ 32 }
    requires same { length from.now.lo ≡ queues }
    requires within { at ≤ length text.now }
    ensures count { IfSome result (λ end. length to.new.lo ≡ queues) }
    ensures changes { IfSome result (λ end. AreChanged queues from.now text.now at end to.new) }
{
    *to = *from;
    let mut next: u8 = 0;
    let mut end = at;
    for _ in 0..queues {
        if !has_byte(text, end, b' ') {
            return Some(end);
        }
        let (c, after) = change_at(text, end + 1, queues)?;
        if c.queue < next || !is_change(from, &c) {
            return None;
        }
        to.set(c.queue, c.least, c.greatest);
        next = c.queue + 1;
        end = after;
    }
    Some(end)
}

/// Returns the box that the changes make of another which stand in a text from a place on, each preceded by a space,
/// and the place after them.
pub fn read_changes(text: &[u8], at: usize, queues: u8, from: &Bounds) -> Option<(Bounds, usize)>
    requires few { queues ≤ 32 }
    requires same { length from.now.lo ≡ queues }
    requires within { at ≤ length text.now }
    ensures count { IfSome result (λ read. length read.0.lo ≡ queues) }
    ensures changes { IfSome result (λ read. AreChanged queues from.now text.now at read.1 read.0) }
{
    let mut to = *from;
    let end = read_changes_onto(text, at, queues, from, &mut to)?;
    Some((to, end))
}
