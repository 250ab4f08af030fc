//! Spans of ends: most ends of a queue are left by no arc once few states are held, so a step goes over the others alone.

ghost use Rattle.std.specs.Prelude.{◌≡◌, ℕ, ◌+◌, ◌-◌, ◌<◌, ◌≤◌, IfOk, length, min};
ghost use Rattle.psi_closed_arcs.specs.Held.{Listed};
ghost use Rattle.psi_closed_arcs.specs.Inner.SpansKept.{IsSpan, AreSpans};

use crate::arcs::Arcs;
use std::alloc::{AllocError, Global};

/// Ends of a queue, by the customers before it: from `first` on and below `end`.
#[derive(Clone, Copy)]
pub(crate) struct Span {
    pub(crate) first: u16,
    pub(crate) end: u16,
}

/// Queues whose ends are marked, from `low` to `high`: all arcs of those before `start` are allowed, and so are all of
/// those after `stop`.
#[derive(Clone, Copy)]
pub(crate) struct Stretch {
    pub(crate) low: u8,
    pub(crate) start: u8,
    pub(crate) stop: u8,
    pub(crate) high: u8,
}

// Room for the span of each queue.
pub(crate) fn no_spans(alloc: Global) -> Result<Vec<Span>, AllocError>
    ensures { IfOk result (λ spans. length spans.items ≡ 32) }
{
    let mut spans = Vec::with_capacity(alloc, 32)?;
    for _level in 0..32u32 {
        spans.push_reserved(Span { first: 0, end: 0 });
    }
    Ok(spans)
}

// The least end of queue `level` that an arc leaves, and one past the last end where none does.
fn first_end(of: &Arcs, level: u8) -> u16
    requires { level < of.now.levels }
    ensures before { (s v : ℕ) → Listed of.now.arcs level s v → result ≤ s }
    ensures most { result ≤ of.now.total + 1 }
{
    let total = of.total();
    for before in 0..total + 1 {
        if !of.row(level, before).is_none() {
            return before;
        }
    }
    total + 1
}

// One past the greatest end of queue `level` that an arc leaves, and 0 where none does.
fn past_end(of: &Arcs, level: u8) -> u16
    requires { level < of.now.levels }
    ensures past { (s v : ℕ) → Listed of.now.arcs level s v → s < result }
    ensures most { result ≤ of.now.total + 1 }
{
    let total = of.total();
    for before in (0..total + 1).rev() {
        if !of.row(level, before).is_none() {
            return before + 1;
        }
    }
    0
}

// The ends of queue `level` that arcs leave, and those between them.
fn span_of(of: &Arcs, level: u8) -> Span
    requires { level < of.now.levels }
    ensures { IsSpan of.now.arcs of.now.total level result }
{
    let first = first_end(of, level);
    let end = past_end(of, level);
    Span { first, end }
}

// The span with the ends beside it, of those with at most `total` customers.
pub(crate) fn widened(span: Span, total: u16) -> Span
    requires inside { span.end ≤ total + 1 }
    requires small { total ≤ 256 }
    ensures first { result.first ≡ span.first - 1 }
    ensures end { result.end ≡ min (span.end + 1) (total + 1) }
{
    Span {
        first: span.first.saturating_sub(1),
        end: (span.end + 1).min(total + 1),
    }
}

// Tells the spans of the queues from `low` to `high`.
pub(crate) fn tell_spans(of: &Arcs, low: u8, high: u8, spans: &mut [Span])
    requires room { length spans.old ≡ 32 }
    requires order { low ≤ high }
    requires inside { high < of.now.levels }
    requires few { of.now.levels ≤ 32 }
    ensures { AreSpans of.now.arcs of.now.total low high spans.new }
{
    for level in low..high + 1 {
        spans[level as usize] = span_of(of, level);
    }
}
