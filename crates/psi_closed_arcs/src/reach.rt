//! The reach of arcs from both sides: which of them lie on a whole walk.

ghost use Rattle.std.specs.Prelude.{◌≡◌, ◌≢◌, ℕ, suc, ◌+◌, ◌^◌, ◌<◌, ◌≤◌, ◌↔◌, ◌⊎◌, IsTrue, true, false, length, min, max};
ghost use Rattle.psi_closed_arcs.specs.Sums.{has, Leads};
ghost use Rattle.psi_closed_arcs.specs.Walks.{Before, After, Useful};
ghost use Rattle.psi_closed_arcs.specs.Held.{Listed, IsSized};
ghost use Rattle.psi_closed_arcs.specs.Windows.{IsWithin, Allows, Enters, EntersBelow, Exits, MarkBefore, MarkAfter};
ghost use Rattle.psi_closed_arcs.specs.Joining.{Only, IsChanging, IsShort, IsFull};
ghost use Rattle.psi_closed_arcs.specs.Inner.SpansKept.{IsSpan, AreSpans, IsStretch};
ghost use Rattle.psi_closed_arcs.specs.Inner.RowsKept.{sums_at};
ghost use Rattle.psi_closed_arcs.specs.Inner.MarksKept.{AreMarked, IsReached, Keeps, TellsUseful, AreAt, AreOf};

use crate::OutOfMemory;
use crate::arcs::Arcs;
use crate::ends::ENDS;
use crate::marks::{LevelMarks, LevelReach, Marks, Reach};
use crate::spans::{Span, Stretch, no_spans, tell_spans};
use crate::sums::{SUMS, Sums, no_sums};
use crate::windows::{Rule, Window};
use std::alloc::{AllocError, Global};

// Those of the sums from `before` on to which at least `least` customers lead.
#[inline]
fn with_least(sums: Sums, before: u16, least: u32) -> Sums
    requires { (t : ℕ) → t < 320 → has sums t ≡ true → before ≤ t }
    ensures { (t : ℕ) → t < 320 → (has result t ≡ true) ↔ ((has sums t ≡ true) × (before + least ≤ t)) }
{
    if least == 0 {
        return sums;
    }
    sums.at_least(u32::from(before).saturating_add(least))
}

// Those of the sums to which fewer than `end` customers lead, from `before` on.
#[inline]
fn with_fewer(sums: Sums, before: u16, end: u32) -> Sums
    ensures { (t : ℕ) → t < 320 → (has result t ≡ true) ↔ ((has sums t ≡ true) × (t < before + end)) }
{
    if end >= SUMS {
        return sums;
    }
    sums.below(u32::from(before).saturating_add(end))
}

// The sums to which arcs within the window lead that leave queue `level` with `before` customers before it.
#[inline]
fn windowed(of: &Arcs, level: u8, before: u16, window: Window) -> Sums
    requires level { level < of.now.levels }
    requires before { before ≤ of.now.total }
    ensures arcs { (v : ℕ) → Leads result before v ↔ (Listed of.now.arcs level before v × IsWithin window v) }
    ensures small { of.now.total ≤ 256 }
    ensures ranged { (t : ℕ) → t < 320 → has result t ≡ true → (before ≤ t) × (t ≤ of.now.total) }
{
    let row = of.row(level, before);
    let least = with_least(row, before, window.least);
    with_fewer(least, before, window.end)
}

// The sums, and those to which arcs within the window lead that leave queue `level` with `before` customers before it, if
// that end is marked.
#[inline]
fn and_past(past: Sums, of: &Arcs, level: u8, before: u16, window: Window, marks: &Sums) -> Sums
    requires level { level < of.now.levels }
    requires before { before ≤ of.now.total }
    requires small { of.now.total ≤ 256 }
    ensures { (t : ℕ) → t < 320 → ((has past t ≡ true) ↔ EntersBelow of.now.arcs level t window marks.now before)
        → (has result t ≡ true) ↔ EntersBelow of.now.arcs level t window marks.now (before + 1) }
{
    if !marks.holds(before) {
        return past;
    }
    past.or(&windowed(of, level, before, window))
}

// The ends past queue `level` to which its arcs within the window lead from marked ends. All its arcs leave ends in the
// span.
fn marks_past(of: &Arcs, level: u8, span: Span, window: Window, marks: &Sums) -> Sums
    requires level { level < of.now.levels }
    requires span { IsSpan of.now.arcs of.now.total level span }
    requires small { of.now.total ≤ 256 }
    ensures { (t : ℕ) → t < 320 → (has result t ≡ true) ↔ Enters of.now.arcs level t window marks.now }
{
    let mut past = Sums::none();
    if marks.is_none() {
        return past;
    }
    for before in span.first..span.end {
        past = and_past(past, of, level, before, window, marks);
    }
    past
}

// Whether arcs within the window lead to marked ends that leave queue `level` with `before` customers before it.
#[inline]
fn exits(of: &Arcs, level: u8, before: u16, window: Window, marks: &Sums) -> bool
    requires level { level < of.now.levels }
    requires before { before ≤ of.now.total }
    ensures some { result ≡ true → Exits of.now.arcs level before window marks.now }
    ensures none { result ≡ false → Exits of.now.arcs level before window marks.now → ⊥ }
{
    !windowed(of, level, before, window).and(marks).is_none()
}

// The ends of queue `level` that its arcs within the window leave to marked ends. All its arcs leave ends in the span.
fn marks_before(of: &Arcs, level: u8, span: Span, window: Window, marks: &Sums) -> Sums
    requires level { level < of.now.levels }
    requires span { IsSpan of.now.arcs of.now.total level span }
    requires sized { IsSized of.now }
    ensures { (s : ℕ) → s < 320 → (has result s ≡ true) ↔ Exits of.now.arcs level s window marks.now }
{
    let mut left = Sums::none();
    if marks.is_none() {
        return left;
    }
    for before in span.first..span.end {
        left.insert_if(exits(of, level, before, window, marks), before);
    }
    left
}

// Lets the ends of the queues from `first` to `last` be marked by the same set.
fn fill(marks: &mut [Sums], first: u8, last: u8, sums: Sums)
    requires room { length marks.old ≡ 33 }
    requires inside { last ≤ 32 }
    ensures { (i : ℕ) → first ≤ i → i ≤ last → sums_at marks.new i ≡ sums }
{
    for level in first..last + 1 {
        marks[level as usize] = sums;
    }
}

// Marks the ends that are reached from the first queue over arcs that the rule allows, of the queues of the stretch: those
// of its queues up to `start` are marked.
fn mark_before(of: &Arcs, spans: &[Span], rule: &Rule, stretch: Stretch, marks: &mut [Sums])
    requires room { length marks.old ≡ 33 }
    requires stretch { IsStretch of.now spans.now stretch }
    requires begin { MarkBefore (Listed of.now.arcs) (Only (Listed of.now.arcs) (Allows rule.now)) stretch.low stretch.start marks.old }
    ensures { MarkBefore (Listed of.now.arcs) (Only (Listed of.now.arcs) (Allows rule.now)) stretch.low stretch.high marks.new }
{
    for level in stretch.start..stretch.high {
        let own = marks[level as usize];
        let past = marks_past(of, level, spans[level as usize], rule.window(level), &own);
        marks[level as usize + 1] = past;
    }
}

// Marks the ends from which the end past the last queue, with all customers, is reached over arcs that the rule
// allows, past the queues of the stretch: those past its queues from `stop` on are marked.
fn mark_after(of: &Arcs, spans: &[Span], rule: &Rule, stretch: Stretch, marks: &mut [Sums])
    requires room { length marks.old ≡ 33 }
    requires stretch { IsStretch of.now spans.now stretch }
    requires begin { MarkAfter (Listed of.now.arcs) (Only (Listed of.now.arcs) (Allows rule.now)) of.now.levels of.now.total stretch.stop stretch.high marks.old }
    ensures { MarkAfter (Listed of.now.arcs) (Only (Listed of.now.arcs) (Allows rule.now)) of.now.levels of.now.total stretch.low stretch.high marks.new }
{
    let mut level = stretch.stop;
    while level > stretch.low {
        let own = marks[level as usize + 1];
        let left = marks_before(of, level, spans[level as usize], rule.window(level), &own);
        marks[level as usize] = left;
        level -= 1;
    }
}

impl Marks {
    fn reserve(alloc: Global) -> Result<Marks, AllocError> {
        let before = no_sums(alloc, 33)?;
        let after = no_sums(alloc, 33)?;
        Ok(Marks {
            rule: Rule::any(),
            before,
            after,
        })
    }

    /// Marks the ends that are reached over arcs that the rule allows, of the queues of the stretch: those of its queues
    /// up to `start` and those past its queues from `stop` on are given, and the spans of all its queues.
    pub(crate) fn mark(
        &mut self,
        of: &Arcs,
        spans: &[Span],
        rule: Rule,
        stretch: Stretch,
        first: Sums,
        last: Sums,
    )
        requires stretch { IsStretch of.now spans.now stretch }
        requires first { (l s v : ℕ) → stretch.low ≤ l → l ≤ stretch.start → Listed of.now.arcs l s v → (has first s ≡ true) ↔ Before (Only (Listed of.now.arcs) (Allows rule)) l s }
        requires last { (l s v : ℕ) → stretch.stop ≤ l → l ≤ stretch.high → Listed of.now.arcs l s v
            → (has last (s + v) ≡ true) ↔ After (Only (Listed of.now.arcs) (Allows rule)) of.now.levels of.now.total (suc l) (s + v) }
        ensures rule { self.new.rule ≡ rule }
        ensures marked { AreMarked (Listed of.now.arcs) of.now.levels of.now.total stretch.low stretch.high self.new }
    {
        let before = self.before.as_mut_slice();
        fill(before, stretch.low, stretch.start, first);
        mark_before(of, spans, &rule, stretch, before);
        let after = self.after.as_mut_slice();
        fill(after, stretch.stop + 1, stretch.high + 1, last);
        mark_after(of, spans, &rule, stretch, after);
        self.rule = rule;
    }

    /// The marks of queue `level`.
    #[inline]
    pub(crate) fn at(&self, level: u8) -> LevelMarks
        requires { level < 32 }
        ensures { AreAt self.now level result }
    {
        LevelMarks {
            window: self.rule.window(level),
            before: self.before[level as usize],
            after: self.after[level as usize + 1],
        }
    }

    /// The sums to which reached arcs lead that leave queue `level`, whose marks are given, with `before` customers
    /// before it.
    #[inline]
    pub(crate) fn kept(&self, at: &LevelMarks, of: &Arcs, level: u8, before: u16) -> Sums
        requires at { AreAt self.now level at.now }
        requires level { level < of.now.levels }
        requires before { before ≤ of.now.total }
        requires small { of.now.total ≤ 256 }
        ensures arcs { (v : ℕ) → Leads result before v ↔ Keeps (Listed of.now.arcs) self.now level before v }
        ensures ranged { (t : ℕ) → t < 320 → has result t ≡ true → (before ≤ t) × (t ≤ of.now.total) }
    {
        if !at.before.holds(before) {
            return Sums::none();
        }
        windowed(of, level, before, at.window).and(&at.after)
    }
}

impl Marks {
    // Marks the ends of the arcs that the rule allows, where all arcs are useful and it allows all of the queues before
    // the stretch's `start` and past its `stop`: all ends are reached up to the first, and all past the second lead to the end.
    fn mark_between(&mut self, of: &Arcs, spans: &[Span], rule: Rule, stretch: Stretch)
        requires stretch { IsStretch of.now spans.now stretch }
        requires whole { (l s v : ℕ) → Listed of.now.arcs l s v → Useful (Listed of.now.arcs) of.now.levels of.now.total l s v }
        requires before { (l v : ℕ) → l < stretch.start → v < 2 ^ 16 → Allows rule l v }
        requires past { (l v : ℕ) → stretch.stop < l → v < 2 ^ 16 → Allows rule l v }
        ensures rule { self.new.rule ≡ rule }
        ensures marked { AreMarked (Listed of.now.arcs) of.now.levels of.now.total stretch.low stretch.high self.new }
    {
        let all = Sums::all();
        self.mark(of, spans, rule, stretch, all, all);
    }
}

impl Reach {
    /// The marks of queue `level` in a step from queue `from` to queue `to`.
    #[inline]
    pub(crate) fn at(&self, level: u8, from: u8, to: u8) -> LevelReach
        requires { level < 32 }
        ensures marks { AreOf self.now result }
        ensures level { result.level ≡ level }
        ensures from { result.from ≡ from }
        ensures to { result.to ≡ to }
    {
        LevelReach {
            level,
            from,
            to,
            changing: self.changing.at(level),
            short: self.short.at(level),
            full: self.full.at(level),
        }
    }

    /// Room for the marks of a step over any set of arcs.
    ///
    /// `OutOfMemory` is the answer where there is no memory for it; no clause says when that is.
    pub fn reserve(alloc: Global) -> Result<Reach, OutOfMemory> {
        let changing = Marks::reserve(alloc)?;
        let short = Marks::reserve(alloc)?;
        let full = Marks::reserve(alloc)?;
        let spans = no_spans(alloc)?;
        let next = no_sums(alloc, ENDS)?;
        Ok(Reach {
            changing,
            short,
            full,
            spans,
            next,
        })
    }

    /// Marks the ends of the useful arcs of the states that a move changes, of those whose source is short, and of
    /// those whose target is full, at the move's queues and between them, with the spans of these queues. All arcs of the
    /// set are useful.
    pub(crate) fn mark(&mut self, of: &Arcs, from: u8, k: u16, to: u8, room: u16)
        requires source { from < of.now.levels }
        requires target { to < of.now.levels }
        requires apart { from ≢ to }
        requires whole { (l s v : ℕ) → Listed of.now.arcs l s v → Useful (Listed of.now.arcs) of.now.levels of.now.total l s v }
        ensures few { of.now.levels ≤ 32 }
        ensures spans { AreSpans of.now.arcs of.now.total (min from to) (max from to) self.new.spans.items }
        ensures changing { TellsUseful (Listed of.now.arcs) of.now.levels of.now.total (min from to) (max from to) (IsChanging from k to room) self.new.changing }
        ensures short { TellsUseful (Listed of.now.arcs) of.now.levels of.now.total (min from to) (max from to) (IsShort from k) self.new.short }
        ensures full { TellsUseful (Listed of.now.arcs) of.now.levels of.now.total (min from to) (max from to) (IsFull to room) self.new.full }
    {
        // Called for its clause: the arcs are in range.
        let _total = of.total();
        let low = from.min(to);
        let high = from.max(to);
        tell_spans(of, low, high, self.spans.as_mut_slice());
        let spans = self.spans.as_slice();
        let changing = Rule::changing(from, k, to, room);
        let short = Rule::short(from, k);
        let full = Rule::full(to, room);
        let whole = Stretch {
            low,
            start: low,
            stop: high,
            high,
        };
        let source = Stretch {
            start: from,
            stop: from,
            ..whole
        };
        let target = Stretch {
            start: to,
            stop: to,
            ..whole
        };
        self.changing.mark_between(of, spans, changing, whole);
        self.short.mark_between(of, spans, short, source);
        self.full.mark_between(of, spans, full, target);
    }
}
