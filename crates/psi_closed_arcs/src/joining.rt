//! The useful arcs of a set, and what a move makes of a set of arcs.

ghost use Rattle.std.specs.Prelude.{◌≡◌, ◌≢◌, ℕ, suc, ◌+◌, ◌<◌, ◌≤◌, ◌↔◌, ◌⊎◌, true, false, length, MatchOption};
ghost use Rattle.psi_closed_arcs.specs.Sums.{has, Leads};
ghost use Rattle.psi_closed_arcs.specs.Walks.{Useful};
ghost use Rattle.psi_closed_arcs.specs.Held.{Listed};
ghost use Rattle.psi_closed_arcs.specs.Inner.RowsKept.{sums_at};
ghost use Rattle.psi_closed_arcs.specs.Joining.{past, IsShiftable, Joined};
ghost use Rattle.psi_closed_arcs.specs.Inner.MarksKept.{IsReached, Keeps, Shifts, Gives, AreAt, AreOf};
ghost use Rattle.psi_closed_arcs.specs.Inner.SpansKept.{IsSpan};

use crate::arcs::Arcs;
use crate::marks::{LevelReach, Marks, Reach};
use crate::spans::{Span, Stretch, tell_spans, widened};
use crate::sums::Sums;
use crate::windows::Rule;

// 1 where queue `i` comes before queue `l`, else 0.
#[inline]
#[tactic(auto, unfolding(crate::specs::Joining::past))]
fn one_past(i: u8, l: u8) -> u16
    ensures value { result ≡ past i l }
    ensures small { result ≤ 1 }
{
    if i < l { 1 } else { 0 }
}

// The sums, one lower where one customer goes away, and one higher where one comes.
#[inline]
fn turned(sums: Sums, away: u16, come: u16) -> Sums
    requires away { away ≤ 1 }
    requires come { come ≤ 1 }
    ensures moved { (t u : ℕ) → t < 320 → u < 320 → t + away ≡ u + come → has result t ≡ has sums u }
    ensures low { (t : ℕ) → t + away < come → has result t ≡ false }
    ensures high { (t : ℕ) → t < 320 → 320 + come ≤ t + away → has result t ≡ false }
{
    if away > come {
        sums.down()
    } else if away < come {
        sums.up()
    } else {
        sums
    }
}

// How many customers there were, at most `total`, where there are so many once `away` have gone and `come` have come.
#[inline]
fn source(now: u16, away: u16, come: u16, total: u16) -> Option<u16>
    requires now { now ≤ 256 }
    requires away { away ≤ 1 }
    ensures { MatchOption result ((s : ℕ) → s ≤ total → now + away ≡ s + come → ⊥) (λ s. (s ≤ total) × (now + away ≡ s + come)) }
{
    let sum = (now + away).checked_sub(come)?;
    if sum <= total { Some(sum) } else { None }
}

// The sums to which shifted arcs lead that leave the queue with `before` customers before it.
#[inline]
fn shifted(of: &Arcs, before: u16, marks: &Marks, at: &LevelReach) -> Sums
    requires at { AreAt marks.now at.now.level at.now.changing }
    requires level { at.now.level < of.now.levels }
    requires before { before ≤ of.now.total }
    requires few { of.now.levels ≤ 32 }
    requires shiftable { (s v : ℕ) → Listed of.now.arcs at.now.level s v → IsReached marks.now at.now.level s v
        → IsShiftable at.now.from at.now.to of.now.total at.now.level s v }
    ensures arcs { (v : ℕ) → Leads result before v ↔ Shifts (Listed of.now.arcs) marks.now at.now.from at.now.to at.now.level before v }
    ensures ranged { (t : ℕ) → t < 320 → has result t ≡ true → (before ≤ t) × (t ≤ of.now.total) }
{
    let level = at.level;
    let total = of.total();
    match source(
        before,
        one_past(at.from, level),
        one_past(at.to, level),
        total,
    ) {
        Some(sum) => turned(
            marks.kept(&at.changing, of, level, sum),
            one_past(at.from, level + 1),
            one_past(at.to, level + 1),
        ),
        None => Sums::none(),
    }
}

// The sums to which arcs lead after the move that leave the queue with `before` customers before it.
#[inline]
fn given(of: &Arcs, before: u16, reach: &Reach, at: &LevelReach) -> Sums
    requires at { AreOf reach.now at.now }
    requires level { at.now.level < of.now.levels }
    requires before { before ≤ of.now.total }
    requires few { of.now.levels ≤ 32 }
    requires small { of.now.total ≤ 256 }
    requires shiftable { (s v : ℕ) → Listed of.now.arcs at.now.level s v → IsReached reach.now.changing at.now.level s v
        → IsShiftable at.now.from at.now.to of.now.total at.now.level s v }
    ensures arcs { (v : ℕ) → Leads result before v ↔ Gives (Listed of.now.arcs) reach.now at.now.from at.now.to at.now.level before v }
    ensures ranged { (t : ℕ) → t < 320 → has result t ≡ true → (before ≤ t) × (t ≤ of.now.total) }
{
    let changed = shifted(of, before, &reach.changing, at);
    let short = reach.short.kept(&at.short, of, at.level, before);
    let full = reach.full.kept(&at.full, of, at.level, before);
    changed.or(&short.or(&full))
}

// Writes the sums to which arcs lead after the move that leave queue `level`, for each number of customers before it
// that is in the span.
fn give_rows(of: &Arcs, level: u8, span: Span, from: u8, to: u8, reach: &mut Reach)
    requires level { level < of.now.levels }
    requires inside { span.end ≤ of.now.total + 1 }
    requires few { of.now.levels ≤ 32 }
    requires small { of.now.total ≤ 256 }
    requires shiftable { (s v : ℕ) → Listed of.now.arcs level s v → IsReached reach.old.changing level s v → IsShiftable from to of.now.total level s v }
    ensures arcs { (s v : ℕ) → span.first ≤ s → s < span.end
        → Leads (sums_at reach.new.next.items s) s v ↔ Gives (Listed of.now.arcs) reach.old from to level s v }
    ensures ranged { (s t : ℕ) → span.first ≤ s → s < span.end → t < 320 → has (sums_at reach.new.next.items s) t ≡ true → (s ≤ t) × (t ≤ of.now.total) }
    ensures changing { reach.new.changing ≡ reach.old.changing }
    ensures short { reach.new.short ≡ reach.old.short }
    ensures full { reach.new.full ≡ reach.old.full }
    ensures spans { reach.new.spans.items ≡ reach.old.spans.items }
{
    let at = reach.at(level, from, to);
    for before in span.first..span.end {
        let row = given(of, before, reach, &at);
        reach.next[before as usize] = row;
    }
}

impl Arcs {
    /// The useful arcs of the set, those that lie on a walk over all queues to `total` customers, stay; the others go.
    pub fn keep_useful(&mut self, reach: &mut Reach)
        ensures levels { self.new.levels ≡ self.old.levels }
        ensures total { self.new.total ≡ self.old.total }
        ensures arcs { (l s v : ℕ) → Listed self.new.arcs l s v ↔ Useful (Listed self.old.arcs) self.old.levels self.old.total l s v }
    {
        let total = self.total();
        let last = self.levels() - 1;
        tell_spans(self, 0, last, reach.spans.as_mut_slice());
        let spans = reach.spans.as_slice();
        let marks = &mut reach.changing;
        let stretch = Stretch {
            low: 0,
            start: 0,
            stop: last,
            high: last,
        };
        marks.mark(
            self,
            spans,
            Rule::any(),
            stretch,
            Sums::of(0),
            Sums::of(total),
        );
        for level in 0..last + 1 {
            self.keep_level(level, marks);
        }
    }

    // The reached arcs of queue `level` stay.
    fn keep_level(&mut self, level: u8, marks: &Marks)
        requires level { level < self.old.levels }
        ensures levels { self.new.levels ≡ self.old.levels }
        ensures total { self.new.total ≡ self.old.total }
        ensures own { (s v : ℕ) → Listed self.new.arcs level s v ↔ Keeps (Listed self.old.arcs) marks.now level s v }
        ensures others { (l s v : ℕ) → (l ≡ level → ⊥) → Listed self.new.arcs l s v ↔ Listed self.old.arcs l s v }
    {
        let total = self.total();
        let at = marks.at(level);
        for before in 0..total + 1 {
            let row = marks.kept(&at, self, level, before);
            self.put(level, before, row);
        }
    }

    /// The set of the arcs that a move makes of them: it takes a customer from queue `from` to queue `to` where the
    /// first holds at least `k`, 1 or more, and the second fewer than `room`. All arcs of the set are useful.
    ///
    /// The useful arcs of the states that it changes are shifted, and those of the states whose source is short, or
    /// whose target is full, stay. Only the move's queues and those between them are looked at: the arcs of the others
    /// stay as they are.
    // Kept out of the loop over the steps of a run: the loops of a step then have more registers.
    #[inline(never)]
    pub fn step(&mut self, from: u8, k: u16, to: u8, room: u16, reach: &mut Reach)
        requires source { from < self.old.levels }
        requires target { to < self.old.levels }
        requires apart { from ≢ to }
        requires some { 1 ≤ k }
        requires whole { (l s v : ℕ) → Listed self.old.arcs l s v → Useful (Listed self.old.arcs) self.old.levels self.old.total l s v }
        ensures levels { self.new.levels ≡ self.old.levels }
        ensures total { self.new.total ≡ self.old.total }
        ensures arcs { (l s v : ℕ) → Listed self.new.arcs l s v ↔ Joined (Listed self.old.arcs) self.old.levels self.old.total from k to room l s v }
    {
        reach.mark(self, from, k, to, room);
        let low = from.min(to);
        let high = from.max(to);
        for level in low..high + 1 {
            let span = reach.spans[level as usize];
            self.shift_level(level, span, from, to, reach);
        }
    }

    // Lets queue `level` have what the move makes of its arcs, all of which leave ends in the span.
    fn shift_level(&mut self, level: u8, span: Span, from: u8, to: u8, reach: &mut Reach)
        requires level { level < self.old.levels }
        requires span { IsSpan self.old.arcs self.old.total level span }
        requires shiftable { (s v : ℕ) → Listed self.old.arcs level s v → IsReached reach.old.changing level s v → IsShiftable from to self.old.total level s v }
        ensures levels { self.new.levels ≡ self.old.levels }
        ensures total { self.new.total ≡ self.old.total }
        ensures own { (s v : ℕ) → Listed self.new.arcs level s v ↔ Gives (Listed self.old.arcs) reach.old from to level s v }
        ensures others { (l s v : ℕ) → (l ≡ level → ⊥) → Listed self.new.arcs l s v ↔ Listed self.old.arcs l s v }
        ensures changing { reach.new.changing ≡ reach.old.changing }
        ensures short { reach.new.short ≡ reach.old.short }
        ensures full { reach.new.full ≡ reach.old.full }
        ensures spans { reach.new.spans.items ≡ reach.old.spans.items }
    {
        let total = self.total();
        let wide = widened(span, total);
        give_rows(self, level, wide, from, to, reach);
        for before in wide.first..wide.end {
            let row = reach.next[before as usize];
            self.put(level, before, row);
        }
    }
}
