//! The survey of the composed map: how fast it loses states, and when it is constant.

ghost use Rattle.std.specs.Prelude.{◌≡◌, ℕ, ◌+◌, ◌^◌, ◌<◌, ◌≤◌, List, length, map};
ghost use Rattle.psi_state.specs.State.{all_states};
ghost use Rattle.psi_rate.specs.Composition.{compose, picked, system_functions};
ghost use Rattle.psi_rate.specs.Outcomes.{meeting_at};
ghost use Rattle.psi_rate.specs.System.{IsSystem};
ghost use Rattle.psi_exact.specs.Mapping.{map_of};
ghost use Rattle.psi_exact.specs.Inner.ImagesKept.{AreImages, AreKnown};
ghost use Rattle.psi_exact.specs.Inner.RankTableKept.{IsFollowed};
ghost use Rattle.psi_exact.specs.Sizes.{image_sizes};
ghost use Rattle.psi_exact.specs.Surveys.{meeting_of, meeting_within, IsMeeting, ReachesMeeting, MeetsBelow};

use crate::answers::{Meeting, Survey};
use crate::learned::LearnedImages;
use crate::map_table::MapTable;
use crate::rank_table::RankTable;
use crate::sizes::Sizes;
use psi_event::EventLaw;
use psi_past::Past;
use psi_rate::System;
use psi_state::State;

// A system, and what its first events make of all states, as far as that is known.
#[derive(Drop)]
struct Learned<'s, 'n, E: EventLaw> {
    system: &'s System<'n, E>,
    images: &'s LearnedImages,
}

/// Follows all states through the last 2 to the power `h` steps, with `h` from 0 to 12: the number of
/// states that are left at each power of two, and the least horizon of any length at which one is left,
/// with that state (Propp and Wilson 1996). `NotConstant` comes exactly where there is no such horizon,
/// and has `h`.
///
/// The events are put before the map from the last one backwards in time, so each word is read once. What
/// the first events of the system make of all states is learned before that, as far as there is room, so
/// that their steps only look up ranks. An idle step changes nothing, and a constant map stays as it is.
///
/// The table is one of the system's capacities; afterwards it has the map of the last 2 to the power `h`
/// steps. The past's words stay as they were. The call does not allocate.
pub fn survey<E: EventLaw, P: Past>(
    system: &System<'_, E>,
    past: &mut P,
    table: &mut MapTable,
    h: u8,
) -> Survey
    requires same_caps { table.old.caps ≡ system.now.caps }
    requires most { h ≤ 12 }
    ensures sizes { result.sizes ≡ image_sizes (system_functions E.function system.now (P.words past.old)) system.now.caps h }
    ensures meeting { let f = system_functions E.function system.now (P.words past.old) in
        result.meeting ≡ meeting_within (meeting_at f system.now.caps) h }
    ensures least { let f = system_functions E.function system.now (P.words past.old) in
        IsMeeting (meeting_at f system.now.caps) h result.meeting }
    ensures reached { ReachesMeeting (system_functions E.function system.now (P.words past.old)) system.now.caps result.meeting }
    ensures within { MeetsBelow system.now.caps result.meeting }
    ensures map { table.new ≡ map_of system.now.caps (compose (system_functions E.function system.now (P.words past.old)) (2 ^ h)) }
    ensures words { P.words past.new ≡ P.words past.old }
{
    // Called for its clause: the events are of the system's capacities.
    let _caps = system.caps();
    learn(system, &mut table.table, &mut table.images, 1 << h);
    let learned = Learned {
        system,
        images: &table.images,
    };
    follow_all(&learned, past, &mut table.table, h)
}

// Learns the first events of the system, at most `most`, as far as there is space.
fn learn<E: EventLaw>(
    system: &System<'_, E>,
    table: &mut RankTable,
    images: &mut LearnedImages,
    most: u16,
)
    requires fit { IsSystem E.capacities system.now }
    requires same_caps { table.old.caps ≡ system.now.caps }
    requires valid { AreImages (length (all_states system.now.caps)) images.old }
    ensures same { table.new ≡ table.old }
    ensures known { AreKnown system.now.caps (map E.function system.now.events) images.new }
{
    images.clear();
    for number in 0..system.wheel().events().min(most) {
        if !table.add_images(system.event(number), images) {
            return;
        }
    }
}

// The survey, where the first events are learned.
fn follow_all<E: EventLaw, P: Past>(
    learned: &Learned<'_, '_, E>,
    past: &mut P,
    table: &mut RankTable,
    h: u8,
) -> Survey
    requires fit { IsSystem E.capacities learned.now.system.now }
    requires same_caps { table.old.caps ≡ learned.now.system.now.caps }
    requires most { h ≤ 12 }
    requires known { AreKnown learned.now.system.now.caps (map E.function learned.now.system.now.events) learned.now.images.now }
    ensures sizes { result.sizes ≡ image_sizes (system_functions E.function learned.now.system.now (P.words past.old)) learned.now.system.now.caps h }
    ensures least { let f = system_functions E.function learned.now.system.now (P.words past.old) in
        IsMeeting (meeting_at f learned.now.system.now.caps) h result.meeting }
    ensures map { table.new ≡ map_of learned.now.system.now.caps (compose (system_functions E.function learned.now.system.now (P.words past.old)) (2 ^ h)) }
    ensures words { P.words past.new ≡ P.words past.old }
{
    table.reset();
    let mut found = follow(learned, past, table, 0, 1, None);
    let mut sizes = Sizes::one(table.image_size());
    for exponent in 1..h + 1 {
        let horizon = 1 << exponent;
        found = follow(learned, past, table, horizon / 2, horizon, found);
        sizes.push(table.image_size());
    }
    Survey {
        sizes,
        meeting: told(found, h),
    }
}

// The first meeting, if one was found.
fn told(found: Option<(u32, State)>, exponent: u8) -> Meeting
    ensures { result ≡ meeting_of exponent found }
{
    match found {
        Some((horizon, state)) => Meeting::Constant { horizon, state },
        None => Meeting::NotConstant { exponent },
    }
}

// Goes on from the map of the last `from` steps to that of the last `to`, and returns the least horizon at
// which it is constant, if it was found.
fn follow<E: EventLaw, P: Past>(
    learned: &Learned<'_, '_, E>,
    past: &mut P,
    table: &mut RankTable,
    from: u32,
    to: u32,
    found: Option<(u32, State)>,
) -> Option<(u32, State)>
    requires fit { IsSystem E.capacities learned.now.system.now }
    requires order { from ≤ to }
    requires known { AreKnown learned.now.system.now.caps (map E.function learned.now.system.now.events) learned.now.images.now }
    requires followed { IsFollowed (system_functions E.function learned.now.system.now (P.words past.old)) learned.now.system.now.caps from table.old found }
    ensures followed { IsFollowed (system_functions E.function learned.now.system.now (P.words past.new)) learned.now.system.now.caps to table.new result }
    ensures words { P.words past.new ≡ P.words past.old }
{
    let mut least = found;
    for place in from..to {
        least = step(learned, past, table, place, least);
    }
    least
}

// Goes on from the map of the last `place` steps to that of one step more, whose word stands at that place.
fn step<E: EventLaw, P: Past>(
    learned: &Learned<'_, '_, E>,
    past: &mut P,
    table: &mut RankTable,
    place: u32,
    found: Option<(u32, State)>,
) -> Option<(u32, State)>
    requires fit { IsSystem E.capacities learned.now.system.now }
    requires few { place < 4294967295 }
    requires known { AreKnown learned.now.system.now.caps (map E.function learned.now.system.now.events) learned.now.images.now }
    requires followed { IsFollowed (system_functions E.function learned.now.system.now (P.words past.old)) learned.now.system.now.caps place table.old found }
    ensures followed { IsFollowed (system_functions E.function learned.now.system.now (P.words past.new)) learned.now.system.now.caps (place + 1) table.new result }
    ensures words { P.words past.new ≡ P.words past.old }
{
    if found.is_some() {
        return found;
    }
    let word = past.word(place);
    put_before(learned, word, table);
    match table.constant() {
        Some(state) => Some((place + 1, state)),
        None => None,
    }
}

// Puts the event of a word before the map of the table; an idle word changes nothing.
fn put_before<E: EventLaw>(learned: &Learned<'_, '_, E>, word: u32, table: &mut RankTable)
    requires fit { IsSystem E.capacities learned.now.system.now }
    requires same_caps { table.old.caps ≡ learned.now.system.now.caps }
    requires known { AreKnown learned.now.system.now.caps (map E.function learned.now.system.now.events) learned.now.images.now }
    ensures { (f : List ℕ → List ℕ) → table.old ≡ map_of learned.now.system.now.caps f
        → table.new ≡ map_of learned.now.system.now.caps (λ x. f (picked (map E.function learned.now.system.now.events) learned.now.system.now.rates word x)) }
{
    let (number, event) = learned.system.pick(word);
    if number < learned.images.known {
        table.follow(learned.images.of(number));
        return;
    }
    match event {
        Some(event) => table.older(event),
        None => {}
    }
}
