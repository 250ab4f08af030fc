//! What an event makes of states and of boxes, and what it has to make of them by a list of its images.

use psi_event::EventLaw;
use psi_state::{Bounds, State};

/// Whether the first state is componentwise at most the second.
pub(crate) fn is_below(x: &State, y: &State) -> bool {
    x.len() == y.len() && x.leq(y)
}

/// What the event makes of a state; none where that isn't within its capacities.
pub(crate) fn image<E: EventLaw>(event: &E, x: State) -> Option<State> {
    let caps = event.caps();
    if x.len() != caps.len() || !x.leq(&caps) {
        return None;
    }
    let mut y = x;
    event.apply(&mut y);
    Some(y)
}

/// What the event makes of the box of two corners; none where there is no such box within its capacities.
pub(crate) fn envelope<E: EventLaw>(event: &E, lo: State, hi: State) -> Option<Bounds> {
    let caps = event.caps();
    if lo.len() != hi.len() || hi.len() != caps.len() {
        return None;
    }
    if !lo.leq(&hi) || !hi.leq(&caps) {
        return None;
    }
    let mut around = Bounds::new(lo, hi);
    event.envelope(&mut around);
    Some(around)
}

// The box, widened so far that it holds the state.
fn widened(b: Bounds, x: &State) -> Bounds {
    let mut around = b;
    for i in 0..x.len() {
        if i < around.len() {
            let least = around.least(i).min(x.get(i));
            let greatest = around.greatest(i).max(x.get(i));
            around.set(i, least, greatest);
        }
    }
    around
}

/// The images of states: each stands where its state does.
#[derive(Clone, Copy)]
pub(crate) struct Images<'t> {
    /// The states.
    pub(crate) states: &'t [State],
    /// Their images.
    pub(crate) images: &'t [State],
}

impl Images<'_> {
    /// The least box around the images of the states of a box; none where none of the states is in it.
    pub(crate) fn around(&self, lo: &State, hi: &State) -> Option<Bounds> {
        let mut around = None;
        for (x, image) in self.states.iter().zip(self.images) {
            if is_below(lo, x) && is_below(x, hi) {
                around = match around {
                    None => Some(Bounds::new(*image, *image)),
                    Some(found) => Some(widened(found, image)),
                };
            }
        }
        around
    }

    // The image of a state; none where the state isn't listed.
    fn of(&self, x: &State) -> Option<State> {
        for (state, image) in self.states.iter().zip(self.images) {
            if state == x {
                return Some(*image);
            }
        }
        None
    }

    // Whether all states that are at least this one have images that are at least its image.
    fn keep_above(&self, x: &State, image: &State) -> bool {
        self.states
            .iter()
            .zip(self.images)
            .all(|(y, other)| !is_below(x, y) || is_below(image, other))
    }

    // Whether the images are in the states' order.
    fn keep_order(&self) -> bool {
        self.states
            .iter()
            .zip(self.images)
            .all(|(x, image)| self.keep_above(x, image))
    }

    // Whether two states are in order, and their images aren't.
    fn break_order(&self, x: &State, y: &State) -> bool {
        match (self.of(x), self.of(y)) {
            (Some(first), Some(second)) => is_below(x, y) && !is_below(&first, &second),
            _ => false,
        }
    }
}

/// Whether the event's mark is that of the images: it's monotone where they are in the states' order, and else it
/// shows two states in order whose images aren't.
pub(crate) fn is_marked<E: EventLaw>(event: &E, images: &Images<'_>) -> bool {
    let keeps = images.keep_order();
    if event.monotone() != keeps {
        return false;
    }
    match event.upset() {
        None => keeps,
        Some((x, y)) => !keeps && images.break_order(&x, &y),
    }
}
