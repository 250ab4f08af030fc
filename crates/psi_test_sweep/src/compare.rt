//! A table beside its network: what agrees, and a line for each thing that differs.

use crate::sweep::{Images, envelope, image, is_below, is_marked};
use crate::table::{Row, Table, Written};
use anyhow::bail;
use psi_event::EventLaw;
use psi_net::Net;
use psi_state::{Bounds, State};
use std::fmt;

/// How many events, states, boxes and marks agree with a table, and how many things differ. An event agrees where
/// nothing of it differs. The counts stand still at the greatest u64.
#[derive(Clone, Copy)]
pub(crate) struct Counts {
    events: u64,
    states: u64,
    boxes: u64,
    marks: u64,
    pub(crate) differing: u64,
}

impl Counts {
    // Nothing counted yet.
    fn none() -> Counts {
        Counts {
            events: 0,
            states: 0,
            boxes: 0,
            marks: 0,
            differing: 0,
        }
    }
}

impl fmt::Display for Counts {
    fn fmt<W: fmt::Write>(&self, f: &mut fmt::Formatter<W>) -> fmt::Result {
        write!(
            f,
            "{} events, {} states, {} boxes, {} marks",
            self.events, self.states, self.boxes, self.marks
        )
    }
}

// Counts a thing that agrees.
fn count(counter: &mut u64) {
    *counter = counter.saturating_add(1);
}

// An event's row of a table.
#[derive(Clone, Copy)]
struct Entry<'t> {
    table: &'t str,
    row: &'t Row,
    images: Images<'t>,
}

impl fmt::Display for Entry<'_> {
    fn fmt<W: fmt::Write>(&self, f: &mut fmt::Formatter<W>) -> fmt::Result {
        write!(
            f,
            "{}: event {} {}",
            self.table, self.row.name, self.row.server
        )
    }
}

// The event makes the row's images of the states.
fn compare_states<E: EventLaw>(
    rt: &impl Print,
    entry: &Entry<'_>,
    event: &E,
    counts: &mut Counts,
) -> anyhow::Result<()> {
    for (x, wanted) in entry.images.states.iter().zip(entry.images.images) {
        if image(event, *x) == Some(*wanted) {
            count(&mut counts.states);
        } else {
            println!(rt;
                "{entry}: state {} doesn't become {}",
                Written(*x),
                Written(*wanted)
            )?;
            count(&mut counts.differing);
        }
    }
    Ok(())
}

// The envelope of each box with this lower corner is the least box around the row's images of its states.
fn compare_boxes_from<E: EventLaw>(
    rt: &impl Print,
    entry: &Entry<'_>,
    event: &E,
    lo: &State,
    counts: &mut Counts,
) -> anyhow::Result<()> {
    for hi in entry.images.states {
        if !is_below(lo, hi) {
            continue;
        }
        let made = envelope(event, *lo, *hi);
        if made.is_some() && made == entry.images.around(lo, hi) {
            count(&mut counts.boxes);
        } else {
            println!(rt;
                "{entry}: another envelope from {} to {}",
                Written(*lo),
                Written(*hi)
            )?;
            count(&mut counts.differing);
        }
    }
    Ok(())
}

// The event makes of all states and of all boxes what its row says, and its mark is that of the row.
fn compare_event<E: EventLaw>(
    rt: &impl Print,
    entry: &Entry<'_>,
    event: &E,
    counts: &mut Counts,
) -> anyhow::Result<()> {
    compare_states(rt, entry, event, counts)?;
    for lo in entry.images.states {
        compare_boxes_from(rt, entry, event, lo, counts)?;
    }
    if is_marked(event, &entry.images) {
        count(&mut counts.marks);
    } else {
        println!(rt; "{entry}: another mark")?;
        count(&mut counts.differing);
    }
    Ok(())
}

// Whether the network's event of this number has the name and the server of a row.
fn is_of(net: &Net, number: u16, row: &Row) -> bool {
    number < net.events()
        && net.event_name(number).bytes() == row.name.as_bytes()
        && net.event_server(number) == row.server
}

// The network's event of this number is that of the row, and does what the row says.
fn compare_row(
    rt: &impl Print,
    entry: &Entry<'_>,
    net: &Net,
    number: u16,
    counts: &mut Counts,
) -> anyhow::Result<()> {
    let before = counts.differing;
    if !is_of(net, number, entry.row) {
        println!(rt; "{entry}: another event")?;
        count(&mut counts.differing);
    }
    if number < net.events() {
        let system = net.system();
        compare_event(rt, entry, system.event(number), counts)?;
    }
    if counts.differing == before {
        count(&mut counts.events);
    }
    Ok(())
}

// Whether a list has all states of these capacities, in lexicographic order.
fn are_all(states: &[State], caps: &State) -> bool {
    let whole = Bounds::whole(caps);
    let Some(most) = u32::try_from(states.len()).ok() else {
        return false;
    };
    for (state, listed) in whole.states().zip(states) {
        if state != *listed {
            return false;
        }
    }
    whole.volume_at_most(most) == Some(most)
}

/// Compares all rows of a table with the events of a network, prints a line for each thing that differs, and counts.
///
/// # Errors
///
/// Where the table's states aren't those of the network, or a line can't be printed.
pub(crate) fn compare_all(
    rt: &impl Print,
    name: &str,
    table: &Table,
    net: &Net,
) -> anyhow::Result<Counts> {
    let states = table.states.as_slice();
    if !are_all(states, &net.system().caps()) {
        bail!("its states aren't all states of the network");
    }
    let mut counts = Counts::none();
    let mut number: u16 = 0;
    for row in table.rows.as_slice() {
        let images = Images {
            states,
            images: row.images.as_slice(),
        };
        let entry = Entry {
            table: name,
            row,
            images,
        };
        compare_row(rt, &entry, net, number, &mut counts)?;
        number = number.saturating_add(1);
    }
    if number < net.events() {
        println!(rt; "{name}: events without a row: {}", net.events() - number)?;
        count(&mut counts.differing);
    }
    Ok(counts)
}
