//! The form of a table file, and its reader.
//!
//! A table says what each event of a network makes of every state. It is read line by line; the words of a line are
//! parted by single spaces, and a state is written as its numbers of customers parted by commas. An empty line means
//! nothing.
//!
//! | Line | Means |
//! |---|---|
//! | `network FILE` | the network file that the table is about |
//! | `states STATE STATE ..` | all states of the network, in lexicographic order |
//! | `event NAME SERVER STATE STATE ..` | the next event, expanded over servers, with what it makes of each state |

use anyhow::{Context, bail};
use psi_state::State;
use std::alloc::Global;
use std::{fmt, str};

/// An event's row of a table.
#[derive(Drop)]
pub(crate) struct Row {
    /// The event's name.
    pub(crate) name: String,
    /// The number of its server, counted from 1.
    pub(crate) server: u16,
    /// What it makes of each state, as many as the table has states and in their order.
    pub(crate) images: Vec<State>,
}

/// What the events of a network make of every state.
#[derive(Drop)]
pub(crate) struct Table {
    /// The path of the network file.
    pub(crate) network: String,
    /// The states.
    pub(crate) states: Vec<State>,
    /// The events' rows, in order.
    pub(crate) rows: Vec<Row>,
}

impl Table {
    /// The table of a file's bytes.
    ///
    /// # Errors
    ///
    /// Where they aren't of the form above, a row hasn't one image for each state, or an allocation fails.
    pub(crate) fn read(alloc: Global, bytes: &[u8]) -> anyhow::Result<Table> {
        let mut table = Table {
            network: String::new(alloc),
            states: Vec::new(alloc),
            rows: Vec::new(alloc),
        };
        for (place, line) in bytes.split(|byte| *byte == b'\n').enumerate() {
            let number = place.saturating_add(1);
            let line = str::from_utf8(line).ok().context("no UTF-8")?;
            table
                .take_line(alloc, line)
                .context(format_args!("line {number}"))?;
        }
        Ok(table)
    }

    // Takes the next line.
    fn take_line(&mut self, alloc: Global, line: &str) -> anyhow::Result<()> {
        let (key, value) = line.split_once(' ').unwrap_or((line, ""));
        match key {
            "" => {}
            "network" => self.network = String::from_str(alloc, value)?,
            "states" => self.states = states_of(alloc, value)?,
            "event" => {
                let row = row_of(alloc, value)?;
                if row.images.len() != self.states.len() {
                    bail!("not one image for each state");
                }
                self.rows.push(row)?;
            }
            _ => bail!("no such key"),
        }
        Ok(())
    }
}

// The row of an event that stands after its key.
fn row_of(alloc: Global, text: &str) -> anyhow::Result<Row> {
    let (name, rest) = text.split_once(' ').context("an event without its server")?;
    let (server, rest) = rest.split_once(' ').context("an event without its images")?;
    Ok(Row {
        name: String::from_str(alloc, name)?,
        server: server.parse().ok().context("a server that is no number")?,
        images: states_of(alloc, rest)?,
    })
}

// The states that are written one after another.
fn states_of(alloc: Global, text: &str) -> anyhow::Result<Vec<State>> {
    let mut states = Vec::new(alloc);
    for word in text.split(' ') {
        let state = state_of(word).context(format_args!("{word} is no state"))?;
        states.push(state)?;
    }
    Ok(states)
}

// The state of a word; none where it isn't the numbers of customers of 1 to 32 queues, parted by commas.
fn state_of(word: &str) -> Option<State> {
    let count = word.split(',').count();
    if count < 1 || 32 < count {
        return None;
    }
    let mut state = State::zero(count as u8);
    for (queue, number) in word.split(',').enumerate() {
        if queue < state.len() as usize {
            state.set(queue as u8, number.parse().ok()?);
        }
    }
    Some(state)
}

/// A state as tables have it.
#[derive(Clone, Copy)]
pub(crate) struct Written(pub(crate) State);

impl fmt::Display for Written {
    fn fmt<W: fmt::Write>(&self, f: &mut fmt::Formatter<W>) -> fmt::Result {
        for queue in 0..self.0.len() {
            if queue > 0 {
                write!(f, ",")?;
            }
            write!(f, "{}", self.0.get(queue))?;
        }
        Ok(())
    }
}
