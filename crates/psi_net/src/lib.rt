//! The network file: reading a queueing network from the bytes of a TOML document.
//!
//! `net_of` gives the network of a file's bytes, or the first refusal. The definition of both,
//! `specs/Reading.antt` with the files that it names, has one part for each key, table and array of the
//! format, in the format's order, and each part has one function here that meets it. The events of a
//! network are expanded over the servers of their sources.
//!
//! ```toml
//! version = 1
//! [[queue]]
//! name = "a"
//! capacity = 2
//! [[event]]
//! name = "in"
//! kind = "arrival"
//! rate = 1
//! to = ["a"]
//! [[event]]
//! name = "out"
//! kind = "service"
//! rate = 2
//! from = "a"
//! ```
#![tactic(auto)]

mod event_tables;
mod kind_tables;
mod known_queues;
mod net_error;
mod part_tables;
mod queue_tables;
mod reading;
mod reward_tables;
mod words;

pub use net_error::NetError;
pub use psi_net_document::{NetRefusal, Section};
pub use psi_net_model::{Name, Net, OutOfMemory, generated};
pub use reading::net_of;
