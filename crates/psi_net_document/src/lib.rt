//! Reading a document: its places, why something is refused there, and the values of its keys.
//!
//! A document is a TOML table. Each reading takes what a look-up of a key found, and gives a value or the
//! refusal at that key; one reading after another, the first refusal is the answer. No reading here allocates,
//! so none can run out of memory. Names refer to the
//! queues that were read before ([`KnownNames`]).
#![tactic(auto)]

mod digests;
mod keys;
mod known_names;
mod names;
mod references;
mod refusals;

pub use keys::{
    array_in, counted_in, elements_in, find, integer_in, integer_or_zero, no_unknown, number_in,
    number_or, present, required_number, table_in, text_in,
};
pub use known_names::KnownNames;
pub use names::{required_name, unless_taken};
pub use references::{
    queue_in, required_queue, required_target, required_targets, some_targets_in, target_in,
    targets_in,
};
pub use refusals::{MOST_NET_BYTES, NetCause, NetRefusal, Place, Section};
