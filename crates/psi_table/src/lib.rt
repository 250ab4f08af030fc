//! A table of samples of a network: comma-separated values (RFC 4180), a header and one row for each stream.
//!
//! A row tells the stream, the horizon at which its sample is met, the number of customers in each queue and the value
//! of each reward; where the sample isn't met, all fields but the stream are empty. A row of a table of paths has
//! their sums along the path that begins in the sample instead, and how often each event was chosen and changed the state.
//! [`NetRewards`] are the rewards that are summed. [`Rows`] writes a table of any length by way of a block: it allocates
//! when it is made, and no later.
#![tactic(auto)]

mod header;
mod line;
mod number;
mod path_header;
mod path_line;
mod rewards;
mod rows;

pub use path_line::Walked;
pub use psi_net_model::OutOfMemory;
pub use rewards::NetRewards;
pub use rows::Rows;
