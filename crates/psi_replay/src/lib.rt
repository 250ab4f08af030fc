//! The replay of logs: a log is accepted as the certificate of its state, whoever wrote it, or rejected at the
//! first line that breaks a rule.
//!
//! A log of coupling from the past (Propp and Wilson 1996) has for each step a region of states. It is
//! accepted where its first region is all states, each region holds what the step's event makes of the one
//! before, and the last one has a single state; so the checker needs to believe nothing of the sampler.
#![tactic(auto)]

mod answers;
mod causes;
mod covering;
mod judging;
mod passing;
mod progress;
mod regions;
mod replay;
mod sets;
mod stream;

pub use answers::Verdict;
pub use causes::RuleCause;
pub use replay::{replay_text, verdict};
pub use stream::StreamReplay;
