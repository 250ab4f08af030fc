//! What each command replies about a network, over no file and no sink: the work from the network to the text.
//!
//! A text for out is a vector of bytes, so that it may fail for lack of memory. A line for err is built on the
//! stack: it does not allocate, and is written as one piece (`Line`).
//!
//! Each command has one function, which allocates, does the work and returns an `Ending`: a text for out
//! with its status, a refusal or a rejection, or `OutOfMemory`. What a command replies is defined in
//! `specs/Reply.antt`, what its text means in the file of its name: `Sample.antt`, `Check.antt`, and so on; there
//! coupling from the past is that of Propp and Wilson 1996, by regions (Bušić, Gaujal and Vincent 2008).
//!
//! What draws the samples of many streams by one plan is public too: `plan_for` and `next_sample`, and of a closed
//! network `moves_of`, `has_room`, `closed_plan` and `next_closed`.
#![tactic(auto)]

mod certify;
mod check;
mod closed;
mod couple;
mod ending;
mod exact;
mod lines;
mod pieces;
mod planning;
mod replay;
mod report;
mod reward;
mod sample;
mod surveys;
mod texts;
mod trial;

pub use certify::unmet_ending;
pub use check::check_ending;
pub use closed::{closed_ending, closed_plan, has_room, moves_of, next_closed};
pub use couple::couple_ending;
pub use ending::Ending;
pub use exact::exact_ending;
pub use lines::{
    Line, log_refused_line, log_rejected_line, log_unread_line, memory_line, network_unread_line,
    no_total_line, not_closed_line, refused_line, too_long_line, too_many_line, unknown_line,
    usage_line,
};
pub use pieces::{push_number_line, push_pieces, push_state};
pub use planning::{NetPlan, plan_for};
pub use replay::verdict_ending;
pub use report::{next_sample, report_ending};
pub use reward::reward_ending;
pub use sample::sample_ending;
pub use surveys::survey_text;
pub use texts::{accepted_text, coupling_text, outcome_text, value_text};
pub use trial::trial_ending;
