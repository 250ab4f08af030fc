//! Outside values, calls that allocate, generic calls, and which events declare their pieces, worked out by hand.

mod covering;
mod forms;
mod keys;
mod logs;
mod plans;
mod states;
