//! Means, shares, quantiles and differences over the samples of many streams, by counting lists of pasts: of all lists of k pasts, few
//! give samples whose mean is far from the stationary mean, and an interval that has a certificate in whole numbers misses
//! it for few. Each function does nothing: its contract is the law. How random words are drawn is no part of it.
#![tactic(auto)]

mod closed;
mod differences;
mod samples;

pub use closed::{law_of_many_closed_network, law_of_many_closed_samples};
pub use differences::{law_of_closed_differences, law_of_differences};
pub use samples::{law_of_many_network, law_of_many_samples};
