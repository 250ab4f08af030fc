//! Tests of the crates of the core: what no clause and no text shows. They stand here since a crate that has a
//! test is proved once more with it.
#![tactic(auto)]

#[cfg(test)]
mod tests;
