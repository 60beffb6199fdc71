//! Tests of the crates whose values are texts; see `tests.rt`. Floor: tests. No crate calls this one.
#![tactic(auto)]

#[cfg(test)]
mod tests;
