//! Tests of the crates on graphs, levels and rounds; see `tests.rt`. Floor: tests. No crate calls this one.
#![tactic(auto)]

#[cfg(test)]
mod tests;
