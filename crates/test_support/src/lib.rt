//! Helpers for tests of several crates: graphs from pairs, random numbers and gates.
//!
//! Nothing here ends a test: a call returns `None` or `false` if something doesn't fit, and the test checks that.
//!
//! Floor: tests. Called by the crates of tests, and by `intake_bench`.
#![tactic(auto)]

pub mod gates;
pub mod graphs;
pub mod random;
