//! Helpers for tests and benchmarks of the store and of the intake. They are an engine whose batches a store shows,
//! readers of that store, and clients of an intake beside a server that drains it.
//!
//! Nothing here ends a test: a call returns `None` or `false` if something doesn't fit.
//!
//! Floor: tests. Called by `store_tests` and `intake_bench`.
#![tactic(auto)]

pub mod clients;
pub mod items;
pub mod readers;
pub mod trial;
