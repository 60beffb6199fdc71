//! Tests of kc_store, kc_engine, kc_session, kc_intake and kc_service, a file or two for each. `rt try --test` in this
//! crate's folder runs them all without a proof. What they share stands in `support`. What they share with the programs
//! that measure stands in the crate `store_support`.
//!
//! A test calls `drop` for a value that has an engine. If the value ended with its scope instead, the proof of the test
//! would take a minute.
mod engine;
mod intake;
mod loads;
mod readers;
mod service;
mod session;
mod showing;
mod store;
mod support;
mod turns;
