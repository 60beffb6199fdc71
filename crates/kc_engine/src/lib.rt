//! The engine: a graph with levels that batches change, one after another.
//!
//! [`Engine`] is opened with a [`Shape`]. [`Engine::plan`] takes a cleaned batch, and either refuses it and changes
//! nothing, or runs its phases. The edges that leave are one phase, in which levels fall. The edges that come in are
//! the next one, in which levels rise. The [`BatchPlan`] has the entries of both, and is pending until [`Engine::show`]
//! or [`Engine::leave_unshown`]. [`Engine::show`] lets its phases take effect in a store, group by group, beside
//! readers.
//!
//! `specs/` has the definitions: read `States` first, then `Batches`, `Planning` and `Showing`. [`laws`] says what
//! follows from them.
//!
//! Floor: store and engine. From above: [`Engine`] by sessions and programs, and [`laws`] in proofs.
#![tactic(auto)]

mod engine;
mod faults;
pub mod laws;
mod phases;
mod plan_lists;
mod plans;
mod shape;
mod showing;
mod work;

pub use engine::Engine;
pub use faults::EngineFault;
pub use kc_history::MAX_PHASE;
pub use plan_lists::PhasePlans;
pub use plans::BatchPlan;
pub use shape::Shape;
