//! The groups of vertices that move together in a phase, as entries of the history.
//!
//! Two vertices that move in a phase are linked if they share an edge before or after the phase. A group is the
//! vertices that links connect, and its label is its least vertex. [`plan_moves`] makes a [`PhasePlan`] of a [`Phase`],
//! with the threads of a crew and with a [`GroupWork`] that is kept between phases. The plan has a quiet entry, of the
//! edges without an end that moves, and an entry for each group. [`plan_phase`] makes the same from the levels before
//! and after.
//!
//! `specs/` has the definitions: read `Links` first, then `Entries` and `WellFormed`; `Gathering` has what is required
//! of moves. [`laws`] says what follows from them.
//!
//! Floor: graph and levels. From above: plans by the engine; [`PhasePlan`] in the store and in texts; [`laws`] in
//! proofs.
#![tactic(auto)]

mod dealing;
mod forest;
pub mod laws;
mod linking;
mod moved;
mod pieces;
mod planning;
mod plans;
pub mod sizes;
mod spares;
mod work;

pub use planning::{plan_moves, plan_phase};
pub use plans::{Phase, PhasePlan};
pub use work::GroupWork;
