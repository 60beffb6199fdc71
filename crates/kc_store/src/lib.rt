//! Levels that any number of readers look up while a writer moves them, one group of vertices after another.
//!
//! A [`Store`] has the levels in an atomic table with the rule of `specs/private/Rule`. The [`Writer`] begins a phase
//! with its plan, marks the moves of a group, and publishes the group by one store. From then on each reader finds all
//! vertices of the group on their new levels. A reader has a [`Pass`], and [`Store::read`] returns the level of a
//! vertex at a point of the one history. It takes no lock and never starts again. The writer may lend ranges of moves
//! to [`Marker`]s in other threads.
//!
//! Points and levels are those of `kc_history`. `specs/States` says how each call changes the state of the writer.
//!
//! Floor: store and engine. From above: the engine shows its phases by a [`Writer`] and its [`Marker`]s. Sessions and
//! programs open a [`Store`], and read it by a [`Pass`] each reader.
#![tactic(auto)]

mod marker;
mod moves;
mod roles;
mod rule;
mod store;
mod writer;

pub use marker::Marker;
pub use roles::{Loan, MarkerState, Pending, Role, WriterState};
pub use store::{Pass, Store};
pub use writer::Writer;
