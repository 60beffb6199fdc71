//! Thresholds and levels: a level for each vertex of a graph, and what a level says of its vertex's coreness.
//!
//! [`Thresholds`] says how many neighbours a band of levels needs and allows, for a [`Profile`] and a number of
//! vertices. [`Levels`] is a level for each vertex. [`at_least`] counts the neighbours from a level on, and
//! [`check_upper`] and [`check_lower`] test one vertex. `specs/` has the definitions: read `Thresholds` first, then
//! `LevelList`.
//!
//! A band is a range of levels. The code and the definitions call it a group (`Thresholds::group`, `group_of`);
//! elsewhere a group is a group of vertices that move together.
//!
//! Floor: graph and levels. Every crate above may call it: it has the definitions of the two invariants.
#![tactic(auto)]

mod counts;
pub mod laws;
mod levels;
mod move_lists;
mod moved;
mod moves;
mod profile;
mod thresholds;

pub use counts::{at_least, check_lower, check_upper};
pub use levels::Levels;
pub use move_lists::Moves;
pub use moved::moves_of;
pub use moves::Move;
pub use profile::Profile;
pub use thresholds::{Estimate, Thresholds};
