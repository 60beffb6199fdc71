//! Deletion rounds: edges leave a graph with levels, and the levels fall to the greatest ones that meet the lower
//! invariant.
//!
//! [`delete_phase`] runs one phase on a [`kc_adj::LevelAdj`], with a [`DeletionWork`] that is kept between phases.
//! [`delete_rounds`] makes a workspace of its own. `waiting` gives the vertices that may fall, one round after another.
//! `settling` lets them fall, and `fallen` notes them. `specs/` has the invariants of the rounds: read `Settling`
//! first, then `Waiting` and `Working`. The levels afterwards are defined by `IsLowered` of `kc_levels`.
//!
//! Floor: phases. From above: [`delete_phase`] and [`DeletionWork`] by the engine.
#![tactic(auto)]

mod capped;
mod fallen;
mod rounds;
mod settling;
mod short;
mod waiting;
mod work;

pub use rounds::{Tally, delete_phase, delete_rounds};
pub use work::DeletionWork;
