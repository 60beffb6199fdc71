//! Insertion phases: edges come into a level adjacency, and the levels rise to the least ones that meet the upper
//! invariant.
//!
//! [`insert_phase`] runs one phase, with an [`InsertionWork`] that is kept between phases. [`insert_rounds`] makes a
//! workspace of its own. A phase links its edges (`linking`), and files the ends that count too many neighbours
//! (`filing`). Then `sweeping` sweeps over the levels, from the lowest up. `work` lifts the vertices that rose.
//!
//! The vertices are cut into ranges (`layout`). `rising` has the levels during a sweep, `range` all else of one range,
//! and `ranges` all ranges. `passes` has the two passes of a step over rows, and `sharing` deals them to threads.
//!
//! `specs/` has the definitions: read `Ranges` first, then `Working`. In `specs/private` read `Sweeping` first, then
//! `Crossing` and `LevelStep`. The levels afterwards are defined by `IsRaised` of `kc_levels`.
//!
//! Floor: phases. From above: [`insert_phase`] and [`InsertionWork`] by the engine.
#![tactic(auto)]

mod counted;
mod filing;
mod insertion;
mod layout;
mod linking;
mod meetings;
mod passes;
mod range;
mod ranges;
mod rising;
mod scaled;
mod sharing;
mod sweep;
mod sweeping;
mod telling;
mod watched;
mod work;

pub use insertion::{Tally, insert_phase, insert_rounds};
pub use layout::Layout;
pub use work::InsertionWork;
