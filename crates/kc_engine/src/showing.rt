//! Phases take effect in a store, one after another and group by group, by several workers.
//!
//! `show_phases` begins each phase of a batch. It cuts the moves of a group into ranges, one for each worker. It marks
//! the ranges side by side, publishes the group, and clears the ranges side by side. The ranges are lent to markers in
//! `MarkerPlaces`, so that no call takes memory. `specs/private/Lending` says how the markers change.

mod lending;
mod phases;
mod places;
mod planned;
mod show;
mod side_by_side;
mod sizes;

pub(crate) use phases::show_phases;
pub(crate) use places::MarkerPlaces;
pub(crate) use show::Show;
