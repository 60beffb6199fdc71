//! The mark of a vertex in one word: its new level, and the label and phase of the group with which it moves.
//!
//! A store of levels keeps a [`Mark`] for each vertex, so that a reader loads all of it at once. [`pack`] and
//! [`unpack`] go from one form to the other. `specs/Packed` has the bits, and [`laws`] says that nothing is lost.
//!
//! Floor: store and engine. It stands on std alone. From above: [`pack`], [`unpack`], and [`laws`] in proofs.
#![tactic(auto)]

pub mod laws;
mod marks;
mod packing;

pub use marks::Mark;
pub use packing::{pack, unpack};
