//! A sparse orientation of a graph by the levels of its vertices, and a colouring by it.
//!
//! [`orient`] directs each edge to the end that is above the other: on a greater level, or on the same level with the
//! greater number. If the levels meet the upper invariant, no vertex has many out-neighbours. That serves counting of
//! triangles and queries for an edge. [`colour`] gives each vertex the least colour that none of its out-neighbours
//! has. `specs/` has the definitions: read `Shape` and `Colouring` first, then `Laws`; [`laws`] has what is proved of
//! them.
//!
//! Floor: graph and levels. From above: [`orient`] and [`colour`] by programs, and [`laws`] in proofs.
#![tactic(auto)]

mod colouring;
mod descent;
pub mod laws;
mod orientation;
mod orienting;

pub use colouring::colour;
pub use orientation::Orientation;
pub use orienting::orient;
