//! A dense part of a graph: vertices that have many edges between them for their number.
//!
//! Peeling takes the vertices of a graph away one after another. Each time it takes the vertex with the fewest
//! neighbours left, of several the least. The densest suffix of this list is at least half as dense as any set of
//! vertices: [`densest`] finds it.
//!
//! `specs/` has the definitions: read `Sets` first, then `Dense`.
//!
//! Floor: graph and levels. From above: [`densest`] by programs, and [`laws`] in proofs.
#![tactic(auto)]

mod dense_part;
pub mod laws;
mod peeling;
mod remaining;
mod tournament;

pub use dense_part::{Dense, densest};
