//! Undirected graphs whose vertices are the numbers below n.
//!
//! A [`Graph`] keeps the neighbours of each vertex in order; contracts see it as n and the ascending list of its edges.
//! An [`Item`] asks for one change of a graph. [`clean`] reduces the items of a batch to the edges that leave and the
//! edges that come in. `specs/` has the definitions: read `Shape` first, then `Cleaning`; [`laws`] has what is proved
//! of them.
//!
//! Floor: graph and levels, the lowest crate there. Every crate above may call it. Sessions and `kserve` clean batches
//! by [`clean_by`], and phases link and unlink edges by the calls of [`Graph`]. A [`Crew`] is the workers of a call
//! that threads share, here and above.
#![tactic(auto)]

mod buckets;
mod cleaning;
mod crew;
mod degree_list;
mod edge_lists;
mod edges;
mod graphs;
mod halves;
mod items;
mod keys;
mod later;
pub mod laws;
mod limits;
mod links;
mod lists;
mod merging;
mod numbers;
mod rows;
mod sharing;
mod sorted_halves;
mod sorted_keys;
mod sorting;
mod touched;
mod walking;

pub use cleaning::{Cleaned, clean, clean_by};
pub use crew::Crew;
pub use degree_list::degrees;
pub use edge_lists::Edges;
pub use edges::Edge;
pub use graphs::Graph;
pub use items::Item;
pub use limits::{MAX_EDGES, MAX_ITEMS, MAX_VERTICES};
pub use lists::List;
pub use numbers::sort_numbers;
