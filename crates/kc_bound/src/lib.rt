//! Coreness: how deep a vertex lies in its graph, and what the levels of a graph say of it.
//!
//! A k-core is a set of vertices each of which has at least k neighbours in it. The coreness of a vertex is the
//! greatest k of a k-core that holds it. [`exact_coreness`] computes it for each vertex, and `laws` has what the
//! invariants of the levels say of it. `specs/` has the definitions: read `Cores` first, then `Laws`.
//!
//! Floor: graph and levels. From above: [`exact_coreness`] by programs, and [`laws`] in proofs.
#![tactic(auto)]

mod exact;
pub mod laws;

pub use exact::exact_coreness;
