//! The result of a batch.

use kc_engine::PhasePlans;

/// The effect of a batch on the graph and the levels.
#[derive(Drop)]
pub struct Applied {
    /// The number of edges that came in.
    pub added: usize,
    /// The number of edges that left.
    pub removed: usize,
    /// The number of moves in all phases of the batch: at most twice the number of vertices.
    pub moves: u32,
    /// The phases of the batch in order, each with the groups of vertices that moved at once. The edges that left are
    /// the first phase, and those that came in the last one. A phase without edges is left out.
    pub phases: PhasePlans,
}
