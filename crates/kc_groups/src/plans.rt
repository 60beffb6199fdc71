//! A phase that is to be planned, and its plan.

use kc_graph::Edge;
use kc_history::{Entries, Entry, Moves};

/// A phase: its number, its direction, its edges, and the moves of the vertices that it moves.
#[derive(Drop)]
pub struct Phase<'a> {
    /// The number of the phase, from 1 on.
    pub number: u32,
    /// Whether its edges come in. Otherwise they leave.
    pub add: bool,
    /// The edges that come in or leave, ascending.
    pub edges: &'a [Edge],
    /// The moves of the vertices that it moves, ascending.
    pub moves: &'a Moves,
}

/// The plan of a phase: its entries.
#[derive(Drop)]
pub struct PhasePlan {
    /// The entry of the edges without an end that moves. It has no label and no moves.
    pub quiet: Entry,
    /// An entry for each group of vertices that move together, labels ascending. Each has the moves of its vertices,
    /// ascending, and the edges with an end among them.
    pub groups: Entries,
}
