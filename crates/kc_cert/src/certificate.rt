//! A certificate as a value: the result of reading its text, and what is written as its text.

use kc_graph::Graph;
use kc_levels::{Levels, Profile};

/// A graph, a level for each of its vertices, and the profile of the thresholds for these levels.
#[derive(Drop)]
pub struct Certificate {
    /// The profile of the thresholds.
    pub profile: Profile,
    /// The graph.
    pub graph: Graph,
    /// The level of each vertex, from vertex 0 on.
    pub levels: Levels,
}
