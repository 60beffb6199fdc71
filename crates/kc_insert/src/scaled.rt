//! A graph with the thresholds for its number of vertices.

ghost use Rattle.std.specs.Prelude.{◌≡◌};

use kc_graph::Graph;
use kc_levels::Thresholds;

/// A graph, and the thresholds for its number of vertices.
#[derive(Clone, Copy)]
pub struct Scaled<'a> {
    /// The graph.
    pub graph: &'a Graph,
    /// How many neighbours each band of levels allows.
    pub th: &'a Thresholds,
    ghost scale: { th.now.vertices ≡ graph.now.vertices },
}
