//! A graph with how many neighbours each vertex counts.

ghost use Rattle.std.specs.Prelude.{◌≡◌, length};

use kc_graph::Graph;

/// A graph, and how many neighbours each vertex counts in it.
#[derive(Clone, Copy)]
pub struct Counted<'a> {
    /// The graph.
    pub graph: &'a Graph,
    /// How many neighbours each vertex counts.
    pub counts: &'a [u32],
    ghost sized: { length counts.now ≡ graph.now.vertices },
}
