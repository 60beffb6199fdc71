//! A vertex that stands on its level.

ghost use Rattle.std.specs.Prelude.{◌<◌};
ghost use Rattle.kc_levels.specs.LevelList.{IsWithinAt};

use crate::level_adj::LevelAdj;
use kc_levels::Thresholds;

/// A vertex on its level, and the thresholds for the graph's number of vertices. The level is at most their top.
#[derive(Clone, Copy)]
pub struct Standing<'a> {
    /// The graph with its levels.
    pub adj: &'a LevelAdj,
    /// How many neighbours each band of levels needs.
    pub th: &'a Thresholds,
    /// The vertex.
    pub v: u32,
    ghost vertex: { v < adj.now.graph.vertices },
    ghost within: { IsWithinAt th.now adj.now.graph adj.now.levels v },
}
