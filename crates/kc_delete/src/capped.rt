//! A graph with levels, none of which is above the top of the thresholds.

ghost use Rattle.kc_levels.specs.LevelList.{IsWithin};

use kc_adj::LevelAdj;
use kc_levels::Thresholds;

/// A graph with its levels, and the thresholds for its number of vertices. No level is above their top.
#[derive(Clone, Copy)]
pub struct Capped<'a> {
    /// The graph with its levels.
    pub adj: &'a LevelAdj,
    /// How many neighbours each band of levels needs.
    pub th: &'a Thresholds,
    ghost within: { IsWithin th.now adj.now.graph adj.now.levels },
}
