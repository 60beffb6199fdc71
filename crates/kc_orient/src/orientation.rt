//! The out-neighbours of each vertex. Each edge leads to the end that is above the other.
ghost use Rattle.std.specs.Prelude.{◌≡◌, ℕ, ◌<◌, ◌≤◌, [], All, length, slice_index_or};
ghost use Rattle.kc_graph.specs.declared.limits.TheConstants.{MAX_VERTICES};
ghost use Rattle.kc_graph.specs.Numbers.{RisesFrom};
ghost use Rattle.kc_orient.specs.Shape.{above, IsOriented};

use kc_levels::Levels;
use std::marker::Model;

/// The edges of a graph, each directed to the end that is above the other.
///
/// Contracts see it as an `OrientationShape`: the level of each vertex, and the out-neighbours of each.
#[derive(Drop)]
pub struct Orientation {
    // The level of each vertex, by which the edges were directed.
    pub(crate) levels: Levels,
    // The place in `heads` where the out-neighbours of each vertex begin, and at the end the number of edges.
    pub(crate) starts: Vec<u32>,
    // The out-neighbours of vertex 0, then those of vertex 1, and so on.
    pub(crate) heads: Vec<u32>,
}

impl Model for Orientation {
    ghost use Rattle.kc_orient.specs.Shape.{OrientationShape};
    ghost use Rattle.kc_orient.specs.Layout.{shape_of, IsKept};

    ghost Value = { OrientationShape };

    ghost view = { λ o. shape_of o.levels o.starts.items o.heads.items };

    ghost invariant = { λ o. IsKept o.levels o.starts.items o.heads.items };
}

/// Returns whether an edge between two vertices leads from `from` to `to`, since `to` is above `from`.
pub(crate) fn leads(levels: &[u16], from: u32, to: u32) -> bool
    requires from { from < length levels.now }
    requires to { to < length levels.now }
    ensures { result ≡ above levels.now from to }
{
    let low = levels[from as usize];
    let high = levels[to as usize];
    low < high || low == high && from < to
}

impl Orientation {
    /// Returns the out-neighbours of v, ascending: its neighbours that are above it. Costs O(1), and takes no memory.
    pub fn out(&self, v: u32) -> &[u32]
        requires { v < length self.now.levels }
        ensures value { result.now ≡ slice_index_or self.now.outs v [] }
        ensures ascending { RisesFrom 0 result.now }
        ensures below { All (λ w. w < length self.now.levels) result.now }
        ensures fewer { length result.now < length self.now.levels }
        ensures small { length self.now.levels ≤ MAX_VERTICES }
    {
        let start = self.starts[v as usize] as usize;
        let end = self.starts[v as usize + 1] as usize;
        &self.heads[start..end]
    }

    /// Returns whether w is above v, so that an edge between the two leads from v to w (`above`).
    ///
    /// That is: w is on a greater level than v, or on the same level with the greater number. Costs O(1), and takes no
    /// memory.
    pub fn above(&self, v: u32, w: u32) -> bool
        requires v { v < length self.now.levels }
        requires w { w < length self.now.levels }
        ensures { result ≡ above self.now.levels v w }
    {
        leads(self.levels.as_slice(), v, w)
    }

    // Returns the number of vertices.
    pub(crate) fn vertices(&self) -> u32
        ensures count { result ≡ length self.now.levels }
        ensures oriented { IsOriented self.now }
    {
        self.levels.as_slice().len() as u32
    }
}
