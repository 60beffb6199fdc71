//! How the counts change when an edge comes in or leaves.

ghost use Rattle.std.specs.Prelude.{◌≡◌, ◌<◌, ◌≤◌, ◌^◌, length, slice_index};
ghost use Rattle.kc_adj.specs.LeveledGraph.{IsAdjacency};
ghost use Rattle.kc_adj.specs.private.Linking.{share, linked, unlinked, AwaitsEdges, LosesEdges};

use crate::counts::{Counts, as_one};
use kc_graph::{Edge, Graph};
use kc_levels::Levels;

/// Counts an edge between a and b that came in, in both counts of each end.
pub fn count_edge(levels: &Levels, counts: &mut Counts, a: u32, b: u32)
    requires order { a < b }
    requires within { b < length levels.now }
    requires own_sized { length counts.old.own.items ≡ length levels.now }
    requires below_sized { length counts.old.below.items ≡ length levels.now }
    requires own { (slice_index counts.old.own.items a < 2 ^ 31) × (slice_index counts.old.own.items b < 2 ^ 31) }
    requires below { (slice_index counts.old.below.items a < 2 ^ 31) × (slice_index counts.old.below.items b < 2 ^ 31) }
    ensures own { counts.new.own.items ≡ linked levels.now 0 a b counts.old.own.items }
    ensures below { counts.new.below.items ≡ linked levels.now 1 a b counts.old.below.items }
{
    let (low, high) = (levels.get(a), levels.get(b));
    counts.own[a as usize] += as_one(low <= high);
    counts.own[b as usize] += as_one(high <= low);
    counts.below[a as usize] += as_one(low.saturating_sub(1) <= high);
    counts.below[b as usize] += as_one(high.saturating_sub(1) <= low);
}

/// Removes an edge between a and b from both counts of each end.
pub fn uncount_edge(levels: &Levels, counts: &mut Counts, a: u32, b: u32)
    requires order { a < b }
    requires within { b < length levels.now }
    requires own_sized { length counts.old.own.items ≡ length levels.now }
    requires below_sized { length counts.old.below.items ≡ length levels.now }
    requires own { (share levels.now 0 a b ≤ slice_index counts.old.own.items a) × (share levels.now 0 b a ≤ slice_index counts.old.own.items b) }
    requires below { (share levels.now 1 a b ≤ slice_index counts.old.below.items a) × (share levels.now 1 b a ≤ slice_index counts.old.below.items b) }
    ensures own { counts.new.own.items ≡ unlinked levels.now 0 a b counts.old.own.items }
    ensures below { counts.new.below.items ≡ unlinked levels.now 1 a b counts.old.below.items }
{
    let (low, high) = (levels.get(a), levels.get(b));
    counts.own[a as usize] -= as_one(low <= high);
    counts.own[b as usize] -= as_one(high <= low);
    counts.below[a as usize] -= as_one(low.saturating_sub(1) <= high);
    counts.below[b as usize] -= as_one(high.saturating_sub(1) <= low);
}

/// Counts the edges that came into the graph, in both counts of their ends.
pub fn count_edges(graph: &Graph, levels: &Levels, counts: &mut Counts, edges: &[Edge])
    requires { AwaitsEdges graph.now levels.now counts.old.own.items counts.old.below.items edges.now }
    ensures { IsAdjacency graph.now levels.now counts.new.own.items counts.new.below.items }
{
    for e in edges {
        count_edge(levels, counts, e.a, e.b);
    }
}

/// Removes the edges that left the graph from both counts of their ends.
pub fn uncount_edges(graph: &Graph, levels: &Levels, counts: &mut Counts, edges: &[Edge])
    requires { LosesEdges graph.now levels.now counts.old.own.items counts.old.below.items edges.now }
    ensures { IsAdjacency graph.now levels.now counts.new.own.items counts.new.below.items }
{
    for e in edges {
        uncount_edge(levels, counts, e.a, e.b);
    }
}
