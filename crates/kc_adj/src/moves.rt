//! How the counts change when a vertex moves to another level.

ghost use Rattle.std.specs.Prelude.{◌≡◌, ◌+◌, ◌<◌, length, slice_index, slice_set};
ghost use Rattle.kc_graph.specs.Shape.{neighbours_of};
ghost use Rattle.kc_adj.specs.LeveledGraph.{IsAdjacency};

use crate::counts::{Counts, as_one, recount};
use crate::steps::Steps;
use kc_graph::Graph;
use kc_levels::{Levels, Move};
use std::sync::ledger::Ledger;

// Updates the counts of the neighbours of a vertex that moves, and returns both counts of the vertex itself.
fn pass<L: Ledger>(
    graph: &Graph,
    levels: &[u16],
    counts: &mut Counts,
    moved: Move,
    steps: &mut Steps<L>,
) -> (u32, u32)
    requires vertex { moved.vertex < graph.now.vertices }
    requires from { moved.old ≡ slice_index levels.now moved.vertex }
    requires adjacency { IsAdjacency graph.now levels.now counts.old.own.items counts.old.below.items }
    ensures adjacency { IsAdjacency graph.now (slice_set levels.now moved.vertex moved.new) (slice_set counts.new.own.items moved.vertex result.0) (slice_set counts.new.below.items moved.vertex result.1) }
    ensures cost { steps.new ≡ steps.old + length (neighbours_of moved.vertex graph.now.edges) }
{
    let Move { vertex, old, new } = moved;
    let under = new.saturating_sub(1);
    let mut own = 0;
    let mut below = 0;
    for w in graph.neighbours(vertex) {
        let level = levels[*w as usize];
        steps.tick();
        recount(counts, *w, old, new, level);
        own += as_one(level >= new);
        below += as_one(level >= under);
    }
    (own, below)
}

/// Moves a vertex to another level.
pub fn shift<L: Ledger>(
    graph: &Graph,
    levels: &mut Levels,
    counts: &mut Counts,
    moved: Move,
    steps: &mut Steps<L>,
)
    requires vertex { moved.vertex < graph.now.vertices }
    requires from { moved.old ≡ slice_index levels.old moved.vertex }
    requires adjacency { IsAdjacency graph.now levels.old counts.old.own.items counts.old.below.items }
    ensures levels { levels.new ≡ slice_set levels.old moved.vertex moved.new }
    ensures adjacency { IsAdjacency graph.now levels.new counts.new.own.items counts.new.below.items }
    ensures cost { steps.new ≡ steps.old + (length (neighbours_of moved.vertex graph.now.edges) + 1) }
{
    let (own, below) = pass(graph, levels.as_slice(), counts, moved, steps);
    levels.set(moved.vertex, moved.new);
    counts.own[moved.vertex as usize] = own;
    counts.below[moved.vertex as usize] = below;
    steps.tick();
}
