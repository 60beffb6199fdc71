//! Counts that are made afresh, from the neighbours of each vertex.
//!
//! `specs/private/Afresh` defines what a thread makes.

ghost use Rattle.std.specs.Prelude.{◌≡◌, ◌+◌, ◌-◌, ◌<◌, ◌≤◌, All, true, length, slice_index};
ghost use Rattle.std.specs.Thread.{IsSync};
ghost use Rattle.kc_graph.specs.declared.limits.TheConstants.{MAX_VERTICES};
ghost use Rattle.kc_levels.specs.LevelList.{at_least};
ghost use Rattle.kc_adj.specs.LeveledGraph.{IsAdjacency};
ghost use Rattle.kc_adj.specs.private.Afresh.{AreCounted};

use crate::counts::{Counts, as_one};
use kc_graph::{Crew, Edge, Graph};
use std::thread::{Threads, join_mut};

// The vertices are cut into at most one piece for each full `LEAST_COUNTED` of them. On level 0 such a piece takes
// about 100 microseconds. To start two threads takes 30 to 40.
const LEAST_COUNTED: u32 = 16_384;

// The number of rows that are prefetched together.
const TOGETHER: u32 = 16;

/// Returns whether the list has half as many edges as the graph has vertices or more, and no fewer than the graph has
/// edges. Then it takes less time to make all counts afresh than to change them at each edge of the list.
pub fn are_many(edges: &[Edge], graph: &Graph) -> bool {
    graph.vertices() as usize / 2 <= edges.len() && graph.edge_count() as usize <= edges.len()
}

/// Returns whether the list has a quarter of all vertices (rounded down) or more, and these have half of all neighbours
/// or more. Then it takes less time to make all counts afresh than to change them at the neighbours of each vertex of
/// the list.
///
/// Costs O(1) for each vertex of the list.
pub fn have_half(vertices: &[u32], graph: &Graph) -> bool
    requires { All (λ v. v < graph.now.vertices) vertices.now }
{
    if vertices.len() < graph.vertices() as usize / 4 {
        return false;
    }
    // The graph has two neighbours for each edge.
    let mut missing = graph.edge_count() as usize;
    for v in vertices {
        missing = missing.saturating_sub(graph.neighbours(*v).len());
    }
    missing == 0
}

// A graph and the level of each of its vertices.
#[derive(Clone, Copy)]
struct Leveled<'a> {
    // The graph.
    graph: &'a Graph,
    // The level of each vertex.
    levels: &'a [u16],
    ghost small: { graph.now.vertices ≤ MAX_VERTICES },
    ghost sized: { length levels.now ≡ graph.now.vertices },
}

// Prefetches the rows of the next `TOGETHER` vertices, from v on. It leaves out vertices on level 0, since their
// neighbours aren't looked at. Always returns true, as `Graph::prefetch_row` does.
fn prefetch_rows(on: Leveled<'_>, v: u32) -> bool
    requires { v < on.graph.now.vertices }
    ensures { result ≡ true }
{
    let end = on.graph.vertices().min(v + TOGETHER);
    for w in v..end {
        if on.levels[w as usize] > 0 && !on.graph.prefetch_row(w) {
            return false;
        }
    }
    true
}

// Returns both counts of v: the neighbours on its level or above, and those on the level below or above.
fn counts_of(graph: &Graph, levels: &[u16], v: u32) -> (u32, u32)
    requires vertex { v < graph.now.vertices }
    requires sized { length levels.now ≡ graph.now.vertices }
    ensures own { result.0 ≡ at_least graph.now levels.now v (slice_index levels.now v) }
    ensures below { result.1 ≡ at_least graph.now levels.now v (slice_index levels.now v - 1) }
{
    let level = levels[v as usize];
    let row = graph.neighbours(v);
    if level == 0 {
        // Every neighbour is on level 0 or above, so there is nothing to look at.
        return (row.len() as u32, row.len() as u32);
    }
    let mut own = 0;
    let mut below = 0;
    for w in row {
        let other = levels[*w as usize];
        own += as_one(level <= other);
        below += as_one(level - 1 <= other);
    }
    (own, below)
}

// Makes both counts of consecutive vertices afresh, from `first` on.
fn count_piece(on: Leveled<'_>, first: u32, own: &mut [u32], below: &mut [u32])
    requires room { length below.old ≡ length own.old }
    requires inside { first + length own.old ≤ on.graph.now.vertices }
    ensures own { AreCounted on.entry.graph.now on.entry.levels.now 0 first (length own.new) own.new }
    ensures below { AreCounted on.entry.graph.now on.entry.levels.now 1 first (length below.new) below.new }
{
    for i in 0..own.len() {
        let v = first + i as u32;
        if i as u32 % TOGETHER == 0 && !prefetch_rows(on, v) {
            // Never: `prefetch_rows` always returns true.
            return;
        }
        let counts = counts_of(on.graph, on.levels, v);
        own[i] = counts.0;
        below[i] = counts.1;
    }
}

// Does what `count_piece` does, with a thread for each worker of the crew if it can be made. The pieces have about the
// same length.
#[cycle(counting)]
#[tactic(auto, using(crate::proofs::AfreshLemmas::counted_both))]
fn count_pieces<R: Threads + Sync>(
    crew: &Crew<'_, R>,
    on: Leveled<'_>,
    first: u32,
    own: &mut [u32],
    below: &mut [u32],
)
    requires room { length below.old ≡ length own.old }
    requires inside { first + length own.old ≤ on.graph.now.vertices }
    ensures own { AreCounted on.entry.graph.now on.entry.levels.now 0 first (length own.new) own.new }
    ensures below { AreCounted on.entry.graph.now on.entry.levels.now 1 first (length below.new) below.new }
{
    if crew.workers < 2 {
        count_piece(on, first, own, below);
        return;
    }
    let place = own.len() / crew.workers as usize;
    let middle = first + place as u32;
    let (front_own, back_own) = own.split_at_mut(place);
    let (front_below, back_below) = below.split_at_mut(place);
    let mut front = ||
        requires { (length front_below.now ≡ length front_own.now) × (first + length front_own.now ≤ on.graph.now.vertices) }
        ensures own { AreCounted on.entry.graph.now on.entry.levels.now 0 first (length front_own.exit.now) front_own.exit.now }
        ensures below { AreCounted on.entry.graph.now on.entry.levels.now 1 first (length front_below.exit.now) front_below.exit.now }
    { count_piece(on, first, front_own, front_below) };
    let mut back = ||
        requires { IsSync R.row × (2 ≤ crew.now.workers) × (length back_below.now ≡ length back_own.now) × (middle + length back_own.now ≤ on.graph.now.vertices) }
        ensures own { AreCounted on.entry.graph.now on.entry.levels.now 0 middle (length back_own.exit.now) back_own.exit.now }
        ensures below { AreCounted on.entry.graph.now on.entry.levels.now 1 middle (length back_below.exit.now) back_below.exit.now }
    {
        count_pieces(
            &crew.with(crew.workers - 1),
            on,
            middle,
            back_own,
            back_below,
        )
    };
    join_mut(crew.rt, &mut front, &mut back);
}

/// Makes both counts of each vertex afresh. The threads of the crew share the vertices if they are many.
///
/// Costs O(1) for a vertex on level 0, and otherwise a pass over its neighbours. Takes no memory.
#[tactic(auto, using(crate::proofs::AfreshLemmas::counted_all))]
pub fn count_afresh<R: Threads + Sync>(
    crew: &Crew<'_, R>,
    graph: &Graph,
    levels: &[u16],
    counts: &mut Counts,
)
    requires sized { (length levels.now ≡ graph.now.vertices) × (length counts.old.own.items ≡ graph.now.vertices) × (length counts.old.below.items ≡ graph.now.vertices) }
    ensures { IsAdjacency graph.now levels.now counts.new.own.items counts.new.below.items }
{
    let pieces = graph.vertices() / LEAST_COUNTED;
    let crew = &crew.with(crew.workers.min(pieces));
    let on = Leveled { graph, levels };
    let own = counts.own.as_mut_slice();
    let below = counts.below.as_mut_slice();
    count_pieces(crew, on, 0, own, below);
}
