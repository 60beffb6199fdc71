//! The moves of a phase, gathered into a tree for each group, and the links between them.
ghost use Rattle.std.specs.Prelude.{◌≡◌, ℕ, Bool, List, ◌<◌, ◌≤◌, IfOk, false, true, length, slice_index};
ghost use Rattle.kc_graph.specs.Shape.{EdgesFrom};
ghost use Rattle.kc_groups.specs.private.Forest.{AreGathered, IsForest, Joins};
ghost use Rattle.kc_groups.specs.Gathering.{vertices};
ghost use Rattle.kc_groups.specs.private.Gathering.{AreNumbered, in_row, in_rows, in_edges};

use crate::forest::join;
use kc_graph::{Edge, Graph, MAX_VERTICES};
use kc_history::Move;
use std::alloc::{AllocError, Global};
use std::ops::Range;

// Makes a forest of m places, each a tree of its own.
pub(crate) fn lone_places(alloc: Global, m: u32) -> Result<Vec<u32>, AllocError>
    ensures { IfOk result (λ parents. AreGathered m (λ i j. false) parents.items) }
{
    let mut parents = Vec::with_capacity(alloc, m as usize)?;
    for place in 0..m {
        parents.push(place)?;
    }
    Ok(parents)
}

// The number of moves whose rows are prefetched together.
const TOGETHER: u32 = 16;

// Prefetches the rows of the vertices of the 16 moves from this place on. Returns true, which the compiler can't know,
// so it keeps the loads.
fn prefetch_rows(graph: &Graph, moves: &[Move], place: u32) -> bool
    requires { place ≤ length moves.now }
    ensures { result ≡ true }
{
    let end = moves.len().min(place as usize + TOGETHER as usize);
    for k in place as usize..end {
        if !graph.prefetch_row(moves[k].vertex) {
            // Never: `prefetch_row` always returns true.
            return false;
        }
    }
    true
}

// Returns the vertex of the move at `place`. At every 16th place, first prefetches the rows of the next 16.
fn vertex_with_prefetch(graph: &Graph, moves: &[Move], place: u32) -> u32
    requires { place < length moves.now }
    ensures { result ≡ slice_index (vertices moves.now) place }
{
    if place % TOGETHER == 0 && !prefetch_rows(graph, moves, place) {
        // Never: `prefetch_rows` always returns true.
        return 0;
    }
    moves[place as usize].vertex
}

// Joins the move at `place` with those of its neighbours at lesser places.
//
// Neighbours and moves ascend by vertex. So the lesser neighbours come first, and no greater one has a lesser place. A
// neighbour that doesn't move has the number of vertices for its place.
fn link_row(graph: &Graph, moves: &[Move], places: &[u32], parents: &mut [u32], place: u32)
    requires inside { place < length moves.now }
    requires numbered { AreNumbered graph.now.vertices (vertices moves.now) places.now }
    requires many { length parents.old ≡ length moves.now }
    requires forest { (roots : List ℕ) × IsForest parents.old roots }
    ensures { Joins (length moves.now) (in_row graph.now (vertices moves.now) place) parents.old parents.new }
{
    let v = vertex_with_prefetch(graph, moves, place);
    // A place of the move's tree, mostly its root: from there the next join needn't look for the root again.
    let mut tree = place;
    for w in graph.neighbours(v) {
        if *w >= v {
            return;
        }
        let other = places[*w as usize];
        if other < place {
            tree = join(parents, tree, other);
        }
    }
}

// Joins each move at a place of the part with those of its neighbours at lesser places.
pub(crate) fn link_rows(
    graph: &Graph,
    moves: &[Move],
    places: &[u32],
    parents: &mut [u32],
    part: Range<usize>,
)
    requires small { length moves.now ≤ MAX_VERTICES }
    requires numbered { AreNumbered graph.now.vertices (vertices moves.now) places.now }
    requires gathered { (before : ℕ → ℕ → Bool) × AreGathered (length moves.now) before parents.old }
    requires order { part.start ≤ part.end }
    requires inside { part.end ≤ length moves.now }
    ensures { Joins (length moves.now) (in_rows graph.now (vertices moves.now) part.start part.end) parents.old parents.new }
{
    for place in part.start as u32..part.end as u32 {
        link_row(graph, moves, places, parents, place);
    }
}

// Joins the two moves at the ends of each edge, if both ends move.
pub(crate) fn join_ends(edges: &[Edge], moves: &[Move], places: &[u32], parents: &mut [u32])
    requires small { length moves.now ≤ MAX_VERTICES }
    requires numbered { AreNumbered (length places.now) (vertices moves.now) places.now }
    requires ascending { EdgesFrom (length places.now) 0 0 edges.now }
    requires many { length parents.old ≡ length moves.now }
    requires forest { (roots : List ℕ) × IsForest parents.old roots }
    ensures { Joins (length moves.now) (in_edges edges.now (vertices moves.now)) parents.old parents.new }
{
    let m = moves.len() as u32;
    for e in edges {
        let first = places[e.a as usize];
        let second = places[e.b as usize];
        if first < m && second < m {
            join(parents, first, second);
        }
    }
}
