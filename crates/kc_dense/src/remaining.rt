//! The vertices that peeling hasn't taken yet, each with its degree among them, and how the next one is taken.

ghost use Rattle.std.specs.Prelude.{◌≡◌, ◌≢◌, ◌<◌, ℕ, true, length, nat_lt, set, slice_index, IfOk};
ghost use Rattle.kc_graph.specs.Shape.{IsGraph};
ghost use Rattle.kc_dense.specs.Sets.{degree_within};
ghost use Rattle.kc_dense.specs.Dense.{IsNext};
ghost use Rattle.kc_dense.specs.private.Remaining.{is_left, all_but, AreRemaining, lowered};

use crate::tournament::Tournament;
use kc_graph::{Graph, degrees};
use std::alloc::{AllocError, Global};

/// Stands in place of the degree of a vertex that was taken.
const TAKEN: u32 = u32::MAX;

/// A vertex that was taken.
#[derive(Clone, Copy)]
pub struct Taken {
    /// The vertex.
    pub vertex: u32,
    /// The number of its neighbours that were left.
    pub degree: u32,
}

/// Returns the degrees while all vertices are left. Takes memory for at most four numbers a vertex. Fails only if
/// memory runs out.
pub fn all_remaining(alloc: Global, graph: &Graph) -> Result<Tournament, AllocError>
    ensures remaining { IfOk result (AreRemaining graph.now) }
    ensures all { IfOk result (λ degrees. (u : ℕ) → is_left degrees u ≡ nat_lt u graph.now.vertices) }
{
    // Evidence for the check: the edges of the graph ascend.
    let _ = graph.vertices();
    Tournament::new(alloc, &degrees(alloc, graph)?)
}

// Takes one from the degree of a vertex if it is left.
fn lower(degrees: &mut Tournament, u: u32)
    requires below { u < length degrees.old }
    requires some { slice_index degrees.old u ≢ 0 }
    ensures { degrees.new ≡ set degrees.old u (lowered (slice_index degrees.old u)) }
{
    let degree = degrees.get(u as usize);
    if degree != TAKEN {
        degrees.set(u as usize, degree - 1);
    }
}

/// Takes the vertex with the least degree among those that are left, of several the least vertex (`IsNext`).
///
/// Costs O(log n) for the vertex and for each neighbour that is left, in a graph of n vertices.
pub fn take_next(degrees: &mut Tournament, graph: &Graph) -> Taken
    requires graph { IsGraph graph.now }
    requires remaining { AreRemaining graph.now degrees.old }
    requires some { (u : ℕ) × (is_left degrees.old u ≡ true) }
    ensures next { IsNext graph.now (is_left degrees.old) result.vertex }
    ensures degree { result.degree ≡ degree_within graph.now (is_left degrees.old) result.vertex }
    ensures others { (u : ℕ) → is_left degrees.new u ≡ all_but result.vertex (is_left degrees.old) u }
    ensures remaining { AreRemaining graph.now degrees.new }
{
    let vertex = degrees.first_least() as u32;
    let degree = degrees.get(vertex as usize);
    degrees.set(vertex as usize, TAKEN);
    for u in graph.neighbours(vertex) {
        lower(degrees, *u);
    }
    Taken { vertex, degree }
}
