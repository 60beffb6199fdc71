//! The dense part of a graph: the members of the densest suffix of its peeling list, ascending.

ghost use Rattle.std.specs.Prelude.{◌≡◌, ◌≤◌, length, IfOk};
ghost use Rattle.kc_dense.specs.Sets.{members_of, edges_within};
ghost use Rattle.kc_dense.specs.Dense.{IsDensePart, IsHalfAsDenseAsAny};

use crate::peeling::peel;
use kc_graph::Graph;
use std::alloc::{AllocError, Global};

/// A dense part of a graph.
#[derive(Drop)]
pub struct Dense {
    /// Its vertices, ascending; at least one.
    pub members: Vec<u32>,
    /// The number of edges with both ends among them.
    pub edges: u32,
}

/// Returns the dense part of a graph (`IsDensePart`): the vertices of the densest suffix of its peeling list, of
/// several the longest. No set of vertices of the graph has more than twice as many edges per vertex.
///
/// Costs time O((n + m) log n) for n vertices and m edges. Takes memory for at most five numbers a vertex, and returns
/// one for each member. Fails only if memory runs out.
pub fn densest(alloc: Global, graph: &Graph) -> Result<Dense, AllocError>
    ensures members { IfOk result (λ d. IsDensePart graph.now d.members.items) }
    ensures edges { IfOk result (λ d. d.edges ≡ edges_within graph.now (members_of d.members.items)) }
    ensures few { IfOk result (λ d. length d.members.items ≤ graph.now.vertices) }
    ensures factor { IfOk result (λ d. IsHalfAsDenseAsAny graph.now d.members.items) }
{
    // Evidence for the check: the edges of the graph ascend.
    let _ = graph.vertices();
    let peeled = peel(alloc, graph)?;
    let mut members = Vec::from_slice(alloc, &peeled.order[peeled.densest.first as usize..])?;
    members.sort_unstable();
    Ok(Dense {
        members,
        edges: peeled.densest.edges,
    })
}
