//! The degrees of the vertices of a graph.

ghost use Rattle.std.specs.Prelude.{◌≡◌, ◌≤◌, ◌<◌, ℕ, length, slice_index, IfOk};
ghost use Rattle.kc_graph.specs.Shape.{neighbours_of};

use crate::graphs::Graph;
use crate::limits::MAX_VERTICES;
use std::alloc::{AllocError, Global};

/// Returns the degree of each vertex, in one pass over the vertices. Takes memory for a number a vertex, and fails only
/// if memory runs out.
pub fn degrees(alloc: Global, graph: &Graph) -> Result<Vec<u32>, AllocError>
    ensures sized { IfOk result (λ r. length r.items ≡ graph.now.vertices) }
    ensures values { IfOk result (λ r. (u : ℕ) → u < graph.now.vertices → slice_index r.items u ≡ length (neighbours_of u graph.now.edges)) }
    ensures small { IfOk result (λ r. (u : ℕ) → u < graph.now.vertices → slice_index r.items u < graph.now.vertices) }
    ensures fits { graph.now.vertices ≤ MAX_VERTICES }
{
    let n = graph.vertices();
    let mut degrees = Vec::with_capacity(alloc, n as usize)?;
    for v in 0..n {
        degrees.push(graph.neighbours(v).len() as u32)?;
    }
    Ok(degrees)
}
