//! Directs the edges of a graph by the levels of their ends.
ghost use Rattle.std.specs.Prelude.{◌≡◌, ℕ, ◌<◌, ◌++◌, All, IfOk, OnOk, filter, length};
ghost use Rattle.kc_orient.specs.Shape.{above, orientation};

use crate::orientation::{Orientation, leads};
use kc_graph::Graph;
use kc_levels::Levels;
use std::alloc::{AllocError, Global};

// Appends to the list the vertices that are above v.
fn push_above(
    vertices: &[u32],
    levels: &[u16],
    v: u32,
    list: &mut Vec<u32>,
) -> Result<(), AllocError>
    requires v { v < length levels.now }
    requires below { All (λ w. w < length levels.now) vertices.now }
    ensures { OnOk result (list.new.items ≡ list.old.items ++ filter (above levels.now v) vertices.now) }
{
    for w in vertices {
        if leads(levels, v, *w) {
            list.push(*w)?;
        }
    }
    Ok(())
}

/// Returns the orientation of the graph by the levels (`orientation`). Each edge leads to the end that is above the
/// other: on a greater level, or on the same level with the greater number.
///
/// `levels` has a level for each vertex; any levels are allowed. Costs one pass over the vertices and their
/// neighbours. Takes memory for a number an edge, and a number and a level a vertex. Fails only if memory runs out.
pub fn orient(alloc: Global, graph: &Graph, levels: &Levels) -> Result<Orientation, AllocError>
    requires { length levels.now ≡ graph.now.vertices }
    ensures { IfOk result (λ o. o ≡ orientation graph.now levels.now) }
{
    let n = graph.vertices();
    let mut starts = Vec::with_capacity(alloc, n as usize + 1)?;
    let mut heads = Vec::with_capacity(alloc, graph.edge_count() as usize)?;
    starts.push(0)?;
    for v in 0..n {
        push_above(graph.neighbours(v), levels.as_slice(), v, &mut heads)?;
        starts.push(heads.len() as u32)?;
    }
    Ok(Orientation {
        levels: levels.copy(alloc)?,
        starts,
        heads,
    })
}
