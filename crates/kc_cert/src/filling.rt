//! Ascending edges that come into a graph many at a time.
ghost use Rattle.std.specs.Prelude.{◌≡◌, ◌≤◌, ◌<◌, ◌++◌, ◌∷◌, [], length, OnOk};
ghost use Rattle.kc_graph.specs.Shape.{EdgesFrom};

use kc_graph::{Edge, Graph, MAX_EDGES};
use std::alloc::{AllocError, Global};

// The most edges that wait.
const MOST_WAITING: usize = 1_048_576;

/// Puts the waiting edges, which follow those of the graph, into it. Costs what `Graph::insert_all` costs. Fails only
/// if memory runs out.
pub fn let_in(alloc: Global, graph: &mut Graph, waiting: &mut Vec<Edge>) -> Result<(), AllocError>
    requires ascending { EdgesFrom graph.old.vertices 0 0 (graph.old.edges ++ waiting.old.items) }
    requires few { length (graph.old.edges ++ waiting.old.items) ≤ MAX_EDGES }
    ensures vertices { OnOk result (graph.new.vertices ≡ graph.old.vertices) }
    ensures edges { OnOk result (graph.new.edges ≡ graph.old.edges ++ waiting.old.items) }
    ensures none { OnOk result (waiting.new.items ≡ []) }
{
    graph.insert_all(alloc, waiting.as_slice())?;
    waiting.clear();
    Ok(())
}

/// Appends an edge, which follows all others, to the waiting ones. If 1,048,576 wait, puts them into the graph first.
/// Fails only if memory runs out.
#[inline(always)]
pub fn add_edge(
    alloc: Global,
    graph: &mut Graph,
    waiting: &mut Vec<Edge>,
    edge: Edge,
) -> Result<(), AllocError>
    requires ascending { EdgesFrom graph.old.vertices 0 0 ((graph.old.edges ++ waiting.old.items) ++ edge ∷ []) }
    requires few { length (graph.old.edges ++ waiting.old.items) < MAX_EDGES }
    ensures vertices { OnOk result (graph.new.vertices ≡ graph.old.vertices) }
    ensures edges { OnOk result (graph.new.edges ++ waiting.new.items ≡ (graph.old.edges ++ waiting.old.items) ++ edge ∷ []) }
{
    if waiting.len() >= MOST_WAITING {
        let_in(alloc, graph, waiting)?;
    }
    waiting.push(edge)?;
    Ok(())
}
