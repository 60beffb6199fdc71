//! Graphs and edges from pairs, levels from numbers, and what tested calls require of them, checked when it runs.
ghost use Rattle.std.specs.Prelude.{◌≡◌, ◌↔◌, ◌≤◌, length, All, IfSome, IsTrue};
ghost use Rattle.std.specs.Bool.{OnTrue};
ghost use Rattle.kc_graph.specs.Shape.{EdgesFrom};
ghost use Rattle.kc_graph.specs.Cleaning.{IsInside};
ghost use Rattle.kc_graph.specs.Changes.{AllAbsent, AllPresent};
ghost use Rattle.kc_levels.specs.LevelList.{IsBelow};

use kc_graph::{Edge, Graph, Item, MAX_EDGES, MAX_VERTICES};
use kc_levels::Levels;
use std::alloc::Global;

/// Returns the edges of the pairs. The pairs ascend without repeats, and each has its lesser end first and both ends
/// below n.
///
/// Returns `None` if they don't, if they are over `MAX_EDGES`, or if memory runs out.
pub fn edges_of(alloc: Global, n: u32, pairs: &[(u32, u32)]) -> Option<Vec<Edge>>
    ensures ascending { IfSome result (λ edges. EdgesFrom n 0 0 edges.items) }
    ensures few { IfSome result (λ edges. length edges.items ≤ MAX_EDGES) }
{
    let mut edges = Vec::new(alloc);
    let mut least = (0, 0);
    for pair in pairs {
        let (a, b) = *pair;
        if a >= b || b >= n || edges.len() >= MAX_EDGES as usize {
            return None;
        }
        if a < least.0 || a == least.0 && b < least.1 {
            return None;
        }
        edges.push(Edge { a, b }).ok()?;
        least = (a, b + 1);
    }
    Some(edges)
}

/// Makes the graph on n vertices with the edges of the pairs, in any order. Each pair is there once, with its lesser
/// end first and both ends below n.
///
/// Returns `None` if that isn't so, if n is 0, if a number is over its limit, or if memory runs out.
pub fn graph_of(alloc: Global, n: u32, pairs: &[(u32, u32)]) -> Option<Graph>
    ensures { IfSome result (λ graph. graph.vertices ≡ n) }
{
    if n == 0 || n > MAX_VERTICES {
        return None;
    }
    let mut graph = Graph::new(alloc, n).ok()?;
    for pair in pairs {
        let (a, b) = *pair;
        if a >= b || b >= n || graph.edge_count() >= MAX_EDGES {
            return None;
        }
        let e = Edge { a, b };
        if graph.has(e) {
            return None;
        }
        graph.insert(alloc, e).ok()?;
    }
    Some(graph)
}

/// Makes the levels by vertex. Returns `None` if they are more than `MAX_VERTICES`, or if memory runs out.
pub fn levels_of(alloc: Global, items: &[u16]) -> Option<Levels>
    ensures { IfSome result (λ levels. length levels ≡ length items.now) }
{
    if items.len() > MAX_VERTICES as usize {
        return None;
    }
    let mut levels = Levels::zeros(alloc, items.len() as u32).ok()?;
    for v in 0..items.len() {
        levels.set(v as u32, items[v]);
    }
    Some(levels)
}

/// Returns whether each of the edges is in the graph.
pub fn are_present(graph: &Graph, edges: &[Edge]) -> bool
    ensures { OnTrue result (AllPresent graph.now edges.now) }
{
    for e in edges {
        if e.b >= graph.vertices() || !graph.has(*e) {
            return false;
        }
    }
    true
}

/// Returns whether each of the edges is between vertices of the graph, and not in it.
pub fn are_absent(graph: &Graph, edges: &[Edge]) -> bool
    ensures { OnTrue result (AllAbsent graph.now edges.now) }
{
    for e in edges {
        if e.b >= graph.vertices() || graph.has(*e) {
            return false;
        }
    }
    true
}

/// Returns whether the lists have one length, and no level of x is above that of y.
pub fn is_below(x: &Levels, y: &Levels) -> bool
    ensures { OnTrue result (IsBelow (length x.now) x.now y.now) }
{
    let x = x.as_slice();
    let y = y.as_slice();
    if x.len() != y.len() {
        return false;
    }
    for v in 0..x.len() {
        if x[v] > y[v] {
            return false;
        }
    }
    true
}

fn is_inside(n: u32, item: Item) -> bool
    ensures { IsTrue result ↔ IsInside n item }
{
    match item {
        Item::Insert { u, v } | Item::Delete { u, v } => u < n && v < n,
        Item::Isolate { v } => v < n,
    }
}

/// Returns whether all vertices of the items are below n.
pub fn are_inside(n: u32, items: &[Item]) -> bool
    ensures { IsTrue result ↔ All (IsInside n) items.now }
{
    items.iter().all(|item| is_inside(n, *item))
}
