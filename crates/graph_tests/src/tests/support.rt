// The beginnings of tests. A test ends here if its tables don't fit, or if memory runs out.
ghost use Rattle.std.specs.Prelude.{◌≡◌, ◌≤◌, length, true};
ghost use Rattle.kc_graph.specs.Shape.{EdgesFrom};

use kc_adj::{LevelAdj, Steps};
use kc_graph::{Edge, Graph, MAX_EDGES, MAX_VERTICES};
use kc_levels::Levels;
use std::alloc::Global;
use std::process::Abort;
use std::sync::ledger::Ledger;
use test_support::graphs::{edges_of, graph_of, levels_of};

// Pairs of vertices in a table.
pub type Pairs = &'static [(u32, u32)];

// Returns the graph on n vertices with the edges of the pairs, in any order.
pub fn graph(rt: &impl Abort, alloc: Global, n: u32, pairs: &[(u32, u32)]) -> Graph
    ensures { result.vertices ≡ n }
{
    graph_of(alloc, n, pairs).expect(rt, "a graph")
}

// Returns the edges of ascending pairs of vertices below n.
pub fn edges(rt: &impl Abort, alloc: Global, n: u32, pairs: &[(u32, u32)]) -> Vec<Edge>
    ensures ascending { EdgesFrom n 0 0 result.items }
    ensures few { length result.items ≤ MAX_EDGES }
{
    edges_of(alloc, n, pairs).expect(rt, "ascending edges")
}

// Returns the levels by vertex.
pub fn levels(rt: &impl Abort, alloc: Global, items: &[u16]) -> Levels
    ensures { length result ≡ length items.now }
{
    levels_of(alloc, items).expect(rt, "levels")
}

// Returns the graph with the edges of the pairs, in any order, and each vertex on its level.
pub fn levelled<L: Ledger>(
    rt: &impl Abort,
    alloc: Global,
    pairs: &[(u32, u32)],
    levels: &[u16],
    steps: &mut Steps<L>,
) -> LevelAdj
    ensures { result.graph.vertices ≡ length levels.now }
{
    assert!(rt; 1 <= levels.len() && levels.len() <= MAX_VERTICES as usize);
    let n = levels.len() as u32;
    let mut adj = LevelAdj::new(alloc, n).expect(rt, "memory");
    for pair in pairs {
        let (a, b) = *pair;
        assert!(rt; a < b && b < n);
        let e = Edge { a, b };
        assert!(rt; !adj.graph().has(e) && adj.graph().edge_count() < MAX_EDGES);
        adj.link(alloc, e, steps).expect(rt, "memory");
    }
    for v in 0..n {
        assert!(rt; adj.level(v) <= levels[v as usize]);
        adj.lift(v, levels[v as usize], steps);
    }
    adj
}

// Ends the test unless a row of its table holds.
pub fn check_row(rt: &impl Abort, row: usize, holds: bool)
    ensures { holds ≡ true }
{
    assert!(rt; holds, "row {row}");
}
