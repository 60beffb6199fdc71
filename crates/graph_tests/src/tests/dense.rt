//! The dense parts of small graphs, worked out by hand, and of a large graph without edges. Many small graphs stand
//! beside a plain peeling and beside all sets of their vertices. Here a set is a number with a bit for each vertex in
//! it.

use super::drawing::drawn_pairs;
use super::support;
use kc_dense::densest;
use kc_graph::Graph;
use std::alloc::Global;
use std::process::Abort;
use test_support::random::Random;

// The number of vertices of a graph, its edges, the members of its dense part, and the number of edges between them.
const GRAPHS: &[(u32, &[(u32, u32)], &[u32], u32)] = &[
    // Four vertices joined each with each, and one alone.
    (
        5,
        &[(0, 1), (0, 2), (0, 3), (1, 2), (1, 3), (2, 3)],
        &[0, 1, 2, 3],
        6,
    ),
    // Vertex 0 joined with four others.
    (5, &[(0, 1), (0, 2), (0, 3), (0, 4)], &[0, 1, 2, 3, 4], 4),
    // If no part has an edge, all are equally dense, and the longest is the whole.
    (2, &[], &[0, 1], 0),
    // The vertices 0 to 2 and 3 to 6 joined each with each, with the edge 2 - 3 between the two.
    (
        7,
        &[
            (0, 1),
            (0, 2),
            (1, 2),
            (2, 3),
            (3, 4),
            (3, 5),
            (3, 6),
            (4, 5),
            (4, 6),
            (5, 6),
        ],
        &[3, 4, 5, 6],
        6,
    ),
];

#[test]
fn small_graphs(rt: HostRuntime) {
    for (n, pairs, members, edges) in GRAPHS {
        let graph = support::graph(&rt, rt.alloc(), *n, pairs);
        let dense = densest(rt.alloc(), &graph).expect(&rt, "memory");
        assert!(rt; dense.members.as_slice() == *members && dense.edges == *edges);
    }
}

#[test]
fn many_vertices_and_no_edge(rt: HostRuntime) {
    let graph = Graph::new(rt.alloc(), 100_000).expect(&rt, "memory");
    let dense = densest(rt.alloc(), &graph).expect(&rt, "memory");
    assert!(rt; dense.members.len() == 100_000 && dense.edges == 0);
}

fn has(set: u32, v: u32) -> bool {
    set.wrapping_shr(v) % 2 == 1
}

// Returns the set of the neighbours of each vertex.
fn rows<R: Abort>(rt: &R, alloc: Global, graph: &Graph) -> Vec<u32> {
    let mut rows = Vec::new(alloc);
    for v in 0..graph.vertices() {
        rows.push(set_of(graph.neighbours(v))).expect(rt, "memory");
    }
    rows
}

fn set_of(members: &[u32]) -> u32 {
    let mut set = 0u32;
    for v in members {
        set |= 1u32.wrapping_shl(*v);
    }
    set
}

fn edges_in(rows: &[u32], set: u32) -> u32 {
    let mut ends = 0u32;
    for (v, row) in (0..32u32).zip(rows.iter()) {
        if has(set, v) {
            ends = ends.wrapping_add((*row & set).count_ones());
        }
    }
    ends / 2
}

// Returns whether one set has more edges for each of its vertices than `times` as many as another.
fn is_denser(rows: &[u32], one: u32, other: u32, times: u64) -> bool {
    let one_over = u64::from(edges_in(rows, one)).wrapping_mul(u64::from(other.count_ones()));
    let other_over = u64::from(edges_in(rows, other)).wrapping_mul(u64::from(one.count_ones()));
    one_over > other_over.wrapping_mul(times)
}

// Returns the vertex of a set with the fewest neighbours in it, the least of several.
fn next_of(rows: &[u32], set: u32) -> u32 {
    let mut next = 0;
    let mut fewest = u32::MAX;
    for (v, row) in (0..32u32).zip(rows.iter()) {
        let degree = (*row & set).count_ones();
        if has(set, v) && degree < fewest {
            next = v;
            fewest = degree;
        }
    }
    next
}

// Returns the densest of the sets that are left while a graph is peeled, the first of several.
fn plainly(rows: &[u32], n: u32) -> u32 {
    let mut left = 1u32.wrapping_shl(n).wrapping_sub(1);
    let mut best = left;
    for _ in 0..n {
        if is_denser(rows, left, best, 1) {
            best = left;
        }
        left &= !1u32.wrapping_shl(next_of(rows, left));
    }
    best
}

#[test]
fn as_peeled_plainly_and_half_as_dense_as_any(rt: HostRuntime) {
    let mut random = Random::new(1);
    for round in 0..3_000u32 {
        let n = 1 + round % 7;
        let pairs = drawn_pairs(&rt, rt.alloc(), &mut random, n, 1 + round / 7 % 5, n);
        let graph = support::graph(&rt, rt.alloc(), n, &pairs);
        let rows = rows(&rt, rt.alloc(), &graph);
        let dense = densest(rt.alloc(), &graph).expect(&rt, "memory");
        let part = set_of(&dense.members);
        assert!(rt; part == plainly(&rows, n) && dense.members.is_sorted());
        assert!(rt; dense.members.len() == part.count_ones() as usize);
        assert!(rt; dense.edges == edges_in(&rows, part));
        assert!(rt; !(1..1u32.wrapping_shl(n)).any(|set| is_denser(&rows, set, part, 2)));
    }
}
