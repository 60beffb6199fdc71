// Edges come into graphs and leave them, one by one and together. Rows were worked out by hand.

use super::support::{Pairs, check_row, edges, graph};
use kc_graph::{Crew, Edge, Edges, Graph, MAX_EDGES, sort_numbers};
use std::alloc::Global;
use std::process::Abort;
use std::thread::Threads;
use test_support::graphs::{are_absent, are_present};

#[test]
fn edges_are_kept_in_order(rt: HostRuntime) {
    let (first, second) = (Edge { a: 2, b: 3 }, Edge { a: 0, b: 1 });
    let mut edges = Edges::new(rt.alloc());
    assert!(rt; edges.is_empty() && edges.last().is_none());
    edges.push(first).expect(&rt, "memory");
    let mut later = Edges::new(rt.alloc());
    later.push(second).expect(&rt, "memory");
    edges.append(later).expect(&rt, "memory");
    let again = Edges::from_vec(edges.into_vec());
    assert!(rt;
        again.as_slice() == [first, second].as_slice()
            && again.len() == 2
            && again.last() == Some(second)
    );
}

// Graphs, each with a further edge and a vertex:
//
// - the number of vertices and the edges of the graph;
// - the edge and the vertex;
// - the neighbours of the vertex without and with that edge.
//
// They are the complete graph on 0 to 3 in ascending and in descending order, a path, and a star.
const GRAPHS: &[(u32, Pairs, (u32, u32), u32, &[u32], &[u32])] = &[
    (
        5,
        &[(0, 1), (0, 2), (0, 3), (1, 2), (1, 3)],
        (2, 3),
        3,
        &[0, 1],
        &[0, 1, 2],
    ),
    (
        4,
        &[(2, 3), (1, 3), (1, 2), (0, 3), (0, 2)],
        (0, 1),
        1,
        &[2, 3],
        &[0, 2, 3],
    ),
    (5, &[(3, 4), (1, 2), (0, 1)], (2, 3), 2, &[1], &[1, 3]),
    (
        5,
        &[(0, 2), (0, 4), (0, 1)],
        (0, 3),
        0,
        &[1, 2, 4],
        &[1, 2, 3, 4],
    ),
];

#[test]
fn edges_in_and_out(rt: HostRuntime) {
    for (row, &(n, pairs, (a, b), v, without, with)) in GRAPHS.iter().enumerate() {
        let mut graph = graph(&rt, rt.alloc(), n, pairs);
        assert!(rt; a < b && b < n && v < n);
        let e = Edge { a, b };
        assert!(rt; !graph.has(e) && graph.edge_count() < MAX_EDGES);
        check_row(
            &rt,
            row,
            graph.edge_count() as usize == pairs.len() && graph.neighbours(v) == without,
        );
        graph.insert(rt.alloc(), e).expect(&rt, "memory");
        assert!(rt; graph.has(e));
        check_row(
            &rt,
            row,
            graph.edge_count() as usize == pairs.len() + 1 && graph.neighbours(v) == with,
        );
        graph.remove(e);
        check_row(
            &rt,
            row,
            graph.edge_count() as usize == pairs.len() && graph.neighbours(v) == without,
        );
    }
}

// Returns whether the graph has five vertices with these neighbours.
fn has_rows(graph: &Graph, rows: &[&[u32]; 5]) -> bool {
    if graph.vertices() != 5 {
        return false;
    }
    for v in 0..5 {
        if graph.neighbours(v) != rows[v as usize] {
            return false;
        }
    }
    true
}

const BEFORE: [&[u32]; 5] = [&[2], &[3], &[0], &[1], &[]];

const AFTER: [&[u32]; 5] = [&[1, 2, 3, 4], &[0, 2, 3], &[0, 1, 3], &[0, 1, 2], &[0]];

// Adds edges to the graph that aren't there, by this number of workers; for 0 by the call without workers.
fn put_in<R: Threads + Sync + Abort>(
    rt: &R,
    alloc: Global,
    workers: u32,
    graph: &mut Graph,
    pairs: &[(u32, u32)],
) {
    let edges = edges(rt, alloc, graph.vertices(), pairs);
    assert!(rt;
        are_absent(graph, &edges) && graph.edge_count() as usize + edges.len() <= MAX_EDGES as usize
    );
    if workers == 0 {
        graph.insert_all(alloc, &edges).expect(rt, "memory");
    } else {
        graph
            .par_insert_all(&Crew { rt, alloc, workers }, &edges)
            .expect(rt, "memory");
    }
}

// Removes edges from the graph that are there.
fn take_out<R: Threads + Sync + Abort>(
    rt: &R,
    alloc: Global,
    workers: u32,
    graph: &mut Graph,
    pairs: &[(u32, u32)],
) {
    let edges = edges(rt, alloc, graph.vertices(), pairs);
    assert!(rt; are_present(graph, &edges));
    graph
        .par_remove_all(&Crew { rt, alloc, workers }, &edges)
        .expect(rt, "memory");
}

#[test]
fn edges_come_and_leave_together(rt: HostRuntime) {
    let pairs: Pairs = &[(0, 1), (0, 3), (0, 4), (1, 2), (2, 3)];
    let mut graph = graph(&rt, rt.alloc(), 5, &[(0, 2), (1, 3)]);
    for workers in [0, 1, 3, 64] {
        put_in(&rt, rt.alloc(), workers, &mut graph, pairs);
        assert!(rt; has_rows(&graph, &AFTER) && graph.edge_count() == 7);
        take_out(&rt, rt.alloc(), workers.max(1), &mut graph, pairs);
        assert!(rt; has_rows(&graph, &BEFORE) && graph.edge_count() == 2);
    }
}

// Returns the first pairs of vertices below n that are at most 40 apart, up to this number of them.
fn near_pairs(rt: &impl Abort, alloc: Global, n: u32, most: usize) -> Vec<(u32, u32)> {
    let mut pairs = Vec::new(alloc);
    for a in 0..n {
        for b in a + 1..n.min(a.saturating_add(41)) {
            if pairs.len() < most {
                pairs.push((a, b)).expect(rt, "memory");
            }
        }
    }
    pairs
}

fn have_same_rows(g: &Graph, h: &Graph) -> bool {
    if g.vertices() != h.vertices() {
        return false;
    }
    for v in 0..g.vertices() {
        if g.neighbours(v) != h.neighbours(v) {
            return false;
        }
    }
    true
}

// Numbers of edges: fewer than 2,048 come in one by one and leave so. More are dealt to rows, at most nearly 40,000,
// which several threads add and remove.
const LENGTHS: [usize; 4] = [2_047, 2_048, 4_100, 40_000];

// The graph is that of edges which come in one by one.
#[test]
fn any_number_of_threads(rt: HostRuntime) {
    let far: Pairs = &[(0, 50), (3, 999), (500, 600)];
    let before = graph(&rt, rt.alloc(), 1000, far);
    for most in LENGTHS {
        let near = near_pairs(&rt, rt.alloc(), 1000, most);
        let mut all = near_pairs(&rt, rt.alloc(), 1000, most);
        all.extend_from_slice(far).expect(&rt, "memory");
        let want = graph(&rt, rt.alloc(), 1000, &all);
        let mut graph = graph(&rt, rt.alloc(), 1000, far);
        for workers in [1, 2, 3, 4, 64] {
            put_in(&rt, rt.alloc(), workers, &mut graph, &near);
            assert!(rt; have_same_rows(&graph, &want));
            take_out(&rt, rt.alloc(), workers, &mut graph, &near);
            assert!(rt; have_same_rows(&graph, &before));
        }
    }
}

// From 512 numbers below 2^18 on, and from 2,048 below 2^24 on, lists are dealt to buckets. Shorter ones and numbers of
// 32 bits are sorted in place.
#[test]
fn many_numbers_come_into_order(rt: HostRuntime) {
    for lost in [14, 8, 0] {
        for len in [511u32, 512, 2_047, 2_048] {
            let mut numbers = Vec::new(rt.alloc());
            for i in 0..len {
                numbers
                    .push(i.wrapping_mul(2_654_435_761) >> lost)
                    .expect(&rt, "memory");
            }
            let mut wanted = numbers.clone().expect(&rt, "memory");
            wanted.sort_unstable();
            sort_numbers(rt.alloc(), &mut numbers);
            assert!(rt; numbers == wanted);
        }
    }
}
