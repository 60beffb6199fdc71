//! The coreness of the vertices of small graphs, worked out by hand, and of a large graph without edges. Histories are
//! walked point by point; their entries were worked out by hand too.

use super::plainly::count_of;
use super::support;
use kc_bound::exact_coreness;
use kc_graph::{Edge, Graph, MAX_EDGES};
use kc_levels::{Levels, Profile, Thresholds, check_lower, check_upper};
use std::alloc::Global;
use std::process::Abort;

// The edges of graphs, and the coreness of each vertex.
const GRAPHS: &[(&[(u32, u32)], &[u32])] = &[
    // Four vertices joined each with each, and one alone.
    (
        &[(0, 1), (0, 2), (0, 3), (1, 2), (1, 3), (2, 3)],
        &[3, 3, 3, 3, 0],
    ),
    // Three joined each with each, with the tail 3 - 4 at 2, and 5 alone. Vertex 2 has degree 3.
    (
        &[(0, 1), (0, 2), (1, 2), (2, 3), (3, 4)],
        &[2, 2, 2, 1, 1, 0],
    ),
    // The vertices 0 to 3 and 4 to 6 joined each with each, and the edge 3 - 4 between the two.
    (
        &[
            (0, 1),
            (0, 2),
            (0, 3),
            (1, 2),
            (1, 3),
            (2, 3),
            (3, 4),
            (4, 5),
            (4, 6),
            (5, 6),
        ],
        &[3, 3, 3, 3, 2, 2, 2],
    ),
];

#[test]
fn small_graphs(rt: HostRuntime) {
    for (pairs, want) in GRAPHS {
        let graph = support::graph(&rt, rt.alloc(), count_of(&rt, want.len()), pairs);
        let answers = exact_coreness(rt.alloc(), &graph).expect(&rt, "memory");
        assert!(rt; answers.as_slice() == *want);
    }
}

#[test]
fn many_vertices_and_no_edge(rt: HostRuntime) {
    let graph = Graph::new(rt.alloc(), 100_000).expect(&rt, "memory");
    let answers = exact_coreness(rt.alloc(), &graph).expect(&rt, "memory");
    assert!(rt; answers.len() == 100_000);
    assert!(rt; answers.iter().all(|coreness| *coreness == 0));
}

const VERTICES: u32 = 5;

// An entry: its edges come in, or leave, and the vertices move to these levels.
type Change = (bool, &'static [(u32, u32)], &'static [(u32, u16)]);

const STAR: &[(u32, u32)] = &[(0, 1), (0, 2), (0, 3), (0, 4)];

const HISTORIES: &[&[Change]] = &[
    // The edges of a star come in and leave again.
    &[
        (true, &[], &[]),
        (true, STAR, &[(0, 2), (1, 1), (2, 1), (3, 1), (4, 1)]),
        (false, &[], &[]),
        (false, STAR, &[(0, 0), (1, 0), (2, 0), (3, 0), (4, 0)]),
    ],
    // An edge comes in and leaves. Two edges that share no vertex come in together, each in the entry of its own group,
    // and leave so.
    &[
        (true, &[(0, 1)], &[(0, 1), (1, 1)]),
        (false, &[(0, 1)], &[(0, 0), (1, 0)]),
        (true, &[(0, 2)], &[(0, 1), (2, 1)]),
        (true, &[(3, 4)], &[(3, 1), (4, 1)]),
        (false, &[(0, 2)], &[(0, 0), (2, 0)]),
        (false, &[(3, 4)], &[(3, 0), (4, 0)]),
    ],
];

// Ends the test unless both invariants hold at each vertex, and its level is near its coreness.
fn check_point<R: Abort>(rt: &R, alloc: Global, graph: &Graph, levels: &Levels) {
    assert!(rt; graph.vertices() == VERTICES && levels.as_slice().len() == VERTICES as usize);
    let th = Thresholds::new(alloc, Profile::One, VERTICES).expect(rt, "memory");
    let corenesses = exact_coreness(alloc, graph).expect(rt, "memory");
    for v in 0..VERTICES {
        let level = levels.get(v);
        assert!(rt; level <= th.top());
        assert!(rt; check_upper(graph, levels, &th, v) && check_lower(graph, levels, &th, v));
        let (estimate, coreness) = (th.estimate(level), corenesses[v as usize]);
        assert!(rt; estimate.lo <= coreness && coreness <= estimate.hi);
        assert!(rt;
            estimate.est <= VERTICES && estimate.est <= 2 * coreness && coreness <= 3 * estimate.est
        );
    }
}

// Inserts the edge of a pair if `add`, and removes it otherwise.
fn change<R: Abort>(rt: &R, alloc: Global, graph: &mut Graph, add: bool, pair: (u32, u32)) {
    let (a, b) = pair;
    assert!(rt; a < b && b < graph.vertices());
    let e = Edge { a, b };
    if add {
        assert!(rt; !graph.has(e) && graph.edge_count() < MAX_EDGES);
        graph.insert(alloc, e).expect(rt, "memory");
    } else {
        assert!(rt; graph.has(e));
        graph.remove(e);
    }
}

// Histories from no edges and level 0, each point of which is checked.
#[test]
fn histories_point_by_point(rt: HostRuntime) {
    for history in HISTORIES {
        let mut graph = support::graph(&rt, rt.alloc(), VERTICES, &[]);
        let mut levels = support::levels(&rt, rt.alloc(), &[0, 0, 0, 0, 0]);
        for (add, pairs, moves) in *history {
            for pair in *pairs {
                change(&rt, rt.alloc(), &mut graph, *add, *pair);
            }
            for (v, level) in *moves {
                assert!(rt; (*v as usize) < levels.as_slice().len());
                levels.set(*v, *level);
            }
            check_point(&rt, rt.alloc(), &graph, &levels);
        }
    }
}
