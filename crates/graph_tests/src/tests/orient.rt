//! Orientations and colourings of small graphs, worked out by hand, and of others beside their definitions.

ghost use Rattle.std.specs.Prelude.{◌≡◌, ◌<◌, length};

use super::drawing::drawn_pairs;
use super::plainly::count_of;
use super::support;
use kc_graph::{Edge, Graph};
use kc_levels::Levels;
use kc_orient::{Orientation, colour, orient};
use test_support::random::Random;

// The edges of graphs, their levels, and the out-neighbours and the colour of each vertex.
const GRAPHS: &[(&[(u32, u32)], &[u16], &[&[u32]], &[u32])] = &[
    // Four vertices joined each with each on one level, and one alone.
    (
        &[(0, 1), (0, 2), (0, 3), (1, 2), (1, 3), (2, 3)],
        &[6, 6, 6, 6, 0],
        &[&[1, 2, 3], &[2, 3], &[3], &[], &[]],
        &[3, 2, 1, 0, 0],
    ),
    // A star, whose middle is a level above its leaves.
    (
        &[(0, 1), (0, 2), (0, 3), (0, 4)],
        &[2, 1, 1, 1, 1],
        &[&[], &[0], &[0], &[0], &[0]],
        &[0, 1, 1, 1, 1],
    ),
    // A path whose middle is the lowest, so that its two out-neighbours have one colour.
    (
        &[(0, 1), (1, 2)],
        &[1, 0, 1],
        &[&[], &[0, 2], &[]],
        &[0, 1, 0],
    ),
];

#[test]
fn small_graphs(rt: HostRuntime) {
    for (pairs, levels, outs, want) in GRAPHS {
        let n = count_of(&rt, levels.len());
        let graph = support::graph(&rt, rt.alloc(), n, pairs);
        let levels = support::levels(&rt, rt.alloc(), levels);
        let orientation = orient(rt.alloc(), &graph, &levels).expect(&rt, "memory");
        let colours = colour(rt.alloc(), &orientation).expect(&rt, "memory");
        for v in 0..n {
            assert!(rt; outs.get(v as usize) == Some(&orientation.out(v)));
        }
        assert!(rt; colours.as_slice() == *want);
    }
}

// Returns whether w has this colour.
fn has_colour(colours: &[u32], w: u32, colour: u32) -> bool {
    colours.get(w as usize) == Some(&colour)
}

// Returns whether the out-neighbours of v are its neighbours that are above it, ascending.
fn is_oriented(graph: &Graph, levels: &Levels, orientation: &Orientation, v: u32) -> bool
    requires vertex { v < graph.now.vertices }
    requires sized { length levels.now ≡ graph.now.vertices }
    requires same { length orientation.now.levels ≡ graph.now.vertices }
{
    let mut rest = orientation.out(v).iter();
    for w in 0..graph.vertices() {
        let is_above = (levels.get(w), w) > (levels.get(v), v);
        let (a, b) = (v.min(w), v.max(w));
        if orientation.above(v, w) != is_above {
            return false;
        }
        if is_above && a < b && graph.has(Edge { a, b }) && rest.next() != Some(&w) {
            return false;
        }
    }
    rest.next().is_none()
}

// Returns whether each lesser colour is that of an out-neighbour, and the own one isn't.
fn is_least_free(out: &[u32], colours: &[u32], own: u32) -> bool {
    (0..own).all(|k| out.iter().any(|w| has_colour(colours, *w, k)))
        && !out.iter().any(|w| has_colour(colours, *w, own))
}

// Many small graphs with any levels. Out-neighbours are found from the pairs that are edges, and colours by their
// definition.
#[test]
fn small_graphs_by_the_definition(rt: HostRuntime) {
    let mut random = Random::new(1);
    for round in 0..3_000u32 {
        let n = 1 + random.below(9);
        let pairs = drawn_pairs(&rt, rt.alloc(), &mut random, n, 1 + round % 4, n);
        let graph = support::graph(&rt, rt.alloc(), n, &pairs);
        let mut levels = Vec::new(rt.alloc());
        for _ in 0..n {
            levels.push(random.below(4) as u16).expect(&rt, "memory");
        }
        assert!(rt; levels.len() == n as usize);
        let levels = support::levels(&rt, rt.alloc(), &levels);
        let orientation = orient(rt.alloc(), &graph, &levels).expect(&rt, "memory");
        let colours = colour(rt.alloc(), &orientation).expect(&rt, "memory");
        assert!(rt; colours.len() == n as usize);
        for v in 0..n {
            assert!(rt; is_oriented(&graph, &levels, &orientation, v));
            assert!(rt; is_least_free(orientation.out(v), &colours, colours[v as usize]));
        }
    }
}
