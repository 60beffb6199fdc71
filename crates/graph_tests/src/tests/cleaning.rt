// Batches are cleaned in a graph. Some were worked out by hand; others are drawn at random, and the answer is compared
// with the definition, run as it stands.
ghost use Rattle.std.specs.Prelude.{◌≡◌, ◌<◌, ◌≤◌, All, IfSome, length};
ghost use Rattle.kc_graph.specs.Cleaning.{IsInside};

use super::support::{Pairs, check_row, edges, graph};
use kc_graph::Item::{Delete, Insert, Isolate};
use kc_graph::{Cleaned, Edge, Graph, Item, MAX_ITEMS, clean, clean_by};
use std::alloc::Global;
use std::process::Abort;
use test_support::graphs::are_inside;
use test_support::random::Random;

// A batch on the edges of a graph on five vertices:
//
// - the items of the batch, each an insertion +, a deletion - or an isolation x of its first vertex;
// - the edges that the batch removes, and those that it adds;
// - the numbers of loops, repeats and idle items.
const BATCHES: &[(Pairs, &[(char, u32, u32)], Pairs, Pairs, (u32, u32, u32))] = &[
    // No items.
    (&[(0, 1)], &[], &[], &[], (0, 0, 0)),
    // Loops alone.
    (
        &[(0, 1)],
        &[('+', 1, 1), ('-', 0, 0), ('+', 1, 1)],
        &[],
        &[],
        (3, 0, 0),
    ),
    // An insertion that is taken back, and a loop.
    (
        &[],
        &[('+', 0, 1), ('-', 0, 1), ('+', 2, 2)],
        &[],
        &[],
        (1, 1, 1),
    ),
    // Each edge from both of its ends.
    (
        &[],
        &[('+', 0, 1), ('+', 1, 0), ('+', 1, 2), ('+', 2, 1)],
        &[],
        &[(0, 1), (1, 2)],
        (0, 2, 0),
    ),
    // Both orders of a pair, edges that are there and others, the later edges first.
    (
        &[(0, 1), (1, 2), (3, 4)],
        &[
            ('-', 4, 3),
            ('+', 4, 2),
            ('-', 4, 0),
            ('+', 2, 1),
            ('+', 0, 3),
            ('+', 3, 4),
            ('-', 1, 2),
            ('-', 1, 0),
        ],
        &[(0, 1), (1, 2)],
        &[(0, 3), (2, 4)],
        (0, 2, 2),
    ),
    // An isolation removes all edges at its vertex.
    (
        &[(0, 1), (0, 2), (1, 2), (1, 4)],
        &[('x', 1, 1)],
        &[(0, 1), (1, 2), (1, 4)],
        &[],
        (0, 0, 0),
    ),
    // An isolation of a vertex without edges, with an item of an absent pair before it and one after.
    (
        &[],
        &[('+', 0, 1), ('x', 0, 0), ('+', 0, 2)],
        &[],
        &[(0, 2)],
        (0, 1, 1),
    ),
    // Items before an isolation are repeats, and items after it decide on their pairs. One of these keeps its edge, and
    // the other removes it in place of the isolation.
    (
        &[(0, 1), (0, 2), (0, 3)],
        &[
            ('-', 0, 1),
            ('+', 0, 4),
            ('x', 0, 0),
            ('+', 2, 0),
            ('-', 0, 3),
        ],
        &[(0, 1), (0, 3)],
        &[],
        (0, 2, 1),
    ),
    // Of two isolations of one vertex the last decides; it works by one edge, since the other is inserted again.
    (
        &[(1, 2), (1, 3)],
        &[('x', 1, 1), ('-', 1, 2), ('x', 1, 1), ('+', 1, 2)],
        &[(1, 3)],
        &[],
        (0, 1, 2),
    ),
    // Both ends of an edge are isolated: the later isolation decides, and the earlier one on nothing.
    (
        &[(2, 3)],
        &[('x', 3, 3), ('x', 2, 2)],
        &[(2, 3)],
        &[],
        (0, 0, 1),
    ),
    // The same with an edge more at the earlier one.
    (
        &[(2, 3), (3, 4)],
        &[('x', 3, 3), ('x', 2, 2)],
        &[(2, 3), (3, 4)],
        &[],
        (0, 0, 0),
    ),
    // All pairs of an isolation are decided by later items; a loop touches nothing.
    (
        &[(0, 1), (0, 4)],
        &[('x', 0, 0), ('+', 1, 0), ('+', 0, 0), ('-', 4, 0)],
        &[(0, 4)],
        &[],
        (1, 0, 2),
    ),
];

// Returns the items of a row.
fn items_of(rt: &impl Abort, alloc: Global, row: &[(char, u32, u32)]) -> Vec<Item> {
    let mut items = Vec::new(alloc);
    for &(kind, u, v) in row {
        let item = match kind {
            '+' => Insert { u, v },
            '-' => Delete { u, v },
            _ => Isolate { v },
        };
        items.push(item).expect(rt, "memory");
    }
    items
}

// Ends the test unless the batch may be cleaned.
fn check_items(rt: &impl Abort, n: u32, items: &[Item])
    ensures inside { All (IsInside n) items.now }
    ensures few { length items.now ≤ MAX_ITEMS }
{
    assert!(rt; are_inside(n, items) && items.len() <= MAX_ITEMS as usize);
}

// Returns whether cleaning gave these edges and counts.
fn has_given(cleaned: &Cleaned, removed: &[Edge], added: &[Edge], counts: (u32, u32, u32)) -> bool {
    cleaned.removed.as_slice() == removed
        && cleaned.added.as_slice() == added
        && (cleaned.loops, cleaned.repeats, cleaned.idle) == counts
}

#[test]
fn batches_come_to_this(rt: HostRuntime) {
    for (row, &(pairs, batch, removed, added, counts)) in BATCHES.iter().enumerate() {
        let graph = graph(&rt, rt.alloc(), 5, pairs);
        let items = items_of(&rt, rt.alloc(), batch);
        check_items(&rt, 5, &items);
        let cleaned = clean(&rt, rt.alloc(), &graph, &items).expect(&rt, "memory");
        let removed = edges(&rt, rt.alloc(), 5, removed);
        let added = edges(&rt, rt.alloc(), 5, added);
        check_row(&rt, row, has_given(&cleaned, &removed, &added, counts));
    }
}

// Returns whether an item inserts or deletes the edge between a and b, or isolates one of its ends; a < b.
fn touches(item: Item, a: u32, b: u32) -> bool {
    match item {
        Insert { u, v } | Delete { u, v } => u.min(v) == a && u.max(v) == b,
        Isolate { v } => a == v || b == v,
    }
}

// Returns the place of the last item that touches the pair.
fn deciding_place(items: &[Item], a: u32, b: u32) -> Option<usize>
    ensures { IfSome result (λ place. place < length items.now) }
{
    for later in 0..items.len() {
        let place = items.len() - 1 - later;
        if touches(items[place], a, b) {
            return Some(place);
        }
    }
    None
}

// What an item of a batch does: nothing yet, it decides on a pair, or it changes one.
#[derive(Clone, Copy, PartialEq)]
enum Part {
    None,
    Decides,
    Changes,
}

// Returns the numbers of loops, of repeats and of idle items.
fn counts_of(items: &[Item], parts: &[Part]) -> (u32, u32, u32) {
    let mut counts = (0u32, 0u32, 0u32);
    for (item, part) in items.iter().zip(parts) {
        let is_loop = match *item {
            Insert { u, v } | Delete { u, v } => u == v,
            Isolate { .. } => false,
        };
        let is_isolation = matches!(*item, Isolate { .. });
        if is_loop {
            counts.0 = counts.0.saturating_add(1);
        } else if *part == Part::None && !is_isolation {
            counts.1 = counts.1.saturating_add(1);
        } else if *part != Part::Changes {
            counts.2 = counts.2.saturating_add(1);
        }
    }
    counts
}

// Returns whether cleaning gave what the definition says: the last item that touches a pair decides on it.
fn is_as_defined(
    rt: &impl Abort,
    alloc: Global,
    graph: &Graph,
    items: &[Item],
    cleaned: &Cleaned,
) -> bool {
    let mut parts = vec![in alloc; Part::None; items.len()].expect(rt, "memory");
    let mut removed = Vec::new(alloc);
    let mut added = Vec::new(alloc);
    for a in 0..graph.vertices() {
        for b in a + 1..graph.vertices() {
            if let Some(place) = deciding_place(items, a, b) {
                let e = Edge { a, b };
                let inserts = matches!(items[place], Insert { .. });
                if graph.has(e) != inserts {
                    parts[place] = Part::Changes;
                    let changed = if inserts { &mut added } else { &mut removed };
                    changed.push(e).expect(rt, "memory");
                } else if parts[place] == Part::None {
                    parts[place] = Part::Decides;
                }
            }
        }
    }
    has_given(cleaned, &removed, &added, counts_of(items, &parts))
}

// Returns a graph of five vertices, with about half of all pairs as edges.
fn random_graph(rt: &impl Abort, alloc: Global, random: &mut Random) -> Graph
    ensures { result.vertices ≡ 5 }
{
    let mut pairs = Vec::new(alloc);
    for a in 0..5 {
        for b in a + 1..5 {
            if random.below(2) == 0 {
                pairs.push((a, b)).expect(rt, "memory");
            }
        }
    }
    graph(rt, alloc, 5, &pairs)
}

// Returns items on five vertices. Half of them insert, and an eighth isolate if they may.
fn random_items(
    rt: &impl Abort,
    alloc: Global,
    random: &mut Random,
    count: u32,
    may_isolate: bool,
) -> Vec<Item> {
    let mut items = Vec::new(alloc);
    for _ in 0..count {
        let (u, v) = (random.below(5), random.below(5));
        let item = match random.below(8) {
            0..4 => Insert { u, v },
            4 if may_isolate => Isolate { v },
            _ => Delete { u, v },
        };
        items.push(item).expect(rt, "memory");
    }
    items
}

#[test]
fn comes_to_what_the_definition_says(rt: HostRuntime) {
    let mut random = Random::new(1);
    for round in 0..100 {
        let graph = random_graph(&rt, rt.alloc(), &mut random);
        let items = random_items(&rt, rt.alloc(), &mut random, round.min(40), true);
        check_items(&rt, 5, &items);
        let cleaned = clean(&rt, rt.alloc(), &graph, &items).expect(&rt, "memory");
        assert!(rt; is_as_defined(&rt, rt.alloc(), &graph, &items, &cleaned));
    }
}

// Some tens of items, and as many that threads share the sort of their keys.
#[test]
fn one_worker_and_many_come_to_the_same(rt: HostRuntime) {
    let mut random = Random::new(2);
    for (count, may_isolate) in [(40, false), (90_000, false), (90_000, true)] {
        let graph = random_graph(&rt, rt.alloc(), &mut random);
        let items = random_items(&rt, rt.alloc(), &mut random, count, may_isolate);
        check_items(&rt, 5, &items);
        for workers in [0, 1, 2, 64] {
            let cleaned = clean_by(&rt, rt.alloc(), workers, &graph, &items).expect(&rt, "memory");
            assert!(rt; is_as_defined(&rt, rt.alloc(), &graph, &items, &cleaned));
        }
    }
}

// Returns the pairs of a path through the vertices below n.
fn path(rt: &impl Abort, alloc: Global, n: u32) -> Vec<(u32, u32)> {
    let mut pairs = Vec::new(alloc);
    for v in 1..n {
        pairs.push((v - 1, v)).expect(rt, "memory");
    }
    pairs
}

// Returns insertions and deletions between vertices below n.
fn drawn_items(rt: &impl Abort, alloc: Global, random: &mut Random, n: u32, count: u32) -> Vec<Item>
    requires { 0 < n }
{
    let mut items = Vec::new(alloc);
    for _ in 0..count {
        let (u, v) = (random.below(n), random.below(n));
        let item = if random.below(2) == 0 {
            Insert { u, v }
        } else {
            Delete { u, v }
        };
        items.push(item).expect(rt, "memory");
    }
    items
}

// Keys that are few, dealt as a whole, dealt by ranges, or sorted by threads, on few and on many vertices. The same
// items are cleaned by the walk for isolations too, with one more of a vertex that no item names.
#[test]
fn sorted_keys_come_to_what_a_walk_does(rt: HostRuntime) {
    let mut random = Random::new(3);
    for (n, count) in [(12u32, 500), (12, 3_000), (300, 3_000), (5_000, 66_000)] {
        assert!(rt; n > 1);
        let pairs = path(&rt, rt.alloc(), n - 1);
        let graph = graph(&rt, rt.alloc(), n, &pairs);
        let mut items = drawn_items(&rt, rt.alloc(), &mut random, n - 1, count);
        check_items(&rt, n, &items);
        let alone = clean_by(&rt, rt.alloc(), 1, &graph, &items).expect(&rt, "memory");
        let shared = clean_by(&rt, rt.alloc(), 2, &graph, &items).expect(&rt, "memory");
        items.push(Isolate { v: n - 1 }).expect(&rt, "memory");
        check_items(&rt, n, &items);
        let walked = clean(&rt, rt.alloc(), &graph, &items).expect(&rt, "memory");
        let (removed, added) = (walked.removed.as_slice(), walked.added.as_slice());
        let counts = (walked.loops, walked.repeats, walked.idle.saturating_sub(1));
        assert!(rt; has_given(&alone, removed, added, counts));
        assert!(rt; has_given(&shared, removed, added, counts));
    }
}

// An isolation of the centre of a star removes all of its edges, enough for threads to share their sort.
#[test]
fn large_star_is_isolated(rt: HostRuntime) {
    let mut pairs = Vec::new(rt.alloc());
    for leaf in 1..66_001u32 {
        pairs.push((0u32, leaf)).expect(&rt, "memory");
    }
    let star = graph(&rt, rt.alloc(), 66_001, &pairs);
    let removed = edges(&rt, rt.alloc(), 66_001, &pairs);
    let cleaned = clean(&rt, rt.alloc(), &star, &[Isolate { v: 0 }]).expect(&rt, "memory");
    assert!(rt; has_given(&cleaned, &removed, &[], (0, 0, 0)));
}
