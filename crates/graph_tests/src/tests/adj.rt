// Counts and desired levels of small graphs, worked out by hand, as edges and levels change. Items filed under levels.
ghost use Rattle.std.specs.Prelude.{◌≡◌, ◌<◌, ◌≤◌, ◌^◌, ℕ, IfOk, length, slice_index, true};
ghost use Rattle.kc_graph.specs.Numbers.{has_number};
ghost use Rattle.kc_levels.specs.Following.{AreDistinct};

use super::support::{check_row, levelled, levels};
use kc_adj::{LevelAdj, LevelLists, Steps};
use kc_graph::{Crew, Edge, MAX_EDGES, MAX_VERTICES};
use kc_levels::{Levels, Profile, Thresholds, at_least};
use std::alloc::{AllocError, Global};
use std::marker::Brand;
use std::process::Abort;
use std::sync::ledger::{Blank, Ledger};
use std::thread::Threads;
use test_support::graphs::is_below;

// Changes to the graph on 5 vertices without edges, all on level 0, and what holds after them.
//
// - The changes: + adds an edge, - removes it, ^ lifts a vertex to a level, r lifts it by one level, v lowers it to a
//   level.
// - The levels after the changes.
// - For each vertex, how many of its neighbours are on its level or above.
// - For each vertex, how many are on the level below or above.
// - The desired levels.
//
// The top level is 6. A vertex stays on a level from 1 to 6 if it has a neighbour on the level below or above.
const CHANGES: &[(&[(char, u32, u32)], [u16; 5], [u32; 5], [u32; 5], [u16; 5])] = &[
    (&[], [0; 5], [0; 5], [0; 5], [0; 5]),
    // One edge, of which one end has risen; then without the edge.
    (
        &[('+', 0, 1), ('r', 0, 1)],
        [1, 0, 0, 0, 0],
        [0, 1, 0, 0, 0],
        [1, 1, 0, 0, 0],
        [1, 0, 0, 0, 0],
    ),
    (
        &[('+', 0, 1), ('r', 0, 1), ('-', 0, 1)],
        [1, 0, 0, 0, 0],
        [0; 5],
        [0; 5],
        [0; 5],
    ),
    // A triangle with one more vertex at 0.
    (
        &[
            ('+', 0, 1),
            ('^', 0, 3),
            ('+', 1, 2),
            ('r', 1, 1),
            ('+', 0, 3),
            ('^', 3, 6),
            ('r', 1, 1),
            ('+', 0, 2),
            ('v', 3, 1),
        ],
        [3, 2, 0, 1, 0],
        [0, 1, 2, 1, 0],
        [1, 1, 2, 1, 0],
        [3, 2, 0, 1, 0],
    ),
    // A star whose centre is on the top level; then without the edge to its highest leaf.
    (
        &[
            ('^', 1, 4),
            ('+', 0, 1),
            ('+', 0, 2),
            ('+', 0, 3),
            ('^', 0, 6),
            ('^', 2, 2),
        ],
        [6, 4, 2, 0, 0],
        [0, 1, 1, 1, 0],
        [0, 1, 1, 1, 0],
        [5, 4, 2, 0, 0],
    ),
    (
        &[
            ('+', 0, 1),
            ('+', 0, 2),
            ('+', 0, 3),
            ('^', 0, 6),
            ('^', 1, 4),
            ('^', 2, 2),
            ('-', 0, 1),
        ],
        [6, 4, 2, 0, 0],
        [0, 0, 1, 1, 0],
        [0, 0, 1, 1, 0],
        [3, 0, 2, 0, 0],
    ),
];

// Makes a change.
fn apply<L: Ledger>(
    rt: &impl Abort,
    alloc: Global,
    adj: &mut LevelAdj,
    change: (char, u32, u32),
    steps: &mut Steps<L>,
) {
    let (kind, a, b) = change;
    assert!(rt; a < adj.graph().vertices() && b < 65536);
    let to = b as u16;
    match kind {
        '^' => {
            assert!(rt; adj.level(a) <= to);
            adj.lift(a, to, steps);
        }
        'v' => {
            assert!(rt; to <= adj.level(a));
            adj.fall(a, to, steps);
        }
        'r' => {
            assert!(rt; adj.level(a) < 65535);
            adj.rise(a, steps);
        }
        _ => {
            assert!(rt; a < b && b < adj.graph().vertices());
            let e = Edge { a, b };
            if kind == '-' {
                assert!(rt; adj.graph().has(e));
                adj.unlink(e, steps);
            } else {
                assert!(rt; !adj.graph().has(e) && adj.graph().edge_count() < MAX_EDGES);
                adj.link(alloc, e, steps).expect(rt, "memory");
            }
        }
    }
}

// Returns whether the counts and the desired level of a vertex are these, also by a fresh count, and for any guess of
// the level.
fn is_counted(adj: &LevelAdj, th: &Thresholds, v: u32, own: u32, below: u32, desired: u16) -> bool
    requires scale { th.now.vertices ≡ adj.now.graph.vertices }
    requires vertex { v < adj.now.graph.vertices }
{
    let level = adj.level(v);
    level <= th.top()
        && adj.at_least_own(v) == own
        && at_least(adj.graph(), adj.levels(), v, level) == own
        && adj.at_least_below(v) == below
        && adj.desired(th, v) == desired
        && adj.desired_near(th, v, 0) == desired
        && adj.desired_near(th, v, desired) == desired
        && adj.desired_near(th, v, 65535) == desired
}

fn check_changes<L: Ledger>(rt: &impl Abort, alloc: Global, blank: Blank)
    requires name { blank.name ≡ L.name }
    requires parts { blank.parts ≡ L.parts }
    requires positive { 0 < blank.parts }
{
    let mut steps = Steps::<L>::new(blank);
    let th = Thresholds::new(alloc, Profile::One, 5).expect(rt, "memory");
    for (row, &(changes, items, own, below, desired)) in CHANGES.iter().enumerate() {
        let mut adj = LevelAdj::new(alloc, 5).expect(rt, "memory");
        for change in changes {
            apply(rt, alloc, &mut adj, *change, &mut steps);
        }
        assert!(rt; adj.graph().vertices() == 5);
        check_row(
            rt,
            row,
            adj.levels().as_slice() == items.as_slice() && adj.own_counts() == own.as_slice(),
        );
        for v in 0..5 {
            let i = v as usize;
            check_row(
                rt,
                row,
                is_counted(&adj, &th, v, own[i], below[i], desired[i]),
            );
        }
    }
}

#[test]
fn counts_and_desired_levels(rt: HostRuntime) {
    check_changes::<Brand>(&rt, rt.alloc(), Blank::new(1));
}

// Returns a graph on n vertices with up to six neighbours for each. The first `high` of them are on the levels 0 to 4,
// and all others on level 0.
fn woven<L: Ledger>(
    rt: &impl Abort,
    alloc: Global,
    n: u32,
    high: u32,
    steps: &mut Steps<L>,
) -> LevelAdj {
    let mut pairs = Vec::new(alloc);
    let mut items = Vec::new(alloc);
    for a in 0..n {
        for step in [1, 7, 30] {
            if let Some(b) = a.checked_add(step).filter(|b| *b < n) {
                pairs.push((a, b)).expect(rt, "memory");
            }
        }
        let level = if a < high { (a % 5) as u16 } else { 0 };
        items.push(level).expect(rt, "memory");
    }
    levelled(rt, alloc, &pairs, &items, steps)
}

// Returns other levels, none of which is lower. Only the first `high` vertices may rise.
fn raised(rt: &impl Abort, alloc: Global, adj: &LevelAdj, high: u32) -> Levels {
    let mut items = Vec::new(alloc);
    for v in 0..adj.graph().vertices() {
        let least = if v < high { (v % 7) as u16 } else { 0 };
        items.push(adj.level(v).max(least)).expect(rt, "memory");
    }
    levels(rt, alloc, &items)
}

// Returns all vertices above level 0, if there is memory.
fn try_vertices(alloc: Global, levels: &Levels) -> Result<Vec<u32>, AllocError>
    requires { length levels.now < 2 ^ 32 }
    ensures inside { IfOk result (λ vs. (v : ℕ) → has_number v vs.items ≡ true → v < length levels.now) }
    ensures lifted { IfOk result (λ vs. (v : ℕ) → 0 < slice_index levels.now v → has_number v vs.items ≡ true) }
    ensures once { IfOk result (λ vs. AreDistinct vs.items) }
{
    let n = levels.as_slice().len() as u32;
    let mut vertices = Vec::new(alloc);
    for v in 0..n {
        if levels.get(v) > 0 {
            vertices.push(v)?;
        }
    }
    Ok(vertices)
}

// Returns all vertices above level 0.
fn vertices_of(rt: &impl Abort, alloc: Global, levels: &Levels) -> Vec<u32>
    requires { length levels.now < 2 ^ 32 }
    ensures inside { (v : ℕ) → has_number v result.items ≡ true → v < length levels.now }
    ensures lifted { (v : ℕ) → 0 < slice_index levels.now v → has_number v result.items ≡ true }
    ensures once { AreDistinct result.items }
{
    try_vertices(alloc, levels).expect(rt, "memory")
}

fn have_same_counts(a: &LevelAdj, b: &LevelAdj) -> bool {
    if a.graph().vertices() != b.graph().vertices() || a.own_counts() != b.own_counts() {
        return false;
    }
    for v in 0..a.graph().vertices() {
        if a.level(v) != b.level(v) || a.at_least_below(v) != b.at_least_below(v) {
            return false;
        }
    }
    true
}

// Checks that vertices that are lifted together, alone or by threads, end as those that are lifted one by one. They
// are some of the first `high` of n vertices.
fn check_lifted<R: Abort + Threads + Sync, L: Ledger>(
    rt: &R,
    alloc: Global,
    n: u32,
    high: u32,
    blank: Blank,
)
    requires name { blank.name ≡ L.name }
    requires parts { blank.parts ≡ L.parts }
    requires positive { 0 < blank.parts }
{
    let mut steps = Steps::<L>::new(blank);
    let mut one_by_one = woven(rt, alloc, n, high, &mut steps);
    let new = raised(rt, alloc, &one_by_one, high);
    for v in 0..n {
        assert!(rt; (v as usize) < new.as_slice().len());
        apply(
            rt,
            alloc,
            &mut one_by_one,
            ('^', v, u32::from(new.get(v))),
            &mut steps,
        );
    }
    assert!(rt; new.as_slice().len() == n as usize);
    let vertices = vertices_of(rt, alloc, &new);
    for workers in [0, 1, 2, 64] {
        let mut together = woven(rt, alloc, n, high, &mut steps);
        assert!(rt; together.graph().vertices() == n && is_below(together.levels(), &new));
        if workers == 0 {
            together.lift_all(&vertices, &new, &mut steps);
        } else {
            together
                .par_lift_all(&Crew { rt, alloc, workers }, &vertices, &new, &mut steps)
                .expect(rt, "memory");
        }
        assert!(rt; have_same_counts(&together, &one_by_one));
    }
}

// The vertices that are lifted have more than half of all neighbours or, if `high` is less than n, fewer. For 33,000
// vertices threads make all counts afresh. For 17,400 they pass over the neighbours of some 8,250.
#[test]
fn lifted_together_as_one_by_one(rt: HostRuntime) {
    for (n, high) in [(2, 2), (9, 9), (9, 3), (33_000, 33_000), (17_400, 8_500)] {
        check_lifted::<_, Brand>(&rt, rt.alloc(), n, high, Blank::new(1));
    }
}

// Checks that the graph is as before if memory for an edge is refused, which a run with few allocations shows.
fn check_link<L: Ledger>(rt: &impl Abort, alloc: Global, blank: Blank)
    requires name { blank.name ≡ L.name }
    requires parts { blank.parts ≡ L.parts }
    requires positive { 0 < blank.parts }
{
    let mut steps = Steps::<L>::new(blank);
    let mut adj = LevelAdj::new(alloc, 5).expect(rt, "memory");
    let linked = adj.link(alloc, Edge { a: 1, b: 3 }, &mut steps).is_ok();
    assert!(rt; adj.graph().vertices() == 5 && adj.graph().edge_count() == linked as u32);
    for v in [1, 3] {
        assert!(rt; adj.at_least_own(v) == linked as u32 && adj.at_least_below(v) == linked as u32);
        assert!(rt; adj.graph().neighbours(v).len() == linked as usize);
    }
}

#[test]
fn an_edge_comes_in_whole_or_not_at_all(rt: HostRuntime) {
    check_link::<Brand>(&rt, rt.alloc(), Blank::new(1));
}

// A level, and the first level from it on that has items.
const NEXT: &[(u16, u16)] = &[(0, 3), (3, 3), (4, 70), (70, 70), (71, 200), (201, 201)];

// Lists are made up to a level, and levels without items are passed over, also past the levels that share a mark.
#[test]
fn items_by_level(rt: HostRuntime) {
    let mut lists = LevelLists::new(rt.alloc(), 1).expect(&rt, "memory");
    lists.reach(rt.alloc(), 200).expect(&rt, "memory");
    assert!(rt; lists.count() == 201 && lists.next(0) == 201);
    for level in [70u16, 3, 200, 70] {
        assert!(rt; level < lists.count());
        lists
            .file(level, u32::from(level) + 1)
            .expect(&rt, "memory");
    }
    lists.reach(rt.alloc(), 130).expect(&rt, "memory");
    assert!(rt; lists.count() == 201);
    for (row, &(from, next)) in NEXT.iter().enumerate() {
        assert!(rt; from <= 201);
        check_row(&rt, row, lists.next(from) == next);
    }
    assert!(rt; lists.on(70) == [71u32, 71].as_slice());
    assert!(rt;
        lists.take_all(rt.alloc(), 70).as_slice() == [71u32, 71].as_slice() && lists.next(4) == 200
    );
    lists.clear(rt.alloc());
    assert!(rt; lists.count() == 201 && lists.next(0) == 201);
}
