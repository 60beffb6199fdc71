//! Plans of phases. On small graphs the labels were worked out by hand; on random ones a plain body gives them.

ghost use Rattle.std.specs.Prelude.{◌≡◌, ◌≤◌, length};
ghost use Rattle.kc_graph.specs.Shape.{EdgesFrom};
ghost use Rattle.kc_levels.specs.Moved.{moves_between};
ghost use Rattle.kc_groups.specs.Gathering.{clean};

use super::drawing::{dealt, drawn_pairs};
use super::insert::WORKERS;
use super::plainly::{count_of, level_of};
use super::support;
use kc_graph::{Crew, Edge, Graph, MAX_VERTICES};
use kc_groups::{GroupWork, Phase, PhasePlan, plan_moves, plan_phase};
use kc_history::{Entries, Entry, Move, Moves};
use std::alloc::Global;
use std::process::Abort;
use std::thread::Threads;
use test_support::graphs::{are_present, is_below};
use test_support::random::Random;

// The label of a vertex that doesn't move.
const NONE: u32 = u32::MAX;

// A phase: whether its edges come in (`add`) or leave, its edges, and the other edges of its graph. Then the levels
// before and after it, and the label of each vertex.
#[derive(Clone, Copy)]
struct Case<'a> {
    add: bool,
    edges: &'a [(u32, u32)],
    others: &'a [(u32, u32)],
    before: &'a [u16],
    after: &'a [u16],
    labels: &'a [u32],
}

// Returns the moves from levels to others.
fn moves_from<R: Abort>(rt: &R, alloc: Global, before: &[u16], after: &[u16]) -> Moves
    requires small { length before.now ≤ MAX_VERTICES }
    requires same { length after.now ≡ length before.now }
    ensures { result ≡ moves_between (length before.now) before.now after.now }
{
    let mut moves = Moves::new(alloc);
    for v in 0..before.len() as u32 {
        let (old, new) = (before[v as usize], after[v as usize]);
        if old != new {
            moves
                .push(Move {
                    vertex: v,
                    old,
                    new,
                })
                .expect(rt, "memory");
        }
    }
    moves
}

// Returns the plan of a phase whose edges the graph lacks, by a workspace that other phases use too.
fn plan_lacking<R: Threads + Sync + Abort>(
    crew: &Crew<'_, R>,
    case: &Case<'_>,
    edges: &[Edge],
    graph: &Graph,
    work: &mut GroupWork,
) -> PhasePlan
    requires before { length case.now.before.now ≡ graph.now.vertices }
    requires after { length case.now.after.now ≡ graph.now.vertices }
    requires ascending { EdgesFrom graph.now.vertices 0 0 edges.now }
    requires clean { work.old ≡ clean graph.now.vertices }
    ensures clean { work.new ≡ clean graph.now.vertices }
{
    let rt = crew.rt;
    let _n = graph.vertices();
    let moves = moves_from(rt, crew.alloc, case.before, case.after);
    let phase = Phase {
        number: 7,
        add: case.add,
        edges,
        moves: &moves,
    };
    plan_moves(crew, &phase, graph, edges, work).expect(rt, "memory")
}

// Spreads the lesser label of each pair to both ends, if both move. Returns whether a label changed.
fn spread(pairs: &[(u32, u32)], labels: &mut Vec<u32>) -> bool {
    let mut has_changed = false;
    for pair in pairs {
        let (a, b) = (label_of(labels, pair.0), label_of(labels, pair.1));
        if a != b && a != NONE && b != NONE {
            has_changed = true;
            for v in [pair.0, pair.1] {
                if let Some(label) = labels.get_mut(v as usize) {
                    *label = a.min(b);
                }
            }
        }
    }
    has_changed
}

fn label_of(labels: &[u32], v: u32) -> u32 {
    labels.get(v as usize).copied().unwrap_or(NONE)
}

// Returns the label of each vertex, spread from pair to pair until none changes.
fn labels_plainly<R: Abort>(
    rt: &R,
    alloc: Global,
    edges: &[(u32, u32)],
    others: &[(u32, u32)],
    before: &[u16],
    after: &[u16],
) -> Vec<u32> {
    let n = count_of(rt, before.len());
    let mut labels = Vec::new(alloc);
    for v in 0..n {
        let moves = level_of(before, v) != level_of(after, v);
        labels
            .push(if moves { v } else { NONE })
            .expect(rt, "memory");
    }
    for _ in 0..n {
        let by_edges = spread(edges, &mut labels);
        let by_others = spread(others, &mut labels);
        if !by_edges && !by_others {
            break;
        }
    }
    labels
}

// Returns the plan by the labels: vertices and edges are dealt to the entries one after another.
fn plan_plainly<R: Abort>(rt: &R, alloc: Global, case: &Case<'_>) -> PhasePlan {
    let mut quiet = Entry::new(alloc, 7, None, case.add);
    let mut groups: Vec<Entry> = Vec::new(alloc);
    let mut places = Vec::new(alloc);
    for v in 0..count_of(rt, case.labels.len()) {
        let label = label_of(case.labels, v);
        if label == v {
            groups
                .push(Entry::new(alloc, 7, Some(v), case.add))
                .expect(rt, "memory");
        }
        places
            .push(groups.len().wrapping_sub(1))
            .expect(rt, "memory");
        let (old, new) = (level_of(case.before, v), level_of(case.after, v));
        if let Some(entry) = entry_of(&mut groups, &places, label) {
            entry
                .push_move(Move {
                    vertex: v,
                    old,
                    new,
                })
                .expect(rt, "memory");
        }
    }
    for pair in case.edges {
        let (a, b) = *pair;
        assert!(rt; a < b);
        let label = label_of(case.labels, a).min(label_of(case.labels, b));
        match entry_of(&mut groups, &places, label) {
            Some(entry) => entry.push_edge(Edge { a, b }).expect(rt, "memory"),
            None => quiet.push_edge(Edge { a, b }).expect(rt, "memory"),
        }
    }
    PhasePlan {
        quiet,
        groups: Entries::from_vec(groups),
    }
}

// Returns the entry of a label: the last one when the vertex of that number was dealt.
fn entry_of<'a>(groups: &'a mut Vec<Entry>, places: &[usize], label: u32) -> Option<&'a mut Entry> {
    let place = *places.get(label as usize)?;
    groups.get_mut(place)
}

fn is_same_entry(x: &Entry, y: &Entry) -> bool {
    x.phase == y.phase
        && x.label == y.label
        && x.add == y.add
        && x.moves.as_slice() == y.moves.as_slice()
        && x.edges.as_slice() == y.edges.as_slice()
}

fn is_same_plan(x: &PhasePlan, y: &PhasePlan) -> bool {
    let (xs, ys) = (x.groups.as_slice(), y.groups.as_slice());
    is_same_entry(&x.quiet, &y.quiet)
        && xs.len() == ys.len()
        && xs.iter().zip(ys.iter()).all(|(a, b)| is_same_entry(a, b))
}

// Returns the plan of a phase from the levels, whose edges the graph has.
fn plan_having<R: Abort>(
    rt: &R,
    alloc: Global,
    n: u32,
    case: &Case<'_>,
    edges: &[Edge],
) -> PhasePlan
    requires before { length case.now.before.now ≡ n }
    requires after { length case.now.after.now ≡ n }
    requires ascending { EdgesFrom n 0 0 edges.now }
{
    let mut pairs = case.others.to_vec(alloc).expect(rt, "memory");
    pairs.extend_from_slice(case.edges).expect(rt, "memory");
    let graph = support::graph(rt, alloc, n, &pairs);
    let before = support::levels(rt, alloc, case.before);
    let after = support::levels(rt, alloc, case.after);
    assert!(rt; are_present(&graph, edges));
    assert!(rt; !case.add || is_below(&before, &after));
    assert!(rt; case.add || is_below(&after, &before));
    plan_phase(alloc, 7, case.add, edges, &before, &after, &graph).expect(rt, "memory")
}

// Checks that the plans of a phase are the plain one.
fn check<R: Threads + Sync + Abort>(
    crew: &Crew<'_, R>,
    n: u32,
    case: &Case<'_>,
    work: &mut GroupWork,
)
    requires clean { work.old ≡ clean n }
    ensures clean { work.new ≡ clean n }
{
    let rt = crew.rt;
    let alloc = crew.alloc;
    assert!(rt; case.before.len() == n as usize && case.after.len() == n as usize);
    let want = plan_plainly(rt, alloc, case);
    let graph = support::graph(rt, alloc, n, case.others);
    let edges = support::edges(rt, alloc, n, case.edges);
    let plan = plan_lacking(crew, case, &edges, &graph, work);
    assert!(rt; is_same_plan(&plan, &want));
    if crew.workers <= 1 {
        let plan = plan_having(rt, alloc, n, case, &edges);
        assert!(rt; is_same_plan(&plan, &want));
    }
}

// Checks phases of n vertices, one after another, with one workspace.
fn check_all<R: Threads + Sync + Abort>(
    rt: &R,
    alloc: Global,
    workers: u32,
    n: u32,
    cases: &[Case<'_>],
) {
    let crew = Crew { rt, alloc, workers };
    let mut work = GroupWork::new(alloc, n).expect(rt, "memory");
    for case in cases {
        check(&crew, n, case, &mut work);
    }
}

// Four vertices joined each with each lose an edge and stay, and two others fall.
const STAYING: Case = Case {
    add: false,
    edges: &[(0, 1), (4, 5)],
    others: &[(0, 2), (0, 3), (1, 2), (1, 3), (2, 3)],
    before: &[6, 6, 6, 6, 1, 1],
    after: &[6, 6, 6, 6, 0, 0],
    labels: &[NONE, NONE, NONE, NONE, 4, 4],
};

// Phases of six vertices: the labels were worked out by hand.
const CASES: &[Case] = &[
    // A path rises together.
    Case {
        add: true,
        edges: &[(0, 1), (1, 2)],
        others: &[],
        before: &[0, 0, 0, 0, 0, 0],
        after: &[1, 1, 1, 0, 0, 0],
        labels: &[0, 0, 0, NONE, NONE, NONE],
    },
    // Four vertices joined each with each stay, and the one that gets an edge to them rises by itself.
    Case {
        add: true,
        edges: &[(3, 4)],
        others: &[(0, 1), (0, 2), (0, 3), (1, 2), (1, 3), (2, 3)],
        before: &[6, 6, 6, 6, 0, 0],
        after: &[6, 6, 6, 6, 1, 0],
        labels: &[NONE, NONE, NONE, NONE, 4, NONE],
    },
    STAYING,
    // Two groups rise.
    Case {
        add: true,
        edges: &[(0, 1), (2, 3)],
        others: &[],
        before: &[0, 0, 0, 0, 0, 0],
        after: &[1, 1, 1, 1, 0, 0],
        labels: &[0, 0, 2, 2, NONE, NONE],
    },
    // A star gains an edge: its middle and the new end rise, from different levels, and its other ends stay.
    Case {
        add: true,
        edges: &[(0, 3)],
        others: &[(0, 1), (0, 2)],
        before: &[1, 1, 1, 0, 0, 0],
        after: &[2, 1, 1, 1, 0, 0],
        labels: &[0, NONE, NONE, 0, NONE, NONE],
    },
    // A path leaves and its three vertices fall.
    Case {
        add: false,
        edges: &[(0, 2), (1, 2)],
        others: &[],
        before: &[1, 1, 1, 0, 0, 0],
        after: &[0, 0, 0, 0, 0, 0],
        labels: &[0, 0, 0, NONE, NONE, NONE],
    },
    // Then two others rise, and an edge comes in between two of the three, which stay.
    Case {
        add: true,
        edges: &[(1, 2), (3, 5)],
        others: &[],
        before: &[0, 0, 0, 0, 0, 0],
        after: &[0, 0, 0, 1, 0, 1],
        labels: &[NONE, NONE, NONE, 3, NONE, 3],
    },
];

#[test]
fn small_phases_with_one_workspace(rt: HostRuntime) {
    check_all(&rt, rt.alloc(), 0, 6, CASES);
    check_all(&rt, rt.alloc(), 2, 6, CASES);
}

// The entries of a phase, as worked out by hand.
#[test]
fn an_edge_between_vertices_that_stay_is_quiet(rt: HostRuntime) {
    let plan = plan_plainly(&rt, rt.alloc(), &STAYING);
    let groups = plan.groups.as_slice();
    assert!(rt; plan.quiet.edges.as_slice() == [Edge { a: 0, b: 1 }].as_slice());
    assert!(rt; plan.quiet.moves.is_empty() && groups.len() == 1);
    assert!(rt;
        groups[0].label == Some(4) && groups[0].edges.as_slice() == [Edge { a: 4, b: 5 }].as_slice()
    );
    assert!(rt; groups[0].moves.len() == 2);
}

// More levels than are compared at once, and a move at each end of such a run and at the last vertex.
#[test]
fn groups_far_apart_rise(rt: HostRuntime) {
    let mut after = Vec::new(rt.alloc());
    let mut labels = Vec::new(rt.alloc());
    for v in 0..70u32 {
        let label = match v {
            31 | 32 => 31,
            63 | 69 => 63,
            _ => NONE,
        };
        after.push(u16::from(label != NONE)).expect(&rt, "memory");
        labels.push(label).expect(&rt, "memory");
    }
    let case = Case {
        add: true,
        edges: &[(31, 32), (63, 69)],
        others: &[],
        before: &[0; 70],
        after: &after,
        labels: &labels,
    };
    check_all(&rt, rt.alloc(), 1, 70, &[case]);
}

// Two paths, of the even and of the odd vertices, one of which loses its first edge: each leads through all pieces.
#[test]
fn groups_are_the_same_in_any_number_of_pieces(rt: HostRuntime) {
    let n = 33_000;
    let mut others = Vec::new(rt.alloc());
    let mut labels = Vec::new(rt.alloc());
    for v in 0..n {
        labels.push(v % 2).expect(&rt, "memory");
        if v > 0 && v + 2 < n {
            others.push((v, v + 2)).expect(&rt, "memory");
        }
    }
    let before = vec![in rt.alloc(); 1u16; n as usize].expect(&rt, "memory");
    let after = vec![in rt.alloc(); 0u16; n as usize].expect(&rt, "memory");
    let case = Case {
        add: false,
        edges: &[(0, 2)],
        others: &others,
        before: &before,
        after: &after,
        labels: &labels,
    };
    for workers in WORKERS {
        check_all(&rt, rt.alloc(), workers, n, &[case]);
    }
}

// Checks a random phase of n vertices, most of which move.
fn check_drawn<R: Threads + Sync + Abort>(
    rt: &R,
    alloc: Global,
    random: &mut Random,
    n: u32,
    add: bool,
    workers: &[u32],
) {
    let pairs = drawn_pairs(rt, alloc, random, n, n.max(1), 3);
    let dealt = dealt(rt, alloc, random, &pairs, 4);
    let mut low = Vec::new(alloc);
    let mut high = Vec::new(alloc);
    for _ in 0..n {
        let level = random.below(3) as u16;
        low.push(level).expect(rt, "memory");
        high.push(level.saturating_add(random.below(4) as u16))
            .expect(rt, "memory");
    }
    let (before, after) = if add { (low, high) } else { (high, low) };
    let (edges, others) = (dealt.first, dealt.third);
    let labels = labels_plainly(rt, alloc, &edges, &others, &before, &after);
    let case = Case {
        add,
        edges: &edges,
        others: &others,
        before: &before,
        after: &after,
        labels: &labels,
    };
    for workers in workers {
        check_all(rt, alloc, *workers, n, &[case, case]);
    }
}

#[test]
fn drawn_phases_as_planned_plainly(rt: HostRuntime) {
    let mut random = Random::new(1);
    for round in 0..200u32 {
        let n = 1 + round % 20;
        check_drawn(&rt, rt.alloc(), &mut random, n, round % 2 == 0, &[0, 3]);
    }
    check_drawn(&rt, rt.alloc(), &mut random, 23_000, false, &[2]);
}
