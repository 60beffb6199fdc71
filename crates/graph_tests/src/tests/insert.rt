//! Insertion phases. On small graphs the levels were worked out by hand; on random ones a plain body gives them.

ghost use Rattle.std.specs.Prelude.{◌≡◌, ℕ, ◌<◌, ◌≤◌};
ghost use Rattle.std.specs.Bool.{OnTrue};
ghost use Rattle.kc_levels.specs.LevelList.{MeetsUpper, IsWithin};
ghost use Rattle.kc_insert.specs.Working.{IsReady};

use super::drawing::{all_pairs, dealt, drawn_pairs};
use super::plainly::{are_moves, count_of, settle_plainly};
use super::support;
use kc_adj::{LevelAdj, Steps};
use kc_graph::{MAX_EDGES, MAX_VERTICES};
use kc_insert::{InsertionWork, Layout, insert_phase, insert_rounds};
use kc_levels::{Moves, Profile, Thresholds, check_upper};
use kc_rounds::{Gate, OpenGate, Rounds};
use std::alloc::Global;
use std::marker::Brand;
use std::process::Abort;
use std::sync::ledger::{Blank, Ledger};
use std::thread::Threads;
use test_support::gates::Holding;
use test_support::graphs::are_absent;
use test_support::random::Random;

// Returns whether no vertex is above the top, and each vertex meets the upper invariant.
fn can_rise(adj: &LevelAdj, th: &Thresholds) -> bool
    requires scale { th.now.vertices ≡ adj.now.graph.vertices }
    ensures within { OnTrue result (IsWithin th.now adj.now.graph adj.now.levels) }
    ensures upper { OnTrue result ((v : ℕ) → v < adj.now.graph.vertices → MeetsUpper th.now.profile adj.now.graph adj.now.levels v) }
{
    for v in 0..adj.graph().vertices() {
        if adj.level(v) > th.top() || !check_upper(adj.graph(), adj.levels(), th, v) {
            return false;
        }
    }
    true
}

// Returns a graph without edges.
pub fn empty<R: Abort>(rt: &R, alloc: Global, n: u32) -> LevelAdj {
    assert!(rt; n >= 1 && n <= MAX_VERTICES);
    LevelAdj::new(alloc, n).expect(rt, "memory")
}

// Runs one phase, with a workspace that is kept.
fn come_in_once<R: Threads + Sync + Abort, G: Gate + Sync, L: Ledger>(
    rounds: &Rounds<R, G>,
    alloc: Global,
    th: &Thresholds,
    adj: &mut LevelAdj,
    work: &mut InsertionWork,
    pairs: &[(u32, u32)],
    steps: &mut Steps<L>,
) -> Moves
    requires scale { th.now.vertices ≡ adj.old.graph.vertices }
    requires ready { IsReady th.now.profile adj.old work.old }
    ensures scale { th.now.vertices ≡ adj.new.graph.vertices }
    ensures ready { IsReady th.now.profile adj.new work.new }
{
    let rt = rounds.runtime();
    let n = adj.graph().vertices();
    let added = support::edges(rt, alloc, n, pairs);
    assert!(rt; are_absent(adj.graph(), &added) && can_rise(adj, th));
    assert!(rt; adj.graph().edge_count() as usize + added.len() <= MAX_EDGES as usize);
    let moves = insert_phase(rounds, th, adj, work, &added, steps).expect(rt, "memory");
    assert!(rt; adj.graph().vertices() == n);
    moves
}

// Does what `come_in` does, with a workspace that is ready and a counter of its own.
fn come_in_counted<R: Threads + Sync + Abort, G: Gate + Sync, L: Ledger>(
    rounds: &Rounds<R, G>,
    alloc: Global,
    blank: Blank,
    th: &Thresholds,
    adj: &mut LevelAdj,
    work: &mut InsertionWork,
    batches: &[&[(u32, u32)]],
)
    requires scale { th.now.vertices ≡ adj.old.graph.vertices }
    requires ready { IsReady th.now.profile adj.old work.old }
    requires name { blank.name ≡ L.name }
    requires parts { blank.parts ≡ L.parts }
    requires some { 0 < L.parts }
{
    let rt = rounds.runtime();
    let n = adj.graph().vertices();
    let mut steps = Steps::<L>::new(blank);
    let mut plain = adj.levels().as_slice().to_vec(alloc).expect(rt, "memory");
    for batch in batches {
        let moves = come_in_once(rounds, alloc, th, adj, work, batch, &mut steps);
        let before = plain.as_slice().to_vec(alloc).expect(rt, "memory");
        settle_plainly(rt, alloc, adj.graph(), th, true, &mut plain);
        assert!(rt; adj.levels().as_slice() == plain.as_slice());
        assert!(rt; are_moves(moves.as_slice(), n, &before, &plain));
    }
}

// Does what `come_in` does, with the vertices cut as by this layout.
fn come_in_cut<R: Threads + Sync + Abort, G: Gate + Sync>(
    rt: &R,
    alloc: Global,
    gate: &G,
    workers: u32,
    layout: Layout,
    adj: &mut LevelAdj,
    batches: &[&[(u32, u32)]],
) {
    assert!(rt; 1 <= workers && workers <= 64);
    let th = Thresholds::new(alloc, Profile::One, adj.graph().vertices()).expect(rt, "memory");
    let mut work = InsertionWork::with_layout(alloc, &th, adj, layout).expect(rt, "memory");
    let rounds = Rounds::new(rt, alloc, gate, workers);
    let blank = Blank::new(1);
    come_in_counted::<R, G, Brand>(&rounds, alloc, blank, &th, adj, &mut work, batches);
}

// Lets batches come in one after another, by 1 to 64 workers with one workspace. Each gives the levels of the plain
// body.
pub fn come_in<R: Threads + Sync + Abort, G: Gate + Sync>(
    rt: &R,
    alloc: Global,
    gate: &G,
    workers: u32,
    adj: &mut LevelAdj,
    batches: &[&[(u32, u32)]],
) {
    let layout = Layout::of(adj.graph().vertices());
    come_in_cut(rt, alloc, gate, workers, layout, adj, batches);
}

// Checks a phase with a workspace of its own. It begins with the graph without edges, on as many vertices as `want` has
// levels.
fn check_counted<R: Threads + Sync + Abort, G: Gate + Sync, L: Ledger>(
    rt: &R,
    alloc: Global,
    blank: Blank,
    gate: &G,
    pairs: &[(u32, u32)],
    want: &[u16],
)
    requires name { blank.name ≡ L.name }
    requires parts { blank.parts ≡ L.parts }
    requires some { 0 < L.parts }
{
    let n = count_of(rt, want.len());
    assert!(rt; n >= 1);
    let th = Thresholds::new(alloc, Profile::One, n).expect(rt, "memory");
    let mut adj = LevelAdj::new(alloc, n).expect(rt, "memory");
    let mut steps = Steps::<L>::new(blank);
    let added = support::edges(rt, alloc, n, pairs);
    assert!(rt; are_absent(adj.graph(), &added) && can_rise(&adj, &th));
    let tally = insert_rounds(rt, alloc, gate, 2, &th, &mut adj, &added, &mut steps).expect(
        rt, "memory",
    );
    assert!(rt; adj.levels().as_slice() == want);
    assert!(rt; tally.moves as usize == want.iter().filter(|level| **level > 0).count());
}

fn check<R: Threads + Sync + Abort, G: Gate + Sync>(
    rt: &R,
    alloc: Global,
    gate: &G,
    pairs: &[(u32, u32)],
    want: &[u16],
) {
    check_counted::<R, G, Brand>(rt, alloc, Blank::new(1), gate, pairs, want);
}

// Batches, and the levels after them.
const CASES: &[(&[&[(u32, u32)]], &[u16])] = &[
    (&[&[]], &[0]),
    (&[&[]], &[0, 0]),
    (&[&[(0, 1)]], &[1, 1]),
    (&[&[(0, 1), (1, 2)]], &[1, 1, 1, 0, 0]),
    (&[&[(0, 1), (0, 2), (0, 3), (0, 4)]], &[2, 1, 1, 1, 1]),
    (&[&[(0, 1), (0, 2)], &[(0, 3)]], &[2, 1, 1, 1, 0]),
    (&[&[(0, 1), (0, 2), (1, 2)]], &[1, 1, 1]),
    (
        &[&[(0, 1), (0, 2), (0, 3), (1, 2), (1, 3), (2, 3)]],
        &[6, 6, 6, 6, 0],
    ),
    (
        &[&[(0, 1), (0, 2), (0, 3), (1, 2), (1, 3), (2, 3), (5, 6)]],
        &[7, 7, 7, 7, 0, 1, 1, 0],
    ),
];

#[test]
fn small_graphs(rt: HostRuntime) {
    for (batches, want) in CASES {
        for workers in [1, 3, 64] {
            let mut adj = empty(&rt, rt.alloc(), count_of(&rt, want.len()));
            come_in(&rt, rt.alloc(), &OpenGate, workers, &mut adj, batches);
            assert!(rt; adj.levels().as_slice() == *want);
        }
    }
}

#[test]
fn eight_joined_each_with_each(rt: HostRuntime) {
    let eight = all_pairs(&rt, rt.alloc(), 8);
    check(&rt, rt.alloc(), &OpenGate, &eight, &[19; 8]);
}

// Three edges of one vertex, one of them to the last vertex of many.
#[test]
fn levels_among_many(rt: HostRuntime) {
    for n in [4u32, 5, 1000, 530_000] {
        let last = n.saturating_sub(1);
        let mut want = Vec::new(rt.alloc());
        for v in 0..n {
            let level = match v {
                0 => 2,
                1 | 2 => 1,
                _ => u16::from(v == last),
            };
            want.push(level).expect(&rt, "memory");
        }
        let star = [(0, 1), (0, 2), (0, last)];
        check(&rt, rt.alloc(), &OpenGate, &star, &want);
    }
}

// All five vertices of a star have to rise at once.
#[test]
fn a_first_round_has_two_pieces_at_once(rt: HostRuntime) {
    let gate = Holding::new();
    check(
        &rt,
        rt.alloc(),
        &gate,
        &[(0, 1), (0, 2), (0, 3), (0, 4)],
        &[2, 1, 1, 1, 1],
    );
    assert!(rt; gate.have_met());
}

// The numbers of workers in tests of random graphs.
pub const WORKERS: [u32; 5] = [1, 2, 3, 4, 64];

#[test]
fn batches_rise_as_by_recounting(rt: HostRuntime) {
    let mut random = Random::new(1);
    for round in 0..8u32 {
        for workers in WORKERS {
            let n = 1 + random.below(30);
            let pairs = drawn_pairs(&rt, rt.alloc(), &mut random, n, 1 + round % 5, n);
            let batches = dealt(&rt, rt.alloc(), &mut random, &pairs, 3);
            let mut adj = empty(&rt, rt.alloc(), n);
            let batches = batches.parts();
            come_in(&rt, rt.alloc(), &OpenGate, workers, &mut adj, &batches);
        }
    }
}

// Ranges of 1, 2, 5 and 8 vertices, and from how many vertices on threads share a pass.
const LAYOUTS: [(u32, usize); 4] = [(1, 9), (2, 5), (5, 1), (8, 5)];

#[test]
fn ranges_rise_as_by_recounting(rt: HostRuntime) {
    let mut random = Random::new(2);
    for round in 0..2u32 {
        for (width, least_shared) in LAYOUTS {
            let n = 8 + random.below(16);
            let pairs = drawn_pairs(&rt, rt.alloc(), &mut random, n, 1 + round, n);
            let batches = dealt(&rt, rt.alloc(), &mut random, &pairs, 3);
            for workers in WORKERS {
                let layout = Layout::new(width, least_shared);
                let mut adj = empty(&rt, rt.alloc(), n);
                let batches = batches.parts();
                come_in_cut(
                    &rt,
                    rt.alloc(),
                    &OpenGate,
                    workers,
                    layout,
                    &mut adj,
                    &batches,
                );
            }
        }
    }
}
