//! Deletion phases. On small graphs the levels were worked out by hand; on random ones a plain body gives them. The
//! batches of one test are so great that each part that threads share has several pieces.

ghost use Rattle.std.specs.Prelude.{◌≡◌, ℕ, ◌<◌, ◌≤◌};
ghost use Rattle.std.specs.Bool.{OnTrue};
ghost use Rattle.kc_levels.specs.LevelList.{MeetsLower, IsWithin};
ghost use Rattle.kc_delete.specs.Working.{IsReady};

use super::drawing::{all_pairs, dealt, drawn_pairs};
use super::insert::{WORKERS, come_in, empty};
use super::plainly::{are_moves, count_of, settle_plainly};
use super::support;
use super::support::levelled;
use kc_adj::{LevelAdj, Steps};
use kc_delete::{DeletionWork, delete_phase, delete_rounds};
use kc_graph::MAX_VERTICES;
use kc_levels::{Moves, Profile, Thresholds, check_lower};
use kc_rounds::{Gate, OpenGate, Rounds};
use std::alloc::Global;
use std::marker::Brand;
use std::process::Abort;
use std::sync::ledger::{Blank, Ledger};
use std::thread::Threads;
use test_support::gates::Holding;
use test_support::graphs::are_present;
use test_support::random::Random;

// Returns whether no vertex is above the top, and each vertex meets the lower invariant.
fn can_fall(adj: &LevelAdj, th: &Thresholds) -> bool
    requires scale { th.now.vertices ≡ adj.now.graph.vertices }
    ensures within { OnTrue result (IsWithin th.now adj.now.graph adj.now.levels) }
    ensures lower { OnTrue result ((v : ℕ) → v < adj.now.graph.vertices → MeetsLower th.now.profile adj.now.graph adj.now.levels v) }
{
    for v in 0..adj.graph().vertices() {
        if adj.level(v) > th.top() || !check_lower(adj.graph(), adj.levels(), th, v) {
            return false;
        }
    }
    true
}

// Runs one phase, with a workspace that is kept.
fn leave_once<R: Threads + Sync + Abort, G: Gate + Sync, L: Ledger>(
    rounds: &Rounds<R, G>,
    alloc: Global,
    th: &Thresholds,
    adj: &mut LevelAdj,
    work: &mut DeletionWork,
    pairs: &[(u32, u32)],
    steps: &mut Steps<L>,
) -> Moves
    requires scale { th.now.vertices ≡ adj.old.graph.vertices }
    requires ready { IsReady adj.old work.old }
    ensures scale { th.now.vertices ≡ adj.new.graph.vertices }
    ensures ready { IsReady adj.new work.new }
{
    let rt = rounds.runtime();
    let n = adj.graph().vertices();
    let removed = support::edges(rt, alloc, n, pairs);
    assert!(rt; are_present(adj.graph(), &removed) && can_fall(adj, th));
    let moves = delete_phase(rounds, th, adj, work, &removed, steps).expect(rt, "memory");
    assert!(rt; adj.graph().vertices() == n);
    moves
}

// Does what `leave` does, with a counter of its own.
fn leave_counted<R: Threads + Sync + Abort, G: Gate + Sync, L: Ledger>(
    rt: &R,
    alloc: Global,
    blank: Blank,
    gate: &G,
    workers: u32,
    adj: &mut LevelAdj,
    batches: &[&[(u32, u32)]],
)
    requires name { blank.name ≡ L.name }
    requires parts { blank.parts ≡ L.parts }
    requires some { 0 < L.parts }
{
    assert!(rt; 1 <= workers && workers <= 64);
    let rounds = Rounds::new(rt, alloc, gate, workers);
    let n = adj.graph().vertices();
    let th = Thresholds::new(alloc, Profile::One, n).expect(rt, "memory");
    let mut work = DeletionWork::new(alloc, adj).expect(rt, "memory");
    let mut steps = Steps::<L>::new(blank);
    let mut plain = adj.levels().as_slice().to_vec(alloc).expect(rt, "memory");
    for batch in batches {
        let moves = leave_once(&rounds, alloc, &th, adj, &mut work, batch, &mut steps);
        let before = plain.as_slice().to_vec(alloc).expect(rt, "memory");
        settle_plainly(rt, alloc, adj.graph(), &th, false, &mut plain);
        assert!(rt; adj.levels().as_slice() == plain.as_slice());
        assert!(rt; are_moves(moves.as_slice(), n, &before, &plain));
    }
}

// Lets batches leave one after another, by 1 to 64 workers with one workspace. Each gives the levels of the plain body.
fn leave<R: Threads + Sync + Abort, G: Gate + Sync>(
    rt: &R,
    alloc: Global,
    gate: &G,
    workers: u32,
    adj: &mut LevelAdj,
    batches: &[&[(u32, u32)]],
) {
    leave_counted::<R, G, Brand>(rt, alloc, Blank::new(1), gate, workers, adj, batches);
}

// Runs a phase with a workspace of its own. Returns the number of vertices that it moves.
fn leave_alone<R: Threads + Sync + Abort, G: Gate + Sync, L: Ledger>(
    rt: &R,
    alloc: Global,
    blank: Blank,
    gate: &G,
    adj: &mut LevelAdj,
    pairs: &[(u32, u32)],
) -> u32
    requires name { blank.name ≡ L.name }
    requires parts { blank.parts ≡ L.parts }
    requires some { 0 < L.parts }
{
    let n = adj.graph().vertices();
    let th = Thresholds::new(alloc, Profile::One, n).expect(rt, "memory");
    let mut steps = Steps::<L>::new(blank);
    let removed = support::edges(rt, alloc, n, pairs);
    assert!(rt; are_present(adj.graph(), &removed) && can_fall(adj, &th));
    let tally = delete_rounds(rt, alloc, gate, 2, &th, adj, &removed, &mut steps).expect(
        rt, "memory",
    );
    tally.moves
}

// Returns the graph with the edges of the pairs, and vertices on the greatest levels that meet the lower invariant.
fn highest<R: Abort, L: Ledger>(
    rt: &R,
    alloc: Global,
    blank: Blank,
    n: u32,
    pairs: &[(u32, u32)],
) -> LevelAdj
    requires positive { 1 ≤ n }
    requires small { n ≤ MAX_VERTICES }
    requires name { blank.name ≡ L.name }
    requires parts { blank.parts ≡ L.parts }
    requires some { 0 < L.parts }
{
    let graph = support::graph(rt, alloc, n, pairs);
    let th = Thresholds::new(alloc, Profile::One, n).expect(rt, "memory");
    let mut levels = vec![in alloc; th.top(); n as usize].expect(rt, "memory");
    settle_plainly(rt, alloc, &graph, &th, false, &mut levels);
    let mut steps = Steps::<L>::new(blank);
    levelled(rt, alloc, pairs, &levels, &mut steps)
}

// The edges of a graph, its levels, the edges that leave, the levels after it, and the number of vertices that move.
const CASES: &[(&[(u32, u32)], &[u16], &[(u32, u32)], &[u16], u32)] = &[
    (
        &[(0, 1), (0, 2), (0, 3), (0, 4)],
        &[2, 1, 1, 1, 1],
        &[(0, 1), (0, 2), (0, 3), (0, 4)],
        &[0, 0, 0, 0, 0],
        5,
    ),
    (
        &[(0, 1), (0, 2), (0, 3), (1, 2), (1, 3), (2, 3)],
        &[6, 6, 6, 6, 0],
        &[(0, 1)],
        &[6, 6, 6, 6, 0],
        0,
    ),
    (
        &[(0, 1), (0, 2), (0, 3), (1, 2), (1, 3), (2, 3)],
        &[6, 6, 6, 6, 0],
        &[],
        &[6, 6, 6, 6, 0],
        0,
    ),
];

// Lets edges leave in a phase with a workspace of its own. The graph is on the levels of an insertion phase.
fn check<R: Threads + Sync + Abort>(
    rt: &R,
    alloc: Global,
    pairs: &[(u32, u32)],
    levels: &[u16],
    removed: &[(u32, u32)],
    want: &[u16],
    moves: u32,
) {
    let mut adj = empty(rt, alloc, count_of(rt, levels.len()));
    come_in(rt, alloc, &OpenGate, 3, &mut adj, &[pairs]);
    assert!(rt; adj.levels().as_slice() == levels);
    let blank = Blank::new(1);
    let count = leave_alone::<R, OpenGate, Brand>(rt, alloc, blank, &OpenGate, &mut adj, removed);
    assert!(rt; adj.levels().as_slice() == want && count == moves);
}

#[test]
fn small_graphs(rt: HostRuntime) {
    for (pairs, levels, removed, want, moves) in CASES {
        check(&rt, rt.alloc(), pairs, levels, removed, want, *moves);
    }
}

// Eight vertices are joined each with each, and one of them keeps two neighbours.
#[test]
fn a_vertex_falls_part_of_the_way(rt: HostRuntime) {
    let eight = all_pairs(&rt, rt.alloc(), 8);
    let removed = [(0, 1), (0, 2), (0, 3), (0, 4), (0, 5)];
    let want = [13, 19, 19, 19, 19, 19, 19, 19];
    check(&rt, rt.alloc(), &eight, &[19; 8], &removed, &want, 1);
}

// All five vertices of a star have to fall at once.
#[test]
fn a_first_round_has_two_pieces_at_once(rt: HostRuntime) {
    let star = [(0, 1), (0, 2), (0, 3), (0, 4)];
    let mut adj = empty(&rt, rt.alloc(), 5);
    come_in(&rt, rt.alloc(), &OpenGate, 1, &mut adj, &[&star]);
    let gate = Holding::new();
    leave(&rt, rt.alloc(), &gate, 2, &mut adj, &[&star]);
    assert!(rt; gate.have_met());
}

#[test]
fn batches_fall_as_by_recounting(rt: HostRuntime) {
    let mut random = Random::new(1);
    for round in 0..8u32 {
        for workers in WORKERS {
            let n = 1 + random.below(20);
            let pairs = drawn_pairs(&rt, rt.alloc(), &mut random, n, 1 + round % 5, n);
            let batches = dealt(&rt, rt.alloc(), &mut random, &pairs, 4);
            let blank = Blank::new(1);
            let mut adj = highest::<HostRuntime, Brand>(&rt, rt.alloc(), blank, n, &pairs);
            let batches = batches.parts();
            leave(&rt, rt.alloc(), &OpenGate, workers, &mut adj, &batches);
        }
    }
}

// Two rare batches and one of nearly all edges come in, and leave again. Threads share the linked edges, the vertices
// that begin to rise or stay on a level, and those that go to their new levels.
#[test]
fn great_batches_come_and_leave_as_by_recounting(rt: HostRuntime) {
    let mut random = Random::new(1);
    let n = 9_000;
    let pairs = drawn_pairs(&rt, rt.alloc(), &mut random, n, 1_000, 1);
    let batches = dealt(&rt, rt.alloc(), &mut random, &pairs, 60);
    assert!(rt; batches.third.len() >= 8_192);
    for workers in WORKERS {
        let mut adj = empty(&rt, rt.alloc(), n);
        let batches = batches.parts();
        come_in(&rt, rt.alloc(), &OpenGate, workers, &mut adj, &batches);
        leave(&rt, rt.alloc(), &OpenGate, workers, &mut adj, &batches);
    }
}
