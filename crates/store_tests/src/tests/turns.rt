//! Many batches by one engine, held against those of engines that were opened anew.

use crate::tests::engine::{Unseen, said};
use crate::tests::support::{Bench, draw_item};
use kc_graph::{Item, MAX_EDGES};
use test_support::random::Random;

const VERTICES: u32 = 20;

// Returns one to six insertions, deletions, and now and then an isolation.
fn draw_items(rt: &impl Bench, random: &mut Random) -> Vec<Item> {
    let mut items = Vec::new(rt.alloc());
    for _ in 0..1 + random.below(6) {
        let sign = match random.below(20) {
            0 => b' ',
            1..=10 => b'+',
            _ => b'-',
        };
        items
            .push(draw_item(random, sign, VERTICES))
            .expect(rt, "memory");
    }
    items
}

// Returns a batch after which no edge is left.
fn isolate_all(rt: &impl Bench) -> Vec<Item> {
    let mut items = Vec::new(rt.alloc());
    for v in 0..VERTICES {
        items.push(Item::Isolate { v }).expect(rt, "memory");
    }
    items
}

// Ends the test unless both engines plan the same of a batch and are alike afterwards. The first takes its plan back.
// Returns how many moves the batch has.
fn plan_both(rt: &impl Bench, kept: &mut Unseen, anew: &mut Unseen, items: &[Item]) -> u32 {
    let plan = kept.plan(rt, items).expect(rt, "refused");
    let again = anew.plan(rt, items).expect(rt, "refused");
    let (one, other) = (said(rt, kept, &plan), said(rt, anew, &again));
    assert!(rt; one.as_slice() == other.as_slice());
    drop(again);
    let moves = plan.moves;
    kept.engine.reuse(plan);
    moves
}

// Plans ten batches by an engine and by one that is opened anew, and lets all edges leave the first. Returns how many
// moves the batches have.
fn run_round(rt: &impl Bench, kept: &mut Unseen, random: &mut Random) -> u32 {
    let mut anew = Unseen::open(rt, VERTICES, 1, kept.engine.phases(), MAX_EDGES);
    let mut moves = 0u32;
    for _batch in 0..10 {
        let items = draw_items(rt, random);
        moves = moves.saturating_add(plan_both(rt, kept, &mut anew, items.as_slice()));
    }
    let all = isolate_all(rt);
    let plan = kept.plan(rt, all.as_slice()).expect(rt, "refused");
    kept.engine.reuse(plan);
    drop(anew);
    moves
}

// Rounds of ten batches by one engine, from which all edges leave after each round. It takes back the plans. Beside it
// each round has an engine that is opened anew and takes back none. Both plan the same, so a phase leaves nothing over
// in the workspace, and a plan nothing in its memory.
#[test]
fn many_batches_leave_nothing_over(rt: HostRuntime) {
    let mut kept = Unseen::open(&rt, VERTICES, 1, 0, MAX_EDGES);
    let mut random = Random::new(7);
    let mut moves = 0u32;
    for _round in 0..100 {
        moves = moves.saturating_add(run_round(&rt, &mut kept, &mut random));
    }
    // Vertices rise and fall.
    assert!(rt; moves > 1_000);
    drop(kept);
}
