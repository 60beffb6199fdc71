// Rounds keep their order by any number of workers, pieces run at the same time, and a gate sees each piece before
// its first test.
ghost use Rattle.std.specs.Prelude.{◌≡◌, ◌≤◌};

use super::support::check_row;
use kc_rounds::{FirstRound, Gate, RoundTest, Rounds, Spot, filter_round};
use std::alloc::Global;
use std::process::Abort;
use std::sync::atomic::AtomicU64;
use std::sync::atomic::Ordering::SeqCst;
use std::thread::Threads;
use test_support::gates::Holding;

// The gate and the test of small numbers. Odd ones are kept. Counts are in eight bits for each piece and each number.
#[derive(Drop)]
struct Watch {
    // The number of numbers in a piece of those from 0 on.
    size: u32,
    // How often each piece started; any other spot counts as piece 7.
    pieces: AtomicU64,
    // How often each number was tested.
    tested: AtomicU64,
    // How many numbers were tested before their piece started.
    early: AtomicU64,
    ghost positive: { 1 ≤ size },
}

impl Watch {
    fn new(size: u32) -> Self
        requires { 1 ≤ size }
    {
        Watch {
            size,
            pieces: AtomicU64::new(0),
            tested: AtomicU64::new(0),
            early: AtomicU64::new(0),
        }
    }
}

impl Gate for Watch {
    fn at(&self, spot: Spot) {
        let place = match spot {
            Spot::Piece { index } => index.min(7),
            _ => 7,
        };
        self.pieces.fetch_add(1 << (8 * place), SeqCst);
    }
}

impl RoundTest for Watch {
    ghost use Rattle.std.specs.Prelude.{◌%◌, nat_eq};

    ghost keeps = { λ _ v. nat_eq (v % 2) 1 };

    ghost may_ask = { λ _ _. Unit {0} };

    fn keep(&self, v: u32) -> bool {
        let piece = 8 * (v / self.size).min(7);
        if (self.pieces.load(SeqCst) >> piece) & 255 == 0 {
            self.early.fetch_add(1, SeqCst);
        }
        self.tested.fetch_add(1 << (8 * v.min(7)), SeqCst);
        v % 2 == 1
    }
}

// A number of workers, the size of their pieces of five numbers, and how often each piece starts.
const ROUNDS: &[(u32, u32, u64)] = &[
    (1, 5, 0x01),
    (2, 3, 0x0101),
    (3, 2, 0x010101),
    (4, 2, 0x010101),
    (5, 1, 0x01_0101_0101),
    (64, 1, 0x01_0101_0101),
];

// Runs a round of the numbers below five, of which two are kept.
fn watched<R: Threads + Sync + Abort>(rt: &R, alloc: Global, workers: u32, size: u32) -> Watch {
    assert!(rt; 1 <= workers && workers <= 64 && 1 <= size);
    let watch = Watch::new(size);
    let kept = filter_round(rt, alloc, &watch, workers, &[0, 1, 2, 3, 4], &watch).expect(
        rt, "memory",
    );
    assert!(rt; kept.as_slice() == [1, 3].as_slice());
    watch
}

#[test]
fn kept_in_order_by_any_workers(rt: HostRuntime) {
    for (row, &(workers, size, pieces)) in ROUNDS.iter().enumerate() {
        let watch = watched(&rt, rt.alloc(), workers, size);
        check_row(&rt, row, watch.pieces.load(SeqCst) == pieces);
    }
}

#[test]
fn pieces_are_told_before_they_are_tested(rt: HostRuntime) {
    for (row, &(workers, size, _)) in ROUNDS.iter().enumerate() {
        let watch = watched(&rt, rt.alloc(), workers, size);
        check_row(&rt, row, watch.early.load(SeqCst) == 0);
    }
}

#[test]
fn each_candidate_is_tested_once(rt: HostRuntime) {
    for (row, &(workers, size, _)) in ROUNDS.iter().enumerate() {
        let watch = watched(&rt, rt.alloc(), workers, size);
        check_row(&rt, row, watch.tested.load(SeqCst) == 0x01_0101_0101);
    }
}

#[test]
fn an_empty_list_has_no_piece(rt: HostRuntime) {
    for workers in [1, 2, 64] {
        let watch = Watch::new(1);
        let kept = filter_round(&rt, rt.alloc(), &watch, workers, &[], &watch).expect(
            &rt, "memory",
        );
        assert!(rt; kept.is_empty() && watch.pieces.load(SeqCst) == 0);
    }
}

#[test]
fn pieces_run_at_the_same_time(rt: HostRuntime) {
    let gate = Holding::new();
    let test = Watch::new(3);
    let kept = filter_round(&rt, rt.alloc(), &gate, 2, &[1, 2, 3, 4, 5], &test).expect(
        &rt, "memory",
    );
    assert!(rt; kept.as_slice() == [1, 3, 5].as_slice() && gate.have_met());
}

// The candidates of a round, those that are kept, and how often each piece has started so far.
const LATER: &[(&[u32], &[u32], u64)] = &[
    (&[], &[], 0),
    (&[1, 2, 3, 4, 5], &[1, 3, 5], 0x010101),
    (&[7, 6, 9], &[7, 9], 0x010102),
];

// The first round with candidates has as many pieces as workers, a short one after it has one, and a long one two.
#[test]
fn later_short_rounds_have_one_piece(rt: HostRuntime) {
    let watch = Watch::new(1);
    let rounds = Rounds::new(&rt, rt.alloc(), &watch, 3);
    let mut first = FirstRound::new();
    assert!(rt; rounds.workers() == 3);
    for (row, &(candidates, kept, pieces)) in LATER.iter().enumerate() {
        let movers = rounds
            .movers(&mut first, candidates, &watch)
            .expect(&rt, "memory");
        check_row(
            &rt,
            row,
            movers.as_slice() == kept && watch.pieces.load(SeqCst) == pieces,
        );
    }
    let long = vec![in rt.alloc(); 4u32; 300_000].expect(&rt, "memory");
    let movers = rounds
        .movers(&mut first, &long, &watch)
        .expect(&rt, "memory");
    assert!(rt; movers.is_empty() && watch.pieces.load(SeqCst) == 0x010203);
}
