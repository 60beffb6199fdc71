//! Plans that an engine shows by two workers. Their moves are few, so the calls of the gate before each range and each
//! publication can be counted by hand.
ghost use Rattle.std.specs.Prelude.{◌≤◌};
ghost use Rattle.kc_graph.specs.declared.limits.TheConstants.{MAX_VERTICES};

use crate::tests::support::{Bench, Count, items_of, open_store, trial_of};
use kc_graph::Item;
use kc_rounds::{Gate, Spot};
use std::thread;
use std::time::{Clock, Duration};
use store_support::trial::Trial;

// For how many milliseconds a piece is waited for that has to come.
const LONG: u32 = 20_000;

// Time enough for a piece in another thread to begin, and soon over if there is none.
const SHORT: u32 = 200;

// Holds each piece 0 until piece 1 has begun as often as piece 0, for at most `most` milliseconds. Counts how often
// these ran out.
#[derive(Drop)]
struct Pairing<'a, R> {
    rt: &'a R,
    most: u32,
    // How often piece 0 has begun.
    zeros: Count,
    // How often another piece has begun.
    others: Count,
    // How often piece 0 went on although the other hadn't come.
    alone: Count,
}

impl<'a, R: Clock> Pairing<'a, R> {
    fn new(rt: &'a R, most: u32) -> Self {
        Pairing {
            rt,
            most,
            zeros: Count::default(),
            others: Count::default(),
            alone: Count::default(),
        }
    }

    fn hold(&self, begun: u64) {
        for _turn in 0..self.most {
            if self.others.get() >= begun {
                return;
            }
            thread::sleep(self.rt, Duration::from_millis(1));
        }
        self.alone.add(1);
    }

    // Returns whether a group was marked and cleared by two workers, and piece 0 went on alone this often.
    fn has_paired(&self, alone: u64) -> bool {
        self.zeros.get() == 2 && self.others.get() == 2 && self.alone.get() == alone
    }
}

impl<R: Clock> Gate for Pairing<'_, R> {
    fn at(&self, spot: Spot) {
        if let Spot::Piece { index } = spot {
            if index == 0 {
                self.hold(self.zeros.add(1));
            } else {
                self.others.add(1);
            }
        }
    }
}

// Returns whether a batch is shown, and has this number of moves.
fn shows<R: Bench, G: Gate + Sync>(
    rt: &R,
    gate: &G,
    trial: &mut Trial<'_>,
    items: &[Item],
    moves: u32,
) -> bool {
    match trial.apply(rt, rt.alloc(), gate, items) {
        Some(plan) => plan.moves == moves,
        None => false,
    }
}

// Returns the path of the vertices from the first to the last.
fn path(rt: &impl Bench, first: u32, last: u32) -> Vec<Item> {
    let mut items = Vec::new(rt.alloc());
    for v in first..last {
        items
            .push(Item::Insert { u: v, v: v + 1 })
            .expect(rt, "memory");
    }
    items
}

// First and last vertex of a path, for how long piece 0 waits for piece 1, and how often in vain.
type Path = (u32, u32, u32, u64);

// Returns whether a path rises as one group, which two workers mark and then clear.
fn pairs<R: Bench + Clock>(rt: &R, trial: &mut Trial<'_>, path_of: &Path) -> bool {
    let (first, last, most, alone) = *path_of;
    let gate = Pairing::new(rt, most);
    let items = path(rt, first, last);
    let moves = last.wrapping_sub(first).wrapping_add(1);
    shows(rt, &gate, trial, items.as_slice(), moves) && gate.has_paired(alone)
}

// Paths in a graph on n vertices rise one after another.
fn expect_pairing<R: Bench + Clock>(rt: &R, n: u32, paths: &[Path])
    requires { (1 ≤ n) × (n ≤ MAX_VERTICES) }
{
    let (store, writer) = open_store(rt, n);
    let mut trial = trial_of(rt, n, 2, &store, writer);
    for path_of in paths {
        assert!(rt; pairs(rt, &mut trial, path_of));
    }
    drop(trial);
}

const FIRST_PATH: &[Path] = &[(0, 2, LONG, 0)];

// A group of three moves goes to two workers, which mark at the same time, and then clear at the same time.
#[test]
fn ranges_of_a_first_group_run_at_the_same_time(rt: HostRuntime) {
    expect_pairing(&rt, 5, FIRST_PATH);
}

const PATHS: &[Path] = &[
    (0, 2, LONG, 0),
    (3, 8_193, SHORT, 2),
    (8_194, 16_385, LONG, 0),
];

// After a first group a group of 8,191 moves is marked, and then cleared, one range after the other. Both times piece 0
// waits for piece 1 in vain. With one move more the ranges run at the same time again.
#[test]
fn ranges_of_a_long_group_run_at_the_same_time(rt: HostRuntime) {
    expect_pairing(&rt, 16_386, PATHS);
}

// The publications that are due, in order, each with what `pieces` has to be then. There are two groups in the first
// phase, and one in each of the next two. Each has two moves, one for each worker. They are marked before the group is
// published, and cleared afterwards.
const DUE: &[(u64, Spot)] = &[
    (0x0101, Spot::Publishing { phase: 1, label: 0 }),
    (0x0303, Spot::Publishing { phase: 1, label: 2 }),
    (0x0505, Spot::Publishing { phase: 2, label: 0 }),
    (0x0707, Spot::Publishing { phase: 3, label: 1 }),
];

// Compares each publication, with the pieces that have begun before it, with the one that is due.
#[derive(Default, Drop)]
struct Course {
    // How many publications there were.
    published: Count,
    // How often piece i has begun, for i below 8, in the bits from 8 i on.
    pieces: Count,
    // How many calls of the gate weren't due.
    others: Count,
}

impl Course {
    // Counts a publication, and returns whether it is due.
    fn is_due(&self, spot: Spot) -> bool {
        let place = self.published.add(1).wrapping_sub(1);
        match DUE.get(place as usize) {
            Some((pieces, due)) => self.pieces.get() == *pieces && spot == *due,
            None => false,
        }
    }

    // Returns whether the gate had all calls that are due, and no others.
    fn is_over(&self) -> bool {
        self.published.get() == 4 && self.pieces.get() == 0x0808 && self.others.get() == 0
    }
}

impl Gate for Course {
    fn at(&self, spot: Spot) {
        let is_due = match spot {
            Spot::Piece { index } if index < 8 => {
                self.pieces.add(1 << (8 * index));
                true
            }
            Spot::Publishing { .. } => self.is_due(spot),
            _ => false,
        };
        if !is_due {
            self.others.add(1);
        }
    }
}

// Shows two batches of four moves each, and says whether the gate had the calls that are due.
fn tells_course<R: Bench>(rt: &R, trial: &mut Trial<'_>) -> bool {
    let course = Course::default();
    let (rising, turning) = (items_of(rt, "+01 +23"), items_of(rt, "-01 +14"));
    shows(rt, &course, trial, rising.as_slice(), 4)
        && shows(rt, &course, trial, turning.as_slice(), 4)
        && course.is_over()
}

#[test]
fn each_range_and_each_publication_is_told(rt: HostRuntime) {
    let (store, writer) = open_store(&rt, 5);
    let mut trial = trial_of(&rt, 5, 2, &store, writer);
    assert!(rt; tells_course(&rt, &mut trial));
    drop(trial);
}
