//! How many workers share a list: all of them in a first round, one or a few if a later list is short.
ghost use Rattle.std.specs.Prelude.{◌≡◌, ◌≤◌, ◌<◌, All, IfOk, filter};

use crate::{Gate, RoundTest, filter_round};
use std::alloc::{AllocError, Global};
use std::thread::Threads;

// The least number of tests of a piece, except in a first round: a thread costs as much as some tens of thousands of
// tests.
const LEAST_TESTS: usize = 131_072;

/// Whether a first round is still to come.
///
/// The owner of the rounds keeps one for life: the first round with candidates goes to all workers, even if it is
/// short. So a test with a gate sees pieces at the same time.
#[derive(Drop)]
pub struct FirstRound {
    // True until the first round that has candidates.
    is_ahead: bool,
}

impl FirstRound {
    /// Makes the state before any round. Takes no memory.
    pub fn new() -> Self {
        FirstRound { is_ahead: true }
    }
}

/// The workers that rounds may use, and the gate that they call.
///
/// A first round goes to all workers: `filter_round` cuts it into as many pieces, or fewer if there are few candidates.
/// In later rounds a short list goes to fewer workers, down to one: a thread would cost more than its share. No answer
/// depends on it.
#[derive(Drop)]
pub struct Rounds<'a, R, G> {
    // Starts the threads.
    rt: &'a R,
    // The allocator of the answers.
    alloc: Global,
    // Called at each piece of candidates, before the first test.
    gate: &'a G,
    // The most pieces of a list: 1 to 64.
    workers: u32,
    ghost few_workers: { (1 ≤ workers) × (workers ≤ 64) },
}

// Returns how many workers share a list: one for each full `least_piece` items, at least one and at most `workers`.
fn workers_for(workers: u32, items: usize, least_piece: usize) -> u32
    requires some_workers { 1 ≤ workers }
    requires some_length { 1 ≤ least_piece }
    ensures some { 1 ≤ result }
    ensures few { result ≤ workers }
{
    let long_pieces = items / least_piece;
    if workers as usize <= long_pieces {
        workers
    } else if long_pieces == 0 {
        1
    } else {
        long_pieces as u32
    }
}

impl<'a, R: Threads + Sync, G: Gate + Sync> Rounds<'a, R, G> {
    /// Makes rounds with up to `workers` workers, 1 to 64.
    pub fn new(rt: &'a R, alloc: Global, gate: &'a G, workers: u32) -> Self
        requires { (1 ≤ workers) × (workers ≤ 64) }
    {
        Rounds {
            rt,
            alloc,
            gate,
            workers,
        }
    }

    /// Returns what starts the threads.
    pub fn runtime(&self) -> &R {
        self.rt
    }

    /// Returns the allocator of the answers.
    pub fn alloc(&self) -> Global {
        self.alloc
    }

    /// Returns the gate that rounds call.
    pub fn gate(&self) -> &G {
        self.gate
    }

    /// Returns the number of workers that rounds may use, 1 to 64.
    pub fn workers(&self) -> u32
        ensures { (1 ≤ result) × (result ≤ 64) }
    {
        self.workers
    }

    /// Tests the candidates in one round and returns those that pass, in order (`filter_round`).
    ///
    /// A round without candidates doesn't count as the first. Fails only if memory runs out.
    pub fn movers<F: RoundTest + Sync>(
        &self,
        first: &mut FirstRound,
        candidates: &[u32],
        test: &F,
    ) -> Result<Vec<u32>, AllocError>
        requires { All (F.may_ask test.now) candidates.now }
        ensures { IfOk result (λ v. v.items ≡ filter (F.keeps test.now) candidates.now) }
    {
        let workers = if first.is_ahead {
            self.workers
        } else {
            workers_for(self.workers, candidates.len(), LEAST_TESTS)
        };
        first.is_ahead = first.is_ahead && candidates.is_empty();
        filter_round(self.rt, self.alloc, self.gate, workers, candidates, test)
    }
}
