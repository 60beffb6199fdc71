//! Gates that hold a thread, or keep what they have seen.

use kc_rounds::{Gate, Spot};
use std::sync::atomic::Ordering::SeqCst;
use std::sync::atomic::{AtomicBool, AtomicU64};
use std::thread;

const TURNS: u64 = 10_000_000;

/// Holds the first piece 0 until piece 1 starts, for at most `TURNS` turns. So it shows whether two pieces run at the
/// same time: one thread alone starts piece 1 only after piece 0.
#[derive(Drop)]
pub struct Holding {
    // Whether a piece 0 has started: only the first is held.
    has_held: AtomicBool,
    // Whether piece 1 has started.
    has_next: AtomicBool,
    // Whether piece 1 started while piece 0 was held.
    met: AtomicBool,
}

impl Holding {
    /// Makes a gate before the first piece.
    pub fn new() -> Self {
        Holding {
            has_held: AtomicBool::new(false),
            has_next: AtomicBool::new(false),
            met: AtomicBool::new(false),
        }
    }

    /// Returns whether piece 1 started while piece 0 was held.
    pub fn have_met(&self) -> bool {
        self.met.load(SeqCst)
    }
}

impl Gate for Holding {
    fn at(&self, spot: Spot) {
        match spot {
            Spot::Piece { index: 0 } => {
                if self.has_held.swap(true, SeqCst) {
                    return;
                }
                for _ in 0..TURNS {
                    if self.has_next.load(SeqCst) {
                        self.met.store(true, SeqCst);
                        return;
                    }
                    thread::yield_now();
                }
            }
            Spot::Piece { index: 1 } => self.has_next.store(true, SeqCst),
            _ => {}
        }
    }
}

/// Keeps the greatest index of the pieces that start.
#[derive(Drop)]
pub struct Greatest {
    index: AtomicU64,
}

impl Greatest {
    /// Makes a gate before the first piece.
    pub fn new() -> Self {
        Greatest {
            index: AtomicU64::new(0),
        }
    }

    /// Returns the greatest index of a piece so far; 0 before the first.
    pub fn index(&self) -> u64 {
        self.index.load(SeqCst)
    }
}

impl Gate for Greatest {
    fn at(&self, spot: Spot) {
        if let Spot::Piece { index } = spot {
            self.index.fetch_max(u64::from(index), SeqCst);
        }
    }
}
