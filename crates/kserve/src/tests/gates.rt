// Gates that hold a client, and a sink that holds the server, until another thread has reached a place. They hold it
// for a bounded number of turns. A turn is one look and one yield.
ghost use Rattle.std.specs.Prelude.{None};

use super::outputs::are_served;
use super::support::{at_once, equal_scripts, serve_into};
use kc_rounds::{Gate, Spot};
use kc_shell::Status;
use kc_text::{Failed, NullSink, Sink};
use std::process::Abort;
use std::sync::Wait;
use std::sync::atomic::AtomicU64;
use std::sync::atomic::Ordering::SeqCst;
use std::test::Fail;
use std::thread;
use std::thread::Threads;

const MAX_TURNS: u32 = 10_000_000;

// Waits until a counter has reached this, and says whether it has.
fn waited(counter: &AtomicU64, wanted: u64) -> bool {
    for _turn in 0..MAX_TURNS {
        if counter.load(SeqCst) >= wanted {
            return true;
        }
        thread::yield_now();
    }
    false
}

// Holds the first question of each of two clients until the other client asks.
#[derive(Drop)]
struct Meeting {
    first: AtomicU64,
    second: AtomicU64,
    missed: AtomicU64,
}

impl Gate for Meeting {
    fn at(&self, spot: Spot) {
        let Spot::Asking { reader, ask: 0 } = spot else {
            return;
        };
        let (own, other) = if reader == 0 {
            (&self.first, &self.second)
        } else {
            (&self.second, &self.first)
        };
        own.store(1, SeqCst);
        if !waited(other, 1) {
            self.missed.store(1, SeqCst);
        }
    }
}

#[test]
fn clients_run_at_once(rt: HostRuntime) -> Result<(), Fail> {
    let gate = Meeting {
        first: AtomicU64::new(0),
        second: AtomicU64::new(0),
        missed: AtomicU64::new(0),
    };
    let input = b"kserve 1\nvertices 4\nbatch\n0 1\nend\nbatch\n2 3\nend\n";
    let status = serve_into(&rt, &gate, at_once("2", input), &mut NullSink::new());
    assert!(rt; status == Status::Done);
    assert!(rt; gate.missed.load(SeqCst) == 0);
    Ok(())
}

// The intake holds 1,024 updates, so this client waits for the server.
#[test]
fn a_long_script_of_one_client(rt: HostRuntime) -> Result<(), Fail> {
    assert!(rt; are_served(&rt, &[3000]));
    Ok(())
}

// Counts of the updates that clients have begun and ended to submit, of those that were printed, and of the pieces of
// rounds. Also whether a thread waited in vain or found something out of order.
#[derive(Drop)]
pub struct Counts {
    pub asking: AtomicU64,
    pub replied: AtomicU64,
    pub printed: AtomicU64,
    pub pieces: AtomicU64,
    pub missed: AtomicU64,
}

impl Counts {
    pub fn new() -> Self {
        Counts {
            asking: AtomicU64::new(0),
            replied: AtomicU64::new(0),
            printed: AtomicU64::new(0),
            pieces: AtomicU64::new(0),
            missed: AtomicU64::new(0),
        }
    }

    fn note(&self, holds: bool) {
        if !holds {
            self.missed.store(1, SeqCst);
        }
    }

    // Holds a thread until a counter has reached this.
    fn hold(&self, counter: &AtomicU64, wanted: u64) {
        self.note(waited(counter, wanted));
    }
}

// Takes every piece whole and counts the lines of updates in it. Holds the first of them until `wanted` updates were
// begun to be submitted. It doesn't tell what it took.
#[derive(Drop)]
struct Counting<'a> {
    counts: &'a Counts,
    wanted: u64,
}

impl Sink for Counting<'_> {
    ghost taken = { λ _. None };

    ghost faults = { λ _. 0 };

    fn write(&mut self, bytes: &[u8]) -> Result<usize, Failed> {
        let counts = self.counts;
        if bytes.starts_with(b"take ".as_slice()) {
            let printed = counts.printed.fetch_add(1, SeqCst);
            counts.note(printed < counts.asking.load(SeqCst));
            if printed == 0 {
                counts.hold(&counts.asking, self.wanted);
            }
        }
        Ok(bytes.len())
    }
}

// Returns whether this many updates, all there are, are submitted and printed, and no thread waits in vain. The first
// is printed once `wanted` were begun to be submitted.
pub fn all_pass<R: Threads + Wait + Sync + AllocGlobal + Abort, G: Gate + Sync>(
    rt: &R,
    gate: &G,
    counts: &Counts,
    workers: &'static str,
    input: &[u8],
    updates: u64,
    wanted: u64,
) -> bool {
    let mut sink = Counting { counts, wanted };
    serve_into(rt, gate, at_once(workers, input), &mut sink) == Status::Done
        && counts.missed.load(SeqCst) == 0
        && counts.asking.load(SeqCst) == updates
        && counts.printed.load(SeqCst) == updates
}

// Holds one update until some update was printed.
#[derive(Drop)]
pub struct Holding<'a> {
    pub counts: &'a Counts,
    pub held: u32,
}

impl Gate for Holding<'_> {
    fn at(&self, spot: Spot) {
        let Spot::Asking { ask, .. } = spot else {
            return;
        };
        self.counts.asking.fetch_add(1, SeqCst);
        if ask == self.held {
            self.counts.hold(&self.counts.printed, 1);
        }
    }
}

#[test]
fn updates_go_through_the_intake(rt: HostRuntime) -> Result<(), Fail> {
    let counts = Counts::new();
    let gate = Holding {
        counts: &counts,
        held: 1030,
    };
    let input = equal_scripts(&rt, 1, 1100);
    assert!(rt; all_pass(&rt, &gate, &counts, "1", input.as_slice(), 1100, 1));
    Ok(())
}

// Holds each update of one client until those before it were printed, and so applied.
#[derive(Drop)]
struct InStep<'a> {
    counts: &'a Counts,
}

impl Gate for InStep<'_> {
    fn at(&self, spot: Spot) {
        let counts = self.counts;
        match spot {
            Spot::Asking { ask, .. } => {
                counts.asking.fetch_add(1, SeqCst);
                counts.hold(&counts.printed, u64::from(ask));
                counts.note(ask == 0 || counts.pieces.load(SeqCst) > 0);
            }
            Spot::Piece { .. } => {
                counts.pieces.fetch_add(1, SeqCst);
            }
            _ => {}
        }
    }
}

// The server waits neither for more updates of a batch nor for the next batch, and applies a batch before it prints it.
#[test]
fn updates_are_printed_while_no_others_come(rt: HostRuntime) -> Result<(), Fail> {
    let counts = Counts::new();
    let gate = InStep { counts: &counts };
    let input = equal_scripts(&rt, 1, 4);
    assert!(rt; all_pass(&rt, &gate, &counts, "1", input.as_slice(), 4, 1));
    Ok(())
}

// Looks whether the gate gets the updates of one client in order. The first is held, once it was submitted, until it
// was printed.
#[derive(Drop)]
struct InTurn<'a> {
    counts: &'a Counts,
}

impl Gate for InTurn<'_> {
    fn at(&self, spot: Spot) {
        let counts = self.counts;
        match spot {
            Spot::Asking { ask, .. } => {
                let before = u64::from(ask);
                let asking = counts.asking.fetch_add(1, SeqCst);
                counts.note(asking == before && counts.replied.load(SeqCst) == before);
                counts.note(counts.printed.load(SeqCst) <= before);
            }
            Spot::Replied { ask, .. } => {
                let before = u64::from(ask);
                if ask == 0 {
                    counts.hold(&counts.printed, 1);
                }
                let replied = counts.replied.fetch_add(1, SeqCst);
                counts.note(replied == before && counts.asking.load(SeqCst) == before + 1);
            }
            _ => {}
        }
    }
}

// The first batch is the first update alone. While the line of it is held, the intake has room for 1,024 more. So the
// gate gets the one after these before it is submitted.
#[test]
fn updates_are_told_before_and_after_they_are_submitted(rt: HostRuntime) -> Result<(), Fail> {
    let counts = Counts::new();
    let gate = InTurn { counts: &counts };
    let input = equal_scripts(&rt, 1, 1100);
    assert!(rt; all_pass(&rt, &gate, &counts, "1", input.as_slice(), 1100, 1026));
    assert!(rt; counts.replied.load(SeqCst) == 1100);
    Ok(())
}
