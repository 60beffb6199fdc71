//! A first program over the library: a service of five vertices, and three batches. Two readers ask, in threads of
//! their own, while the batches are applied.
#![tactic(auto)]

// That other threads may use the runtime, which the closures of threads ask.
ghost use Rattle.std.specs.Thread.{IsSync};

use anyhow::bail;
use kc_service::{Applied, Item, Options, Reader, Service};
use std::alloc::{AllocError, Global};
use std::sync::atomic::AtomicU64;
use std::sync::atomic::Ordering::SeqCst;
use std::thread::Threads;
use std::{io, thread};

// The number of vertices.
const VERTICES: u32 = 5;

// The vertices that the two readers ask for.
const WATCHED: [u32; 2] = [0, 4];

// A triangle with a tail, two edges that make it a clique of four with a tail, and the tail is cut off.
const BATCHES: [&[Item]; 3] = [
    &[
        Item::Insert { u: 0, v: 1 },
        Item::Insert { u: 0, v: 2 },
        Item::Insert { u: 1, v: 2 },
        Item::Insert { u: 2, v: 3 },
        Item::Insert { u: 3, v: 4 },
    ],
    &[Item::Insert { u: 1, v: 3 }, Item::Insert { u: 0, v: 3 }],
    &[Item::Delete { u: 3, v: 4 }],
];

// How often a thread looks for the others at most.
const TURNS: u32 = 100_000_000;

// How far batches and readers are, so that each reader asks at least once between two batches. Other programs don't
// need it, since readers ask when they like. Here it makes what is printed the same each time.
#[derive(Drop)]
struct Pace {
    // How many batches were applied.
    applied: AtomicU64,
    // How often a reader asked for the first time after a batch, or before the first one.
    asked: AtomicU64,
}

impl Pace {
    // Waits until `asked` is at least `asks`.
    fn wait(&self, asks: u64) -> anyhow::Result<()> {
        for _turn in 0..TURNS {
            if self.asked.load(SeqCst) >= asks {
                return Ok(());
            }
            thread::yield_now();
        }
        bail!("a reader doesn't ask")
    }
}

// A reader that asks for one vertex, and what it saw.
#[derive(Drop)]
struct Watch {
    reader: Reader,
    vertex: u32,
    // The levels that it saw, one after another.
    levels: Vec<u16>,
}

impl Watch {
    // Opens a reader of the service that is to ask for a vertex.
    fn open<R: Threads + Sync>(
        alloc: Global,
        service: &mut Service<'_, R>,
        vertex: u32,
    ) -> Result<Watch, AllocError> {
        Ok(Watch {
            reader: service.reader()?,
            vertex,
            levels: Vec::new(alloc),
        })
    }

    // Asks until all batches were applied.
    fn run(&mut self, pace: &Pace) -> Result<(), AllocError> {
        let mut told = None;
        for _turn in 0..TURNS {
            let applied = pace.applied.load(SeqCst);
            let Some(level) = self.reader.level(self.vertex) else {
                return Ok(());
            };
            if self.levels.last() != Some(&level) {
                self.levels.push(level)?;
            }
            if told != Some(applied) {
                pace.asked.fetch_add(1, SeqCst);
                told = Some(applied);
            }
            if applied >= BATCHES.len() as u64 {
                return Ok(());
            }
            thread::yield_now();
        }
        Ok(())
    }

    fn print(&self, rt: &impl Print) -> io::Result<()> {
        print!(rt; "a reader saw vertex {} on level", self.vertex)?;
        for level in &self.levels {
            print!(rt; " {level}")?;
        }
        println!(rt; "")
    }
}

// Prints the groups of vertices that moved together in the phases of a batch.
fn print_moves(rt: &impl Print, applied: &Applied) -> io::Result<()> {
    println!(rt; "{} edges came in, {} left", applied.added, applied.removed)?;
    for phase in applied.phases.as_slice() {
        for group in phase.groups.as_slice() {
            for m in group.moves.as_slice() {
                println!(rt;
                    "phase {}: vertex {} moves from level {} to {}",
                    group.phase, m.vertex, m.old, m.new
                )?;
            }
        }
    }
    Ok(())
}

// Applies a batch, and prints what it did.
fn apply<R: Threads + Sync + Print>(
    rt: &R,
    service: &mut Service<'_, R>,
    items: &[Item],
) -> anyhow::Result<()> {
    let applied = service.apply(items)?;
    print_moves(rt, &applied)?;
    Ok(())
}

// Applies the batches one after another, and prints what each did. Each reader asks once before the first batch,
// and between two batches.
fn apply_each<R: Threads + Sync + Print>(
    rt: &R,
    service: &mut Service<'_, R>,
    pace: &Pace,
) -> anyhow::Result<()> {
    let readers = WATCHED.len() as u64;
    let mut asks = readers;
    pace.wait(asks)?;
    for items in BATCHES {
        apply(rt, service, items)?;
        pace.applied.fetch_add(1, SeqCst);
        asks = asks.saturating_add(readers);
        pace.wait(asks)?;
    }
    Ok(())
}

// Prints what the level of each vertex says of its coreness, and the coreness itself.
fn print_bounds(rt: &impl Print, reader: &mut Reader, coreness: &[u32]) -> anyhow::Result<()> {
    for (v, coreness) in (0..VERTICES).zip(coreness) {
        let Some(bounds) = reader.bounds(v) else {
            bail!("there is no such vertex");
        };
        println!(rt;
            "vertex {v}: level {}, coreness {} to {}, about {}: {coreness}",
            bounds.level, bounds.low, bounds.high, bounds.est
        )?;
    }
    Ok(())
}

// Lets both readers ask, each in a thread of its own if one can be made.
fn read_both<R: Threads + Sync>(
    rt: &R,
    one: &mut Watch,
    other: &mut Watch,
    pace: &Pace,
) -> Result<(), AllocError> {
    let (first, second) = thread::join_mut(rt, &mut || one.run(pace), &mut || other.run(pace));
    first.and(second)
}

// Applies the batches while the readers ask.
fn run_beside<R: Threads + Sync + Print>(
    rt: &R,
    service: &mut Service<'_, R>,
    one: &mut Watch,
    other: &mut Watch,
    pace: &Pace,
) -> (Result<(), AllocError>, anyhow::Result<()>) {
    thread::join_mut(
        rt,
        &mut ||
            requires { IsSync R.row }
        { read_both(rt, one, other, pace) },
        &mut ||
            requires { IsSync R.row }
        {
            let outcome = apply_each(rt, service, pace);
            // The readers end, also after a fault.
            pace.applied.store(BATCHES.len() as u64, SeqCst);
            outcome
        },
    )
}

// Applies the batches beside the readers, and prints what the readers saw, and the bounds.
fn apply_and_print<R: Threads + Sync + Print>(
    rt: &R,
    service: &mut Service<'_, R>,
    one: &mut Watch,
    other: &mut Watch,
) -> anyhow::Result<()> {
    let pace = Pace {
        applied: AtomicU64::new(0),
        asked: AtomicU64::new(0),
    };
    let (seen, applied) = run_beside(rt, service, one, other, &pace);
    applied?;
    seen?;
    one.print(rt)?;
    other.print(rt)?;
    let coreness = service.coreness()?;
    print_bounds(rt, &mut one.reader, coreness.as_slice())
}

// Opens the two readers, applies the batches beside them, and prints what they saw.
fn run<R: Threads + Sync + Print>(
    rt: &R,
    alloc: Global,
    service: &mut Service<'_, R>,
) -> anyhow::Result<()> {
    let [first, second] = WATCHED;
    let mut one = Watch::open(alloc, service, first)?;
    let mut other = Watch::open(alloc, service, second)?;
    apply_and_print(rt, service, &mut one, &mut other)
}

fn main(rt: HostRuntime) -> anyhow::Result<()> {
    let mut service = Service::open(&rt, rt.alloc(), Options::for_vertices(VERTICES))?;
    let outcome = run(&rt, rt.alloc(), &mut service);
    // A call, since a service that ends with its scope is dear to prove.
    drop(service);
    outcome
}
