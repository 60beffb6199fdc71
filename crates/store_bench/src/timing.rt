//! The times of loads from an array, of reads of a store, and of a writer's work. Each function `time_..` does what its
//! name says and returns how long that took.
ghost use Rattle.std.specs.Prelude.{◌≤◌, All};
ghost use Rattle.kc_graph.specs.declared.limits.TheConstants.{MAX_VERTICES};
ghost use Rattle.kc_groups.specs.WellFormed.{IsWellFormed};
ghost use Rattle.store_bench.specs.private.Showing.{IsFresh};

use crate::reading::{Reader, run_loads, run_readers};
use crate::showing::show_all;
use anyhow::ensure;
use kc_groups::PhasePlan;
use kc_store::{Store, Writer};
use std::alloc::Global;
use std::thread::Threads;
use std::time::{Clock, Duration, Instant};

/// Returns the time now.
pub fn now(rt: &impl Clock) -> anyhow::Result<Instant> {
    Ok(Instant::now(rt)?)
}

/// Returns the time that has passed since `start`.
pub fn since(rt: &impl Clock, start: Instant) -> anyhow::Result<Duration> {
    Ok(start.elapsed(rt)?)
}

/// Lets each reader read the vertices of `order`, all readers at once.
pub fn time_readers<R: Threads + Sync + Clock>(
    rt: &R,
    order: &[u32],
    readers: &mut [Reader<'_>],
) -> anyhow::Result<Duration> {
    let start = now(rt)?;
    run_readers(rt, order, readers);
    since(rt, start)
}

/// Does what `time_readers` does, of a store with all vertices on level 1. Fails if a reader saw another level.
pub fn time_ones<R: Threads + Sync + Clock>(
    rt: &R,
    order: &[u32],
    readers: &mut [Reader<'_>],
) -> anyhow::Result<Duration> {
    let time = time_readers(rt, order, readers)?;
    for reader in readers.iter() {
        ensure!(reader.sum == order.len() as u64, "a read was wrong");
    }
    Ok(time)
}

/// Loads the words of the vertices of `order`, by a thread for each sum. Fails if a word isn't 1.
pub fn time_loads<R: Threads + Sync + Clock>(
    rt: &R,
    words: &[u64],
    order: &[u32],
    sums: &mut [u64],
) -> anyhow::Result<Duration> {
    let start = now(rt)?;
    run_loads(rt, words, order, sums);
    let time = since(rt, start)?;
    for sum in sums.iter() {
        ensure!(*sum == order.len() as u64, "a load from memory was wrong");
    }
    Ok(time)
}

/// Shows the plans, one after another. Fails if one of them can't begin.
pub fn time_writer<R: Clock>(
    rt: &R,
    store: &Store,
    writer: &mut Writer,
    n: u32,
    plans: &[PhasePlan],
) -> anyhow::Result<Duration>
    requires fresh { IsFresh n store.now writer.old }
    requires formed { All (IsWellFormed n) plans.now }
{
    let start = now(rt)?;
    let shown = show_all(store, writer, n, plans);
    let time = since(rt, start)?;
    ensure!(shown, "a plan can't begin");
    Ok(time)
}

/// Returns how many words a store of n vertices has: three for each vertex, and the number of phases.
pub fn words_of(n: u32) -> usize {
    3 * n as usize + 1
}

/// Zeroes as much memory as a store of n vertices has.
pub fn time_zeroing(rt: &impl Clock, alloc: Global, n: u32) -> anyhow::Result<Duration> {
    let start = now(rt)?;
    let words = vec![in alloc; 0u64; words_of(n)]?;
    let time = since(rt, start);
    drop(words);
    time
}

/// Opens a store of n vertices.
pub fn time_opening(rt: &impl Clock, alloc: Global, n: u32) -> anyhow::Result<Duration>
    requires { (1 ≤ n) × (n ≤ MAX_VERTICES) }
{
    let start = now(rt)?;
    let (store, writer) = Store::open(alloc, n, 0)?;
    let time = since(rt, start);
    drop(writer);
    drop(store);
    time
}
