//! How the counts of a sweep follow those of the graph, and which vertices wait when it begins.

ghost use Rattle.std.specs.Prelude.{◌≡◌, ◌≢◌, ◌+◌, ◌<◌, ◌≤◌, ◌^◌, ℕ, false, All, OnOk, length, slice_index};
ghost use Rattle.kc_levels.specs.LevelList.{IsCapped};
ghost use Rattle.kc_levels.specs.Thresholds.{top_level};
ghost use Rattle.kc_insert.specs.private.Filed.{AllFollowed, AreCopied, AreFiled, AreRowsCopied, HasFollowedAll, HasFollowedOne, HaveFollowed, IsRowCopied, MayFile, MayFollow, MayFollowOne};
ghost use Rattle.kc_insert.specs.Ranges.{HasVertex, IsIn};
ghost use Rattle.kc_insert.specs.private.Ranges.{EachCan, EachDid};

use crate::counted::Counted;
use crate::range::Range;
use crate::ranges::Ranges;
use crate::sharing::check;
use crate::watched::WatchedCounts;
use kc_adj::LevelLists;
use kc_graph::Edge;
use kc_levels::{Levels, Move, Thresholds};
use kc_rounds::{Gate, Rounds};
use std::alloc::AllocError;
use std::marker::Model;
use std::thread;
use std::thread::Threads;

// If there is an edge for every 16th vertex, a pass over all vertices replaces the look at each edge's ends. It takes a
// nanosecond a vertex, and a look at an end some 20.
const LEAST_SHARE: usize = 16;

/// What ranges follow when a phase begins. Contracts see it as a `Following`.
#[derive(Drop)]
pub struct Fresh<'a> {
    /// The thresholds of the graph.
    pub th: &'a Thresholds,
    /// The level of each vertex.
    pub levels: &'a Levels,
    /// How many neighbours each vertex counts in the graph.
    pub counts: &'a [u32],
}

impl<'a> Model for Fresh<'a> {
    ghost use Rattle.kc_insert.specs.private.Filed.{Following};

    ghost Value = { Following };

    ghost view = { λ f. record { profile = f.th.now.profile; vertices = f.th.now.vertices; levels = f.levels.now; counts = f.counts.now } };
}

// Copies the count of v. If it changed and is over the band's limit, files v on its level. Fails only if memory runs
// out.
fn follow_count(
    fresh: &Fresh<'_>,
    v: u32,
    watched: &mut WatchedCounts,
    queue: &mut LevelLists<u32>,
) -> Result<(), AllocError>
    requires { MayFollowOne fresh.now v watched.old queue.old }
    ensures { OnOk result (HasFollowedOne fresh.now v watched.old watched.new queue.old queue.new) }
{
    let th = fresh.th;
    let own = fresh.counts[v as usize];
    if watched.count(v) == own {
        return Ok(());
    }
    watched.set(v, own);
    let level = fresh.levels.get(v);
    if own > th.high(th.group(level)) {
        queue.file(level, v)?;
    }
    Ok(())
}

// Returns the first place from this one on where the range has another count than `fresh`. If there is none, returns
// the number of places.
fn next_changed(watched: &WatchedCounts, fresh: &[u32], from: usize) -> usize
    requires inside { (v : ℕ) → HasVertex watched.now v → v < length fresh.now }
    requires from { from ≤ length watched.now.counts }
    ensures from { from ≤ result }
    ensures within { result ≤ length watched.now.counts }
    ensures same { (i : ℕ) → from ≤ i → i < result → slice_index watched.now.counts i ≡ slice_index fresh.now (watched.now.first + i) }
{
    let first = watched.first() as usize;
    let counts = watched.counts();
    for i in from..counts.len() {
        if counts[i] != fresh[first + i] {
            return i;
        }
    }
    counts.len()
}

// Gives each vertex of the range its fresh count, as `follow_count` does. Fails only if memory runs out.
fn follow_counts(
    fresh: &Fresh<'_>,
    watched: &mut WatchedCounts,
    queue: &mut LevelLists<u32>,
) -> Result<(), AllocError>
    requires inside { (v : ℕ) → HasVertex watched.old v → v < length fresh.now.counts }
    requires few { length fresh.now.counts ≤ 2 ^ 24 }
    requires levels { (length fresh.now.levels ≡ length fresh.now.counts) × (fresh.now.vertices ≡ length fresh.now.counts) × IsCapped fresh.now.profile fresh.now.vertices fresh.now.levels }
    requires room { top_level fresh.now.profile fresh.now.vertices < length queue.old }
    ensures { OnOk result (HaveFollowed fresh.now (length watched.old.counts) watched.old watched.new queue.old queue.new) }
{
    let first = watched.first();
    let count = watched.counts().len();
    let mut i = next_changed(watched, fresh.counts, 0);
    while i < count {
        follow_count(fresh, first + i as u32, watched, queue)?;
        i = next_changed(watched, fresh.counts, i + 1);
    }
    Ok(())
}

// Does what `follow_count` does, for a vertex of one of the ranges.
fn file_end(fresh: &Fresh<'_>, ranges: &mut Ranges, v: u32) -> Result<(), AllocError>
    requires vertex { v < length fresh.now.counts }
    requires can { MayFile fresh.now ranges.old }
    ensures { OnOk result (AreFiled fresh.now (λ u. u ≢ v) ranges.old ranges.new) }
{
    let range = &mut ranges.items[ranges.layout.range_of(v)];
    follow_count(fresh, v, &mut range.watched, &mut range.queue)?;
    Ok(())
}

// Does what `file_end` does, for both ends of each edge.
fn file_each_end(fresh: &Fresh<'_>, ranges: &mut Ranges, edges: &[Edge]) -> Result<(), AllocError>
    requires inside { All (λ e. e.1 < length fresh.now.counts) edges.now }
    requires can { MayFile fresh.now ranges.old }
    ensures { OnOk result (AreFiled fresh.now (λ v. All (λ e. (v ≢ e.0) × (v ≢ e.1)) edges.now) ranges.old ranges.new) }
{
    for e in edges {
        file_end(fresh, ranges, e.a)?;
        file_end(fresh, ranges, e.b)?;
    }
    Ok(())
}

impl Range {
    // Does what `follow_counts` does. Marks the range if memory runs out.
    fn try_follow(&mut self, fresh: &Fresh<'_>)
        requires { MayFollow fresh.now self.old }
        ensures { self.new.is_short ≡ false → HasFollowedAll fresh.now self.old self.new }
    {
        if follow_counts(fresh, &mut self.watched, &mut self.queue).is_err() {
            self.is_short = true;
        }
    }
}

// Calls `Range::try_follow` for each range, with this many threads. A range in which memory ran out is marked.
fn follow_each<R: Threads + Sync>(rt: &R, threads: usize, fresh: &Fresh<'_>, items: &mut [Range])
    requires threads { 0 < threads }
    requires ready { EachCan (λ _. MayFollow fresh.now) items.old }
    ensures { EachDid (λ _. HasFollowedAll fresh.now) items.old items.new }
{
    thread::for_each_mut(
        rt,
        items,
        threads,
        &|_: usize, range: &mut Range|
            requires { MayFollow fresh.now range.old }
            ensures { range.new.is_short ≡ false → HasFollowedAll fresh.entry.now range.old range.new }
        { range.try_follow(fresh) },
    );
}

// Does what `follow_counts` does for each range, with this many threads. Fails only if memory runs out.
fn follow_all<R: Threads + Sync>(
    rt: &R,
    threads: usize,
    fresh: &Fresh<'_>,
    items: &mut [Range],
) -> Result<(), AllocError>
    requires threads { 0 < threads }
    requires ready { EachCan (λ _. MayFollow fresh.now) items.old }
    ensures { OnOk result (AllFollowed fresh.now items.old items.new) }
{
    follow_each(rt, threads, fresh, items);
    check(items)?;
    Ok(())
}

// Gives all vertices their fresh counts. Files each vertex whose count changed and is over the limit of its band. Fails
// only if memory runs out.
fn file_all<R: Threads + Sync>(
    rt: &R,
    threads: usize,
    fresh: &Fresh<'_>,
    ranges: &mut Ranges,
) -> Result<(), AllocError>
    requires threads { 0 < threads }
    requires can { MayFile fresh.now ranges.old }
    ensures { OnOk result (AreFiled fresh.now (λ v. v ≢ v) ranges.old ranges.new) }
{
    follow_all(rt, threads, fresh, &mut ranges.items)?;
    Ok(())
}

/// Copies the fresh counts of the ends of the edges. An end whose count changed, and is more than its band allows, is
/// filed once, by its level. If there is an edge for every 16th vertex or more, looks at all vertices. Threads share
/// them if there are ranges and the edges are many (`Layout::threads`). Fails only if memory runs out.
pub fn file_ends<R: Threads + Sync, G: Gate + Sync>(
    rounds: &Rounds<R, G>,
    fresh: &Fresh<'_>,
    ranges: &mut Ranges,
    edges: &[Edge],
) -> Result<(), AllocError>
    requires inside { All (λ e. e.1 < length fresh.now.counts) edges.now }
    requires can { MayFile fresh.now ranges.old }
    ensures { OnOk result (AreFiled fresh.now (λ v. All (λ e. (v ≢ e.0) × (v ≢ e.1)) edges.now) ranges.old ranges.new) }
{
    if edges.len() < fresh.counts.len() / LEAST_SHARE {
        return file_each_end(fresh, ranges, edges);
    }
    let threads = ranges.layout.threads(edges.len(), rounds.workers());
    file_all(rounds.runtime(), threads, fresh, ranges)?;
    Ok(())
}

/// Copies the counts of the ends of the edges.
pub fn copy_ends(ranges: &mut Ranges, fresh: &[u32], edges: &[Edge])
    requires vertices { (v : ℕ) → v < length fresh.now → IsIn ranges.old v }
    requires inside { All (λ e. e.1 < length fresh.now) edges.now }
    ensures { AreCopied fresh.now (λ v. All (λ e. (v ≢ e.0) × (v ≢ e.1)) edges.now) ranges.old ranges.new }
{
    for e in edges {
        ranges.set(e.a, fresh[e.a as usize]);
        ranges.set(e.b, fresh[e.b as usize]);
    }
}

// Copies the counts of v and of its neighbours.
fn copy_row(ranges: &mut Ranges, fresh: Counted<'_>, v: u32)
    requires vertices { (v : ℕ) → v < length fresh.counts.now → IsIn ranges.old v }
    requires vertex { v < fresh.graph.now.vertices }
    ensures { IsRowCopied fresh.entry v ranges.old ranges.new }
{
    let counts = fresh.counts;
    // Evidence for the check: the vertices of the graph are at most `MAX_VERTICES`.
    let _n = fresh.graph.vertices();
    ranges.set(v, counts[v as usize]);
    for w in fresh.graph.neighbours(v) {
        ranges.set(*w, counts[*w as usize]);
    }
}

/// Copies the counts of the vertices that moved, and of their neighbours.
pub fn copy_rows(ranges: &mut Ranges, fresh: Counted<'_>, moves: &[Move])
    requires vertices { (v : ℕ) → v < length fresh.counts.now → IsIn ranges.old v }
    requires inside { All (λ m. m.vertex < fresh.graph.now.vertices) moves.now }
    ensures { AreRowsCopied fresh.entry moves.now ranges.old ranges.new }
{
    for m in moves {
        copy_row(ranges, fresh, m.vertex);
    }
}
