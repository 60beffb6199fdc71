//! A walk over the sorted keys of a batch. If they are many, threads share it: each has the keys of consecutive pairs.

ghost use Rattle.std.specs.Prelude.{◌≡◌, ◌≤◌, true, map, IfOk, IfSome};
ghost use Rattle.std.specs.Thread.{IsSync};
ghost use Rattle.kc_graph.specs.private.Keys.{is_last_of_pair, unpacked};
ghost use Rattle.kc_graph.specs.private.Walks.{net_of, AreKeys, IsPairCut};

use crate::cleaning::Cleaned;
use crate::crew::Crew;
use crate::graphs::{Graph, TOGETHER};
use crate::keys::Key;
use crate::limits::MAX_VERTICES;
use std::alloc::{AllocError, Global};
use std::thread::{Threads, join_mut};

// The least number of keys of a part. Fewer than twice as many aren't cut: they cost little more than threads do.
const LEAST_WALK: usize = 4_096;

// Prefetches the rows of the lesser vertices of the first keys. Always returns true; the compiler can't know that, so
// it keeps the loads.
fn prefetch_rows(graph: &Graph, bits: u32, keys: &[u64]) -> bool
    requires { bits ≤ 24 }
    ensures { result ≡ true }
{
    for k in 0..keys.len().min(TOGETHER) {
        let a = keys[k] / 2 >> bits;
        if a < MAX_VERTICES as u64 && !graph.prefetch_row(a as u32) {
            // Never: `prefetch_row` always returns true.
            return false;
        }
    }
    true
}

// Returns whether the key is the last of its pair in a sorted list (`is_last_of_pair`), which the next key decides.
fn ends_pair(key: u64, later: &[u64]) -> bool
    ensures { (bits : _) → result ≡ is_last_of_pair (unpacked bits key) (map (unpacked bits) later.now) }
{
    match later {
        [next, ..] => key / 2 != *next / 2,
        [] => true,
    }
}

// Returns whether the key is the last of its pair (`is_last_of_pair`). At every 16th key it prefetches the rows of the
// next 16.
fn ends_pair_with_prefetch(graph: &Graph, bits: u32, key: u64, later: &[u64]) -> bool
    requires { bits ≤ 24 }
    ensures { result ≡ is_last_of_pair (unpacked bits key) (map (unpacked bits) later.now) }
{
    if later.len() % TOGETHER == 0 && !prefetch_rows(graph, bits, later) {
        // Never: `prefetch_rows` always returns true.
        return false;
    }
    ends_pair(key, later)
}

// Returns the net effect of the keys (`net_of`), without loops. The keys of a pair stand together, the deciding one
// last. Costs a look-up for each pair. Fails only if memory runs out.
fn walk(alloc: Global, graph: &Graph, bits: u32, keys: &[u64]) -> Result<Cleaned, AllocError>
    requires { AreKeys graph.now.vertices bits keys.now }
    ensures { IfOk result (λ c. c ≡ net_of graph.now bits keys.now) }
{
    let mut cleaned = Cleaned::of_loops(alloc, 0);
    let mut rest = keys;
    while let Some((key, later)) = rest.split_first() {
        if ends_pair_with_prefetch(graph, bits, *key, later) {
            cleaned.decide(graph, &Key::unpacked(bits, *key))?;
        } else {
            cleaned.repeats += 1;
        }
        rest = later;
    }
    Ok(cleaned)
}

// Cuts the keys where a pair ends: at the middle, or at the first such place after it. Returns none if there is none.
fn cut(keys: &[u64]) -> Option<(&[u64], &[u64])>
    ensures { IfSome result (λ r. IsPairCut keys.now r.0.now r.1.now) }
{
    for place in keys.len() / 2..keys.len() {
        let (front, back) = keys.split_at(place);
        if let Some((last, _)) = front.split_last() {
            if ends_pair(*last, back) {
                return Some((front, back));
            }
        }
    }
    None
}

/// Returns the net effect of the keys, by a walk that the threads of the crew share if the keys are many.
#[cycle(walking)]
pub fn walk_by<R: Threads + Sync>(
    crew: &Crew<'_, R>,
    graph: &Graph,
    bits: u32,
    keys: &[u64],
) -> Result<Cleaned, AllocError>
    requires { AreKeys graph.now.vertices bits keys.now }
    ensures { IfOk result (λ c. c ≡ net_of graph.now bits keys.now) }
{
    if crew.workers >= 2 && LEAST_WALK <= keys.len() / 2 {
        if let Some((front, back)) = cut(keys) {
            let (lesser, greater) = walk_both(crew, graph, bits, front, back);
            let mut cleaned = lesser?;
            let later = greater?;
            cleaned.follow(later)?;
            return Ok(cleaned);
        }
    }
    walk(crew.alloc, graph, bits, keys)
}

// The net effect of some keys, and that of others.
type Both = (Result<Cleaned, AllocError>, Result<Cleaned, AllocError>);

#[cycle(walking)]
fn walk_both<R: Threads + Sync>(
    crew: &Crew<'_, R>,
    graph: &Graph,
    bits: u32,
    front: &[u64],
    back: &[u64],
) -> Both
    requires several { 2 ≤ crew.now.workers }
    requires front { AreKeys graph.now.vertices bits front.now }
    requires back { AreKeys graph.now.vertices bits back.now }
    ensures front { IfOk result.0 (λ c. c ≡ net_of graph.now bits front.now) }
    ensures back { IfOk result.1 (λ c. c ≡ net_of graph.now bits back.now) }
{
    let mut left = || -> Result<Cleaned, AllocError>
        requires { IsSync R.row × (2 ≤ crew.now.workers) × AreKeys graph.now.vertices bits front.now }
        ensures { IfOk result (λ c. c ≡ net_of graph.entry.now bits front.entry.now) }
    { walk_by(&crew.with(crew.workers / 2), graph, bits, front) };
    let mut right = || -> Result<Cleaned, AllocError>
        requires { IsSync R.row × (2 ≤ crew.now.workers) × AreKeys graph.now.vertices bits back.now }
        ensures { IfOk result (λ c. c ≡ net_of graph.entry.now bits back.entry.now) }
    {
        walk_by(
            &crew.with(crew.workers - crew.workers / 2),
            graph,
            bits,
            back,
        )
    };
    join_mut(crew.rt, &mut left, &mut right)
}
