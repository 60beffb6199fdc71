//! One sweep over the levels, from the lowest up. At each level, every vertex with more neighbours at or above it than
//! its band allows rises.

ghost use Rattle.std.specs.Prelude.{◌≡◌, ◌+◌, ◌<◌, ◌≤◌, ℕ, false, All, IfOk, OnOk, filter, length};
ghost use Rattle.std.specs.Bool.{OnTrue};
ghost use Rattle.kc_levels.specs.Thresholds.{group_of, top_level};
ghost use Rattle.kc_insert.specs.private.LevelStep.{HasLimit, HasSwept, IsUnderWay, most_at, StaysRunning, StepsUp, top_of};
ghost use Rattle.kc_insert.specs.Ranges.{IsIn};
ghost use Rattle.kc_insert.specs.private.Ranges.{count_of, is_over};
ghost use Rattle.kc_insert.specs.private.Sweeping.{CanSweep};

use crate::passes::Step;
use crate::ranges::Ranges;
use crate::scaled::Scaled;
use crate::sweep::{Over, Sweep};
use kc_adj::Steps;
use kc_levels::Thresholds;
use kc_rounds::{FirstRound, Gate, Rounds};
use std::alloc::AllocError;
use std::sync::ledger::Ledger;
use std::thread::Threads;

// Returns the first level above `low` that is of another band, or `high` if that comes first.
fn end_of_band(th: &Thresholds, low: u16, high: u16) -> u16
    requires order { low < high }
    requires inside { high ≤ top_level th.now.profile th.now.vertices }
    ensures over { low < result }
    ensures within { result ≤ high }
    ensures same { (k : ℕ) → low ≤ k → k < result → group_of th.now.profile th.now.vertices k ≡ group_of th.now.profile th.now.vertices low }
{
    // Evidence for the check: a graph has a vertex.
    let _top = th.top();
    let band = th.group(low);
    // The last level of the band below `high` is between these two.
    let mut first = low;
    let mut last = high - 1;
    while first < last {
        let middle = last - (last - first) / 2;
        if th.group(middle) == band {
            first = middle;
        } else {
            last = middle - 1;
        }
    }
    first + 1
}

// Goes on to the furthest level for all rising vertices, and returns whether there is one. There is none if a watch
// list has a vertex, or if a vertex waits or is met on the way.
//
// Rising vertices count each other on each of the levels, and all other neighbours that they count are above. So no
// count changes, and in a band each of them goes on where all went on before.
fn rise_together(scaled: Scaled<'_>, sweep: &mut Sweep) -> bool
    requires room { sweep.old.levels.level < top_of scaled }
    requires waiting { All (λ p. sweep.old.levels.level ≤ length p.queue) sweep.old.ranges.parts }
    requires met { All (λ p. sweep.old.levels.level ≤ length p.meetings) sweep.old.ranges.parts }
    ensures stays { result ≡ false → sweep.new ≡ sweep.old }
    ensures goes { OnTrue result (sweep.old.levels.level < sweep.new.levels.level) }
    ensures inside { sweep.new.levels.level < top_of scaled.entry }
    ensures running { HasLimit (most_at scaled.entry sweep.old) sweep.old.ranges → (now : ℕ) → StaysRunning scaled.entry now now sweep.old sweep.new }
{
    // Evidence for the check: the edges of the graph ascend.
    let _n = scaled.graph.vertices();
    let limit = sweep.free_level(scaled.th);
    let level = sweep.levels.level;
    if limit == level || sweep.ranges.has_doubt() {
        return false;
    }
    sweep.levels.go_to(end_of_band(scaled.th, level, limit));
    true
}

// Returns the candidates that count more than `most` neighbours. Fails only if memory runs out.
fn movers<R: Threads + Sync, G: Gate + Sync>(
    rounds: &Rounds<R, G>,
    first: &mut FirstRound,
    ranges: &Ranges,
    most: u32,
    candidates: &[u32],
) -> Result<Vec<u32>, AllocError>
    requires { All (λ v. IsIn ranges.now v) candidates.now }
    ensures { IfOk result (λ v. v.items ≡ filter (is_over (count_of ranges.now) most) candidates.now) }
{
    rounds.movers(first, candidates, &Over { ranges, most })
}

// Takes the sweep from its level to the next. Returns how many steps were counted. Fails only if memory runs out.
fn raise_level<R: Threads + Sync, G: Gate + Sync>(
    rounds: &Rounds<R, G>,
    scaled: Scaled<'_>,
    sweep: &mut Sweep,
) -> Result<usize, AllocError>
    requires room { sweep.old.levels.level < top_of scaled }
    requires limit { HasLimit (most_at scaled sweep.old) sweep.old.ranges }
    requires running { IsUnderWay scaled.th.now.profile scaled.graph.now sweep.old.levels sweep.old.ranges }
    ensures level { OnOk result (sweep.new.levels.level ≡ sweep.old.levels.level + 1) }
    ensures step { OnOk result (StepsUp scaled.entry sweep.old sweep.new) }
    ensures running { IfOk result (λ count. (now : ℕ) → StaysRunning scaled.entry now (now + count) sweep.old sweep.new) }
{
    let graph = scaled.graph;
    let th = scaled.th;
    // Evidence for the check: the edges of the graph ascend, its vertices are at most `MAX_VERTICES`, and the top is
    // below 65,535.
    let _n = graph.vertices();
    let _top = th.top();
    let level = sweep.levels.level;
    let most = th.high(th.group(level));
    let above = th.high(th.group(level + 1));
    let waiting = sweep.ranges.take_waiting(rounds.alloc(), level)?;
    let starting = movers(rounds, &mut sweep.first, &sweep.ranges, most, &waiting)?;
    let staying = sweep.ranges.let_stay(&mut sweep.levels)?;
    let sharing = sweep.ranges.sharing(staying, rounds.workers());
    let parting = Step::new(graph, &sweep.levels, level, sharing);
    sweep.ranges.part(rounds, &parting, staying)?;
    sweep.levels.go_to(level + 1);
    let begun = sweep.ranges.lift_off(&mut sweep.levels, level, &starting)?;
    let meeting = sweep.ranges.meeting_count(level) / 4 + sweep.ranges.meeting_count(level + 1) / 4;
    let work = begun.saturating_add(meeting);
    let sharing = sweep.ranges.sharing(work, rounds.workers());
    let rising = Step::new(graph, &sweep.levels, level, sharing);
    sweep.ranges.rise(rounds, &rising, above)?;
    Ok(sweep.ranges.take_steps())
}

// Goes on from the level of the sweep. If all risers may rise at once, they go to the furthest level; else a round goes
// to the next. Fails only if memory runs out.
fn rise_on<R: Threads + Sync, G: Gate + Sync, L: Ledger>(
    rounds: &Rounds<R, G>,
    scaled: Scaled<'_>,
    sweep: &mut Sweep,
    steps: &mut Steps<L>,
) -> Result<(), AllocError>
    requires room { sweep.old.levels.level < top_of scaled }
    requires running { IsUnderWay scaled.th.now.profile scaled.graph.now sweep.old.levels sweep.old.ranges }
    ensures level { OnOk result (sweep.old.levels.level < sweep.new.levels.level) }
    ensures within { OnOk result (sweep.new.levels.level ≤ top_of scaled.entry) }
    ensures running { OnOk result (StaysRunning scaled.entry steps.old steps.new sweep.old sweep.new) }
{
    sweep.look_anew(scaled.th)?;
    if rise_together(scaled, sweep) {
        return Ok(());
    }
    let count = raise_level(rounds, scaled, sweep)?;
    steps.add(count);
    Ok(())
}

/// Raises the levels of the sweep to the raised list, where every vertex that breaks the upper invariant waits on its
/// level.
///
/// Goes through the levels once, from the lowest up. Fails only if memory runs out; levels and ranges are then
/// unspecified.
pub fn raise_queued<R: Threads + Sync, G: Gate + Sync, L: Ledger>(
    rounds: &Rounds<R, G>,
    scaled: Scaled<'_>,
    sweep: &mut Sweep,
    steps: &mut Steps<L>,
) -> Result<(), AllocError>
    requires { CanSweep scaled.th.now.profile scaled.graph.now sweep.old.levels.stored sweep.old.ranges }
    ensures { OnOk result (HasSwept scaled.entry sweep.old.levels.stored steps.old steps.new sweep.new) }
{
    // Evidence for the check: a graph has a vertex.
    let _n = scaled.graph.vertices();
    let top = scaled.th.top();
    sweep.levels.go_to(0);
    sweep.go_on();
    while sweep.levels.level < top {
        rise_on(rounds, scaled, sweep, steps)?;
        sweep.go_on();
    }
    sweep.stop_all();
    Ok(())
}
