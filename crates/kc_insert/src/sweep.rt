//! How far a sweep over the levels has come.

ghost use Rattle.std.specs.Prelude.{◌≡◌, ◌<◌, ◌≤◌, ◌&&◌, ℕ, true, not, All, OnOk, length, slice_index_or};
ghost use Rattle.std.specs.List.{flat_map};
ghost use Rattle.kc_graph.specs.Numbers.{has_number};
ghost use Rattle.kc_levels.specs.Thresholds.{group_of, high, top_level};
ghost use Rattle.kc_insert.specs.declared.scaled.Scaled.{Scaled};
ghost use Rattle.kc_insert.specs.private.LevelStep.{StaysRunning};
ghost use Rattle.kc_insert.specs.private.Ranges.{CanLookAnew, LookedAnew};
ghost use Rattle.kc_insert.specs.Ranges.{all_began, meets, waits};
ghost use Rattle.kc_insert.specs.private.Rising.{rises, seen};
ghost use Rattle.kc_insert.specs.private.Sweeping.{IsFree};

use crate::range::Range;
use crate::ranges::Ranges;
use crate::rising::RisingLevels;
use kc_levels::Thresholds;
use kc_rounds::{FirstRound, RoundTest};
use std::alloc::AllocError;

/// How far a sweep has come.
#[derive(Drop)]
pub struct Sweep {
    /// The level that it is at, the levels by now, and which vertices rise.
    pub levels: RisingLevels,
    /// How far it is at each vertex.
    pub ranges: Ranges,
    /// Whether no round with candidates has been yet.
    pub first: FirstRound,
}

/// Tests whether a vertex counts more than `most` neighbours.
#[derive(Drop)]
pub struct Over<'a> {
    /// What each vertex counts.
    pub ranges: &'a Ranges,
    /// How many neighbours the band of the sweep's level allows.
    pub most: u32,
}

impl RoundTest for Over<'_> {
    ghost use Rattle.kc_insert.specs.private.Ranges.{count_of, is_over};
    ghost use Rattle.kc_insert.specs.Ranges.{IsIn};

    ghost keeps = { λ test v. is_over (count_of test.ranges.now) test.most v };

    ghost may_ask = { λ test v. IsIn test.ranges.now v };

    fn keep(&self, v: u32) -> bool {
        self.ranges.count(v) > self.most
    }
}

// Returns the lesser of the two.
fn lesser(a: u16, b: u16) -> u16
    ensures first { result ≤ a }
    ensures second { result ≤ b }
    ensures either { (k : ℕ) → k ≤ a → k ≤ b → k ≤ result }
{
    if a < b { a } else { b }
}

// Stops the vertices of the list that rise.
fn stop_listed(levels: &mut RisingLevels, vertices: &[u32])
    requires small { (v : ℕ) → rises levels.old v ≡ true → levels.old.level < 65535 }
    requires inside { (v : ℕ) → has_number v vertices.now ≡ true → v < length (seen levels.old) }
    ensures level { levels.new.level ≡ levels.old.level }
    ensures seen { seen levels.new ≡ seen levels.old }
    ensures rises { (v : ℕ) → rises levels.new v ≡ (rises levels.old v && not (has_number v vertices.now)) }
{
    for v in vertices {
        if levels.rises(*v) {
            levels.stop(*v);
        }
    }
}

// Stops the vertices that the ranges keep as begun, if they rise.
fn stop_kept(levels: &mut RisingLevels, items: &[Range])
    requires small { (v : ℕ) → rises levels.old v ≡ true → levels.old.level < 65535 }
    requires inside { (j v : ℕ) (d : _) → j < length items.now → has_number v (slice_index_or items.now j d).began ≡ true → v < length (seen levels.old) }
    ensures level { levels.new.level ≡ levels.old.level }
    ensures seen { seen levels.new ≡ seen levels.old }
    ensures rises { (v : ℕ) → rises levels.new v ≡ (rises levels.old v && not (has_number v (flat_map (λ p. p.began) items.now))) }
{
    for range in items {
        stop_listed(levels, range.began.as_slice());
    }
}

impl Sweep {
    /// Returns the furthest level below the top up to which the vertices on the level of the sweep may rise together.
    /// On the levels on the way no vertex waits or is to be met. Returns the sweep's own level if there is none beyond
    /// it.
    pub fn free_level(&self, th: &Thresholds) -> u16
        requires room { self.now.levels.level < top_level th.now.profile th.now.vertices }
        requires waiting { All (λ p. self.now.levels.level ≤ length p.queue) self.now.ranges.parts }
        requires met { All (λ p. self.now.levels.level ≤ length p.meetings) self.now.ranges.parts }
        ensures from { self.now.levels.level ≤ result }
        ensures inside { result < top_level th.now.profile th.now.vertices }
        ensures free { self.now.levels.level < result → IsFree self.now.levels.level result (waits self.now.ranges) (meets self.now.ranges) }
    {
        let level = self.levels.level;
        let met = self.ranges.next_meeting(level);
        if met == level {
            return level;
        }
        lesser(
            lesser(self.ranges.next_waiting(level), met - 1),
            th.top() - 1,
        )
    }

    /// Looks anew at all rising vertices if the limit is another one on the level of the sweep. Fails only if memory
    /// runs out.
    pub fn look_anew(&mut self, th: &Thresholds) -> Result<(), AllocError>
        requires room { self.old.levels.level < top_level th.now.profile th.now.vertices }
        requires can { CanLookAnew self.old.levels self.old.ranges.parts }
        ensures levels { OnOk result (self.new.levels ≡ self.old.levels) }
        ensures looked { OnOk result (LookedAnew self.old.levels (high th.now.profile (group_of th.now.profile th.now.vertices self.old.levels.level)) self.old.ranges.parts self.new.ranges.parts) }
        ensures same { OnOk result ((self.new.ranges.width ≡ self.old.ranges.width) × (self.new.ranges.told ≡ self.old.ranges.told)) }
    {
        let most = th.high(th.group(self.levels.level));
        self.ranges.look_anew(&self.levels, most)?;
        Ok(())
    }

    /// Goes on to the first level where a vertex may have to rise. Stays if a range keeps a vertex that began.
    pub fn go_on(&mut self)
        requires within { All (λ p. self.old.levels.level ≤ length p.queue) self.old.ranges.parts }
        ensures ranges { self.new.ranges ≡ self.old.ranges }
        ensures from { self.old.levels.level ≤ self.new.levels.level }
        ensures within { (n : ℕ) → 0 < length self.old.ranges.parts → All (λ p. length p.queue ≡ n) self.old.ranges.parts → self.old.levels.level ≤ n → self.new.levels.level ≤ n }
        ensures running { (s : Scaled) (now : ℕ) → StaysRunning s now now self.old self.new }
    {
        if !self.ranges.has_begun() {
            let next = self.ranges.next_waiting(self.levels.level);
            self.levels.go_to(next);
        }
    }

    /// Stops all rising vertices. The stored levels are then the levels of all vertices.
    pub fn stop_all(&mut self)
        requires small { (v : ℕ) → rises self.old.levels v ≡ true → self.old.levels.level < 65535 }
        requires inside { (j v : ℕ) (d : _) → j < length self.old.ranges.parts → has_number v (slice_index_or self.old.ranges.parts j d).began ≡ true → v < length (seen self.old.levels) }
        requires began { (v : ℕ) → rises self.old.levels v ≡ true → has_number v (all_began self.old.ranges) ≡ true }
        ensures levels { self.new.levels.stored ≡ seen self.old.levels }
        ensures ranges { self.new.ranges ≡ self.old.ranges }
    {
        stop_kept(&mut self.levels, &self.ranges.items);
    }
}
