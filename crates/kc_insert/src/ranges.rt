//! All ranges of a graph, and the passes over them: by threads if there is much to do.
//!
//! A loop that changes the ranges is a function over their slice, which a method calls. So its proof knows nothing of
//! the other fields.

ghost use Rattle.std.specs.Prelude.{◌≡◌, ◌+◌, ◌-◌, ◌*◌, ◌++◌, ◌<◌, ◌≤◌, ◌^◌, ℕ, [], false, true, All, IfOk, OnOk, length, slice_index_or, sum_by};
ghost use Rattle.std.specs.List.{flat_map};
ghost use Rattle.kc_graph.specs.Numbers.{has_number};
ghost use Rattle.kc_insert.specs.private.Ranges.{all_begun, all_stay, AllLetStay, AreNew, AreToldAll, CanLetStay, CanLiftOff, CanLookAnew, count_of, Forgot, forgotten, HaveNoSteps, LiftedOff, LookedAnew, LooksAnew, TookWaiting, with_count};
ghost use Rattle.kc_insert.specs.Ranges.{all_began, all_risen, HasVertex, IsIn, meets, waits};
ghost use Rattle.kc_insert.specs.private.Rising.{seen};
ghost use Rattle.kc_insert.specs.private.Sharing.{AllParted, AllRisen, CanPartAll, CanRiseAll};

use crate::layout::{Layout, Sharing};
use crate::passes::Step;
use crate::range::Range;
use crate::rising::RisingLevels;
use crate::sharing::{check, collect, hear_more, part_all, rise_each};
use crate::telling::Told;
use kc_rounds::{Gate, Rounds};
use std::alloc::{AllocError, Global};
use std::marker::Model;
use std::thread::Threads;

/// The vertices of a graph, cut into ranges. Contracts see it as a `Cut`.
#[derive(Drop)]
pub struct Ranges {
    /// How they are cut.
    pub layout: Layout,
    /// The ranges, that of vertex 0 first.
    pub items: Vec<Range>,
    // What the ranges told, while it is heard; each list is swapped with that of its range.
    told: Vec<Told>,
}

impl Model for Ranges {
    ghost use Rattle.kc_insert.specs.Ranges.{Cut};

    ghost Value = { Cut };

    ghost view = { λ r. record { width = r.layout.width; parts = r.items.items; told = r.told.items } };
}

// Returns the steps of all ranges, which have none afterwards.
fn steps_of(items: &mut [Range]) -> usize
    requires { sum_by (λ p. p.steps) items.old < 2 ^ 64 }
    ensures steps { result ≡ sum_by (λ p. p.steps) items.old }
    ensures rest { (j : ℕ) (d : _) → j < length items.old → slice_index_or items.new j d ≡ record (slice_index_or items.old j d) { steps = 0 } }
{
    let mut steps = 0;
    for i in 0..items.len() {
        let range = &mut items[i];
        steps += range.steps;
        range.steps = 0;
    }
    steps
}

// Lets each range forget the phase.
fn forget_each(alloc: Global, items: &mut [Range])
    ensures { (j : ℕ) (d : _) → j < length items.old → slice_index_or items.new j d ≡ forgotten (slice_index_or items.old j d) }
{
    for i in 0..items.len() {
        let range = &mut items[i];
        range.forget(alloc);
    }
}

// Appends the second list. It becomes the first if that is empty. Fails only if memory runs out.
fn append(all: &mut Vec<u32>, some: Vec<u32>) -> Result<(), AllocError>
    ensures { OnOk result (all.new.items ≡ all.old.items ++ some.items) }
{
    if all.is_empty() {
        *all = some;
        return Ok(());
    }
    all.extend_from_slice(&some)?;
    Ok(())
}

// Takes out the vertices that wait on the level, range by range. Fails only if memory runs out.
fn take_each(alloc: Global, level: u16, items: &mut [Range]) -> Result<Vec<u32>, AllocError>
    requires { All (λ p. level < length p.queue) items.old }
    ensures waiting { IfOk result (λ r. r.items ≡ flat_map (λ p. slice_index_or p.queue level []) items.old) }
    ensures took { OnOk result (TookWaiting level items.old items.new) }
{
    let mut all = Vec::new(alloc);
    for i in 0..items.len() {
        let range = &mut items[i];
        let some = range.queue.take_all(alloc, level);
        append(&mut all, some)?;
    }
    Ok(all)
}

// Stops the rising vertices on the watch list of each range whose count is within the limit. Returns how many stop.
// Fails only if memory runs out.
fn stop_each(levels: &mut RisingLevels, items: &mut [Range]) -> Result<usize, AllocError>
    requires { CanLetStay levels.old items.old }
    ensures stop { OnOk result (AllLetStay levels.old levels.new items.old items.new) }
    ensures count { IfOk result (λ count. count ≡ length (flat_map (λ p. p.stay) items.new)) }
{
    let mut count = 0;
    for i in 0..items.len() {
        let range = &mut items[i];
        range.let_stay(levels)?;
        count += range.stay.len();
    }
    Ok(count)
}

// Begins to raise each vertex of the list once, in its range. A repeat is on the next level by then, and is skipped.
// Returns how many there are. Fails only if memory runs out.
fn lift_each(
    levels: &mut RisingLevels,
    level: u16,
    vertices: &[u32],
    layout: Layout,
    items: &mut [Range],
) -> Result<usize, AllocError>
    requires { CanLiftOff level levels.old vertices.now layout.width items.old }
    ensures lifted { OnOk result (LiftedOff level levels.old levels.new vertices.now layout.width items.old items.new) }
    ensures count { IfOk result (λ count. count ≡ length (flat_map (λ p. p.begun) items.new)) }
{
    let mut count = 0;
    for v in vertices {
        if levels.get(*v) == level {
            levels.begin(*v);
            let range = &mut items[layout.range_of(*v)];
            range.begun.push(*v)?;
            count += 1;
        }
    }
    Ok(count)
}

// Looks anew at all rising vertices of the range if it had another limit. Fails only if memory runs out.
fn look_at(levels: &RisingLevels, most: u32, range: &mut Range) -> Result<(), AllocError>
    requires { (v : ℕ) → has_number v range.old.began ≡ true → (v < length (seen levels.now)) × HasVertex range.old.watch v }
    ensures { OnOk result (LooksAnew levels.now most range.old range.new) }
{
    if most != range.watched.most() {
        range.look_anew(levels, most)?;
    }
    Ok(())
}

// Looks anew at all rising vertices of each range that had another limit. Fails only if memory runs out.
fn look_each(levels: &RisingLevels, most: u32, items: &mut [Range]) -> Result<(), AllocError>
    requires { CanLookAnew levels.now items.old }
    ensures { OnOk result (LookedAnew levels.now most items.old items.new) }
{
    for i in 0..items.len() {
        let range = &mut items[i];
        look_at(levels, most, range)?;
    }
    Ok(())
}

impl Ranges {
    /// Makes the ranges of the vertices with these counts, of which none rises or waits. Fails only if memory runs out.
    pub fn new(
        alloc: Global,
        layout: Layout,
        counts: &[u32],
        levels: u16,
    ) -> Result<Self, AllocError>
        requires { length counts.now ≤ 2 ^ 24 }
        ensures { IfOk result (λ ranges. AreNew layout.width counts.now levels ranges) }
    {
        let n = counts.len() as u32;
        let ranges = layout.ranges(n);
        let mut items = Vec::with_capacity(alloc, ranges)?;
        let mut told = Vec::with_capacity(alloc, ranges)?;
        for i in 0..ranges {
            let first = layout.first_of(i);
            let end = layout.end_of(i, n);
            let part = &counts[first as usize..end as usize];
            items.push(Range::new(alloc, first, part, levels, ranges)?)?;
            told.push(Told::new(alloc, ranges)?)?;
        }
        Ok(Ranges {
            layout,
            items,
            told,
        })
    }

    /// Returns how many neighbours v counts.
    pub fn count(&self, v: u32) -> u32
        requires { IsIn self.now v }
        ensures { result ≡ count_of self.now v }
    {
        let range = &self.items[self.layout.range_of(v)];
        range.watched.count(v)
    }

    /// Sets the count of v.
    pub fn set(&mut self, v: u32, count: u32)
        requires { IsIn self.old v }
        ensures { self.new ≡ with_count self.old v count }
    {
        let range = &mut self.items[self.layout.range_of(v)];
        range.watched.set(v, count);
    }

    /// Returns the first level from this one on where a vertex waits, or the number of levels.
    pub fn next_waiting(&self, from: u16) -> u16
        requires { All (λ p. from ≤ length p.queue) self.now.parts }
        ensures from { from ≤ result }
        ensures none { (k : ℕ) → from ≤ k → k < result → waits self.now k ≡ [] }
        ensures some { (n : ℕ) → 0 < length self.now.parts → All (λ p. length p.queue ≡ n) self.now.parts → (result ≤ n) × (waits self.now result ≡ [] → n ≤ result) }
    {
        let items = self.items.as_slice();
        let mut next = 65_535;
        for range in items {
            let level = range.queue.next(from);
            if level < next {
                next = level;
            }
        }
        next
    }

    /// Returns the first level from this one on where a vertex is to be met, or the number of levels.
    pub fn next_meeting(&self, from: u16) -> u16
        requires { All (λ p. from ≤ length p.meetings) self.now.parts }
        ensures from { from ≤ result }
        ensures none { (k : ℕ) → from ≤ k → k < result → meets self.now k ≡ [] }
        ensures some { (n : ℕ) → 0 < length self.now.parts → All (λ p. length p.meetings ≡ n) self.now.parts → (result ≤ n) × (meets self.now result ≡ [] → n ≤ result) }
    {
        let items = self.items.as_slice();
        let mut next = 65_535;
        for range in items {
            let level = range.meetings.next(from);
            if level < next {
                next = level;
            }
        }
        next
    }

    /// Returns whether a vertex began to rise and is still kept.
    pub fn has_begun(&self) -> bool
        ensures { result ≡ false → all_began self.now ≡ [] }
    {
        let items = self.items.as_slice();
        for range in items {
            if !range.began.is_empty() {
                return true;
            }
        }
        false
    }

    /// Returns whether a vertex is on a watch list.
    pub fn has_doubt(&self) -> bool
        ensures { result ≡ false → All (λ p. p.watch.doubtful ≡ []) self.now.parts }
    {
        let items = self.items.as_slice();
        for range in items {
            if !range.watched.doubtful().is_empty() {
                return true;
            }
        }
        false
    }

    /// Takes out the vertices that wait on the level. Fails only if memory runs out.
    pub fn take_waiting(&mut self, alloc: Global, level: u16) -> Result<Vec<u32>, AllocError>
        requires { All (λ p. level < length p.queue) self.old.parts }
        ensures waiting { IfOk result (λ r. r.items ≡ waits self.old level) }
        ensures took { OnOk result (TookWaiting level self.old.parts self.new.parts) }
        ensures same { (self.new.width ≡ self.old.width) × (self.new.told ≡ self.old.told) }
    {
        take_each(alloc, level, &mut self.items)
    }

    /// Stops the rising vertices on a watch list whose count is within the limit. Returns how many stop. Fails only if
    /// memory runs out.
    pub fn let_stay(&mut self, levels: &mut RisingLevels) -> Result<usize, AllocError>
        requires { CanLetStay levels.old self.old.parts }
        ensures stay { OnOk result (AllLetStay levels.old levels.new self.old.parts self.new.parts) }
        ensures count { IfOk result (λ count. count ≡ length (all_stay self.new)) }
        ensures same { (self.new.width ≡ self.old.width) × (self.new.told ≡ self.old.told) }
    {
        stop_each(levels, &mut self.items)
    }

    /// Begins to raise the vertices, all of which were on the level before. Returns how many there are. Fails only if
    /// memory runs out.
    pub fn lift_off(
        &mut self,
        levels: &mut RisingLevels,
        level: u16,
        vertices: &[u32],
    ) -> Result<usize, AllocError>
        requires { CanLiftOff level levels.old vertices.now self.old.width self.old.parts }
        ensures lifted { OnOk result (LiftedOff level levels.old levels.new vertices.now self.old.width self.old.parts self.new.parts) }
        ensures count { IfOk result (λ count. count ≡ length (all_begun self.new)) }
        ensures same { (self.new.width ≡ self.old.width) × (self.new.told ≡ self.old.told) }
    {
        lift_each(levels, level, vertices, self.layout, &mut self.items)
    }

    /// Returns the number of meetings on a level.
    pub fn meeting_count(&self, level: u16) -> usize
        requires { All (λ p. level < length p.meetings) self.now.parts }
    {
        let items = self.items.as_slice();
        let mut count: usize = 0;
        for range in items {
            count = count.saturating_add(range.meetings.on(level).len());
        }
        count
    }

    /// Makes `most` the limit: each range that had another looks anew at all rising vertices. Fails only if memory runs
    /// out.
    pub fn look_anew(&mut self, levels: &RisingLevels, most: u32) -> Result<(), AllocError>
        requires { CanLookAnew levels.now self.old.parts }
        ensures looked { OnOk result (LookedAnew levels.now most self.old.parts self.new.parts) }
        ensures same { (self.new.width ≡ self.old.width) × (self.new.told ≡ self.old.told) }
    {
        look_each(levels, most, &mut self.items)
    }

    /// Lists all vertices that rose, range by range. Fails only if memory runs out.
    pub fn risen(&self, alloc: Global) -> Result<Vec<u32>, AllocError>
        ensures { IfOk result (λ r. r.items ≡ all_risen self.now) }
    {
        let items = self.items.as_slice();
        let mut all = Vec::new(alloc);
        for range in items {
            all.extend_from_slice(&range.risen)?;
        }
        Ok(all)
    }

    /// Forgets the phase.
    pub fn forget(&mut self, alloc: Global)
        ensures { Forgot self.old self.new }
    {
        forget_each(alloc, &mut self.items);
    }

    /// Returns how at most `workers` threads share a pass over `count` vertices. One thread alone hears the lists as
    /// they are.
    pub fn sharing(&self, count: usize, workers: u32) -> Sharing
        requires { 1 ≤ workers }
        ensures { result.layout.width ≡ self.now.width }
    {
        let layout = self.layout;
        let threads = layout.threads(count, workers);
        Sharing {
            layout,
            is_dealt: threads > 1 && self.items.len() > 1,
            threads,
        }
    }

    /// Lessens the counts of rising vertices by their neighbours that stay on the level, `count` vertices in all. Fails
    /// only if memory runs out.
    pub fn part<R: Threads + Sync, G: Gate + Sync>(
        &mut self,
        rounds: &Rounds<R, G>,
        step: &Step<'_>,
        count: usize,
    ) -> Result<(), AllocError>
        requires ready { CanPartAll step.now self.old.parts self.old.told }
        requires count { count ≡ length (all_stay self.old) }
        ensures parted { OnOk result (AllParted step.now self.old.parts self.new.parts) }
        ensures told { OnOk result (AreToldAll (length self.old.parts) self.new.told) }
        ensures same { self.new.width ≡ self.old.width }
    {
        if count == 0 {
            return Ok(());
        }
        part_all(rounds.runtime(), step, &mut self.told, &mut self.items)?;
        Ok(())
    }

    /// Runs the pass `rise` of each range: a riser that met a vertex which stays counts one less. Vertices that begin
    /// count afresh, and their meetings are filed. Then each range hears which of its vertices on the next level are
    /// met, or stand beside one that begins. One that then counts more than `most`, the limit of that level, waits
    /// there. Fails only if memory runs out.
    pub fn rise<R: Threads + Sync, G: Gate + Sync>(
        &mut self,
        rounds: &Rounds<R, G>,
        step: &Step<'_>,
        most: u32,
    ) -> Result<(), AllocError>
        requires { CanRiseAll step.now self.old.parts self.old.told }
        ensures risen { OnOk result (AllRisen step.now most self.old.parts self.new.parts) }
        ensures told { OnOk result (AreToldAll (length self.old.parts) self.new.told) }
        ensures same { self.new.width ≡ self.old.width }
    {
        let rt = rounds.runtime();
        let items = self.items.as_mut_slice();
        let told = self.told.as_mut_slice();
        rise_each(rt, rounds.alloc(), step, items);
        check(items)?;
        collect(items, told);
        hear_more(rt, step, most, told, items)?;
        Ok(())
    }

    /// Returns the steps that the passes took since they were last counted.
    pub fn take_steps(&mut self) -> usize
        requires { sum_by (λ p. p.steps) self.old.parts < 2 ^ 64 }
        ensures steps { result ≡ sum_by (λ p. p.steps) self.old.parts }
        ensures rest { HaveNoSteps self.old.parts self.new.parts }
        ensures same { (self.new.width ≡ self.old.width) × (self.new.told ≡ self.old.told) }
    {
        steps_of(&mut self.items)
    }
}
