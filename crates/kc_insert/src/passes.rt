//! The two passes of a step over the rows of a range. One is over vertices that stay on the level, the other over
//! vertices that begin to rise from it.

ghost use Rattle.std.specs.Prelude.{◌≡◌, ◌+◌, ◌*◌, ◌++◌, ◌∷◌, ◌<◌, ◌≤◌, ◌^◌, ℕ, [], false, true, IfOk, OnOk, cond, count_by, filter, length, slice_index, slice_index_or, slice_set, take};
ghost use Rattle.std.specs.List.{flat_map};
ghost use Rattle.kc_graph.specs.Numbers.{has_number};
ghost use Rattle.kc_graph.specs.Shape.{has_edge, IsGraph};
ghost use Rattle.kc_adj.specs.Degrees.{degrees};
ghost use Rattle.kc_insert.specs.private.Crossing.{above_near, count_above, HaveBegun, HaveMeetings, is_above, left_at, met_by, next_near, rising_near, with_levels};
ghost use Rattle.kc_insert.specs.private.Parts.{CanPart, CanRise, HasParted, HasRisen, HaveRisen, risen_part};
ghost use Rattle.kc_insert.specs.private.Rising.{rises, seen};
ghost use Rattle.kc_insert.specs.private.Telling.{AreDealtAnew, times};
ghost use Rattle.kc_insert.specs.Ranges.{HasVertex};
ghost use Rattle.kc_insert.specs.private.Watched.{count_at, StayWatched};

use crate::layout::Sharing;
use crate::meetings::Meeting;
use crate::range::Range;
use crate::rising::{RISING, RisingLevels};
use crate::telling::Told;
use crate::watched::WatchedCounts;
use kc_adj::LevelLists;
use kc_graph::Graph;
use std::alloc::{AllocError, Global};
use std::marker::Model;

/// A step of a sweep, from a level to the next, as all ranges see it. Contracts see it as a `Crossing`.
#[derive(Drop)]
pub struct Step<'a> {
    /// The graph.
    pub graph: &'a Graph,
    /// The levels by now.
    pub levels: &'a RisingLevels,
    /// The level that the step is from.
    pub level: u16,
    /// How the ranges share the pass.
    pub sharing: Sharing,
}

impl<'a> Model for Step<'a> {
    ghost use Rattle.std.specs.Prelude.{◌≡◌, ◌<◌, length};
    ghost use Rattle.kc_graph.specs.Shape.{IsGraph};
    ghost use Rattle.kc_insert.specs.private.Crossing.{Crossing, IsCrossing};

    ghost Value = { Crossing };

    ghost view = { λ s. record { graph = s.graph.now; levels = s.levels.now; width = s.sharing.layout.width; level = s.level; is_dealt = s.sharing.is_dealt } };

    ghost invariant = { λ s. IsCrossing (record { graph = s.graph.now; levels = s.levels.now; width = s.sharing.layout.width; level = s.level; is_dealt = s.sharing.is_dealt }) };
}

impl<'a> Step<'a> {
    /// Makes the step from the level.
    pub fn new(graph: &'a Graph, levels: &'a RisingLevels, level: u16, sharing: Sharing) -> Step<'a>
        requires graph { IsGraph graph.now }
        requires sized { length (seen levels.now) ≡ graph.now.vertices }
        requires small { level < 65534 }
        ensures { result ≡ record { graph = graph.now; levels = levels.now; width = sharing.layout.width; level = level; is_dealt = sharing.is_dealt } }
    {
        Step {
            graph,
            levels,
            level,
            sharing,
        }
    }
}

// Puts w and x at `end`; returns `end + 2` if `holds`, else `end`. There is no branch, since a processor couldn't
// predict it.
fn put_both_where(items: &mut [u32], end: usize, w: u32, x: u32, holds: bool) -> usize
    requires { end + 1 < length items.old }
    ensures written { items.new ≡ slice_set (slice_set items.old end w) (end + 1) x }
    ensures items { take result items.new ≡ cond holds (take end items.old ++ w ∷ x ∷ []) (take end items.old) }
    ensures length { length items.new ≡ length items.old }
    ensures end { result ≤ end + 2 }
{
    items[end] = w;
    items[end + 1] = x;
    end + 2 * usize::from(holds)
}

// Writes the neighbours in the row that stand above the level and don't rise, each with its level, at the front of
// `found`. Returns where they end, and how many neighbours are above the level or rise.
fn put_above(step: &Step<'_>, row: &[u32], found: &mut [u32]) -> (usize, u32)
    requires inside { (w : ℕ) → has_number w row.now ≡ true → w < step.now.graph.vertices }
    requires small { length row.now < 2 ^ 24 }
    requires room { 2 * length row.now ≤ length found.old }
    ensures found { take result.0 found.new ≡ with_levels step.now.levels.stored (filter (is_above step.now) row.now) }
    ensures within { result.0 ≤ length found.new }
    ensures above { result.1 ≡ count_by (λ w. count_above step.now w) row.now }
    ensures length { length found.new ≡ length found.old }
{
    let level = step.level;
    let now = step.levels.stored.as_slice();
    let mut above = 0;
    let mut end = 0;
    for w in row {
        let stood = now[*w as usize];
        above += u32::from(stood > level);
        end = put_both_where(
            found,
            end,
            *w,
            u32::from(stood),
            (stood > level) & (stood < RISING),
        );
    }
    (end, above)
}

// Does what `put_above` does, in a list that has room for the row afterwards. Fails only if memory runs out.
fn above_of(step: &Step<'_>, row: &[u32], found: &mut Vec<u32>) -> Result<(usize, u32), AllocError>
    requires inside { (w : ℕ) → has_number w row.now ≡ true → w < step.now.graph.vertices }
    requires small { length row.now < 2 ^ 24 }
    ensures found { IfOk result (λ r. take r.0 found.new.items ≡ with_levels step.now.levels.stored (filter (is_above step.now) row.now)) }
    ensures within { IfOk result (λ r. r.0 ≤ length found.new.items) }
    ensures above { IfOk result (λ r. r.1 ≡ count_by (λ w. count_above step.now w) row.now) }
{
    if found.len() < 2 * row.len() {
        found.resize(2 * row.len(), 0)?;
    }
    Ok(put_above(step, row, found))
}

// Tells each rising neighbour of a vertex that stays. Returns how many neighbours there are. Fails only if memory runs
// out.
fn tell_parting(step: &Step<'_>, stay: &[u32], told: &mut Told) -> Result<usize, AllocError>
    requires vertices { (v : ℕ) → has_number v stay.now ≡ true → v < step.now.graph.vertices }
    requires few { length stay.now ≤ 2 ^ 24 }
    ensures told { OnOk result (told.new ≡ record told.old { all = told.old.all ++ flat_map (rising_near step.now) stay.now }) }
    ensures steps { IfOk result (λ steps. (steps ≡ degrees step.now.graph stay.now) × (steps ≤ 2 ^ 24 * length stay.now)) }
{
    let graph = step.graph;
    let mut steps = 0;
    for i in 0..stay.len() {
        let v = graph.vertex_with_prefetch(stay, i);
        let near = graph.neighbours(v);
        steps += near.len();
        told.tell_rising(step.levels, near)?;
    }
    Ok(steps)
}

// Lessens the count of the riser of each meeting on the level, if it goes on and the other stays. Fails only if memory
// runs out.
fn leave_behind(
    step: &Step<'_>,
    met: &[Meeting],
    watched: &mut WatchedCounts,
) -> Result<(), AllocError>
    requires held { (v w : ℕ) → has_edge (v, w) met.now ≡ true → (v < step.now.graph.vertices) × (w < step.now.graph.vertices) × HasVertex watched.old v }
    requires enough { (v : ℕ) → times v (left_at step.now met.now) ≤ count_at watched.old v }
    ensures less { OnOk result ((v : ℕ) → watched.old.first ≤ v → count_at watched.new v + times v (left_at step.now met.now) ≡ count_at watched.old v) }
    ensures watched { OnOk result (StayWatched watched.old watched.new) }
{
    let levels = step.levels;
    let level = step.level;
    for m in met {
        if levels.rises(m.riser) && levels.get(m.other) == level {
            watched.lessen(m.riser)?;
        }
    }
    Ok(())
}

// Tells the other vertex of each meeting on the next level, if the riser came up. Fails only if memory runs out.
fn come_up(step: &Step<'_>, meetings: &[Meeting], told: &mut Told) -> Result<(), AllocError>
    requires inside { (v w : ℕ) → has_edge (v, w) meetings.now ≡ true → v < step.now.graph.vertices }
    ensures { OnOk result (told.new ≡ record told.old { all = told.old.all ++ met_by step.now meetings.now }) }
{
    let levels = step.levels;
    for m in meetings {
        if levels.rises(m.riser) {
            told.tell(m.other)?;
        }
    }
    Ok(())
}

// Tells the neighbours of v on the next level that v begins to rise. Files a meeting with each neighbour that stands
// above the level and doesn't rise. These are in `above`, each with its level. Fails only if memory runs out.
fn file_above(
    step: &Step<'_>,
    v: u32,
    above: &[u32],
    told: &mut Told,
    meetings: &mut LevelLists<Meeting>,
) -> Result<(), AllocError>
    requires vertex { v < step.now.graph.vertices }
    requires above { above.now ≡ with_levels step.now.levels.stored (above_near step.now v) }
    requires places { (w : ℕ) → is_above step.now w ≡ true → slice_index step.now.levels.stored w < length meetings.old }
    ensures told { OnOk result (told.new ≡ record told.old { all = told.old.all ++ next_near step.now v }) }
    ensures meetings { OnOk result (HaveMeetings step.now (v ∷ []) meetings.old meetings.new) }
{
    let next = step.level + 1;
    for i in 0..above.len() / 2 {
        let w = above[2 * i];
        let stood = above[2 * i + 1] as u16;
        if stood == next {
            told.tell(w)?;
        }
        meetings.file(stood, Meeting { riser: v, other: w })?;
    }
    Ok(())
}

impl Range {
    // Tells the neighbours on the next level of each vertex that begins to rise. Files its meetings with the neighbours
    // that stand above the level and don't rise (`file_above`), and counts its neighbours afresh. Returns how many
    // neighbours there are. Fails only if memory runs out.
    fn begin_each(&mut self, step: &Step<'_>) -> Result<usize, AllocError>
        requires vertices { (v : ℕ) → has_number v self.old.begun ≡ true → (v < step.now.graph.vertices) × HasVertex self.old.watch v }
        requires few { length self.old.begun ≤ 2 ^ 24 }
        requires places { (w : ℕ) → is_above step.now w ≡ true → slice_index step.now.levels.stored w < length self.old.meetings }
        ensures part { OnOk result (self.new ≡ record self.old { watch = self.new.watch; meetings = self.new.meetings; tell = self.new.tell }) }
        ensures told { OnOk result (self.new.tell ≡ record self.old.tell { all = self.old.tell.all ++ flat_map (next_near step.now) self.old.begun }) }
        ensures meetings { OnOk result (HaveMeetings step.now self.old.begun self.old.meetings self.new.meetings) }
        ensures counts { OnOk result (HaveBegun step.now self.old.begun self.old.watch self.new.watch) }
        ensures steps { IfOk result (λ steps. (steps ≡ degrees step.now.graph self.old.begun) × (steps ≤ 2 ^ 24 * length self.old.begun)) }
    {
        let graph = step.graph;
        let mut steps = 0;
        for i in 0..self.begun.len() {
            let v = graph.vertex_with_prefetch(&self.begun, i);
            let near = graph.neighbours(v);
            steps += near.len();
            let (end, above) = above_of(step, near, &mut self.row)?;
            file_above(
                step,
                v,
                &self.row[..end],
                &mut self.told,
                &mut self.meetings,
            )?;
            self.watched.put(v, above)?;
        }
        Ok(steps)
    }

    /// Tells each rising neighbour of a vertex that stays. Fails only if memory runs out.
    pub fn part(&mut self, step: &Step<'_>) -> Result<(), AllocError>
        requires { CanPart step.now self.old }
        ensures part { OnOk result (self.new ≡ record self.old { tell = self.new.tell; steps = self.old.steps + degrees step.now.graph self.old.stay }) }
        ensures told { OnOk result (self.new.tell.all ≡ flat_map (rising_near step.now) self.old.stay) }
        ensures lists { OnOk result (length self.new.tell.lists ≡ length self.old.tell.lists) }
        ensures dealt { OnOk result (step.now.is_dealt ≡ true → AreDealtAnew step.now.width self.old.tell self.new.tell) }
    {
        self.told.clear();
        self.steps += tell_parting(step, &self.stay, &mut self.told)?;
        if step.sharing.is_dealt {
            self.told.deal(step.sharing.layout)?;
        }
        Ok(())
    }

    /// Does what `part` does. Marks the range if memory runs out.
    pub fn try_part(&mut self, step: &Step<'_>)
        requires { CanPart step.now self.old }
        ensures { self.new.is_short ≡ false → HasParted step.now self.old self.new }
    {
        if self.part(step).is_err() {
            self.is_short = true;
        }
    }

    /// Lessens the counts of vertices that go on by the neighbours that stay, and counts the neighbours of vertices
    /// that begin. Tells the neighbours of both that stood on the next level. Fails only if memory runs out.
    pub fn rise(&mut self, alloc: Global, step: &Step<'_>) -> Result<(), AllocError>
        requires { CanRise step.now self.old }
        ensures part { OnOk result (self.new ≡ risen_part step.now self.old self.new) }
        ensures told { OnOk result (self.new.tell.all ≡ met_by step.now (slice_index_or self.old.meetings (step.now.level + 1) []) ++ flat_map (next_near step.now) self.old.begun) }
        ensures lists { OnOk result (length self.new.tell.lists ≡ length self.old.tell.lists) }
        ensures dealt { OnOk result (step.now.is_dealt ≡ true → AreDealtAnew step.now.width self.old.tell self.new.tell) }
        ensures risen { OnOk result (HaveRisen step.now self.old self.new) }
    {
        self.told.clear();
        let met = self.meetings.take_all(alloc, step.level);
        leave_behind(step, &met, &mut self.watched)?;
        come_up(step, self.meetings.on(step.level + 1), &mut self.told)?;
        self.steps += self.begin_each(step)?;
        self.risen.extend_from_slice(&self.begun)?;
        self.began.append(&mut self.begun)?;
        if step.sharing.is_dealt {
            self.told.deal(step.sharing.layout)?;
        }
        Ok(())
    }

    /// Does what `rise` does. Marks the range if memory runs out.
    pub fn try_rise(&mut self, alloc: Global, step: &Step<'_>)
        requires { CanRise step.now self.old }
        ensures { self.new.is_short ≡ false → HasRisen step.now self.old self.new }
    {
        if self.rise(alloc, step).is_err() {
            self.is_short = true;
        }
    }
}
