//! A range of vertices: all that a sweep writes of them but their levels. One thread at a time writes it.

ghost use Rattle.std.specs.Prelude.{◌≡◌, ◌+◌, ◌-◌, ◌<◌, ◌≤◌, ◌==◌, ◌^◌, ℕ, [], false, true, All, IfOk, OnOk, filter, length};
ghost use Rattle.kc_graph.specs.Numbers.{has_number};
ghost use Rattle.kc_insert.specs.private.Parts.{CanHearLess, CanHearMore, HasHeardLess, HaveMet, LetStay, part_met};
ghost use Rattle.kc_insert.specs.private.Ranges.{forgotten, looked_anew, new_part};
ghost use Rattle.kc_insert.specs.private.Rising.{rises, seen};
ghost use Rattle.kc_insert.specs.private.Telling.{heard_by, times};
ghost use Rattle.kc_insert.specs.private.Watched.{count_at, StayWatched};
ghost use Rattle.kc_insert.specs.Ranges.{HasVertex};

use crate::meetings::Meeting;
use crate::rising::RisingLevels;
use crate::telling::Told;
use crate::watched::WatchedCounts;
use kc_adj::LevelLists;
use std::alloc::{AllocError, Global};
use std::marker::Model;
use std::mem;

/// How far a sweep is at the vertices of a range. Contracts see it as a `Part`.
#[derive(Drop)]
pub struct Range {
    /// What each vertex counts.
    pub watched: WatchedCounts,
    /// The vertices that may have to rise from the level on which they stood before.
    pub queue: LevelLists<u32>,
    /// The neighbours, of this range and others, that the rising vertices are still to meet.
    pub meetings: LevelLists<Meeting>,
    /// All that rise, and others that began to rise and stay on a level since.
    pub began: Vec<u32>,
    /// All that rose.
    pub risen: Vec<u32>,
    /// The vertices that stay on the level of the sweep; also room for `look_anew`.
    pub stay: Vec<u32>,
    /// The vertices that begin to rise from the level of the sweep.
    pub begun: Vec<u32>,
    /// What the last pass told of vertices, of this range too.
    pub told: Told,
    /// Room for a row.
    pub row: Vec<u32>,
    /// The neighbours that passes have gone through since they were last counted.
    pub steps: usize,
    /// Whether memory ran out in a pass.
    pub is_short: bool,
}

impl Model for Range {
    ghost use Rattle.kc_insert.specs.Ranges.{Part};

    ghost Value = { Part };

    ghost view = { λ r. record { watch = r.watched; queue = r.queue; meetings = r.meetings; began = r.began.items; risen = r.risen.items; stay = r.stay.items; begun = r.begun.items; tell = r.told; steps = r.steps; is_short = r.is_short } };
}

// Stops the rising vertices on the watch list whose count is within the limit: `stay` has these alone afterwards. Fails
// only if memory runs out.
fn stop_watched(
    watched: &WatchedCounts,
    levels: &mut RisingLevels,
    stay: &mut Vec<u32>,
) -> Result<(), AllocError>
    requires small { levels.old.level < 65535 }
    requires inside { (v : ℕ) → has_number v watched.now.doubtful ≡ true → (v < length (seen levels.old)) × HasVertex watched.now v }
    ensures same { OnOk result ((levels.new.level ≡ levels.old.level) × (seen levels.new ≡ seen levels.old)) }
    ensures stay { OnOk result (LetStay levels.old watched.now levels.new stay.new.items) }
{
    let most = watched.most();
    let doubtful = watched.doubtful();
    stay.clear();
    for v in doubtful {
        if levels.rises(*v) && watched.count(*v) <= most {
            levels.stop(*v);
            stay.push(*v)?;
        }
    }
    Ok(())
}

// Takes one from the count of a vertex for each time that a range named it to this one (`heard_by`). Fails only if
// memory runs out.
fn hear_each(watched: &mut WatchedCounts, told: &[Told], own: usize) -> Result<(), AllocError>
    requires lists { All (λ t. own < length t.lists) told.now }
    requires held { (v : ℕ) → has_number v (heard_by own told.now) ≡ true → HasVertex watched.old v }
    requires enough { (v : ℕ) → times v (heard_by own told.now) ≤ count_at watched.old v }
    ensures less { OnOk result ((v : ℕ) → watched.old.first ≤ v → count_at watched.new v + times v (heard_by own told.now) ≡ count_at watched.old v) }
    ensures watched { OnOk result (StayWatched watched.old watched.new) }
{
    for i in 0..told.len() {
        watched.lessen_all(told[i].of_range(own))?;
    }
    Ok(())
}

// Lists the vertices of `began` that rise, in order: `rising` has these alone afterwards. Fails only if memory runs
// out.
fn who_rises(levels: &RisingLevels, began: &[u32], rising: &mut Vec<u32>) -> Result<(), AllocError>
    requires inside { (v : ℕ) → has_number v began.now ≡ true → v < length (seen levels.now) }
    ensures { OnOk result (rising.new.items ≡ filter (rises levels.now) began.now) }
{
    rising.clear();
    for v in began {
        if levels.rises(*v) {
            rising.push(*v)?;
        }
    }
    Ok(())
}

// Keeps those vertices of the list that rise, in order. Fails only if memory runs out.
fn keep_rising(
    levels: &RisingLevels,
    began: &mut Vec<u32>,
    room: &mut Vec<u32>,
) -> Result<(), AllocError>
    requires inside { (v : ℕ) → has_number v began.old.items ≡ true → v < length (seen levels.now) }
    ensures { OnOk result (began.new.items ≡ filter (rises levels.now) began.old.items) }
{
    who_rises(levels, began, room)?;
    mem::swap(began, room);
    Ok(())
}

impl Range {
    /// Makes a range of the vertices from `first` on, with these counts; none rises or waits. Fails only if memory runs
    /// out.
    pub fn new(
        alloc: Global,
        first: u32,
        counts: &[u32],
        levels: u16,
        ranges: usize,
    ) -> Result<Self, AllocError>
        requires { first + length counts.now ≤ 2 ^ 24 }
        ensures { IfOk result (λ r. r ≡ new_part levels ranges first counts.now) }
    {
        Ok(Range {
            watched: WatchedCounts::new(alloc, first, counts)?,
            queue: LevelLists::new(alloc, levels)?,
            meetings: LevelLists::new(alloc, levels)?,
            began: Vec::new(alloc),
            risen: Vec::new(alloc),
            stay: Vec::new(alloc),
            begun: Vec::new(alloc),
            told: Told::new(alloc, ranges)?,
            row: Vec::new(alloc),
            steps: 0,
            is_short: false,
        })
    }

    /// Stops the rising vertices on the watch list whose count is within the limit, on the level of the sweep. `stay`
    /// has these alone afterwards, and the watch list is empty. Fails only if memory runs out.
    pub fn let_stay(&mut self, levels: &mut RisingLevels) -> Result<(), AllocError>
        requires small { levels.old.level < 65535 }
        requires inside { (v : ℕ) → has_number v self.old.watch.doubtful ≡ true → (v < length (seen levels.old)) × HasVertex self.old.watch v }
        ensures same { OnOk result ((levels.new.level ≡ levels.old.level) × (seen levels.new ≡ seen levels.old)) }
        ensures part { OnOk result (self.new ≡ record self.old { watch = record self.old.watch { doubtful = [] }; stay = self.new.stay }) }
        ensures stay { OnOk result (LetStay levels.old self.old.watch levels.new self.new.stay) }
    {
        stop_watched(&self.watched, levels, &mut self.stay)?;
        self.watched.clear();
        Ok(())
    }

    /// Makes `most` the limit: looks anew at all rising vertices, and forgets vertices that began and stay since. Fails
    /// only if memory runs out.
    pub fn look_anew(&mut self, levels: &RisingLevels, most: u32) -> Result<(), AllocError>
        requires { (v : ℕ) → has_number v self.old.began ≡ true → (v < length (seen levels.now)) × HasVertex self.old.watch v }
        ensures { OnOk result (self.new ≡ looked_anew levels.now most self.old self.new.stay) }
    {
        keep_rising(levels, &mut self.began, &mut self.stay)?;
        self.watched.watch(most, &self.began)?;
        Ok(())
    }

    /// Adds one to the count of v, which waits on the level if its count was `most`. Fails only if memory runs out.
    pub fn meet(&mut self, level: u16, most: u32, v: u32) -> Result<(), AllocError>
        requires vertex { HasVertex self.old.watch v }
        requires small { count_at self.old.watch v < 2 ^ 31 }
        requires room { level < length self.old.queue }
        ensures { OnOk result (self.new ≡ part_met level most v self.old) }
    {
        let count = self.watched.count(v);
        if count == most {
            self.queue.file(level, v)?;
        }
        self.watched.set(v, count + 1);
        Ok(())
    }

    /// Adds one to the count of a vertex for each time that it is in the list, whose vertices are all on `level`. A
    /// vertex that then counts more than `most` waits there. Fails only if memory runs out.
    pub fn meet_all(&mut self, level: u16, most: u32, vertices: &[u32]) -> Result<(), AllocError>
        requires held { (v : ℕ) → has_number v vertices.now ≡ true → HasVertex self.old.watch v }
        requires small { (v : ℕ) → count_at self.old.watch v + times v vertices.now ≤ 2 ^ 31 }
        requires room { level < length self.old.queue }
        ensures { OnOk result (HaveMet level most vertices.now self.old self.new) }
    {
        for v in vertices {
            self.meet(level, most, *v)?;
        }
        Ok(())
    }

    /// Takes one from the count of a vertex for each time that a range named it to this one (`heard_by`). Fails only if
    /// memory runs out.
    pub fn hear_less(&mut self, told: &[Told], own: usize) -> Result<(), AllocError>
        requires { CanHearLess told.now own self.old }
        ensures { OnOk result (HasHeardLess (heard_by own told.now) self.old self.new) }
    {
        hear_each(&mut self.watched, told, own)
    }

    /// Does what `hear_less` does. Marks the range if memory runs out.
    pub fn try_hear_less(&mut self, told: &[Told], own: usize)
        requires { CanHearLess told.now own self.old }
        ensures { self.new.is_short ≡ false → HasHeardLess (heard_by own told.now) self.old self.new }
    {
        if self.hear_less(told, own).is_err() {
            self.is_short = true;
        }
    }

    /// Adds one to the count of a vertex for each time that a range named it to this one (`heard_by`). All of these are
    /// on `level`. A vertex that then counts more than `most` waits there. Fails only if memory runs out.
    pub fn hear_more(
        &mut self,
        told: &[Told],
        own: usize,
        level: u16,
        most: u32,
    ) -> Result<(), AllocError>
        requires { CanHearMore told.now own level self.old }
        ensures { OnOk result (HaveMet level most (heard_by own told.now) self.old self.new) }
    {
        for i in 0..told.len() {
            self.meet_all(level, most, told[i].of_range(own))?;
        }
        Ok(())
    }

    /// Does what `hear_more` does. Marks the range if memory runs out.
    pub fn try_hear_more(&mut self, told: &[Told], own: usize, level: u16, most: u32)
        requires { CanHearMore told.now own level self.old }
        ensures { self.new.is_short ≡ false → HaveMet level most (heard_by own told.now) self.old self.new }
    {
        if self.hear_more(told, own, level, most).is_err() {
            self.is_short = true;
        }
    }

    /// Empties the lists of the phase: the vertices that wait, those that began or rose, and the neighbours that are
    /// still to be met. All else stays.
    pub fn forget(&mut self, alloc: Global)
        ensures { self.new ≡ forgotten self.old }
    {
        self.began.clear();
        self.risen.clear();
        self.queue.clear(alloc);
        self.meetings.clear(alloc);
    }
}
