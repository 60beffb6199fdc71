//! Showing of one group: several markers mark its moves, it is published, and the moves are cleared.
ghost use Rattle.std.specs.Prelude.{◌≡◌, ◌≤◌, ◌<◌, [], IfOk};
ghost use Rattle.kc_store.specs.private.Showing.{HasShownGroup};
ghost use Rattle.kc_engine.specs.private.Lending.{IsDue, HasDoneGroup};

use crate::showing::lending::{give_back_all, lend_all};
use crate::showing::planned::PlannedGroup;
use crate::showing::show::Show;
use crate::showing::side_by_side::{Task, do_lent};
use kc_rounds::{Gate, Spot};
use kc_store::{Marker, Writer};
use std::alloc::{AllocError, Global};
use std::marker::Model;
use std::thread::Threads;

// The least number of moves whose ranges are worth threads: to start and join them costs as much as some thousands of
// moves. The ranges of a first group go to threads even so.
const LEAST_MOVES: u32 = 8_192;

// Room for one marker a worker, and no marker in it. Contracts see the number of workers, 1 to 64.
//
// An engine keeps one for as long as it lives. The ranges of the first group that is shown with it go to threads,
// however few moves the group has. So a gate sees these ranges at the same time. From then on the number of moves
// decides.
#[derive(Drop)]
pub(crate) struct MarkerPlaces {
    // Empty, except while a group is marked or cleared. Has room for one marker a worker, so that lending takes no
    // memory.
    markers: Vec<Marker>,
    // The number of workers, 1 to 64.
    workers: u32,
    // Whether no group has been shown with these places yet.
    is_first_ahead: bool,
}

impl Model for MarkerPlaces {
    ghost use Rattle.std.specs.Prelude.{ℕ, ◌≡◌, ◌≤◌, [], vec_len, vec_capacity};

    ghost Value = { ℕ };

    ghost view = { λ p. p.workers };

    ghost invariant = { λ p. (p.markers.items ≡ []) × (vec_len p.markers ≡ 0) × (p.workers ≤ vec_capacity p.markers) × (1 ≤ p.workers) × (p.workers ≤ 64) };
}

// Passes the spot of the group's publication to the gate.
fn tell_publishing<G: Gate>(gate: &G, group: &PlannedGroup<'_>) {
    let phase = group.plan.quiet.phase;
    if let Some(label) = group.plan.groups.as_slice()[group.g as usize].label {
        gate.at(Spot::Publishing { phase, label });
    }
}

impl MarkerPlaces {
    // Makes places for the markers of `workers` workers, 1 to 64. Fails only if memory runs out.
    pub(crate) fn new(alloc: Global, workers: u32) -> Result<MarkerPlaces, AllocError>
        requires { (1 ≤ workers) × (workers ≤ 64) }
        ensures { IfOk result (λ places. places ≡ workers) }
    {
        Ok(MarkerPlaces {
            markers: Vec::with_capacity(alloc, workers as usize)?,
            workers,
            is_first_ahead: true,
        })
    }

    // Returns in how many threads the ranges of a group with `moves` moves are marked and cleared.
    fn threads_for(&self, moves: u32) -> usize
        ensures { 0 < result }
    {
        if self.is_first_ahead || moves >= LEAST_MOVES {
            self.workers as usize
        } else {
            1
        }
    }

    // Does the task on the moves of a group (`IsDue`): it isn't published yet if they are marked, and is published if
    // they are cleared. No marker is out before or afterwards.
    fn do_group<R: Threads + Sync, G: Gate + Sync>(
        &mut self,
        show: &Show<'_, R, G>,
        writer: &mut Writer,
        group: &PlannedGroup<'_>,
        task: Task,
    )
        requires table { writer.old.table ≡ show.now.table }
        requires plan { group.now.plan.now ≡ writer.old.state.plan }
        requires due { IsDue task group.now.g writer.old.state.published }
        requires none_out { writer.old.state.loans ≡ [] }
        ensures same { self.new ≡ self.old }
        ensures table { writer.new.table ≡ writer.old.table }
        ensures done { HasDoneGroup task group.now.g group.now.moves writer.old.state writer.new.state }
    {
        let threads = self.threads_for(group.moves);
        lend_all(show.store, writer, group, self.workers, &mut self.markers);
        do_lent(show, group.plan, task, threads, &mut self.markers);
        give_back_all(show.store, writer, &mut self.markers);
    }

    // Marks, publishes and clears the next group. No marker is out before or afterwards.
    pub(crate) fn show_group<R: Threads + Sync, G: Gate + Sync>(
        &mut self,
        show: &Show<'_, R, G>,
        writer: &mut Writer,
        group: &PlannedGroup<'_>,
    )
        requires table { writer.old.table ≡ show.now.table }
        requires plan { group.now.plan.now ≡ writer.old.state.plan }
        requires next { group.now.g ≡ writer.old.state.published }
        requires none_out { writer.old.state.loans ≡ [] }
        ensures same { self.new ≡ self.old }
        ensures table { writer.new.table ≡ writer.old.table }
        ensures shown { HasShownGroup group.now.g writer.old.state writer.new.state }
    {
        self.do_group(show, writer, group, Task::Mark);
        tell_publishing(show.gate, group);
        writer.publish(show.store, group.plan, group.g);
        self.do_group(show, writer, group, Task::Clear);
        self.is_first_ahead = false;
    }
}
