//! Markers that work at the same time, each on its own range.
ghost use Rattle.std.specs.Prelude.{◌≡◌, ℕ, ◌<◌, ◌≤◌, ◌^◌, length, vec_len, vec_capacity, All, slice_index_or};
ghost use Rattle.kc_engine.specs.private.Lending.{MayDo, HasDoneRange, AreDone};

use crate::showing::show::Show;
use kc_groups::PhasePlan;
use kc_rounds::{Gate, Spot};
use kc_store::Marker;
use std::thread;
use std::thread::Threads;

// What markers do with the moves of a group.
#[derive(Clone, Copy)]
pub(crate) enum Task {
    // They mark the moves. The group isn't published yet.
    Mark,
    // They clear the moves. The group is published.
    Clear,
}

// Does the task on the range of the marker with this index. The gate gets the index first.
fn do_range<R, G: Gate>(
    show: &Show<'_, R, G>,
    plan: &PhasePlan,
    task: Task,
    index: usize,
    marker: &mut Marker,
)
    requires few { index < 2 ^ 32 }
    requires may { MayDo show.now.table plan.now task marker.old }
    ensures { HasDoneRange task marker.old marker.new }
{
    show.gate.at(Spot::Piece {
        index: index as u32,
    });
    match task {
        Task::Mark => marker.mark_all(show.store, plan),
        Task::Clear => marker.clear_all(show.store, plan),
    }
}

// Lets each marker do the task on its range, in at most `threads` threads.
fn do_each<R: Threads + Sync, G: Gate + Sync>(
    show: &Show<'_, R, G>,
    plan: &PhasePlan,
    task: Task,
    threads: usize,
    markers: &mut [Marker],
)
    requires threads { 0 < threads }
    requires few { length markers.old ≤ 64 }
    requires may { All (MayDo show.now.table plan.now task) markers.old }
    ensures { (i : ℕ) (d : _) → i < length markers.old → HasDoneRange task (slice_index_or markers.old i d) (slice_index_or markers.new i d) }
{
    thread::for_each_mut(
        show.rt,
        markers,
        threads,
        &|index: usize, marker: &mut Marker| do_range(show, plan, task, index, marker),
    );
}

// Does what `do_each` does to the markers of a list, which keeps its room.
pub(crate) fn do_lent<R: Threads + Sync, G: Gate + Sync>(
    show: &Show<'_, R, G>,
    plan: &PhasePlan,
    task: Task,
    threads: usize,
    markers: &mut Vec<Marker>,
)
    requires threads { 0 < threads }
    requires few { vec_len markers.old ≤ 64 }
    requires may { All (MayDo show.now.table plan.now task) markers.old.items }
    ensures done { AreDone task markers.old.items markers.new.items }
    ensures room { vec_capacity markers.new ≡ vec_capacity markers.old }
{
    do_each(show, plan, task, threads, markers.as_mut_slice());
}
