//! Marks and cleared marks of a part of a group, stored beside the writer.
ghost use Rattle.std.specs.Prelude.{◌≡◌, ◌<◌, ◌≤◌, true, false};
ghost use Rattle.kc_groups.specs.WellFormed.{vertex_at};
ghost use Rattle.kc_store.specs.States.{marker_marked, marker_cleared};
ghost use Rattle.kc_store.specs.Showing.{HasMarkedLent, HasClearedLent};

use crate::moves::{move_at, phase_of, word_of};
use crate::rule::{LentClears, LentMarks, LentNotes, Place};
use crate::store::Store;
use kc_groups::PhasePlan;
use kc_words::pack;
use std::marker::Model;

/// Stores the marks of a range of moves of one group, beside the writer and other markers.
///
/// Contracts see its range, whether the group was published when the range was lent, and the vertices whose moves it
/// noted, marked and cleared. Each call requires the store of the writer that lent the range, and takes no memory.
#[derive(Drop)]
pub struct Marker {
    pub(crate) seat: Place,
    // The place of the group in the plan, as in the seat's state.
    pub(crate) group: u32,
    // Its range, as in the seat's state.
    pub(crate) from: u32,
    pub(crate) to: u32,
}

impl Model for Marker {
    ghost use Rattle.std.specs.Prelude.{◌≡◌};
    ghost use Rattle.kc_store.specs.Seats.{MarkerShape, marker_shape, marker_of, IsMarker};

    ghost Value = { MarkerShape };

    ghost view = { λ m. marker_shape m.seat };

    ghost invariant = { λ m. IsMarker m.seat × (m.group ≡ (marker_of m.seat.me.0).loan.group) × (m.from ≡ (marker_of m.seat.me.0).loan.from) × (m.to ≡ (marker_of m.seat.me.0).loan.to) };
}

impl Marker {
    /// Marks move i of the group, counted from the group's first. The move is in the marker's range. The group was not
    /// published when the marker was lent, and the plan is the one of that time.
    pub fn mark(&mut self, store: &Store, plan: &PhasePlan, i: u32)
        requires table { self.old.table ≡ store.now.table }
        requires plan { plan.now ≡ self.old.state.plan }
        requires range { (self.old.state.loan.from ≤ i) × (i < self.old.state.loan.to) }
        requires early { self.old.state.loan.published ≡ false }
        ensures { self.new ≡ record self.old { state = marker_marked (vertex_at plan.now self.old.state.loan.group i) self.old.state } }
    {
        let group = self.group;
        let seat = &mut self.seat;
        let (m, label) = move_at(plan, group, i);
        let v = m.vertex as usize;
        let old = word_of(m.old);
        let words = &store.table.shared;
        // The old level is stored first: a reader that finds the mark may load the old level.
        words.store::<LentNotes>(seat, 2 * store.n as usize + 1 + v, old);
        words.store::<LentMarks>(seat, v + 1, pack(m.new, label, phase_of(plan)));
    }

    /// Clears move i of the group, counted from the group's first. The move is in the marker's range. The group was
    /// published when the marker was lent, and the plan is the one of that time.
    pub fn clear(&mut self, store: &Store, plan: &PhasePlan, i: u32)
        requires table { self.old.table ≡ store.now.table }
        requires plan { plan.now ≡ self.old.state.plan }
        requires range { (self.old.state.loan.from ≤ i) × (i < self.old.state.loan.to) }
        requires late { self.old.state.loan.published ≡ true }
        ensures { self.new ≡ record self.old { state = marker_cleared (vertex_at plan.now self.old.state.loan.group i) self.old.state } }
    {
        let group = self.group;
        let seat = &mut self.seat;
        let (m, _label) = move_at(plan, group, i);
        store
            .table
            .shared
            .store::<LentClears>(seat, m.vertex as usize + 1, pack(m.new, 0, 0));
    }

    // Returns the first move of its range, and the one after the last.
    fn range(&self) -> (u32, u32)
        ensures { result ≡ (self.now.state.loan.from, self.now.state.loan.to) }
    {
        (self.from, self.to)
    }

    /// Marks each move of the marker's range, in order. The group was not published when the marker was lent, and the
    /// plan is the one of that time.
    pub fn mark_all(&mut self, store: &Store, plan: &PhasePlan)
        requires table { self.old.table ≡ store.now.table }
        requires plan { plan.now ≡ self.old.state.plan }
        requires early { self.old.state.loan.published ≡ false }
        ensures table { self.new.table ≡ self.old.table }
        ensures marked { HasMarkedLent self.old.state.loan.to self.old.state self.new.state }
    {
        let (from, to) = self.range();
        for i in from..to {
            self.mark(store, plan, i);
        }
    }

    /// Clears each move of the marker's range, in order. The group was published when the marker was lent, and the plan
    /// is the one of that time.
    pub fn clear_all(&mut self, store: &Store, plan: &PhasePlan)
        requires table { self.old.table ≡ store.now.table }
        requires plan { plan.now ≡ self.old.state.plan }
        requires late { self.old.state.loan.published ≡ true }
        ensures table { self.new.table ≡ self.old.table }
        ensures cleared { HasClearedLent self.old.state.loan.to self.old.state self.new.state }
    {
        let (from, to) = self.range();
        for i in from..to {
            self.clear(store, plan, i);
        }
    }
}
