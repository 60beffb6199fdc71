//! The writer of a store: it begins phases, marks their moves, and publishes group after group.
ghost use Rattle.std.specs.Prelude.{◌≡◌, ◌<◌, ◌≤◌, length};
ghost use mathlib.Core.List.{IsPrefix};
ghost use Rattle.kc_groups.specs.WellFormed.{vertex_at};
ghost use Rattle.kc_store.specs.Plans.{group_at};
ghost use Rattle.kc_store.specs.Seats.{HasRange};
ghost use Rattle.kc_store.specs.States.{MayBegin, MayPublish, AreNotLent, with_phase, with_marked, with_cleared, with_published, with_joined, with_loan, with_returned, marker_for};

use crate::marker::Marker;
use crate::moves::{group_at, label_of, move_at, phase_of, word_of};
use crate::rule::{
    Begins, Clears, Lends, Marks, NewPass, Notes, Place, Planned, Publishes, Ranged, TakesBack,
    Tells,
};
use crate::store::{Pass, Store};
use kc_groups::PhasePlan;
use kc_words::pack;
use std::marker::{Brand, Model};

/// The writer, which moves the levels of a store.
///
/// Contracts see its history, the number of phases, the plan of the open phase with the number of published groups, and
/// what is lent. They also see the vertices whose moves are noted, marked and cleared. Each call requires the store
/// with which the writer was opened, and takes no memory.
#[derive(Drop)]
pub struct Writer {
    pub(crate) seat: Place,
}

impl Model for Writer {
    ghost use Rattle.kc_store.specs.Seats.{WriterShape, writer_shape, IsWriter};

    ghost Value = { WriterShape };

    ghost view = { λ w. writer_shape w.seat };

    ghost invariant = { λ w. IsWriter w.seat };
}

impl Writer {
    // Does what `begin` does. `J` stands for the plan in the rule of the table, which sees types and no values.
    fn begin_as<J: Planned>(&mut self, store: &Store, plan: &PhasePlan)
        requires table { self.old.table ≡ store.now.table }
        requires begins { MayBegin self.old.state plan.now }
        requires plan { J.plan ≡ plan.now }
        ensures { self.new ≡ record self.old { state = with_phase plan.now self.old.state } }
    {
        let phase = u64::from(phase_of(plan));
        store
            .table
            .shared
            .store::<Begins<J>>(&mut self.seat, 0, phase);
    }

    /// Begins the phase of a plan: the history grows by the plan's quiet entry.
    ///
    /// Each group of the last begun phase is published, each of its moves is cleared, and no marker is out. The plan is
    /// well formed. Its phase is the next one, at most `MAX_PHASE`, and it moves each vertex from its level at the end
    /// of the history.
    pub fn begin(&mut self, store: &Store, plan: &PhasePlan)
        requires table { self.old.table ≡ store.now.table }
        requires begins { MayBegin self.old.state plan.now }
        ensures { self.new ≡ record self.old { state = with_phase plan.now self.old.state } }
    {
        self.begin_as::<Brand>(store, plan);
    }

    /// Marks move i of the group at place g, which is not published yet. The plan is the open phase's. No level
    /// changes, and the history stays the same.
    pub fn mark(&mut self, store: &Store, plan: &PhasePlan, g: u32, i: u32)
        requires table { self.old.table ≡ store.now.table }
        requires plan { plan.now ≡ self.old.state.plan }
        requires early { self.old.state.published ≤ g }
        requires place { i < length (group_at plan.now g).moves }
        ensures { self.new ≡ record self.old { state = with_marked (vertex_at plan.now g i) self.old.state } }
    {
        let seat = &mut self.seat;
        let (m, label) = move_at(plan, g, i);
        let v = m.vertex as usize;
        let old = word_of(m.old);
        let words = &store.table.shared;
        // The old level is stored first: a reader that finds the mark may load the old level.
        words.store::<Notes>(seat, 2 * store.n as usize + 1 + v, old);
        words.store::<Marks>(seat, v + 1, pack(m.new, label, phase_of(plan)));
    }

    /// Publishes the group at place g, whose moves all take effect at once: the history grows by the group's entry.
    ///
    /// The plan is the open phase's, and g is the number of its published groups. Each move of the group is marked, and
    /// no marker is out for the group.
    pub fn publish(&mut self, store: &Store, plan: &PhasePlan, g: u32)
        requires table { self.old.table ≡ store.now.table }
        requires plan { plan.now ≡ self.old.state.plan }
        requires publishes { MayPublish self.old.state g }
        ensures { self.new ≡ record self.old { state = with_published self.old.state } }
    {
        let seat = &mut self.seat;
        let label = label_of(group_at(plan, g));
        let phase = u64::from(phase_of(plan));
        store
            .table
            .shared
            .store::<Publishes>(seat, store.n as usize + 1 + label as usize, phase);
    }

    /// Clears move i of the group at place g, which is published. The plan is the open phase's. No level changes, and
    /// the history stays the same.
    pub fn clear(&mut self, store: &Store, plan: &PhasePlan, g: u32, i: u32)
        requires table { self.old.table ≡ store.now.table }
        requires plan { plan.now ≡ self.old.state.plan }
        requires late { g < self.old.state.published }
        requires place { i < length (group_at plan.now g).moves }
        ensures { self.new ≡ record self.old { state = with_cleared (vertex_at plan.now g i) self.old.state } }
    {
        let seat = &mut self.seat;
        let (m, _label) = move_at(plan, g, i);
        store
            .table
            .shared
            .store::<Clears>(seat, m.vertex as usize + 1, pack(m.new, 0, 0));
    }

    /// Makes a pass that has seen the whole history.
    pub fn pass(&mut self, store: &Store) -> Pass
        requires table { self.old.table ≡ store.now.table }
        ensures same { self.new ≡ self.old }
        ensures pass { result ≡ record { table = self.old.table; seen = self.old.state.history; made = length self.old.state.history } }
    {
        Pass {
            seat: store.table.shared.split_seat::<NewPass>(&mut self.seat),
        }
    }

    /// Ends a pass of this store. The part that the pass had seen is a beginning of the history.
    pub fn take_in(&mut self, store: &Store, pass: Pass)
        requires table { self.old.table ≡ store.now.table }
        requires pass { pass.table ≡ store.now.table }
        ensures same { self.new ≡ record self.old { state = with_joined pass.seen self.old.state } }
        ensures seen { IsPrefix pass.seen self.new.state.history }
    {
        let Pass { seat } = pass;
        store
            .table
            .shared
            .join_seat::<TakesBack>(&mut self.seat, seat);
        // The value isn't needed: by this step the writer learns that the part is a beginning of the history.
        store.table.shared.load::<Tells>(&mut self.seat, 0);
    }

    // Does what `lend` does. `J` stands for the range in the rule of the table, which sees types and no values.
    fn lend_as<J: Ranged>(&mut self, store: &Store, g: u32, from: u32, to: u32) -> Marker
        requires table { self.old.table ≡ store.now.table }
        requires moves { HasRange self.old.state.plan g to }
        requires range { (J.group ≡ g) × (J.low ≡ from) × (J.high ≡ to) }
        ensures lent { self.new ≡ record self.old { state = with_loan g from to self.old.state } }
        ensures marker { result ≡ record { table = self.old.table; state = marker_for g from to self.old.state } }
    {
        Marker {
            seat: store.table.shared.split_seat::<Lends<J>>(&mut self.seat),
            group: g,
            from,
            to,
        }
    }

    /// Makes a marker for moves of the group at place g: from the number `from` up to the number `to`, without `to`.
    ///
    /// None of these moves is lent, and the plan is the open phase's. The marker marks if the group is not published
    /// yet, and otherwise clears.
    pub fn lend(&mut self, store: &Store, plan: &PhasePlan, g: u32, from: u32, to: u32) -> Marker
        requires table { self.old.table ≡ store.now.table }
        requires plan { plan.now ≡ self.old.state.plan }
        requires group { g < length plan.now.groups }
        requires range { (from ≤ to) × (to ≤ length (group_at plan.now g).moves) }
        requires free { AreNotLent g from to self.old.state.loans }
        ensures lent { self.new ≡ record self.old { state = with_loan g from to self.old.state } }
        ensures marker { result ≡ record { table = self.old.table; state = marker_for g from to self.old.state } }
    {
        self.lend_as::<Brand>(store, g, from, to)
    }

    /// Ends a marker of this store. The moves that it marked count as marked, and those that it cleared as cleared.
    pub fn give_back(&mut self, store: &Store, marker: Marker)
        requires table { self.old.table ≡ store.now.table }
        requires marker { marker.table ≡ store.now.table }
        ensures { self.new ≡ record self.old { state = with_returned marker.state self.old.state } }
    {
        let Marker { seat, .. } = marker;
        store
            .table
            .shared
            .join_seat::<TakesBack>(&mut self.seat, seat);
    }
}
