//! A reader of a service, which any thread may own.
ghost use Rattle.std.specs.Prelude.{◌≡◌, ◌<◌, ◌≤◌, IsSome, ◌↔◌, IfSome};
ghost use mathlib.Core.List.{IsPrefix};
ghost use Rattle.kc_store.specs.States.{last_level};
ghost use Rattle.kc_service.specs.Readers.{bounds_at};

use crate::board::Board;
use kc_store::Pass;
use std::alloc::Global;
use std::marker::Model;
use std::sync::Arc;

/// The level of a vertex, and the bounds and the estimate of its coreness that the level stands for.
#[derive(Clone, Copy, Debug, PartialEq, Eq)]
pub struct Bounds {
    /// The vertex's level.
    pub level: u16,
    /// The lower bound of the vertex's coreness.
    pub low: u32,
    /// The estimate of the coreness: twice the lower bound.
    pub est: u32,
    /// The upper bound of the coreness: at most three times the estimate, in `Profile::Two` at most twice the estimate.
    pub high: u32,
}

/// Reads the levels of a service while batches are applied. Any thread may own a reader, and it may outlive its
/// service.
///
/// Contracts see a `ReaderView`: the table of levels that it reads, the profile and the number of vertices. They also
/// see the part of the history that it has seen, and how long the history was when the reader was made. The part seen
/// only grows, so a reader never goes back to a state before one that it has seen.
#[derive(Drop)]
pub struct Reader {
    // The part shared with the service.
    pub(crate) board: Arc<Board, Global>,
    // The pass of the board's store.
    pub(crate) pass: Pass,
}

impl Model for Reader {
    ghost use Rattle.std.specs.Prelude.{◌≡◌};
    ghost use Rattle.std.specs.Arc.{arc_value};
    ghost use Rattle.kc_service.specs.Readers.{ReaderView};

    ghost Value = { ReaderView };

    ghost view = { λ r. record { table = r.pass.table; profile = (arc_value r.board).thresholds.profile; vertices = (arc_value r.board).store.vertices; seen = r.pass.seen; made = r.pass.made } };

    ghost invariant = { λ r. r.pass.table ≡ (arc_value r.board).store.table };
}

impl Reader {
    /// Returns the number of vertices.
    pub fn vertices(&self) -> u32
        ensures { result ≡ self.now.vertices }
    {
        self.board.store.vertices()
    }

    /// Returns the level of `v`, or `None` if there is no such vertex.
    ///
    /// It is the level at a point of the history, at or after the part that the reader had seen. Afterwards the reader
    /// has seen the history up to that point.
    ///
    /// Never waits and takes no memory. Cost: one to three loads.
    pub fn level(&mut self, v: u32) -> Option<u16>
        ensures some { IsSome result ↔ (v < self.old.vertices) }
        ensures same { self.new ≡ record self.old { seen = self.new.seen } }
        ensures later { IsPrefix self.old.seen self.new.seen }
        ensures level { IfSome result (λ level. last_level self.old.vertices self.new.seen v ≡ level) }
    {
        let store = &self.board.store;
        if v >= store.vertices() {
            return None;
        }
        Some(store.read(&mut self.pass, v))
    }

    /// Returns the level of `v`, as [`Reader::level`] reads it, with its bounds and estimate of the coreness of `v`
    /// (`bounds_at`). Returns `None` if there is no such vertex.
    ///
    /// Never waits and takes no memory. Cost: one to three loads.
    pub fn bounds(&mut self, v: u32) -> Option<Bounds>
        ensures some { IsSome result ↔ (v < self.old.vertices) }
        ensures same { self.new ≡ record self.old { seen = self.new.seen } }
        ensures later { IsPrefix self.old.seen self.new.seen }
        ensures bounds { IfSome result (λ bounds. bounds ≡ bounds_at self.old.profile self.old.vertices (last_level self.old.vertices self.new.seen v)) }
    {
        let level = self.level(v)?;
        let thresholds = &self.board.thresholds;
        // No batch puts a vertex above the top, but the store has no clause for that.
        let estimate = thresholds.estimate(level.min(thresholds.top()));
        Some(Bounds {
            level,
            low: estimate.lo,
            est: estimate.est,
            high: estimate.hi,
        })
    }

    /// Ends the reader, and returns its pass, for a program that goes on with the crates below (`Service::into_parts`).
    pub fn into_pass(self) -> Pass
        ensures { result ≡ record { table = self.table; seen = self.seen; made = self.made } }
    {
        let Reader { board: _, pass } = self;
        pass
    }
}
