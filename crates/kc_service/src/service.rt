//! The service itself: it is opened, applies batches, makes readers, and returns its state.
ghost use Rattle.std.specs.Prelude.{◌≡◌, ◌≤◌, ◌<◌, true, false, length, All, IfOk, OnOk, OnErr, IfErr, is_err, ℕ, slice_index};
ghost use Rattle.kc_graph.specs.Cleaning.{IsInside};
ghost use Rattle.kc_graph.specs.declared.limits.TheConstants.{MAX_ITEMS};
ghost use Rattle.kc_levels.specs.LevelList.{MeetsBoth};
ghost use Rattle.kc_bound.specs.Cores.{IsCoreness};
ghost use Rattle.kc_engine.specs.States.{IsSound};
ghost use Rattle.kc_engine.specs.Laws.{IsHistoryOf};
ghost use Rattle.kc_engine.specs.Showing.{IsAbreast};
ghost use Rattle.kc_service.specs.Opening.{opened, IsInRange, OpenCause};
ghost use Rattle.std.specs.Arc.{arc_value};
ghost use Rattle.kc_service.specs.Readers.{first_view};
ghost use Rattle.kc_service.specs.Services.{Applies, CorenessCause, Certifies, CertificateCause};

use crate::applied::Applied;
use crate::board::{Board, open_board};
use crate::faults::{ApplyFault, CertificateFault, CorenessFault, Halted, OpenFault, fault_of};
use crate::items::first_outside;
use crate::options::Options;
use crate::planning::plan_and_show;
use crate::reader::Reader;
use kc_bound::exact_coreness;
use kc_cert::write_certificate;
use kc_engine::{Engine, EngineFault, Shape};
use kc_graph::{Graph, Item, MAX_ITEMS, clean_by};
use kc_levels::Levels;
use kc_rounds::{OpenGate, Rounds};
use kc_store::Writer;
use kc_text::{SendFault, Sink};
use std::alloc::{AllocError, Global};
use std::marker::Model;
use std::sync::Arc;
use std::thread::Threads;

/// A graph that batches change, one after another, with a level for each vertex that readers look up meanwhile.
///
/// Contracts see a `ServiceView`: the table that shows its levels, the number of vertices, the edge limit, and whether
/// it has halted. They also see its state, which is profile, graph, levels and number of phases, and the history that
/// readers see. Unless it has halted, both invariants of levels hold, and the history leads to the state.
///
/// Besides the graph it takes 47 bytes a vertex.
#[derive(Drop)]
pub struct Service<'a, R> {
    // The runtime that starts the threads of a batch.
    rt: &'a R,
    // Gives the memory of batches, readers and answers.
    alloc: Global,
    // The graph with its levels.
    engine: Engine,
    // The store and the thresholds, which the readers share.
    board: Arc<Board, Global>,
    // The writer of the board's store.
    writer: Writer,
    // Whether the engine has halted.
    halted: bool,
}

impl<'a, R> Model for Service<'a, R> {
    ghost use Rattle.std.specs.Prelude.{◌≡◌};
    ghost use Rattle.std.specs.Arc.{arc_value};
    ghost use Rattle.kc_service.specs.Services.{ServiceView, view_of};
    ghost use Rattle.kc_service.specs.Keeping.{IsKept};

    ghost Value = { ServiceView };

    ghost view = { λ s. view_of (arc_value s.board).store s.engine s.writer };

    ghost invariant = { λ s. IsKept (arc_value s.board).store (arc_value s.board).thresholds s.engine s.writer s.halted };
}

/// The parts of a service, for a program that goes on with the crates below.
#[derive(Drop)]
pub struct Parts {
    /// The engine. No plan is pending in it.
    pub engine: Engine,
    /// The store, with the thresholds.
    pub board: Arc<Board, Global>,
    /// The writer of the store.
    pub writer: Writer,
}

impl<'a, R: Threads + Sync> Service<'a, R> {
    /// Opens a service without edges, each vertex on level 0 (`opened`).
    ///
    /// Fails with `Vertices`, `Workers` or `EdgeLimit` exactly if that number of the options is out of its range. If
    /// several are, the fault is that of the first. Fails with `Memory` only if memory ran out. Takes memory and time
    /// for the vertices.
    pub fn open(rt: &'a R, alloc: Global, options: Options) -> Result<Service<'a, R>, OpenFault>
        ensures ok { IfOk result (λ service. service ≡ opened service.table options) }
        ensures err { IfErr result (OpenCause options) }
    {
        options.check()?;
        Service::open_checked(rt, alloc, options).map_err(OpenFault::Memory)
    }

    // Opens a service as `open` does. The options are in range.
    fn open_checked(
        rt: &'a R,
        alloc: Global,
        options: Options,
    ) -> Result<Service<'a, R>, AllocError>
        requires { IsInRange options }
        ensures { IfOk result (λ service. service ≡ opened service.table options) }
    {
        let shape = Shape {
            profile: options.profile,
            n: options.vertices,
            workers: options.workers,
            phases_before: 0,
            edge_limit: options.edge_limit,
        };
        let engine = Engine::open(alloc, shape)?;
        let (board, writer) = open_board(alloc, options)?;
        Ok(Service {
            rt,
            alloc,
            engine,
            board,
            writer,
            halted: false,
        })
    }

    /// Applies a batch of items whole, shows it to the readers group by group, and returns its phases (`Applies`).
    ///
    /// Loops, repeats and items that would change nothing drop out. First edges leave, and the levels fall to the
    /// greatest list that meets the lower invariant. Then edges come in, and the levels rise to the least list that
    /// meets the upper invariant. Afterwards both invariants hold, so that the levels bound the coreness again.
    ///
    /// Of these faults the first that applies is returned:
    ///
    /// - `Halted` exactly if an earlier batch ran out of memory while it was applied;
    /// - `TooMany` exactly if there are more than `MAX_ITEMS` items;
    /// - `OutOfRange` exactly if a vertex of an item isn't below the number of vertices, with the index of the first
    ///   such item;
    /// - `EdgeLimit` exactly if the graph would have more edges than the limit, with their number;
    /// - `PhaseLimit` exactly if the last phase would have a number above `MAX_PHASE`, with that number;
    /// - `Memory` only if memory ran out.
    ///
    /// After each fault but `Memory` the service is unchanged. After `Memory` it is unchanged too, or it has halted.
    /// Once it has halted, its graph and levels are gone, and readers keep the state before the batch.
    ///
    /// Cost: that of `clean_by`, `Engine::plan` and `Engine::show`. Passes over all vertices only in these cases:
    ///
    /// - a phase has 4,096 edges or more, or an edge for every 16th vertex;
    /// - a phase moves a quarter of all vertices or more;
    /// - once, after many short phases that follow a long one.
    ///
    /// Passes over all edges only if half of them leave, if all come in at once, or if rising vertices have half of all
    /// neighbours.
    pub fn apply(&mut self, items: &[Item]) -> Result<Applied, ApplyFault>
        ensures table { self.new.table ≡ self.old.table }
        ensures vertices { self.new.vertices ≡ self.old.vertices }
        ensures answer { Applies self.old items.now result self.new }
        ensures both { OnOk result (MeetsBoth self.new.state.profile self.new.state.graph self.new.state.levels) }
    {
        if self.halted {
            return Err(ApplyFault::Halted);
        }
        if items.len() > MAX_ITEMS as usize {
            return Err(ApplyFault::TooMany { items: items.len() });
        }
        if let Some(item) = first_outside(items, self.vertices()) {
            return Err(ApplyFault::OutOfRange { item });
        }
        self.apply_due(items)
    }

    // Applies items as `apply` does. They may be a batch, and the service hasn't halted.
    fn apply_due(&mut self, items: &[Item]) -> Result<Applied, ApplyFault>
        requires running { self.old.halted ≡ false }
        requires few { length items.now ≤ MAX_ITEMS }
        requires inside { All (IsInside self.old.vertices) items.now }
        ensures table { self.new.table ≡ self.old.table }
        ensures vertices { self.new.vertices ≡ self.old.vertices }
        ensures answer { Applies self.old items.now result self.new }
        ensures both { OnOk result (MeetsBoth self.new.state.profile self.new.state.graph self.new.state.levels) }
    {
        let (rt, alloc) = (self.rt, self.alloc);
        let engine = &mut self.engine;
        let Ok(cleaned) = clean_by(rt, alloc, engine.workers(), engine.graph(), items) else {
            return Err(ApplyFault::Memory(AllocError));
        };
        let gate = OpenGate::new();
        let rounds = Rounds::new(rt, alloc, &gate, engine.workers());
        let store = &self.board.store;
        match plan_and_show(&rounds, engine, store, &mut self.writer, &cleaned) {
            Ok(plan) => Ok(Applied {
                added: cleaned.added.len(),
                removed: cleaned.removed.len(),
                moves: plan.moves,
                phases: plan.phases,
            }),
            Err(fault) => {
                self.halted = matches!(fault, EngineFault::Memory(_));
                Err(fault_of(fault))
            }
        }
    }

    /// Returns a reader that has seen all batches so far. It may go to any thread.
    ///
    /// Fails only if memory runs out, and the service is then unchanged. The readers of a halted service have the last
    /// state that it showed. Costs O(1).
    pub fn reader(&mut self) -> Result<Reader, AllocError>
        ensures same { self.new ≡ self.old }
        ensures reader { IfOk result (λ reader. reader ≡ first_view self.old) }
    {
        let board = Arc::try_clone(&self.board)?;
        let pass = self.writer.pass(&self.board.store);
        Ok(Reader { board, pass })
    }
}

impl<'a, R> Service<'a, R> {
    /// Returns the number of vertices.
    pub fn vertices(&self) -> u32
        ensures { result ≡ self.now.vertices }
    {
        self.board.store.vertices()
    }

    /// Returns whether the service has halted: a batch ran out of memory while it was applied. If so, no more batches
    /// are applied, and only readers answer.
    pub fn has_halted(&self) -> bool
        ensures { result ≡ self.now.halted }
    {
        self.halted
    }

    /// Returns the graph after the last batch. Fails exactly if the service has halted.
    pub fn graph(&self) -> Result<&Graph, Halted>
        ensures value { IfOk result (λ graph. graph.now ≡ self.now.state.graph) }
        ensures sound { OnOk result (IsSound self.now.edge_limit self.now.state) }
        ensures history { OnOk result (IsHistoryOf self.now.vertices self.now.history self.now.state) }
        ensures halted { is_err result ≡ self.now.halted }
    {
        if self.halted {
            return Err(Halted);
        }
        Ok(self.engine.graph())
    }

    /// Returns the level of each vertex after the last batch. Fails exactly if the service has halted.
    pub fn levels(&self) -> Result<&Levels, Halted>
        ensures value { IfOk result (λ levels. levels.now ≡ self.now.state.levels) }
        ensures sound { OnOk result (IsSound self.now.edge_limit self.now.state) }
        ensures history { OnOk result (IsHistoryOf self.now.vertices self.now.history self.now.state) }
        ensures halted { is_err result ≡ self.now.halted }
    {
        if self.halted {
            return Err(Halted);
        }
        Ok(self.engine.levels())
    }

    /// Returns the coreness of each vertex after the last batch (`IsCoreness`).
    ///
    /// Fails with `Halted` exactly if the service has halted, and with `Memory` only if memory ran out. Cost: one pass
    /// over the vertices and edges, and memory for four numbers a vertex.
    pub fn coreness(&self) -> Result<Vec<u32>, CorenessFault>
        ensures sized { IfOk result (λ r. length r.items ≡ self.now.vertices) }
        ensures coreness { IfOk result (λ r. (v : ℕ) → v < self.now.vertices → IsCoreness self.now.state.graph v (slice_index r.items v)) }
        ensures halted { CorenessCause self.now.halted result }
    {
        if self.halted {
            return Err(CorenessFault::Halted);
        }
        exact_coreness(self.alloc, self.engine.graph()).map_err(CorenessFault::Memory)
    }

    /// Writes the certificate of the graph and levels after the last batch (`Certifies`). Anyone can check it without
    /// the history, by the command `kcore check`.
    ///
    /// Fails with `Halted` exactly if the service has halted; then nothing was written. Fails with `WriteFault` only if
    /// a write failed, and with `Memory` only if memory ran out. After both the sink took a prefix of the text. Cost:
    /// one pass over the vertices and edges.
    pub fn certificate<K: Sink>(&self, sink: &mut K) -> Result<(), CertificateFault>
        ensures text { Certifies self.now (K.taken sink.old) (K.taken sink.new) result }
        ensures cause { CertificateCause (K.faults sink.old) (K.faults sink.new) result }
    {
        if self.halted {
            return Err(CertificateFault::Halted);
        }
        let engine = &self.engine;
        let (graph, levels) = (engine.graph(), engine.levels());
        match write_certificate(self.alloc, sink, self.board.profile, graph, levels) {
            Ok(()) => Ok(()),
            Err(SendFault::WriteFault) => Err(CertificateFault::WriteFault),
            Err(SendFault::Memory(e)) => Err(CertificateFault::Memory(e)),
        }
    }

    /// Ends the service, and returns its parts, for a program that goes on with the crates below.
    ///
    /// So a proof can use `Writer::take_in`, which says that the part that a reader has seen is a beginning of the
    /// history.
    pub fn into_parts(self) -> Parts
        ensures store { (arc_value result.board).store ≡ record { table = self.entry.table; vertices = self.entry.vertices } }
        ensures writer { result.writer.table ≡ self.entry.table }
        ensures history { result.writer.state.history ≡ self.entry.history }
        ensures state { result.engine.state ≡ self.entry.state }
        ensures halted { result.engine.halted ≡ self.entry.halted }
        ensures shown { result.engine.waits ≡ false }
        ensures abreast { self.entry.halted ≡ false → IsAbreast result.writer.state result.engine.state }
    {
        let Service {
            rt: _,
            alloc: _,
            engine,
            board,
            writer,
            halted: _,
        } = self;
        Parts {
            engine,
            board,
            writer,
        }
    }
}
