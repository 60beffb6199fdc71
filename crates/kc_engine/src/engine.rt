//! The engine: it plans a batch, which changes graph and levels; then its plan is shown in a store, or left unshown.
ghost use Rattle.std.specs.Prelude.{◌≡◌, ◌≤◌, true, false, IfOk, OnOk, All};
ghost use Rattle.kc_levels.specs.LevelList.{MeetsBoth};
ghost use Rattle.kc_groups.specs.WellFormed.{IsWellFormed};
ghost use Rattle.kc_engine.specs.States.{IsSound};
ghost use Rattle.kc_engine.specs.Batches.{IsCleaning, refusal_of};
ghost use Rattle.kc_engine.specs.Planning.{opened, Answers};
ghost use Rattle.kc_engine.specs.Showing.{AreShown, Continues};
ghost use Rattle.kc_store.specs.Showing.{IsIdle};

use crate::faults::EngineFault;
use crate::phases::{PhasedGraph, phase_count};
use crate::plans::BatchPlan;
use crate::shape::Shape;
use crate::showing::{MarkerPlaces, Show, show_phases};
use crate::work::PhaseWork;
use kc_adj::LevelAdj;
use kc_graph::{Cleaned, Graph, MAX_EDGES, MAX_VERTICES};
use kc_history::MAX_PHASE;
use kc_levels::{Levels, Thresholds};
use kc_rounds::{Gate, Rounds};
use kc_store::{Store, Writer};
use std::alloc::{AllocError, Global};
use std::marker::Model;
use std::thread::Threads;

/// A graph with levels, which cleaned batches change one after another.
///
/// Contracts see an `EngineView`: its state (`State`), the scale of its thresholds, workers and edge limit. They also
/// see whether it has halted, and whether a plan is pending. Unless it has halted, its state is sound (`IsSound`): both
/// invariants hold, and no number is above its limit.
///
/// Besides the graph it keeps 23 bytes a vertex: 10 for levels and counts, and 13 for the workspaces of phases.
#[derive(Drop)]
pub struct Engine {
    // The graph with its levels, and what its phases work with. Unless the engine has halted, the levels meet both
    // invariants, and the workspaces are ready.
    phased: PhasedGraph,
    // The number of phases so far, at most `MAX_PHASE`.
    phases: u32,
    // The most threads that a phase uses, 1 to 64: the number of places for markers.
    workers: u32,
    // The most edges that the graph may have after a batch, 0 to `MAX_EDGES`. Unless the engine has halted, the graph
    // has no more now.
    edge_limit: u32,
    // Whether there was no memory for a batch. Graph and levels may then be those in the middle of a phase.
    halted: bool,
    // Whether a pending plan waits to be shown.
    waits: bool,
    // The places of the markers that the engine lends while it shows a plan: one for each worker.
    places: MarkerPlaces,
}

impl Model for Engine {
    ghost use Rattle.kc_engine.specs.Planning.{EngineView, IsKept};

    ghost Value = { EngineView };

    ghost view = { λ e. record { state = record { profile = e.phased.thresholds.profile; graph = e.phased.adj.graph; levels = e.phased.adj.levels; phases = e.phases }; scale = e.phased.thresholds; workers = e.workers; edge_limit = e.edge_limit; halted = e.halted; waits = e.waits } };

    ghost invariant = { λ e. IsKept e.places e.phased.work (record { state = record { profile = e.phased.thresholds.profile; graph = e.phased.adj.graph; levels = e.phased.adj.levels; phases = e.phases }; scale = e.phased.thresholds; workers = e.workers; edge_limit = e.edge_limit; halted = e.halted; waits = e.waits }) };
}

impl Engine {
    /// Makes the engine of this shape before its first batch (`opened`): no edges, all levels 0, not halted, and no
    /// pending plan.
    ///
    /// The numbers of the shape are within their ranges. Takes memory and time for n vertices. Fails only if memory
    /// runs out.
    pub fn open(alloc: Global, shape: Shape) -> Result<Engine, AllocError>
        requires some { 1 ≤ shape.n }
        requires small { shape.n ≤ MAX_VERTICES }
        requires some_workers { 1 ≤ shape.workers }
        requires few_workers { shape.workers ≤ 64 }
        requires few_phases { shape.phases_before ≤ MAX_PHASE }
        requires few_edges { shape.edge_limit ≤ MAX_EDGES }
        ensures { IfOk result (λ engine. engine ≡ opened shape) }
    {
        let thresholds = Thresholds::new(alloc, shape.profile, shape.n)?;
        let adj = LevelAdj::new(alloc, shape.n)?;
        let work = PhaseWork::new(alloc, &thresholds, &adj)?;
        let places = MarkerPlaces::new(alloc, shape.workers)?;
        Ok(Engine {
            phased: PhasedGraph {
                thresholds,
                adj,
                work,
            },
            phases: shape.phases_before,
            workers: shape.workers,
            edge_limit: shape.edge_limit,
            halted: false,
            waits: false,
            places,
        })
    }

    // Returns why the batch is refused, if it is. The engine hasn't halted.
    fn refusal_of(&self, cleaned: &Cleaned) -> Option<EngineFault>
        requires running { self.now.halted ≡ false }
        requires cleaning { IsCleaning self.now.state.graph cleaned.now }
        ensures { result ≡ refusal_of self.now.edge_limit self.now.state cleaned.now }
    {
        // Evidence for the check: the edges of the graph ascend.
        let _n = self.phased.adj.graph().vertices();
        let left = self.phased.adj.graph().edge_count() - cleaned.removed.len() as u32;
        let edges = left + cleaned.added.len() as u32;
        if edges > self.edge_limit {
            return Some(EngineFault::EdgeLimit { edges });
        }
        let count = phase_count(cleaned);
        let phase = self.phases + count;
        if count > 0 && phase > MAX_PHASE {
            return Some(EngineFault::PhaseLimit { phase });
        }
        None
    }

    /// Changes graph and levels by a cleaned batch (`Answers`), and returns its phases and the number of moves.
    ///
    /// First the edges of `removed` leave and the levels fall to the lowered list (`IsLowered`). Then the edges of
    /// `added` come in and the levels rise to the raised list (`IsRaised`). Each is a phase of its own and takes the
    /// next number; an empty list has no phase. No plan is pending, and unless the engine has halted, `cleaned` is the
    /// result of `clean` for this graph. After `Ok` the plan is pending.
    ///
    /// Of these faults the first that applies is returned, before memory is requested:
    ///
    /// - `Halted` exactly if an earlier batch ran out of memory;
    /// - `EdgeLimit` exactly if the graph would have more edges after the batch than the edge limit, with their number;
    /// - `PhaseLimit` exactly if the batch has a phase and the number of its last one is above `MAX_PHASE`, with that
    ///   number;
    /// - `Memory` only if none of the others applies.
    ///
    /// After the first three the engine is unchanged. After `Memory` it has halted, and its graph and levels are
    /// unspecified.
    ///
    /// A phase has the entries of `AreEntries`, by its number, the levels before and after it, and the graph that has
    /// its edges. That is the graph before edges leave, or after edges come in. Each plan is well formed.
    ///
    /// The cost is that of `delete_phase`, `insert_phase` and, for each phase, `plan_moves`. After each phase the
    /// workspace of the other kind of phase is brought up to date:
    ///
    /// - after a deletion phase by two steps for each edge that left, and one for each fallen vertex and each of its
    ///   neighbours;
    /// - after an insertion phase by a step for each vertex that rose.
    ///
    /// A phase passes over all vertices only in these cases:
    ///
    /// - it has 4,096 edges or more, or an edge for every 16th vertex;
    /// - it moves a quarter of them or more;
    /// - once, after many short phases that follow a long one.
    ///
    /// It passes over all edges only if half of them leave, all come in at once, or rising vertices have half of all
    /// neighbours. A refused batch and a batch without phases cost O(1).
    pub fn plan<R: Threads + Sync, G: Gate + Sync>(
        &mut self,
        rt: &R,
        alloc: Global,
        gate: &G,
        cleaned: &Cleaned,
    ) -> Result<BatchPlan, EngineFault>
        requires none_waits { self.old.waits ≡ false }
        requires cleaning { self.old.halted ≡ false → IsCleaning self.old.state.graph cleaned.now }
        ensures answer { Answers self.old cleaned.now result self.new }
        ensures both { OnOk result (MeetsBoth self.new.state.profile self.new.state.graph self.new.state.levels) }
        ensures sound { OnOk result (IsSound self.new.edge_limit self.new.state) }
        ensures well_formed { IfOk result (λ plan. All (IsWellFormed self.old.state.graph.vertices) plan.phases) }
    {
        if self.halted {
            return Err(EngineFault::Halted);
        }
        if let Some(fault) = self.refusal_of(cleaned) {
            return Err(fault);
        }
        // The engine counts as halted until both phases are done.
        self.halted = true;
        let rounds = Rounds::new(rt, alloc, gate, self.workers);
        let plan = self
            .phased
            .run_phases(&rounds, self.phases, cleaned)
            .map_err(EngineFault::Memory)?;
        self.phases += phase_count(cleaned);
        self.halted = false;
        self.waits = true;
        Ok(plan)
    }

    /// Shows the pending plan: each of its phases takes effect in the store, one group after another. The writer's
    /// history grows by their entries (`AreShown`). Afterwards no plan is pending, and the engine is otherwise
    /// unchanged.
    ///
    /// The store is the writer's and for the vertices of the graph. Each group of the writer's last begun phase is
    /// published, and each of its moves is cleared. No marker is out. All of that holds again afterwards. The plan
    /// continues the writer's history to the engine's state (`Continues`).
    ///
    /// The moves of a group are cut into ranges. A range has the number of moves divided by the workers, rounded up.
    /// The ranges are marked, the group is published, and the ranges are cleared.
    ///
    /// The gate gets `Piece` with the range's index at the start of each range, for marking and for clearing, and
    /// `Publishing` before each publication. The ranges go to threads if the group has 8,192 moves or more, or is the
    /// first one that the engine shows. Otherwise they are done one after another. If no thread can be made, the
    /// calling thread does the range. Takes no memory, and never waits.
    ///
    /// Cost: two stores to mark a move and one to clear it.
    pub fn show<R: Threads + Sync, G: Gate + Sync>(
        &mut self,
        rt: &R,
        gate: &G,
        store: &Store,
        writer: &mut Writer,
        plan: &BatchPlan,
    )
        requires waits { self.old.waits ≡ true }
        requires table { writer.old.table ≡ store.now.table }
        requires vertices { writer.old.state.vertices ≡ self.old.state.graph.vertices }
        requires idle { IsIdle writer.old.state }
        requires continues { Continues writer.old.state self.old.state plan.now.phases }
        ensures engine { self.new ≡ record self.old { waits = false } }
        ensures table { writer.new.table ≡ writer.old.table }
        ensures shown { AreShown plan.now.phases writer.old.state writer.new.state }
        ensures phase { writer.new.state.phase ≡ self.new.state.phases }
    {
        let n = self.phased.adj.graph().vertices();
        let phases = plan.phases.as_slice();
        let show = Show {
            rt,
            gate,
            store,
            phases,
            n,
        };
        show_phases(&show, writer, &mut self.places);
        self.waits = false;
    }

    /// Leaves the pending plan unshown, for an engine whose levels no reader looks up. Afterwards no plan is pending,
    /// and the engine is otherwise unchanged. Costs O(1).
    pub fn leave_unshown(&mut self)
        requires { self.old.waits ≡ true }
        ensures { self.new ≡ record self.old { waits = false } }
    {
        // Graph and levels are already those after the plan.
        self.waits = false;
    }

    /// Takes back a plan that is no longer needed. Its memory serves the plans of later batches. Contracts see no
    /// change of the engine, and later answers are the same without this call. Keeps less than 4 MB
    /// (`GroupWork::take_back`), and costs a step for each group of the plan.
    pub fn reuse(&mut self, plan: BatchPlan)
        ensures { self.new ≡ self.old }
    {
        let mut phases = plan.phases.into_vec();
        // The phases are taken from the end, so the next batch's first phase gets the memory of this plan's first one.
        for _turn in 0..phases.len() {
            if let Some(phase) = phases.pop() {
                self.phased.work.groups.take_back(phase);
            }
        }
    }

    /// Returns the graph. Once the engine has halted, the graph is unspecified.
    pub fn graph(&self) -> &Graph
        ensures value { result.now ≡ self.now.state.graph }
        ensures sound { self.now.halted ≡ false → IsSound self.now.edge_limit self.now.state }
    {
        // Evidence for the check: the engine is sound unless it has halted.
        let _halted = self.halted;
        self.phased.adj.graph()
    }

    /// Returns the levels. Once the engine has halted, the levels are unspecified.
    pub fn levels(&self) -> &Levels
        ensures value { result.now ≡ self.now.state.levels }
        ensures sound { self.now.halted ≡ false → IsSound self.now.edge_limit self.now.state }
    {
        self.phased.adj.levels()
    }

    /// Returns the graph with its levels, and with the two counts of each vertex. Once the engine has halted, they are
    /// unspecified.
    pub fn adj(&self) -> &LevelAdj
        ensures graph { result.now.graph ≡ self.now.state.graph }
        ensures levels { result.now.levels ≡ self.now.state.levels }
    {
        &self.phased.adj
    }

    /// Returns the thresholds of the levels. Unless the engine has halted, they are for the vertices of the graph.
    pub fn thresholds(&self) -> &Thresholds
        ensures value { result.now ≡ self.now.scale }
        ensures profile { result.now.profile ≡ self.now.state.profile }
        ensures scale { self.now.halted ≡ false → result.now.vertices ≡ self.now.state.graph.vertices }
    {
        &self.phased.thresholds
    }

    /// Returns the number of phases, 0 to `MAX_PHASE`. The phases before the engine was opened count too.
    pub fn phases(&self) -> u32
        ensures value { result ≡ self.now.state.phases }
        ensures few { self.now.halted ≡ false → result ≤ MAX_PHASE }
    {
        self.phases
    }

    /// Returns the most threads that a phase uses: 1 to 64.
    pub fn workers(&self) -> u32
        ensures value { result ≡ self.now.workers }
        ensures some { 1 ≤ result }
        ensures few { result ≤ 64 }
    {
        self.workers
    }
}
