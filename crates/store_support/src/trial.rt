//! An engine, and a store in which each of its batches is shown.
ghost use Rattle.std.specs.Prelude.{◌≡◌, ◌≤◌, ◌<◌, false, IfSome};
ghost use Rattle.kc_graph.specs.declared.limits.TheConstants.{MAX_VERTICES};
ghost use Rattle.kc_engine.specs.Batches.{IsCleaning};
ghost use Rattle.kc_engine.specs.Showing.{IsAbreast};
ghost use Rattle.kc_store.specs.States.{opened};

use crate::items::are_batch;
use crate::readers::Reader;
use kc_engine::laws::phases_continue;
use kc_engine::{BatchPlan, Engine, EngineFault, Shape};
use kc_graph::{Cleaned, Item, MAX_EDGES, clean};
use kc_levels::Profile;
use kc_rounds::{Gate, OpenGate};
use kc_store::{Store, Writer};
use std::alloc::Global;
use std::marker::Model;
use std::thread::Threads;

/// An engine, and a store in which each of its batches is shown by its writer.
#[derive(Drop)]
pub struct Trial<'a> {
    engine: Engine,
    store: &'a Store,
    writer: Writer,
}

impl<'a> Model for Trial<'a> {
    ghost use Rattle.std.specs.Prelude.{◌≡◌, false};
    ghost use Rattle.kc_store.specs.Seats.{StoreShape};
    ghost use Rattle.kc_engine.specs.Showing.{IsAbreast};

    ghost Value = { StoreShape };

    ghost view = { λ t. t.store.now };

    ghost invariant = { λ t. (t.writer.table ≡ t.store.now.table) × (t.engine.waits ≡ false) × (t.engine.halted ≡ false → IsAbreast t.writer.state t.engine.state) };
}

// Plans a cleaned batch, and shows the plan, whose spots the gate gets.
fn plan_and_show<R: Threads + Sync, G: Gate + Sync>(
    rt: &R,
    alloc: Global,
    gate: &G,
    engine: &mut Engine,
    store: &Store,
    writer: &mut Writer,
    cleaned: &Cleaned,
) -> Result<BatchPlan, EngineFault>
    requires table { writer.old.table ≡ store.now.table }
    requires shown { engine.old.waits ≡ false }
    requires cleaning { engine.old.halted ≡ false → IsCleaning engine.old.state.graph cleaned.now }
    requires abreast { engine.old.halted ≡ false → IsAbreast writer.old.state engine.old.state }
    ensures table { writer.new.table ≡ writer.old.table }
    ensures shown { engine.new.waits ≡ false }
    ensures abreast { engine.new.halted ≡ false → IsAbreast writer.new.state engine.new.state }
{
    // Evidence for the check: the state is sound.
    let _graph = engine.graph();
    let plan = engine.plan(rt, alloc, &OpenGate::new(), cleaned)?;
    // Evidence for the check: the phases of the plan continue the writer's history.
    phases_continue();
    engine.show(rt, gate, store, writer, &plan);
    Ok(plan)
}

impl<'a> Trial<'a> {
    /// Makes an engine without edges, whose phases have up to `workers` workers, beside a store that was just opened
    /// for n vertices. Returns `None` if memory runs out.
    pub fn open(
        alloc: Global,
        n: u32,
        workers: u32,
        store: &'a Store,
        writer: Writer,
    ) -> Option<Trial<'a>>
        requires vertices { (1 ≤ n) × (n ≤ MAX_VERTICES) }
        requires workers { (1 ≤ workers) × (workers ≤ 64) }
        requires writer { writer ≡ record { table = store.now.table; state = opened n 0 } }
        ensures { IfSome result (λ trial. trial ≡ store.now) }
    {
        let shape = Shape {
            profile: Profile::One,
            n,
            workers,
            phases_before: 0,
            edge_limit: MAX_EDGES,
        };
        let engine = Engine::open(alloc, shape).ok()?;
        Some(Trial {
            engine,
            store,
            writer,
        })
    }

    /// Plans a batch and shows the plan, whose spots the gate gets. Returns `None` if a vertex isn't one of the graph,
    /// if there are too many items or edges, or if memory runs out.
    pub fn apply<R: Threads + Sync, G: Gate + Sync>(
        &mut self,
        rt: &R,
        alloc: Global,
        gate: &G,
        items: &[Item],
    ) -> Option<BatchPlan>
        ensures { self.new ≡ self.old }
    {
        if !are_batch(items, self.engine.graph().vertices()) {
            return None;
        }
        let cleaned = clean(rt, alloc, self.engine.graph(), items).ok()?;
        let (engine, writer) = (&mut self.engine, &mut self.writer);
        plan_and_show(rt, alloc, gate, engine, self.store, writer, &cleaned).ok()
    }

    /// Returns a reader that has seen all that was shown.
    pub fn reader(&mut self) -> Reader<'a>
        ensures { self.new ≡ self.old }
    {
        Reader::new(self.store, &mut self.writer)
    }

    /// Returns the engine.
    pub fn engine(&self) -> &Engine {
        &self.engine
    }
}
