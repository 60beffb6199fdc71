//! The items of a drained batch, applied.
ghost use Rattle.std.specs.Prelude.{◌≡◌, ◌≤◌, length, None, All, IfOk, OnOk};
ghost use Rattle.kc_graph.specs.declared.limits.TheConstants.{MAX_EDGES};
ghost use Rattle.kc_graph.specs.Cleaning.{IsInside, cleaned};
ghost use Rattle.kc_engine.specs.Batches.{IsAfterBatch, refusal_of};
ghost use Rattle.kserve.specs.private.Fitting.{is_due};
ghost use Rattle.kserve.specs.private.Engines.{IsFresh, IsOpen};
ghost use Rattle.kserve.specs.private.Serving.{AreItems};

use kc_batch::Items;
use kc_engine::{Engine, EngineFault, Shape};
use kc_graph::{Item, MAX_EDGES, MAX_ITEMS, MAX_VERTICES, clean_by};
use kc_intake::Update;
use kc_levels::Profile;
use kc_rounds::{Gate, Rounds};
use std::alloc::{AllocError, Global};
use std::thread::Threads;

/// Makes the engine before the first batch of a graph of n vertices. Its phases use up to `workers` threads, 1 to 64.
/// Fails only if memory runs out.
pub fn open(alloc: Global, n: u32, workers: u32) -> Result<Engine, AllocError>
    requires some { 1 ≤ n }
    requires small { n ≤ MAX_VERTICES }
    requires some_workers { 1 ≤ workers }
    requires few_workers { workers ≤ 64 }
    ensures { IfOk result (IsFresh n) }
{
    Engine::open(
        alloc,
        Shape {
            profile: Profile::One,
            n,
            workers,
            phases_before: 0,
            edge_limit: MAX_EDGES,
        },
    )
}

// Whether an item is an insertion or a deletion of two vertices below n.
fn is_due(n: u32, item: Item) -> bool
    ensures { result ≡ is_due n item }
{
    match item {
        Item::Insert { u, v } | Item::Delete { u, v } => u < n && v < n,
        Item::Isolate { .. } => false,
    }
}

/// Returns the items of updates, or None if one of them isn't due.
pub fn items_of(alloc: Global, n: u32, updates: &[Update]) -> Result<Option<Items>, AllocError>
    ensures { IfOk result (λ items. AreItems n updates.now items) }
{
    let mut items = Vec::with_capacity(alloc, updates.len())?;
    for update in updates {
        if !is_due(n, update.item) {
            return Ok(None);
        }
        items.push(update.item)?;
    }
    Ok(Some(Items::from_vec(items)))
}

/// Applies items to the graph. No level is looked up meanwhile, so no phase is shown. Fails only if memory runs out.
pub fn apply<R: Threads + Sync, G: Gate + Sync>(
    rounds: &Rounds<'_, R, G>,
    engine: &mut Engine,
    items: &[Item],
) -> Result<(), AllocError>
    requires open { IsOpen engine.old }
    requires inside { All (IsInside engine.old.state.graph.vertices) items.now }
    requires few { length items.now ≤ MAX_ITEMS }
    requires room { refusal_of MAX_EDGES engine.old.state (cleaned engine.old.state.graph items.now) ≡ None }
    ensures after { OnOk result (IsAfterBatch engine.old.state (cleaned engine.old.state.graph items.now) engine.new.state) }
    ensures open { OnOk result (IsOpen engine.new) }
{
    let rt = rounds.runtime();
    let alloc = rounds.alloc();
    let cleaned = clean_by(rt, alloc, engine.workers(), engine.graph(), items)?;
    match engine.plan(rt, alloc, rounds.gate(), &cleaned) {
        Ok(plan) => {
            engine.leave_unshown();
            engine.reuse(plan);
            Ok(())
        }
        Err(EngineFault::Memory(e)) => Err(e),
        // The engine hasn't halted, and there is room for the batch.
        Err(EngineFault::Halted | EngineFault::EdgeLimit { .. } | EngineFault::PhaseLimit { .. }) =>
            unreachable!(),
    }
}
