//! Application of batches to an engine, one after another.
ghost use Rattle.std.specs.Prelude.{◌≡◌, ◌≤◌, length, All, IfOk, OnOk};
ghost use Rattle.kc_graph.specs.Cleaning.{IsInside};
ghost use Rattle.kc_session.specs.private.Audiences.{store_of, IsAbreast};
ghost use Rattle.kc_session.specs.States.{start, IsOpen};
ghost use Rattle.kc_session.specs.private.Outcomes.{Applies};

use crate::audience::show;
use crate::context::SessionContext;
use crate::watched::Watched;
use kc_batch::Items;
use kc_engine::{BatchPlan, Engine, EngineFault, Shape};
use kc_graph::{Cleaned, MAX_EDGES, MAX_ITEMS, clean_by};
use kc_rounds::{Gate, Rounds};
use kc_text::Reason;
use std::alloc::AllocError;
use std::thread::Threads;

/// The result of a batch without a fault.
#[derive(Drop)]
pub enum Outcome {
    /// The batch was applied: its cleaning, and its phases.
    Accepted(Cleaned, BatchPlan),
    /// The batch is refused for this reason, `EdgeLimit` or `PhaseLimit`, and changed nothing.
    Refused(Reason),
}

/// Makes the engine of a session before its first batch. Fails only if memory runs out.
pub fn open<R: Threads + Sync, G: Gate + Sync>(
    context: &SessionContext<'_, R, G>,
) -> Result<Engine, AllocError>
    ensures state { IfOk result (λ e. e.state ≡ start context.now.profile context.now.n) }
    ensures open { IfOk result IsOpen }
{
    Engine::open(
        context.rounds.alloc(),
        Shape {
            profile: context.profile,
            n: context.n,
            workers: context.rounds.workers(),
            phases_before: 0,
            edge_limit: MAX_EDGES,
        },
    )
}

/// Applies a batch without a fault. Its items are cleaned first, and their memory is given back. Then the batch is
/// refused and changes nothing, or its edges leave and come in, and its phases are shown to the audience. Fails only if
/// memory runs out; the engine isn't used again then.
///
/// Cost: that of `clean_by` and `Engine::plan`, and that of `Engine::show` if there are readers.
pub fn apply<R: Threads + Sync, G: Gate + Sync>(
    rounds: &Rounds<'_, R, G>,
    watched: &mut Watched<'_>,
    items: Items,
) -> Result<Outcome, AllocError>
    requires abreast { IsAbreast watched.old.audience watched.old.engine.state }
    requires open { IsOpen watched.old.engine }
    requires inside { All (IsInside watched.old.engine.state.graph.vertices) items }
    requires few { length items ≤ MAX_ITEMS }
    ensures outcome { IfOk result (λ o. Applies watched.old items o watched.new) }
    ensures store { store_of watched.new.audience ≡ store_of watched.old.audience }
    ensures abreast { OnOk result (IsAbreast watched.new.audience watched.new.engine.state) }
    ensures open { OnOk result (IsOpen watched.new.engine) }
{
    let (rt, alloc, gate) = (rounds.runtime(), rounds.alloc(), rounds.gate());
    let Watched { engine, audience } = watched;
    let cleaned = clean_by(
        rt,
        alloc,
        engine.workers(),
        engine.graph(),
        items.as_slice(),
    )?;
    // Gives the items back before the edges are linked, so that the rows take that memory.
    drop(items);
    match engine.plan(rt, alloc, gate, &cleaned) {
        Ok(plan) => {
            show(rt, gate, audience, engine, &plan);
            Ok(Outcome::Accepted(cleaned, plan))
        }
        Err(EngineFault::EdgeLimit { .. }) => Ok(Outcome::Refused(Reason::EdgeLimit)),
        Err(EngineFault::PhaseLimit { .. }) => Ok(Outcome::Refused(Reason::PhaseLimit)),
        Err(EngineFault::Memory(e)) => Err(e),
        // An earlier batch ran out of memory, and the session ended there.
        Err(EngineFault::Halted) => Err(AllocError),
    }
}
