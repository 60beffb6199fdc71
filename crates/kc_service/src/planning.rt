//! Planning and showing of a cleaned batch.
ghost use Rattle.std.specs.Prelude.{◌≡◌, false, OnOk};
ghost use Rattle.kc_levels.specs.LevelList.{MeetsBoth};
ghost use Rattle.kc_engine.specs.Batches.{IsCleaning};
ghost use Rattle.kc_engine.specs.Showing.{IsAbreast};
ghost use Rattle.kc_service.specs.private.Planning.{PlansAndShows};

use kc_engine::laws::phases_continue;
use kc_engine::{BatchPlan, Engine, EngineFault};
use kc_graph::Cleaned;
use kc_rounds::{OpenGate, Rounds};
use kc_store::{Store, Writer};
use std::thread::Threads;

/// Plans a cleaned batch, and shows the plan in the store. Before the call the writer's history leads to the engine's
/// state. Unless the engine has halted, it does so afterwards too.
pub(crate) fn plan_and_show<R: Threads + Sync>(
    rounds: &Rounds<'_, R, OpenGate>,
    engine: &mut Engine,
    store: &Store,
    writer: &mut Writer,
    cleaned: &Cleaned,
) -> Result<BatchPlan, EngineFault>
    requires running { engine.old.halted ≡ false }
    requires shown { engine.old.waits ≡ false }
    requires table { writer.old.table ≡ store.now.table }
    requires abreast { IsAbreast writer.old.state engine.old.state }
    requires cleaning { IsCleaning engine.old.state.graph cleaned.now }
    ensures table { writer.new.table ≡ writer.old.table }
    ensures answer { PlansAndShows engine.old writer.old.state cleaned.now result engine.new writer.new.state }
    ensures abreast { OnOk result (IsAbreast writer.new.state engine.new.state) }
    ensures both { OnOk result (MeetsBoth engine.new.state.profile engine.new.state.graph engine.new.state.levels) }
{
    // Evidence for the check: the state is sound.
    let _graph = engine.graph();
    let (rt, gate) = (rounds.runtime(), rounds.gate());
    let plan = engine.plan(rt, rounds.alloc(), gate, cleaned)?;
    // Evidence for the check: the phases of the plan continue the writer's history.
    phases_continue();
    engine.show(rt, gate, store, writer, &plan);
    Ok(plan)
}
