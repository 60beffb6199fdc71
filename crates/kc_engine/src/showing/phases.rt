//! Showing of phases: those of a plan in order, and in each phase its groups in order.
ghost use Rattle.std.specs.Prelude.{◌≡◌, ◌+◌, ◌≤◌, length};
ghost use Rattle.kc_store.specs.States.{MayBegin};
ghost use Rattle.kc_store.specs.private.Showing.{HasShown};
ghost use Rattle.kc_store.specs.Showing.{IsIdle};
ghost use Rattle.kc_engine.specs.Showing.{GoOn, AreShown};

use crate::showing::places::MarkerPlaces;
use crate::showing::planned::PlannedGroup;
use crate::showing::show::Show;
use crate::showing::sizes::groups_of;
use kc_groups::PhasePlan;
use kc_history::MAX_PHASE;
use kc_rounds::Gate;
use kc_store::Writer;
use std::thread::Threads;

// Begins the phase of a plan, and shows each of its groups.
fn show_phase<R: Threads + Sync, G: Gate + Sync>(
    show: &Show<'_, R, G>,
    writer: &mut Writer,
    plan: &PhasePlan,
    places: &mut MarkerPlaces,
)
    requires table { writer.old.table ≡ show.now.table }
    requires vertices { show.now.n ≡ writer.old.state.vertices }
    requires begins { MayBegin writer.old.state plan.now }
    ensures same { places.new ≡ places.old }
    ensures table { writer.new.table ≡ writer.old.table }
    ensures shown { HasShown plan.now (length plan.now.groups) writer.old.state writer.new.state }
{
    let n = show.n;
    writer.begin(show.store, plan);
    for g in 0..groups_of(plan, n) {
        let group = PlannedGroup::new(plan, n, g);
        places.show_group(show, writer, &group);
    }
}

// Shows the phases of a show, one after another: the writer's history grows by their entries (`AreShown`).
//
// The store of the show is the writer's and for n vertices. Each group of the last begun phase is published, and each
// of its moves is cleared. No marker is out. All of that holds again afterwards. The phases go on from the writer's
// history (`GoOn`), and the number of the last is at most `MAX_PHASE`.
//
// The moves of a group are cut into ranges. A range has the number of moves divided by the workers, rounded up. Each
// range is marked and cleared in a thread of its own if one can be made. If the group is short and not the first one
// shown with these places, all ranges are done in this thread, one after another.
//
// The gate gets `Piece` with the range's index at the start of each range, for marking and for clearing, and
// `Publishing` before each publication. Takes no memory, and never waits.
pub(crate) fn show_phases<R: Threads + Sync, G: Gate + Sync>(
    show: &Show<'_, R, G>,
    writer: &mut Writer,
    places: &mut MarkerPlaces,
)
    requires table { writer.old.table ≡ show.now.table }
    requires vertices { show.now.n ≡ writer.old.state.vertices }
    requires idle { IsIdle writer.old.state }
    requires phases { GoOn show.now.n writer.old.state.phase writer.old.state.history show.now.phases }
    requires few { writer.old.state.phase + length show.now.phases ≤ MAX_PHASE }
    ensures same { places.new ≡ places.old }
    ensures table { writer.new.table ≡ writer.old.table }
    ensures shown { AreShown show.now.phases writer.old.state writer.new.state }
{
    let phases = show.phases;
    for i in 0..phases.len() {
        show_phase(show, writer, &phases[i], places);
    }
}
