//! Falls of vertices that have too few neighbours to stand on their level.

ghost use Rattle.std.specs.Prelude.{◌≡◌, ℕ, ◌<◌, ◌≤◌, ◌-◌, [], false, OnOk, length, slice_index_or};
ghost use Rattle.std.specs.Bool.{OnTrue, OnFalse};
ghost use Rattle.kc_graph.specs.Shape.{IsGraph};
ghost use Rattle.kc_levels.specs.LevelList.{IsLowered, IsWithin};
ghost use Rattle.kc_delete.specs.private.Capped.{graph_of, WaitsOrMeetsIn, AreLookedAtIn};
ghost use Rattle.kc_delete.specs.private.Fallen.{AreFallen};
ghost use Rattle.kc_delete.specs.private.Settling.{IsSettling, StillWait, KeepsCount};

use crate::capped::Capped;
use crate::short::is_short;
use crate::waiting::Waiting;
use crate::work::DeletionWork;
use kc_adj::{LevelAdj, Steps};
use kc_levels::Thresholds;
use kc_rounds::{FirstRound, Gate, Rounds};
use std::alloc::AllocError;
use std::sync::ledger::Ledger;
use std::thread::Threads;

/// Lets v wait under its desired level if it has too few neighbours to stand on its level and doesn't wait yet.
///
/// Fails only if memory runs out.
pub fn add_if_short(capped: Capped<'_>, v: u32, waiting: &mut Waiting) -> Result<(), AllocError>
    requires vertex { v < capped.adj.now.graph.vertices }
    requires sized { length waiting.old ≡ capped.adj.now.graph.vertices }
    ensures sized { OnOk result (length waiting.new ≡ (graph_of capped.entry).vertices) }
    ensures still { OnOk result (StillWait waiting.old waiting.new) }
    ensures looked { OnOk result (WaitsOrMeetsIn capped.entry waiting.new v) }
{
    let Capped { adj, th } = capped;
    // Evidence for the check: the top is below 65,535.
    let _top = th.top();
    if is_short(capped, v) && !waiting.has(v) {
        waiting.add(v, adj.desired(th, v))?;
    }
    Ok(())
}

// Returns whether a neighbour that falls from `from` to `to` drops out of the count of a vertex on `level`. The vertex
// counts from the level below its own on.
fn loses_count(from: u16, to: u16, level: u16) -> bool
    ensures loses { OnTrue result ((to < level - 1) × (level - 1 ≤ from)) }
    ensures keeps { OnFalse result (KeepsCount from to level) }
{
    let reach = level.saturating_sub(1);
    to < reach && reach <= from
}

// Lets each neighbour of v wait that has too few neighbours since v fell from this level to its own.
fn add_short_neighbours(
    capped: Capped<'_>,
    v: u32,
    from: u16,
    waiting: &mut Waiting,
) -> Result<(), AllocError>
    requires vertex { v < capped.adj.now.graph.vertices }
    requires sized { length waiting.old ≡ capped.adj.now.graph.vertices }
    ensures sized { OnOk result (length waiting.new ≡ (graph_of capped.entry).vertices) }
    ensures still { OnOk result (StillWait waiting.old waiting.new) }
    ensures looked { OnOk result (AreLookedAtIn capped.entry v from waiting.new) }
{
    let adj = capped.adj;
    let to = adj.level(v);
    for w in adj.graph().neighbours(v) {
        if loses_count(from, to, adj.level(*w)) {
            add_if_short(capped, *w, waiting)?;
        }
    }
    Ok(())
}

/// Lets the waiting vertices of `work` fall to their desired levels, round after round, until no vertex waits. A
/// neighbour of a fallen vertex waits if it now has too few neighbours.
///
/// No vertex has fallen before; afterwards all fallen vertices are noted. Fails only if memory runs out; then all is
/// unspecified.
pub fn lower_levels<R: Threads + Sync, G: Gate + Sync, L: Ledger>(
    rounds: &Rounds<R, G>,
    th: &Thresholds,
    adj: &mut LevelAdj,
    work: &mut DeletionWork,
    steps: &mut Steps<L>,
) -> Result<(), AllocError>
    requires graph { IsGraph adj.old.graph }
    requires within { IsWithin th.now adj.old.graph adj.old.levels }
    requires settling { IsSettling th.now.profile adj.old.graph adj.old.levels adj.old.levels work.old.waits }
    requires before { work.old.before ≡ adj.old.levels }
    requires nobody { work.old.fallen ≡ [] }
    ensures graph { OnOk result (adj.new.graph ≡ adj.old.graph) }
    ensures lowered { OnOk result (IsLowered th.now.profile adj.old.graph adj.old.levels adj.new.levels) }
    ensures sized { OnOk result (length work.new.waits ≡ adj.old.graph.vertices) }
    ensures none_waits { OnOk result ((v : ℕ) → slice_index_or work.new.waits v false ≡ false) }
    ensures before { OnOk result (work.new.before ≡ adj.old.levels) }
    ensures fallen { OnOk result (AreFallen adj.old.levels adj.new.levels work.new.fallen) }
{
    let DeletionWork {
        waiting,
        fallen,
        first,
    } = work;
    while let Some(v) = waiting.next(rounds, first, Capped { adj, th })? {
        let from = adj.level(v);
        let to = adj.desired_near(th, v, waiting.level());
        if to < from {
            fallen.note(v, from)?;
            adj.fall(v, to, steps);
            add_short_neighbours(Capped { adj, th }, v, from, waiting)?;
        }
    }
    Ok(())
}
