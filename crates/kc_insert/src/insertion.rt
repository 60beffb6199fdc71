//! An insertion phase from end to end: edges come in, one sweep raises the levels, and the moves are given.

ghost use Rattle.std.specs.Prelude.{◌≡◌, ℕ, ◌+◌, ◌*◌, ◌<◌, ◌≤◌, OnOk, IfOk, length};
ghost use Rattle.kc_graph.specs.Shape.{EdgesFrom, with_edges};
ghost use Rattle.kc_graph.specs.Changes.{AllAbsent};
ghost use Rattle.kc_levels.specs.LevelList.{MeetsUpper, IsRaised, IsWithin};
ghost use Rattle.kc_levels.specs.Moved.{moved_count, moves_between};
ghost use Rattle.kc_insert.specs.Effort.{effort};
ghost use Rattle.kc_insert.specs.Working.{IsReady};

use crate::filing::{Fresh, file_ends};
use crate::linking::link_edges;
use crate::scaled::Scaled;
use crate::sweeping::raise_queued;
use crate::work::{InsertionWork, take_moves};
use kc_adj::{LevelAdj, Steps};
use kc_graph::{Edge, MAX_EDGES};
use kc_levels::{Moves, Thresholds};
use kc_rounds::{Gate, Rounds};
use std::alloc::{AllocError, Global};
use std::sync::ledger::Ledger;
use std::thread::Threads;

/// What a phase did.
#[derive(Clone, Copy, Debug, PartialEq, Eq)]
pub struct Tally {
    /// The number of vertices whose level is another one than before.
    pub moves: u32,
}

/// Puts the edges in and raises the levels to the raised list (`IsRaised`). These are the least levels that are at
/// least the old ones, within the top, and meet the upper invariant in the new graph. Returns the moves
/// (`moves_between`): each vertex that rose with its old and its new level, ascending by vertex.
///
/// The thresholds are for the number of vertices of the graph, and no level is above their top. `work` is ready for the
/// graph (`IsReady`), and is ready for the new one afterwards. `added` is ascending, and none of its edges is in the
/// graph, which then has at most `MAX_EDGES`. The upper invariant holds before the call.
///
/// Fails only if memory runs out; graph, levels and `work` are then unspecified.
///
/// Counts at most 4 steps for each edge. For each level that a vertex rises it counts at most three for each neighbour
/// of the vertex in the new graph, and one more (`effort`). A rising vertex costs at most three passes over its
/// neighbours, however far it rises. These are where it begins, where it stays, and where it comes to its new level in
/// `adj` after the sweep.
///
/// One sweep goes through the levels, from the lowest up, and stops at each where a vertex waits, is met or may stay.
/// Threads sweep ranges of vertices if `work` has several (`InsertionWork::adapt`) and much is to do on a level. At
/// least 4,096 vertices begin or stay there then; a quarter of the meetings counts with these. There is one thread for
/// each 2,048 of them, and at most one for each range and for each worker of `rounds`. Else the caller sweeps the
/// ranges.
///
/// The first list of candidates in the life of `work` that isn't empty is cut into as many pieces as there are workers.
/// If it is short, there are fewer. The gate hears of each piece. No answer depends on the workers nor on the gate.
///
/// Some looks aren't counted. A rising vertex takes at most three for each neighbour that stood above it when it began.
/// Each range takes one on each level where the sweep stops, and so do 64 levels that are passed over. The vertices
/// that rose are put in order (`moves_of`). If there is an edge for every 16th vertex or more, all counts are compared.
/// Threads share that if there are ranges and at least 4,096 edges. Else a pass goes over all vertices only if a
/// quarter of them rose. The passes by which `LevelAdj::link_all` makes counts afresh aren't counted either. Nor are
/// those of `LevelAdj::par_lift_all` over vertices that didn't rise, at most as many neighbours as are counted there.
///
/// Takes memory for the vertices that wait or rose and for their moves. Besides it takes 8 bytes for each neighbour
/// that stood above a rising vertex. On one level at a time it takes 8 for each neighbour that hears of a vertex;
/// `work` keeps the longest of these lists. While 2,048 edges or more are linked, each takes 8 bytes, and 8 more while
/// their halves are sorted. If 8,192 vertices or more rose, it takes what `LevelAdj::par_lift_all` takes.
pub fn insert_phase<R: Threads + Sync, G: Gate + Sync, L: Ledger>(
    rounds: &Rounds<R, G>,
    th: &Thresholds,
    adj: &mut LevelAdj,
    work: &mut InsertionWork,
    added: &[Edge],
    steps: &mut Steps<L>,
) -> Result<Moves, AllocError>
    requires within { IsWithin th.now adj.old.graph adj.old.levels }
    requires upper { (v : ℕ) → v < adj.old.graph.vertices → MeetsUpper th.now.profile adj.old.graph adj.old.levels v }
    requires ready { IsReady th.now.profile adj.old work.old }
    requires ascending { EdgesFrom adj.old.graph.vertices 0 0 added.now }
    requires absent { AllAbsent adj.old.graph added.now }
    requires room { length adj.old.graph.edges + length added.now ≤ MAX_EDGES }
    ensures graph { OnOk result (adj.new.graph ≡ with_edges adj.old.graph added.now) }
    ensures raised { OnOk result (IsRaised th.now.profile adj.new.graph adj.old.levels adj.new.levels) }
    ensures moves { IfOk result (λ moves. moves ≡ moves_between adj.new.graph.vertices adj.old.levels adj.new.levels) }
    ensures ready { OnOk result (IsReady th.now.profile adj.new work.new) }
    ensures cost { let rises = effort adj.new.graph adj.old.levels adj.new.levels adj.new.graph.vertices in
        OnOk result (steps.new ≤ steps.old + (4 * length added.now + rises)) }
{
    // Evidence for the check: each vertex has a level, and the top is below 65,535.
    let _levels = adj.levels();
    let _top = th.top();
    let sweep = &mut work.sweep;
    link_edges(rounds, adj, added, steps)?;
    let fresh = Fresh {
        th,
        levels: adj.levels(),
        counts: adj.own_counts(),
    };
    file_ends(rounds, &fresh, &mut sweep.ranges, added)?;
    let scaled = Scaled {
        graph: adj.graph(),
        th,
    };
    raise_queued(rounds, scaled, sweep, steps)?;
    let moves = take_moves(rounds, adj, sweep, steps)?;
    Ok(moves)
}

/// Raises levels in one phase with a workspace of its own (`insert_phase`). The workspace costs a pass over all
/// vertices besides, and one over all levels for each range.
///
/// `workers` is 1 to 64. Fails only if memory runs out; graph and levels are then unspecified.
pub fn insert_rounds<R: Threads + Sync, G: Gate + Sync, L: Ledger>(
    rt: &R,
    alloc: Global,
    gate: &G,
    workers: u32,
    th: &Thresholds,
    adj: &mut LevelAdj,
    added: &[Edge],
    steps: &mut Steps<L>,
) -> Result<Tally, AllocError>
    requires few_workers { (1 ≤ workers) × (workers ≤ 64) }
    requires within { IsWithin th.now adj.old.graph adj.old.levels }
    requires upper { (v : ℕ) → v < adj.old.graph.vertices → MeetsUpper th.now.profile adj.old.graph adj.old.levels v }
    requires ascending { EdgesFrom adj.old.graph.vertices 0 0 added.now }
    requires absent { AllAbsent adj.old.graph added.now }
    requires room { length adj.old.graph.edges + length added.now ≤ MAX_EDGES }
    ensures graph { OnOk result (adj.new.graph ≡ with_edges adj.old.graph added.now) }
    ensures raised { OnOk result (IsRaised th.now.profile adj.new.graph adj.old.levels adj.new.levels) }
    ensures moves { IfOk result (λ tally. tally.moves ≡ moved_count adj.new.graph.vertices adj.old.levels adj.new.levels) }
    ensures cost { let rises = effort adj.new.graph adj.old.levels adj.new.levels adj.new.graph.vertices in
        OnOk result (steps.new ≤ steps.old + (4 * length added.now + rises)) }
{
    // Evidence for the check: the vertices of the graph are at most `MAX_VERTICES`.
    let _n = adj.graph().vertices();
    let mut work = InsertionWork::new(alloc, th, adj)?;
    let rounds = Rounds::new(rt, alloc, gate, workers);
    let moves = insert_phase(&rounds, th, adj, &mut work, added, steps)?;
    Ok(Tally {
        moves: moves.len() as u32,
    })
}
