//! A deletion phase from end to end: edges leave, and vertices fall in rounds until each has enough neighbours to stand
//! on its level.

ghost use Rattle.std.specs.Prelude.{◌≡◌, ℕ, ◌<◌, ◌≤◌, OnOk, IfOk, length, true};
ghost use Rattle.kc_graph.specs.Numbers.{has_number};
ghost use Rattle.kc_graph.specs.Shape.{EdgesFrom, without_edges};
ghost use Rattle.kc_graph.specs.Changes.{AllPresent};
ghost use Rattle.kc_levels.specs.LevelList.{MeetsLower, IsLowered, IsWithin};
ghost use Rattle.kc_levels.specs.Moved.{moved_count, moves_between};
ghost use Rattle.kc_delete.specs.Working.{IsReady};
ghost use Rattle.kc_delete.specs.private.Capped.{graph_of, WaitsOrMeetsIn};
ghost use Rattle.kc_delete.specs.private.Settling.{ends_of};

use crate::capped::Capped;
use crate::settling::{add_if_short, lower_levels};
use crate::waiting::Waiting;
use crate::work::DeletionWork;
use kc_adj::{LevelAdj, Steps};
use kc_graph::{Crew, Edge};
use kc_levels::{Moves, Thresholds};
use kc_rounds::{Gate, Rounds};
use std::alloc::{AllocError, Global};
use std::sync::ledger::Ledger;
use std::thread::Threads;

/// The result of a phase.
#[derive(Clone, Copy, Debug, PartialEq, Eq)]
pub struct Tally {
    /// The number of vertices whose level is another one than before.
    pub moves: u32,
}

// Lets the ends of the edges wait that have too few neighbours to stand on their levels.
fn add_short_ends(
    capped: Capped<'_>,
    removed: &[Edge],
    waiting: &mut Waiting,
) -> Result<(), AllocError>
    requires sized { length waiting.old ≡ capped.adj.now.graph.vertices }
    requires ascending { EdgesFrom capped.adj.now.graph.vertices 0 0 removed.now }
    ensures sized { OnOk result (length waiting.new ≡ (graph_of capped.entry).vertices) }
    ensures looked { OnOk result ((v : ℕ) → has_number v (ends_of removed.now) ≡ true → WaitsOrMeetsIn capped.entry waiting.new v) }
{
    for e in removed {
        add_if_short(capped, e.a, waiting)?;
        add_if_short(capped, e.b, waiting)?;
    }
    Ok(())
}

/// Removes the edges and lowers the levels to the lowered list (`IsLowered`). These are the greatest levels that are at
/// most the old ones and meet the lower invariant in the new graph.
///
/// The graph is the old one without the edges (`without_edges`). Returns the moves (`moves_between`): each vertex that
/// fell with its old and its new level, ascending by vertex.
///
/// The thresholds are for this number of vertices, and no level is above their top. The lower invariant holds before
/// the call. `work` is ready for the graph (`IsReady`), and afterwards ready for the new one. `removed` is ascending,
/// and each of its edges is in the graph. The answer depends neither on the workers of `rounds` nor on the gate.
///
/// Fails only if memory runs out; graph, levels, `work` and steps are then unspecified.
///
/// A vertex with too few neighbours to stand on its level waits, and never twice at a time. It waits under the level
/// that it desired when it began to wait. A round is all vertices that wait under the lowest level. The threads of
/// `rounds`, at most one a worker, find those of them that have too few neighbours. These then fall one after another,
/// each to the level that it desires then. The first round in the life of `work` is cut into as many pieces as there
/// are workers. Later short rounds are cut into fewer.
///
/// Cost:
///
/// - a test of a vertex is O(1). It is made once in a round. Else it is made only if an edge left the vertex, or if a
///   neighbour fell that the vertex no longer counts;
/// - a vertex that begins to wait and one that falls cost a call of `LevelAdj::desired` each;
/// - a fall costs two more passes over the neighbours. No bound on the steps is promised: that a vertex seldom falls
///   twice isn't proved;
/// - the fallen vertices are put in order (`moves_of`);
/// - the levels up to the greatest one under which a vertex waited are passed over, once or more often.
///
/// A phase passes over all vertices only if a quarter of them fall, or if `LevelAdj::unlink_all` makes the counts
/// afresh. Memory is taken for the vertices that wait, for those of a round that fall, for the fallen vertices and for
/// the moves. The vertices that wait have a list for each level up to the greatest one under which a vertex waited.
/// While 2,048 edges or more are unlinked, each takes 8 bytes, and 8 more while the halves of the edges are sorted.
pub fn delete_phase<R: Threads + Sync, G: Gate + Sync, L: Ledger>(
    rounds: &Rounds<R, G>,
    th: &Thresholds,
    adj: &mut LevelAdj,
    work: &mut DeletionWork,
    removed: &[Edge],
    steps: &mut Steps<L>,
) -> Result<Moves, AllocError>
    requires within { IsWithin th.now adj.old.graph adj.old.levels }
    requires lower { (v : ℕ) → v < adj.old.graph.vertices → MeetsLower th.now.profile adj.old.graph adj.old.levels v }
    requires ready { IsReady adj.old work.old }
    requires ascending { EdgesFrom adj.old.graph.vertices 0 0 removed.now }
    requires present { AllPresent adj.old.graph removed.now }
    ensures graph { OnOk result (adj.new.graph ≡ without_edges adj.old.graph removed.now) }
    ensures lowered { OnOk result (IsLowered th.now.profile adj.new.graph adj.old.levels adj.new.levels) }
    ensures moves { IfOk result (λ moves. moves ≡ moves_between adj.new.graph.vertices adj.old.levels adj.new.levels) }
    ensures ready { OnOk result (IsReady adj.new work.new) }
{
    // Evidence for the check: the edges of the graph ascend, and each vertex has a level.
    let _n = adj.graph().vertices();
    let _levels = adj.levels();
    let crew = Crew::new(rounds.runtime(), rounds.alloc(), rounds.workers());
    adj.unlink_all(&crew, removed, steps)?;
    add_short_ends(Capped { adj, th }, removed, &mut work.waiting)?;
    lower_levels(rounds, th, adj, work, steps)?;
    let moves = work.fallen.take_moves(rounds.alloc(), adj.levels())?;
    Ok(moves)
}

/// Runs one phase with a workspace of its own (`delete_phase`), which costs a pass over all vertices besides.
///
/// `workers` is 1 to 64. Fails only if memory runs out; graph, levels and steps are then unspecified.
pub fn delete_rounds<R: Threads + Sync, G: Gate + Sync, L: Ledger>(
    rt: &R,
    alloc: Global,
    gate: &G,
    workers: u32,
    th: &Thresholds,
    adj: &mut LevelAdj,
    removed: &[Edge],
    steps: &mut Steps<L>,
) -> Result<Tally, AllocError>
    requires few_workers { (1 ≤ workers) × (workers ≤ 64) }
    requires within { IsWithin th.now adj.old.graph adj.old.levels }
    requires lower { (v : ℕ) → v < adj.old.graph.vertices → MeetsLower th.now.profile adj.old.graph adj.old.levels v }
    requires ascending { EdgesFrom adj.old.graph.vertices 0 0 removed.now }
    requires present { AllPresent adj.old.graph removed.now }
    ensures graph { OnOk result (adj.new.graph ≡ without_edges adj.old.graph removed.now) }
    ensures lowered { OnOk result (IsLowered th.now.profile adj.new.graph adj.old.levels adj.new.levels) }
    ensures moves { IfOk result (λ tally. tally.moves ≡ moved_count adj.new.graph.vertices adj.old.levels adj.new.levels) }
{
    // Evidence for the check: the vertices of the graph are at most `MAX_VERTICES`.
    let _n = adj.graph().vertices();
    let mut work = DeletionWork::new(alloc, adj)?;
    let rounds = Rounds::new(rt, alloc, gate, workers);
    let moves = delete_phase(&rounds, th, adj, &mut work, removed, steps)?;
    Ok(Tally {
        moves: moves.len() as u32,
    })
}
