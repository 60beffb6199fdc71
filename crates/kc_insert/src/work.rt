//! The workspace that insertion phases share, one after another.

ghost use Rattle.std.specs.Prelude.{◌≡◌, ◌+◌, ◌<◌, ℕ, All, IfOk, OnErr, OnOk, length};
ghost use Rattle.kc_levels.specs.LevelList.{IsBelow, IsWithin};
ghost use Rattle.kc_levels.specs.Moved.{moves_between};
ghost use Rattle.kc_insert.specs.private.Ranges.{Forgot};
ghost use Rattle.kc_insert.specs.Ranges.{IsIn};
ghost use Rattle.kc_insert.specs.private.Sweeping.{HaveMoved, lift_cost};
ghost use Rattle.kc_insert.specs.Working.{IsReady, StaysReady};

use crate::counted::Counted;
use crate::filing::{copy_ends, copy_rows};
use crate::layout::Layout;
use crate::ranges::Ranges;
use crate::rising::RisingLevels;
use crate::sweep::Sweep;
use kc_adj::{LevelAdj, Steps};
use kc_graph::{Crew, Edge};
use kc_levels::{Moves, Thresholds, moves_of};
use kc_rounds::{FirstRound, Gate, Rounds};
use std::alloc::{AllocError, Global};
use std::marker::Model;
use std::sync::ledger::Ledger;
use std::thread::Threads;

// The fewest edges of a long phase.
const LONG_PHASE: usize = 4_096;

// The ranges stay for one short phase for each of this number of vertices.
const SHORT_SHARE: u32 = 1_024;

/// What insertion phases work with, kept between them, so that a phase costs what it changes and not what the graph
/// has.
///
/// Contracts see it as a `Working`. Between phases it is ready for the graph (`IsReady`). It then has copies of the
/// levels and of the counts, and nothing is left of a phase. After a deletion phase `follow` brings the copies up to
/// date. Takes 6 bytes a vertex, and 4 more while `adapt` cuts. Takes 48 for each range and each level up to the top,
/// and 48 for each pair of ranges.
#[derive(Drop)]
pub struct InsertionWork {
    // How far the sweep of the phase has come. Between phases no vertex rises, waits or is to be met.
    pub(crate) sweep: Sweep,
    // The number of short phases since the last long one, at most one for each `SHORT_SHARE` vertices.
    short_phases: u32,
}

impl Model for InsertionWork {
    ghost use Rattle.kc_insert.specs.Working.{Working};

    ghost Value = { Working };

    ghost view = { λ w. record { levels = w.sweep.levels.stored; ranges = w.sweep.ranges } };
}

impl InsertionWork {
    /// Makes a workspace that is ready for this graph. The thresholds are for its number of vertices.
    ///
    /// Costs a pass over the vertices, and for each range one over the levels up to the top. Fails only if memory runs
    /// out.
    pub fn new(alloc: Global, th: &Thresholds, adj: &LevelAdj) -> Result<Self, AllocError>
        requires scale { th.now.vertices ≡ adj.now.graph.vertices }
        ensures { IfOk result (λ work. IsReady th.now.profile adj.now work) }
    {
        InsertionWork::with_layout(alloc, th, adj, Layout::of(adj.graph().vertices()))
    }

    /// Does what `new` does, with the vertices cut as by this layout.
    pub fn with_layout(
        alloc: Global,
        th: &Thresholds,
        adj: &LevelAdj,
        layout: Layout,
    ) -> Result<Self, AllocError>
        requires scale { th.now.vertices ≡ adj.now.graph.vertices }
        ensures { IfOk result (λ work. IsReady th.now.profile adj.now work) }
    {
        // Evidence for the check: the vertices of the graph are at most `MAX_VERTICES`.
        let _n = adj.graph().vertices();
        Ok(InsertionWork {
            sweep: Sweep {
                levels: RisingLevels {
                    stored: adj.levels().copy(alloc)?,
                    level: 0,
                },
                ranges: Ranges::new(alloc, layout, adj.own_counts(), th.top() + 1)?,
                first: FirstRound::new(),
            },
            short_phases: 0,
        })
    }

    /// Cuts the vertices into the ranges that fit a phase with these edges. The workspace stays ready for the graph.
    ///
    /// Ranges let threads share a long phase, and cost a short one more than they save. The first long phase, of at
    /// least 4,096 edges, cuts 32,768 vertices or more, the same number of ranges for each worker. With one worker it
    /// does so from 262,144 vertices on. After one short phase for each 1,024 vertices in a row, the next short one
    /// makes one range again. So going back costs no more than was saved.
    ///
    /// If the ranges become others, this costs a pass over the vertices, and for each range one over the levels up to
    /// the top. The old ranges are given back after the new ones are made. Fails only if memory runs out; the workspace
    /// is then as before.
    pub fn adapt<R: Threads + Sync, G: Gate + Sync>(
        &mut self,
        rounds: &Rounds<R, G>,
        th: &Thresholds,
        adj: &LevelAdj,
        edges: &[Edge],
    ) -> Result<(), AllocError>
        requires within { IsWithin th.now adj.now.graph adj.now.levels }
        requires ready { IsReady th.now.profile adj.now self.old }
        ensures ready { IsReady th.now.profile adj.now self.new }
        ensures fault { OnErr result (self.new ≡ self.old) }
    {
        let n = adj.graph().vertices();
        let layout = if edges.len() >= LONG_PHASE {
            self.short_phases = 0;
            Layout::for_workers(n, rounds.workers())
        } else if self.short_phases < n / SHORT_SHARE {
            self.short_phases += 1;
            return Ok(());
        } else {
            Layout::whole()
        };
        if layout == self.sweep.ranges.layout {
            return Ok(());
        }
        let levels = th.top() + 1;
        self.sweep.ranges = Ranges::new(rounds.alloc(), layout, adj.own_counts(), levels)?;
        Ok(())
    }

    /// Makes the workspace ready for the graph after a deletion phase, if it was ready before (`StaysReady`). The edges
    /// were taken out, and the moves are those of the phase.
    ///
    /// Costs two looks an edge, and one for each moved vertex and each of its neighbours. Takes no memory.
    pub fn follow(&mut self, adj: &LevelAdj, removed: &[Edge], moves: &Moves)
        requires levels { length self.old.levels ≡ adj.now.graph.vertices }
        requires vertices { (v : ℕ) → v < adj.now.graph.vertices → IsIn self.old.ranges v }
        requires edges { All (λ e. e.1 < adj.now.graph.vertices) removed.now }
        requires moves { All (λ m. m.vertex < adj.now.graph.vertices) moves.now }
        ensures { StaysReady adj.now removed.now moves.now self.old self.new }
    {
        // Evidence for the check: each vertex has a level.
        let _levels = adj.levels();
        let fresh = Counted {
            graph: adj.graph(),
            counts: adj.own_counts(),
        };
        self.sweep.levels.stored.follow(moves);
        copy_ends(&mut self.sweep.ranges, fresh.counts, removed);
        copy_rows(&mut self.sweep.ranges, fresh, moves.as_slice());
    }
}

/// Gives the moves of the vertices that rose in a phase, ascending, and puts each of them on its new level in the
/// graph. Afterwards the ranges have forgotten the phase. Fails only if memory runs out.
pub fn take_moves<R: Threads + Sync, G: Gate + Sync, L: Ledger>(
    rounds: &Rounds<R, G>,
    adj: &mut LevelAdj,
    sweep: &mut Sweep,
    steps: &mut Steps<L>,
) -> Result<Moves, AllocError>
    requires sized { length sweep.old.levels.stored ≡ adj.old.graph.vertices }
    requires above { IsBelow adj.old.graph.vertices adj.old.levels sweep.old.levels.stored }
    requires moved { HaveMoved adj.old.levels sweep.old.levels.stored sweep.old.ranges }
    ensures moves { IfOk result (λ moves. moves ≡ moves_between adj.old.graph.vertices adj.old.levels sweep.old.levels.stored) }
    ensures lifted { OnOk result (adj.new ≡ record adj.old { levels = sweep.old.levels.stored }) }
    ensures levels { OnOk result (sweep.new.levels ≡ sweep.old.levels) }
    ensures forgot { OnOk result (Forgot sweep.old.ranges sweep.new.ranges) }
    ensures cost { OnOk result (steps.new ≡ steps.old + lift_cost adj.old.graph sweep.old.ranges) }
{
    // Evidence for the check: each vertex has a level.
    let _levels = adj.levels();
    let alloc = rounds.alloc();
    let new = &sweep.levels.stored;
    let mut risen = sweep.ranges.risen(alloc)?;
    let moves = moves_of(alloc, adj.levels(), new, &mut risen)?;
    let crew = Crew::new(rounds.runtime(), rounds.alloc(), rounds.workers());
    adj.par_lift_all(&crew, &risen, new, steps)?;
    sweep.ranges.forget(alloc);
    Ok(moves)
}
