//! The workspace that deletion phases share, one after another.

ghost use Rattle.std.specs.Prelude.{◌≡◌, ◌<◌, All, IfOk, length};
ghost use Rattle.kc_delete.specs.Working.{Follows, IsReady};

use crate::fallen::Fallen;
use crate::waiting::Waiting;
use kc_adj::LevelAdj;
use kc_levels::Moves;
use kc_rounds::FirstRound;
use std::alloc::{AllocError, Global};
use std::marker::Model;

/// The workspace of deletion phases, kept between phases, so that a phase costs what it changes and not what the graph
/// has.
///
/// Contracts see a `Working`. Between phases it is ready for the graph (`IsReady`): it has a copy of the levels, and
/// nothing is left of a phase. An insertion phase changes the levels, and `follow` brings the copy up to date. Takes 3
/// bytes a vertex.
#[derive(Drop)]
pub struct DeletionWork {
    // The vertices that wait for a test in the phase: none between phases.
    pub(crate) waiting: Waiting,
    // The levels before the phase and the vertices that fell in it. Between phases the levels are those of the graph,
    // and no vertex has fallen.
    pub(crate) fallen: Fallen,
    // Whether there has been no round with candidates yet.
    pub(crate) first: FirstRound,
}

impl Model for DeletionWork {
    ghost use Rattle.kc_delete.specs.Working.{Working};

    ghost Value = { Working };

    ghost view = { λ w. record { before = w.fallen.before; waits = w.waiting; fallen = w.fallen.vertices.items } };
}

impl DeletionWork {
    /// Makes a workspace that is ready for this graph. Costs a pass over the vertices. Fails only if memory runs out.
    pub fn new(alloc: Global, adj: &LevelAdj) -> Result<Self, AllocError>
        ensures { IfOk result (IsReady adj.now) }
    {
        let n = adj.graph().vertices();
        Ok(DeletionWork {
            waiting: Waiting::new(alloc, n)?,
            fallen: Fallen {
                before: adj.levels().copy(alloc)?,
                vertices: Vec::new(alloc),
            },
            first: FirstRound::new(),
        })
    }

    /// Makes the workspace ready for the graph after an insertion phase, if it was ready before (`Follows`). The moves
    /// are those of the phase. Costs a step for each. Takes no memory.
    pub fn follow(&mut self, moves: &Moves)
        requires { All (λ m. m.vertex < length self.old.before) moves.now }
        ensures { Follows moves.now self.old self.new }
    {
        self.fallen.before.follow(moves);
    }
}
