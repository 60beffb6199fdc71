//! The fallen vertices of a deletion phase, from which the phase's moves are made at its end.

ghost use Rattle.std.specs.Prelude.{◌≡◌, ◌<◌, [], IfOk, OnOk, length};
ghost use Rattle.kc_levels.specs.Moved.{moves_between};
ghost use Rattle.kc_delete.specs.private.Fallen.{AreFallen, NotesFall};

use kc_levels::{Levels, Moves, moves_of};
use std::alloc::{AllocError, Global};

/// The vertices that fell in a phase, each once.
#[derive(Drop)]
pub struct Fallen {
    /// The levels before the phase.
    pub before: Levels,
    /// The fallen vertices.
    pub vertices: Vec<u32>,
}

impl Fallen {
    /// Notes that v falls from this level. Fails only if memory runs out.
    pub fn note(&mut self, v: u32, from: u16) -> Result<(), AllocError>
        requires { v < length self.old.before }
        ensures before { self.new.before ≡ self.old.before }
        ensures noted { OnOk result (NotesFall self.old.before v from self.old.vertices.items self.new.vertices.items) }
    {
        if self.before.get(v) == from {
            self.vertices.push(v)?;
        }
        Ok(())
    }

    /// Returns the moves of the fallen vertices to these levels, ascending. Afterwards nothing is left of the phase.
    /// Fails only if memory runs out.
    pub fn take_moves(&mut self, alloc: Global, after: &Levels) -> Result<Moves, AllocError>
        requires sized { length after.now ≡ length self.old.before }
        requires fallen { AreFallen self.old.before after.now self.old.vertices.items }
        ensures moves { IfOk result (λ moves. moves ≡ moves_between (length self.old.before) self.old.before after.now) }
        ensures before { OnOk result (self.new.before ≡ after.now) }
        ensures nobody { OnOk result (self.new.vertices.items ≡ []) }
    {
        let moves = moves_of(alloc, &self.before, after, &mut self.vertices)?;
        self.before.follow(&moves);
        self.vertices.clear();
        Ok(moves)
    }
}
