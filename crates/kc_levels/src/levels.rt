//! The level of each vertex of a graph.
ghost use Rattle.std.specs.Prelude.{◌≡◌, ℕ, ◌<◌, List, All, IfOk, length, slice_index, slice_set, replicate};
ghost use Rattle.kc_levels.specs.Moved.{moves_between};

use crate::Moves;
use std::alloc::{AllocError, Global};
use std::marker::Model;

/// A level for each vertex. Contracts see the list of the levels.
#[derive(Drop)]
pub struct Levels {
    // The level of each vertex, from vertex 0 on.
    items: Vec<u16>,
}

impl Model for Levels {
    ghost use Rattle.std.specs.Prelude.{List, ℕ};

    ghost Value = { List ℕ };

    ghost view = { λ x. x.items.items };
}

impl Levels {
    /// Returns `n` levels 0. Fails only if memory runs out.
    pub fn zeros(alloc: Global, n: u32) -> Result<Levels, AllocError>
        ensures { IfOk result (λ x. x ≡ replicate n 0) }
    {
        Ok(Levels {
            items: vec![in alloc; 0u16; n as usize]?,
        })
    }

    /// Returns a copy. Fails only if memory runs out.
    pub fn copy(&self, alloc: Global) -> Result<Levels, AllocError>
        ensures { IfOk result (λ x. x ≡ self.now) }
    {
        Ok(Levels {
            items: self.items.as_slice().to_vec(alloc)?,
        })
    }

    /// Returns the level of `v`, a vertex of the list.
    pub fn get(&self, v: u32) -> u16
        requires { v < length self.now }
        ensures { result ≡ slice_index self.now v }
    {
        self.items[v as usize]
    }

    /// Puts `v` on `level`, and leaves every other vertex where it is.
    pub fn set(&mut self, v: u32, level: u16)
        requires { v < length self.old }
        ensures { self.new ≡ slice_set self.old v level }
    {
        self.items[v as usize] = level;
    }

    /// Puts each vertex of the moves on its new level. If the moves lead from this list to another, it becomes that
    /// one.
    pub fn follow(&mut self, moves: &Moves)
        requires { All (λ m. m.vertex < length self.old) moves.now }
        ensures sized { length self.new ≡ length self.old }
        ensures follows { (y : List ℕ) → length y ≡ length self.old → moves.now ≡ moves_between (length self.old) self.old y → self.new ≡ y }
    {
        for m in moves.as_slice() {
            self.set(m.vertex, m.new);
        }
    }

    /// Returns the levels by vertex, for loops that read many of them.
    pub fn as_slice(&self) -> &[u16]
        ensures { result.now ≡ self.now }
    {
        self.items.as_slice()
    }
}
