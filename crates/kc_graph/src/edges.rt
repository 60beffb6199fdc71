//! An edge: two vertices, the lesser one first.

ghost use Rattle.std.specs.Prelude.{ℕ, ◌<◌};

use std::marker::Model;

/// An edge between two different vertices. Contracts see it as the pair of the two.
#[derive(Clone, Copy, Debug, PartialEq, Eq, PartialOrd, Ord)]
pub struct Edge {
    /// The lesser vertex: `a < b`.
    pub a: u32,
    /// The greater vertex.
    pub b: u32,
}

impl Model for Edge {
    ghost Value = { ℕ × ℕ };

    ghost view = { λ e. (e.a, e.b) };

    ghost invariant = { λ e. e.a < e.b };

    ghost inverse = { λ p. record { a = p.0; b = p.1 } };
}
