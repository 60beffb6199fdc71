//! A meeting: a vertex that rises and a neighbour above it. The sweep looks at both when it is at the neighbour's
//! level.

use std::marker::Model;

/// A vertex that rises, and a neighbour of it that stood above it when it began to. Contracts see it as the pair of the
/// two.
#[derive(Clone, Copy)]
pub struct Meeting {
    /// The vertex that rises.
    pub riser: u32,
    /// The neighbour, which stood above it.
    pub other: u32,
}

impl Model for Meeting {
    ghost use Rattle.std.specs.Prelude.{ℕ};

    ghost Value = { ℕ × ℕ };

    ghost view = { λ m. (m.riser, m.other) };

    ghost inverse = { λ p. record { riser = p.0; other = p.1 } };
}
