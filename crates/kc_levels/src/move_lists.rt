//! Moves one after another.

use crate::moves::Move;
use kc_graph::List;

/// Moves one after another. Contracts see them as a list, and say where the vertices ascend.
pub type Moves = List<Move>;
