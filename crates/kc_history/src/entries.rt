//! An entry of a history: moves and edges that take effect together.
ghost use Rattle.std.specs.Prelude.{◌≡◌, ◌++◌, ◌∷◌, [], OnOk, OnErr};

use crate::{Move, Moves};
use kc_graph::{Edge, Edges, List};
use std::alloc::{AllocError, Global};

/// A change of a graph with levels that takes effect at once.
#[derive(Drop)]
pub struct Entry {
    /// The number of the entry's phase, 1 to `MAX_PHASE`.
    pub phase: u32,
    /// The least vertex of the group that moves, or `None` if no vertex moves.
    pub label: Option<u32>,
    /// Whether the edges come in; else they leave.
    pub add: bool,
    /// The moves.
    pub moves: Moves,
    /// The edges that come in or leave.
    pub edges: Edges,
}

// Returns a list without items, in the memory of another.
fn emptied<T: Drop>(list: List<T>) -> List<T>
    ensures { result ≡ [] }
{
    let mut items = list.into_vec();
    items.clear();
    List::from_vec(items)
}

impl Entry {
    /// Makes an entry without moves and edges. Takes no memory.
    pub fn new(alloc: Global, phase: u32, label: Option<u32>, add: bool) -> Entry
        ensures { result ≡ record { phase = phase; label = label; add = add; moves = []; edges = [] } }
    {
        Entry {
            phase,
            label,
            add,
            moves: Moves::new(alloc),
            edges: Edges::new(alloc),
        }
    }

    /// Takes the memory of an entry that is no longer needed, for the moves and edges that are to come. This entry has
    /// none yet, and is unchanged.
    pub fn take_memory(&mut self, spare: Entry)
        requires moves { self.old.moves ≡ [] }
        requires edges { self.old.edges ≡ [] }
        ensures { self.new ≡ self.old }
    {
        self.moves = emptied(spare.moves);
        self.edges = emptied(spare.edges);
    }

    /// Appends a move. Fails only if memory runs out; the entry is then unchanged.
    pub fn push_move(&mut self, m: Move) -> Result<(), AllocError>
        ensures ok { OnOk result (self.new ≡ record self.old { moves = self.old.moves ++ m ∷ [] }) }
        ensures err { OnErr result (self.new ≡ self.old) }
    {
        self.moves.push(m)
    }

    /// Appends an edge. Fails only if memory runs out; the entry is then unchanged.
    ///
    /// The first edge makes room for three edges for every two moves, so append the moves before. Most groups have no
    /// more edges, and their lists never grow.
    pub fn push_edge(&mut self, e: Edge) -> Result<(), AllocError>
        ensures ok { OnOk result (self.new ≡ record self.old { edges = self.old.edges ++ e ∷ [] }) }
        ensures err { OnErr result (self.new ≡ self.old) }
    {
        if self.edges.is_empty() {
            let moves = self.moves.len();
            self.edges
                .reserve_exact(moves.saturating_add(moves.div_ceil(2)))?;
        }
        self.edges.push(e)
    }
}
