//! The places of a run at which a gate is called.

/// A place that a run reaches. Pieces, readers and asks are counted from 0, phases from 1.
#[derive(Clone, Copy, Debug, PartialEq, Eq)]
pub enum Spot {
    /// The start of one piece of a round's candidates.
    Piece { index: u32 },
    /// Before the group with this label takes effect in this phase.
    Publishing { phase: u32, label: u32 },
    /// Before a reader asks a question.
    Asking { reader: u32, ask: u32 },
    /// After a reader's question was answered.
    Replied { reader: u32, ask: u32 },
}
