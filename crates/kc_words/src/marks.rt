//! A mark as its three numbers, before packing.

/// The mark of a vertex.
#[derive(Clone, Copy, Debug, PartialEq, Eq)]
pub struct Mark {
    /// The level to which the vertex moves, or on which it is.
    pub new: u16,
    /// The label of its group: the group's least vertex.
    pub label: u32,
    /// The phase in which it moves, or 0 if it doesn't move.
    pub phase: u32,
}
