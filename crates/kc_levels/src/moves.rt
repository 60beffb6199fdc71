//! A move: a vertex goes from one level to another.

/// A vertex with its level before and after.
#[derive(Clone, Copy, Debug, PartialEq, Eq)]
pub struct Move {
    /// The vertex.
    pub vertex: u32,
    /// Its level before.
    pub old: u16,
    /// Its level after.
    pub new: u16,
}
