//! The three changes of a graph that a batch may ask for.

/// One asked change of a graph, as it is given: `u` and `v` may stand in either order, be equal, or be no vertices. The
/// edge may be there already or not.
#[derive(Clone, Copy, Debug, PartialEq, Eq)]
pub enum Item {
    /// Insert the edge between `u` and `v`.
    Insert { u: u32, v: u32 },
    /// Delete the edge between `u` and `v`.
    Delete { u: u32, v: u32 },
    /// Isolate `v`: delete all its edges.
    Isolate { v: u32 },
}
