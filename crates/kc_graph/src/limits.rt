//! The greatest numbers of vertices, of edges, and of items of a batch.

/// The greatest number of vertices of a [`Graph`](crate::Graph).
pub const MAX_VERTICES: u32 = 16_777_216;

/// The greatest number of edges of a [`Graph`](crate::Graph).
pub const MAX_EDGES: u32 = 16_777_216;

/// The greatest number of items of one batch that [`clean`](crate::clean) takes.
pub const MAX_ITEMS: u32 = 1_048_576;
