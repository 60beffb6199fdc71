//! The numbers and the profile that an engine keeps from its opening on.

use kc_levels::Profile;

/// The parameters with which an engine is opened.
#[derive(Clone, Copy, Debug, PartialEq, Eq)]
pub struct Shape {
    /// The profile of the thresholds.
    pub profile: Profile,
    /// The number of vertices, 1 to `MAX_VERTICES`.
    pub n: u32,
    /// The most workers that a phase may use, 1 to 64. Graph, levels and answers don't depend on their number.
    pub workers: u32,
    /// The number of phases before, 0 to `MAX_PHASE`: the first phase has the next number.
    pub phases_before: u32,
    /// The most edges that the graph may have after a batch, 0 to `MAX_EDGES`.
    pub edge_limit: u32,
}
