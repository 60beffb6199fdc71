//! The values that a header fixes for its batches, and the length that a batch may have.

use kc_levels::Profile;

/// The rules for the batches of an input.
#[derive(Clone, Copy, Debug)]
pub struct Rules {
    /// The number of vertices. The vertices of all items are below it.
    pub n: u32,
    /// The profile of the header. Under the second a batch may isolate vertices.
    pub profile: Profile,
    /// The most items of one batch.
    pub item_limit: u32,
}
