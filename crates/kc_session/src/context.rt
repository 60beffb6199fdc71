//! The values that a session, its phases and its readers share.
ghost use Rattle.std.specs.Prelude.{◌≤◌};
ghost use Rattle.kc_graph.specs.declared.limits.TheConstants.{MAX_VERTICES};

use crate::progress::Progress;
use crate::report::Report;
use kc_levels::Profile;
use kc_rounds::Rounds;

/// The values that stay the same while the batches of one input are run, and the progress of the batches.
///
/// They are the workers of phases with the allocator and the gate, and the text for batches. The number of vertices and
/// the profile are those of the graph. Readers look at the progress.
#[derive(Drop)]
pub struct SessionContext<'a, R, G> {
    /// The workers of phases, the allocator, and the gate that gets the spots of phases and readers.
    pub rounds: Rounds<'a, R, G>,
    /// The number of vertices, 1 to `MAX_VERTICES`.
    pub n: u32,
    /// The profile of the levels' thresholds.
    pub profile: Profile,
    /// The text that is written for each batch.
    pub report: Report,
    /// The progress of the batches.
    pub progress: Progress,
    ghost few_vertices: { (1 ≤ n) × (n ≤ MAX_VERTICES) },
}
