//! The options with which a service is opened.
ghost use Rattle.std.specs.Prelude.{◌≡◌, OnOk, IfErr};
ghost use Rattle.kc_graph.specs.declared.limits.TheConstants.{MAX_EDGES};
ghost use Rattle.kc_service.specs.Opening.{IsInRange, RangeCause};
ghost use Rattle.kc_levels.specs.declared.profile.Profile.TheVariants.{One};

use crate::faults::OpenFault;
use kc_graph::{MAX_EDGES, MAX_VERTICES};
use kc_levels::Profile;

/// The most workers that a service may have.
pub const MAX_WORKERS: u32 = 64;

/// The options with which a service is opened. [`Options::for_vertices`] has the usual numbers.
#[derive(Clone, Copy, Debug, PartialEq, Eq)]
pub struct Options {
    /// The number of vertices, 1 to `MAX_VERTICES`. They are numbered from 0.
    pub vertices: u32,
    /// The profile of the levels' thresholds: `One` is cheaper, and `Two` has closer bounds.
    pub profile: Profile,
    /// The most threads that a batch may use, 1 to `MAX_WORKERS`. No answer depends on this number.
    pub workers: u32,
    /// The most edges that the graph may have after a batch, 0 to `MAX_EDGES`.
    pub edge_limit: u32,
}

impl Options {
    /// Returns the options of a service with this many vertices: profile `One`, one worker, and up to `MAX_EDGES`
    /// edges.
    pub fn for_vertices(vertices: u32) -> Options
        ensures { result ≡ record { vertices = vertices; profile = One; workers = 1; edge_limit = MAX_EDGES } }
    {
        Options {
            vertices,
            profile: Profile::One,
            workers: 1,
            edge_limit: MAX_EDGES,
        }
    }

    // Fails if a number is out of its range, with the first such number.
    pub(crate) fn check(&self) -> Result<(), OpenFault>
        ensures ok { OnOk result (IsInRange self.now) }
        ensures err { IfErr result (RangeCause self.now) }
    {
        let Options {
            vertices,
            profile: _,
            workers,
            edge_limit,
        } = *self;
        if vertices == 0 || vertices > MAX_VERTICES {
            return Err(OpenFault::Vertices { vertices });
        }
        if workers == 0 || workers > MAX_WORKERS {
            return Err(OpenFault::Workers { workers });
        }
        if edge_limit > MAX_EDGES {
            return Err(OpenFault::EdgeLimit { edge_limit });
        }
        Ok(())
    }
}
