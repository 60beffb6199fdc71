//! The three workspaces that an engine keeps between phases: of falls, of rises, and of groups.
ghost use Rattle.std.specs.Prelude.{◌≡◌, IfOk};
ghost use Rattle.kc_engine.specs.Readiness.{AreReady};

use kc_adj::LevelAdj;
use kc_delete::DeletionWork;
use kc_groups::GroupWork;
use kc_insert::{InsertionWork, Layout};
use kc_levels::Thresholds;
use std::alloc::{AllocError, Global};

// The workspaces of an engine's phases, kept between phases and ready for its graph (`AreReady`). So a phase costs what
// it changes, and not what the graph has. Takes 13 bytes a vertex.
#[derive(Drop)]
pub(crate) struct PhaseWork {
    // The workspace of deletion phases, with a copy of the levels.
    pub(crate) deletion: DeletionWork,
    // The workspace of insertion phases, with copies of the levels and of a count for each vertex.
    pub(crate) insertion: InsertionWork,
    // The workspace of plans, with the number of vertices at each vertex, as no vertex moves between phases.
    pub(crate) groups: GroupWork,
}

impl PhaseWork {
    // Makes the workspaces, ready for this graph. Costs a pass over the vertices and one over the levels up to the top.
    pub(crate) fn new(
        alloc: Global,
        th: &Thresholds,
        adj: &LevelAdj,
    ) -> Result<PhaseWork, AllocError>
        requires scale { th.now.vertices ≡ adj.now.graph.vertices }
        ensures { IfOk result (λ work. AreReady th.now.profile adj.now work) }
    {
        Ok(PhaseWork {
            deletion: DeletionWork::new(alloc, adj)?,
            insertion: InsertionWork::with_layout(alloc, th, adj, Layout::whole())?,
            groups: GroupWork::new(alloc, adj.graph().vertices())?,
        })
    }
}
