//! The result of a batch in an engine: the entries of its phases, and the number of moves in them.
ghost use Rattle.std.specs.Prelude.{◌≡◌, ◌+◌, ◌<◌, ◌^◌, [], ◌∷◌, ◌++◌, IfOk};

use crate::plan_lists::PhasePlans;
use kc_groups::PhasePlan;
use std::alloc::{AllocError, Global};

/// The result of a batch.
#[derive(Drop)]
pub struct BatchPlan {
    /// The entries of the batch's phases. The edges that leave are the first phase, and those that come in the last
    /// one. A phase without edges is left out.
    pub phases: PhasePlans,
    /// The number of moves in the batch's phases, at most twice the number of vertices. A vertex moves once in a phase
    /// if its level after the phase is another than before.
    pub moves: u32,
}

impl BatchPlan {
    // Makes a plan without phases.
    pub(crate) fn empty(alloc: Global) -> BatchPlan
        ensures { result ≡ record { phases = []; moves = 0 } }
    {
        BatchPlan {
            phases: PhasePlans::new(alloc),
            moves: 0,
        }
    }

    // Makes a plan of one phase, with `moves` moves.
    pub(crate) fn of_phase(
        alloc: Global,
        plan: PhasePlan,
        moves: u32,
    ) -> Result<BatchPlan, AllocError>
        ensures { IfOk result (λ batch. batch ≡ record { phases = plan ∷ []; moves = moves }) }
    {
        let mut phases = PhasePlans::new(alloc);
        phases.push(plan)?;
        Ok(BatchPlan { phases, moves })
    }

    // Returns the phases, and after them those of another plan.
    pub(crate) fn and_then(self, later: BatchPlan) -> Result<BatchPlan, AllocError>
        requires { self.moves + later.moves < 2 ^ 32 }
        ensures { IfOk result (λ batch. batch ≡ record { phases = self.phases ++ later.phases; moves = self.moves + later.moves }) }
    {
        let moves = self.moves + later.moves;
        let mut phases = self.phases;
        phases.append(later.phases)?;
        Ok(BatchPlan { phases, moves })
    }
}
