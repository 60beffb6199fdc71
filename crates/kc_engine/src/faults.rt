//! The reasons for which an engine refuses a batch, and which of them halt it.

use std::alloc::AllocError;
use thiserror::Error;

/// Why a batch wasn't planned.
#[derive(Debug, Drop, Error)]
pub enum EngineFault {
    /// There was no memory for an earlier batch, and the engine takes no more batches.
    #[error("the engine has halted")]
    Halted,
    /// The graph would have this many edges, more than the engine's limit.
    #[error("the graph would have {edges} edges")]
    EdgeLimit { edges: u32 },
    /// The batch's last phase would have this number, above `MAX_PHASE`.
    #[error("the last phase would have the number {phase}")]
    PhaseLimit { phase: u32 },
    /// There was no memory for the batch, and the engine has halted.
    #[error(transparent)]
    Memory(AllocError),
}
