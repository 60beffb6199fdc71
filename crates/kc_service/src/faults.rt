//! The faults of a service's calls: arguments out of range, a halted service, refused batches, failed writes, no
//! memory.
ghost use Rattle.std.specs.Prelude.{◌≡◌};
ghost use Rattle.kc_service.specs.private.Faults.{fault_of};

use kc_engine::EngineFault;
use std::alloc::AllocError;
use thiserror::Error;

/// Why a service wasn't opened.
#[derive(Debug, Drop, Error)]
pub enum OpenFault {
    /// The number of vertices is 0 or above `MAX_VERTICES`.
    #[error("a service can't have {vertices} vertices")]
    Vertices { vertices: u32 },
    /// The number of workers is 0 or above `MAX_WORKERS`.
    #[error("a service can't have {workers} workers")]
    Workers { workers: u32 },
    /// The edge limit is above `MAX_EDGES`.
    #[error("a service can't have {edge_limit} edges")]
    EdgeLimit { edge_limit: u32 },
    /// There was no memory.
    #[error(transparent)]
    Memory(AllocError),
}

/// Why a batch wasn't applied.
#[derive(Debug, Drop, Error)]
pub enum ApplyFault {
    /// An earlier batch ran out of memory while it was applied. Readers still answer, from the state before that batch.
    #[error("the service has halted")]
    Halted,
    /// The batch has this number of items, more than `MAX_ITEMS`.
    #[error("{items} items are too many for a batch")]
    TooMany { items: usize },
    /// A vertex of the item at this index isn't a vertex of the graph. It is the first such item.
    #[error("a vertex of item {item} is out of range")]
    OutOfRange { item: usize },
    /// The graph would have this many edges, more than the edge limit.
    #[error("the graph would have {edges} edges")]
    EdgeLimit { edges: u32 },
    /// The batch's last phase would have this number, above `MAX_PHASE`.
    #[error("the last phase would have the number {phase}")]
    PhaseLimit { phase: u32 },
    /// There was no memory. Nothing changed, or the service has halted: `Service::has_halted` says which.
    #[error(transparent)]
    Memory(AllocError),
}

// Returns the fault for which an engine refused a batch, as one of the service.
pub(crate) fn fault_of(fault: EngineFault) -> ApplyFault
    ensures { result ≡ fault_of fault }
{
    match fault {
        EngineFault::Halted => ApplyFault::Halted,
        EngineFault::EdgeLimit { edges } => ApplyFault::EdgeLimit { edges },
        EngineFault::PhaseLimit { phase } => ApplyFault::PhaseLimit { phase },
        EngineFault::Memory(e) => ApplyFault::Memory(e),
    }
}

/// The service has halted: a batch ran out of memory while it was applied.
#[derive(Clone, Copy, Debug, Error)]
#[error("the service has halted")]
pub struct Halted;

/// Why there is no coreness.
#[derive(Debug, Drop, Error)]
pub enum CorenessFault {
    /// The service has halted.
    #[error("the service has halted")]
    Halted,
    /// There was no memory.
    #[error(transparent)]
    Memory(AllocError),
}

/// Why a certificate wasn't written whole.
#[derive(Debug, Drop, Error)]
pub enum CertificateFault {
    /// The service has halted, and nothing was written.
    #[error("the service has halted")]
    Halted,
    /// A write to the sink failed.
    #[error("a write to the sink failed")]
    WriteFault,
    /// There was no memory.
    #[error(transparent)]
    Memory(AllocError),
}
