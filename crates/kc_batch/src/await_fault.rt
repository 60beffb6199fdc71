//! The faults of a wait for a batch.

use std::alloc::AllocError;
use thiserror::Error;

/// The reasons for which no batch came in a call that flushes a sink before each read.
#[derive(Drop, Debug, Error)]
pub enum AwaitFault {
    /// A read of the source failed.
    #[error("a read of the source failed")]
    ReadFault,
    /// A flush of the sink failed.
    #[error("a flush of the sink failed")]
    WriteFault,
    /// There was no memory for a line or for the items.
    #[error(transparent)]
    Memory(AllocError),
}
