//! The faults of a document that is read whole.
ghost use Rattle.std.specs.Prelude.{◌≡◌};

use crate::{LineFault, Reason};
use std::alloc::AllocError;
use thiserror::Error;

/// Why a document couldn't be read whole.
#[derive(Drop, Debug, Error)]
pub enum DocumentFault {
    /// A read of the source failed.
    #[error("a read of the source failed")]
    ReadFault,
    /// The first line that doesn't fit, and the reason: `LineLong`, `BadLine`, `BadVertex`, `Truncated` or
    /// `InputLimit`.
    #[error("the document is refused at line {line}")]
    Refused { line: u32, reason: Reason },
    /// There was no memory for a line, or for what the document says.
    #[error(transparent)]
    Memory(AllocError),
}

impl From<LineFault> for DocumentFault {
    ghost use Rattle.kc_text.specs.Causes.{fault_of};

    ghost from_gives = { λ f s. s ≡ fault_of f };

    fn from(fault: LineFault) -> DocumentFault {
        match fault {
            LineFault::ReadFault => DocumentFault::ReadFault,
            LineFault::Memory(e) => DocumentFault::Memory(e),
        }
    }
}

impl From<AllocError> for DocumentFault {
    ghost use Rattle.kc_text.specs.declared.document_fault.DocumentFault.TheVariants.{Memory};

    ghost from_gives = { λ e s. s ≡ Memory e };

    fn from(fault: AllocError) -> DocumentFault {
        DocumentFault::Memory(fault)
    }
}
