//! The faults that stop a session: of the source, of the sink, or of memory.
ghost use Rattle.std.specs.Prelude.{◌≡◌};

use kc_batch::AwaitFault;
use kc_text::SendFault;
use std::alloc::AllocError;
use thiserror::Error;

/// The reasons for which a session stopped before its end.
#[derive(Drop, Debug, Error)]
pub enum SessionFault {
    /// A read of the source failed.
    #[error("a read of the source failed")]
    ReadFault,
    /// A write to the sink failed.
    #[error("a write to the sink failed")]
    WriteFault,
    /// There was no memory.
    #[error(transparent)]
    Memory(AllocError),
}

impl From<AllocError> for SessionFault {
    ghost use Rattle.kc_session.specs.declared.fault.SessionFault.TheVariants.{Memory};

    ghost from_gives = { λ e s. s ≡ Memory e };

    fn from(fault: AllocError) -> SessionFault {
        SessionFault::Memory(fault)
    }
}

impl From<AwaitFault> for SessionFault {
    ghost use Rattle.kc_session.specs.Faults.{fault_of_await};

    ghost from_gives = { λ f s. s ≡ fault_of_await f };

    fn from(fault: AwaitFault) -> SessionFault {
        match fault {
            AwaitFault::ReadFault => SessionFault::ReadFault,
            AwaitFault::WriteFault => SessionFault::WriteFault,
            AwaitFault::Memory(e) => SessionFault::Memory(e),
        }
    }
}

impl From<SendFault> for SessionFault {
    ghost use Rattle.kc_session.specs.Faults.{fault_of_send};

    ghost from_gives = { λ f s. s ≡ fault_of_send f };

    fn from(fault: SendFault) -> SessionFault {
        match fault {
            SendFault::WriteFault => SessionFault::WriteFault,
            SendFault::Memory(e) => SessionFault::Memory(e),
        }
    }
}
