//! Why the server stops before its end.
ghost use Rattle.std.specs.Prelude.{◌≡◌};

use kc_text::SendFault;
use std::alloc::AllocError;

/// Why the server stops applying and printing batches.
#[derive(Drop, Debug)]
pub enum Stop {
    /// A write to the sink failed, or there was no memory.
    Fault(SendFault),
    /// A drained item is neither an insertion nor a deletion, or has a vertex that the graph doesn't have.
    Stray,
}

impl From<AllocError> for Stop {
    ghost use Rattle.kc_text.specs.declared.buf.SendFault.TheVariants.{Memory};
    ghost use Rattle.kserve.specs.declared.fault.Stop.TheVariants.{Fault};

    ghost from_gives = { λ e s. s ≡ Fault (Memory e) };

    fn from(fault: AllocError) -> Stop {
        Stop::Fault(SendFault::Memory(fault))
    }
}

impl From<SendFault> for Stop {
    ghost use Rattle.kserve.specs.declared.fault.Stop.TheVariants.{Fault};

    ghost from_gives = { λ f s. s ≡ Fault f };

    fn from(fault: SendFault) -> Stop {
        Stop::Fault(fault)
    }
}
