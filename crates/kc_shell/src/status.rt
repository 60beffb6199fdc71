//! The ways in which a call of a program ends.
ghost use Rattle.std.specs.Prelude.{◌≡◌};

/// The way in which a call of a program ended.
#[derive(Clone, Copy, Debug, PartialEq, Eq)]
pub enum Status {
    /// The call ended and refused nothing.
    Done,
    /// The call ended, and refused its input or a part of it.
    Refused,
    /// The words aren't a command line of the program; nothing was read or written.
    Usage,
    /// A read failed.
    ReadFault,
    /// A write failed.
    WriteFault,
    /// There was no memory.
    Memory,
}

impl Status {
    ghost use Rattle.kc_shell.specs.Statuses.{exit_number, unflushed};

    /// Returns the exit number of the program, 0 to 5.
    pub fn exit_number(self) -> u8
        ensures { result ≡ exit_number self }
    {
        match self {
            Status::Done => 0,
            Status::Refused => 1,
            Status::Usage => 2,
            Status::ReadFault => 3,
            Status::WriteFault => 4,
            Status::Memory => 5,
        }
    }

    /// Returns the status if the output couldn't be flushed after the call: a call that ran to its end has failed to
    /// write.
    pub fn unflushed(self) -> Status
        ensures { result ≡ unflushed self }
    {
        match self {
            Status::Done | Status::Refused => Status::WriteFault,
            _ => self,
        }
    }
}
