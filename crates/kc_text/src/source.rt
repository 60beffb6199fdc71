//! A provider of an input's bytes. It gives any number of bytes at a time, and counts the failed reads.
ghost use Rattle.std.specs.Prelude.{◌≡◌, ℕ, ◌<◌, ◌≤◌, length, take, List, Option, OnErr, OnOk, IfOk};
ghost use Rattle.std.specs.Io.KnownBytes.{prepend_known, IsAtEnd};
ghost use Rattle.kc_text.specs.Causes.{Rose};

use thiserror::Error;

/// A read of a source or a write to a sink failed.
#[derive(Clone, Copy, Debug, PartialEq, Eq, Error)]
#[error("a read or a write failed")]
pub struct Failed;

/// An origin of bytes, which gives them in pieces of any size.
pub trait Source {
    /// The bytes not yet read. None: the source doesn't tell its bytes.
    ghost left: { Self → Option (List ℕ) };

    /// The number of failed reads. The count never falls, and stands still at the last value of its type.
    ghost faults: { Self → ℕ };

    /// Reads some bytes into the front of `buf`, and returns their number. `Ok(0)` is the end of the input. After
    /// `Failed` no byte is lost, and the call may be made again.
    fn read(&mut self, buf: &mut [u8]) -> Result<usize, Failed>
        requires { 0 < length buf.old }
        ensures bound { IfOk result (λ k. k ≤ length buf.new) }
        ensures given { IfOk result (λ k. left self.old ≡ prepend_known (take k buf.new) (left self.new)) }
        ensures end { IfOk result (λ k. k ≡ 0 → IsAtEnd (left self.new)) }
        ensures failed { OnErr result (left self.new ≡ left self.old) }

        // The read fails only if the count rose.
        ensures cause { OnErr result (Rose (faults self.old) (faults self.new)) }
        ensures quiet { OnOk result (faults self.new ≡ faults self.old) };
}
