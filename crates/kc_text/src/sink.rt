//! A receiver of written bytes. It takes any number of bytes at a time, and counts the failed writes.
ghost use Rattle.std.specs.Prelude.{◌≡◌, ℕ, ◌<◌, ◌≤◌, length, take, List, Option, OnErr, OnOk, IfOk};
ghost use Rattle.std.specs.Io.KnownBytes.{append_known};
ghost use Rattle.kc_text.specs.Causes.{Rose};
ghost use Rattle.kc_text.specs.Writing.{IsProperPrefix};

use crate::Failed;

/// A destination of bytes, which takes them in pieces of any size.
pub trait Sink {
    /// The bytes taken so far. None: the sink doesn't tell its bytes.
    ghost taken: { Self → Option (List ℕ) };

    /// The number of failed writes. The count never falls, and stands still at the last value of its type.
    ghost faults: { Self → ℕ };

    /// Takes some of the first bytes, at least one, and returns their number. After `Failed` none was taken.
    fn write(&mut self, bytes: &[u8]) -> Result<usize, Failed>
        requires { 0 < length bytes.now }
        ensures some { IfOk result (λ k. 0 < k) }
        ensures bound { IfOk result (λ k. k ≤ length bytes.now) }
        ensures taken { IfOk result (λ k. taken self.new ≡ append_known (taken self.old) (take k bytes.now)) }
        ensures failed { OnErr result (taken self.new ≡ taken self.old) }

        // The write fails only if the count rose.
        ensures cause { OnErr result (Rose (faults self.old) (faults self.new)) }
        ensures quiet { OnOk result (faults self.new ≡ faults self.old) };

    /// Passes on the bytes taken so far, if the sink holds any of them back. Otherwise does nothing.
    fn flush(&mut self) -> Result<(), Failed>
        ensures taken { taken self.new ≡ taken self.old }

        // The flush fails only if the count rose.
        ensures cause { OnErr result (Rose (faults self.old) (faults self.new)) }
        ensures quiet { OnOk result (faults self.new ≡ faults self.old) }
    {
        Ok(())
    }
}

/// Writes all bytes, in as many calls as the sink needs. After `Failed` the sink took a proper prefix of the bytes.
pub fn put_all<K: Sink>(sink: &mut K, bytes: &[u8]) -> Result<(), Failed>
    ensures all { OnOk result (K.taken sink.new ≡ append_known (K.taken sink.old) bytes.now) }
    ensures part { OnErr result (IsProperPrefix (K.taken sink.old) (K.taken sink.new) bytes.now) }
    ensures cause { OnErr result (Rose (K.faults sink.old) (K.faults sink.new)) }
    ensures quiet { OnOk result (K.faults sink.new ≡ K.faults sink.old) }
{
    let mut at = 0;
    while at < bytes.len() {
        at += sink.write(&bytes[at..])?;
    }
    Ok(())
}
