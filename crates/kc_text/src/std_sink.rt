//! A writer of std as a sink.
ghost use Rattle.std.specs.Prelude.{◌≡◌, ◌<◌, ◌≤◌, length, take, None, IfOk, OnErr, OnOk, true, false};
ghost use Rattle.std.specs.Io.KnownBytes.{append_known};
ghost use Rattle.kc_text.specs.Causes.{Rose};
ghost use Rattle.kc_text.specs.Telling.{IsTold, told_of};

use crate::{Failed, Sink, Told, Untold};
use std::io::{ErrorKind, Write};
use std::marker::{Model, PhantomData};

/// A sink over a writer, such as the program's standard output. If `K` says so, the sink tells the bytes that its
/// writer tells. By default it tells none.
///
/// Each error of the writer is a fault, except that a write that a signal interrupted is made again. A write that takes
/// nothing is a fault too.
///
/// A contract sees the sink as an `Outlet`: the bytes taken, if the sink tells them, and the count of faults. It also
/// sees whether the writer was flushed since the last write.
#[derive(Drop)]
pub struct StdSink<W: Write, K: Told = Untold> {
    // The destination of the bytes.
    writer: W,
    // The number of failed calls, without interrupted ones.
    faults: u64,
    // Whether the writer was flushed since the last write.
    is_flushed: bool,
    // Whether the sink tells its bytes.
    told: PhantomData<K>,
}

impl<W: Write, K: Told> Model for StdSink<W, K> {
    ghost use Rattle.std.specs.Prelude.{◌≡◌, true};
    ghost use Rattle.kc_text.specs.Causes.{Outlet};
    ghost use Rattle.kc_text.specs.Telling.{IsTold, told_of};

    ghost Value = { Outlet };

    ghost view = { λ s. record { taken = told_of K.told (W.contents s.writer); faults = s.faults; is_flushed = s.is_flushed } };

    ghost invariant = { λ s. K.told ≡ true → IsTold (W.contents s.writer) };
}

impl<W: Write + Drop> StdSink<W, Untold> {
    /// Returns a sink that writes to `writer` and tells no bytes.
    pub fn new(writer: W) -> Self
        ensures { result ≡ record { taken = None; faults = 0; is_flushed = true } }
    {
        StdSink::telling(writer)
    }
}

impl<W: Write + Drop, K: Told> StdSink<W, K> {
    /// Returns a sink that writes to `writer`. If `K` says that the sink tells its bytes, the writer has to tell its
    /// own, and the sink tells the same bytes.
    pub fn telling(writer: W) -> Self
        requires { K.told ≡ true → IsTold (W.contents writer) }
        ensures { result ≡ record { taken = told_of K.told (W.contents writer); faults = 0; is_flushed = true } }
    {
        StdSink {
            writer,
            faults: 0,
            is_flushed: true,
            told: PhantomData,
        }
    }

    /// Returns the writer, which has the bytes that the sink took. Bytes that the writer holds back aren't flushed.
    pub fn into_writer(self) -> W
        ensures tells { K.told ≡ true → IsTold (W.contents result) }
        ensures taken { told_of K.told (W.contents result) ≡ self.taken }
    {
        let StdSink { writer, .. } = self;
        writer
    }
}

impl<W: Write + Drop, K: Told> Sink for StdSink<W, K> {
    ghost taken = { λ s. s.taken };

    ghost faults = { λ s. s.faults };

    /// Passes bytes to the writer. Afterwards the sink isn't flushed, whatever the answer.
    #[tactic(auto, using(crate::proofs::Telling::written, crate::proofs::Telling::written_tells, crate::proofs::Telling::kept, crate::proofs::Telling::kept_tells))]
    fn write(&mut self, bytes: &[u8]) -> Result<usize, Failed>
        // The clauses of the trait.
        ensures some { IfOk result (λ k. 0 < k) }
        ensures bound { IfOk result (λ k. k ≤ length bytes.now) }
        ensures taken { IfOk result (λ k. self.new.taken ≡ append_known self.old.taken (take k bytes.now)) }
        ensures failed { OnErr result (self.new.taken ≡ self.old.taken) }
        ensures cause { OnErr result (Rose self.old.faults self.new.faults) }
        ensures quiet { OnOk result (self.new.faults ≡ self.old.faults) }

        // The sink isn't flushed afterwards.
        ensures unflushed { self.new.is_flushed ≡ false }
    {
        self.is_flushed = false;
        for _turn in 0..u64::MAX {
            match self.writer.write(bytes) {
                Ok(count) if count > 0 => return Ok(count),
                Err(e) if e.kind() == ErrorKind::Interrupted => {}
                _ => break,
            }
        }
        self.faults = self.faults.saturating_add(1);
        Err(Failed)
    }

    /// Passes on the bytes that the writer holds back.
    ///
    /// Over a buffered writer, bytes that the sink has taken may still be in the program. A program makes this call
    /// before it waits and after its last write. After `Failed` bytes may be lost, so the program treats it as a failed
    /// write.
    fn flush(&mut self) -> Result<(), Failed>
        // The clauses of the trait.
        ensures taken { self.new.taken ≡ self.old.taken }
        ensures cause { OnErr result (Rose self.old.faults self.new.faults) }

        // Whether the sink is flushed afterwards.
        ensures flushed { OnOk result (self.new ≡ record self.old { is_flushed = true }) }
        ensures kept { OnErr result (self.new.is_flushed ≡ self.old.is_flushed) }
    {
        if self.writer.flush().is_err() {
            self.faults = self.faults.saturating_add(1);
            return Err(Failed);
        }
        self.is_flushed = true;
        Ok(())
    }
}
