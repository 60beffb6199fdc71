//! A sink that takes all bytes and keeps none.
ghost use Rattle.std.specs.Prelude.{◌≡◌, ◌<◌, length, None, IsOkAnd};

use crate::{Failed, Sink};

/// A sink that takes all bytes of each write and forgets them. It doesn't tell its bytes, and never fails.
#[derive(Clone, Copy, Debug, PartialEq, Eq)]
pub struct NullSink;

impl NullSink {
    /// Makes the sink. Takes no memory.
    pub fn new() -> Self {
        NullSink
    }
}

impl Sink for NullSink {
    ghost taken = { λ _. None };

    ghost faults = { λ _. 0 };

    fn write(&mut self, bytes: &[u8]) -> Result<usize, Failed>
        requires { 0 < length bytes.now }
        ensures { IsOkAnd result (λ k. k ≡ length bytes.now) }
    {
        Ok(bytes.len())
    }
}
