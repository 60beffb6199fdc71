//! A buffer in which a line of text is composed, and from which it is sent.
ghost use Rattle.std.specs.Prelude.{◌≡◌, ◌+◌, ◌<◌, ◌++◌, ◌∷◌, [], OnErr, OnOk, IfErr, decimal};

use crate::{Failed, Sink, put_all};
use std::alloc::{AllocError, Global};
use std::marker::Model;
use thiserror::Error;

/// The reasons for which a text wasn't sent whole.
#[derive(Drop, Debug, Error)]
pub enum SendFault {
    /// A write to the sink failed.
    #[error("a write to the sink failed")]
    WriteFault,
    /// There was no memory for the line.
    #[error(transparent)]
    Memory(AllocError),
}

impl From<AllocError> for SendFault {
    ghost use Rattle.kc_text.specs.declared.buf.SendFault.TheVariants.{Memory};

    ghost from_gives = { λ e s. s ≡ Memory e };

    fn from(fault: AllocError) -> SendFault {
        SendFault::Memory(fault)
    }
}

/// A line that is composed piece by piece and then sent. The buffer keeps its memory from one line to the next. A
/// contract sees it as the list of its bytes.
#[derive(Drop, Debug)]
pub struct LineBuf {
    // The bytes appended since the last line was sent.
    bytes: Vec<u8>,
}

impl Model for LineBuf {
    ghost use Rattle.std.specs.Prelude.{List, ℕ};

    ghost Value = { List ℕ };

    ghost view = { λ b. b.bytes.items };
}

// Returns the ASCII digit of a number below 10.
fn digit(value: u32) -> u8
    requires { value < 10 }
    ensures { result ≡ 48 + value }
{
    b'0' + value as u8
}

impl LineBuf {
    ghost use Rattle.kc_text.specs.Writing.{Sends, WriteCause, KeptAfter};

    /// Makes an empty line. Takes no memory.
    pub fn new(alloc: Global) -> Self
        ensures { result ≡ [] }
    {
        LineBuf {
            bytes: Vec::new(alloc),
        }
    }

    /// Empties the line. The buffer keeps its memory.
    pub fn clear(&mut self)
        ensures { self.new ≡ [] }
    {
        self.bytes.clear();
    }

    /// Appends bytes. If there is no memory, the line stays as it was.
    #[inline(always)]
    pub fn put(&mut self, bytes: &[u8]) -> Result<(), AllocError>
        ensures ok { OnOk result (self.new ≡ self.old ++ bytes.now) }
        ensures err { OnErr result (self.new ≡ self.old) }
    {
        self.bytes.extend_from_slice(bytes)
    }

    // Appends a number of any length. It stands apart, so that shorter numbers are inlined where they are written.
    #[inline(never)]
    fn put_long(&mut self, value: u32) -> Result<(), AllocError>
        ensures ok { OnOk result (self.new ≡ self.old ++ decimal value) }
        ensures err { OnErr result (self.new ≡ self.old) }
    {
        let mut digits = itoa::Buffer::new();
        self.put(digits.format(value).as_bytes())
    }

    /// Appends a number in decimal digits, without leading zeros. If there is no memory, the line stays as it was.
    #[inline(always)]
    #[tactic(auto, using(std::proofs::lemmas::Fmt::decimal_digit, std::proofs::lemmas::Fmt::decimal_step))]
    pub fn put_number(&mut self, value: u32) -> Result<(), AllocError>
        ensures ok { OnOk result (self.new ≡ self.old ++ decimal value) }
        ensures err { OnErr result (self.new ≡ self.old) }
    {
        // Most levels and counts have one or two digits. They cost no buffer of their own, and a copy of known length.
        if value < 10 {
            return self.put(&[digit(value)]);
        }
        if value < 100 {
            return self.put(&[digit(value / 10), digit(value % 10)]);
        }
        self.put_long(value)
    }

    /// Appends a name, with its blanks, and a number in decimal digits, the form of many written lines. If there is no
    /// memory, the line may have the name alone, and isn't used again.
    #[inline(always)]
    pub fn put_named(&mut self, name: &[u8], value: u32) -> Result<(), AllocError>
        ensures { OnOk result (self.new ≡ (self.old ++ name.now) ++ decimal value) }
    {
        self.put(name)?;
        self.put_number(value)
    }

    /// Appends bytes, as `put` does. The line has its allocator from `new`.
    pub fn text(&mut self, _alloc: Global, bytes: &[u8]) -> Result<(), AllocError>
        ensures ok { OnOk result (self.new ≡ self.old ++ bytes.now) }
        ensures err { OnErr result (self.new ≡ self.old) }
    {
        self.put(bytes)
    }

    /// Appends a number, as `put_number` does. The line has its allocator from `new`.
    pub fn number(&mut self, _alloc: Global, value: u32) -> Result<(), AllocError>
        ensures ok { OnOk result (self.new ≡ self.old ++ decimal value) }
        ensures err { OnErr result (self.new ≡ self.old) }
    {
        self.put_number(value)
    }

    /// Returns the bytes of the line.
    pub fn as_bytes(&self) -> &[u8]
        ensures { result.now ≡ self.now }
    {
        self.bytes.as_slice()
    }

    /// Sends the line with a line feed after it, and empties it. After `WriteFault` the sink took a proper prefix of
    /// the line, and the line is empty too. After `Memory` nothing was sent, and the line stays as it was.
    pub fn send_to<K: Sink>(&mut self, sink: &mut K) -> Result<(), SendFault>
        ensures sent { Sends (K.taken sink.old) (K.taken sink.new) (self.old ++ 10 ∷ []) result }
        ensures ok { OnOk result (self.new ≡ []) }
        ensures err { IfErr result (KeptAfter self.old self.new) }
        ensures cause { WriteCause (K.faults sink.old) (K.faults sink.new) result }
    {
        if self.bytes.push(b'\n').is_err() {
            return Err(SendFault::Memory(AllocError));
        }
        let sent = put_all(sink, &self.bytes);
        self.clear();
        match sent {
            Ok(()) => Ok(()),
            Err(Failed) => Err(SendFault::WriteFault),
        }
    }

    /// Sends the line, as `send_to` does. The line has its allocator from `new`.
    pub fn send<K: Sink>(&mut self, _alloc: Global, sink: &mut K) -> Result<(), SendFault>
        ensures sent { Sends (K.taken sink.old) (K.taken sink.new) (self.old ++ 10 ∷ []) result }
        ensures ok { OnOk result (self.new ≡ []) }
        ensures err { IfErr result (KeptAfter self.old self.new) }
        ensures cause { WriteCause (K.faults sink.old) (K.faults sink.new) result }
    {
        self.send_to(sink)
    }
}
