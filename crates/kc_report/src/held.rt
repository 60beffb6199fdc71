//! Lines that a buffer holds back until they are worth a write.
ghost use Rattle.std.specs.Prelude.{◌≡◌, [], IfErr};
ghost use Rattle.kc_text.specs.declared.buf.SendFault.TheVariants.{WriteFault};
ghost use Rattle.kc_text.specs.Writing.{Appends, WriteCause};

use kc_text::{Failed, LineBuf, SendFault, Sink, put_all};

/// The number of bytes from which on held lines are sent. A write for each line costs a fifth of the instructions of
/// the lines of vertices.
pub(crate) const BLOCK: usize = 4_096;

/// Sends what the buffer holds, as it is, and empties the buffer.
///
/// Fails only with `WriteFault`, from a failed write. The sink then took a prefix.
pub fn send_held<K: Sink>(buf: &mut LineBuf, sink: &mut K) -> Result<(), SendFault>
    ensures text { Appends (K.taken sink.old) (K.taken sink.new) buf.old result }
    ensures buffer { buf.new ≡ [] }
    ensures fault { IfErr result (λ f. f ≡ WriteFault) }
    ensures cause { WriteCause (K.faults sink.old) (K.faults sink.new) result }
{
    let sent = put_all(sink, buf.as_bytes());
    buf.clear();
    match sent {
        Ok(()) => Ok(()),
        Err(Failed) => Err(SendFault::WriteFault),
    }
}
