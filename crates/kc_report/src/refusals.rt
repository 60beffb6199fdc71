//! The lines that say what was refused, where and why: an input, a batch, and a batch in a text without lines for
//! batches.
ghost use Rattle.std.specs.Prelude.{◌++◌};
ghost use Rattle.kc_text.specs.Writing.{Appends, WriteCause};
ghost use Rattle.kc_report.specs.Buffer.{IsCleared};
ghost use Rattle.kc_report.specs.Lines.{refusal_line, header_refused_line, refused_line, note_line};

use kc_text::{LineBuf, Reason, SendFault, Sink};
use std::alloc::Global;

// Appends the line and the reason of a fault to what the buffer holds, and sends all that as one line.
fn send_refusal<K: Sink>(
    buf: &mut LineBuf,
    sink: &mut K,
    line: u32,
    reason: Reason,
) -> Result<(), SendFault>
    ensures text { Appends (K.taken sink.old) (K.taken sink.new) (buf.old ++ refusal_line line reason) result }
    ensures buffer { IsCleared buf.new result }
    ensures cause { WriteCause (K.faults sink.old) (K.faults sink.new) result }
{
    buf.put_named(b"refused line ", line)?;
    buf.put(b" ")?;
    buf.put(reason.word())?;
    buf.send_to(sink)
}

/// Writes the one line of a text whose input is refused (`refusal_line`): the line and the reason of the first fault.
///
/// Lines of the input are numbered from 1; any number is written. `WriteFault` comes only from a failed write. After
/// `WriteFault` or `Memory` the sink took a prefix of the line.
pub fn write_refusal<K: Sink>(
    buf: &mut LineBuf,
    sink: &mut K,
    line: u32,
    reason: Reason,
) -> Result<(), SendFault>
    ensures text { Appends (K.taken sink.old) (K.taken sink.new) (refusal_line line reason) result }
    ensures buffer { IsCleared buf.new result }
    ensures cause { WriteCause (K.faults sink.old) (K.faults sink.new) result }
{
    buf.clear();
    send_refusal(buf, sink, line, reason)
}

/// Writes the one line of a run whose header is refused at this line (`header_refused_line`). Numbers and faults are as
/// for `write_refusal`.
pub fn write_header_refused<K: Sink>(
    buf: &mut LineBuf,
    sink: &mut K,
    line: u32,
) -> Result<(), SendFault>
    ensures text { Appends (K.taken sink.old) (K.taken sink.new) (header_refused_line line) result }
    ensures buffer { IsCleared buf.new result }
    ensures cause { WriteCause (K.faults sink.old) (K.faults sink.new) result }
{
    write_refusal(buf, sink, line, Reason::Header)
}

/// Writes the line of a refused batch (`refused_line`): its number, and the line and the reason of its first fault.
///
/// Batches and lines are numbered from 1; any numbers are written. `WriteFault` comes only from a failed write. After
/// `WriteFault` or `Memory` the sink took a prefix of the line.
pub fn write_refused<K: Sink>(
    _alloc: Global,
    buf: &mut LineBuf,
    sink: &mut K,
    number: u32,
    line: u32,
    reason: Reason,
) -> Result<(), SendFault>
    ensures text { Appends (K.taken sink.old) (K.taken sink.new) (refused_line number line reason) result }
    ensures buffer { IsCleared buf.new result }
    ensures cause { WriteCause (K.faults sink.old) (K.faults sink.new) result }
{
    buf.clear();
    buf.put_named(b"batch ", number)?;
    buf.put(b" ")?;
    send_refusal(buf, sink, line, reason)
}

/// Writes the note of a refused batch (`note_line`): its line of a run as a comment, before a text that has no lines
/// for batches. Numbers and faults are as for `write_refused`.
pub fn write_note<K: Sink>(
    buf: &mut LineBuf,
    sink: &mut K,
    number: u32,
    line: u32,
    reason: Reason,
) -> Result<(), SendFault>
    ensures text { Appends (K.taken sink.old) (K.taken sink.new) (note_line number line reason) result }
    ensures buffer { IsCleared buf.new result }
    ensures cause { WriteCause (K.faults sink.old) (K.faults sink.new) result }
{
    buf.clear();
    buf.put_named(b"# batch ", number)?;
    buf.put(b" ")?;
    send_refusal(buf, sink, line, reason)
}
