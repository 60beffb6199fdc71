//! The first two lines of a run and of other texts, and the last line.
ghost use Rattle.kc_text.specs.Writing.{Appends, WriteCause};
ghost use Rattle.kc_report.specs.Buffer.{IsCleared};
ghost use Rattle.kc_report.specs.Lines.{opening_text, head_text, end_line};

use kc_text::{LineBuf, SendFault, Sink};
use std::alloc::Global;

/// Writes the first two lines of a text with `n` vertices (`opening_text`), one after the other. The first has the
/// words that say what text it is, the second the number. Any words and any number are written.
///
/// `WriteFault` comes only from a failed write. After `WriteFault` or `Memory` the sink took a prefix of the two lines.
/// If the first line fails, the second isn't tried.
pub fn write_opening<K: Sink>(
    buf: &mut LineBuf,
    sink: &mut K,
    words: &[u8],
    n: u32,
) -> Result<(), SendFault>
    ensures text { Appends (K.taken sink.old) (K.taken sink.new) (opening_text words.now n) result }
    ensures buffer { IsCleared buf.new result }
    ensures cause { WriteCause (K.faults sink.old) (K.faults sink.new) result }
{
    buf.clear();
    buf.put(words)?;
    buf.send_to(sink)?;
    buf.put_named(b"vertices ", n)?;
    buf.send_to(sink)
}

/// Writes the first two lines of a run with `n` vertices (`head_text`), one after the other; any number is written.
///
/// `WriteFault` comes only from a failed write. After `WriteFault` or `Memory` the sink took a prefix of the two lines.
/// If the first line fails, the second isn't tried.
pub fn write_head<K: Sink>(
    _alloc: Global,
    buf: &mut LineBuf,
    sink: &mut K,
    n: u32,
) -> Result<(), SendFault>
    ensures text { Appends (K.taken sink.old) (K.taken sink.new) (head_text n) result }
    ensures buffer { IsCleared buf.new result }
    ensures cause { WriteCause (K.faults sink.old) (K.faults sink.new) result }
{
    write_opening(buf, sink, b"kcore-run 1", n)
}

/// Writes the last line.
pub fn put_end<K: Sink>(buf: &mut LineBuf, sink: &mut K) -> Result<(), SendFault>
    ensures text { Appends (K.taken sink.old) (K.taken sink.new) end_line result }
    ensures buffer { IsCleared buf.new result }
    ensures cause { WriteCause (K.faults sink.old) (K.faults sink.new) result }
{
    buf.clear();
    buf.put(b"end")?;
    buf.send_to(sink)
}

/// Writes the last line of a run (`end_line`).
///
/// `WriteFault` comes only from a failed write. After `WriteFault` or `Memory` the sink took a prefix of the line.
pub fn write_end<K: Sink>(_alloc: Global, buf: &mut LineBuf, sink: &mut K) -> Result<(), SendFault>
    ensures text { Appends (K.taken sink.old) (K.taken sink.new) end_line result }
    ensures buffer { IsCleared buf.new result }
    ensures cause { WriteCause (K.faults sink.old) (K.faults sink.new) result }
{
    put_end(buf, sink)
}
