//! The end of a text: a line for each vertex, and the last line.
ghost use Rattle.std.specs.Prelude.{◌<◌, ◌++◌, ℕ, List};
ghost use Rattle.kc_text.specs.Writing.{Appends, WriteCause};
ghost use Rattle.kc_report.specs.Buffer.{IsCleared};
ghost use Rattle.kc_report.specs.Lines.{end_line};
ghost use Rattle.kc_report.specs.VertexLines.{vertex_lines};

use crate::head::put_end;
use kc_text::{LineBuf, SendFault, Sink};

/// Lines of vertices: the text of each vertex's line, and how it is written.
pub trait VertexLines {
    /// The line of a vertex; its line feed is the last byte.
    ghost line: { Self → ℕ → List ℕ };

    /// The vertices that have a line.
    ghost has_line: { Self → ℕ → Type 0 };

    /// Writes the line of `v`, which has one, whatever the buffer holds before.
    ///
    /// `WriteFault` comes only from a failed write. After `WriteFault` or `Memory` the sink took a prefix of the line.
    /// The buffer is empty afterwards, but after `Memory` it may hold anything.
    fn write_line<K: Sink>(&self, buf: &mut LineBuf, sink: &mut K, v: u32) -> Result<(), SendFault>
        requires vertex { has_line self.now v }
        ensures text { Appends (K.taken sink.old) (K.taken sink.new) (line self.now v) result }
        ensures buffer { IsCleared buf.new result }
        ensures cause { WriteCause (K.faults sink.old) (K.faults sink.new) result };
}

/// Writes the end of a text: the lines of the vertices below `n` in ascending order (`vertex_lines`), and the last line
/// (`end_line`).
///
/// Each of these vertices has a line. `WriteFault` comes only from a failed write. After `WriteFault` or `Memory` the
/// sink took a prefix of the lines.
pub fn write_tail<L: VertexLines, K: Sink>(
    buf: &mut LineBuf,
    sink: &mut K,
    n: u32,
    lines: &L,
) -> Result<(), SendFault>
    requires vertices { (v : ℕ) → v < n → L.has_line lines.now v }
    ensures text { Appends (K.taken sink.old) (K.taken sink.new) (vertex_lines (L.line lines.now) n ++ end_line) result }
    ensures buffer { IsCleared buf.new result }
    ensures cause { WriteCause (K.faults sink.old) (K.faults sink.new) result }
{
    for v in 0..n {
        lines.write_line(buf, sink, v)?;
    }
    put_end(buf, sink)
}
