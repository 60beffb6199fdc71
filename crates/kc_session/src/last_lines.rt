//! The lines after all batches: the replies of each reader, the level and counts of each vertex, and the last line.
ghost use Rattle.std.specs.Prelude.{◌≡◌, ◌<◌, ◌^◌, false, length};
ghost use Rattle.kc_text.specs.Writing.{Appends, WriteCause};
ghost use Rattle.kc_report.specs.Buffer.{IsCleared};
ghost use Rattle.kc_report.specs.VertexLines.{tail_text};
ghost use Rattle.kc_session.specs.ReaderLines.{reader_lines};

use kc_engine::Engine;
use kc_graph::Crew;
use kc_history::Replies;
use kc_report::{write_level_tail, write_reader};
use kc_text::{LineBuf, SendFault, Sink};
use std::alloc::Global;
use std::thread::Threads;

/// Writes a line for the replies of each reader, in order; readers are numbered from 0 (`reader_lines`).
///
/// `WriteFault` comes only from a failed write. After it, and after `Memory`, the sink took a prefix of the lines.
/// Lines after a failed one aren't tried.
pub fn write_readers<K: Sink>(
    alloc: Global,
    buf: &mut LineBuf,
    sink: &mut K,
    replies: &[Replies],
) -> Result<(), SendFault>
    requires few { length replies.now < 2 ^ 32 }
    ensures text { Appends (K.taken sink.old) (K.taken sink.new) (reader_lines 0 replies.now) result }
    ensures buffer { IsCleared buf.new result }
    ensures cause { WriteCause (K.faults sink.old) (K.faults sink.new) result }
{
    // The line is empty after this call even if there are no readers.
    buf.clear();
    for i in 0..replies.len() {
        write_reader(alloc, buf, sink, i as u32, replies[i].as_slice())?;
    }
    Ok(())
}

/// Writes the text after all batches and readers (`tail_text`). That is a line for each vertex of the engine's graph,
/// with its level among `levels`, and the last line.
///
/// The engine has not halted. The levels are its own, as a last pass read them, and the counts of neighbours are the
/// engine's. `WriteFault` comes only from a failed write. After it, and after `Memory`, the sink took a prefix of the
/// lines.
pub fn write_tail<R: Threads + Sync, K: Sink>(
    crew: &Crew<'_, R>,
    buf: &mut LineBuf,
    sink: &mut K,
    engine: &Engine,
    levels: &[u16],
) -> Result<(), SendFault>
    requires running { engine.now.halted ≡ false }
    requires levels { levels.now ≡ engine.now.state.levels }
    ensures text { Appends (K.taken sink.old) (K.taken sink.new) (tail_text engine.now.state.profile engine.now.state.graph levels.now) result }
    ensures buffer { IsCleared buf.new result }
    ensures cause { WriteCause (K.faults sink.old) (K.faults sink.new) result }
{
    // Threads share the counts alone, not the engine.
    let adj = engine.adj();
    let counts = |v| (adj.at_least_own(v), adj.at_least_below(v));
    write_level_tail(
        crew,
        buf,
        sink,
        engine.graph(),
        engine.thresholds(),
        levels,
        counts,
    )
}
