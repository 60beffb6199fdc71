//! The end of a text: a line for each vertex with its level and counts, and the last line.
ghost use Rattle.std.specs.Prelude.{◌≡◌, false};
ghost use Rattle.kc_text.specs.Writing.{Appends, WriteCause};
ghost use Rattle.kc_report.specs.Buffer.{IsCleared};
ghost use Rattle.kc_report.specs.VertexLines.{tail_text};

use kc_engine::Engine;
use kc_graph::Crew;
use kc_report::write_level_tail;
use kc_text::{LineBuf, SendFault, Sink};
use std::thread::Threads;

/// Writes what is after all batches (`tail_text`): a line for each vertex of the engine's graph, and the last line.
///
/// The engine has not halted: the levels and the counts of neighbours are the engine's. `WriteFault` comes only after a
/// failed write. After it and after `Memory` the sink took a prefix of the lines.
pub fn write_tail<R: Threads + Sync, K: Sink>(
    crew: &Crew<'_, R>,
    buf: &mut LineBuf,
    sink: &mut K,
    engine: &Engine,
) -> Result<(), SendFault>
    requires running { engine.now.halted ≡ false }
    ensures text { Appends (K.taken sink.old) (K.taken sink.new) (tail_text engine.now.state.profile engine.now.state.graph engine.now.state.levels) result }
    ensures buffer { IsCleared buf.new result }
    ensures cause { WriteCause (K.faults sink.old) (K.faults sink.new) result }
{
    // Threads share the counts alone, not the engine.
    let adj = engine.adj();
    let counts = |v| (adj.at_least_own(v), adj.at_least_below(v));
    let levels = engine.levels().as_slice();
    write_level_tail(
        crew,
        buf,
        sink,
        engine.graph(),
        engine.thresholds(),
        levels,
        counts,
    )
}
