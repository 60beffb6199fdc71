//! The lines of an exact text: the first two, and one with the coreness of each vertex.
ghost use Rattle.std.specs.Prelude.{◌≡◌, [], ◌∷◌, ◌++◌, OnOk};
ghost use Rattle.kc_text.specs.Writing.{Appends, WriteCause};
ghost use Rattle.kc_report.specs.Buffer.{IsCleared};
ghost use Rattle.kc_report.specs.Lines.{exact_head_text, coreness_line};

use crate::head::write_opening;
use kc_levels::Estimate;
use kc_text::{LineBuf, SendFault, Sink};
use std::alloc::AllocError;

/// Writes the first two lines of an exact text for `n` vertices (`exact_head_text`), one after the other; any number is
/// written.
///
/// `WriteFault` comes only from a failed write. After `WriteFault` or `Memory` the sink took a prefix of the two lines.
/// If the first line fails, the second isn't tried.
pub fn write_exact_head<K: Sink>(buf: &mut LineBuf, sink: &mut K, n: u32) -> Result<(), SendFault>
    ensures text { Appends (K.taken sink.old) (K.taken sink.new) (exact_head_text n) result }
    ensures buffer { IsCleared buf.new result }
    ensures cause { WriteCause (K.faults sink.old) (K.faults sink.new) result }
{
    write_opening(buf, sink, b"kcore-exact 1", n)
}

fn fill_coreness(
    buf: &mut LineBuf,
    v: u32,
    coreness: u32,
    estimate: Estimate,
) -> Result<(), AllocError>
    ensures { OnOk result (buf.new ++ 10 ∷ [] ≡ coreness_line v coreness estimate) }
{
    buf.clear();
    buf.put_named(b"vertex ", v)?;
    buf.put_named(b" coreness ", coreness)?;
    buf.put_named(b" low ", estimate.lo)?;
    buf.put_named(b" est ", estimate.est)?;
    buf.put_named(b" high ", estimate.hi)
}

/// Writes the line of vertex `v` in an exact text (`coreness_line`): its coreness, and the bounds and the estimate that
/// its level gives.
///
/// Any numbers are written; the caller makes sure that they are those of `v`. `WriteFault` comes only from a failed
/// write. After `WriteFault` or `Memory` the sink took a prefix of the line.
pub fn write_coreness<K: Sink>(
    buf: &mut LineBuf,
    sink: &mut K,
    v: u32,
    coreness: u32,
    estimate: Estimate,
) -> Result<(), SendFault>
    ensures text { Appends (K.taken sink.old) (K.taken sink.new) (coreness_line v coreness estimate) result }
    ensures buffer { IsCleared buf.new result }
    ensures cause { WriteCause (K.faults sink.old) (K.faults sink.new) result }
{
    fill_coreness(buf, v, coreness, estimate)?;
    buf.send_to(sink)
}
