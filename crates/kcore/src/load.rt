//! The command `gen`: the counts of a generated load.
ghost use Rattle.std.specs.Prelude.{◌≡◌, ◌++◌, ◌∷◌, [], Some, OnOk};
ghost use Rattle.kc_text.specs.Writing.{Appends, WriteCause};
ghost use Rattle.kc_session.specs.private.Faults.{StepCause};
ghost use Rattle.kcore.specs.Inputs.{input_said};
ghost use Rattle.kcore.specs.LoadText.{IsLoadText, load_line};
ghost use Rattle.kcore.specs.private.Writing.{Writes};

use crate::inputs::open_input;
use crate::run::run_after;
use kc_rounds::{Gate, Rounds};
use kc_session::{Ended, GenSource, SessionFault};
use kc_text::{LineBuf, NullSink, SendFault, Sink};
use std::alloc::{AllocError, Global};
use std::thread::Threads;

fn fill_load(buf: &mut LineBuf, ended: &Ended) -> Result<(), AllocError>
    ensures { OnOk result (buf.new ++ 10 ∷ [] ≡ load_line ended.now) }
{
    buf.clear();
    buf.put_named(b"gen batches ", ended.batches)?;
    buf.put_named(b" refused ", ended.refused)?;
    buf.put_named(b" phases ", ended.phases)?;
    buf.put_named(b" groups ", ended.groups)?;
    buf.put_named(b" moves ", ended.moves)?;
    buf.put_named(b" edges ", ended.edges)?;
    buf.put_named(b" replies ", ended.replies)?;
    buf.put_named(b" top ", u32::from(ended.top))
}

// Writes the line of the counts of a session.
fn write_load<K: Sink>(alloc: Global, sink: &mut K, ended: &Ended) -> Result<(), SendFault>
    ensures text { Appends (K.taken sink.old) (K.taken sink.new) (load_line ended.now) result }
    ensures cause { WriteCause (K.faults sink.old) (K.faults sink.new) result }
{
    let mut buf = LineBuf::new(alloc);
    fill_load(&mut buf, ended)?;
    buf.send_to(sink)
}

/// Runs the session of the source's text, as `run` would, drops the text of the session, and writes one line with its
/// counts. Returns whether something was refused.
pub fn run_load<R: Threads + Sync, K: Sink, G: Gate + Sync>(
    rounds: &Rounds<'_, R, G>,
    source: GenSource,
    sink: &mut K,
) -> Result<bool, SessionFault>
    ensures text { Writes IsLoadText (Some (input_said source)) (K.taken sink.old) (K.taken sink.new) result }
    ensures cause { StepCause (K.faults sink.old) (K.faults sink.new) result }
{
    let alloc = rounds.alloc();
    let mut source = source;
    let Some((header, lines)) = open_input(alloc, &mut source, sink)? else {
        return Ok(true);
    };
    let mut null = NullSink::new();
    let ended = run_after(rounds, header, lines, &mut source, &mut null)?;
    write_load(alloc, sink, &ended)?;
    Ok(ended.refused > 0)
}
