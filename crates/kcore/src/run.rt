//! The command `run`: the batches of an input beside its readers.
ghost use Rattle.std.specs.Option.{option_map};
ghost use Rattle.kc_graph.specs.declared.limits.TheConstants.{MAX_ITEMS};
ghost use Rattle.kc_batch.specs.Batches.{batches_left};
ghost use Rattle.kc_batch.specs.BatchInputs.{rules_of};
ghost use Rattle.kc_session.specs.Faults.{FaultCause};
ghost use Rattle.kc_session.specs.SessionText.{session_text, WritesSession};
ghost use Rattle.kcore.specs.Inputs.{input_said};
ghost use Rattle.kcore.specs.RunText.{IsRunText};
ghost use Rattle.kcore.specs.private.Writing.{Writes};

use crate::inputs::open_input;
use kc_batch::Header;
use kc_rounds::{Gate, Rounds};
use kc_session::{Ended, SessionFault, run_session};
use kc_text::{LineReader, Sink, Source};
use std::thread::Threads;

/// Runs the session of an input whose header was read, and writes its text, as `run_session` does. A phase uses the
/// workers of the rounds.
pub fn run_after<R: Threads + Sync, S: Source + Send, K: Sink + Send, G: Gate + Sync>(
    rounds: &Rounds<'_, R, G>,
    header: Header,
    lines: LineReader,
    src: &mut S,
    sink: &mut K,
) -> Result<Ended, SessionFault>
    ensures text { WritesSession session_text header (batches_left (rules_of header MAX_ITEMS) lines (S.left src.old)) (K.taken sink.old) (K.taken sink.new) result }
    ensures cause { FaultCause (S.faults src.old) (S.faults src.new) (K.faults sink.old) (K.faults sink.new) result }
{
    run_session(
        rounds.runtime(),
        rounds.alloc(),
        rounds.gate(),
        rounds.workers(),
        header,
        lines,
        src,
        sink,
    )
}

/// Reads a batch input, applies its batches one after another beside its readers, and writes the text of the run.
/// Returns whether something was refused.
pub fn run_input<R: Threads + Sync, S: Source + Send, K: Sink + Send, G: Gate + Sync>(
    rounds: &Rounds<'_, R, G>,
    src: &mut S,
    sink: &mut K,
) -> Result<bool, SessionFault>
    ensures text { Writes IsRunText (option_map input_said (S.left src.old)) (K.taken sink.old) (K.taken sink.new) result }
    ensures cause { FaultCause (S.faults src.old) (S.faults src.new) (K.faults sink.old) (K.faults sink.new) result }
{
    let Some((header, lines)) = open_input(rounds.alloc(), src, sink)? else {
        return Ok(true);
    };
    let ended = run_after(rounds, header, lines, src, sink)?;
    Ok(ended.refused > 0)
}
