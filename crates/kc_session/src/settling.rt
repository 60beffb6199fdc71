//! Batches without readers: the state after them, and notes of the refused ones.
ghost use Rattle.std.specs.Prelude.{◌≤◌, IfOk};
ghost use Rattle.kc_batch.specs.Batches.{batches_left};
ghost use Rattle.kc_batch.specs.BatchInputs.{rules_of};
ghost use Rattle.kc_session.specs.Faults.{FaultCause};
ghost use Rattle.kc_session.specs.Settling.{IsSettled, Settles};

use crate::applying::open;
use crate::audience::Audience;
use crate::batches::run_batches;
use crate::context::SessionContext;
use crate::fault::SessionFault;
use crate::progress::Progress;
use crate::report::Report;
use crate::watched::Watched;
use kc_batch::Header;
use kc_engine::Engine;
use kc_graph::MAX_ITEMS;
use kc_rounds::{Gate, Rounds};
use kc_text::{LineReader, Sink, Source};
use std::alloc::Global;
use std::thread::Threads;

/// The result of batches without readers.
#[derive(Drop)]
pub struct Settled {
    /// The engine after all batches.
    pub engine: Engine,
    /// The number of refused batches.
    pub refused: u32,
}

/// Applies the batches after a header, and writes a note of each refused batch (`Settles`). A phase uses up to
/// `workers` threads, 1 to 64, and a long batch is cleaned as `clean_by` says.
///
/// After Ok the engine hasn't halted, and no plan is pending in it. It is for the header's profile and number of
/// vertices, and both invariants hold (`IsSettled`).
///
/// `ReadFault` comes only if a read of the source failed in this call, and `WriteFault` only if a write to the sink
/// failed. After either, and after `Memory`, the sink took a prefix of the notes.
///
/// No ask is put: no phase is shown, and no store is opened. Cost: that of reading, `clean_by` and `Engine::plan`.
pub fn settle<R: Threads + Sync, S: Source, K: Sink, G: Gate + Sync>(
    rt: &R,
    alloc: Global,
    gate: &G,
    workers: u32,
    header: Header,
    reader: LineReader,
    src: &mut S,
    sink: &mut K,
) -> Result<Settled, SessionFault>
    requires few_workers { (1 ≤ workers) × (workers ≤ 64) }
    ensures text { Settles header (batches_left (rules_of header MAX_ITEMS) reader (S.left src.old)) (K.taken sink.old) (K.taken sink.new) result }
    ensures settled { IfOk result (λ settled. IsSettled header settled.engine) }
    ensures cause { FaultCause (S.faults src.old) (S.faults src.new) (K.faults sink.old) (K.faults sink.new) result }
{
    let mut reader = reader;
    let context = SessionContext {
        rounds: Rounds::new(rt, alloc, gate, workers),
        n: header.n,
        profile: header.profile,
        report: Report::Notes,
        progress: Progress::new(0),
    };
    let engine = open(&context)?;
    let mut watched = Watched {
        engine,
        audience: Audience::Nobody,
    };
    let counts = run_batches(&context, &mut watched, &mut reader, src, sink)?;
    Ok(Settled {
        engine: watched.into_engine(),
        refused: counts.refused,
    })
}
