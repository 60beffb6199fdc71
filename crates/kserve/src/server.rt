//! The server drains the intake, and applies and prints each batch before it drains the next.
ghost use Rattle.std.specs.Prelude.{◌≡◌, ◌≤◌, [], length, OnOk};
ghost use Rattle.kc_intake.specs.Updates.{all_updates};
ghost use Rattle.kserve.specs.Batches.{start};
ghost use Rattle.kserve.specs.private.Engines.{IsFresh, IsOpen, IsReady};
ghost use Rattle.kserve.specs.private.Faults.{StopCause, GoesOnCause};
ghost use Rattle.kserve.specs.private.Clients.{AreDrained};
ghost use Rattle.kserve.specs.private.Serving.{TakesBatch, Serves, GoesOn, IsHandedOn};

use crate::applying::{apply, items_of};
use crate::context::ServeContext;
use crate::fault::Stop;
use crate::limits::CAPACITY;
use crate::lines::{Drained, write_batch};
use kc_engine::Engine;
use kc_graph::MAX_ITEMS;
use kc_intake::{Drainer, Intake};
use kc_rounds::Gate;
use kc_text::{Failed, LineBuf, SendFault, Sink};
use std::alloc::Global;
use std::sync::Wait;
use std::thread;
use std::thread::Threads;

/// The server: the engine that applies its batches, and the line that is put together for them.
#[derive(Drop)]
pub struct Server {
    /// The engine that applies the batches.
    pub engine: Engine,
    // Keeps its memory from one line to the next.
    buf: LineBuf,
}

// Flushes the sink, unless the server has stopped.
fn hand_on<K: Sink>(sink: &mut K, course: Result<(), Stop>) -> Result<(), Stop>
    ensures taken { K.taken sink.new ≡ K.taken sink.old }
    ensures course { IsHandedOn course result }
    ensures cause { GoesOnCause (K.faults sink.old) (K.faults sink.new) course result }
{
    match course {
        Ok(()) => match sink.flush() {
            Ok(()) => Ok(()),
            Err(Failed) => Err(Stop::Fault(SendFault::WriteFault)),
        },
        Err(stop) => Err(stop),
    }
}

impl Server {
    /// Makes a server with this engine. Takes no memory.
    pub fn new(alloc: Global, engine: Engine) -> Server
        ensures { result.engine ≡ engine }
    {
        Server {
            engine,
            buf: LineBuf::new(alloc),
        }
    }

    /// Applies the updates of a drained batch to the graph of the scripts, and prints them as the batch with its
    /// number.
    ///
    /// `Stray` comes exactly if one of the items isn't due; then nothing is applied or printed. `WriteFault` comes only
    /// after a failed write. After it and after `Memory` the sink took a prefix of the lines, and the engine isn't used
    /// again.
    pub fn take_batch<R: Threads + Sync, K: Sink, G: Gate + Sync>(
        &mut self,
        context: &ServeContext<'_, R, G>,
        sink: &mut K,
        batch: Drained<'_>,
    ) -> Result<(), Stop>
        requires few { length batch.updates.now ≤ MAX_ITEMS }
        requires ready { IsReady context.now.n self.old.engine }
        ensures taken { TakesBatch context.now.n batch.entry.number batch.entry.updates.now self.old.engine.state self.new.engine.state (K.taken sink.old) (K.taken sink.new) result }
        ensures open { OnOk result (IsOpen self.new.engine) }
        ensures cause { StopCause (K.faults sink.old) (K.faults sink.new) result }
    {
        let rounds = &context.rounds;
        let Some(items) = items_of(rounds.alloc(), context.asked.n, batch.updates)? else {
            return Err(Stop::Stray);
        };
        apply(rounds, &mut self.engine, items.as_slice())?;
        write_batch(&mut self.buf, sink, batch)?;
        Ok(())
    }

    // Applies and prints the next batch, unless the server has stopped.
    fn go_on<R: Threads + Sync, K: Sink, G: Gate + Sync>(
        &mut self,
        context: &ServeContext<'_, R, G>,
        sink: &mut K,
        batch: Drained<'_>,
        course: Result<(), Stop>,
    ) -> Result<(), Stop>
        requires few { length batch.updates.now ≤ MAX_ITEMS }
        requires ready { OnOk course (IsReady context.now.n self.old.engine) }
        ensures served { GoesOn context.now.n batch.entry.number batch.entry.updates.now self.old.engine.state self.new.engine.state (K.taken sink.old) (K.taken sink.new) course result }
        ensures open { OnOk result (IsOpen self.new.engine) }
        ensures cause { GoesOnCause (K.faults sink.old) (K.faults sink.new) course result }
    {
        match course {
            Ok(()) => self.take_batch(context, sink, batch),
            Err(stop) => Err(stop),
        }
    }

    /// Drains an intake until at least as many updates were drained as the scripts have items. While the intake is
    /// empty it tries again, and flushes first what was printed.
    ///
    /// Each batch is applied to the graph of the scripts and printed before the next one is drained (`Serves`). After a
    /// fault the rest are only drained, so that no client waits for room, and the fault is returned at the end.
    ///
    /// The engine and the drainer were just opened. `WriteFault` comes only if a write to the sink failed in this call.
    /// After a fault the engine isn't used again. The call may wait.
    pub fn run<R: Threads + Wait + Sync, K: Sink, G: Gate + Sync>(
        &mut self,
        context: &ServeContext<'_, R, G>,
        intake: &Intake,
        drainer: &mut Drainer,
        sink: &mut K,
    ) -> Result<(), Stop>
        requires capacity { intake.now.capacity ≡ CAPACITY }
        requires drainer { (drainer.old.intake ≡ intake.now) × (drainer.old.taken ≡ []) }
        requires fresh { IsFresh context.now.n self.old.engine }
        ensures served { Serves context.now.n (start context.now.n) drainer.new.taken self.new.engine.state (K.taken sink.old) (K.taken sink.new) result }
        ensures drained { AreDrained intake.now drainer.old drainer.new }
        ensures all { context.now.count ≤ length (all_updates drainer.new.taken) }
        ensures open { OnOk result (IsOpen self.new.engine) }
        ensures cause { StopCause (K.faults sink.old) (K.faults sink.new) result }
    {
        let rt = context.rounds.runtime();
        let count = context.asked.count;
        let mut course = Ok(());
        let mut number = 0;
        let mut drained = 0;
        for _turn in rt.forever() {
            if drained >= count {
                return course;
            }
            let Ok(()) = intake.drain(rt, drainer) else {
                course = hand_on(sink, course);
                thread::yield_now();
                continue;
            };
            number += 1;
            drained += drainer.batch().len() as u32;
            let updates = drainer.batch();
            course = self.go_on(context, sink, Drained { number, updates }, course);
        }
        unreachable!()
    }
}
