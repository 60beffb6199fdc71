//! Batches one after another: each is read, applied, and reported.
ghost use Rattle.std.specs.Prelude.{◌≡◌, IfOk, OnOk};
ghost use Rattle.std.specs.Thread.{IsSync};
ghost use Rattle.kc_session.specs.private.Audiences.{store_of, IsAbreast};
ghost use Rattle.kc_session.specs.States.{IsOpen};
ghost use Rattle.kc_session.specs.Faults.{FaultCause};
ghost use Rattle.kc_session.specs.private.Faults.{StepCause};
ghost use Rattle.kc_session.specs.private.Running.{is_last_batch, MayRun, RunsOne, IsRun, IsReadyFor, AreRun, IsReadAhead, rules_for, batches_for};

use crate::applying::{Outcome, apply};
use crate::context::SessionContext;
use crate::counts::Counts;
use crate::fault::SessionFault;
use crate::report::Reporter;
use crate::watched::Watched;
use kc_batch::{Ahead, Items, Next, Rules, await_batch, read_ahead};
use kc_graph::{Crew, MAX_ITEMS};
use kc_rounds::Gate;
use kc_text::{LineReader, Reason, Sink, Source};
use std::alloc::AllocError;
use std::mem::replace;
use std::thread::{Threads, join_mut};

// The least number of items of a batch beside which the next one is read. A thread costs as much as the work for some
// thousands of items.
const LEAST_LONG: usize = 16_384;

// Applies the next batch and writes its text. Returns the reporter's counts with the batch added. Takes the items out
// of the batch, so that their memory serves its phases.
fn run_batch<R: Threads + Sync, K: Sink, G: Gate + Sync>(
    context: &SessionContext<'_, R, G>,
    watched: &mut Watched<'_>,
    sink: &mut K,
    reporter: &mut Reporter,
    next: &mut Next,
) -> Result<Counts, SessionFault>
    requires ready { MayRun watched.old next.old reporter.old.counts }
    ensures step { RunsOne reporter.old.report next.old watched.old watched.new (K.taken sink.old) (K.taken sink.new) reporter.old.counts result }
    ensures report { reporter.new.report ≡ reporter.old.report }
    ensures store { store_of watched.new.audience ≡ store_of watched.old.audience }
    ensures abreast { OnOk result (IsAbreast watched.new.audience watched.new.engine.state) }
    ensures open { OnOk result (IsOpen watched.new.engine) }
    ensures cause { StepCause (K.faults sink.old) (K.faults sink.new) result }
{
    let rounds = &context.rounds;
    let alloc = rounds.alloc();
    let crew = Crew::new(rounds.runtime(), alloc, rounds.workers());
    let counts = reporter.counts;
    match next {
        Next::Items(batch) => match apply(
            rounds,
            watched,
            replace(&mut batch.items, Items::new(alloc)),
        )? {
            Outcome::Accepted(cleaned, plan) => {
                context.progress.advance(plan.moves);
                let phases = plan.phases.as_slice();
                reporter.write_accepted(&crew, sink, &cleaned, phases)?;
                let counts = counts.with_accepted(phases);
                watched.engine.reuse(plan);
                Ok(counts)
            }
            Outcome::Refused(reason) => {
                reporter.write_refusal(alloc, sink, batch.line, reason)?;
                Ok(counts.with_refused())
            }
        },
        Next::Refused { line, reason } => {
            reporter.write_refusal(alloc, sink, *line, *reason)?;
            Ok(counts.with_refused())
        }
        Next::End => Ok(counts),
    }
}

// Returns whether this is the last batch.
fn is_last(next: &Next) -> bool
    ensures { result ≡ is_last_batch next.now }
{
    matches!(
        next,
        Next::Refused {
            reason: Reason::InputLimit,
            ..
        }
    )
}

// Returns the rules of the batches.
fn rules_in<R, G>(context: &SessionContext<'_, R, G>) -> Rules
    ensures { result ≡ rules_for context.now.n context.now.profile }
{
    Rules {
        n: context.n,
        profile: context.profile,
        item_limit: MAX_ITEMS,
    }
}

// Returns whether a batch is long enough for the next one to be read beside it.
fn is_long(next: &Next) -> bool {
    match next {
        Next::Items(batch) => LEAST_LONG <= batch.items.len(),
        Next::Refused { .. } | Next::End => false,
    }
}

// Runs a batch as `run_batch` does. If it is long, and there are several workers, one more thread meanwhile reads the
// next batch ahead. That takes only lines in the reader's memory. So nothing is read from the source, and no text has
// to be flushed before.
fn run_and_read<R: Threads + Sync, K: Sink, G: Gate + Sync>(
    context: &SessionContext<'_, R, G>,
    watched: &mut Watched<'_>,
    reader: &mut LineReader,
    sink: &mut K,
    reporter: &mut Reporter,
    next: Next,
) -> (Result<Ahead, AllocError>, Result<Counts, SessionFault>)
    requires ready { MayRun watched.old next reporter.old.counts }
    ensures ahead { IfOk result.0 (IsReadAhead (rules_for context.now.n context.now.profile) reader.old reader.new) }
    ensures run { IsRun reporter.old.report next watched.old watched.new (K.taken sink.old) (K.taken sink.new) reporter.old.counts result.1 }
    ensures report { reporter.new.report ≡ reporter.old.report }
    ensures cause { StepCause (K.faults sink.old) (K.faults sink.new) result.1 }
{
    let alloc = context.rounds.alloc();
    let rules = rules_in(context);
    let mut next = next;
    if context.rounds.workers() == 1 || !is_long(&next) {
        let counts = run_batch(context, watched, sink, reporter, &mut next);
        return (Ok(Ahead::new(alloc, rules, false)), counts);
    }
    join_mut(
        context.rounds.runtime(),
        &mut || read_ahead(alloc, reader, rules),
        &mut ||
            requires { IsSync R.row × IsSync G.row × MayRun watched.now next reporter.now.counts }
        { run_batch(context, watched, sink, reporter, &mut next) },
    )
}

/// Runs the batches of an input. Each batch is read, applied, shown to the audience and reported before the next one.
///
/// Afterwards the engine is that after all batches, and the audience is up to date with it. Text that was written is
/// flushed before the call waits for bytes of the next batch. If there are several workers, threads share the walk over
/// the lines of a long batch. One more thread reads ahead while it is applied.
///
/// Stops at the first fault of the source, of the sink or of memory. The text written is then a prefix of that of the
/// batches.
pub fn run_batches<R: Threads + Sync, S: Source, K: Sink, G: Gate + Sync>(
    context: &SessionContext<'_, R, G>,
    watched: &mut Watched<'_>,
    reader: &mut LineReader,
    src: &mut S,
    sink: &mut K,
) -> Result<Counts, SessionFault>
    requires ready { IsReadyFor context.now.n watched.old }
    ensures run { AreRun context.now.report watched.old watched.new (batches_for context.now.n context.now.profile reader.old (S.left src.old)) (K.taken sink.old) (K.taken sink.new) result }
    ensures cause { FaultCause (S.faults src.old) (S.faults src.new) (K.faults sink.old) (K.faults sink.new) result }
{
    // Evidence for the check: the budget of a reader bounds the number of batches.
    reader.has_budget();
    let alloc = context.rounds.alloc();
    let crew = Crew::new(context.rounds.runtime(), alloc, context.rounds.workers());
    let mut reporter = Reporter::new(alloc, context.report);
    let mut ahead = Ahead::new(alloc, rules_in(context), false);
    loop {
        let next = await_batch(&crew, reader, src, sink, ahead)?;
        if let Next::End = next {
            return Ok(reporter.counts);
        }
        let last = is_last(&next);
        let (later, counts) = run_and_read(context, watched, reader, sink, &mut reporter, next);
        let counts = counts?;
        if last {
            return Ok(counts);
        }
        reporter.counts = counts;
        ahead = later?;
    }
}
