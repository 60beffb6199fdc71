//! The next batch of an input: its items, or the line and the reason of its first fault.
ghost use Rattle.std.specs.Prelude.{◌≡◌, ◌≤◌, IfOk, OnOk};
ghost use Rattle.std.specs.Option.{option_map};
ghost use Rattle.kc_text.specs.Reading.{budget};
ghost use Rattle.kc_batch.specs.Tokens.{tokens_left};

use crate::Items;
use crate::adding::{Alone, Walk, add_items};
use crate::ahead::Ahead;
use crate::await_fault::AwaitFault;
use crate::rules::Rules;
use crate::token::{Kind, next_token};
use crate::turn::{Turn, turn_at};
use kc_graph::Crew;
use kc_levels::Profile;
use kc_text::{LineReader, NullSink, Reason, Sink, Source};
use std::alloc::{AllocError, Global};
use std::thread::Threads;
use thiserror::Error;

/// A batch without a fault.
#[derive(Drop, Debug)]
pub struct Batch {
    /// The items in the order of their lines.
    pub items: Items,
    /// The number of its `end` line.
    pub line: u32,
}

/// The next batch of an input, or its end.
#[derive(Drop, Debug)]
pub enum Next {
    /// A batch without a fault.
    Items(Batch),
    /// A batch with a fault, with the line and the reason of the first one. The reason is `LineLong`, `BadLine`,
    /// `BadVertex`, `TooMany`, `Truncated` or `InputLimit`.
    Refused { line: u32, reason: Reason },
    /// There are no more batches, and the input has ended.
    End,
}

/// The reasons for which no batch was read.
#[derive(Drop, Debug, Error)]
pub enum BatchFault {
    /// A read of the source failed.
    #[error("a read of the source failed")]
    ReadFault,
    /// There was no memory for a line or for the items.
    #[error(transparent)]
    Memory(AllocError),
}

ghost use Rattle.kc_batch.specs.Ahead.{ReadsAhead, FollowsAhead, ahead_budget};
ghost use Rattle.kc_batch.specs.private.Ahead.{ReadsRest};
ghost use Rattle.kc_batch.specs.Batches.{after_end, IsEnd, IsNext, ReadsBatch, ReadsFirst, TakesBatch};
ghost use Rattle.kc_batch.specs.Causes.{AwaitCause, BatchCause};

// Passes over the lines up to the next `end`, or up to the end of the input or its limit.
fn pass_to_end<S: Source, K: Sink>(
    alloc: Global,
    reader: &mut LineReader,
    src: &mut S,
    sink: &mut K,
) -> Result<(), AwaitFault>
    ensures passed { OnOk result (option_map after_end (tokens_left reader.old (S.left src.old)) ≡ tokens_left reader.new (S.left src.new)) }
    ensures budget { OnOk result (budget reader.new ≤ budget reader.old) }
    ensures taken { K.taken sink.new ≡ K.taken sink.old }
    ensures cause { AwaitCause (S.faults src.old) (S.faults src.new) (K.faults sink.old) (K.faults sink.new) result }
{
    loop {
        let token = next_token(alloc, reader, src, sink)?;
        match token.kind {
            Kind::BatchEnd | Kind::Limit | Kind::InputEnd => return Ok(()),
            _ => {}
        }
    }
}

// Reads the rest of a batch whose `batch` line was read, and these items after it.
fn read_items<W: Walk, S: Source, K: Sink>(
    walk: &W,
    reader: &mut LineReader,
    src: &mut S,
    sink: &mut K,
    ahead: Ahead,
) -> Result<Next, AwaitFault>
    requires { W.may_walk walk.now }
    ensures batch { IfOk result (ReadsRest ahead reader.old (S.left src.old) reader.new (S.left src.new)) }
    ensures sound { IfOk result (IsNext ahead.rules) }
    ensures more { IfOk result (λ next. IsEnd next → ⊥) }
    ensures budget { OnOk result (budget reader.new ≤ budget reader.old) }
    ensures taken { K.taken sink.new ≡ K.taken sink.old }
    ensures cause { AwaitCause (S.faults src.old) (S.faults src.new) (K.faults sink.old) (K.faults sink.new) result }
{
    let Ahead {
        rules,
        mut items,
        ..
    } = ahead;
    let alloc = walk.alloc();
    loop {
        if let Err(e) = add_items(walk, reader, rules, &mut items) {
            return Err(AwaitFault::Memory(e));
        }
        let token = next_token(alloc, reader, src, sink)?;
        let line = token.number;
        match turn_at(rules, items.len() >= rules.item_limit as usize, token.kind) {
            Turn::Add(item) => match items.push(item) {
                Ok(()) => {}
                Err(e) => return Err(AwaitFault::Memory(e)),
            },
            Turn::Close => return Ok(Next::Items(Batch { items, line })),
            Turn::Stop(reason) => return Ok(Next::Refused { line, reason }),
            Turn::Pass(reason) => {
                pass_to_end(alloc, reader, src, sink)?;
                return Ok(Next::Refused { line, reason });
            }
        }
    }
}

// Reads the next batch. After a fault in it, passes over the lines up to its end.
fn find_batch<W: Walk, S: Source, K: Sink>(
    walk: &W,
    reader: &mut LineReader,
    src: &mut S,
    sink: &mut K,
    rules: Rules,
) -> Result<Next, AwaitFault>
    requires { W.may_walk walk.now }
    ensures batch { IfOk result (ReadsBatch rules reader.old (S.left src.old) reader.new (S.left src.new)) }
    ensures sound { IfOk result (IsNext rules) }
    ensures takes { IfOk result (λ next. TakesBatch next (budget reader.old) (budget reader.new)) }
    ensures again { IfOk result (λ next. IsEnd next → tokens_left reader.new (S.left src.new) ≡ tokens_left reader.old (S.left src.old)) }
    ensures taken { K.taken sink.new ≡ K.taken sink.old }
    ensures cause { AwaitCause (S.faults src.old) (S.faults src.new) (K.faults sink.old) (K.faults sink.new) result }
{
    let alloc = walk.alloc();
    let token = next_token(alloc, reader, src, sink)?;
    let line = token.number;
    match token.kind {
        Kind::BatchStart => {
            let begun = Ahead::new(alloc, rules, true);
            let next = read_items(walk, reader, src, sink, begun)?;
            Ok(next)
        }
        Kind::BatchEnd => Ok(Next::Refused {
            line,
            reason: Reason::BadLine,
        }),
        Kind::Item(_) | Kind::Other => {
            pass_to_end(alloc, reader, src, sink)?;
            Ok(Next::Refused {
                line,
                reason: Reason::BadLine,
            })
        }
        Kind::TooLong => {
            pass_to_end(alloc, reader, src, sink)?;
            Ok(Next::Refused {
                line,
                reason: Reason::LineLong,
            })
        }
        Kind::Limit => Ok(Next::Refused {
            line,
            reason: Reason::InputLimit,
        }),
        Kind::InputEnd => Ok(Next::End),
    }
}

/// Reads the next batch as [`next_batch`] does, or the rest of one that was read ahead. Flushes the sink before each
/// read of the source. A read may wait for bytes, so the text written before is passed on first.
///
/// `WriteFault` comes only if a flush failed, and then too the reader isn't used again. As long as each next line of
/// the batch lies whole in the reader's memory, nothing is read and nothing is flushed. If there are several workers,
/// threads share the walk over many lines that lie there. No answer but `Memory` depends on the number of workers.
pub fn await_batch<R: Threads + Sync, S: Source, K: Sink>(
    crew: &Crew<'_, R>,
    reader: &mut LineReader,
    src: &mut S,
    sink: &mut K,
    ahead: Ahead,
) -> Result<Next, AwaitFault>
    ensures batch { IfOk result (ReadsAhead ahead reader.old (S.left src.old) reader.new (S.left src.new)) }
    ensures batches { IfOk result (FollowsAhead ahead reader.old (S.left src.old) reader.new (S.left src.new)) }

    // The range clause holds whether or not the source tells its bytes.
    ensures sound { IfOk result (IsNext ahead.rules) }

    // After `End` the next call returns `End` again.
    ensures again { IfOk result (λ next. IsEnd next → tokens_left reader.new (S.left src.new) ≡ tokens_left reader.old (S.left src.old)) }

    // A caller's loop over the batches ends, since each batch takes some of the budget.
    ensures takes { IfOk result (λ next. TakesBatch next (ahead_budget ahead reader.old) (budget reader.new)) }

    // The sink takes nothing.
    ensures taken { K.taken sink.new ≡ K.taken sink.old }
    ensures cause { AwaitCause (S.faults src.old) (S.faults src.new) (K.faults sink.old) (K.faults sink.new) result }
{
    if ahead.begun {
        let next = read_items(crew, reader, src, sink, ahead)?;
        return Ok(next);
    }
    let next = find_batch(crew, reader, src, sink, ahead.rules)?;
    Ok(next)
}

/// Reads the next batch of a graph of n vertices, as `batch_of` of `specs/Batches` defines it. That is its items, at
/// most `item_limit`, or its first fault. Under the first profile a line `x v` is a fault, `BadLine`. Afterwards the
/// reader stands after the batch.
///
/// Repeated calls yield the list `batches` of all batches. The last is `End`, or a batch that is refused for
/// `InputLimit`; each later call returns it again.
///
/// `ReadFault` comes only if the source's count of faults rose, and `Memory` if there was no memory for a line or the
/// items. After either the reader isn't used again, since lines of the batch are gone.
///
/// Cost: time for the bytes of the lines that are read or passed over. Memory for the items, and for one line, which
/// later lines use again.
pub fn next_batch<S: Source>(
    alloc: Global,
    reader: &mut LineReader,
    src: &mut S,
    n: u32,
    profile: Profile,
    item_limit: u32,
) -> Result<Next, BatchFault>
    ensures batch { IfOk result (ReadsBatch (record { n = n; profile = profile; item_limit = item_limit }) reader.old (S.left src.old) reader.new (S.left src.new)) }
    ensures batches { IfOk result (ReadsFirst (record { n = n; profile = profile; item_limit = item_limit }) reader.old (S.left src.old) reader.new (S.left src.new)) }

    // The range clause holds whether or not the source tells its bytes.
    ensures sound { IfOk result (IsNext (record { n = n; profile = profile; item_limit = item_limit })) }

    // After `End` the next call returns `End` again.
    ensures again { IfOk result (λ next. IsEnd next → tokens_left reader.new (S.left src.new) ≡ tokens_left reader.old (S.left src.old)) }

    // A caller's loop over the batches ends, since each batch takes some of the budget.
    ensures takes { IfOk result (λ next. TakesBatch next (budget reader.old) (budget reader.new)) }
    ensures cause { BatchCause (S.faults src.old) (S.faults src.new) result }
{
    let rules = Rules {
        n,
        profile,
        item_limit,
    };
    let mut sink = NullSink::new();
    match find_batch(&Alone { alloc }, reader, src, &mut sink, rules) {
        Ok(next) => Ok(next),
        Err(AwaitFault::ReadFault) => Err(BatchFault::ReadFault),
        // Never: a `NullSink` has no faults.
        Err(AwaitFault::WriteFault) => unreachable!(),
        Err(AwaitFault::Memory(e)) => Err(BatchFault::Memory(e)),
    }
}
