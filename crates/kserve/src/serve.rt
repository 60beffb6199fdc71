//! The top call: a command line, an input and an output.
ghost use Rattle.std.specs.Prelude.{◌≡◌, ◌≢◌, ◌≤◌, ◌↔◌, None, IfSome};
ghost use Rattle.kc_shell.specs.Statuses.{HasCause};
ghost use Rattle.kserve.specs.Ending.{workers_of};
ghost use Rattle.kserve.specs.private.Ending.{status_after};
ghost use Rattle.kserve.specs.Served.{Answers, IsComplete};

use crate::context::ServeContext;
use crate::reading::{Said, read_input};
use crate::serving::serve_scripts;
use kc_batch::BatchFault;
use kc_report::write_refusal;
use kc_rounds::{Gate, Rounds};
use kc_shell::{Status, workers_in};
use kc_text::{LineBuf, SendFault, Sink, Source, Words};
use std::alloc::Global;
use std::sync::Wait;
use std::thread::Threads;

// The number of workers that the words say: they are one number, 1 to 64.
fn workers_of(words: &Words) -> Option<u32>
    ensures workers { result ≡ workers_of words.now }
    ensures few { IfSome result (λ workers. (1 ≤ workers) × (workers ≤ 64)) }
{
    if words.len() != 1 {
        return None;
    }
    workers_in(words.word(0))
}

// The status of a call after a text was written: `complete`, unless a fault of the sink or of memory came first.
fn status_after(complete: Status, written: Result<(), SendFault>) -> Status
    ensures { result ≡ status_after complete written }
{
    match written {
        Ok(()) => complete,
        Err(SendFault::WriteFault) => Status::WriteFault,
        Err(SendFault::Memory(_)) => Status::Memory,
    }
}

// Reads an input, and serves its scripts or writes why it is refused.
fn serve_input<R: Threads + Wait + Sync, S: Source, K: Sink + Send, G: Gate + Sync>(
    rounds: Rounds<'_, R, G>,
    src: &mut S,
    sink: &mut K,
) -> Status
    ensures text { Answers (S.left src.old) (K.taken sink.old) (K.taken sink.new) result }
    ensures cause { HasCause (S.faults src.old) (S.faults src.new) (K.faults sink.old) (K.faults sink.new) result }
    ensures usage { result ≢ Status.Usage }
{
    let alloc = rounds.alloc();
    match read_input(alloc, src) {
        Ok(Said::Accepted(asked)) => {
            let context = ServeContext {
                rounds,
                asked: &asked,
            };
            status_after(Status::Done, serve_scripts(&context, sink))
        }
        Ok(Said::Refused { line, reason }) => {
            let written = write_refusal(&mut LineBuf::new(alloc), sink, line, reason);
            status_after(Status::Refused, written)
        }
        Err(BatchFault::ReadFault) => Status::ReadFault,
        Err(BatchFault::Memory(_)) => Status::Memory,
    }
}

/// How a call of [`serve`] ended.
pub type ServeStatus = Status;

/// Serves the scripts of an input: each client submits its script to an intake. One server drains the intake, and
/// applies and prints batch after batch. A phase of the engine uses up to as many threads as the words say.
///
/// Returns `Usage` exactly if the words aren't one number, 1 to 64; then nothing is read or written. Else, if `input`
/// tells its bytes:
///
/// - with `Done` they say scripts, and what `output` took is a text of these (`IsServed`). The batches that it prints
///   are what the clients submitted. The items of each client, in order, are its script: none is lost, and none is
///   there twice. Each batch has 1 to 1,024 updates. The lines of the vertices are of the graph and the levels after
///   these batches, in which both invariants hold;
/// - with `Refused` they don't (`input_said`). `output` took one line: the number of the first line for which they are
///   refused, and why;
/// - with `WriteFault` and `Memory` it took a prefix of such a text, or of that line, and with `ReadFault` nothing.
///
/// `ReadFault` comes only if the count of faults of `input` rose in this call, and `WriteFault` only if that of
/// `output` did. Every other count is as it was. So suppose that the words are such a number, `input` tells its bytes,
/// and no count rose. Then the answer is `Done` or `Refused`, as the bytes decide, or `Memory` (`IsComplete`). `Memory`
/// has no cause in a count.
///
/// All scripts are read before a client runs. A client that finds the intake full tries again, and so does the server
/// while the intake is empty. So the call may wait, and what it promises holds if it returns. After a fault the server
/// goes on draining, so that no client is left waiting.
///
/// The gate gets `Asking` before each update's first try, and `Replied` once it is submitted. The reader is the client,
/// and the ask is the place in its script, from 0.
pub fn serve<R: Threads + Wait + Sync, S: Source, K: Sink + Send, G: Gate + Sync>(
    rt: &R,
    alloc: Global,
    words: &Words,
    input: &mut S,
    output: &mut K,
    gate: &G,
) -> ServeStatus
    ensures answer { Answers (S.left input.old) (K.taken output.old) (K.taken output.new) result }
    ensures cause { HasCause (S.faults input.old) (S.faults input.new) (K.faults output.old) (K.faults output.new) result }
    ensures complete { IsComplete (workers_of words.now) (S.left input.old) (S.faults input.old) (S.faults input.new) (K.faults output.old) (K.faults output.new) result }
    ensures usage { (result ≡ Status.Usage) ↔ (workers_of words.now ≡ None) }
    ensures untouched { result ≡ Status.Usage → (input.new ≡ input.old) × (output.new ≡ output.old) }
{
    match workers_of(words) {
        Some(workers) => {
            let rounds = Rounds::new(rt, alloc, gate, workers);
            serve_input(rounds, input, output)
        }
        None => Status::Usage,
    }
}
