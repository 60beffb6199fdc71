//! The top call: a command line, an input and an output.
ghost use Rattle.std.specs.Prelude.{◌≡◌, ◌≢◌, ◌↔◌, None, Some, Option};
ghost use Rattle.kc_shell.specs.Statuses.{HasCause};
ghost use Rattle.kcore.specs.Commands.{command_of, Answers, Holds, IsComplete, ReadsNothing};
ghost use Rattle.kcore.specs.private.Commands.{FitsWorkers};
ghost use Rattle.kcore.specs.private.Writing.{status_of};

use crate::audit::audit_input;
use crate::check::check_input;
use crate::command::Command;
use crate::documents::{Dense, Exact, Final, Orient, settle_input};
use crate::load::run_load;
use crate::run::run_input;
use kc_rounds::{Gate, Rounds};
use kc_session::{GenSource, SessionFault};
use kc_shell::Status;
use kc_text::{Sink, Source, Words};
use std::alloc::Global;
use std::thread::Threads;

// Returns the status of a command that ended with this result.
fn status_of(ended: Result<bool, SessionFault>) -> Status
    ensures { result ≡ status_of ended }
{
    match ended {
        Ok(false) => Status::Done,
        Ok(true) => Status::Refused,
        Err(SessionFault::ReadFault) => Status::ReadFault,
        Err(SessionFault::WriteFault) => Status::WriteFault,
        Err(SessionFault::Memory(_)) => Status::Memory,
    }
}

/// Carries out the command of the words: reads `input` and writes to `output`.
///
/// The answer is `Usage` exactly if the words are no command, and then nothing is read or written. Otherwise the other
/// answers say this, if `input` tells its bytes; `gen` makes its bytes itself:
///
/// - With `Done` and `Refused` the bytes that `output` took are the whole text of the command for these bytes. The
///   answer is `Refused` exactly if the command refuses some of them.
/// - With `ReadFault`, `WriteFault` and `Memory` the bytes that `output` took are a prefix of such a text.
///
/// `run`: a text is exactly the history of the accepted batches (`IsRun`). The levels are the extremal ones, raised
/// after edges came in and lowered after edges left, and each group takes effect at once. The replies of each reader
/// are levels at points of this history that never go back.
///
/// At each point of the history both invariants hold, and the coreness of each vertex lies between the bounds of its
/// level. Also `est <= 2 * coreness` and `coreness <= 3 * est`, and if the header has the second profile,
/// `coreness <= 2 * est`. Everything but the lines of the readers is the same for every number of workers
/// ([`laws`](crate::laws)).
///
/// `exact`: there is one text. In each state of the input both invariants hold, and the printed numbers of each vertex
/// bound its coreness in the same way. On each line of a vertex they bound the printed coreness.
///
/// `final`: there is one text, the same for every number of workers. If the header isn't refused, it ends in the
/// certificate of the last state. In that state both invariants hold, and within the limit of an input `check`
/// certifies the text ([`laws`](crate::laws)).
///
/// `check`: the text is one line. That is the verdict on the certificate of the bytes (`IsVerdict` of `kc_cert`), or
/// the first line that doesn't fit, with the reason. The bytes are refused if the verdict isn't `certified`.
///
/// `audit`: the text is one line. That is the verdict on the run of the bytes: whether its group lines explain its
/// readers (`IsVerdict` of `kc_audit`). Or it is the first line that doesn't fit, with the reason. The bytes are
/// refused if the verdict isn't `explained`. A text of `run` is explained if the header isn't refused and the text is
/// within the limit of an input ([`laws`](crate::laws)).
///
/// `orient`: there is one text, the same for every number of workers. The graph after the batches is oriented by the
/// levels after them. No vertex has more out-neighbours than six times its coreness, and if the header has the second
/// profile, than four times. The ends of an edge have different colours, and no colour is above the number of its
/// vertex's out-neighbours.
///
/// `dense`: there is one text. Its members are the vertices of the densest suffix of the graph's peeling list, of
/// several the longest. No set of vertices of the graph has more than twice as many edges per vertex as the members.
///
/// `gen`: there is one text, the same for every number of workers, and nothing is read. The command works on the bytes
/// that `generated` has for its numbers, and writes the counts of their session in one line.
///
/// `ReadFault` comes only if the count of faults of `input` rose in this call, and `WriteFault` only if that of
/// `output` rose. Every other count stays. So suppose that the words are a command, its bytes are known and no count
/// rose. Then the answer is `Done` or `Refused`, as the bytes decide, or `Memory`, the one answer without a cause
/// (`IsComplete`).
pub fn run_command<R: Threads + Sync, S: Source + Send, K: Sink + Send, G: Gate + Sync>(
    rt: &R,
    alloc: Global,
    words: &Words,
    input: &mut S,
    output: &mut K,
    gate: &G,
) -> Status
    ensures answer { Answers (command_of words.now) (S.left input.old) (K.taken output.old) (K.taken output.new) result }
    ensures holds { Holds (command_of words.now) (S.left input.old) }
    ensures cause { HasCause (S.faults input.old) (S.faults input.new) (K.faults output.old) (K.faults output.new) result }
    ensures complete { IsComplete (command_of words.now) (S.left input.old) (S.faults input.old) (S.faults input.new) (K.faults output.old) (K.faults output.new) result }
    ensures usage { (result ≡ Status.Usage) ↔ (command_of words.now ≡ None) }
    ensures unread { ReadsNothing (command_of words.now) → (input.new ≡ input.old) × (result ≢ Status.ReadFault) }
    ensures untouched { result ≡ Status.Usage → (input.new ≡ input.old) × (output.new ≡ output.old) }
{
    match Command::from_words(words) {
        Some(command) => {
            let rounds = Rounds::new(rt, alloc, gate, command.workers());
            status_of(carry_out(command, &rounds, input, output))
        }
        None => Status::Usage,
    }
}

// Carries out a command. Returns whether something was refused. It follows from these clauses that there is no answer
// besides those of `run_command`.
fn carry_out<R: Threads + Sync, S: Source + Send, K: Sink + Send, G: Gate + Sync>(
    command: Command,
    rounds: &Rounds<'_, R, G>,
    input: &mut S,
    output: &mut K,
) -> Result<bool, SessionFault>
    requires few { FitsWorkers (Some command) }
    ensures answer { Answers (Some command) (S.left input.old) (K.taken output.old) (K.taken output.new) (status_of result) }
    ensures cause { HasCause (S.faults input.old) (S.faults input.new) (K.faults output.old) (K.faults output.new) (status_of result) }
    ensures unread { ReadsNothing (Some command) → (input.new ≡ input.old) × (status_of result ≢ Status.ReadFault) }
{
    let alloc = rounds.alloc();
    match command {
        Command::Run { .. } => run_input(rounds, input, output),
        Command::Final { .. } => settle_input::<Final, R, S, K, G>(rounds, input, output),
        Command::Orient { .. } => settle_input::<Orient, R, S, K, G>(rounds, input, output),
        Command::Exact => settle_input::<Exact, R, S, K, G>(rounds, input, output),
        Command::Dense => settle_input::<Dense, R, S, K, G>(rounds, input, output),
        Command::Check => check_input(alloc, input, output),
        Command::Audit => audit_input(alloc, input, output),
        Command::Gen {
            seed,
            n,
            batches,
            items,
            ..
        } => run_load(rounds, GenSource::new(seed, n, batches, items), output),
    }
}
