//! The program from a reader to a writer, as a process runs it over its standard streams.
ghost use Rattle.std.specs.Prelude.{◌≡◌, ◌↔◌, None, is_some};
ghost use Rattle.std.specs.Io.Buffered.{writer_contents, writer_buffer};
ghost use Rattle.kc_text.specs.Telling.{IsTold, told_of};
ghost use Rattle.kcore.specs.Commands.{command_of};
ghost use Rattle.kcore.specs.Process.{ProcessAnswers};
ghost use Rattle.kcore.specs.private.Process.{HandsOn, last_status};

use crate::top::run_command;
use kc_rounds::OpenGate;
use kc_shell::{Status, words_of};
use kc_text::{StdSink, StdSource, Told, Words};
use std::io::{BufWriter, Read, Write};
use std::marker::Brand;
use std::rt::Env;
use std::thread::Threads;

// The most bytes of output that are held back.
const BUFFER: usize = 65_536;

/// Carries out the command of the process's command line from `reader` to `writer` (`program`), and returns its status.
pub(crate) fn start<
    T: Threads + Sync + Env + AllocGlobal,
    R: Read + Drop + Send,
    W: Write + Drop + Send,
>(rt: &T, reader: R, writer: W) -> Status {
    let words = match words_of(rt) {
        Ok(words) => words,
        Err(status) => return status,
    };
    let Ok(writer) = BufWriter::with_capacity(rt.alloc(), BUFFER, writer) else {
        return Status::Memory;
    };
    program(rt, &words, reader, writer).0
}

/// Carries out the command of the words from `reader` to `writer`, and flushes the writer. Returns the status of the
/// command, and the writer without its buffer.
///
/// The contract is that of [`run_command`] at the process's own streams. It says something if the contracts of std tell
/// the bytes that the reader has left and the bytes that the writer holds. They do so for readers and writers in
/// memory. After `Done` and `Refused` the writer then holds the whole text of the command, and otherwise a prefix. If
/// the writer can't be flushed, `WriteFault` takes the place of `Done` and `Refused`.
///
/// The same body runs over the standard streams, whose bytes the contracts don't tell: telling leaves no trace at run
/// time.
pub fn program<T: Threads + Sync + AllocGlobal, R: Read + Drop + Send, W: Write + Drop + Send>(
    rt: &T,
    words: &Words,
    reader: R,
    writer: BufWriter<W>,
) -> (Status, W)
    ensures answer { ProcessAnswers (command_of words.now) (R.remaining reader) (writer_contents W.contents writer) (W.contents result.1) result.0 }
    ensures usage { (result.0 ≡ Status.Usage) ↔ (command_of words.now ≡ None) }
{
    told::<T, R, W, Brand, Brand>(rt, words, reader, writer)
}

// Carries out the command as `program` does. The type parameters say whether the reader and the writer tell their
// bytes.
#[tactic(auto, using(crate::proofs::Processes::tells))]
fn told<
    T: Threads + Sync + AllocGlobal,
    R: Read + Drop + Send,
    W: Write + Drop + Send,
    J: Told + Send,
    K: Told + Send,
>(rt: &T, words: &Words, reader: R, writer: BufWriter<W>) -> (Status, W)
    requires left { J.told ≡ is_some (R.remaining reader) }
    requires taken { K.told ≡ is_some (writer_contents W.contents writer) }
    ensures answer { ProcessAnswers (command_of words.now) (R.remaining reader) (writer_contents W.contents writer) (W.contents result.1) result.0 }
    ensures usage { (result.0 ≡ Status.Usage) ↔ (command_of words.now ≡ None) }
{
    let mut input = StdSource::<R, J>::telling(reader);
    let mut output = StdSink::<BufWriter<W>, K>::telling(writer);
    let status = run_command(
        rt,
        rt.alloc(),
        words,
        &mut input,
        &mut output,
        &OpenGate::new(),
    );
    let (done, writer) = flush_into_inner(output.into_writer());
    (last_status(status, done), writer)
}

// Flushes a writer. Returns whether it passed on all bytes that it held back, and the writer without its buffer.
#[tactic(auto, using(crate::proofs::Processes::all_on, crate::proofs::Processes::some_on))]
fn flush_into_inner<W: Write + Drop>(writer: BufWriter<W>) -> (bool, W)
    ensures { HandsOn result.0 (writer_contents W.contents writer) (W.contents result.1) }
{
    let mut writer = writer;
    let done = writer.flush().is_ok();
    let (inner, _rest) = writer.into_parts();
    (done, inner)
}

// Returns how the program ends after its command ended with this status. If the output couldn't be flushed, a command
// that ran to its end has failed to write.
fn last_status(status: Status, done: bool) -> Status
    ensures { result ≡ last_status done status }
{
    if done { status } else { status.unflushed() }
}
