//! The program `kserve`: clients submit updates of a graph all at once, and one server applies them in batches as they
//! come.
//!
//! [`serve::serve`] is the program; `main` hands it the words of the command line, the standard input and output,
//! and ends with its exit number. All scripts are read first ([`reading`]). Then each client submits its script to an
//! intake (`clients`) while the server drains it, and applies and prints batch after batch (`server`).
#![tactic(auto)]

ghost use Rattle.std.specs.Prelude.{◌≡◌};
ghost use Rattle.kc_shell.specs.declared.status.Status.{Status};
ghost use Rattle.kc_shell.specs.Statuses.{exit_number};
ghost use Rattle.kserve.specs.Ending.{EndsAs};

mod applying;
mod clients;
mod context;
mod fault;
mod head;
pub mod laws;
mod limits;
mod lines;
mod reading;
mod scripts;
mod serve;
mod server;
mod serving;
#[cfg(test)]
mod tests;
mod vertices;

use kc_rounds::OpenGate;
use kc_shell::{Status, keep_memory, words_of};
use kc_text::{Sink, StdSink, StdSource};
use serve::serve;
use std::io::{BufWriter, Write};
use std::process::ExitCode;

// The bytes of the output that are kept back at most.
const BUFFER: usize = 65_536;

fn main(rt: HostRuntime) -> ExitCode {
    keep_memory(rt.alloc());
    let words = match words_of(&rt) {
        Ok(words) => words,
        Err(status) => return ExitCode::from(status.exit_number()),
    };
    let Ok(writer) = BufWriter::with_capacity(rt.alloc(), BUFFER, rt.stdout()) else {
        return ExitCode::from(Status::Memory.exit_number());
    };
    let mut input = StdSource::new(rt.stdin());
    let mut output = StdSink::new(writer);
    let status = serve(
        &rt,
        rt.alloc(),
        &words,
        &mut input,
        &mut output,
        &OpenGate::new(),
    );
    ExitCode::from(exit_number_of(status, &mut output))
}

// The exit number of the program after a call that ended so. Flushes the output.
fn exit_number_of<W: Write + Drop>(status: Status, output: &mut StdSink<W>) -> u8
    ensures { (last : Status) × (EndsAs status last output.old output.new × (result ≡ exit_number last)) }
{
    ended(status, output).exit_number()
}

// The status of the program. What the writer still holds goes out now; if that fails, a call that was complete has
// failed to write.
fn ended<W: Write + Drop>(status: Status, output: &mut StdSink<W>) -> Status
    ensures { EndsAs status result output.old output.new }
{
    match output.flush() {
        Ok(()) => status,
        Err(_) => status.unflushed(),
    }
}
