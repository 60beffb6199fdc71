//! The program `kcore`: an approximate k-core decomposition of a graph, from bytes to bytes.
//!
//! [`top::run_command`] carries out a command. [`process::program`] runs it from a reader to a writer.
//! [`process::start`] takes the words of the command line and makes the buffer. `main` hands the standard streams to
//! `start`, and ends with its exit number.
//!
//! `run`, `final`, `orient`, `exact` and `dense` read a header first ([`inputs`]). Then `run` passes the batches and
//! the readers to `kc_session`. `final`, `orient`, `exact` and `dense` write a document of the state after the batches
//! ([`documents`]). `check` reads the certificate that `final` writes ([`check`]), `audit` reads the text that `run`
//! writes ([`audit`]), and `gen` makes its input itself ([`load`]).
#![tactic(auto)]

mod audit;
mod check;
mod command;
mod documents;
mod inputs;
pub mod laws;
mod limits;
mod load;
pub mod process;
mod run;
#[cfg(test)]
mod tests;
pub mod top;

use kc_shell::keep_memory;
use process::start;
use std::process::ExitCode;

fn main(rt: HostRuntime) -> ExitCode {
    keep_memory(rt.alloc());
    ExitCode::from(start(&rt, rt.stdin(), rt.stdout()).exit_number())
}
