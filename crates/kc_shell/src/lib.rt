//! The shell of both programs: the words of their command lines, and the ways in which they end.
//!
//! [`words_of`] returns the words of the command line, and [`workers_in`] the number of workers that a word says. A
//! [`Status`] says how a call ended, and has an exit number. [`keep_memory`] lets the allocator keep blocks that are
//! given back.
//!
//! `specs/` has the definitions: `Statuses` for the causes of a status and its exit number, `Workers` for numbers of
//! workers.
//!
//! Floor: sessions and programs. From above: the programs `kcore` and `kserve`.
#![tactic(auto)]

mod command_line;
mod kept_memory;
mod status;
mod workers;

pub use command_line::words_of;
pub use kept_memory::keep_memory;
pub use status::Status;
pub use workers::workers_in;
