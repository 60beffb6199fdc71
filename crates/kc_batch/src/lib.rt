//! The grammar of a batch input: its header and its batches, each with its first fault.
//!
//! [`Header::read`] reads the header, and each call of [`next_batch`] the next batch. [`await_batch`] reads it too, and
//! flushes a sink before it waits. [`read_ahead`] reads as much of it as lies in the reader's memory, and
//! [`await_batch`] the rest. Contracts define the results over the whole list of lines of the input: read `Headers` and
//! then `Batches` of `specs/`.
#![tactic(auto)]

mod adding;
mod ahead;
mod ask;
mod await_fault;
mod batch;
mod header;
mod items;
pub mod laws;
mod reading_ahead;
mod rules;
mod text;
mod token;
mod turn;

pub use ahead::Ahead;
pub use ask::{Ask, Asks, Vertices};
pub use await_fault::AwaitFault;
pub use batch::{Batch, BatchFault, Next, await_batch, next_batch};
pub use header::{Header, HeaderFault, vertices_in};
pub use items::Items;
pub use reading_ahead::read_ahead;
pub use rules::Rules;
