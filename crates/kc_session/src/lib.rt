//! Sessions: the batches of an input beside its readers.
//!
//! [`run_session`] opens an engine and a store, and runs two branches side by side. In one of them each batch is read,
//! applied, shown in the store and reported before the next (`batches`). In the other an [`Agent`] for each ask puts
//! its questions to the store and keeps the replies. Before it puts the same list once more, it looks at the progress
//! of the batches (`progress`).
//!
//! Afterwards the writer closes the agents, and its history explains their replies. A last pass reads the levels of all
//! vertices. If there are no asks, no store is opened (`audience`). `specs/SessionText` defines the written text, and
//! the facts that hold of it.
//!
//! [`settle`] applies the batches of an input without readers. [`GenSource`] is a source of a generated input, whose
//! text `specs/Generated` defines.
//!
//! Floor: sessions and programs. From above: [`run_session`], [`settle`] and [`GenSource`] by `kcore`, and [`laws`] in
//! proofs. `kserve` has clients in place of an input.
#![tactic(auto)]

mod agent;
mod agents;
mod applying;
mod audience;
mod batches;
mod context;
mod counts;
mod ended;
mod fault;
mod gen_source;
mod generator;
mod last_lines;
mod last_pass;
pub mod laws;
mod progress;
mod report;
mod session;
mod settling;
mod watched;

pub use agent::Agent;
pub use agents::{close_all, open_agents, run_agents};
pub use ended::Ended;
pub use fault::SessionFault;
pub use gen_source::GenSource;
pub use last_lines::{write_readers, write_tail};
pub use last_pass::read_all;
pub use progress::Progress;
pub use session::run_session;
pub use settling::{Settled, settle};
