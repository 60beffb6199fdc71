//! The audit of recorded runs: is a text the text of a run, and could each reader have seen the levels of its line?
//!
//! [`read_run`] reads a run text into a [`RunText`]: its group lines, each with the new levels of its members, and the
//! replies of its readers. It refuses the first line that doesn't fit (`specs/Documents`). [`audit`] takes the group
//! lines as a history from level 0 of each vertex. It decides whether this history explains the replies of each reader,
//! by points that never go back (`specs/Runs` and `specs/Verdicts`). [`laws`] says what follows from the definitions,
//! and that printed runs are read back.
//!
//! Floor: documents. From above: [`read_run`] and [`audit`] by programs, and [`laws`] in proofs.
#![tactic(auto)]

mod flat;
mod form;
mod groups;
pub mod laws;
mod read;
mod run_text;
mod stage;
mod verdict;
mod walk;
mod words;

pub use groups::{GroupLine, GroupLines};
pub use read::{AuditFault, read_run};
pub use run_text::{Readers, RunText};
pub use verdict::AuditVerdict;
pub use walk::audit;
