//! Certificates: a graph with its levels as a text that anyone can check without its history.
//!
//! [`write_certificate`] writes one. [`read_certificate`] reads one back, or returns the first line that doesn't fit.
//! [`verify`] decides whether its levels meet both invariants: if so, they bound the coreness of each vertex, whatever
//! program wrote the text. `specs/` has the definitions. Read `Texts` for what is written, `Tokens` and then
//! `Documents` for what is read, and `Verdicts`.
//!
//! Floor: documents. From above: the three calls by programs, and [`laws`] in proofs.
#![tactic(auto)]

mod certificate;
mod filling;
pub mod laws;
mod read;
mod token;
mod turn;
mod verdict;
mod write;

pub use certificate::Certificate;
pub use read::{CertFault, read_certificate};
pub use verdict::{Verdict, verify};
pub use write::write_certificate;
