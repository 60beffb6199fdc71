//! Updates from many clients, taken in by one server.
//!
//! Clients in threads of their own [`submit`](Intake::submit) items to an [`Intake`], a bounded queue without a lock.
//! The server [`drain`](Intake::drain)s them in batches. No update is lost or doubled. The updates of each client stay
//! in its order; between clients there is no order. Once a client has ended, [`take_in`](Intake::take_in) shows that
//! the items drained of it are those that it sent.
//!
//! `specs/` has the definitions:
//!
//! - `Updates`: the updates of a client;
//! - `Views`: what contracts see of an intake, a client and a drainer;
//! - `Rule`: what always holds of the queue;
//! - `Causes`: when the queue counts as full or empty.
#![tactic(auto)]

mod client;
mod drainer;
mod intake;
mod invariant;
pub mod laws;
mod limits;
mod roles;
mod rule;
mod updates;

pub use client::Client;
pub use drainer::Drainer;
pub use intake::Intake;
pub use invariant::{Anything, Invariant};
pub use limits::{MAX_CAPACITY, MAX_CLIENTS, MAX_SENT};
pub use roles::{Drained, Role, Submitted};
pub use updates::{Empty, Full, Update};
