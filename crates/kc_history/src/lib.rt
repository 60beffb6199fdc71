//! The history of a graph with levels: a list of entries, each a change that takes effect at once.
//!
//! An [`Entry`] has moves of vertices from one level to another, and edges that come in or leave. The entries of one
//! phase carry its number. [`Entries`] is a list of entries, and [`Moves`] of `kc_levels` a list of moves. Point p of a
//! history is what its first p entries make of the graph without edges and of level 0 everywhere. `specs/Points`
//! defines points, and [`laws`] says what holds of them. A [`Reply`] has the level of a vertex; `specs/Replies` defines
//! when a history explains the replies of a reader.
//!
//! Floor: graph and levels. From above: entries for plans, the store and texts; replies for readers and audits;
//! [`laws`] in proofs.
#![tactic(auto)]

mod entries;
mod entry_lists;
pub mod laws;
mod limits;
mod replies;

pub use entries::Entry;
pub use entry_lists::Entries;
pub use kc_graph::MAX_VERTICES;
pub use kc_levels::{Move, Moves};
pub use limits::MAX_PHASE;
pub use replies::{Replies, Reply};
