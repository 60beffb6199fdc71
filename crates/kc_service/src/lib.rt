//! A service that bounds the coreness of each vertex of a graph while batches of items change the graph.
//!
//! Each vertex has a level, a small number that stands for bounds of its coreness ([`Bounds`]). A batch changes the
//! graph and the levels. Readers in threads of their own look up levels and bounds meanwhile.
//!
//! - [`Service::open`] opens a service with [`Options`].
//! - [`Service::apply`] applies a batch of items whole, or refuses it with a cause and changes nothing.
//! - [`Service::reader`] returns a [`Reader`], which any thread may own.
//! - [`Reader::level`] and [`Reader::bounds`] answer while batches are applied.
//! - [`Service::coreness`] computes the coreness of each vertex exactly, and [`Service::certificate`] writes a text
//!   from which anyone can check the levels.
//!
//! No call asks its caller for a proof: arguments that could be wrong are tested at run time.
//!
//! ```text
//! let mut service = Service::open(&rt, rt.alloc(), Options::for_vertices(5))?;
//! let mut reader = service.reader()?;
//! let applied = service.apply(&[Item::Insert { u: 0, v: 1 }])?;
//! let bounds = reader.bounds(1);
//! ```
//!
//! The program `tour` has three batches and two readers in threads of their own. `specs/` has the definitions:
//! `Services` for the changes of a service, `Readers` for the answers of a reader.
#![tactic(auto)]

mod applied;
mod board;
mod faults;
mod items;
mod options;
mod planning;
mod reader;
mod service;

pub use applied::Applied;
pub use board::Board;
pub use faults::{ApplyFault, CertificateFault, CorenessFault, Halted, OpenFault};
pub use kc_engine::PhasePlans;
pub use kc_graph::{Edge, Edges, Graph, Item, MAX_EDGES, MAX_ITEMS, MAX_VERTICES};
pub use kc_groups::PhasePlan;
pub use kc_history::{Entries, Entry, MAX_PHASE, Move, Moves};
pub use kc_levels::{Levels, Profile};
pub use kc_text::{MemSink, Sink, StdSink};
pub use options::{MAX_WORKERS, Options};
pub use reader::{Bounds, Reader};
pub use service::{Parts, Service};
