//! The last pass: the levels at the end of the history.
ghost use Rattle.std.specs.Prelude.{◌≡◌, length, IfOk};
ghost use Rattle.kc_history.specs.Points.{levels_at};

use kc_store::{Store, Writer};
use std::alloc::{AllocError, Global};

/// Returns the levels of all vertices at the end of the writer's history. A pass is split off, reads each vertex, and
/// is taken in.
///
/// The writer is the store's. Takes memory for a level of each vertex. If there is none, the history is as before.
pub fn read_all(alloc: Global, store: &Store, writer: &mut Writer) -> Result<Vec<u16>, AllocError>
    requires table { writer.old.table ≡ store.now.table }
    ensures table { writer.new.table ≡ writer.old.table }
    ensures state { writer.new.state ≡ record writer.old.state { joined = writer.new.state.joined } }
    ensures levels { IfOk result (λ levels. levels.items ≡ levels_at store.now.vertices writer.old.state.history (length writer.old.state.history)) }
{
    let mut pass = writer.pass(store);
    let mut levels = Vec::new(alloc);
    for v in 0..store.vertices() {
        let level = store.read(&mut pass, v);
        levels.push(level)?;
    }
    writer.take_in(store, pass);
    Ok(levels)
}
