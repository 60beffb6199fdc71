//! A reader of a store.
ghost use Rattle.std.specs.Prelude.{◌≡◌};

use kc_store::{Pass, Store, Writer};

/// Reads levels, each at a point of the history that isn't before the earlier ones.
#[derive(Drop)]
pub struct Reader<'a> {
    store: &'a Store,
    pass: Pass,
    ghost of: { pass.table ≡ store.now.table },
}

impl<'a> Reader<'a> {
    /// Makes a reader that has seen the whole history of the store's writer.
    pub fn new(store: &'a Store, writer: &mut Writer) -> Reader<'a>
        requires { writer.old.table ≡ store.now.table }
        ensures { writer.new ≡ writer.old }
    {
        Reader {
            store,
            pass: writer.pass(store),
        }
    }

    /// Returns the level of v, or `None` if there is no such vertex.
    pub fn read(&mut self, v: u32) -> Option<u16> {
        if v < self.store.vertices() {
            Some(self.store.read(&mut self.pass, v))
        } else {
            None
        }
    }
}
