//! A `Vec` that contracts see as the list of its items.

ghost use Rattle.std.specs.Prelude.{◌≡◌, ◌↔◌, [], ◌∷◌, ◌++◌, length, IsTrue, OnOk, OnErr};

use std::alloc::{AllocError, Global};
use std::marker::Model;

/// Items one after another. Contracts see them as a list.
#[derive(Drop, Debug)]
pub struct List<T> {
    // In the order of the list.
    pub(crate) items: Vec<T>,
}

impl<T> Model for List<T> {
    ghost use Rattle.std.specs.Prelude.{List};

    ghost Value = { List T };

    ghost view = { λ l. l.items.items };
}

impl<T: Drop> List<T> {
    /// Makes an empty list. Takes no memory.
    pub fn new(alloc: Global) -> Self
        ensures { result ≡ [] }
    {
        List {
            items: Vec::new(alloc),
        }
    }

    /// Makes a list of the items of a `Vec`, in its order. Takes no memory.
    pub fn from_vec(items: Vec<T>) -> Self
        ensures { result ≡ items.items }
    {
        List { items }
    }

    /// Returns the `Vec` of the items. Takes no memory.
    pub fn into_vec(self) -> Vec<T>
        ensures { result.items ≡ self }
    {
        self.items
    }

    /// Returns the items as a slice.
    pub fn as_slice(&self) -> &[T]
        ensures { result.now ≡ self.now }
    {
        self.items.as_slice()
    }

    /// Returns the number of items.
    pub fn len(&self) -> usize
        ensures { result ≡ length self.now }
    {
        self.items.len()
    }

    /// Returns whether there are no items.
    pub fn is_empty(&self) -> bool
        ensures { IsTrue result ↔ (self.now ≡ []) }
    {
        self.items.is_empty()
    }

    /// Makes room for this many further items, and no more. If there is as much already, does nothing. Fails only if
    /// memory runs out. The list is unchanged in any case.
    pub fn reserve_exact(&mut self, further: usize) -> Result<(), AllocError>
        ensures { self.new ≡ self.old }
    {
        self.items.reserve_exact(further)?;
        Ok(())
    }

    /// Appends an item. Fails only if memory runs out; the list is then unchanged.
    pub fn push(&mut self, item: T) -> Result<(), AllocError>
        ensures ok { OnOk result (self.new ≡ self.old ++ item ∷ []) }
        ensures err { OnErr result (self.new ≡ self.old) }
    {
        self.items.push(item)?;
        Ok(())
    }

    /// Appends the items of another list, in its order. Fails only if memory runs out; the list is then unchanged, and
    /// those items are dropped.
    pub fn append(&mut self, later: List<T>) -> Result<(), AllocError>
        ensures ok { OnOk result (self.new ≡ self.old ++ later) }
        ensures err { OnErr result (self.new ≡ self.old) }
    {
        let mut items = later.into_vec();
        self.items.append(&mut items)?;
        Ok(())
    }
}
