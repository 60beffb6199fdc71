//! Items filed under levels, and the next level with items. A search passes 64 levels at one step if none of them had
//! items since the last `clear`.

ghost use Rattle.std.specs.Prelude.{◌≡◌, ◌+◌, ◌++◌, ◌∷◌, ◌<◌, ◌≤◌, ℕ, [], replicate, OnOk, OnErr, IfOk, slice_index_or, slice_set, length};

use std::alloc::{AllocError, Global};
use std::marker::Model;
use std::mem;

// The number of levels that share a mark.
const SPAN: usize = 64;

// The number of items for which a list's first memory has room. A sweep fills and empties its lists over and over, and
// lists that begin with room for 4 grow twice more.
const FIRST_ROOM: usize = 16;

/// The items of one level, in the order in which they came.
#[derive(Drop)]
struct LevelList<T> {
    // The items, in the order in which they were filed.
    items: Vec<T>,
}

impl<T> Model for LevelList<T> {
    ghost use Rattle.std.specs.Prelude.{List};

    ghost Value = { List T };

    ghost view = { λ l. l.items.items };
}

/// A list of items for each level, from level 0 up to some level.
///
/// Contracts see a list of lists, that of level 0 first; there are fewer than 65,536.
#[derive(Drop)]
pub struct LevelLists<T> {
    // One list for each level from 0 on; fewer than 65,536.
    lists: Vec<LevelList<T>>,
    // For each 64 levels, whether one of them may have items.
    marks: Vec<bool>,
    // No level from this one on has items.
    end: u16,
}

impl<T> Model for LevelLists<T> {
    ghost use Rattle.std.specs.Prelude.{List};
    ghost use Rattle.kc_adj.specs.LevelLists.{AreMarked};

    ghost Value = { List (List T) };

    ghost view = { λ q. q.lists.items };

    ghost invariant = { λ q. AreMarked q.lists.items q.marks.items q.end };
}

impl<T: Drop> LevelLists<T> {
    /// Makes `count` lists without items, from level 0 on. Fails only if memory runs out.
    pub fn new(alloc: Global, count: u16) -> Result<Self, AllocError>
        ensures { IfOk result (λ q. q ≡ replicate count []) }
    {
        let mut lists = Vec::with_capacity(alloc, count as usize)?;
        for _ in 0..count {
            lists.push(LevelList {
                items: Vec::new(alloc),
            })?;
        }
        let marks = vec![in alloc; false; count as usize / SPAN + 1]?;
        Ok(LevelLists {
            lists,
            marks,
            end: 0,
        })
    }

    /// Returns the number of levels that have a list. Costs O(1).
    pub fn count(&self) -> u16
        ensures { result ≡ length self.now }
    {
        self.lists.len() as u16
    }

    /// Adds lists without items up to this level, if there are fewer. Fails only if memory runs out; some lists may
    /// have been added then.
    pub fn reach(&mut self, alloc: Global, level: u16) -> Result<(), AllocError>
        requires { level < 65535 }
        ensures enough { OnOk result (level < length self.new) }
        ensures longer { length self.old ≤ length self.new }
        ensures same { (k : ℕ) → slice_index_or self.new k [] ≡ slice_index_or self.old k [] }
    {
        while self.marks.len() <= level as usize / SPAN {
            self.marks.push(false)?;
        }
        while self.lists.len() <= level as usize {
            self.lists.push(LevelList {
                items: Vec::new(alloc),
            })?;
        }
        Ok(())
    }

    /// Appends an item to the list of a level. A list's first memory has room for 16 items. Fails only if memory runs
    /// out; then nothing is changed.
    pub fn file(&mut self, level: u16, item: T) -> Result<(), AllocError>
        requires { level < length self.old }
        ensures ok { OnOk result (self.new ≡ slice_set self.old level (slice_index_or self.old level [] ++ item ∷ [])) }
        ensures err { OnErr result (self.new ≡ self.old) }
    {
        self.marks[level as usize / SPAN] = true;
        if self.end <= level {
            self.end = level + 1;
        }
        let items = &mut self.lists[level as usize].items;
        if items.capacity() == 0 {
            items.reserve_exact(FIRST_ROOM)?;
        }
        items.push(item)?;
        Ok(())
    }

    /// Returns the items of a level.
    pub fn on(&self, level: u16) -> &[T]
        requires { level < length self.now }
        ensures { result.now ≡ slice_index_or self.now level [] }
    {
        self.lists[level as usize].items.as_slice()
    }

    /// Takes all items of a level out.
    pub fn take_all(&mut self, alloc: Global, level: u16) -> Vec<T>
        requires { level < length self.old }
        ensures taken { result.items ≡ slice_index_or self.old level [] }
        ensures left { self.new ≡ slice_set self.old level [] }
    {
        mem::replace(&mut self.lists[level as usize].items, Vec::new(alloc))
    }

    /// Returns the first level from this one on that has items, or the number of levels if there is none.
    pub fn next(&self, from: u16) -> u16
        requires { from ≤ length self.now }
        ensures from { from ≤ result }
        ensures inside { result ≤ length self.now }
        ensures none { (k : ℕ) → from ≤ k → k < result → slice_index_or self.now k [] ≡ [] }
        ensures some { slice_index_or self.now result [] ≡ [] → length self.now ≤ result }
    {
        let mut level = from as usize;
        let end = self.end as usize;
        while level < end {
            if !self.marks[level / SPAN] {
                level = (level / SPAN + 1) * SPAN;
            } else if self.lists[level].items.is_empty() {
                level += 1;
            } else {
                return level as u16;
            }
        }
        self.lists.len() as u16
    }

    /// Drops all items.
    pub fn clear(&mut self, alloc: Global)
        ensures { self.new ≡ replicate (length self.old) [] }
    {
        let mut level = self.next(0);
        while (level as usize) < self.lists.len() {
            self.take_all(alloc, level);
            level = self.next(level + 1);
        }
        self.marks.as_mut_slice().fill(false);
        self.end = 0;
    }
}
