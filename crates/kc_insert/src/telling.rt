//! What a pass over one range tells of vertices: its own, and those of other ranges.

ghost use Rattle.std.specs.Prelude.{◌≡◌, ◌+◌, ◌++◌, ◌∷◌, ◌<◌, ◌≤◌, ◌^◌, ℕ, [], true, All, IfOk, OnOk, filter, length, replicate, slice_index_or, take};
ghost use Rattle.kc_graph.specs.Numbers.{has_number};
ghost use Rattle.kc_insert.specs.private.Rising.{rises, seen};
ghost use Rattle.kc_insert.specs.private.Telling.{AreDealt, AreDealtAnew};
ghost use Rattle.kc_insert.specs.Ranges.{range_of};

use crate::layout::Layout;
use crate::rising::{RISING, RisingLevels};
use std::alloc::{AllocError, Global};
use std::marker::Model;

/// The vertices of one range on a list, each as often as a pass told it.
#[derive(Drop)]
struct ToldList {
    // In the order of the pass.
    items: Vec<u32>,
}

impl Model for ToldList {
    ghost use Rattle.std.specs.Prelude.{ℕ, List};

    ghost Value = { List ℕ };

    ghost view = { λ l. l.items.items };
}

/// What a range tells: the vertices of which it tells something, and the same cut by their ranges. Contracts see it as
/// a `Tell`.
#[derive(Drop)]
pub struct Told {
    // All of them, in the order of the pass, and then room for more.
    all: Vec<u32>,
    // How many of them there are.
    count: usize,
    // The vertices of each range, after `deal`.
    lists: Vec<ToldList>,
}

impl Model for Told {
    ghost use Rattle.std.specs.Prelude.{◌≤◌, length, take};
    ghost use Rattle.kc_insert.specs.Ranges.{Tell};

    ghost Value = { Tell };

    ghost view = { λ t. record { all = take t.count t.all.items; lists = t.lists.items } };

    ghost invariant = { λ t. t.count ≤ length t.all.items };
}

// Makes room for more items after the first `count`, which stay. Fills the list up to its capacity, so that few calls
// resize it. Fails only if memory runs out.
fn make_room(items: &mut Vec<u32>, count: usize, more: usize) -> Result<(), AllocError>
    requires within { count ≤ length items.old.items }
    requires small { more < 2 ^ 24 }
    ensures room { OnOk result (count + more ≤ length items.new.items) }
    ensures within { count ≤ length items.new.items }
    ensures same { take count items.new.items ≡ take count items.old.items }
{
    if items.len() - count < more {
        items.resize(items.capacity().max(count + more), 0)?;
    }
    Ok(())
}

// Writes the vertices of the row that rise at the places from `start` on. Returns where they end. There is no branch,
// since a processor couldn't predict it.
fn put_rising(levels: &RisingLevels, row: &[u32], items: &mut [u32], start: usize) -> usize
    requires inside { (w : ℕ) → has_number w row.now ≡ true → w < length (seen levels.now) }
    requires room { start + length row.now ≤ length items.old }
    ensures items { take result items.new ≡ take start items.old ++ filter (rises levels.now) row.now }
    ensures within { result ≤ length items.new }
{
    let now = levels.stored.as_slice();
    let mut end = start;
    for w in row {
        items[end] = *w;
        end += usize::from(now[*w as usize] == RISING);
    }
    end
}

// Puts each vertex on the list of its range. Fails only if memory runs out.
fn deal_each(layout: Layout, vertices: &[u32], lists: &mut [ToldList]) -> Result<(), AllocError>
    requires { All (λ v. range_of layout.width v < length lists.old) vertices.now }
    ensures { OnOk result (AreDealt layout.width vertices.now lists.old lists.new) }
{
    for v in vertices {
        let list = &mut lists[layout.range_of(*v)];
        list.items.push(*v)?;
    }
    Ok(())
}

impl Told {
    /// Makes empty lists for `ranges` ranges. Fails only if memory runs out.
    pub fn new(alloc: Global, ranges: usize) -> Result<Self, AllocError>
        ensures { IfOk result (λ told. told ≡ record { all = []; lists = replicate ranges [] }) }
    {
        let mut lists = Vec::with_capacity(alloc, ranges)?;
        for _ in 0..ranges {
            lists.push(ToldList {
                items: Vec::new(alloc),
            })?;
        }
        Ok(Told {
            all: Vec::new(alloc),
            count: 0,
            lists,
        })
    }

    /// Empties the list of all.
    pub fn clear(&mut self)
        ensures { self.new ≡ record self.old { all = [] } }
    {
        self.count = 0;
    }

    /// Tells of v. Fails only if memory runs out.
    pub fn tell(&mut self, v: u32) -> Result<(), AllocError>
        ensures { OnOk result (self.new ≡ record self.old { all = self.old.all ++ v ∷ [] }) }
    {
        make_room(&mut self.all, self.count, 1)?;
        self.all[self.count] = v;
        self.count += 1;
        Ok(())
    }

    /// Tells of each vertex of the row that rises. Fails only if memory runs out.
    pub fn tell_rising(&mut self, levels: &RisingLevels, row: &[u32]) -> Result<(), AllocError>
        requires inside { (w : ℕ) → has_number w row.now ≡ true → w < length (seen levels.now) }
        requires small { length row.now < 2 ^ 24 }
        ensures { OnOk result (self.new ≡ record self.old { all = self.old.all ++ filter (rises levels.now) row.now }) }
    {
        make_room(&mut self.all, self.count, row.len())?;
        self.count = put_rising(levels, row, &mut self.all, self.count);
        Ok(())
    }

    // Empties the lists of all ranges.
    fn clear_lists(&mut self)
        ensures { self.new ≡ record self.old { lists = replicate (length self.old.lists) [] } }
    {
        for i in 0..self.lists.len() {
            self.lists[i].items.clear();
        }
    }

    /// Cuts the list of all by range. Fails only if memory runs out.
    pub fn deal(&mut self, layout: Layout) -> Result<(), AllocError>
        requires { All (λ v. range_of layout.width v < length self.old.lists) self.old.all }
        ensures same { OnOk result (self.new.all ≡ self.old.all) }
        ensures dealt { OnOk result (AreDealtAnew layout.width self.old self.new) }
    {
        self.clear_lists();
        deal_each(layout, &self.all[..self.count], &mut self.lists)?;
        Ok(())
    }

    /// Returns all vertices that the pass told, in order.
    pub fn all(&self) -> &[u32]
        ensures { result.now ≡ self.now.all }
    {
        &self.all[..self.count]
    }

    /// Returns the vertices of a range that the pass told, after `deal`.
    pub fn of_range(&self, range: usize) -> &[u32]
        requires { range < length self.now.lists }
        ensures { result.now ≡ slice_index_or self.now.lists range [] }
    {
        self.lists[range].items.as_slice()
    }
}
