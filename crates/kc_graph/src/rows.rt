//! The row of a vertex: its neighbours, ascending.

ghost use Rattle.std.specs.Prelude.{◌≡◌, ℕ, ◌≤◌, ◌<◌, ◌↔◌, ◌∷◌, ◌++◌, ◌||◌, not, true, [], List, length, take, drop, insert, IsTrue, OnOk, OnErr, All, filter};
ghost use Rattle.kc_graph.specs.Numbers.{has_number, RisesFrom};
ghost use Rattle.kc_graph.specs.private.Numbers.{put, without, Found};
ghost use Rattle.kc_graph.specs.private.HalfLists.{halves_of};
ghost use Rattle.kc_graph.specs.private.Halves.{has_second, SecondsRise};

use crate::halves::Halves;
use crate::merging::{keep_others, merge_back};
use smallvec::SmallVec;
use std::alloc::{AllocError, Global};
use std::marker::Model;

// The numbers of a row. Up to four lie in the row itself, and more in a block of their own.
type Numbers = SmallVec<u32, 4>;

/// A set of numbers. Contracts see the ascending list of them.
#[derive(Drop)]
pub struct Row {
    // Strictly ascending.
    items: Numbers,
}

impl Model for Row {
    ghost Value = { List ℕ };

    ghost view = { λ r. r.items.items };

    ghost invariant = { λ r. RisesFrom 0 r.items.items };
}

// Returns the place of x in the list, or where it belongs.
fn place_of(items: &[u32], x: u32) -> Result<usize, usize>
    requires { RisesFrom 0 items.now }
    ensures { Found items.now x result }
{
    items.binary_search(&x)
}

// Returns whether all of the list is below x, by its last number.
fn ends_below(items: &[u32], x: u32) -> bool
    requires { RisesFrom 0 items.now }
    ensures { IsTrue result ↔ All (λ y. y < x) items.now }
{
    match items.last() {
        Some(last) => *last < x,
        None => true,
    }
}

// The least room that is added at once. It counts only for a row of fewer than four numbers into which several come.
const LEAST_ROOM: usize = 6;

// Makes room for further numbers. A full row gets room for two more than twice its numbers: 10, 22, 46 and so on. An
// allocator puts a word before each block, so these fill 48, 96 and 192 bytes. Such rows grow less often than those of
// 8, 16 and 32 numbers, and lie closer together. Fails only if memory runs out.
fn make_room(items: &mut Numbers, further: usize) -> Result<(), AllocError>
    ensures { items.new.items ≡ items.old.items }
{
    let len = items.len();
    if items.capacity() - len < further {
        let room = len.saturating_add(2).max(LEAST_ROOM).max(further);
        items.reserve_exact(room)?;
    }
    Ok(())
}

// Removes the numbers from one place up to another. There are none, unless a number that came in was there before. Each
// costs a move of all that follow it.
fn close(items: &mut Numbers, from: usize, to: usize)
    requires order { from ≤ to }
    requires within { to ≤ length items.old.items }
    ensures { items.new.items ≡ take from items.old.items ++ drop to items.old.items }
{
    for _ in from..to {
        let _ = items.remove(from);
    }
}

// Brings the last number down to a place, and moves those from there on up by one. A turn does that with vector code,
// but `SmallVec::insert` number by number.
fn carry_down(items: &mut [u32], place: usize)
    requires { place < length items.old }
    ensures { (front : List ℕ) (x : ℕ) → items.old ≡ front ++ x ∷ [] → items.new ≡ insert front place x }
{
    items[place..].rotate_right(1);
}

impl Row {
    pub fn new(alloc: Global) -> Self
        ensures { result ≡ [] }
    {
        Row {
            items: Numbers::new(alloc),
        }
    }

    pub fn as_slice(&self) -> &[u32]
        ensures { result.now ≡ self.now }
    {
        self.items.as_slice()
    }

    /// Prefetches the row: loads its first and its last number, for a pass over the row. Always returns true, since a
    /// row ascends.
    pub fn prefetch(&self) -> bool
        ensures { result ≡ true }
    {
        let items = self.items.as_slice();
        let n = items.len();
        n == 0 || items[0] <= items[n - 1]
    }

    pub fn has(&self, x: u32) -> bool
        ensures { result ≡ has_number x self.now }
    {
        place_of(self.items.as_slice(), x).is_ok()
    }

    /// Puts x at its place; a row that has x is unchanged. A number above all others costs no search and no move. Fails
    /// only if memory runs out; the row is then unchanged.
    pub fn insert(&mut self, x: u32) -> Result<(), AllocError>
        ensures ok { OnOk result (self.new ≡ put x self.old) }
        ensures rises { RisesFrom 0 self.new }
        ensures err { OnErr result (self.new ≡ self.old) }
    {
        if ends_below(self.items.as_slice(), x) {
            make_room(&mut self.items, 1)?;
            self.items.push(x)?;
            return Ok(());
        }
        match place_of(self.items.as_slice(), x) {
            Ok(_) => Ok(()),
            Err(place) => {
                make_room(&mut self.items, 1)?;
                self.items.push(x)?;
                carry_down(self.items.as_mut_slice(), place);
                Ok(())
            }
        }
    }

    /// Takes x out; a row without x is unchanged.
    pub fn remove(&mut self, x: u32)
        ensures value { self.new ≡ without x self.old }
        ensures rises { RisesFrom 0 self.new }
    {
        if let Ok(place) = place_of(self.items.as_slice(), x) {
            let _ = self.items.remove(place);
        }
    }

    /// Puts the other ends of the halves at their places; those that the row has are unchanged. A single one goes as in
    /// `insert`, several by one pass from the greatest down. Fails only if memory runs out; the row is then unchanged.
    pub fn insert_all(&mut self, incoming: Halves<'_>) -> Result<(), AllocError>
        requires { SecondsRise (halves_of incoming) }
        ensures ok { OnOk result ((x : ℕ) → has_number x self.new ≡ has_number x self.old || has_second x (halves_of incoming.entry)) }
        ensures rises { RisesFrom 0 self.new }
        ensures err { OnErr result (self.new ≡ self.old) }
    {
        if incoming.len() == 1 {
            return self.insert(incoming.other_at(0));
        }
        self.merge_in(incoming)
    }

    // Does what `insert_all` does, by one pass from the greatest down.
    fn merge_in(&mut self, incoming: Halves<'_>) -> Result<(), AllocError>
        requires { SecondsRise (halves_of incoming) }
        ensures ok { OnOk result ((x : ℕ) → has_number x self.new ≡ has_number x self.old || has_second x (halves_of incoming.entry)) }
        ensures rises { RisesFrom 0 self.new }
        ensures err { OnErr result (self.new ≡ self.old) }
    {
        let old = self.items.len();
        let Some(len) = old.checked_add(incoming.len()) else {
            return Err(AllocError);
        };
        make_room(&mut self.items, incoming.len())?;
        self.items.resize(len, 0)?;
        let (end, next) = merge_back(self.items.as_mut_slice(), old, incoming);
        close(&mut self.items, end, next);
        Ok(())
    }

    /// Takes the other ends of the halves out. A single one goes as in `remove`, several by one pass, and few of a long
    /// row by a search for each.
    pub fn remove_all(&mut self, outgoing: Halves<'_>)
        requires { SecondsRise (halves_of outgoing) }
        ensures value { self.new ≡ filter (λ x. not (has_second x (halves_of outgoing.entry))) self.old }
        ensures rises { RisesFrom 0 self.new }
    {
        if outgoing.len() == 1 {
            self.remove(outgoing.other_at(0));
            return;
        }
        self.keep_others(outgoing);
    }

    // Does what `remove_all` does, in place and in order.
    fn keep_others(&mut self, outgoing: Halves<'_>)
        requires { SecondsRise (halves_of outgoing) }
        ensures value { self.new ≡ filter (λ x. not (has_second x (halves_of outgoing.entry))) self.old }
        ensures rises { RisesFrom 0 self.new }
    {
        let kept = keep_others(self.items.as_mut_slice(), outgoing);
        self.items.truncate(kept);
    }
}
