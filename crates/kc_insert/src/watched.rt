//! How many neighbours each vertex of a range counts, with a watch list of the vertices whose count is at the limit.

ghost use Rattle.std.specs.Prelude.{◌≡◌, ◌+◌, ◌-◌, ◌<◌, ◌≤◌, ◌^◌, ℕ, true, OnOk, IfOk, [], filter, length, slice_set};
ghost use Rattle.kc_graph.specs.Numbers.{has_number};
ghost use Rattle.kc_insert.specs.private.Telling.{times};
ghost use Rattle.kc_insert.specs.private.Watched.{count_at, is_few, StayWatched};
ghost use Rattle.kc_insert.specs.Ranges.{HasVertex};

use std::alloc::{AllocError, Global};
use std::marker::Model;

/// How many neighbours each vertex of a range counts, and a watch list of the vertices whose count became the limit.
/// Contracts see it as a `Watch`.
#[derive(Drop)]
pub struct WatchedCounts {
    // The first vertex of the range.
    first: u32,
    // How many neighbours each vertex counts, that of the first one first.
    counts: Vec<u32>,
    // The limit: the greatest count with which a rising vertex stays.
    most: u32,
    // The vertices whose count became the limit, and maybe others.
    doubtful: Vec<u32>,
}

impl Model for WatchedCounts {
    ghost use Rattle.std.specs.Prelude.{◌+◌, ◌^◌, ◌≤◌, length};
    ghost use Rattle.kc_insert.specs.Ranges.{Watch};

    ghost Value = { Watch };

    ghost view = { λ w. record { first = w.first; counts = w.counts.items; most = w.most; doubtful = w.doubtful.items } };

    ghost invariant = { λ w. w.first + length w.counts.items ≤ 2 ^ 24 };
}

impl WatchedCounts {
    /// Makes counts of the vertices from `first` on, with an empty watch list. Fails only if memory runs out.
    pub fn new(alloc: Global, first: u32, counts: &[u32]) -> Result<Self, AllocError>
        requires { first + length counts.now ≤ 2 ^ 24 }
        ensures { IfOk result (λ w. w ≡ record { first = first; counts = counts.now; most = 0; doubtful = [] }) }
    {
        Ok(WatchedCounts {
            first,
            counts: counts.to_vec(alloc)?,
            most: 0,
            doubtful: Vec::new(alloc),
        })
    }

    /// Returns how many neighbours v counts.
    pub fn count(&self, v: u32) -> u32
        requires { HasVertex self.now v }
        ensures { result ≡ count_at self.now v }
    {
        self.counts[(v - self.first) as usize]
    }

    /// Returns the first vertex of the range.
    pub fn first(&self) -> u32
        ensures { result ≡ self.now.first }
    {
        self.first
    }

    /// Returns the counts, that of the first vertex first.
    pub fn counts(&self) -> &[u32]
        ensures { result.now ≡ self.now.counts }
    {
        self.counts.as_slice()
    }

    /// Returns the limit: the greatest count with which a rising vertex stays.
    pub fn most(&self) -> u32
        ensures { result ≡ self.now.most }
    {
        self.most
    }

    /// Returns the watch list.
    pub fn doubtful(&self) -> &[u32]
        ensures { result.now ≡ self.now.doubtful }
    {
        self.doubtful.as_slice()
    }

    /// Empties the watch list.
    pub fn clear(&mut self)
        ensures { self.new ≡ record self.old { doubtful = [] } }
    {
        self.doubtful.clear();
    }

    /// Sets the count of v. The watch list stays.
    pub fn set(&mut self, v: u32, count: u32)
        requires { HasVertex self.old v }
        ensures { self.new ≡ record self.old { counts = slice_set self.old.counts (v - self.old.first) count } }
    {
        self.counts[(v - self.first) as usize] = count;
    }

    /// Lessens the count of v by one. Fails only if memory runs out.
    pub fn lessen(&mut self, v: u32) -> Result<(), AllocError>
        requires vertex { HasVertex self.old v }
        requires some { 1 ≤ count_at self.old v }
        ensures counts { OnOk result (self.new.counts ≡ slice_set self.old.counts (v - self.old.first) (count_at self.old v - 1)) }
        ensures watched { OnOk result (StayWatched self.old self.new) }
    {
        let place = (v - self.first) as usize;
        let count = self.counts[place] - 1;
        self.counts[place] = count;
        if count == self.most {
            self.doubtful.push(v)?;
        }
        Ok(())
    }

    /// Lessens the count of each vertex of the list, once for each time that it is there. Fails only if memory runs
    /// out.
    pub fn lessen_all(&mut self, vertices: &[u32]) -> Result<(), AllocError>
        requires held { (v : ℕ) → has_number v vertices.now ≡ true → HasVertex self.old v }
        requires enough { (v : ℕ) → times v vertices.now ≤ count_at self.old v }
        ensures less { OnOk result ((v : ℕ) → self.old.first ≤ v → count_at self.new v + times v vertices.now ≡ count_at self.old v) }
        ensures watched { OnOk result (StayWatched self.old self.new) }
    {
        for v in vertices {
            self.lessen(*v)?;
        }
        Ok(())
    }

    /// Sets the count of v, and watches v if the count is within the limit. Fails only if memory runs out.
    pub fn put(&mut self, v: u32, count: u32) -> Result<(), AllocError>
        requires { HasVertex self.old v }
        ensures counts { OnOk result (self.new.counts ≡ slice_set self.old.counts (v - self.old.first) count) }
        ensures watched { OnOk result (StayWatched self.old self.new) }
    {
        let place = (v - self.first) as usize;
        self.counts[place] = count;
        if count <= self.most {
            self.doubtful.push(v)?;
        }
        Ok(())
    }

    /// Makes `most` the limit: the watch list has the vertices, in order, whose count is within it. Fails only if
    /// memory runs out.
    pub fn watch(&mut self, most: u32, vertices: &[u32]) -> Result<(), AllocError>
        requires { (v : ℕ) → has_number v vertices.now ≡ true → HasVertex self.old v }
        ensures { OnOk result (self.new ≡ record self.old { most = most; doubtful = filter (is_few self.old most) vertices.now }) }
    {
        self.most = most;
        self.doubtful.clear();
        for v in vertices {
            if self.counts[(*v - self.first) as usize] <= most {
                self.doubtful.push(*v)?;
            }
        }
        Ok(())
    }
}
