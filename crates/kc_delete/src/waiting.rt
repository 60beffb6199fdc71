//! The queue of a deletion phase: vertices wait under levels, and those under the least level are the next round.

ghost use Rattle.std.specs.Prelude.{◌≡◌, ℕ, ◌<◌, ◌≤◌, ◌-◌, ◌⊎◌, ◌&&◌, ◌||◌, List, Bool, true, false, not, [], All, IfOk, IfSome, IfNone, OnOk, OnErr, length, replicate, slice_index_or, slice_set};
ghost use Rattle.kc_graph.specs.Numbers.{has_number};
ghost use Rattle.kc_delete.specs.private.Capped.{IsSiftedIn, IsTakenIn};
ghost use Rattle.kc_delete.specs.private.Waiting.{AreFiled};

use crate::capped::Capped;
use crate::short::Short;
use kc_adj::LevelLists;
use kc_rounds::{FirstRound, Gate, Rounds};
use std::alloc::{AllocError, Global};
use std::marker::Model;
use std::thread::Threads;

/// Vertices that wait for a test, each filed under a level. The next round is the vertices of the least level.
///
/// Contracts see a list of marks: for each vertex, whether it waits. There are lists up to the greatest level under
/// which a vertex was filed. If no waiting vertex is added again, each is in at most one list, or in the round.
#[derive(Drop)]
pub struct Waiting {
    // For each level the vertices that are filed under it.
    filed: LevelLists<u32>,
    // No vertex that waits is filed under a lower level.
    first: u16,
    // The rest of the open round.
    round: Vec<u32>,
    // The level under which the vertices of the round were filed.
    level: u16,
    // For each vertex, whether it waits.
    marks: Vec<bool>,
    // The allocator of the lists.
    alloc: Global,
}

impl Model for Waiting {
    ghost use Rattle.std.specs.Prelude.{List, Bool};
    ghost use Rattle.kc_delete.specs.private.Waiting.{AreFiled};

    ghost Value = { List Bool };

    ghost view = { λ w. w.marks.items };

    ghost invariant = { λ w. AreFiled w.first w.filed w.round.items w.marks.items };
}

// Takes the last vertex of a round that still waits. Afterwards it doesn't wait.
fn take_from(round: &mut Vec<u32>, marks: &mut Vec<bool>) -> Option<u32>
    requires inside { (v : ℕ) → has_number v round.old.items ≡ true → v < length marks.old.items }
    ensures inside { IfSome result (λ v. v < length marks.old.items) }
    ensures waited { IfSome result (λ v. slice_index_or marks.old.items v false ≡ true) }
    ensures taken { IfSome result (λ v. marks.new.items ≡ slice_set marks.old.items v false) }
    ensures kept { IfNone result (marks.new.items ≡ marks.old.items) }
    ensures none { IfNone result (round.new.items ≡ []) }
    ensures fewer { (v : ℕ) → has_number v round.new.items ≡ true → has_number v round.old.items ≡ true }
    ensures still { (v : ℕ) → slice_index_or marks.new.items v false ≡ true → has_number v round.old.items ≡ true → has_number v round.new.items ≡ true }
{
    while let Some(v) = round.pop() {
        if marks[v as usize] {
            marks[v as usize] = false;
            return Some(v);
        }
    }
    None
}

// Takes the vertices of the least level that has some, from `first` on. Takes none if no level has any.
fn take_least(alloc: Global, filed: &mut LevelLists<u32>, first: &mut u16) -> Vec<u32>
    requires inside { first.old ≤ length filed.old }
    ensures filed { (waits : List Bool) → AreFiled first.old filed.old [] waits → AreFiled first.new filed.new result.items waits }
    ensures inside { first.new ≤ length filed.new }
    ensures none { result.items ≡ [] → length filed.new ≤ first.new }
    ensures some { (result.items ≡ []) ⊎ (length filed.new - first.new < length filed.old - first.old) }
{
    let level = filed.next(*first);
    if level == filed.count() {
        *first = level;
        return Vec::new(alloc);
    }
    *first = level + 1;
    filed.take_all(alloc, level)
}

// Lets only the movers among the candidates wait on.
fn keep_marks(marks: &mut Vec<bool>, candidates: &[u32], movers: &[u32])
    requires candidates { All (λ v. v < length marks.old.items) candidates.now }
    requires movers { All (λ v. v < length marks.old.items) movers.now }
    ensures sized { length marks.new.items ≡ length marks.old.items }
    ensures marks { (v : ℕ) → slice_index_or marks.new.items v false ≡ has_number v movers.now || (slice_index_or marks.old.items v false && not (has_number v candidates.now)) }
{
    for v in candidates {
        marks[*v as usize] = false;
    }
    for v in movers {
        marks[*v as usize] = true;
    }
}

impl Waiting {
    /// Makes a queue for `n` vertices of which none waits. Fails only if memory runs out.
    pub fn new(alloc: Global, n: u32) -> Result<Self, AllocError>
        ensures { IfOk result (λ w. w ≡ replicate n false) }
    {
        Ok(Waiting {
            filed: LevelLists::new(alloc, 0)?,
            first: 0,
            round: Vec::new(alloc),
            level: 0,
            marks: vec![in alloc; false; n as usize]?,
            alloc,
        })
    }

    /// Returns whether `v` waits.
    pub fn has(&self, v: u32) -> bool
        requires { v < length self.now }
        ensures { result ≡ slice_index_or self.now v false }
    {
        self.marks[v as usize]
    }

    /// Lets `v` wait under this level. Fails only if memory runs out; then the same vertices wait as before.
    pub fn add(&mut self, v: u32, level: u16) -> Result<(), AllocError>
        requires vertex { v < length self.old }
        requires small { level < 65535 }
        ensures ok { OnOk result (self.new ≡ slice_set self.old v true) }
        ensures err { OnErr result (self.new ≡ self.old) }
    {
        self.filed.reach(self.alloc, level)?;
        self.filed.file(level, v)?;
        self.first = self.first.min(level);
        self.marks[v as usize] = true;
        Ok(())
    }

    /// Returns the level under which the vertices of the open round were filed.
    pub fn level(&self) -> u16 {
        self.level
    }

    /// Returns the next vertex of the open round, or of a new round if the open one has ended. Afterwards the vertex
    /// doesn't wait. Returns `None` if no vertex waits.
    ///
    /// A round is all vertices that wait under the least level. Vertices that have enough neighbours when the round
    /// begins leave it, and wait no more. Fails only if memory runs out.
    pub fn next<R: Threads + Sync, G: Gate + Sync>(
        &mut self,
        rounds: &Rounds<R, G>,
        first: &mut FirstRound,
        capped: Capped<'_>,
    ) -> Result<Option<u32>, AllocError>
        requires { length self.old ≡ capped.adj.now.graph.vertices }
        ensures some { IfOk result (λ next. IfSome next (IsTakenIn capped.entry self.old self.new)) }
        ensures none { IfOk result (λ next. IfNone next (IsSiftedIn capped.entry self.old self.new)) }
        ensures nobody { IfOk result (λ next. IfNone next ((v : ℕ) → slice_index_or self.new v false ≡ false)) }
    {
        loop {
            let taken = take_from(&mut self.round, &mut self.marks);
            if taken.is_some() {
                return Ok(taken);
            }
            self.round = take_least(self.alloc, &mut self.filed, &mut self.first);
            if self.round.is_empty() {
                self.filed.clear(self.alloc);
                return Ok(None);
            }
            let marks = &self.marks;
            let movers = rounds.movers(first, &self.round, &Short { capped, marks })?;
            keep_marks(&mut self.marks, &self.round, &movers);
            self.round = movers;
        }
    }
}
