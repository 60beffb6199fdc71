//! Edges come into the rows of both ends and leave them: singly, or as halves by one pass over each row.

ghost use Rattle.std.specs.Prelude.{◌≡◌, ◌<◌, [], length, false, true, slice_index_or, IfNone, IfSome, OnOk, OnErr};
ghost use Rattle.kc_graph.specs.Numbers.{has_number};
ghost use Rattle.kc_graph.specs.private.KeptRows.{rows_joined, rows_parted};
ghost use Rattle.kc_graph.specs.private.HalfLists.{halves_of};
ghost use Rattle.kc_graph.specs.private.Halves.{AreInside, AreGiven, AreGivenSome, AreTaken, IsRun};

use crate::edges::Edge;
use crate::halves::{Half, Halves, Run};
use crate::rows::Row;
use std::alloc::AllocError;

/// Puts a and b into each other's rows. Fails only if memory runs out; the rows are then unchanged.
pub fn join(rows: &mut Vec<Row>, a: u32, b: u32) -> Result<(), AllocError>
    requires order { a < b }
    requires below { b < length rows.old.items }
    requires apart { has_number b (slice_index_or rows.old.items a []) ≡ false }
    ensures ok { OnOk result (rows.new.items ≡ rows_joined rows.old.items a b) }
    ensures err { OnErr result (rows.new.items ≡ rows.old.items) }
{
    rows[a as usize].insert(b)?;
    if let Err(error) = rows[b as usize].insert(a) {
        rows[a as usize].remove(b);
        return Err(error);
    }
    Ok(())
}

/// Takes a and b out of each other's rows.
pub fn part(rows: &mut Vec<Row>, a: u32, b: u32)
    requires order { a < b }
    requires below { b < length rows.old.items }
    ensures { rows.new.items ≡ rows_parted rows.old.items a b }
{
    rows[a as usize].remove(b);
    rows[b as usize].remove(a);
}

// The number of halves of a list whose rows are prefetched together.
const AHEAD: usize = 32;

// When the next rows are prefetched.
#[derive(Clone, Copy)]
struct Ahead {
    // How many halves of the list below are left then.
    below: usize,
    // How many edges of the list above are left then.
    above: usize,
}

// Prefetches the row of v. Always returns true, since rows ascend; the compiler can't know that, so it keeps the loads.
fn prefetch_row(rows: &[Row], first: u32, v: u32) -> bool
    ensures { result ≡ true }
{
    match rows.get(v.saturating_sub(first) as usize) {
        Some(row) => row.prefetch(),
        None => true,
    }
}

// An item of a list of halves.
trait InRow {
    // Returns the vertex whose row gets the other end, or loses it.
    fn vertex(&self) -> u32;
}

impl InRow for Half {
    fn vertex(&self) -> u32 {
        self.v
    }
}

impl InRow for Edge {
    fn vertex(&self) -> u32 {
        self.a
    }
}

// Prefetches the rows of the next `AHEAD` items of `rest` if at most `left` items remain. Lowers `left` to the number
// that remains after these. Items of one vertex stand together, and its row is prefetched once. Always returns true.
fn prefetch_rows<T: InRow>(rows: &[Row], first: u32, rest: &[T], left: &mut usize) -> bool
    ensures { result ≡ true }
{
    let count = rest.len();
    if count > *left {
        return true;
    }
    // At first a number that no vertex has.
    let mut before = u32::MAX;
    for item in &rest[..count.min(AHEAD)] {
        let v = item.vertex();
        if v == before {
            continue;
        }
        if !prefetch_row(rows, first, v) {
            // Never: `prefetch_row` always returns true.
            return false;
        }
        before = v;
    }
    *left = count.saturating_sub(AHEAD);
    true
}

impl Ahead {
    // Makes one for these halves, of which no row is prefetched yet.
    fn of(halves: Halves<'_>) -> Ahead {
        Ahead {
            below: halves.below.len(),
            above: halves.above.len(),
        }
    }

    // Returns what `Halves::next_run` does, and prefetches the rows of the next halves of each list if those before
    // them are done with.
    fn next_run<'a>(&mut self, rows: &[Row], first: u32, rest: Halves<'a>) -> Option<Run<'a>>
        ensures some { IfSome result (λ r. IsRun (halves_of rest.entry) r.v (halves_of r.halves) (halves_of r.later)) }
        ensures none { IfNone result (halves_of rest.entry ≡ []) }
    {
        if prefetch_rows(rows, first, rest.below, &mut self.below)
            && prefetch_rows(rows, first, rest.above, &mut self.above)
        {
            rest.next_run()
        } else {
            // Never: `prefetch_rows` always returns true.
            None
        }
    }
}

/// Puts the other end of each half into the row of its vertex, by one merge for each run of halves of one vertex. The
/// first row is that of `first`. Fails only if memory runs out; some other ends may then be in their rows.
pub fn give_all(first: u32, halves: Halves<'_>, rows: &mut [Row]) -> Result<(), AllocError>
    requires { AreInside first (length rows.old) (halves_of halves) }
    ensures ok { OnOk result (AreGiven first rows.old rows.new (halves_of halves.entry)) }
    ensures some { AreGivenSome first rows.old rows.new (halves_of halves.entry) }
{
    let mut rest = halves;
    let mut ahead = Ahead::of(rest);
    while let Some(run) = ahead.next_run(rows, first, rest) {
        rows[(run.v - first) as usize].insert_all(run.halves)?;
        rest = run.later;
    }
    Ok(())
}

/// Takes the other end of each half out of the row of its vertex if it is there. Makes one pass for each run of halves
/// of one vertex. The first row is that of `first`.
pub fn take_all(first: u32, halves: Halves<'_>, rows: &mut [Row])
    requires { AreInside first (length rows.old) (halves_of halves) }
    ensures { AreTaken first rows.old rows.new (halves_of halves.entry) }
{
    let mut rest = halves;
    let mut ahead = Ahead::of(rest);
    while let Some(run) = ahead.next_run(rows, first, rest) {
        rows[(run.v - first) as usize].remove_all(run.halves);
        rest = run.later;
    }
}
