//! Several threads put halves into rows or take them out. Halves are cut by vertices into parts, so each thread has
//! rows of its own.

ghost use Rattle.std.specs.Prelude.{◌<◌, ◌≤◌, length, All, IfSome, OnOk};
ghost use Rattle.std.specs.Bool.{OnTrue};
ghost use Rattle.std.specs.Thread.{IsSync};
ghost use Rattle.kc_graph.specs.private.HalfLists.{halves_of};
ghost use Rattle.kc_graph.specs.private.Halves.{IsCut, AreInside, AreGiven, AreGivenSome, AreTaken, AreChanged};

use crate::crew::Crew;
use crate::halves::Halves;
use crate::links::{give_all, take_all};
use crate::rows::Row;
use std::alloc::AllocError;
use std::thread::{Threads, join_mut};

// The least number of halves of a part. Fewer than twice as many aren't cut. To start two threads costs 30 to 40
// microseconds, and a part of this length about a hundred or more.
const LEAST_PART: usize = 4_096;

/// What is done with halves at the rows of their vertices.
#[derive(Clone, Copy)]
pub enum Change {
    /// The other ends come in. This fails if memory runs out.
    Give,
    /// The other ends leave. This never fails.
    Take,
}

// Halves of vertices from `first` on, for rows of which the first is that of `first`.
#[derive(Clone, Copy)]
struct Part<'a> {
    // The vertex of the first row: no greater than that of any half.
    first: u32,
    // The halves that go into these rows, or out of them.
    halves: Halves<'a>,
}

// Returns the first place from `low` up to `high` whose half isn't of a vertex below v, if these halves are by
// vertices.
fn place_of(halves: Halves<'_>, low: usize, high: usize, v: u32) -> usize
    requires order { low ≤ high }
    requires within { high ≤ length (halves_of halves) }
    ensures from { low ≤ result }
    ensures to { result ≤ high }
{
    let mut from = low;
    let mut to = high;
    while from < to {
        let middle = from + (to - from) / 2;
        if halves.vertex_at(middle) < v {
            from = middle + 1;
        } else {
            to = middle;
        }
    }
    from
}

// Returns how many halves of each list stand before those of v or a greater vertex, if each list is by vertices.
fn len_below(halves: Halves<'_>, v: u32) -> (usize, usize)
    ensures below { result.0 ≤ length halves.entry.below.now }
    ensures above { result.1 ≤ length halves.entry.above.now }
{
    let count = halves.below.len();
    let below = place_of(halves, 0, count, v);
    let above = place_of(halves, count, halves.len(), v) - count;
    (below, above)
}

// Returns the place of the half at whose vertex the halves are cut best, by a search in the longer list. Returns none
// if there are no halves.
fn middle(halves: Halves<'_>) -> Option<usize>
    ensures { IfSome result (λ k. k < length (halves_of halves.entry)) }
{
    let count = halves.below.len();
    let mut from = 0;
    let mut to = count;
    if count < halves.above.len() {
        from = count;
        to = halves.len();
    }
    if from == to {
        return None;
    }
    while from + 1 < to {
        let k = from + (to - from) / 2;
        let (below, above) = len_below(halves, halves.vertex_at(k));
        if below + above <= halves.len() / 2 {
            from = k;
        } else {
            to = k;
        }
    }
    Some(from)
}

// Returns whether all halves are of vertices below v.
fn are_below(halves: Halves<'_>, v: u32) -> bool
    ensures { OnTrue result (All (λ h. h.0 < v) (halves_of halves.entry)) }
{
    halves.below.iter().all(|half| half.v < v) && halves.above.iter().all(|e| e.a < v)
}

// Returns whether no half is of a vertex below v.
fn are_from(halves: Halves<'_>, v: u32) -> bool
    ensures { OnTrue result (All (λ h. v ≤ h.0) (halves_of halves.entry)) }
{
    halves.below.iter().all(|half| half.v >= v) && halves.above.iter().all(|e| e.a >= v)
}

// Halves cut in two at a vertex.
#[derive(Clone, Copy)]
struct Cut<'a> {
    // The vertex.
    v: u32,
    // The halves of lesser vertices.
    low: Halves<'a>,
    // All others.
    high: Halves<'a>,
}

// Cuts the halves at a vertex, in two parts of about the same length. Returns none if a part has a half that belongs to
// the other, as can't be if each list is by vertices.
fn cut_in_two<'a>(halves: Halves<'a>) -> Option<Cut<'a>>
    ensures { IfSome result (λ c. IsCut (halves_of halves.entry) c.v (halves_of c.low) (halves_of c.high)) }
{
    let v = halves.vertex_at(middle(halves)?);
    let (below, above) = len_below(halves, v);
    let (low, high) = halves.split(below, above);
    if are_below(low, v) && are_from(high, v) {
        Some(Cut { v, low, high })
    } else {
        None
    }
}

impl<'a> Part<'a> {
    ghost use Rattle.std.specs.Prelude.{◌≡◌};

    // Cuts the part in two at a vertex, if the crew has two workers or more and the halves are enough. Returns none if
    // it isn't cut.
    fn cut<R>(self, crew: &Crew<'_, R>) -> Option<(Part<'a>, Part<'a>)>
        ensures several { IfSome result (λ r. 2 ≤ crew.now.workers) }
        ensures first { IfSome result (λ r. r.0.first ≡ self.entry.first) }
        ensures halves { IfSome result (λ r. IsCut (halves_of self.entry.halves) r.1.first (halves_of r.0.halves) (halves_of r.1.halves)) }
    {
        if crew.workers < 2 || self.halves.len() / 2 < LEAST_PART {
            return None;
        }
        let cut = cut_in_two(self.halves)?;
        let low = Part {
            first: self.first,
            halves: cut.low,
        };
        let high = Part {
            first: cut.v,
            halves: cut.high,
        };
        Some((low, high))
    }
}

// Puts the other ends of the halves into the rows of their vertices (`give_all`), or takes them out (`take_all`).
fn change_all(change: Change, part: Part<'_>, rows: &mut [Row]) -> Result<(), AllocError>
    requires { AreInside part.first (length rows.old) (halves_of part.halves) }
    ensures { AreChanged change result part.entry.first rows.old rows.new (halves_of part.entry.halves) }
{
    match change {
        Change::Give => give_all(part.first, part.halves, rows),
        Change::Take => {
            take_all(part.first, part.halves, rows);
            Ok(())
        }
    }
}

// Does what `change_all` does, with the threads of the crew if the halves are enough to be cut. Each thread has the
// rows of consecutive vertices for itself, and the halves of these.
#[cycle(changing)]
fn change_parts<R: Threads + Sync>(
    crew: &Crew<'_, R>,
    change: Change,
    part: Part<'_>,
    rows: &mut [Row],
) -> Result<(), AllocError>
    requires { AreInside part.first (length rows.old) (halves_of part.halves) }
    ensures { AreChanged change result part.entry.first rows.old rows.new (halves_of part.entry.halves) }
{
    if let Some((low, high)) = part.cut(crew) {
        let (front, back) = rows.split_at_mut((high.first - part.first) as usize);
        return change_both(crew, change, (low, high), front, back);
    }
    change_all(change, part, rows)
}

// Does what `change_parts` does for two parts, with the rows of each.
#[cycle(changing)]
fn change_both<R: Threads + Sync>(
    crew: &Crew<'_, R>,
    change: Change,
    parts: (Part<'_>, Part<'_>),
    front: &mut [Row],
    back: &mut [Row],
) -> Result<(), AllocError>
    requires several { 2 ≤ crew.now.workers }
    requires front { AreInside parts.0.first (length front.old) (halves_of parts.0.halves) }
    requires back { AreInside parts.1.first (length back.old) (halves_of parts.1.halves) }
    ensures front { AreChanged change result parts.entry.0.first front.old front.new (halves_of parts.entry.0.halves) }
    ensures back { AreChanged change result parts.entry.1.first back.old back.new (halves_of parts.entry.1.halves) }
{
    let (low, high) = parts;
    let mut left = || -> Result<(), AllocError>
        requires { IsSync R.row × (2 ≤ crew.now.workers) × AreInside low.first (length front.now) (halves_of low.halves) }
        ensures { AreChanged change result low.entry.first front.entry.now front.exit.now (halves_of low.entry.halves) }
    { change_parts(&crew.with(crew.workers / 2), change, low, front) };
    let mut right = || -> Result<(), AllocError>
        requires { IsSync R.row × (2 ≤ crew.now.workers) × AreInside high.first (length back.now) (halves_of high.halves) }
        ensures { AreChanged change result high.entry.first back.entry.now back.exit.now (halves_of high.entry.halves) }
    {
        change_parts(
            &crew.with(crew.workers - crew.workers / 2),
            change,
            high,
            back,
        )
    };
    let (low_result, high_result) = join_mut(crew.rt, &mut left, &mut right);
    low_result?;
    high_result
}

/// Puts the other end of each half into the row of its vertex. The rows are those of all vertices. Fails only if memory
/// runs out; some other ends may then be in their rows.
pub fn give_alone(halves: Halves<'_>, rows: &mut Vec<Row>) -> Result<(), AllocError>
    requires { AreInside 0 (length rows.old.items) (halves_of halves) }
    ensures ok { OnOk result (AreGiven 0 rows.old.items rows.new.items (halves_of halves.entry)) }
    ensures some { AreGivenSome 0 rows.old.items rows.new.items (halves_of halves.entry) }
{
    give_all(0, halves, rows.as_mut_slice())
}

/// Takes the other end of each half out of the row of its vertex if it is there. The rows are those of all vertices.
pub fn take_alone(halves: Halves<'_>, rows: &mut Vec<Row>)
    requires { AreInside 0 (length rows.old.items) (halves_of halves) }
    ensures { AreTaken 0 rows.old.items rows.new.items (halves_of halves.entry) }
{
    take_all(0, halves, rows.as_mut_slice());
}

/// Does what `give_alone` does. If the halves are many, the threads of the crew do it, each at rows of its own.
pub fn give_by<R: Threads + Sync>(
    crew: &Crew<'_, R>,
    halves: Halves<'_>,
    rows: &mut Vec<Row>,
) -> Result<(), AllocError>
    requires { AreInside 0 (length rows.old.items) (halves_of halves) }
    ensures ok { OnOk result (AreGiven 0 rows.old.items rows.new.items (halves_of halves.entry)) }
    ensures some { AreGivenSome 0 rows.old.items rows.new.items (halves_of halves.entry) }
{
    let part = Part { first: 0, halves };
    change_parts(crew, Change::Give, part, rows.as_mut_slice())
}

/// Does what `take_alone` does. If the halves are many, the threads of the crew do it, each at rows of its own.
pub fn take_by<R: Threads + Sync>(crew: &Crew<'_, R>, halves: Halves<'_>, rows: &mut Vec<Row>)
    requires { AreInside 0 (length rows.old.items) (halves_of halves) }
    ensures { AreTaken 0 rows.old.items rows.new.items (halves_of halves.entry) }
{
    let part = Part { first: 0, halves };
    // Taking out never fails.
    change_parts(crew, Change::Take, part, rows.as_mut_slice()).ok();
}
