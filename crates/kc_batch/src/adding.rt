//! The items of lines that lie in the reader's memory.
ghost use Rattle.std.specs.Prelude.{◌≤◌, length, IfOk, OnOk};
ghost use Rattle.std.specs.Thread.{IsSync};
ghost use Rattle.kc_text.specs.Reading.{budget};
ghost use Rattle.kc_batch.specs.private.Adding.{AreItems, Adds};
ghost use Rattle.kc_batch.specs.private.ItemLines.{WalksLines};

use crate::Items;
use crate::rules::Rules;
use crate::token::{Kind, item_of};
use crate::turn::{Turn, turn_at};
use kc_graph::Crew;
use kc_text::{LineReader, first_numbers};
use std::alloc::{AllocError, Global};
use std::thread::{Threads, join_mut};

// The length of lines that were walked.
type Walked = Result<usize, AllocError>;

// Appends the items of the lines with which the bytes begin. Returns the length of these lines. They are whole lines of
// two numbers that add an item, and aren't too long.
fn add_lines(bytes: &[u8], limit: u32, rules: Rules, items: &mut Items) -> Walked
    requires few { length items.old ≤ rules.item_limit }
    ensures { IfOk result (WalksLines rules limit bytes.now items.old items.new) }
{
    let mut rest = bytes;
    while let Some(line) = first_numbers(rest) {
        let full = items.len() >= rules.item_limit as usize;
        let Turn::Add(item) = turn_at(rules, full, Kind::Item(item_of(line))) else {
            break;
        };
        if line.len > limit as usize {
            break;
        }
        items.push(item)?;
        rest = &rest[line.len + 1..];
    }
    Ok(bytes.len() - rest.len())
}

/// Bytes that begin with lines within a batch.
#[derive(Clone, Copy)]
pub struct Lines<'a> {
    /// The bytes.
    pub bytes: &'a [u8],
    /// The most bytes of a line.
    pub limit: u32,
    /// The rules of the batch.
    pub rules: Rules,
}

/// What walks over lines: the threads of a crew, or one thread if there is no runtime.
pub trait Walk {
    /// What has to hold before a call. A crew says here that threads may share its runtime.
    ghost may_walk: { Self → Type 0 };

    /// Returns the allocator of what the walk finds.
    fn alloc(&self) -> Global;

    /// Appends the items of the lines with which the bytes begin. Returns the length of these lines. They are whole
    /// lines of two numbers that add an item, and aren't too long. Fails only if memory runs out.
    fn walk(&self, lines: Lines<'_>, items: &mut Items) -> Walked
        requires ready { may_walk self.now }
        requires few { length items.old ≤ lines.rules.item_limit }
        ensures { IfOk result (WalksLines lines.entry.rules lines.entry.limit lines.entry.bytes.now items.old items.new) };
}

/// One thread, which takes memory from this allocator.
#[derive(Drop)]
pub struct Alone {
    /// The allocator.
    pub alloc: Global,
}

impl Walk for Alone {
    ghost may_walk = { λ _. Unit {0} };

    fn alloc(&self) -> Global {
        self.alloc
    }

    fn walk(&self, lines: Lines<'_>, items: &mut Items) -> Walked {
        add_lines(lines.bytes, lines.limit, lines.rules, items)
    }
}

// The least number of bytes of a piece. Fewer than twice as many aren't cut: a thread costs as much as the lines of
// some 10,000 bytes.
const LEAST_PIECE: usize = 65_536;

impl<R: Threads + Sync> Walk for Crew<'_, R> {
    ghost may_walk = { λ _. IsSync R.row };

    fn alloc(&self) -> Global {
        self.alloc
    }

    // This thread walks the first piece alone. Only if all lines of it add items, the threads share the bytes after it:
    // a short batch ends before that. Fewer than four pieces aren't shared.
    fn walk(&self, lines: Lines<'_>, items: &mut Items) -> Walked {
        let Lines {
            bytes,
            limit,
            rules,
        } = lines;
        if self.workers < 2 || bytes.len() / 4 < LEAST_PIECE {
            return add_lines(bytes, limit, rules, items);
        }
        let place = line_end(bytes, LEAST_PIECE);
        let (front, back) = bytes.split_at(place);
        let first = add_lines(front, limit, rules, items)?;
        if first < place {
            return Ok(first);
        }
        let back = Lines {
            bytes: back,
            limit,
            rules,
        };
        let second = add_parts(self, back, items)?;
        Ok(place + second)
    }
}

// Returns the end of the line in which the byte at `place` lies: after its line feed, or that of the bytes.
fn line_end(bytes: &[u8], place: usize) -> usize
    ensures { result ≤ length bytes.now }
{
    for at in place..bytes.len() {
        if bytes[at] == b'\n' {
            return at + 1;
        }
    }
    bytes.len()
}

// Does what `add_lines` does. If the bytes are many, the threads of the crew share them.
#[cycle(sharing)]
fn add_parts<R: Threads + Sync>(crew: &Crew<'_, R>, lines: Lines<'_>, items: &mut Items) -> Walked
    requires few { length items.old ≤ lines.rules.item_limit }
    ensures { IfOk result (WalksLines lines.entry.rules lines.entry.limit lines.entry.bytes.now items.old items.new) }
{
    let Lines {
        bytes,
        limit,
        rules,
    } = lines;
    if crew.workers < 2 || bytes.len() / 2 < LEAST_PIECE {
        return add_lines(bytes, limit, rules, items);
    }
    let place = line_end(bytes, bytes.len() / 2);
    let (front, back) = bytes.split_at(place);
    let front = Lines {
        bytes: front,
        limit,
        rules,
    };
    let back = Lines {
        bytes: back,
        limit,
        rules,
    };
    let mut later = Items::new(crew.alloc);
    let (first, second) = add_both(crew, front, back, items, &mut later);
    let first = first?;
    // A line of the first part adds no item, or there would be too many items. The second list is dropped then, and
    // its lines are read again.
    if first < place || (rules.item_limit as usize) - items.len() < later.len() {
        return Ok(first);
    }
    let second = second?;
    items.append(later)?;
    Ok(place + second)
}

// Does what `add_parts` does for two parts, each with a list of its own.
#[cycle(sharing)]
fn add_both<R: Threads + Sync>(
    crew: &Crew<'_, R>,
    front: Lines<'_>,
    back: Lines<'_>,
    items: &mut Items,
    later: &mut Items,
) -> (Walked, Walked)
    requires several { 2 ≤ crew.now.workers }
    requires front { length items.old ≤ front.rules.item_limit }
    requires back { length later.old ≤ back.rules.item_limit }
    ensures front { IfOk result.0 (WalksLines front.entry.rules front.entry.limit front.entry.bytes.now items.old items.new) }
    ensures back { IfOk result.1 (WalksLines back.entry.rules back.entry.limit back.entry.bytes.now later.old later.new) }
{
    let mut left = || -> Walked
        requires { IsSync R.row × (2 ≤ crew.now.workers) × (length items.now ≤ front.rules.item_limit) }
        ensures { IfOk result (WalksLines front.entry.rules front.entry.limit front.entry.bytes.now items.entry.now items.exit.now) }
    { add_parts(&crew.with(crew.workers / 2), front, items) };
    let mut right = || -> Walked
        requires { IsSync R.row × (2 ≤ crew.now.workers) × (length later.now ≤ back.rules.item_limit) }
        ensures { IfOk result (WalksLines back.entry.rules back.entry.limit back.entry.bytes.now later.entry.now later.exit.now) }
    { add_parts(&crew.with(crew.workers - crew.workers / 2), back, later) };
    join_mut(crew.rt, &mut left, &mut right)
}

/// Takes the lines within a batch that are two numbers and add an item, as long as they lie whole in the reader's
/// memory. Appends the items. The reader is moved once, over all of these lines.
pub fn add_items<W: Walk>(
    walk: &W,
    reader: &mut LineReader,
    rules: Rules,
    items: &mut Items,
) -> Result<(), AllocError>
    requires ready { W.may_walk walk.now }
    requires items { AreItems rules items.old }
    ensures items { OnOk result (AreItems rules items.new) }
    ensures adds { OnOk result (Adds rules items.old reader.old items.new reader.new) }
    ensures budget { budget reader.new ≤ budget reader.old }
{
    let limit = reader.line_limit();
    let Some(bytes) = reader.ready_lines() else {
        return Ok(());
    };
    let before = items.len();
    let lines = Lines {
        bytes,
        limit,
        rules,
    };
    let len = walk.walk(lines, items)?;
    reader.pass_lines(len, items.len() - before);
    Ok(())
}
