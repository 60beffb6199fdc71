//! Reads the next batch ahead, as far as its lines lie in the reader's memory.
ghost use Rattle.std.specs.Prelude.{◌≡◌, ℕ, ◌≤◌, [], List, Option, true, IfOk};
ghost use Rattle.kc_text.specs.Reading.{budget};
ghost use Rattle.kc_batch.specs.Batches.{Within, batches_left};
ghost use Rattle.kc_batch.specs.Ahead.{place_of, batches_at, batches_ahead, ahead_budget, with_begun};

use crate::Items;
use crate::adding::{Alone, add_items};
use crate::ahead::Ahead;
use crate::rules::Rules;
use crate::token::{Kind, classify};
use kc_text::LineReader;
use std::alloc::{AllocError, Global};

// Takes the next `batch` line, and the skipped lines before it, if these lines lie whole in the reader's memory.
// Returns whether it was taken.
fn take_start(reader: &mut LineReader) -> bool
    ensures batches { (rules : _) (left : Option (List ℕ)) → batches_left rules reader.old left ≡ batches_at rules (place_of result []) reader.new left }
    ensures budget { with_begun result (budget reader.new) ≤ budget reader.old }
{
    loop {
        let Some((text, len)) = reader.whole_line() else {
            return false;
        };
        match classify(text) {
            Some(Kind::BatchStart) => {
                reader.pass_line(len);
                return true;
            }
            Some(_) => return false,
            None => {
                reader.pass_line(len);
            }
        }
    }
}

// Takes the lines after a `batch` line that are two numbers and add an item, as long as they lie whole in the reader's
// memory. Returns them as what was read ahead.
fn take_items(alloc: Global, reader: &mut LineReader, rules: Rules) -> Result<Ahead, AllocError>
    ensures rules { IfOk result (λ a. a.rules ≡ rules) }
    ensures begun { IfOk result (λ a. a.begun ≡ true) }
    ensures batches { IfOk result (λ a. (left : Option (List ℕ)) → batches_at rules (Within []) reader.old left ≡ batches_at rules (Within a.items) reader.new left) }
    ensures budget { budget reader.new ≤ budget reader.old }
{
    let mut items = Items::new(alloc);
    add_items(&Alone { alloc }, reader, rules, &mut items)?;
    Ok(Ahead {
        rules,
        begun: true,
        items,
    })
}

/// Reads the next batch ahead, as far as its lines lie whole in the reader's own memory. These are its `batch` line and
/// lines of two numbers that add items. `await_batch` reads the rest. Nothing is read from a source.
///
/// `AllocError` comes if there was no memory for the items. Then the reader isn't used again, since lines of the batch
/// are gone. Cost: time for the bytes of the lines that are read, and memory for the items.
pub fn read_ahead(alloc: Global, reader: &mut LineReader, rules: Rules) -> Result<Ahead, AllocError>
    ensures rules { IfOk result (λ a. a.rules ≡ rules) }
    ensures batches { IfOk result (λ a. (left : Option (List ℕ)) → batches_left rules reader.old left ≡ batches_ahead a reader.new left) }
    ensures budget { IfOk result (λ a. ahead_budget a reader.new ≤ budget reader.old) }
{
    if !take_start(reader) {
        return Ok(Ahead::new(alloc, rules, false));
    }
    let ahead = take_items(alloc, reader, rules)?;
    Ok(ahead)
}
