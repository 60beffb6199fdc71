//! The lines of batches.
ghost use Rattle.std.specs.Prelude.{◌≡◌, [], ◌∷◌, ◌++◌, OnOk};
ghost use Rattle.kc_text.specs.Writing.{Appends, WriteCause};
ghost use Rattle.kc_text.specs.Printing.{printed_line};
ghost use Rattle.kserve.specs.Lines.{item_words, take_line, batch_text};

use kc_graph::Item;
use kc_intake::Update;
use kc_text::{LineBuf, SendFault, Sink};
use std::alloc::AllocError;

/// A drained batch.
#[derive(Clone, Copy)]
pub struct Drained<'a> {
    /// The number of the batch, counted from 1.
    pub number: u32,
    /// The updates of the batch.
    pub updates: &'a [Update],
}

// The words of an item, each after a blank.
fn fill_item(buf: &mut LineBuf, item: Item) -> Result<(), AllocError>
    ensures { OnOk result (buf.new ++ 10 ∷ [] ≡ buf.old ++ (32 ∷ printed_line (item_words item))) }
{
    match item {
        Item::Insert { u, v } => {
            buf.put_named(b" + ", u)?;
            buf.put_named(b" ", v)
        }
        Item::Delete { u, v } => {
            buf.put_named(b" - ", u)?;
            buf.put_named(b" ", v)
        }
        Item::Isolate { v } => buf.put_named(b" x ", v),
    }
}

fn fill_take(buf: &mut LineBuf, update: Update) -> Result<(), AllocError>
    ensures { OnOk result (buf.new ++ 10 ∷ [] ≡ take_line update) }
{
    buf.clear();
    buf.put_named(b"take ", update.client)?;
    fill_item(buf, update.item)
}

/// Writes the lines of a batch (`batch_text`): one with its number, and one for each update.
pub fn write_batch<K: Sink>(
    buf: &mut LineBuf,
    sink: &mut K,
    batch: Drained<'_>,
) -> Result<(), SendFault>
    ensures text { Appends (K.taken sink.old) (K.taken sink.new) (batch_text batch.entry.number batch.entry.updates.now) result }
    ensures cause { WriteCause (K.faults sink.old) (K.faults sink.new) result }
{
    buf.clear();
    buf.put_named(b"batch ", batch.number)?;
    buf.send_to(sink)?;
    for update in batch.updates {
        fill_take(buf, *update)?;
        buf.send_to(sink)?;
    }
    Ok(())
}
