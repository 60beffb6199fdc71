//! The line of a reader: its number, and each vertex of its questions with the level that the reader got.
ghost use Rattle.std.specs.Prelude.{◌≡◌, [], ◌∷◌, ◌++◌, OnOk, decimal};
ghost use Rattle.std.specs.List.{flat_map};
ghost use Rattle.kc_text.specs.Writing.{Appends, WriteCause};
ghost use Rattle.kc_report.specs.Buffer.{IsCleared};
ghost use Rattle.kc_report.specs.Lines.{reply_word, reader_line};

use crate::pairs::put_pair;
use kc_history::Reply;
use kc_text::{LineBuf, SendFault, Sink};
use std::alloc::{AllocError, Global};

// Appends for each reply a blank, its vertex and its level.
fn fill_replies(buf: &mut LineBuf, replies: &[Reply]) -> Result<(), AllocError>
    ensures { OnOk result (buf.new ≡ buf.old ++ flat_map (λ r. 32 ∷ reply_word r) replies.now) }
{
    for r in replies {
        put_pair(buf, r.vertex, b'=', u32::from(r.level))?;
    }
    Ok(())
}

fn fill_reader(buf: &mut LineBuf, reader: u32, replies: &[Reply]) -> Result<(), AllocError>
    ensures { OnOk result (buf.new ++ 10 ∷ [] ≡ reader_line reader replies.now) }
{
    buf.clear();
    buf.put_named(b"reader ", reader)?;
    fill_replies(buf, replies)
}

/// Writes the line of a reader (`reader_line`): its number, and its replies in their order. Each reply has the vertex
/// and the level.
///
/// Readers are numbered from 0; any number is written, and any replies. Without replies the line ends after the number.
/// `WriteFault` comes only from a failed write. After `WriteFault` or `Memory` the sink took a prefix of the line.
pub fn write_reader<K: Sink>(
    _alloc: Global,
    buf: &mut LineBuf,
    sink: &mut K,
    reader: u32,
    replies: &[Reply],
) -> Result<(), SendFault>
    ensures text { Appends (K.taken sink.old) (K.taken sink.new) (reader_line reader replies.now) result }
    ensures buffer { IsCleared buf.new result }
    ensures cause { WriteCause (K.faults sink.old) (K.faults sink.new) result }
{
    fill_reader(buf, reader, replies)?;
    buf.send_to(sink)
}
