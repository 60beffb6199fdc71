//! The command `dense`: a dense part of the graph after the batches of an input.
ghost use Rattle.std.specs.Prelude.{◌≡◌, ◌<◌, ◌^◌, [], ◌∷◌, ◌++◌, length, OnOk};
ghost use Rattle.std.specs.List.{flat_map};
ghost use Rattle.kc_text.specs.Writing.{Appends, WriteCause};
ghost use Rattle.kcore.specs.DenseLines.{size_line, member_line};
ghost use Rattle.kcore.specs.DenseText.{IsDense};

use crate::documents::{Document, LastState};
use kc_dense::densest;
use kc_report::{write_end, write_opening};
use kc_text::{LineBuf, SendFault, Sink};
use std::alloc::{AllocError, Global};

fn fill_size(buf: &mut LineBuf, size: u32, edges: u32) -> Result<(), AllocError>
    ensures { OnOk result (buf.new ++ 10 ∷ [] ≡ size_line size edges) }
{
    buf.clear();
    buf.put_named(b"size ", size)?;
    buf.put_named(b" edges ", edges)
}

fn fill_member(buf: &mut LineBuf, v: u32) -> Result<(), AllocError>
    ensures { OnOk result (buf.new ++ 10 ∷ [] ≡ member_line v) }
{
    buf.clear();
    buf.put_named(b"member ", v)
}

// Writes the line with the number of members and the number of edges between them, and a line for each member.
fn write_part<K: Sink>(
    buf: &mut LineBuf,
    sink: &mut K,
    part: &kc_dense::Dense,
) -> Result<(), SendFault>
    requires few { length part.now.members.items < 2 ^ 32 }
    ensures text { Appends (K.taken sink.old) (K.taken sink.new) (size_line (length part.now.members.items) part.now.edges ++ flat_map member_line part.now.members.items) result }
    ensures cause { WriteCause (K.faults sink.old) (K.faults sink.new) result }
{
    let members = part.members.as_slice();
    fill_size(buf, members.len() as u32, part.edges)?;
    buf.send_to(sink)?;
    for v in members {
        fill_member(buf, *v)?;
        buf.send_to(sink)?;
    }
    Ok(())
}

/// The document of `dense`: the vertices of a dense part, after their number and the number of edges between them.
pub struct Dense;

impl Document for Dense {
    ghost is_document = { IsDense };

    fn write<K: Sink>(alloc: Global, last: &LastState<'_>, sink: &mut K) -> Result<(), SendFault> {
        let graph = last.engine.graph();
        let part = densest(alloc, graph)?;
        let mut buf = LineBuf::new(alloc);
        write_opening(&mut buf, sink, b"kcore-dense 1", graph.vertices())?;
        write_part(&mut buf, sink, &part)?;
        write_end(alloc, &mut buf, sink)
    }

    fn has_documents() {}
}
