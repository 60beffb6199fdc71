//! Writes a graph with its levels as a certificate: a line for each edge and for each level.
ghost use Rattle.std.specs.Prelude.{◌≡◌, ◌++◌, ◌∷◌, [], length, map, codes, decimal};
ghost use Rattle.kc_text.specs.Printing.{printed};
ghost use Rattle.kc_text.specs.Writing.{Appends, WriteCause};
ghost use Rattle.kc_cert.specs.Texts.{profile_word, head_lines, edge_line, level_lines, certificate_text};
ghost use Rattle.kc_cert.specs.private.Texts.{row_lines};

use kc_graph::Graph;
use kc_levels::{Levels, Profile};
use kc_text::{LineBuf, SendFault, Sink};
use std::alloc::Global;

// Writes a line with this text.
fn write_text<K: Sink>(buf: &mut LineBuf, sink: &mut K, text: &[u8]) -> Result<(), SendFault>
    ensures text { Appends (K.taken sink.old) (K.taken sink.new) (text.now ++ 10 ∷ []) result }
    ensures cause { WriteCause (K.faults sink.old) (K.faults sink.new) result }
{
    buf.clear();
    buf.put(text)?;
    buf.send_to(sink)
}

// Writes a line of a name, with its blank, and a number.
fn write_named<K: Sink>(
    buf: &mut LineBuf,
    sink: &mut K,
    name: &[u8],
    value: u32,
) -> Result<(), SendFault>
    ensures text { Appends (K.taken sink.old) (K.taken sink.new) ((name.now ++ decimal value) ++ 10 ∷ []) result }
    ensures cause { WriteCause (K.faults sink.old) (K.faults sink.new) result }
{
    buf.clear();
    buf.put_named(name, value)?;
    buf.send_to(sink)
}

// Writes a line of a name, with its blank, and two numbers.
fn write_pair<K: Sink>(
    buf: &mut LineBuf,
    sink: &mut K,
    name: &[u8],
    first: u32,
    second: u32,
) -> Result<(), SendFault>
    ensures text { Appends (K.taken sink.old) (K.taken sink.new) ((((name.now ++ decimal first) ++ codes " ") ++ decimal second) ++ 10 ∷ []) result }
    ensures cause { WriteCause (K.faults sink.old) (K.faults sink.new) result }
{
    buf.clear();
    buf.put_named(name, first)?;
    buf.put_named(b" ", second)?;
    buf.send_to(sink)
}

fn profile_text(profile: Profile) -> &'static [u8]
    ensures { result.now ≡ codes "profile " ++ profile_word profile }
{
    match profile {
        Profile::One => b"profile 1",
        Profile::Two => b"profile 2",
    }
}

// Writes the four lines before the edges.
fn write_head<K: Sink>(
    buf: &mut LineBuf,
    sink: &mut K,
    profile: Profile,
    graph: &Graph,
) -> Result<(), SendFault>
    ensures text { Appends (K.taken sink.old) (K.taken sink.new) (printed (head_lines profile graph.now)) result }
    ensures cause { WriteCause (K.faults sink.old) (K.faults sink.new) result }
{
    write_text(buf, sink, b"kcore-cert 1")?;
    write_text(buf, sink, profile_text(profile))?;
    write_named(buf, sink, b"vertices ", graph.vertices())?;
    write_named(buf, sink, b"edges ", graph.edge_count())
}

// Writes the edges between v and those of its neighbours that are greater.
fn write_row<K: Sink>(
    buf: &mut LineBuf,
    sink: &mut K,
    v: u32,
    neighbours: &[u32],
) -> Result<(), SendFault>
    ensures text { Appends (K.taken sink.old) (K.taken sink.new) (printed (row_lines v neighbours.now)) result }
    ensures cause { WriteCause (K.faults sink.old) (K.faults sink.new) result }
{
    for w in neighbours {
        if *w <= v {
            continue;
        }
        write_pair(buf, sink, b"edge ", v, *w)?;
    }
    Ok(())
}

// Writes the edges in their order.
fn write_edges<K: Sink>(buf: &mut LineBuf, sink: &mut K, graph: &Graph) -> Result<(), SendFault>
    ensures text { Appends (K.taken sink.old) (K.taken sink.new) (printed (map edge_line graph.now.edges)) result }
    ensures cause { WriteCause (K.faults sink.old) (K.faults sink.new) result }
{
    for v in 0..graph.vertices() {
        write_row(buf, sink, v, graph.neighbours(v))?;
    }
    Ok(())
}

// Writes the level of each of n vertices.
fn write_levels<K: Sink>(
    buf: &mut LineBuf,
    sink: &mut K,
    n: u32,
    levels: &Levels,
) -> Result<(), SendFault>
    requires sized { length levels.now ≡ n }
    ensures text { Appends (K.taken sink.old) (K.taken sink.new) (printed (level_lines 0 levels.now)) result }
    ensures cause { WriteCause (K.faults sink.old) (K.faults sink.new) result }
{
    for v in 0..n {
        write_pair(buf, sink, b"level ", v, u32::from(levels.get(v)))?;
    }
    Ok(())
}

/// Writes the certificate of a graph and its levels (`certificate_text` of `specs/Texts`), line after line.
///
/// The lines are `kcore-cert 1`, the profile, the numbers of vertices and of edges, the edges in ascending order, the
/// level of each vertex, and `end`. There is one level for each vertex; any levels are written. Each line is one
/// `put_all`.
///
/// Fails with `WriteFault`, which only a failed write gives, or with `Memory` if there is none for a line. After either
/// the sink took a prefix of the text.
///
/// Costs one pass over the neighbours of each vertex. Takes the memory of one line, of at most 23 bytes.
pub fn write_certificate<K: Sink>(
    alloc: Global,
    sink: &mut K,
    profile: Profile,
    graph: &Graph,
    levels: &Levels,
) -> Result<(), SendFault>
    requires { length levels.now ≡ graph.now.vertices }
    ensures text { Appends (K.taken sink.old) (K.taken sink.new) (certificate_text (record { profile = profile; graph = graph.now; levels = levels.now })) result }
    ensures cause { WriteCause (K.faults sink.old) (K.faults sink.new) result }
{
    let mut buf = LineBuf::new(alloc);
    write_head(&mut buf, sink, profile, graph)?;
    write_edges(&mut buf, sink, graph)?;
    write_levels(&mut buf, sink, graph.vertices(), levels)?;
    write_text(&mut buf, sink, b"end")
}
