//! The command `orient`: the edges directed, and the vertices coloured, after the batches of an input.
ghost use Rattle.std.specs.Prelude.{◌≡◌, [], ◌∷◌, ◌++◌, IfOk, OnOk, decimal, length};
ghost use Rattle.std.specs.List.{flat_map};
ghost use Rattle.kc_text.specs.Writing.{Appends, WriteCause};
ghost use Rattle.kc_report.specs.Buffer.{IsCleared};
ghost use Rattle.kc_orient.specs.Shape.{orientation};
ghost use Rattle.kc_orient.specs.Colouring.{IsColouring};
ghost use Rattle.kcore.specs.OrientLines.{oriented_line};
ghost use Rattle.kcore.specs.OrientText.{oriented_vertex_text, IsOrientedText};

use crate::documents::{Document, LastState};
use kc_graph::Graph;
use kc_levels::Levels;
use kc_orient::{Orientation, colour};
use kc_report::{VertexLines, write_opening, write_tail};
use kc_text::{LineBuf, SendFault, Sink};
use std::alloc::{AllocError, Global};

// Returns the orientation of the graph by the levels, and the colours of its vertices.
fn orient_and_colour(
    alloc: Global,
    graph: &Graph,
    levels: &Levels,
) -> Result<(Orientation, Vec<u32>), AllocError>
    requires { length levels.now ≡ graph.now.vertices }
    ensures orientation { IfOk result (λ p. p.0 ≡ orientation graph.now levels.now) }
    ensures colours { IfOk result (λ p. IsColouring (orientation graph.now levels.now).outs p.1.items) }
{
    let oriented = kc_orient::orient(alloc, graph, levels)?;
    let colours = colour(alloc, &oriented)?;
    Ok((oriented, colours))
}

// Appends a blank and each of the vertices.
fn fill_vertices(buf: &mut LineBuf, vertices: &[u32]) -> Result<(), AllocError>
    ensures { OnOk result (buf.new ≡ buf.old ++ flat_map (λ w. 32 ∷ decimal w) vertices.now) }
{
    for w in vertices {
        buf.put_named(b" ", *w)?;
    }
    Ok(())
}

fn fill_oriented(buf: &mut LineBuf, v: u32, colour: u32, out: &[u32]) -> Result<(), AllocError>
    ensures { OnOk result (buf.new ++ 10 ∷ [] ≡ oriented_line v colour out.now) }
{
    buf.clear();
    buf.put_named(b"vertex ", v)?;
    buf.put_named(b" colour ", colour)?;
    buf.put(b" out")?;
    fill_vertices(buf, out)
}

// Writes the line of vertex v: its colour, and its out-neighbours.
fn write_oriented<K: Sink>(
    buf: &mut LineBuf,
    sink: &mut K,
    v: u32,
    colour: u32,
    out: &[u32],
) -> Result<(), SendFault>
    ensures text { Appends (K.taken sink.old) (K.taken sink.new) (oriented_line v colour out.now) result }
    ensures buffer { IsCleared buf.new result }
    ensures cause { WriteCause (K.faults sink.old) (K.faults sink.new) result }
{
    fill_oriented(buf, v, colour, out)?;
    buf.send_to(sink)
}

// The lines of the vertices of an oriented graph.
#[derive(Drop)]
struct OrientedLines<'a> {
    // The out-neighbours of each vertex.
    oriented: &'a Orientation,
    // The colour of each vertex.
    colours: &'a [u32],
}

impl VertexLines for OrientedLines<'_> {
    ghost use Rattle.std.specs.Prelude.{◌<◌};

    ghost line = { λ lines v. oriented_vertex_text lines.oriented.now lines.colours.now v };

    ghost has_line = { λ lines v. (length lines.colours.now ≡ length lines.oriented.now.levels) × (v < length lines.oriented.now.levels) };

    fn write_line<K: Sink>(
        &self,
        buf: &mut LineBuf,
        sink: &mut K,
        v: u32,
    ) -> Result<(), SendFault> {
        write_oriented(buf, sink, v, self.colours[v as usize], self.oriented.out(v))
    }
}

/// The document of `orient`: the colour of each vertex, and its out-neighbours.
pub struct Orient;

impl Document for Orient {
    ghost is_document = { IsOrientedText };

    fn write<K: Sink>(alloc: Global, last: &LastState<'_>, sink: &mut K) -> Result<(), SendFault> {
        let engine = last.engine;
        let n = engine.graph().vertices();
        let (oriented, colours) = orient_and_colour(alloc, engine.graph(), engine.levels())?;
        let mut buf = LineBuf::new(alloc);
        write_opening(&mut buf, sink, b"kcore-orient 1", n)?;
        let lines = OrientedLines {
            oriented: &oriented,
            colours: colours.as_slice(),
        };
        write_tail(&mut buf, sink, n, &lines)
    }

    fn has_documents() {}
}
