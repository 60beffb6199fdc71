//! The end of a text of levels: the lines of all vertices, composed by one thread or by several, and the last line.
ghost use Rattle.std.specs.Prelude.{◌≡◌, ℕ, ◌+◌, ◌*◌, ◌^◌, ◌<◌, ◌++◌, min, OnOk, IfOk, IsOk, MatchResult};
ghost use Rattle.kc_text.specs.Writing.{Appends, WriteCause};
ghost use Rattle.kc_report.specs.Buffer.{IsCleared};
ghost use Rattle.kc_report.specs.VertexLines.{AreLevels, GivesCounts, vertex_lines, tail_text};
ghost use Rattle.kc_report.specs.private.Tails.{line_of, count_of, IsReady, HaveWords, AreLinesOf};

use crate::head::put_end;
use crate::held::{BLOCK, send_held};
use crate::level_words::compose_words;
use crate::vertices::{VertexCounts, append_counted};
use kc_graph::{Crew, Graph};
use kc_levels::Thresholds;
use kc_text::{Failed, LineBuf, SendFault, Sink, put_all};
use std::alloc::{AllocError, Global};
use std::thread;
use std::thread::Threads;

// What the lines of all vertices are composed from.
#[derive(Drop)]
struct Tail<'a, F> {
    // The graph of the vertices.
    graph: &'a Graph,
    // Its thresholds, which say what a level tells of the coreness.
    th: &'a Thresholds,
    // The level of each vertex.
    levels: &'a [u16],
    // Gives the two counts of neighbours of a vertex.
    counts: &'a F,
}

// The number of vertices of a piece. Their lines cost some two million instructions, far more than to start and join a
// thread, and take some 0.5 MB.
const PIECE: usize = 8_192;

// Appends the line of a vertex.
fn append_line<F: Fn(u32) -> (u32, u32)>(
    tail: &Tail<'_, F>,
    words: &[LineBuf],
    buf: &mut LineBuf,
    v: u32,
) -> Result<(), AllocError>
    requires ready { IsReady F.pre F.post tail.now }
    requires words { HaveWords tail.now words.now }
    requires within { v < count_of tail.now }
    ensures { OnOk result (buf.new ≡ buf.old ++ line_of tail.now v) }
{
    let counts = tail.counts;
    let (up, down) = counts(v);
    let level = tail.levels[v as usize];
    append_counted(buf, words, VertexCounts { v, level, up, down })
}

// Writes the lines of the vertices one after another, in the thread of the caller. Sends them in blocks.
fn send_in_turn<K: Sink, F: Fn(u32) -> (u32, u32)>(
    buf: &mut LineBuf,
    sink: &mut K,
    tail: &Tail<'_, F>,
    words: &[LineBuf],
) -> Result<(), SendFault>
    requires ready { IsReady F.pre F.post tail.now }
    requires words { HaveWords tail.now words.now }
    ensures text { Appends (K.taken sink.old) (K.taken sink.new) (vertex_lines (line_of tail.now) (count_of tail.now)) result }
    ensures buffer { IsCleared buf.new result }
    ensures cause { WriteCause (K.faults sink.old) (K.faults sink.new) result }
{
    buf.clear();
    for v in 0..tail.graph.vertices() {
        append_line(tail, words, buf, v)?;
        if buf.as_bytes().len() >= BLOCK {
            send_held(buf, sink)?;
        }
    }
    send_held(buf, sink)
}

// Composes the lines of the vertices of a piece, of which the last may be shorter.
fn compose_piece<F: Fn(u32) -> (u32, u32)>(
    alloc: Global,
    tail: &Tail<'_, F>,
    words: &[LineBuf],
    piece: usize,
) -> Result<LineBuf, AllocError>
    requires ready { IsReady F.pre F.post tail.now }
    requires words { HaveWords tail.now words.now }
    requires within { piece * PIECE < count_of tail.now }
    ensures { IfOk result (AreLinesOf (line_of tail.now) (piece * PIECE) (min (piece * PIECE + PIECE) (count_of tail.now))) }
{
    let mut text = LineBuf::new(alloc);
    let start = piece * PIECE;
    let end = (tail.graph.vertices() as usize).min(start + PIECE);
    for v in start..end {
        append_line(tail, words, &mut text, v as u32)?;
    }
    Ok(text)
}

// Writes the text of a piece, for which there may have been no memory.
fn put_piece<K: Sink>(sink: &mut K, text: &Result<LineBuf, AllocError>) -> Result<(), SendFault>
    ensures text { MatchResult text.now (λ bytes. Appends (K.taken sink.old) (K.taken sink.new) bytes result) (λ _. K.taken sink.new ≡ K.taken sink.old) }
    ensures made { OnOk result (IsOk text.now) }
    ensures cause { WriteCause (K.faults sink.old) (K.faults sink.new) result }
{
    match text {
        Ok(text) => match put_all(sink, text.as_bytes()) {
            Ok(()) => Ok(()),
            Err(Failed) => Err(SendFault::WriteFault),
        },
        Err(_) => Err(SendFault::Memory(AllocError)),
    }
}

// Writes the lines of the vertices in rounds. A round has a piece for each worker, composed in a thread of its own if
// one can be made. So no more than the lines of a round are in memory at once.
fn send_in_rounds<R: Threads + Sync, K: Sink, F: Fn(u32) -> (u32, u32) + Sync>(
    crew: &Crew<'_, R>,
    sink: &mut K,
    tail: &Tail<'_, F>,
    words: &[LineBuf],
) -> Result<(), SendFault>
    requires ready { IsReady F.pre F.post tail.now }
    requires words { HaveWords tail.now words.now }
    requires workers { 0 < crew.now.workers }
    ensures text { Appends (K.taken sink.old) (K.taken sink.new) (vertex_lines (line_of tail.now) (count_of tail.now)) result }
    ensures cause { WriteCause (K.faults sink.old) (K.faults sink.new) result }
{
    let alloc = crew.alloc;
    let pieces = tail.levels.len().div_ceil(PIECE);
    let mut sent = 0;
    while sent < pieces {
        let first = sent;
        let texts = thread::map_indices(
            crew.rt,
            alloc,
            (pieces - sent).min(crew.workers as usize),
            &|i: usize| -> Result<LineBuf, AllocError>
                requires { IsReady F.pre F.post tail.now × HaveWords tail.now words.now × (first + i < 2 ^ 64) × ((first + i) * PIECE < count_of tail.now) }
                ensures { IfOk result (AreLinesOf (line_of tail.entry.now) ((first + i) * PIECE) (min ((first + i) * PIECE + PIECE) (count_of tail.entry.now))) }
            { compose_piece(alloc, tail, words, first + i) },
        )?;
        for text in &texts {
            put_piece(sink, text)?;
            sent += 1;
        }
    }
    Ok(())
}

// Writes the lines of the vertices, by several workers if there are some and the vertices fill two pieces.
fn send_lines<R: Threads + Sync, K: Sink, F: Fn(u32) -> (u32, u32) + Sync>(
    crew: &Crew<'_, R>,
    buf: &mut LineBuf,
    sink: &mut K,
    tail: &Tail<'_, F>,
    words: &[LineBuf],
) -> Result<(), SendFault>
    requires ready { IsReady F.pre F.post tail.now }
    requires words { HaveWords tail.now words.now }
    ensures text { Appends (K.taken sink.old) (K.taken sink.new) (vertex_lines (line_of tail.now) (count_of tail.now)) result }
    ensures buffer { IsCleared buf.new result }
    ensures cause { WriteCause (K.faults sink.old) (K.faults sink.new) result }
{
    if crew.workers < 2 || tail.levels.len() < 2 * PIECE {
        return send_in_turn(buf, sink, tail, words);
    }
    buf.clear();
    send_in_rounds(crew, sink, tail, words)
}

/// Writes the end of a text of levels (`tail_text`): the line of each vertex in ascending order, and the last line.
///
/// `counts` gives the two counts of neighbours of a vertex (`AreCounts`), and `th` are the graph's thresholds. There is
/// a level for each vertex, at most the top. `WriteFault` comes only from a failed write. After `WriteFault` or
/// `Memory` the sink took a prefix of the lines.
///
/// Composes what a level says once for each level, in some 100 bytes. With one worker, or fewer than 16,384 vertices,
/// lines are sent in blocks of some 4 KiB. Otherwise each worker composes the lines of 8,192 vertices, then these are
/// sent piece by piece, and so on. That takes up to 1 MB a worker. The text doesn't depend on the number of workers.
pub fn write_level_tail<R: Threads + Sync, K: Sink, F: Fn(u32) -> (u32, u32) + Sync>(
    crew: &Crew<'_, R>,
    buf: &mut LineBuf,
    sink: &mut K,
    graph: &Graph,
    th: &Thresholds,
    levels: &[u16],
    counts: F,
) -> Result<(), SendFault>
    requires levels { AreLevels th.now graph.now levels.now }
    requires callable { (v : ℕ) → v < graph.now.vertices → F.pre counts v }
    requires counts { GivesCounts (F.post counts) graph.now levels.now }
    ensures text { Appends (K.taken sink.old) (K.taken sink.new) (tail_text th.now.profile graph.now levels.now) result }
    ensures buffer { IsCleared buf.new result }
    ensures cause { WriteCause (K.faults sink.old) (K.faults sink.new) result }
{
    let words = compose_words(crew.alloc, th, levels)?;
    let tail = Tail {
        graph,
        th,
        levels,
        counts: &counts,
    };
    send_lines(crew, buf, sink, &tail, &words)?;
    put_end(buf, sink)
}
