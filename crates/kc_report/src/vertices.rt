//! The line of a vertex in a run: its level, what the level says of its coreness, and two counts of neighbours.
ghost use Rattle.std.specs.Prelude.{◌≡◌, ℕ, ◌+◌, ◌<◌, ◌≤◌, [], ◌∷◌, ◌++◌, OnOk, length, drop, decimal};
ghost use Rattle.kc_levels.specs.declared.profile.Profile.{Profile};
ghost use Rattle.kc_text.specs.Writing.{Appends, WriteCause};
ghost use Rattle.kc_report.specs.Buffer.{IsCleared};
ghost use Rattle.kc_report.specs.Lines.{vertex_line};
ghost use Rattle.kc_report.specs.private.LevelWords.{counted_line, AreLevelWords, AreShort};

use crate::level_words::fill_bounds;
use itoa::write_digits;
use kc_levels::Estimate;
use kc_text::{LineBuf, SendFault, Sink};
use std::alloc::{AllocError, Global};

/// What the line of a vertex says beside the words of its level.
#[derive(Clone, Copy, Debug)]
pub struct VertexCounts {
    /// The vertex.
    pub v: u32,
    /// Its level.
    pub level: u16,
    /// The number of its neighbours on its level or above.
    pub up: u32,
    /// The number of its neighbours on the level below or above; on level 0 all.
    pub down: u32,
}

fn fill_vertex(
    buf: &mut LineBuf,
    counts: VertexCounts,
    estimate: Estimate,
) -> Result<(), AllocError>
    ensures { OnOk result (buf.new ++ 10 ∷ [] ≡ vertex_line counts.v counts.level estimate counts.up counts.down) }
{
    buf.clear();
    buf.put_named(b"vertex ", counts.v)?;
    fill_bounds(buf, counts.level, estimate)?;
    buf.put_named(b" up ", counts.up)?;
    buf.put_named(b" down ", counts.down)
}

/// Writes the line of vertex `v` (`vertex_line`): its level, the estimate and the bounds of its coreness, and two
/// counts of neighbours.
///
/// `up` are the neighbours on its level or above, `down` those on the level below or above; at level 0 both are equal.
/// Any numbers are written; the caller makes sure that they are those of `v`. `WriteFault` comes only from a failed
/// write. After `WriteFault` or `Memory` the sink took a prefix of the line.
pub fn write_vertex<K: Sink>(
    _alloc: Global,
    buf: &mut LineBuf,
    sink: &mut K,
    v: u32,
    level: u16,
    estimate: Estimate,
    up: u32,
    down: u32,
) -> Result<(), SendFault>
    ensures text { Appends (K.taken sink.old) (K.taken sink.new) (vertex_line v level estimate up down) result }
    ensures buffer { IsCleared buf.new result }
    ensures cause { WriteCause (K.faults sink.old) (K.faults sink.new) result }
{
    let counts = VertexCounts { v, level, up, down };
    fill_vertex(buf, counts, estimate)?;
    buf.send_to(sink)
}

// Writes bytes so that they end at `end`. Returns where they start.
fn write_bytes(bytes: &[u8], line: &mut [u8], end: usize) -> usize
    requires { (length bytes.now ≤ end) × (end ≤ length line.old) }
    ensures start { result + length bytes.now ≡ end }
    ensures written { drop result line.new ≡ bytes.now ++ drop end line.old }
{
    let start = end - bytes.len();
    line[start..end].copy_from_slice(bytes);
    start
}

// Writes a name, with its blanks, and a number so that they end at `end`. Returns where they start.
#[tactic(auto, using(crate::proofs::LineLemmas::short))]
fn write_named(name: &[u8], value: u32, line: &mut [u8], end: usize) -> usize
    requires { (length name.now + 10 ≤ end) × (end ≤ length line.old) }
    ensures start { (result ≤ end) × (end ≤ result + (length name.now + 10)) }
    ensures written { drop result line.new ≡ name.now ++ (decimal value ++ drop end line.old) }
{
    let middle = write_digits(u64::from(value), line, end);
    write_bytes(name, line, middle)
}

// The most bytes of the line of a vertex.
const LONGEST: usize = 106;

/// Appends the line of a vertex, with words that were composed for its level (`counted_line`). The line is composed
/// first, and costs one append.
pub fn append_counted(
    buf: &mut LineBuf,
    words: &[LineBuf],
    counts: VertexCounts,
) -> Result<(), AllocError>
    requires level { counts.level < length words.now }
    requires short { AreShort words.now }
    ensures { (p : Profile) (n : ℕ) → AreLevelWords p n words.now → OnOk result (buf.new ≡ buf.old ++ counted_line p n counts) }
{
    let mut line = [b'\n'; LONGEST];
    let down = write_named(b" down ", counts.down, &mut line, LONGEST - 1);
    let up = write_digits(u64::from(counts.up), &mut line, down);
    let level = write_bytes(words[counts.level as usize].as_bytes(), &mut line, up);
    let start = write_named(b"vertex ", counts.v, &mut line, level);
    buf.put(&line[start..])
}
