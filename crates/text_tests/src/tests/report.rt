// The lines of runs, of exact texts and of readers, beside lines that were worked out by hand.
ghost use Rattle.std.specs.Prelude.{◌≤◌, length};

use crate::tests::support::{Bench, check, put, put_end, sink_of};
use kc_graph::{Cleaned, Edges};
use kc_history::Reply;
use kc_levels::Estimate;
use kc_report::{
    VertexLines, write_batch, write_coreness, write_end, write_exact_head, write_head,
    write_header_refused, write_note, write_reader, write_refused, write_tail, write_vertex,
};
use kc_text::{LineBuf, MemSink, Reason, SendFault, Sink};
use test_support::graphs::edges_of;

// The lines of batches with phases.
mod phases;

// Returns a cleaning with these edges, and three different counts.
fn cleaned_of(rt: &impl Bench, removed: &[(u32, u32)], added: &[(u32, u32)]) -> Cleaned {
    let removed = edges_of(rt.alloc(), 9, removed).expect(rt, "edges");
    let added = edges_of(rt.alloc(), 9, added).expect(rt, "edges");
    Cleaned {
        removed: Edges::from_vec(removed),
        added: Edges::from_vec(added),
        loops: 3,
        repeats: 40,
        idle: 4294967295,
    }
}

const ESTIMATE: Estimate = Estimate {
    est: 2,
    lo: 1,
    hi: 4,
};

const NONE: Estimate = Estimate {
    est: 0,
    lo: 0,
    hi: 0,
};

fn write_added(rt: &impl Bench, buf: &mut LineBuf, sink: &mut MemSink) -> Result<(), SendFault> {
    let cleaned = cleaned_of(rt, &[(0, 1)], &[(0, 2), (3, 4)]);
    assert!(rt; cleaned.removed.len() < 9 && cleaned.added.len() < 9);
    write_batch(rt.alloc(), buf, sink, 1, &cleaned, &[])
}

// Makes the calls that write a run, and puts how each ends.
fn put_run(rt: &impl Bench, ends: &mut Vec<u8>, buf: &mut LineBuf, sink: &mut MemSink) {
    let alloc = rt.alloc();
    put_end(rt, ends, write_head(alloc, buf, sink, 1048576));
    put_end(rt, ends, write_added(rt, buf, sink));
    let refused = write_refused(alloc, buf, sink, 2, 17, Reason::EdgeLimit);
    put_end(rt, ends, refused);
    let vertex = write_vertex(alloc, buf, sink, 0, 65535, ESTIMATE, 5, 10);
    put_end(rt, ends, vertex);
    put_end(rt, ends, write_end(alloc, buf, sink));
}

// Returns what a sink that takes pieces and fails at some calls took of a run, and how its calls end.
fn told_of_run(rt: &impl Bench, piece: u32, failing: &[u32]) -> Vec<u8> {
    let mut sink = sink_of(rt, piece, failing);
    let mut buf = LineBuf::new(rt.alloc());
    let mut ends = Vec::new(rt.alloc());
    put_run(rt, &mut ends, &mut buf, &mut sink);
    drop(buf);
    let mut told = Vec::new(rt.alloc());
    put(rt, &mut told, sink.bytes());
    put(rt, &mut told, &ends);
    told
}

const RUN: &[&str] = &[
    "kcore-run 1\n",
    "vertices 1048576\n",
    "batch 1 loops 3 repeats 40 idle 4294967295 removed 1 added 2\n",
    "batch 2 refused line 17 edge-limit\n",
    "vertex 0 level 65535 est 2 low 1 high 4 up 5 down 10\n",
    "end\n",
];

// Returns a run without one of its lines, counted from 1, and how its calls end.
fn without(rt: &impl Bench, line: u32, ends: &str) -> Vec<u8> {
    let mut left = Vec::new(rt.alloc());
    let mut at = 0u32;
    for text in RUN {
        at = at.saturating_add(1);
        if at != line {
            put(rt, &mut left, text.as_bytes());
        }
    }
    put(rt, &mut left, ends.as_bytes());
    left
}

// Returns whether a run of which a call fails is written without its line. No call is call 0.
fn is_run(rt: &impl Bench, piece: u32, failing: u32, ends: &str) -> bool {
    told_of_run(rt, piece, &[failing]) == without(rt, failing, ends)
}

#[test]
fn lines_of_a_run(rt: HostRuntime) {
    for piece in [1, 7, 1000] {
        assert!(rt; is_run(&rt, piece, 0, "ooooo"));
    }
}

// Each line is one call of a sink that takes it whole: if a call but the first fails, its line alone is gone. Call 2 is
// the second of the head. There is no call 7.
#[test]
fn each_line_is_one_call(rt: HostRuntime) {
    let mut failing = 1u32;
    for ends in "foooo ofooo oofoo ooofo oooof ooooo".split(' ') {
        failing = failing.saturating_add(1);
        assert!(rt; is_run(&rt, 2000, failing, ends));
    }
}

// Returns what a sink took, and how a call ended.
fn taken(rt: &impl Bench, sink: MemSink, answer: Result<(), SendFault>) -> Vec<u8> {
    let mut told = Vec::new(rt.alloc());
    put(rt, &mut told, sink.bytes());
    put_end(rt, &mut told, answer);
    told
}

#[test]
fn head_ends_at_its_first_fault(rt: HostRuntime) {
    let mut sink = sink_of(&rt, 1000, &[1]);
    let answer = write_head(rt.alloc(), &mut LineBuf::new(rt.alloc()), &mut sink, 1);
    check(&rt, "a head", &taken(&rt, sink, answer), "f");
}

// One line, in the first call: none is left for the second, which would fail.
#[test]
fn line_of_a_refused_header(rt: HostRuntime) {
    let mut sink = sink_of(&rt, 1000, &[2]);
    let answer = write_header_refused(&mut LineBuf::new(rt.alloc()), &mut sink, 3);
    let want = "refused line 3 header\no";
    check(&rt, "a refused header", &taken(&rt, sink, answer), want);
}

// Writes a note, and an exact text with the lines of two vertices: one of four joined each with each, and one alone.
// The level of the four says 1 to 4, and 2 for an estimate.
fn write_exact(rt: &impl Bench, buf: &mut LineBuf, sink: &mut MemSink) -> Result<(), SendFault> {
    let alloc = rt.alloc();
    write_note(buf, sink, 2, 9, Reason::BadVertex)?;
    write_exact_head(buf, sink, 5)?;
    write_coreness(buf, sink, 3, 3, ESTIMATE)?;
    write_coreness(buf, sink, 4, 0, NONE)?;
    write_end(alloc, buf, sink)
}

const EXACT: &str = "# batch 2 refused line 9 bad-vertex\n\
    kcore-exact 1\nvertices 5\n\
    vertex 3 coreness 3 low 1 est 2 high 4\nvertex 4 coreness 0 low 0 est 0 high 0\nend\no";

fn told_of_exact(rt: &impl Bench, piece: u32) -> Vec<u8> {
    let mut sink = sink_of(rt, piece, &[]);
    let mut buf = LineBuf::new(rt.alloc());
    let answer = write_exact(rt, &mut buf, &mut sink);
    drop(buf);
    taken(rt, sink, answer)
}

#[test]
fn lines_of_an_exact_text(rt: HostRuntime) {
    for piece in [1, 7, 1000] {
        check(&rt, "an exact text", &told_of_exact(&rt, piece), EXACT);
    }
}

// Makes four calls that write readers, and puts how each ends. The second reader has no reply.
fn put_readers(rt: &impl Bench, ends: &mut Vec<u8>, sink: &mut MemSink) {
    let mut replies = Vec::new(rt.alloc());
    for (vertex, level) in [(4294967295, 65535), (0, 7), (0, 0)] {
        replies.push(Reply { vertex, level }).expect(rt, "memory");
    }
    let mut buf = LineBuf::new(rt.alloc());
    for (reader, from) in [(0, 0), (1, 3), (4294967295, 1), (3, 0)] {
        assert!(rt; from <= replies.len());
        let answer = write_reader(rt.alloc(), &mut buf, sink, reader, &replies[from..]);
        put_end(rt, ends, answer);
    }
}

// Each line is one call of the sink, of which the fourth fails.
#[test]
fn lines_of_readers(rt: HostRuntime) {
    let mut sink = sink_of(&rt, 1000, &[4]);
    let mut told = Vec::new(rt.alloc());
    put_readers(&rt, &mut told, &mut sink);
    put(&rt, &mut told, b"\n");
    put(&rt, &mut told, sink.bytes());
    drop(sink);
    let want = "ooof\nreader 0 4294967295=65535 0=7 0=0\nreader 1\nreader 4294967295 0=7 0=0\n";
    check(&rt, "readers", &told, want);
}

// Lines of vertices whose corenesses are known.
#[derive(Drop)]
struct KnownLines<'a> {
    // The coreness of each vertex.
    corenesses: &'a [u32],
}

impl VertexLines for KnownLines<'_> {
    ghost use Rattle.std.specs.Prelude.{◌<◌, slice_index};
    ghost use Rattle.kc_report.specs.Lines.{coreness_line};
    ghost use Rattle.text_tests.specs.declared.tests.report.TheConstants.{ESTIMATE};

    ghost line = { λ lines v. coreness_line v (slice_index lines.corenesses.now v) ESTIMATE };

    ghost has_line = { λ lines v. v < length lines.corenesses.now };

    fn write_line<K: Sink>(
        &self,
        buf: &mut LineBuf,
        sink: &mut K,
        v: u32,
    ) -> Result<(), SendFault> {
        write_coreness(buf, sink, v, self.corenesses[v as usize], ESTIMATE)
    }
}

// Returns what a sink took of the end of a text, with a line for each coreness, and how the call ended.
fn told_of_known(rt: &impl Bench, corenesses: &[u32], piece: u32, failing: &[u32]) -> Vec<u8> {
    assert!(rt; corenesses.len() <= 3);
    let n = corenesses.len() as u32;
    let mut sink = sink_of(rt, piece, failing);
    let mut buf = LineBuf::new(rt.alloc());
    let answer = write_tail(&mut buf, &mut sink, n, &KnownLines { corenesses });
    drop(buf);
    taken(rt, sink, answer)
}

const THREE: &str =
    "vertex 0 coreness 5 low 1 est 2 high 4\nvertex 1 coreness 0 low 1 est 2 high 4\n\
    vertex 2 coreness 4294967295 low 1 est 2 high 4\nend\no";

#[test]
fn each_vertex_has_its_line(rt: HostRuntime) {
    for piece in [1, 7, 1000] {
        let got = told_of_known(&rt, &[5, 0, 4294967295], piece, &[]);
        check(&rt, "three vertices", &got, THREE);
    }
    let got = told_of_known(&rt, &[], 1000, &[]);
    check(&rt, "no vertex", &got, "end\no");
}

// What was taken of a text of two vertices, of which call 1, 2, 3 or 4 fails, and how it ended. There is no call 4.
const STOPS: &[&str] = &[
    "f",
    "vertex 0 coreness 5 low 1 est 2 high 4\nf",
    "vertex 0 coreness 5 low 1 est 2 high 4\nvertex 1 coreness 0 low 1 est 2 high 4\nf",
    "vertex 0 coreness 5 low 1 est 2 high 4\nvertex 1 coreness 0 low 1 est 2 high 4\nend\no",
];

// Each line is one call of a sink that takes it whole: nothing is written after the one that fails.
#[test]
fn the_end_stops_at_its_first_fault(rt: HostRuntime) {
    let mut call = 0u32;
    for want in STOPS {
        call = call.saturating_add(1);
        let got = told_of_known(&rt, &[5, 0], 1000, &[call]);
        check(&rt, "an end", &got, want);
    }
}
