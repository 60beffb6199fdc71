// Certificates, read, judged and written. Their answers were worked out by hand.
ghost use Rattle.std.specs.Prelude.{IfOk};
ghost use Rattle.kc_cert.specs.Texts.{IsCertificate};

use crate::tests::support::{
    Bench, LIMITS, check, input_of, joined, put, put_number, put_refused, sides, sink_of,
};
use kc_cert::{CertFault, Certificate, Verdict, read_certificate, verify, write_certificate};
use kc_levels::{Profile, Thresholds};
use kc_text::{MemSink, SendFault};
use test_support::graphs::{graph_of, levels_of};

// A path of three vertices and two vertices without edges.
const PATH: &str = "kcore-cert 1\nprofile 1\nvertices 5\nedges 2\nedge 0 1\nedge 1 2\n\
    level 0 1\nlevel 1 1\nlevel 2 1\nlevel 3 0\nlevel 4 0\nend\n";

// The same under the second profile.
const FINE_PATH: &str = "kcore-cert 1\nprofile 2\nvertices 5\nedges 2\nedge 0 1\nedge 1 2\n\
    level 0 1\nlevel 1 2\nlevel 2 1\nlevel 3 0\nlevel 4 0\nend\n";

// Puts the verdict of a certificate and its number of edges.
fn put_verdict(rt: &impl Bench, out: &mut Vec<u8>, cert: &Certificate)
    requires { IsCertificate cert.now }
{
    let n = cert.graph.vertices();
    let th = Thresholds::new(rt.alloc(), cert.profile, n).expect(rt, "memory");
    let (name, number): (&[u8], u32) = match verify(cert, &th) {
        Verdict::Certified => (b"certified ", n),
        Verdict::Upper(v) => (b"upper ", v),
        Verdict::Lower(v) => (b"lower ", v),
    };
    drop(th);
    put_number(rt, out, name, number);
    put_number(rt, out, b" of ", cert.graph.edge_count());
}

// Returns the answer of a read: the verdict of the certificate, the refused line and why, or `?` for a read fault.
fn answer_of(rt: &impl Bench, read: Result<Certificate, CertFault>) -> Vec<u8>
    requires { IfOk read IsCertificate }
{
    let mut out = Vec::new(rt.alloc());
    match read {
        Ok(cert) => put_verdict(rt, &mut out, &cert),
        Err(CertFault::Refused { line, reason }) => put_refused(rt, &mut out, line, reason),
        Err(CertFault::ReadFault) => put(rt, &mut out, b"?"),
        Err(CertFault::Memory(_)) => put(rt, &mut out, b"memory"),
    }
    out
}

// Returns the answer to a text that comes in pieces of at most `piece` bytes, if these calls of the source fail.
fn answer_to(
    rt: &impl Bench,
    text: &[u8],
    piece: u32,
    failing: &[u32],
    limits: (u32, u32),
) -> Vec<u8> {
    let mut input = input_of(rt, text, piece, failing, limits);
    let read = read_certificate(rt.alloc(), &mut input.reader, &mut input.source);
    drop(input);
    answer_of(rt, read)
}

const WHOLE: &[&str] = &[
    "kcore-cert 1\nprofile 1\nvertices 5\nedges 2\nedge 0 1\nedge 1 2\n\
            level 0 1\nlevel 1 1\nlevel 2 0\nlevel 3 0\nlevel 4 0\nend\n => upper 2 of 2",
    "kcore-cert 1\nprofile 1\nvertices 5\nedges 2\nedge 0 1\nedge 1 2\n\
            level 0 1\nlevel 1 1\nlevel 2 1\nlevel 3 1\nlevel 4 0\nend\n => lower 3 of 2",
    // Under the second profile two neighbours are too many for level 1.
    "kcore-cert 1\nprofile 2\nvertices 5\nedges 2\nedge 0 1\nedge 1 2\n\
            level 0 1\nlevel 1 1\nlevel 2 1\nlevel 3 0\nlevel 4 0\nend\n => upper 1 of 2",
    // Vertex 1 breaks the lower invariant, and vertex 2 the upper one.
    "kcore-cert 1\nprofile 1\nvertices 4\nedges 1\nedge 2 3\n\
            level 0 0\nlevel 1 1\nlevel 2 0\nlevel 3 1\nend\n => lower 1 of 1",
    // The top level of 4 vertices is 5, and all edges are there.
    "kcore-cert 1\nprofile 1\nvertices 4\nedges 6\nedge 0 1\nedge 0 2\nedge 0 3\nedge 1 2\nedge 1 3\nedge 2 3\n\
            level 0 5\nlevel 1 5\nlevel 2 5\nlevel 3 5\nend\n => certified 4 of 6",
    "kcore-cert 1\nprofile 1\nvertices 1\nedges 0\nlevel 0 0\nend\n => certified 1 of 0",
    // Comments, empty lines, tabs, leading zeros, carriage returns, and no last line feed.
    "# batch 2 refused line 9 bad-vertex\r\n\r\nkcore-cert\t1\r\n profile  1 \r\nvertices 002\r\n\
            edges 1\r\nedge 0 0000000001\r\n#\nlevel 00 1\r\nlevel 1 1\r\nend\r\n# more\r\n => certified 2 of 1",
    "kcore-cert 1\nprofile 1\nvertices 2\nedges 0\nlevel 0 0\nlevel 1 0\nend => certified 2 of 0",
];

// Checks the answer to a text in pieces of some sizes.
fn check_whole(rt: &impl Bench, text: &str, want: &str) {
    for piece in [1, 7, 1000] {
        let got = answer_to(rt, text.as_bytes(), piece, &[], LIMITS);
        check(rt, text, &got, want);
    }
}

#[test]
fn whole_certificates(rt: HostRuntime) {
    for row in WHOLE {
        let (text, want) = sides(&rt, row);
        check_whole(&rt, text, want);
    }
    check_whole(&rt, PATH, "certified 5 of 2");
    check_whole(&rt, FINE_PATH, "certified 5 of 2");
}

// A line, the line in its place, and the answer then.
const MISFITS: &[(&str, &str, &str)] = &[
    ("kcore-cert 1\n", "kcore-cert 1 1\n", "1 bad-line"),
    ("vertices 5\n", "vertices 1\n", "5 bad-vertex"),
    ("edges 2\n", "edges 1\n", "6 bad-line"),
    ("edges 2\n", "edges 3\n", "7 bad-line"),
    ("edge 0 1\n", "edge 4294967295 1\n", "5 bad-vertex"),
    ("edge 0 1\n", "edge 4294967296 1\n", "5 bad-line"),
    ("edge 0 1\n", "edge 1 2\n", "6 bad-line"),
    ("edge 0 1\n", "edge 2 3\n", "6 bad-line"),
    ("edge 0 1\n", "level 9 0\n", "5 bad-line"),
    ("level 0 1\n", "edge 9 9\n", "7 bad-line"),
    ("level 0 1\n", "level 4294967295 70000\n", "7 bad-vertex"),
    ("level 0 1\n", "level 0 65537\n", "7 bad-line"),
    ("level 4 0\n", "level 4 7\n", "11 bad-line"),
    ("level 4 0\n", "end\n", "11 bad-line"),
    ("end\n", "level 5 0\n", "12 bad-line"),
    ("end\n", "end\nend\n", "13 bad-line"),
];

fn answer_to_change(rt: &impl Bench, old: &str, new: &str) -> Vec<u8> {
    let (before, after) = PATH.split_once(old).expect(rt, "the line");
    answer_to(rt, &joined(rt, &[before, new, after]), 9, &[], LIMITS)
}

#[test]
fn misfits(rt: HostRuntime) {
    for (old, new, want) in MISFITS {
        check(&rt, new, &answer_to_change(&rt, old, new), want);
    }
}

// The beginnings of the lines of the path.
const STARTS: &[usize] = &[0, 13, 23, 34, 42, 51, 60, 70, 80, 90, 100, 110];

// Limits of a line and of the input.
const LIMITED: &[((u32, u32), &str)] = &[
    ((12, 1000), "certified 5 of 2"),
    ((11, 1000), "1 line-long"),
    ((100, 114), "certified 5 of 2"),
    ((100, 113), "12 input-limit"),
    ((100, 13), "2 input-limit"),
    ((100, 0), "1 input-limit"),
];

// Returns whether the path, cut at `start`, is refused as truncated at this line. More of the path has to follow.
fn is_truncated(rt: &impl Bench, start: usize, line: u32) -> bool {
    let path = PATH.as_bytes();
    assert!(rt; start < path.len());
    let mut want = Vec::new(rt.alloc());
    put_number(rt, &mut want, b"", line);
    put(rt, &mut want, b" truncated");
    answer_to(rt, &path[..start], 1000, &[], LIMITS) == want
}

#[test]
fn cut_certificates(rt: HostRuntime) {
    let mut line = 0u32;
    for start in STARTS {
        line = line.saturating_add(1);
        assert!(rt; is_truncated(&rt, *start, line));
    }
    for (limits, want) in LIMITED {
        let got = answer_to(&rt, PATH.as_bytes(), 5, &[], *limits);
        check(&rt, want, &got, want);
    }
}

#[test]
fn failing_source(rt: HostRuntime) {
    for call in 1..13 {
        let got = answer_to(&rt, PATH.as_bytes(), 10, &[call], LIMITS);
        check(&rt, "a failing source", &got, "?");
    }
}

type Written = Result<(), SendFault>;

fn write_path(rt: &impl Bench, sink: &mut MemSink, profile: Profile, items: &[u16]) -> Written {
    let graph = graph_of(rt.alloc(), 5, &[(0, 1), (1, 2)]).expect(rt, "memory");
    let levels = levels_of(rt.alloc(), items).expect(rt, "memory");
    assert!(rt; items.len() == 5);
    write_certificate(rt.alloc(), sink, profile, &graph, &levels)
}

// Checks the certificate of the path with this profile and these levels, whatever pieces a sink takes.
fn check_written(rt: &impl Bench, profile: Profile, items: &[u16], want: &str) {
    for piece in [1, 7, 1000] {
        let mut sink = sink_of(rt, piece, &[]);
        write_path(rt, &mut sink, profile, items).expect(rt, "a write");
        check(rt, "the path", sink.bytes(), want);
    }
}

#[test]
fn written_certificates(rt: HostRuntime) {
    check_written(&rt, Profile::One, &[1, 1, 1, 0, 0], PATH);
    check_written(&rt, Profile::Two, &[1, 2, 1, 0, 0], FINE_PATH);
}

// Returns whether a write of the path ends with a write fault if this call of the sink fails, after the sink took this
// text.
fn is_cut(rt: &impl Bench, call: u32, text: &[u8]) -> bool {
    let mut sink = sink_of(rt, 2000, &[call]);
    let answer = write_path(rt, &mut sink, Profile::One, &[1, 1, 1, 0, 0]);
    matches!(answer, Err(SendFault::WriteFault)) && sink.bytes() == text
}

// Each line is one call of a sink that takes it whole: if a call fails, the lines before it were taken.
#[test]
fn each_line_is_one_call(rt: HostRuntime) {
    let mut call = 0u32;
    for start in STARTS {
        call = call.saturating_add(1);
        assert!(rt; *start <= PATH.len() && is_cut(&rt, call, &PATH.as_bytes()[..*start]));
    }
}
