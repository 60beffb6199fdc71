// Run texts, whole, changed and broken. Their answers were worked out by hand.

use crate::tests::support::{
    Bench, LIMITS, check, input_of, joined, put, put_number, put_refused, sides,
};
use kc_audit::{AuditFault, AuditVerdict, RunText, audit, read_run};

// Runs that aren't read from a text.
mod runs;

// The limits of a line and of the input of the command that audits.
const RUN_LIMITS: (u32, u32) = (LIMITS.1, LIMITS.1);

// Returns the answer of a read: the verdict of the run, the refused line and why, or `?` for a read fault.
fn said(rt: &impl Bench, read: Result<RunText, AuditFault>) -> Vec<u8> {
    let mut out = Vec::new(rt.alloc());
    match read {
        Ok(run) => put_verdict(rt, &mut out, verdict_of(rt, &run)),
        Err(AuditFault::Refused { line, reason }) => put_refused(rt, &mut out, line, reason),
        Err(AuditFault::ReadFault) => put(rt, &mut out, b"?"),
        Err(AuditFault::Memory(_)) => put(rt, &mut out, b"memory"),
    }
    out
}

fn put_verdict(rt: &impl Bench, out: &mut Vec<u8>, verdict: AuditVerdict) {
    match verdict {
        AuditVerdict::Explained => put(rt, out, b"explained"),
        AuditVerdict::Unexplained { reader, ask } => {
            put_number(rt, out, b"", reader);
            put_number(rt, out, b" ask ", ask);
        }
    }
}

fn verdict_of(rt: &impl Bench, run: &RunText) -> AuditVerdict {
    assert!(rt; run.is_auditable());
    audit(rt.alloc(), run).expect(rt, "memory")
}

fn told(rt: &impl Bench, text: &[u8], piece: u32, failing: &[u32], limits: (u32, u32)) -> Vec<u8> {
    let mut input = input_of(rt, text, piece, failing, limits);
    let read = read_run(rt.alloc(), &mut input.reader, &mut input.source);
    drop(input);
    said(rt, read)
}

// Returns the answer to a text of these parts.
fn told_of(rt: &impl Bench, parts: &[&str]) -> Vec<u8> {
    told(rt, &joined(rt, parts), 1000, &[], RUN_LIMITS)
}

// Checks texts between `before` and `after`. A row is an answer, and the texts that get it, which `|` parts.
fn check_rows(rt: &impl Bench, before: &'static str, rows: &[&'static str], after: &'static str) {
    for row in rows {
        let (want, parts) = sides(rt, row);
        for part in parts.split('|') {
            check(rt, part, &told_of(rt, &[before, part, after]), want);
        }
    }
}

const HEAD: &str = "kcore-run 1\nvertices 6\n";

// A batch with a phase whose groups follow.
const PHASE: &str = "kcore-run 1\nvertices 6\n\
    batch 1 loops 0 repeats 0 idle 0 removed 0 added 2\nphase 1 insert quiet 0\n";

// The same with two groups.
const GROUPS: &str = "kcore-run 1\nvertices 6\n\
    batch 1 loops 0 repeats 0 idle 0 removed 0 added 2\nphase 1 insert quiet 0\n\
    group 1 0 0:1 1:1\ngroup 1 2 2:1 3:1\n";

const TAIL: &str =
    "vertex 0 level 1 est 2 low 1 high 2 up 1 down 1\nvertex 1 level 1 est 2 low 1 high 2 up 1 down 1\n\
    vertex 2 level 1 est 2 low 1 high 2 up 1 down 1\nvertex 3 level 1 est 2 low 1 high 2 up 1 down 1\n\
    vertex 4 level 0 est 0 low 0 high 0 up 0 down 0\nvertex 5 level 0 est 0 low 0 high 0 up 0 down 0\nend\n";

const READERS: &[&str] = &[
    "explained => |reader 0 0=0 3=0 1=1 3=1\n",
    "0 ask 2 => reader 0 0=1 1=0\n",
    "7 bad-vertex => reader 0 9=0\n",
    "7 bad-line => reader 1 0=0\n|reader 0\n|reader 0 0:0\n|reader 0 9=65536\n|end\n|vertices 6\n",
    "8 bad-line => reader 0 0=0\nreader 0 0=0\n|reader 0 0=0\ngroup 1 4 4:1\n|\
        reader 0 0=0\nbatch 2 refused line 9 bad-line\n|reader 0 0=0\nphase 2 delete quiet 0\n|\
        vertex 0 level 1 est 2 low 1 high 2 up 1 down 1\nreader 0 0=0\n",
    "1 ask 4 => reader 0 0=0\nreader 1 0=1 2=1 0=1 0=0\n",
    "1 ask 1 => # notes\n\nreader 00 00=01\nreader 1 3=2\n",
    "0 ask 1 => reader 0 5=65535\n",
];

#[test]
fn readers(rt: HostRuntime) {
    check_rows(&rt, GROUPS, READERS, TAIL);
    let (vertices, _) = TAIL.split_once("end").expect(&rt, "an end");
    check_rows(&rt, GROUPS, &["13 truncated => "], vertices);
}

const GROUP_LINES: &[&str] = &[
    "explained => group 1 0 0:1 1:1\n|group 01 000 00:01\n| \tgroup\t1  0 0:1 \r\n|#\ngroup 1 0 0:65535\n|\
        group 1 0 0:1 1:1\ngroup 1 1 1:2\n",
    "6 bad-line => group 1 2 2:1 3:1\ngroup 1 0 0:1 1:1\n|group 1 0 0:1\ngroup 1 0 0:2\n|\
        group 1 0 0:1\nphase 2 delete quiet 0\n",
    "5 bad-line => group 2 0 0:1\n|group 1 0\n|group 1\n|group\n|group 1 0 1:1\n|group 1 0 0:1 0:1\n|\
        group 1 1 1:1 0:1\n|group 1 0 0:65536\n|group 1 0 6:1\n|group 1 0 0:1 6:1 5:1\n|group 1 0 0:1 6:65536\n|\
        group 1 0 0:1 4294967296:1\n|group 1 0 0=1\n|group 1 0 0:1:1\n|group 1 0 :1\n|group 1 0 0:\n|group 1 0 0\n|\
        group 1 x 0:1\n|groups 1 0 0:1\n|phase 2 insert quiet 0\n",
    "5 bad-vertex => group 1 0 0:1 6:1\n|group 1 6 6:1\n|group 1 0 0:1 4294967295:1\n",
];

#[test]
fn groups(rt: HostRuntime) {
    check_rows(&rt, PHASE, GROUP_LINES, TAIL);
}

const BATCHES: &[&str] = &[
    "explained => |batch 1 loops 9 repeats 9 idle 9 removed 9 added 9\n|\
        batch 1 refused line 3 bad-vertex\nbatch 2 refused line 9 phase-limit\n",
    "3 bad-line => batch 1 refused line 3 header\n|batch 1 refused line x bad-line\n|\
        batch 1 refused line 3 bad-line 0\n|batch 1 refused 3 bad-line\n|\
        batch 0 loops 0 repeats 0 idle 0 removed 0 added 0\n|batch 2 loops 0 repeats 0 idle 0 removed 0 added 0\n|\
        batch 1 loops 0 repeats 0 idle 0 removed 0\n|batch 1 loops 0 repeats 0 idle 0 removed 0 added\n|\
        batch 1 loops 0 repeats 0 idle 0 added 0 removed 0\n|batch 1 loops 0 repeats x idle 0 removed 0 added 0\n|\
        batch 1 loops 0 repeats 0 idle 0 removed 0 added 0 0\n|phase 1 insert quiet 0\n",
    "4 bad-line => batch 1 refused line 3 truncated\nphase 1 insert quiet 0\n",
];

// The head, and the line of a batch.
const BATCH: &str = "kcore-run 1\nvertices 6\nbatch 1 loops 0 repeats 0 idle 0 removed 0 added 0\n";

const PHASE_LINES: &[&str] = &[
    "explained => phase 1 delete quiet 1\ngroup 1 0 0:1\nphase 2 insert quiet 0\n",
    "5 bad-line => phase 1 insert quiet 1\nphase 2 insert quiet 0\n|phase 1 delete quiet 1\nphase 2 delete quiet 0\n",
    "4 bad-line => phase 2 delete quiet 1\n|phase 1 remove quiet 1\n|phase 1 insert quiet\n|group 0 0 0:1\n",
];

#[test]
fn batches(rt: HostRuntime) {
    check_rows(&rt, HEAD, BATCHES, TAIL);
    check_rows(&rt, BATCH, PHASE_LINES, TAIL);
}

const HEADS: &[&str] = &[
    "1 truncated => ",
    "3 truncated => # kcore-run 1\n\n|kcore-run 1\nvertices 16777216\n",
    "2 truncated => kcore-run 1\n",
    "1 bad-line => kcore-run 2\n|kcore-run 01\n|kcore-run 1 1\n|kcore 1\nvertices 1\n|vertices 1\n",
    "2 bad-line => kcore-run 1\nvertices 0\n|kcore-run 1\nvertices 16777217\n|kcore-run 1\nvertices 1 1\n|\
        kcore-run 1\nbatch 1 refused line 3 bad-line\n",
    "3 bad-line => kcore-run 1\nvertices 1\nend\n",
    "4 bad-line => kcore-run 1\nvertices 2\nvertex 0 level 0 est 0 low 0 high 0 up 0 down 0\nend\n",
];

const ONE: &str = "kcore-run 1\nvertices 1\n";

// Ends after `ONE`.
const ENDS: &[&str] = &[
    "explained => vertex 0 level 0 est 0 low 0 high 0 up 0 down 0\nend|\
        vertex 0 level 0 est 0 low 0 high 0 up 0 down 0\nend\n#\n",
    "5 bad-line => vertex 0 level 0 est 0 low 0 high 0 up 0 down 0\nend\nend\n",
    "3 bad-line => vertex 1 level 0 est 0 low 0 high 0 up 0 down 0\nend\n|\
        vertex 0 level 0 est 0 low 0 high 0 up 0 down x\nend\n|vertex 0 level 0 est 0 low 0 high 0 up 0\nend\n",
    "4 bad-line => vertex 0 level 0 est 0 low 0 high 0 up 0 down 0\n\
        vertex 1 level 0 est 0 low 0 high 0 up 0 down 0\nend\n",
];

const SHORT: &str =
    "kcore-run 1\nvertices 1\nvertex 0 level 0 est 0 low 0 high 0 up 0 down 0\nend\n";

#[test]
fn whole_texts(rt: HostRuntime) {
    check_rows(&rt, "", HEADS, "");
    check_rows(&rt, ONE, ENDS, "");
    let text = joined(&rt, &[GROUPS, "reader 0 0=1 1=0\n", TAIL]);
    for piece in [1, 7] {
        let got = told(&rt, &text, piece, &[], RUN_LIMITS);
        check(&rt, "a text in pieces", &got, "0 ask 2");
    }
}

// Limits of a line and of the input, the failing calls of a source that gives 9 bytes a call; the answer to `SHORT`.
const LIMITED: &[((u32, u32), &[u32], &str)] = &[
    ((47, 1000), &[], "explained"),
    ((46, 1000), &[], "3 line-long"),
    ((10, 1000), &[], "1 line-long"),
    ((47, 75), &[], "explained"),
    ((47, 74), &[], "4 input-limit"),
    ((47, 15), &[], "2 input-limit"),
    ((47, 5), &[], "1 input-limit"),
    (RUN_LIMITS, &[1], "?"),
    (RUN_LIMITS, &[2], "?"),
    (RUN_LIMITS, &[5], "?"),
];

#[test]
fn limits_and_faults(rt: HostRuntime) {
    for (limits, failing, want) in LIMITED {
        let got = told(&rt, SHORT.as_bytes(), 9, failing, *limits);
        check(&rt, "limits and faults", &got, want);
    }
}

fn told_of_readers(rt: &impl Bench, count: u32) -> Vec<u8> {
    let mut text = joined(rt, &[HEAD]);
    for reader in 0..count {
        put_number(rt, &mut text, b"reader ", reader);
        put(rt, &mut text, b" 5=0\n");
    }
    put(rt, &mut text, TAIL.as_bytes());
    told(rt, &text, 1000, &[], RUN_LIMITS)
}

#[test]
fn at_most_64_readers(rt: HostRuntime) {
    check(&rt, "64 readers", &told_of_readers(&rt, 64), "explained");
    check(&rt, "65 readers", &told_of_readers(&rt, 65), "67 bad-line");
}
