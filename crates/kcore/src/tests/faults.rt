// Reads and writes that fail.
use super::support::{Call, WHOLE, answer, answers};
use kc_shell::Status;
use std::process::Abort;
use std::test::Fail;
use std::thread::Threads;

// The graph and the levels of the path, in a certificate.
const CERTIFICATE: &[u8] =
    b"kcore-cert 1\nprofile 1\nvertices 5\nedges 2\nedge 0 1\nedge 1 2\nlevel 0 1\nlevel 1 1\n\
        level 2 1\nlevel 3 0\nlevel 4 0\nend\n";

// The second batch takes out the edge of vertex 0 and puts in another: its level falls and rises again.
const OUT_AND_IN: &[u8] = b"kcore 1\nvertices 5\nbatch\n0 1\nend\nbatch\n- 0 1\n+ 0 2\nend\n";

// The same input, with two vertices that never move in 40 questions of an ask.
pub const ASKED: &[u8] =
    b"kcore 1\nvertices 5\nask 20 4 3\nbatch\n0 1\nend\nbatch\n- 0 1\n+ 0 2\nend\n";

// Three groups move in one phase.
const THREE_GROUPS: &[u8] = b"kcore 1\nvertices 6\nbatch\n0 1\n2 3\n4 5\nend\n";

// The text of `run` for no batch and one reader.
const RUN_TEXT: &[u8] = b"kcore-run 1\nvertices 1\nreader 0 0=0\n\
    vertex 0 level 0 est 0 low 0 high 0 up 0 down 0\nend\n";

// A command line, its input, and the number of reads and of writes that the command makes in pieces of 7 bytes. Each
// line is written by itself, with two exceptions. The lines of a phase's groups go together, and so do the lines of
// vertices that end `run`.
type Command = (&'static str, &'static [u8], u32, u32);

const COMMANDS: &[Command] = &[
    ("run 1", OUT_AND_IN, 9, 77),
    ("run 1", THREE_GROUPS, 7, 67),
    ("run 2", ASKED, 11, 102),
    ("final 2", ASKED, 11, 21),
    ("orient 2", ASKED, 11, 26),
    ("exact", ASKED, 11, 35),
    ("dense", ASKED, 11, 12),
    ("check", CERTIFICATE, 18, 5),
    ("audit", RUN_TEXT, 14, 2),
    ("gen 0 5 1 3 2", b"", 0, 11),
];

// Returns a call of a command whose reads and writes with these numbers fail. No call has the number 0.
fn failing<'a>(command: &Command, reads: &'a [u32], writes: &'a [u32]) -> Call<'a> {
    Call {
        line: command.0,
        input: command.1,
        piece: 7,
        reads,
        writes,
    }
}

// Returns whether a call ends with this fault, after a part of the text but not the whole.
fn stops<R: Threads + Sync + AllocGlobal + Abort>(
    rt: &R,
    call: Call<'_>,
    fault: Status,
    whole: &[u8],
) -> bool {
    let (status, sink) = answer(rt, call);
    status == fault && sink.bytes().len() < whole.len() && whole.starts_with(sink.bytes())
}

// Each read fails, then each write. With a number one greater than the last call no call fails.
#[test]
fn each_read_and_each_write_fails(rt: HostRuntime) -> Result<(), Fail> {
    for command in COMMANDS {
        let (status, whole) = answer(&rt, failing(command, &[0], &[0]));
        assert!(rt; status == Status::Done);
        for number in 0..command.2 {
            let chosen = [number + 1];
            let call = failing(command, &chosen, &[]);
            assert!(rt; stops(&rt, call, Status::ReadFault, whole.bytes()));
        }
        for number in 0..command.3 {
            let chosen = [number + 1];
            let call = failing(command, &[], &chosen);
            assert!(rt; stops(&rt, call, Status::WriteFault, whole.bytes()));
        }
        let after = ([command.2.wrapping_add(1)], [command.3.wrapping_add(1)]);
        let call = failing(command, &after.0, &after.1);
        assert!(rt; answers(&rt, call, Status::Done, whole.bytes()));
    }
    Ok(())
}

// A command line, the bytes of the first read, the status if the second read fails, and the written text.
type Row = (&'static str, &'static [u8], Status, &'static [u8]);

const NOTED: &[u8] = b"kcore 1\nvertices 2\nbatch\n0 2\nend\n";

const NOTE: &[u8] = b"# batch 1 refused line 4 bad-vertex\n";

const BATCH: &[u8] = b"kcore-run 1\nvertices 2\n\
    batch 1 loops 0 repeats 0 idle 0 removed 0 added 1\nphase 1 insert quiet 0\ngroup 1 0 0:1 1:1\n";

const HEADER: &[u8] = b"refused line 2 header\n";

const NO_VERTICES: &[u8] = b"kcore 1\nvertices 0\n";

const FIRST_READS: &[Row] = &[
    // Text is written before more bytes are read, if it is decided. That is a batch at its end, also beside a reader,
    // and the note of a refused batch.
    (
        "run 1",
        b"kcore 1\nvertices 2\nbatch\n0 1\nend\n",
        Status::ReadFault,
        BATCH,
    ),
    (
        "run 2",
        b"kcore 1\nvertices 2\nask 2 0\nbatch\n0 1\nend\n",
        Status::ReadFault,
        BATCH,
    ),
    (
        "run 1",
        NOTED,
        Status::ReadFault,
        b"kcore-run 1\nvertices 2\nbatch 1 refused line 4 bad-vertex\n",
    ),
    ("final 2", NOTED, Status::ReadFault, NOTE),
    ("orient 2", NOTED, Status::ReadFault, NOTE),
    ("exact", NOTED, Status::ReadFault, NOTE),
    ("dense", NOTED, Status::ReadFault, NOTE),
    // A refused header, certificate or run text ends the command, and nothing more is read.
    ("run 1", NO_VERTICES, Status::Refused, HEADER),
    ("final 1", NO_VERTICES, Status::Refused, HEADER),
    ("orient 1", NO_VERTICES, Status::Refused, HEADER),
    ("exact", NO_VERTICES, Status::Refused, HEADER),
    ("dense", NO_VERTICES, Status::Refused, HEADER),
    (
        "run 2",
        b"kcore 1\nvertices 2\nask 1 2\n",
        Status::Refused,
        b"refused line 3 header\n",
    ),
    (
        "check",
        b"kcore-cert 1\nprofile 3\n",
        Status::Refused,
        b"refused line 2 bad-line\n",
    ),
    (
        "check",
        b"kcore-cert 1\nprofile 1\nvertices 2\nedges 1\nedge 0 2\n",
        Status::Refused,
        b"refused line 5 bad-vertex\n",
    ),
    (
        "audit",
        b"kcore-run 1\nvertices 0\n",
        Status::Refused,
        b"refused line 2 bad-line\n",
    ),
    (
        "audit",
        b"kcore-run 1\nvertices 2\nreader 0 2=0\n",
        Status::Refused,
        b"refused line 3 bad-vertex\n",
    ),
    // Nothing is known about a document that may go on.
    ("check", CERTIFICATE, Status::ReadFault, b""),
    ("audit", RUN_TEXT, Status::ReadFault, b""),
];

#[test]
fn what_is_decided_waits_for_no_read(rt: HostRuntime) -> Result<(), Fail> {
    for row in FIRST_READS {
        let call = Call {
            line: row.0,
            input: row.1,
            piece: WHOLE,
            reads: &[2],
            writes: &[],
        };
        assert!(rt; answers(&rt, call, row.2, row.3));
    }
    Ok(())
}
