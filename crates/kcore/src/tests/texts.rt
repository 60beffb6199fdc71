// Inputs in pieces.
use super::support::{answers, in_pieces, words_of};
use crate::process::program;
use kc_shell::Status;
use std::io::BufWriter;
use std::test::Fail;

// A command line, an input, the status of the call, and its text.
type Row = (&'static str, &'static [u8], Status, &'static [u8]);

const ROWS: &[Row] = &[
    // SNAP text: comments, tabs, both directions, CR LF.
    (
        "run 1",
        b"kcore 1\r\nvertices 3\r\nbatch\r\n# FromNodeId\tToNodeId\r\n0\t1\r\n1\t0\r\n1\t2\r\n2\t1\r\nend\r\n",
        Status::Done,
        b"kcore-run 1\nvertices 3\n\
            batch 1 loops 0 repeats 2 idle 0 removed 0 added 2\nphase 1 insert quiet 0\ngroup 1 0 0:1 1:1 2:1\n\
            vertex 0 level 1 est 2 low 1 high 2 up 1 down 1\n\
            vertex 1 level 1 est 2 low 1 high 2 up 2 down 2\n\
            vertex 2 level 1 est 2 low 1 high 2 up 1 down 1\nend\n",
    ),
    // A refused batch between two others, and no last line feed.
    (
        "run 3",
        b"kcore 1\nvertices 3\nbatch\n0 1\nend\nbatch\n1 2\n0 2\n1 3\nend\nbatch\n1 2\nend",
        Status::Refused,
        b"kcore-run 1\nvertices 3\n\
            batch 1 loops 0 repeats 0 idle 0 removed 0 added 1\nphase 1 insert quiet 0\ngroup 1 0 0:1 1:1\n\
            batch 2 refused line 9 bad-vertex\n\
            batch 3 loops 0 repeats 0 idle 0 removed 0 added 1\nphase 2 insert quiet 0\ngroup 2 2 2:1\n\
            vertex 0 level 1 est 2 low 1 high 2 up 1 down 1\n\
            vertex 1 level 1 est 2 low 1 high 2 up 2 down 2\n\
            vertex 2 level 1 est 2 low 1 high 2 up 1 down 1\nend\n",
    ),
    // A reader asks twice in an input without batches.
    (
        "run 064",
        b"kcore 1\nvertices 2\nask 2 1 0\n",
        Status::Done,
        b"kcore-run 1\nvertices 2\nreader 0 1=0 0=0 1=0 0=0\n\
            vertex 0 level 0 est 0 low 0 high 0 up 0 down 0\n\
            vertex 1 level 0 est 0 low 0 high 0 up 0 down 0\nend\n",
    ),
];

#[test]
fn runs_in_any_pieces(rt: HostRuntime) -> Result<(), Fail> {
    for row in ROWS {
        for piece in [1, 2, 7] {
            assert!(rt; answers(&rt, in_pieces(row.0, row.1, piece), row.2, row.3));
        }
    }
    Ok(())
}

// The same, from a reader in memory to a writer in memory that holds back up to 16 bytes.
#[test]
fn a_process_leaves_its_text(rt: HostRuntime) -> Result<(), Fail> {
    for row in ROWS {
        let words = words_of(&rt, row.0);
        let writer = BufWriter::with_capacity(rt.alloc(), 16, Vec::new(rt.alloc()))
            .ok()
            .expect(&rt, "memory for a buffer");
        let (status, written) = program(&rt, &words, row.1, writer);
        assert!(rt; status == row.2 && written.as_slice() == row.3);
    }
    Ok(())
}
