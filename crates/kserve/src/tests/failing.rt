// Reads and writes that fail. The call ends each time, and so all threads of it have ended.
use super::support::{Call, answer, answers, at_once, equal_scripts};
use kc_shell::Status;
use std::process::Abort;
use std::sync::Wait;
use std::test::Fail;
use std::thread::Threads;

// The number of the write that fails, and what was written. The third write is that of the first line of the first
// batch; the fourth that of its first update.
const WRITES: &[(u32, &[u8])] = &[
    (2, b"kserve-run 1\n"),
    (3, b"kserve-run 1\nvertices 2\n"),
    (4, b"kserve-run 1\nvertices 2\nbatch 1\n"),
];

// A write in the midst of the lines of the 12,000 updates.
const MIDST: u32 = 5_000;

// Returns a call of which this write fails.
fn failing_write<'a>(input: &'a [u8], write: u32) -> Call<'a> {
    let call = at_once("2", input);
    Call { write, ..call }
}

// Runs a call. Returns whether it ended with `WriteFault` after a text that begins with `text`.
fn fails_after<R: Threads + Wait + Sync + AllocGlobal + Abort>(
    rt: &R,
    call: Call<'_>,
    text: &[u8],
) -> bool {
    let (status, sink) = answer(rt, call);
    status == Status::WriteFault && sink.bytes().starts_with(text)
}

// Returns whether a call ends at each of these writes, and at one in the midst of its text.
fn ends_at_each_failing_write<R: Threads + Wait + Sync + AllocGlobal + Abort>(
    rt: &R,
    input: &[u8],
) -> bool {
    for (number, text) in WRITES {
        let call = failing_write(input, *number);
        if !answers(rt, call, Status::WriteFault, *text) {
            return false;
        }
    }
    fails_after(
        rt,
        failing_write(input, MIDST),
        b"kserve-run 1\nvertices 2\nbatch 1\ntake ",
    )
}

#[test]
fn clients_wait_for_room_while_a_write_fails(rt: HostRuntime) -> Result<(), Fail> {
    let input = equal_scripts(&rt, 4, 3000);
    assert!(rt; ends_at_each_failing_write(&rt, input.as_slice()));
    Ok(())
}

const ONE_EDGE: &[u8] = b"kserve 1\nvertices 2\nbatch\n0 1\nend\n";

// Returns a call that reads an edge in pieces of six bytes, of which this read fails.
fn failing_read(read: u32) -> Call<'static> {
    let call = at_once("1", ONE_EDGE);
    Call {
        piece: 6,
        read,
        ..call
    }
}

// Returns whether nothing is written if one of the seven reads fails. The eighth read isn't made.
fn nothing_is_written<R: Threads + Wait + Sync + AllocGlobal + Abort>(rt: &R) -> bool {
    for number in 1..8 {
        if !answers(rt, failing_read(number), Status::ReadFault, b"") {
            return false;
        }
    }
    let (status, _sink) = answer(rt, failing_read(8));
    status == Status::Done
}

#[test]
fn nothing_is_written_after_a_read_fault(rt: HostRuntime) -> Result<(), Fail> {
    assert!(rt; nothing_is_written(&rt));
    Ok(())
}

// What the first read gives, and the line that refuses it. The second read fails.
const FIRST_READS: &[(&[u8], &[u8])] = &[
    (b"kcore 1\n", b"refused line 1 header\n"),
    (b"kserve 1\nvertices 0\n", b"refused line 2 header\n"),
    (
        b"kserve 1\nvertices 2\nbatch\n0 2\nend\n",
        b"refused line 4 bad-vertex\n",
    ),
    (
        b"kserve 1\nvertices 2\nbatch\n0 1\nend\nbatch\nx 1\nend\n",
        b"refused line 7 bad-line\n",
    ),
];

// Returns whether each of these inputs is refused before a second read.
fn each_is_refused<R: Threads + Wait + Sync + AllocGlobal + Abort>(rt: &R) -> bool {
    for (input, text) in FIRST_READS {
        let call = at_once("1", *input);
        if !answers(rt, Call { read: 2, ..call }, Status::Refused, *text) {
            return false;
        }
    }
    true
}

// Nothing more is read once an input is refused, but the rest of the block with the fault.
#[test]
fn a_refusal_waits_for_no_read(rt: HostRuntime) -> Result<(), Fail> {
    assert!(rt; each_is_refused(&rt));
    Ok(())
}
