// A call of the program in memory.
use crate::top::run_command;
use kc_rounds::{Gate, OpenGate};
use kc_shell::Status;
use kc_text::{MemSink, MemSource, Words};
use std::process::Abort;
use std::thread::Threads;

// The bytes of one read or one write for which a whole text is one piece.
pub const WHOLE: u32 = 65_536;

// A call of a command: a command line and an input, the most bytes of one read and of one write, and the failing calls.
// The numbers are those of the reads and of the writes that fail.
#[derive(Clone, Copy)]
pub struct Call<'a> {
    pub line: &'a str,
    pub input: &'a [u8],
    pub piece: u32,
    pub reads: &'a [u32],
    pub writes: &'a [u32],
}

// Returns a call without failing reads or writes.
pub fn in_pieces<'a>(line: &'a str, input: &'a [u8], piece: u32) -> Call<'a> {
    Call {
        line,
        input,
        piece,
        reads: &[],
        writes: &[],
    }
}

// Returns the words of a command line.
pub fn words_of<R: AllocGlobal + Abort>(rt: &R, line: &str) -> Words {
    let mut words = Words::new(rt.alloc());
    for word in line.split_whitespace() {
        words
            .push(rt.alloc(), word.as_bytes())
            .expect(rt, "memory for a word");
    }
    words
}

// Returns the status of a call, and the sink with its text.
pub fn answer_beside<R: Threads + Sync + AllocGlobal + Abort, G: Gate + Sync>(
    rt: &R,
    gate: &G,
    call: Call<'_>,
) -> (Status, MemSink) {
    let piece = call.piece;
    assert!(rt; 0 < piece);
    let words = words_of(rt, call.line);
    let mut source = MemSource::new(rt.alloc(), call.input, piece, call.reads).expect(
        rt,
        "memory for the input",
    );
    let mut sink = MemSink::new(rt.alloc(), 16_777_216, piece, call.writes).expect(
        rt,
        "memory for the text",
    );
    let status = run_command(rt, rt.alloc(), &words, &mut source, &mut sink, gate);
    (status, sink)
}

// Returns the status of a call that no gate watches, and the sink with its text.
pub fn answer<R: Threads + Sync + AllocGlobal + Abort>(
    rt: &R,
    call: Call<'_>,
) -> (Status, MemSink) {
    answer_beside(rt, &OpenGate::new(), call)
}

// Returns whether a call ends with this status, and has written this text.
pub fn answers<R: Threads + Sync + AllocGlobal + Abort>(
    rt: &R,
    call: Call<'_>,
    status: Status,
    text: &[u8],
) -> bool {
    let (got, sink) = answer(rt, call);
    got == status && sink.bytes() == text
}
