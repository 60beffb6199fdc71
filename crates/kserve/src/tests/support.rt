// A call of the program in memory, and inputs.
use crate::serve::serve;
use kc_rounds::{Gate, OpenGate};
use kc_shell::Status;
use kc_text::{MemSink, MemSource, Sink, Words};
use std::process::Abort;
use std::sync::Wait;
use std::thread::Threads;

// What one read gives, or one write takes, if nothing is cut into pieces.
pub const WHOLE: u32 = 65_536;

// A number of workers, an input, and how many bytes are read and taken at a time. Also the number of the read and of
// the write that fails, from 1, or 0 if none does.
#[derive(Clone, Copy)]
pub struct Call<'a> {
    pub workers: &'static str,
    pub input: &'a [u8],
    pub piece: u32,
    pub read: u32,
    pub write: u32,
}

// Returns a call of which nothing fails.
pub fn at_once<'a>(workers: &'static str, input: &'a [u8]) -> Call<'a> {
    Call {
        workers,
        input,
        piece: WHOLE,
        read: 0,
        write: 0,
    }
}

// Returns the words of a command line.
fn words_of<R: AllocGlobal + Abort>(rt: &R, word: &str) -> Words {
    let mut words = Words::new(rt.alloc());
    words
        .push(rt.alloc(), word.as_bytes())
        .expect(rt, "memory for a word");
    words
}

// Returns the source of a call.
fn source_of<R: AllocGlobal + Abort>(rt: &R, call: Call<'_>) -> MemSource {
    let piece = call.piece;
    assert!(rt; 0 < piece);
    MemSource::new(rt.alloc(), call.input, piece, &[call.read]).expect(rt, "memory for the input")
}

// Returns the sink of a call, which has room for 16 MiB.
fn sink_of<R: AllocGlobal + Abort>(rt: &R, call: Call<'_>) -> MemSink {
    let piece = call.piece;
    assert!(rt; 0 < piece);
    MemSink::new(rt.alloc(), 16_777_216, piece, &[call.write]).expect(rt, "memory for the text")
}

// Returns how a call ends whose text goes to a sink.
pub fn serve_into<R: Threads + Wait + Sync + AllocGlobal + Abort, K: Sink + Send, G: Gate + Sync>(
    rt: &R,
    gate: &G,
    call: Call<'_>,
    sink: &mut K,
) -> Status {
    let words = words_of(rt, call.workers);
    let mut source = source_of(rt, call);
    serve(rt, rt.alloc(), &words, &mut source, sink, gate)
}

// Returns how a call with an open gate ends, and the sink that took its text.
pub fn answer<R: Threads + Wait + Sync + AllocGlobal + Abort>(
    rt: &R,
    call: Call<'_>,
) -> (Status, MemSink) {
    let mut sink = sink_of(rt, call);
    let status = serve_into(rt, &OpenGate::new(), call, &mut sink);
    (status, sink)
}

// Returns whether a call ends so, and has written this.
pub fn answers<R: Threads + Wait + Sync + AllocGlobal + Abort>(
    rt: &R,
    call: Call<'_>,
    status: Status,
    text: &[u8],
) -> bool {
    let (got, sink) = answer(rt, call);
    got == status && sink.bytes() == text
}

// Puts bytes at the end.
pub fn put<R: Abort>(rt: &R, text: &mut Vec<u8>, bytes: &[u8]) {
    text.extend_from_slice(bytes)
        .expect(rt, "memory for a text");
}

// Puts a script of this number of equal items at the end.
fn put_equal<R: Abort>(rt: &R, input: &mut Vec<u8>, items: u32) {
    put(rt, input, b"batch\n");
    for _item in 0..items {
        put(rt, input, b"+ 0 1\n");
    }
    put(rt, input, b"end\n");
}

// Returns an input with this number of scripts, each of this number of equal items.
pub fn equal_scripts<R: AllocGlobal + Abort>(rt: &R, scripts: u32, items: u32) -> Vec<u8> {
    let mut input = Vec::new(rt.alloc());
    put(rt, &mut input, b"kserve 1\nvertices 2\n");
    for _script in 0..scripts {
        put_equal(rt, &mut input, items);
    }
    input
}
