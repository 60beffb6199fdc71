// Inputs, sinks and texts in memory. Each fits, or the test ends.

use kc_text::{LineReader, MemSink, MemSource, Reason, SendFault};
use std::process::Abort;

/// The means of a test: memory, and the right to end itself.
pub trait Bench: Abort + AllocGlobal {}

impl<R: Abort + AllocGlobal> Bench for R {}

/// Limits of a line and of the input.
pub type Limits = (u32, u32);

/// The limits of the program.
pub const LIMITS: Limits = (65_536, 1_073_741_824);

/// A source, and a reader of its lines.
#[derive(Drop)]
pub struct Input {
    pub source: MemSource,
    pub reader: LineReader,
}

/// Makes a source of a text, which gives pieces and fails at some calls, and a reader with these limits.
pub fn input_of(rt: &impl Bench, text: &[u8], piece: u32, failing: &[u32], most: Limits) -> Input {
    assert!(rt; piece > 0);
    let source = MemSource::new(rt.alloc(), text, piece, failing).expect(rt, "memory");
    let reader = reader_of(rt, most);
    Input { source, reader }
}

/// Makes a reader with these limits of a line and of the input.
pub fn reader_of(rt: &impl Bench, limits: Limits) -> LineReader {
    assert!(rt; limits.0 <= LIMITS.1 && limits.1 <= LIMITS.1);
    LineReader::new(rt.alloc(), limits.0, limits.1).expect(rt, "memory")
}

/// Returns a sink of at most 2,000 bytes that takes pieces and fails at some calls.
pub fn sink_of(rt: &impl Bench, piece: u32, failing: &[u32]) -> MemSink {
    assert!(rt; piece > 0);
    MemSink::new(rt.alloc(), 2000, piece, failing).expect(rt, "memory")
}

/// Puts bytes at the end of a text.
pub fn put(rt: &impl Bench, text: &mut Vec<u8>, part: &[u8]) {
    text.extend_from_slice(part).expect(rt, "memory");
}

/// Puts bytes and a number at the end of a text.
pub fn put_number(rt: &impl Bench, text: &mut Vec<u8>, part: &[u8], number: u32) {
    let digits = format!(in rt.alloc(); "{number}").expect(rt, "memory");
    put(rt, text, part);
    put(rt, text, digits.as_bytes());
}

/// Puts the first line that doesn't fit, with the reason.
pub fn put_refused(rt: &impl Bench, text: &mut Vec<u8>, line: u32, reason: Reason) {
    put_number(rt, text, b"", line);
    put(rt, text, b" ");
    put(rt, text, reason.word());
}

/// Puts how a write ended: `o`, `f` for a write fault, or `m` without memory.
pub fn put_end(rt: &impl Bench, text: &mut Vec<u8>, answer: Result<(), SendFault>) {
    match answer {
        Ok(()) => put(rt, text, b"o"),
        Err(SendFault::WriteFault) => put(rt, text, b"f"),
        Err(SendFault::Memory(_)) => put(rt, text, b"m"),
    }
}

/// Returns several texts as one.
pub fn joined(rt: &impl Bench, parts: &[&str]) -> Vec<u8> {
    let mut all = Vec::new(rt.alloc());
    for part in parts {
        put(rt, &mut all, part.as_bytes());
    }
    all
}

/// Returns a text, a part `count` times over, and another text.
pub fn repeated(rt: &impl Bench, before: &str, part: &str, count: u32, after: &str) -> Vec<u8> {
    let mut all = joined(rt, &[before]);
    for _ in 0..count {
        put(rt, &mut all, part.as_bytes());
    }
    put(rt, &mut all, after.as_bytes());
    all
}

/// Returns the two sides of a row, which ` => ` parts.
pub fn sides(rt: &impl Bench, row: &'static str) -> (&'static str, &'static str) {
    row.split_once(" => ").expect(rt, "two sides")
}

/// Ends the test unless it got what is wanted, and prints of what.
pub fn check(rt: &impl Bench, of: &str, got: &[u8], want: &str) {
    let got = str::from_utf8(got).unwrap_or("bytes that are no text");
    assert!(rt; got == want, "of {of:?} it got {got:?}, not {want:?}");
}
