// Sources and sinks, in memory and of std, and lines that are sent. Expected values were worked out by hand.
ghost use Rattle.std.specs.Prelude.{◌≤◌, IfOk};

use crate::tests::support::{Bench, check, put, put_end, put_number, reader_of, sink_of};
use crate::tests::text::put_answer;
use kc_text::{Failed, LineBuf, MemSink, NullSink, Sink, Source, StdSink, StdSource, put_all};
use std::io;
use std::io::{Read, Write};

// The capacity, the most of a call and the failing calls; the answers to five writes of `abc`, and what was taken.
const SINKS: &[((u32, u32), &[u32], &str)] = &[
    ((99, 99), &[], "33333 abcabcabcabcabc"),
    ((99, 2), &[5], "2222F abababab"),
    ((20, 1), &[2], "1F111 aaaa"),
    ((5, 2), &[], "221FF ababa"),
    ((2, 1), &[1, 3], "F1F1F aa"),
    ((0, 1), &[], "FFFFF "),
];

// Returns the answers of a sink to five writes, and what it took.
fn told_of_writes(rt: &impl Bench, capacity: u32, piece: u32, failing: &[u32]) -> Vec<u8> {
    assert!(rt; piece > 0);
    let mut sink = MemSink::new(rt.alloc(), capacity, piece, failing).expect(rt, "memory");
    let mut out = Vec::new(rt.alloc());
    for _ in 0..5 {
        match sink.write(b"abc") {
            Ok(count) => put_number(rt, &mut out, b"", count as u32),
            Err(Failed) => put(rt, &mut out, b"F"),
        }
    }
    put(rt, &mut out, b" ");
    put(rt, &mut out, sink.bytes());
    out
}

#[test]
fn sinks_in_memory(rt: HostRuntime) {
    for ((capacity, piece), failing, want) in SINKS {
        let got = told_of_writes(&rt, *capacity, *piece, failing);
        check(&rt, "five writes", &got, want);
    }
}

// The outcome of a call of a device.
#[derive(Clone, Copy)]
enum Call {
    Interrupted,
    Failed,
    // It gives or takes at most this many bytes.
    Most(usize),
}

// A device that gives `a`, and keeps what it takes.
#[derive(Drop)]
struct Device {
    // The outcome of each call; the later ones give or take all.
    calls: &'static [Call],
    // The number of calls so far.
    count: usize,
    // The bytes that it took.
    taken: Vec<u8>,
}

impl Device {
    fn new(rt: &impl Bench, calls: &'static [Call]) -> Self {
        Device {
            calls,
            count: 0,
            taken: Vec::new(rt.alloc()),
        }
    }

    // Returns how many of `len` bytes the next call gives or takes.
    fn next(&mut self, len: usize) -> io::Result<usize>
        ensures { IfOk result (λ k. k ≤ len) }
    {
        let call = self.calls.get(self.count).copied();
        self.count = self.count.saturating_add(1);
        match call {
            Some(Call::Interrupted) => Err(io::Error::from(io::ErrorKind::Interrupted)),
            Some(Call::Failed) => Err(io::Error::from(io::ErrorKind::TimedOut)),
            Some(Call::Most(most)) => Ok(len.min(most)),
            None => Ok(len),
        }
    }
}

impl Read for Device {
    fn read(&mut self, buf: &mut [u8]) -> io::Result<usize> {
        let count = self.next(buf.len())?;
        buf[..count].fill(b'a');
        Ok(count)
    }
}

impl Write for Device {
    fn write(&mut self, buf: &[u8]) -> io::Result<usize> {
        let count = self.next(buf.len())?;
        self.taken.extend_from_slice(&buf[..count])?;
        Ok(count)
    }

    fn flush(&mut self) -> io::Result<()> {
        self.next(0)?;
        Ok(())
    }
}

// Returns the answers of a reader to three calls.
fn three_lines<S: Source>(rt: &impl Bench, source: &mut S) -> Vec<u8> {
    let mut reader = reader_of(rt, (8, 20));
    let mut out = Vec::new(rt.alloc());
    for _ in 0..3 {
        let given = reader.next_line(rt.alloc(), source);
        put_answer(rt, &mut out, &mut reader, given);
    }
    drop(reader);
    out
}

#[test]
fn reads_no_more_at_the_end(rt: HostRuntime) {
    // The device reports an end, and gives more if it is read once more.
    let resumed = Device::new(&rt, &[Call::Most(1), Call::Most(0), Call::Most(1)]);
    let mut source = StdSource::new(resumed);
    let got = three_lines(&rt, &mut source);
    check(&rt, "a, an end and more", &got, "1:a\n2.\n2.\n");
    let mut buf = [0u8; 1];
    assert!(rt; source.read(&mut buf) == Ok(1) && buf[0] == b'a');
}

#[test]
fn interrupted_calls_are_made_again(rt: HostRuntime) {
    let mut buf = [0u8; 3];
    assert!(rt; StdSource::new(Device::new(&rt, &[Call::Interrupted; 5])).read(&mut buf) == Ok(3));
    assert!(rt; StdSink::new(Device::new(&rt, &[Call::Interrupted; 5])).write(b"ab") == Ok(2));
}

#[test]
fn ends_of_std(rt: HostRuntime) {
    let mut source = StdSource::new(b"abc".as_slice());
    let mut buf = [0u8; 2];
    for (count, want) in [(2, b"ab"), (1, b"cb"), (0, b"cb")] {
        assert!(rt; source.read(&mut buf) == Ok(count) && buf == *want);
    }
    assert!(rt; StdSource::new(Device::new(&rt, &[Call::Failed; 2])).read(&mut buf) == Err(Failed));
}

#[test]
fn writes_of_std(rt: HostRuntime) {
    let mut written = Vec::new(rt.alloc());
    let mut sink = StdSink::new(&mut written);
    assert!(rt; put_all(&mut sink, b"abc").is_ok() && sink.flush().is_ok());
    check(&rt, "writes of std", &written, "abc");
    assert!(rt; NullSink::new().write(b"abc") == Ok(3));
}

#[test]
fn refused_writes_of_std(rt: HostRuntime) {
    let mut buf = [0u8; 2];
    let mut full = StdSink::new(buf.as_mut_slice());
    assert!(rt; full.write(b"xyz") == Ok(2) && full.write(b"z") == Err(Failed));
    let mut gone = StdSink::new(Device::new(&rt, &[Call::Failed; 2]));
    assert!(rt; gone.write(b"z") == Err(Failed) && gone.flush() == Err(Failed));
}

// Returns bytes of which no two pieces that lie a multiple of 4,096 bytes apart are the same.
fn many_bytes(rt: &impl Bench, count: u32) -> Vec<u8> {
    let mut bytes = Vec::new(rt.alloc());
    for i in 0..count {
        bytes.push((i % 251) as u8).expect(rt, "memory");
    }
    bytes
}

// Returns what a source of std gives in ten reads of 100,000 bytes.
fn read_large(rt: &impl Bench, bytes: &[u8]) -> Vec<u8> {
    let mut source = StdSource::new(bytes);
    let mut buf = vec![in rt.alloc(); 0u8; 100_000].expect(rt, "memory");
    let mut got = Vec::new(rt.alloc());
    for _ in 0..10 {
        assert!(rt; buf.len() == 100_000);
        let count = source.read(&mut buf).expect(rt, "a read");
        put(rt, &mut got, &buf[..count]);
    }
    drop(buf);
    got
}

// Returns whether a device that takes 5,000 bytes a call takes all of a large write.
fn is_taken_whole(rt: &impl Bench, bytes: &[u8]) -> bool {
    let mut narrow = Device::new(rt, &[Call::Most(5000); 30]);
    put_all(&mut StdSink::new(&mut narrow), bytes).expect(rt, "writes");
    narrow.taken.as_slice() == bytes
}

// No byte of a large read or write is lost, whatever part of it std takes or gives.
#[test]
fn large_reads_and_writes(rt: HostRuntime) {
    let bytes = many_bytes(&rt, 200 * 1024);
    assert!(rt; read_large(&rt, &bytes) == bytes);
    drop(bytes);
    assert!(rt; is_taken_whole(&rt, &many_bytes(&rt, 100 * 1024)));
}

// Pieces and failing calls; then the answers to two sends of `v 4294967295` and `w`, and what was taken.
const SENDS: &[(u32, &[u32], &str)] = &[
    (1000, &[], "oo v 4294967295\nw\n"),
    (1, &[], "oo v 4294967295\nw\n"),
    (5, &[3], "fo v 42949672w\n"),
    (1000, &[2], "of v 4294967295\n"),
];

fn put_sends(rt: &impl Bench, out: &mut Vec<u8>, line: &mut LineBuf, sink: &mut MemSink) {
    line.put_named(b"v ", 4294967295).expect(rt, "memory");
    put_end(rt, out, line.send(rt.alloc(), sink));
    line.text(rt.alloc(), b"w").expect(rt, "memory");
    put_end(rt, out, line.send(rt.alloc(), sink));
    line.text(rt.alloc(), b"x").expect(rt, "memory");
}

// Returns the answers of a sink to two sends, and what it took.
fn told_of_sends(rt: &impl Bench, piece: u32, failing: &[u32]) -> Vec<u8> {
    let mut sink = sink_of(rt, piece, failing);
    let mut line = LineBuf::new(rt.alloc());
    let mut out = Vec::new(rt.alloc());
    put_sends(rt, &mut out, &mut line, &mut sink);
    drop(line);
    put(rt, &mut out, b" ");
    put(rt, &mut out, sink.bytes());
    out
}

#[test]
fn sends_with_and_without_faults(rt: HostRuntime) {
    for (piece, failing, want) in SENDS {
        check(&rt, "two sends", &told_of_sends(&rt, *piece, failing), want);
    }
}
