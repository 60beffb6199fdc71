// Headers and batches of inputs. Their answers were worked out by hand.

use crate::tests::support::{
    Bench, Input, LIMITS, check, input_of, joined, put, put_number, put_refused, repeated, sides,
};
use kc_batch::{Ask, Asks, BatchFault, Header, HeaderFault, Items, Next, Vertices, next_batch};
use kc_graph::Item;
use kc_levels::Profile;

// Limits of a line, of the input and of the items of a batch.
type ThreeLimits = (u32, u32, u32);

// The limits of the program.
const USUAL: ThreeLimits = (LIMITS.0, LIMITS.1, 1_048_576);

// Puts an ask: its times and vertices.
fn put_ask(rt: &impl Bench, out: &mut Vec<u8>, ask: &Ask) {
    put_number(rt, out, b" ask ", ask.times);
    for v in ask.vertices.as_slice() {
        put_number(rt, out, b",", *v);
    }
}

// Puts a header: its number of vertices, and each ask.
fn put_header(rt: &impl Bench, out: &mut Vec<u8>, header: &Header) {
    put_number(rt, out, b"", header.n);
    for ask in header.asks.as_slice() {
        put_ask(rt, out, ask);
    }
}

// A number of vertices and a profile.
type Shape = (u32, Profile);

// Puts a line with the answer of a read: the header, or `!` and the line at which it is refused. A read fault is `?`.
// Returns the shape of the header.
fn put_read(rt: &impl Bench, out: &mut Vec<u8>, got: Result<Header, HeaderFault>) -> Option<Shape> {
    let shape = got.as_ref().ok().map(|header| (header.n, header.profile));
    match got {
        Ok(header) => put_header(rt, out, &header),
        Err(HeaderFault::Refused { line }) => put_number(rt, out, b"!", line),
        Err(HeaderFault::ReadFault) => put(rt, out, b"?"),
        Err(HeaderFault::Memory(_)) => put(rt, out, b"memory"),
    }
    put(rt, out, b"\n");
    shape
}

fn put_pair(rt: &impl Bench, out: &mut Vec<u8>, sign: &[u8], u: u32, v: u32) {
    put_number(rt, out, sign, u);
    put_number(rt, out, b",", v);
}

fn put_items(rt: &impl Bench, out: &mut Vec<u8>, items: &[Item]) {
    for item in items {
        match *item {
            Item::Insert { u, v } => put_pair(rt, out, b" +", u, v),
            Item::Delete { u, v } => put_pair(rt, out, b" -", u, v),
            Item::Isolate { v } => put_number(rt, out, b" x", v),
        }
    }
}

// Puts a line with the next batch, and returns whether more may come. A batch is the line of its `end` and its items. A
// refused batch is its line and reason, the end is `.`, and a read fault is `?`.
fn put_next(rt: &impl Bench, out: &mut Vec<u8>, next: Result<Next, BatchFault>) -> bool {
    let goes_on = matches!(next, Ok(Next::Items(_) | Next::Refused { .. }));
    match next {
        Ok(Next::Items(batch)) => {
            put_number(rt, out, b"", batch.line);
            put_items(rt, out, batch.items.as_slice());
        }
        Ok(Next::Refused { line, reason }) => put_refused(rt, out, line, reason),
        Ok(Next::End) => put(rt, out, b"."),
        Err(BatchFault::ReadFault) => put(rt, out, b"?"),
        Err(BatchFault::Memory(_)) => put(rt, out, b"memory"),
    }
    put(rt, out, b"\n");
    goes_on
}

// Puts up to four batches, of which each may have `most` items.
fn put_batches(rt: &impl Bench, out: &mut Vec<u8>, input: &mut Input, shape: Shape, most: u32) {
    let (n, profile) = shape;
    for _ in 0..4 {
        let (reader, source) = (&mut input.reader, &mut input.source);
        let next = next_batch(rt.alloc(), reader, source, n, profile, most);
        if !put_next(rt, out, next) {
            break;
        }
    }
}

// Returns the answer to an input: the header, and up to four batches.
fn told(rt: &impl Bench, text: &[u8], piece: u32, failing: &[u32], limits: ThreeLimits) -> Vec<u8> {
    let mut input = input_of(rt, text, piece, failing, (limits.0, limits.1));
    let mut out = Vec::new(rt.alloc());
    let read = Header::read(rt.alloc(), &mut input.reader, &mut input.source);
    if let Some(shape) = put_read(rt, &mut out, read) {
        put_batches(rt, &mut out, &mut input, shape, limits.2);
    }
    drop(input);
    out
}

fn told_of(rt: &impl Bench, parts: &[&str], piece: u32) -> Vec<u8> {
    told(rt, &joined(rt, parts), piece, &[], USUAL)
}

// Checks inputs that begin with `before`. A row is an answer, and how the inputs go on that get it, which `|` parts.
fn check_rows(rt: &impl Bench, before: &'static str, rows: &[&'static str], piece: u32) {
    for row in rows {
        let (want, texts) = sides(rt, row);
        for text in texts.split('|') {
            check(rt, text, &told_of(rt, &[before, text], piece), want);
        }
    }
}

const WHOLE: &[&str] = &[
    "3\n10 +0,1 +1,0 +1,2 +2,1\n.\n => kcore 1\r\nvertices 3\r\nbatch\r\n# Undirected graph\r\n\
        # FromNodeId\tToNodeId\r\n0\t1\r\n1\t0\r\n1\t2\r\n2\t1\r\nend\r\n",
    "5\n7 +0,1 -0,1 +2,2\n9\n.\n => kcore 1\nvertices 5\nbatch\n+ 0 1\n- 0 1\n+ 2 2\nend\nbatch\nend\n",
    "3\n5 +0,1\n9 bad-vertex\n13 +1,2\n.\n => \
        kcore 1\nvertices 3\nbatch\n0 1\nend\nbatch\n1 2\n0 2\n1 3\nend\nbatch\n1 2\nend\n",
    "2\n5 truncated\n.\n => kcore 1\nvertices 2\nbatch\n0 1\n",
    "!1\n => ",
    "!2\n => kcore 1\nvertices 0\n",
    "1\n.\n => kcore 1\nvertices 1",
    "1 ask 2,0\n.\n => kcore 1\nvertices 1\nask 2 0\n",
];

#[test]
fn whole_inputs(rt: HostRuntime) {
    for piece in [1, 7, 1000] {
        check_rows(&rt, "", WHOLE, piece);
    }
}

const HEADERS: &[&str] = &[
    "2 ask 65536,1 ask 1,0,1,0\n.\n => #\n kcore\t1\n\nvertices 0000000002\n ask  65536 1\nask 1 0 1 0\n",
    "!2\n => kcore 1\n|kcore 1\nvertices 16777217\n",
    "!1\n => kcore 01\nvertices 1\n|kcore 02\nvertices 1\n|kcore 3\nvertices 1\n",
    "16777216\n.\n => kcore 1\nvertices 16777216\n",
    "!3\n => kcore 1\nvertices 5\nask 65537 0\n|kcore 1\nvertices 5\nask 0 0\n|kcore 1\nvertices 5\nask 1 5\n|\
        kcore 1\nvertices 5\nask 1\n",
    "!4\n => kcore 1\nvertices 5\nask 1 0\nask 1 0 x\n",
    "5\n4\n5 bad-line\n.\n => kcore 1\nvertices 5\nbatch\nend\nask 1 0\nend\n",
];

const HEAD: &str = "kcore 1\nvertices 5\n";

fn told_of_asks(rt: &impl Bench, count: u32) -> Vec<u8> {
    told(
        rt,
        &repeated(rt, HEAD, "ask 1 0\n", count, ""),
        1000,
        &[],
        USUAL,
    )
}

#[test]
fn headers_and_asks(rt: HostRuntime) {
    check_rows(&rt, "", HEADERS, 5);
    let want = repeated(&rt, "5", " ask 1,0", 64, "\n.\n");
    assert!(rt; told_of_asks(&rt, 64) == want);
    drop(want);
    check(&rt, "65 asks", &told_of_asks(&rt, 65), "!67\n");
}

// Batches after `HEAD`.
const BATCHES: &[&str] = &[
    "5\n4 bad-line\n.\n => batch\nbatch\nend\n|batch\n+ 0\nend\n|batch\n+ 0 1 2\nend\n|batch\n+ 0 4294967296\nend\n|\
        batch\n0 00000000001\nend\n",
    "5\n3 bad-line\n4 bad-line\n.\n => end\nend\n",
    "5\n3 bad-line\n7\n.\n => 0 1\nbatch\nend\nbatch\nend\n",
    "5\n4 bad-vertex\n.\n => batch\n+ 0 4294967295\n1\nend\n",
    "5\n5 bad-vertex\n.\n => batch\n0 1\n- 5 0",
];

// The bytes that a source gives a call: so few that each line comes in pieces, or all at once.
const PIECES: &[u32] = &[3, 1000];

#[test]
fn faults_of_batches(rt: HostRuntime) {
    for piece in PIECES {
        check_rows(&rt, HEAD, BATCHES, *piece);
    }
}

// An input that ends before one of its lines, and the answer to it.
const CUT: &[&str] = &[
    "kcore 1 => !1\n",
    "vertices 5 => !2\n",
    "batch\n0 1 => 5\n.\n",
    "0 1 => 5\n4 truncated\n.\n",
    "0 2 => 5\n5 truncated\n.\n",
    "end\nbatch => 5\n6 truncated\n.\n",
    "batch\n+ 0 3 => 5\n6 +0,1 +0,2\n.\n",
    "+ 0 3 => 5\n6 +0,1 +0,2\n8 truncated\n.\n",
    "end\n# no more => 5\n6 +0,1 +0,2\n9 truncated\n.\n",
    "# no more => 5\n6 +0,1 +0,2\n9 +0,3\n.\n",
];

#[test]
fn cut_inputs(rt: HostRuntime) {
    let text = "kcore 1\nvertices 5\nbatch\n0 1\n0 2\nend\nbatch\n+ 0 3\nend\n# no more\n";
    for row in CUT {
        let (line, want) = sides(&rt, row);
        let (before, _) = text.split_once(line).expect(&rt, "the line");
        for piece in PIECES {
            check(&rt, line, &told_of(&rt, &[before], *piece), want);
        }
    }
}

#[test]
fn batches_without_a_header(rt: HostRuntime) {
    let mut input = input_of(&rt, b"batch\n0 1\n0 2\n1 2\nend\n", 5, &[], LIMITS);
    let mut out = Vec::new(rt.alloc());
    put_batches(&rt, &mut out, &mut input, (3, Profile::One), 2);
    drop(input);
    check(&rt, "a batch", &out, "4 too-many\n.\n");
}

const ITEMS: &[Item] = &[Item::Delete { u: 1, v: 0 }; 3];

const SEVENS: &[u32] = &[7; 2];

// Returns whether a list of items that was made from a vec gives it back.
fn are_given_back(rt: &impl Bench, items: &[Item]) -> bool {
    let list = Items::from_vec(Vec::from_slice(rt.alloc(), items).expect(rt, "memory"));
    list.into_vec().as_slice() == items
}

// Returns a list of one ask, which asks three times for these vertices.
fn one_ask(rt: &impl Bench, vertices: &[u32]) -> Asks {
    let vertices = Vec::from_slice(rt.alloc(), vertices).expect(rt, "memory");
    let vertices = Vertices::from_vec(vertices);
    let mut asks = Vec::new(rt.alloc());
    asks.push(Ask { times: 3, vertices }).expect(rt, "memory");
    Asks::from_vec(asks)
}

// Returns whether these are one ask, three times for these vertices.
fn are_one_ask(asks: &[Ask], vertices: &[u32]) -> bool {
    asks.len() == 1 && asks[0].times == 3 && asks[0].vertices.as_slice() == vertices
}

#[test]
fn lists_from_a_vec(rt: HostRuntime) {
    assert!(rt; are_given_back(&rt, ITEMS));
    assert!(rt; are_one_ask(one_ask(&rt, SEVENS).into_vec().as_slice(), SEVENS));
}

// The limits of a line, of the input and of the items of a batch, an input, and the answer to it.
const LIMITED: &[(ThreeLimits, &str)] = &[
    (
        (99, 26, 9),
        "kcore 1\nvertices 2\nbatch\n0 1\nend\n => 2\n4 input-limit\n4 input-limit\n4 input-limit\n4 input-limit\n",
    ),
    (
        (99, 1000, 2),
        "kcore 1\nvertices 3\nbatch\n0 1\n0 2\nend\nbatch\n0 1\n0 2\n1 2\nend\n => 3\n6 +0,1 +0,2\n10 too-many\n.\n",
    ),
    (
        (99, 28, 9),
        "kcore 1\nvertices 2\nbatch\n0 1\nend\n => 2\n4 input-limit\n4 input-limit\n4 input-limit\n4 input-limit\n",
    ),
    (
        (99, 29, 9),
        "kcore 1\nvertices 2\nbatch\n0 1\nend\n => 2\n5 input-limit\n5 input-limit\n5 input-limit\n5 input-limit\n",
    ),
    (
        (10, 1000, 9),
        "kcore 1\nvertices 2\nbatch\n0 00000001\n0 000000001\nend\n => 2\n5 line-long\n.\n",
    ),
    (
        (99, 24, 9),
        "kcore 1\nvertices 2\nbatch\n0 1\nend\n => 2\n3 input-limit\n3 input-limit\n3 input-limit\n3 input-limit\n",
    ),
    (
        (99, 31, 9),
        "kcore 1\nvertices 2\nbatch\n0 1 2\n0 1\nend\n => 2\n4 bad-line\n5 input-limit\n5 input-limit\n5 input-limit\n",
    ),
    (
        (10, 1000, 9),
        "kcore 1\nvertices 2\nbatch\n0 1\n# a comment\nend\n => 2\n5 line-long\n.\n",
    ),
    (
        (10, 1000, 9),
        "kcore 1\nvertices 2\nask 1 0 0 0\nend\n => 2\n3 line-long\n.\n",
    ),
    ((9, 1000, 9), "kcore 1\nvertices 2\nbatch\nend\n => !2\n"),
    ((99, 7, 9), "kcore 1\nvertices 2\n => !1\n"),
];

// Returns the answer to a comment of a `#` and this many zeros, at the program's limits.
fn told_of_comment(rt: &impl Bench, zeros: u32) -> Vec<u8> {
    let text = repeated(rt, "kcore 1\nvertices 5\nbatch\n#", "0", zeros, "\nend\n");
    told(rt, &text, 1000, &[], USUAL)
}

#[test]
fn limits_of_lines_and_items(rt: HostRuntime) {
    for (limits, row) in LIMITED {
        let (text, want) = sides(&rt, row);
        for piece in PIECES {
            let got = told(&rt, text.as_bytes(), *piece, &[], *limits);
            check(&rt, text, &got, want);
        }
    }
    let got = told_of_comment(&rt, 65_535);
    check(&rt, "65,536 bytes", &got, "5\n5\n.\n");
    let got = told_of_comment(&rt, 65_536);
    check(&rt, "65,537 bytes", &got, "5\n4 line-long\n.\n");
}

// The call that fails, of a source that gives 7 bytes a call.
const FAILING: &[(&[u32], &str)] = &[
    (&[1], "?\n"),
    (&[4], "?\n"),
    (&[5], "3\n?\n"),
    (&[6], "3\n5 +0,1\n?\n"),
    (&[7], "3\n5 +0,1\n.\n"),
];

const SHORT: &str = "kcore 1\nvertices 3\nbatch\n0 1\nend\n";

#[test]
fn read_faults(rt: HostRuntime) {
    for (failing, want) in FAILING {
        let got = told(&rt, SHORT.as_bytes(), 7, failing, USUAL);
        check(&rt, "a failing source", &got, want);
    }
}
