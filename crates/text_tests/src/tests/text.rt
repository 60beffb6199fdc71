// Lines, numbers and words of texts. Expected values were worked out by hand.
ghost use Rattle.std.specs.Prelude.{◌≡◌, None};

use crate::tests::support::{
    Bench, Input, LIMITS, check, input_of, joined, put, put_number, reader_of, repeated,
};
use kc_text::{
    Body, Line, LineFault, LineReader, MemSource, Reason, Sign, Source, StdSource, Words,
    give_back, is_named, is_skipped, next_kept, next_number, next_word, read_number, text_of,
};

// Sources and sinks.
mod streams;

fn mark_of(body: &Body) -> &'static [u8] {
    match body {
        Body::Text(_) => b":",
        Body::TooLong => b"*",
        Body::Limit => b"!",
        Body::End => b".",
    }
}

type Given = Result<Line, LineFault>;

// Puts an answer of a reader, and returns whether it was the last. The memory of every second line is given back. A
// line that is too long is `*`, the limit is `!`, the end is `.`, and a read fault is `?`.
fn put_answer(rt: &impl Bench, out: &mut Vec<u8>, reader: &mut LineReader, given: Given) -> bool {
    let Ok(line) = given else {
        put(rt, out, b"?\n");
        return false;
    };
    put_number(rt, out, b"", line.number);
    put(rt, out, mark_of(&line.body));
    put(rt, out, text_of(&line));
    put(rt, out, b"\n");
    let last = matches!(line.body, Body::Limit | Body::End);
    if line.number % 2 == 1 {
        give_back(reader, line);
    }
    last
}

fn put_next(rt: &impl Bench, out: &mut Vec<u8>, input: &mut Input) -> bool {
    let given = input.reader.next_line(rt.alloc(), &mut input.source);
    put_answer(rt, out, &mut input.reader, given)
}

// Puts the next line if it lies whole in the reader's memory. Returns whether there was one.
fn put_whole(rt: &impl Bench, out: &mut Vec<u8>, reader: &mut LineReader) -> bool {
    let Some((text, len)) = reader.whole_line() else {
        return false;
    };
    let text = Vec::from_slice(rt.alloc(), text).expect(rt, "memory");
    put_number(rt, out, b"", reader.pass_line(len));
    put(rt, out, b":");
    put(rt, out, &text);
    put(rt, out, b"\n");
    true
}

// Puts all answers of a reader, the last one twice. If `whole`, lines that lie whole in its memory are passed there.
fn put_all(rt: &impl Bench, out: &mut Vec<u8>, input: &mut Input, whole: bool) {
    for _ in 0..20 {
        if whole && put_whole(rt, out, &mut input.reader) {
            continue;
        }
        if put_next(rt, out, input) {
            put_next(rt, out, input);
            break;
        }
    }
}

// Returns all answers of a reader with a line limit of 8 and an input limit of 20.
fn told(rt: &impl Bench, text: &str, piece: u32, failing: &[u32], whole: bool) -> Vec<u8> {
    let mut input = input_of(rt, text.as_bytes(), piece, failing, (8, 20));
    let mut out = Vec::new(rt.alloc());
    put_all(rt, &mut out, &mut input, whole);
    drop(input);
    out
}

// Checks the answers to an input, also where whole lines are passed in the reader's memory.
fn check_told(rt: &impl Bench, text: &str, piece: u32, failing: &[u32], want: &str) {
    check(rt, text, &told(rt, text, piece, failing, false), want);
    check(rt, text, &told(rt, text, piece, failing, true), want);
}

// Inputs, and the answers of a reader.
const LINES: &[(&str, &str)] = &[
    ("", "1.\n1.\n"),
    ("\r", "1:\n2.\n2.\n"),
    ("a\r\n\n#x\n", "1:a\n2:\n3:#x\n4.\n4.\n"),
    ("a\r\n\n#x", "1:a\n2:\n3:#x\n4.\n4.\n"),
    ("1234567\r\n1234567\r\r\n", "1:1234567\n2*\n3.\n3.\n"),
    ("12345678\n123456789\nx", "1:12345678\n2*\n3:x\n4.\n4.\n"),
    ("12345678\n123456789\nxy", "1:12345678\n2*\n3!\n3!\n"),
    ("123456789012345678901", "1!\n1!\n"),
];

#[test]
fn lines_in_any_pieces(rt: HostRuntime) {
    for (text, want) in LINES {
        for piece in [1, 2, 7, 1000] {
            check_told(&rt, text, piece, &[], want);
        }
    }
}

// The same in pieces of this size, of which some calls fail.
const FAULTS: &[(&str, u32, &[u32], &str)] = &[
    ("a\n\nb", 1000, &[1, 2], "?\n?\n1:a\n2:\n3:b\n4.\n4.\n"),
    ("a\r\n\n#x", 2, &[2, 4], "?\n1:a\n2:\n?\n3:#x\n4.\n4.\n"),
    ("a\n123456789\n123456789", 5, &[3], "1:a\n?\n2*\n3!\n3!\n"),
];

#[test]
fn lines_over_faults(rt: HostRuntime) {
    for (text, piece, failing, want) in FAULTS {
        check_told(&rt, text, *piece, failing, want);
    }
}

fn next_of<S: Source>(rt: &impl Bench, reader: &mut LineReader, source: &mut S) -> Line
    ensures { reader.new.held ≡ None }
{
    reader.next_line(rt.alloc(), source).expect(rt, "a line")
}

fn sign_of(sign: Option<Sign>) -> &'static [u8] {
    match sign {
        None => b"",
        Some(Sign::Plus) => b"+",
        Some(Sign::Minus) => b"-",
    }
}

fn put_numbers(rt: &impl Bench, out: &mut Vec<u8>, first: u32, second: u32, len: usize) {
    put_number(rt, out, b"", first);
    put_number(rt, out, b" ", second);
    put_number(rt, out, b" of ", len.min(100) as u32);
}

// Puts the sign, the numbers and the length of the second line if it lies whole in the reader's memory. If `named`,
// `ab` stands before the numbers and there is no sign.
fn put_second(rt: &impl Bench, out: &mut Vec<u8>, reader: &mut LineReader, named: bool) {
    if named {
        if let Some(line) = reader.numbers_after(b"ab") {
            assert!(rt; reader.pass_line(line.len) == 2);
            put_numbers(rt, out, line.first, line.second, line.len);
        }
    } else if let Some(line) = reader.number_line() {
        assert!(rt; reader.pass_line(line.len) == 2);
        put(rt, out, sign_of(line.sign));
        put_numbers(rt, out, line.first, line.second, line.len);
    }
}

// Returns the answer to this text, as the second line of an input.
fn second_line(rt: &impl Bench, limits: (u32, u32), text: &str, named: bool) -> Vec<u8> {
    let mut input = input_of(rt, &joined(rt, &["#\n", text]), 1000, &[], limits);
    drop(next_of(rt, &mut input.reader, &mut input.source));
    let mut out = Vec::new(rt.alloc());
    put_second(rt, &mut out, &mut input.reader, named);
    drop(input);
    out
}

// The limits of a line and of the input, the second line, and the answer to it.
type NumberRow = ((u32, u32), &'static str, &'static str);

const WIDE: (u32, u32) = (99, 99);

// Checks rows, and texts that get no answer, with `|` between them.
fn check_lines(rt: &impl Bench, rows: &[NumberRow], others: &'static str, named: bool) {
    for (limits, text, want) in rows {
        check(rt, text, &second_line(rt, *limits, text, named), want);
    }
    for text in others.split('|') {
        check(rt, text, &second_line(rt, WIDE, text, named), "");
    }
}

const TWO_NUMBERS: &[NumberRow] = &[
    ((3, 6), "1 2\n", "1 2 of 3"),
    ((2, 6), "1 2\n", ""),
    ((3, 5), "1 2\n", ""),
    (WIDE, "1\t2\r\n", "1 2 of 4"),
    (WIDE, "+ 10 20\n", "+10 20 of 7"),
    (WIDE, "-\t0 7\nx", "-0 7 of 5"),
    (WIDE, "4294967295 0000000001\n", "4294967295 1 of 21"),
    (WIDE, "1234567 12345678\n3", "1234567 12345678 of 16"),
];

#[test]
fn lines_of_two_numbers(rt: HostRuntime) {
    let others = "4294967296 1\n|1 00000000001\n|1 2|1\n2\n|1  2\n|1 2 \n|1 2\r\r\n|+1 2\n|x 1 2\n";
    check_lines(&rt, TWO_NUMBERS, others, false);
}

const NAMED_NUMBERS: &[NumberRow] = &[
    ((6, 9), "ab 1 2\n", "1 2 of 6"),
    ((5, 9), "ab 1 2\n", ""),
    ((6, 8), "ab 1 2\n", ""),
    (WIDE, "ab\t10\t20\r\nx", "10 20 of 9"),
    (WIDE, "ab 4294967295 01\n", "4294967295 1 of 16"),
];

#[test]
fn lines_of_a_name_and_two_numbers(rt: HostRuntime) {
    let others =
        "ab 1 4294967296\n|ab 1 2|ab  1 2\n| ab 1 2\n|ab 1\n2\n|ab1 2\n|abc 1 2\n|ac 1 2\n|ab";
    check_lines(&rt, NAMED_NUMBERS, others, true);
}

// The input, the failing reads, and the first four answers.
const KEPT: &[(&str, &[u32], &str)] = &[
    ("#\n\na\n \t\n #x\nb #\n", &[], "3:a\n6:b #\n7.\n7.\n"),
    ("#23456789\na", &[], "1*\n2:a\n3.\n3.\n"),
    ("#\n\n#\n#4567890123456789", &[], "4!\n4!\n4!\n4!\n"),
    ("#\n\na\n", &[2], "?\n3:a\n4.\n4.\n"),
];

fn told_of_kept(rt: &impl Bench, text: &str, failing: &[u32]) -> Vec<u8> {
    let mut input = input_of(rt, text.as_bytes(), 2, failing, (8, 20));
    let mut out = Vec::new(rt.alloc());
    for _ in 0..4 {
        let given = next_kept(rt.alloc(), &mut input.reader, &mut input.source);
        put_answer(rt, &mut out, &mut input.reader, given);
    }
    drop(input);
    out
}

#[test]
fn lines_that_arent_skipped(rt: HostRuntime) {
    for (text, failing, want) in KEPT {
        check(&rt, text, &told_of_kept(&rt, text, failing), want);
    }
}

// Gives a line back to the reader, and puts the next two answers.
fn put_two(rt: &impl Bench, out: &mut Vec<u8>, input: &mut Input, line: Line)
    requires { input.old.reader.held ≡ None }
{
    input.reader.put_back(line);
    put_next(rt, out, input);
    put_next(rt, out, input);
}

// Puts the answers of a new reader of two lines. The second line, the end and other lines are put back.
fn put_back(rt: &impl Bench, out: &mut Vec<u8>, input: &mut Input)
    requires { input.old.reader.held ≡ None }
{
    put_two(rt, out, input, line_of(7, Body::TooLong));
    let line = next_of(rt, &mut input.reader, &mut input.source);
    input.reader.put_back(line);
    put_next(rt, out, input);
    let line = next_of(rt, &mut input.reader, &mut input.source);
    put_two(rt, out, input, line);
    drop(next_of(rt, &mut input.reader, &mut input.source));
    put_two(rt, out, input, line_of(9, Body::Limit));
    drop(next_of(rt, &mut input.reader, &mut input.source));
    put_two(rt, out, input, line_of(9, Body::TooLong));
}

fn line_of(number: u32, body: Body) -> Line {
    Line { number, body }
}

#[test]
fn takes_lines_back(rt: HostRuntime) {
    let source = MemSource::new(rt.alloc(), b"a\nb\n", 1, &[]).expect(&rt, "memory");
    let reader = LineReader::new(rt.alloc(), 8, 20).expect(&rt, "memory");
    let mut input = Input { source, reader };
    let mut out = Vec::new(rt.alloc());
    put_back(&rt, &mut out, &mut input);
    drop(input);
    let want = "7*\n1:a\n2:b\n3.\n3.\n9!\n9!\n9*\n9!\n";
    check(&rt, "lines put back", &out, want);
}

// Returns whether a line has this length, or is too long if there is none.
fn has_length(line: &Line, len: Option<usize>) -> bool {
    match &line.body {
        Body::Text(text) => len == Some(text.as_slice().len()),
        Body::TooLong => len.is_none(),
        Body::Limit | Body::End => false,
    }
}

// What follows 65,535 times `a` in a line, and the length of the text, or none if the line is too long. The limit
// counts a carriage return.
const LONG: &[(&str, Option<usize>)] = &[
    ("a\n", Some(65_536)),
    ("aa\n", None),
    ("\r\n", Some(65_535)),
    ("a\r\n", None),
];

fn long_lines(rt: &impl Bench) -> Vec<u8> {
    let mut text = Vec::new(rt.alloc());
    for (end, _) in LONG {
        put(rt, &mut text, &repeated(rt, "", "a", 65_535, end));
    }
    text
}

#[test]
fn lines_at_the_programs_limit(rt: HostRuntime) {
    let text = long_lines(&rt);
    let mut source = StdSource::new(text.as_slice());
    let mut reader = reader_of(&rt, LIMITS);
    for (_, want) in LONG {
        assert!(rt; has_length(&next_of(&rt, &mut reader, &mut source), *want));
    }
    drop(reader);
}

const WORDS: &[u8] = b" +  10\t20";

// The place of the next word in it, and the number of the next word.
const PLACES: &[(usize, Option<(usize, usize)>, Option<(u32, usize)>)] = &[
    (0, Some((1, 2)), None),
    (2, Some((4, 6)), Some((10, 6))),
    (5, Some((5, 6)), Some((0, 6))),
    (6, Some((7, 9)), Some((20, 9))),
    (9, None, None),
];

// Returns whether numbers, names and lines that are skipped differ from others.
fn are_told() -> bool {
    let read = read_number(b"4294967295") == Some(4294967295);
    let same = is_named(b"ab", b"ab") && is_named(b"", b"");
    let other = is_named(b"ab", b"a") || is_named(b"a", b"ab") || is_named(b"ab", b"aB");
    let skipped = is_skipped(b"") && is_skipped(b" \t") && is_skipped(b" #");
    let kept = !is_skipped(b"a #") && !is_skipped(b"+ 1 2");
    read && read_number(b"4294967296").is_none() && same && !other && skipped && kept
}

#[test]
fn words_and_numbers(rt: HostRuntime) {
    for (from, word, number) in PLACES {
        assert!(rt; *from <= WORDS.len());
        assert!(rt; next_word(WORDS, *from) == *word && next_number(WORDS, *from) == *number);
    }
    assert!(rt; are_told());
}

const REASONS: &[(Reason, &str)] = &[
    (Reason::Header, "header"),
    (Reason::LineLong, "line-long"),
    (Reason::BadLine, "bad-line"),
    (Reason::BadVertex, "bad-vertex"),
    (Reason::TooMany, "too-many"),
    (Reason::Truncated, "truncated"),
    (Reason::InputLimit, "input-limit"),
    (Reason::EdgeLimit, "edge-limit"),
    (Reason::PhaseLimit, "phase-limit"),
];

fn two_words(rt: &impl Bench) -> Words {
    let mut words = Words::new(rt.alloc());
    words.push(rt.alloc(), b"run").expect(rt, "memory");
    words.push(rt.alloc(), b"").expect(rt, "memory");
    words
}

fn are_two(words: &Words) -> bool {
    words.len() == 2 && words.word(0) == b"run".as_slice() && words.word(1).is_empty()
}

#[test]
fn reasons_and_words(rt: HostRuntime) {
    assert!(rt; Words::new(rt.alloc()).len() == 0);
    assert!(rt; are_two(&two_words(&rt)));
    for (reason, want) in REASONS {
        check(&rt, "a reason", reason.word(), want);
    }
}
