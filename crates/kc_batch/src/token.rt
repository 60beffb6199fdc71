//! The meanings of the lines of batches.
ghost use Rattle.std.specs.Prelude.{◌≡◌, ℕ, ◌<◌, ◌≤◌, [], ◌∷◌, length, drop, Option, IfOk, IfSome};
ghost use Rattle.std.specs.Option.{option_map};
ghost use Rattle.kc_text.specs.Reading.{budget};
ghost use Rattle.kc_text.specs.Words.{words};
ghost use Rattle.kc_batch.specs.Causes.{AwaitCause};
ghost use Rattle.kc_batch.specs.Tokens.{insertion, deletion, isolation, unsigned, signed, kind_of_words, tokens_left};
ghost use Rattle.kc_batch.specs.private.Tokens.{kind_of_text, item_of, onto_token, TakesToken, IsLastKind};

use crate::await_fault::AwaitFault;
use kc_graph::Item;
use kc_text::{
    Body, LineFault, LineReader, NumberLine, Sign, Sink, Source, is_named, read_number, split_word,
};
use std::alloc::Global;

/// The meaning of a line of batches by itself, in whatever place it stands.
#[derive(Clone, Copy, Debug, PartialEq, Eq)]
pub enum Kind {
    /// `batch`
    BatchStart,
    /// `+ u v` or `u v` for an insertion, `- u v` for a deletion, `x v` for an isolation; u and v are any numbers.
    Item(Item),
    /// `end`
    BatchEnd,
    /// A line of another form.
    Other,
    /// A line that is too long.
    TooLong,
    /// The input goes on past its limit.
    Limit,
    /// The input has ended.
    InputEnd,
}

/// A line that isn't skipped: its number, counted from 1 over all lines, and its meaning.
#[derive(Clone, Copy, Debug, PartialEq, Eq)]
pub struct Token {
    /// The number of the line.
    pub number: u32,
    /// The meaning of the line.
    pub kind: Kind,
}

fn insertion(u: Option<u32>, v: Option<u32>) -> Kind
    ensures { result ≡ insertion u v }
{
    match (u, v) {
        (Some(u), Some(v)) => Kind::Item(Item::Insert { u, v }),
        _ => Kind::Other,
    }
}

fn deletion(u: Option<u32>, v: Option<u32>) -> Kind
    ensures { result ≡ deletion u v }
{
    match (u, v) {
        (Some(u), Some(v)) => Kind::Item(Item::Delete { u, v }),
        _ => Kind::Other,
    }
}

fn isolation(v: Option<u32>) -> Kind
    ensures { result ≡ isolation v }
{
    match v {
        Some(v) => Kind::Item(Item::Isolate { v }),
        None => Kind::Other,
    }
}

// Returns the meaning of a line of two words, which have the numbers u and v. A word that is no number has None.
fn unsigned(first: &[u8], u: Option<u32>, v: Option<u32>) -> Kind
    ensures { result ≡ unsigned first.now u v }
{
    match u {
        Some(u) => insertion(Some(u), v),
        None if is_named(first, b"x") => isolation(v),
        None => Kind::Other,
    }
}

// Returns the meaning of a line of one word.
#[tactic(auto, unfolding(crate::specs::Tokens::kind_of_words))]
fn kind_of_one(word: &[u8]) -> Kind
    ensures { result ≡ kind_of_words (word.now ∷ []) }
{
    if is_named(word, b"batch") {
        Kind::BatchStart
    } else if is_named(word, b"end") {
        Kind::BatchEnd
    } else {
        Kind::Other
    }
}

// Returns the meaning of a line of two words.
#[tactic(auto, unfolding(crate::specs::Tokens::kind_of_words))]
fn kind_of_two(first: &[u8], second: &[u8]) -> Kind
    ensures { result ≡ kind_of_words (first.now ∷ second.now ∷ []) }
{
    unsigned(first, read_number(first), read_number(second))
}

// Returns the meaning of a line of a sign and two words, which have the numbers u and v. A word that is no number has
// None.
fn signed(sign: &[u8], u: Option<u32>, v: Option<u32>) -> Kind
    ensures { result ≡ signed sign.now u v }
{
    if is_named(sign, b"+") {
        insertion(u, v)
    } else if is_named(sign, b"-") {
        deletion(u, v)
    } else {
        Kind::Other
    }
}

// Returns the meaning of a line of three words.
#[tactic(auto, unfolding(crate::specs::Tokens::kind_of_words))]
fn kind_of_three(first: &[u8], second: &[u8], third: &[u8]) -> Kind
    ensures { result ≡ kind_of_words (first.now ∷ second.now ∷ third.now ∷ []) }
{
    signed(first, read_number(second), read_number(third))
}

// Returns the meaning of a line of this first word and the words of `rest`.
#[tactic(auto, unfolding(crate::specs::Tokens::kind_of_words))]
fn kind_of_line(first: &[u8], rest: &[u8]) -> Kind
    ensures { result ≡ kind_of_words (first.now ∷ words rest.now) }
{
    let Some((second, rest)) = split_word(rest) else {
        return kind_of_one(first);
    };
    let Some((third, rest)) = split_word(rest) else {
        return kind_of_two(first, second);
    };
    if split_word(rest).is_some() {
        return Kind::Other;
    }
    kind_of_three(first, second, third)
}

/// Returns the meaning of a line, or None if the line is skipped.
#[tactic(auto, unfolding(crate::specs::private::Tokens::kind_of_text))]
pub fn classify(text: &[u8]) -> Option<Kind>
    ensures { result ≡ kind_of_text text.now }
{
    let (first, rest) = split_word(text)?;
    if first[0] == b'#' {
        return None;
    }
    Some(kind_of_line(first, rest))
}

/// Returns the item of a line of two numbers.
#[inline(always)]
pub fn item_of(line: NumberLine) -> Item
    ensures { result ≡ item_of line.sign line.first line.second }
{
    let (u, v) = (line.first, line.second);
    match line.sign {
        Some(Sign::Minus) => Item::Delete { u, v },
        Some(Sign::Plus) | None => Item::Insert { u, v },
    }
}

/// Returns the next line that isn't skipped. After a fault skipped lines may be gone. The sink is flushed before each
/// read, since a read may wait for bytes.
///
/// Cost: one pass over the bytes of a line that lies whole in the reader's memory and is two numbers with one blank
/// between them. A sign and a blank may stand before them. If a number has more than 8 digits, it costs two passes, and
/// each other line a few.
#[inline(always)]
pub fn next_token<S: Source, K: Sink>(
    alloc: Global,
    reader: &mut LineReader,
    src: &mut S,
    sink: &mut K,
) -> Result<Token, AwaitFault>
    ensures token { IfOk result (λ t. tokens_left reader.old (S.left src.old) ≡ option_map (onto_token t) (tokens_left reader.new (S.left src.new))) }
    ensures last { IfOk result (λ t. IsLastKind t.kind → tokens_left reader.new (S.left src.new) ≡ tokens_left reader.old (S.left src.old)) }
    ensures takes { IfOk result (λ t. TakesToken t.kind (budget reader.old) (budget reader.new)) }
    ensures taken { K.taken sink.new ≡ K.taken sink.old }
    ensures cause { AwaitCause (S.faults src.old) (S.faults src.new) (K.faults sink.old) (K.faults sink.new) result }
{
    loop {
        if let Some(numbers) = reader.number_line() {
            let number = reader.pass_line(numbers.len);
            let kind = Kind::Item(item_of(numbers));
            return Ok(Token { number, kind });
        }
        if let Some((ahead, len)) = reader.whole_line() {
            let told = classify(ahead);
            let number = reader.pass_line(len);
            let Some(kind) = told else {
                continue;
            };
            return Ok(Token { number, kind });
        }
        // Only from here on is a read made, if at all.
        let Ok(()) = sink.flush() else {
            return Err(AwaitFault::WriteFault);
        };
        let line = match reader.next_line(alloc, src) {
            Ok(line) => line,
            Err(LineFault::ReadFault) => return Err(AwaitFault::ReadFault),
            Err(LineFault::Memory(e)) => return Err(AwaitFault::Memory(e)),
        };
        let number = line.number;
        let kind = match line.body {
            Body::Text(text) => {
                let said = classify(text.as_slice());
                reader.reuse(text);
                match said {
                    Some(kind) => kind,
                    None => continue,
                }
            }
            Body::TooLong => Kind::TooLong,
            Body::Limit => Kind::Limit,
            Body::End => Kind::InputEnd,
        };
        return Ok(Token { number, kind });
    }
}
