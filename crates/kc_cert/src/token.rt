//! The tokens of a certificate: what each line says.
ghost use Rattle.std.specs.Prelude.{◌≡◌, ◌∷◌, Some, false, IfOk};
ghost use Rattle.std.specs.Option.{option_map};
ghost use Rattle.kc_text.specs.Causes.{ReadCause};
ghost use Rattle.kc_text.specs.Kept.{is_skipped};
ghost use Rattle.kc_text.specs.Words.{words};
ghost use Rattle.kc_cert.specs.Tokens.{only_word, one_number, two_numbers, profile_named, profile_in, is_version, kind_of_words, kind_of, tokens_left};
ghost use Rattle.kc_cert.specs.private.Tokens.{onto_token};

use kc_levels::Profile;
use kc_text::{
    Body, Line, LineFault, LineReader, Source, give_back, is_named, next_kept, read_number,
    split_word,
};
use std::alloc::Global;

/// What a line says by itself, in any place.
#[derive(Clone, Copy, Debug, PartialEq, Eq)]
pub enum Kind {
    /// `kcore-cert 1`
    Magic,
    /// `profile 1` or `profile 2`
    Profile(Profile),
    /// `vertices N`, with any number.
    Vertices(u32),
    /// `edges M`, with any number.
    EdgeCount(u32),
    /// `edge A B`, with any numbers.
    Edge(u32, u32),
    /// `level V L`, with any numbers.
    Level(u32, u32),
    /// `end`
    Close,
    /// A line of another form.
    Other,
    /// A line that is too long.
    TooLong,
    /// The input goes on past its limit.
    Limit,
    /// The input has ended.
    InputEnd,
}

/// A line that isn't skipped.
#[derive(Clone, Copy, Debug, PartialEq, Eq)]
pub struct Token {
    /// The number of the line, counted from 1 over all lines.
    pub number: u32,
    /// What the line says.
    pub kind: Kind,
}

// Returns the word of a text, or None if there is none or more than one.
#[tactic(auto, unfolding(crate::specs::Tokens::only_word))]
fn only_word(text: &[u8]) -> Option<&[u8]>
    ensures { option_map (λ word. word.now) result ≡ only_word (words text.now) }
{
    let (word, rest) = split_word(text)?;
    if split_word(rest).is_some() {
        return None;
    }
    Some(word)
}

// Returns the number in the one word of a text.
fn one_number(text: &[u8]) -> Option<u32>
    ensures { result ≡ one_number (words text.now) }
{
    read_number(only_word(text)?)
}

// Returns the two numbers in the two words of a text.
#[tactic(auto, unfolding(crate::specs::Tokens::two_numbers))]
fn two_numbers(text: &[u8]) -> Option<(u32, u32)>
    ensures { result ≡ two_numbers (words text.now) }
{
    let (word, rest) = split_word(text)?;
    let first = read_number(word)?;
    let second = one_number(rest)?;
    Some((first, second))
}

fn profile_named(name: &[u8]) -> Option<Profile>
    ensures { result ≡ profile_named name.now }
{
    if is_named(name, b"1") {
        Some(Profile::One)
    } else if is_named(name, b"2") {
        Some(Profile::Two)
    } else {
        None
    }
}

// Returns the profile that the one word of a text names.
fn profile_in(text: &[u8]) -> Option<Profile>
    ensures { result ≡ profile_in (words text.now) }
{
    profile_named(only_word(text)?)
}

// Returns whether the one word of a text is `1`.
fn is_version(text: &[u8]) -> bool
    ensures { result ≡ is_version (words text.now) }
{
    match only_word(text) {
        Some(word) => is_named(word, b"1"),
        None => false,
    }
}

// Returns what a line of this first word and the words of `rest` says.
#[tactic(auto, unfolding(crate::specs::Tokens::kind_of_words))]
fn kind_of_line(name: &[u8], rest: &[u8]) -> Kind
    ensures { result ≡ kind_of_words (name.now ∷ words rest.now) }
{
    if is_named(name, b"edge") {
        two_numbers(rest).map_or(Kind::Other, |(a, b)| Kind::Edge(a, b))
    } else if is_named(name, b"level") {
        two_numbers(rest).map_or(Kind::Other, |(v, level)| Kind::Level(v, level))
    } else if is_named(name, b"vertices") {
        one_number(rest).map_or(Kind::Other, Kind::Vertices)
    } else if is_named(name, b"edges") {
        one_number(rest).map_or(Kind::Other, Kind::EdgeCount)
    } else if is_named(name, b"profile") {
        profile_in(rest).map_or(Kind::Other, Kind::Profile)
    } else if is_named(name, b"kcore-cert") && is_version(rest) {
        Kind::Magic
    } else if is_named(name, b"end") && split_word(rest).is_none() {
        Kind::Close
    } else {
        Kind::Other
    }
}

// Returns what a line of this text says.
#[tactic(auto, unfolding(crate::specs::Tokens::kind_of_words))]
fn kind_of_text(text: &[u8]) -> Kind
    ensures { result ≡ kind_of_words (words text.now) }
{
    match split_word(text) {
        Some((name, rest)) => kind_of_line(name, rest),
        None => Kind::Other,
    }
}

// Returns what a line says that isn't skipped.
#[tactic(auto, unfolding(crate::specs::Tokens::kind_of_text))]
fn kind_of(line: &Line) -> Kind
    requires { is_skipped line.now.body ≡ false }
    ensures { kind_of line.now.body ≡ Some result }
{
    match &line.body {
        Body::Text(text) => kind_of_text(text.as_slice()),
        Body::TooLong => Kind::TooLong,
        Body::Limit => Kind::Limit,
        Body::End => Kind::InputEnd,
    }
}

/// Returns the next line that isn't skipped. After a fault skipped lines may be gone.
///
/// Most lines are `edge` or `level` and two numbers, with one blank before each. Such a line costs one pass over its
/// bytes if it lies whole in the reader's memory. Each other line is copied, and costs a few passes.
#[inline(always)]
pub fn next_token<S: Source>(
    alloc: Global,
    reader: &mut LineReader,
    src: &mut S,
) -> Result<Token, LineFault>
    ensures token { IfOk result (λ t. tokens_left reader.old (S.left src.old) ≡ option_map (onto_token t) (tokens_left reader.new (S.left src.new))) }
    ensures cause { ReadCause (S.faults src.old) (S.faults src.new) result }
{
    if let Some(edge) = reader.numbers_after(b"edge") {
        let number = reader.pass_line(edge.len);
        let kind = Kind::Edge(edge.first, edge.second);
        return Ok(Token { number, kind });
    }
    if let Some(level) = reader.numbers_after(b"level") {
        let number = reader.pass_line(level.len);
        let kind = Kind::Level(level.first, level.second);
        return Ok(Token { number, kind });
    }
    let line = next_kept(alloc, reader, src)?;
    let number = line.number;
    let kind = kind_of(&line);
    give_back(reader, line);
    Ok(Token { number, kind })
}
