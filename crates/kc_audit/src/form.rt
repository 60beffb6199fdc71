//! What each line of a run text says by itself.
ghost use Rattle.std.specs.Prelude.{◌≡◌, ◌≤◌, length, drop, false, IfSome, IfNone};
ghost use Rattle.kc_text.specs.Words.{words};
ghost use Rattle.kc_text.specs.Kept.{text_of};
ghost use Rattle.kc_audit.specs.Words.{first_number};
ghost use Rattle.kc_audit.specs.Kinds.{is_version, names_reason, is_refusal, batch_kind, direction_of, direction_kind, label_kind, numbered_kind, named_kind, kind_of_words, kind_of};
ghost use Rattle.kc_audit.specs.private.Kinds.{kind_told, IsWithin};

use crate::words::{has_fields, is_at_end, number_at};
use kc_text::{Body, Line, Reason, is_named, next_word, read_number, split_word};

/// The kind of a line, wherever it stands. The numbers are any numbers; those that no rule uses are left out.
#[derive(Clone, Copy, Debug, PartialEq, Eq)]
pub enum Form {
    /// `kcore-run 1`
    Head,
    /// `vertices N`
    Vertices(u32),
    /// `batch T loops A repeats B idle C removed D added I`
    Accepted(u32),
    /// `batch T refused line N REASON`
    Refused(u32),
    /// `phase P insert quiet E`, or `delete` if `add` is false.
    Phase { phase: u32, add: bool },
    /// `group P LABEL`, and the words of its members at or after `from`.
    Group { phase: u32, label: u32, from: usize },
    /// `reader R`, and the words of its replies at or after `from`.
    Reader { reader: u32, from: usize },
    /// `vertex V level L est E low LO high HI up U down D`
    Vertex(u32),
    /// `end`
    Close,
    /// A line of another form.
    Other,
    /// A line that is too long.
    TooLong,
    /// The input goes on past its limit.
    Limit,
    /// The input has ended.
    InputEnd,
}

/// A line with its form; the places in the form are places of the line's bytes.
#[derive(Drop)]
pub struct FormLine<'a> {
    /// The form of the line.
    pub form: Form,
    /// The line's bytes; none if the line isn't a text.
    pub text: &'a [u8],
}

// Returns whether the one word of a text is `1`.
#[tactic(auto, unfolding(crate::specs::Kinds::is_version))]
fn is_version(text: &[u8]) -> bool
    ensures { result ≡ is_version (words text.now) }
{
    match split_word(text) {
        Some((version, rest)) => split_word(rest).is_none() && is_named(version, b"1"),
        None => false,
    }
}

fn names_reason(word: &[u8]) -> bool
    ensures { result ≡ names_reason word.now }
{
    is_named(word, Reason::LineLong.word())
        || is_named(word, Reason::BadLine.word())
        || is_named(word, Reason::BadVertex.word())
        || is_named(word, Reason::TooMany.word())
        || is_named(word, Reason::Truncated.word())
        || is_named(word, Reason::InputLimit.word())
        || is_named(word, Reason::EdgeLimit.word())
        || is_named(word, Reason::PhaseLimit.word())
}

// Returns whether four words are `refused line N REASON`, or None if there are fewer or more.
#[tactic(auto, unfolding(crate::specs::Kinds::is_refusal))]
fn refusal_in(text: &[u8]) -> Option<bool>
    ensures four { IfSome result (λ is. is ≡ is_refusal (words text.now)) }
    ensures other { IfNone result (is_refusal (words text.now) ≡ false) }
{
    let (refused, rest) = split_word(text)?;
    let (line, rest) = split_word(rest)?;
    let (number, rest) = split_word(rest)?;
    let (reason, rest) = split_word(rest)?;
    if split_word(rest).is_some() {
        return None;
    }
    Some(
        is_named(refused, b"refused")
            && (is_named(line, b"line") && (read_number(number).is_some() && names_reason(reason))),
    )
}

// Returns whether the words of a text are `refused line N REASON`.
fn is_refusal(text: &[u8]) -> bool
    ensures { result ≡ is_refusal (words text.now) }
{
    refusal_in(text).unwrap_or(false)
}

// Returns the form of a line `batch T` that goes on at `from`.
fn batch_form(text: &[u8], batch: u32, from: usize) -> Form
    requires { from ≤ length text.now }
    ensures kind { kind_told text.now result ≡ batch_kind batch (words (drop from text.now)) }
    ensures within { IsWithin text.now result }
{
    if has_fields(text, from, b"loops repeats idle removed added") {
        Form::Accepted(batch)
    } else if is_refusal(&text[from..]) {
        Form::Refused(batch)
    } else {
        Form::Other
    }
}

fn direction_of(word: &[u8]) -> Option<bool>
    ensures { result ≡ direction_of word.now }
{
    if is_named(word, b"insert") {
        Some(true)
    } else if is_named(word, b"delete") {
        Some(false)
    } else {
        None
    }
}

// Returns the form of a line `phase P` that goes on at `from`.
#[tactic(auto, unfolding(crate::specs::Kinds::direction_kind))]
fn phase_form(text: &[u8], phase: u32, from: usize) -> Form
    requires { from ≤ length text.now }
    ensures kind { kind_told text.now result ≡ direction_kind phase (words (drop from text.now)) }
    ensures within { IsWithin text.now result }
{
    let Some((start, end)) = next_word(text, from) else {
        return Form::Other;
    };
    match direction_of(&text[start..end]) {
        Some(add) if has_fields(text, end, b"quiet") => Form::Phase { phase, add },
        _ => Form::Other,
    }
}

// Returns the form of a line `group P` that goes on at `from`.
fn group_form(text: &[u8], phase: u32, from: usize) -> Form
    requires { from ≤ length text.now }
    ensures kind { kind_told text.now result ≡ label_kind phase (first_number (words (drop from text.now))) }
    ensures within { IsWithin text.now result }
{
    match number_at(text, from) {
        Some((label, from)) => Form::Group { phase, label, from },
        None => Form::Other,
    }
}

// Returns the form of a line that begins with this word and this number and goes on at `from`. Group lines are tested
// first, since most lines are group lines.
fn numbered_form(name: &[u8], number: u32, text: &[u8], from: usize) -> Form
    requires { from ≤ length text.now }
    ensures kind { kind_told text.now result ≡ numbered_kind name.now number (words (drop from text.now)) }
    ensures within { IsWithin text.now result }
{
    if is_named(name, b"group") {
        group_form(text, number, from)
    } else if is_named(name, b"reader") {
        Form::Reader {
            reader: number,
            from,
        }
    } else if is_named(name, b"vertex") && has_fields(text, from, b"level est low high up down") {
        Form::Vertex(number)
    } else if is_named(name, b"phase") {
        phase_form(text, number, from)
    } else if is_named(name, b"batch") {
        batch_form(text, number, from)
    } else if is_named(name, b"vertices") && is_at_end(text, from) {
        Form::Vertices(number)
    } else {
        Form::Other
    }
}

// Returns the form of a line that begins with this word and goes on at `from`.
fn named_form(name: &[u8], text: &[u8], from: usize) -> Form
    requires { from ≤ length text.now }
    ensures kind { kind_told text.now result ≡ named_kind name.now (words (drop from text.now)) }
    ensures within { IsWithin text.now result }
{
    if is_named(name, b"kcore-run") && is_version(&text[from..]) {
        return Form::Head;
    }
    if is_named(name, b"end") && is_at_end(text, from) {
        return Form::Close;
    }
    match number_at(text, from) {
        Some((number, end)) => numbered_form(name, number, text, end),
        None => Form::Other,
    }
}

#[tactic(auto, unfolding(crate::specs::Kinds::kind_of_words))]
fn form_of_text(text: &[u8]) -> Form
    ensures kind { kind_told text.now result ≡ kind_of_words (words text.now) }
    ensures within { IsWithin text.now result }
{
    match next_word(text, 0) {
        Some((start, end)) => named_form(&text[start..end], text, end),
        None => Form::Other,
    }
}

/// Returns the form of a line.
pub fn form_of(line: &Line) -> Form
    ensures kind { kind_told (text_of line.now.body) result ≡ kind_of line.now.body }
    ensures within { IsWithin (text_of line.now.body) result }
{
    match &line.body {
        Body::Text(text) => form_of_text(text.as_slice()),
        Body::TooLong => Form::TooLong,
        Body::Limit => Form::Limit,
        Body::End => Form::InputEnd,
    }
}
