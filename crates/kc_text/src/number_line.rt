//! Lines of two numbers, read where they lie.
ghost use Rattle.std.specs.Prelude.{◌≡◌, ◌≤◌, ◌+◌, ℕ, ◌∷◌, true, Option, length, IfSome, IfNone};
ghost use Rattle.kc_text.specs.Printing.{is_word};
ghost use Rattle.kc_text.specs.NumberLines.{BeginsWithName};
ghost use Rattle.kc_text.specs.private.Numbers.{DigitsTo, StopsAt, HasNoNumber};
ghost use Rattle.kc_text.specs.private.NumberLines.{sign_of, front_of, BeginsAt, ClosesAt, NumbersTo, HaveNoNumbers, IsNumberLine, HaveNoNumberLine, IsNamedLine, HaveNoNamedLine};

use crate::number::{NEAR, near_digits, pass_digits};
use crate::word::parts_words;

/// A sign before two numbers.
#[derive(Clone, Copy, Debug, PartialEq, Eq)]
pub enum Sign {
    /// `+`
    Plus,
    /// `-`
    Minus,
}

/// A line of two numbers.
#[derive(Clone, Copy, Debug, PartialEq, Eq)]
pub struct NumberLine {
    /// The sign before the numbers, if there is one.
    pub sign: Option<Sign>,
    /// The first number.
    pub first: u32,
    /// The second number.
    pub second: u32,
    /// The length of the line, counting a carriage return at its end.
    pub len: usize,
}

/// A line of a name and two numbers.
#[derive(Clone, Copy, Debug, PartialEq, Eq)]
pub struct NamedNumbers {
    /// The first number.
    pub first: u32,
    /// The second number.
    pub second: u32,
    /// The length of the line, counting a carriage return at its end.
    pub len: usize,
}

fn sign_of(byte: u8) -> Option<Sign>
    ensures { result ≡ sign_of byte }
{
    match byte {
        b'+' => Some(Sign::Plus),
        b'-' => Some(Sign::Minus),
        _ => None,
    }
}

// Returns the sign if there is one, and where the numbers begin. Returns None if a sign isn't followed by a blank, or
// if there are fewer than two bytes.
#[tactic(auto, unfolding(crate::specs::private::NumberLines::front_of))]
fn pass_sign(bytes: &[u8]) -> Option<(Option<Sign>, usize)>
    ensures { result ≡ front_of bytes.now }
{
    if bytes.len() < 2 {
        return None;
    }
    let sign = sign_of(bytes[0]);
    if sign.is_none() {
        return Some((None, 0));
    }
    if !parts_words(bytes[1]) {
        return None;
    }
    Some((sign, 2))
}

// Returns the number of one to ten digits at `start`, and where they end.
#[inline(always)]
#[tactic(auto, using(crate::proofs::DigitRuns::digit_steps))]
fn digits_to(bytes: &[u8], start: usize) -> Option<(u32, usize)>
    requires { start ≤ length bytes.now }
    ensures digits { IfSome result (λ r. DigitsTo bytes.now start r.0 r.1) }
    ensures stop { IfSome result (λ r. StopsAt bytes.now r.1) }
    ensures none { IfNone result (HasNoNumber bytes.now start) }
{
    let (value, end) = pass_digits(bytes, start)?;
    if end == start || end - start > 10 {
        return None;
    }
    Some((value, end))
}

// Returns the place of the line feed that stands at `end`, or after a carriage return at `end`.
#[tactic(auto, using(crate::proofs::NumberLines::close_steps))]
fn pass_cr(bytes: &[u8], end: usize) -> Option<usize>
    requires { end ≤ length bytes.now }
    ensures closes { IfSome result (λ len. ClosesAt bytes.now end len) }
    ensures none { IfNone result ((len : ℕ) → ClosesAt bytes.now end len → ⊥) }
{
    if end == bytes.len() {
        return None;
    }
    if bytes[end] == b'\n' {
        return Some(end);
    }
    if bytes[end] != b'\r' || end + 1 == bytes.len() || bytes[end + 1] != b'\n' {
        return None;
    }
    Some(end + 1)
}

// Returns the two numbers that make up the line from `start` on, with one blank between them, and the place of the line
// feed.
#[cold]
#[inline(never)]
#[tactic(auto, using(crate::proofs::NumberLines::number_steps))]
fn any_numbers(bytes: &[u8], start: usize) -> Option<(u32, u32, usize)>
    requires { start ≤ length bytes.now }
    ensures numbers { IfSome result (λ r. NumbersTo bytes.now start r.0 r.1 r.2) }
    ensures none { IfNone result (HaveNoNumbers bytes.now start) }
{
    let (first, middle) = digits_to(bytes, start)?;
    if middle == bytes.len() {
        return None;
    }
    if !parts_words(bytes[middle]) {
        return None;
    }
    let (second, end) = digits_to(bytes, middle + 1)?;
    let len = pass_cr(bytes, end)?;
    Some((first, second, len))
}

// The most bytes of two numbers of `NEAR` digits, a blank between them and a line's end.
const NEAR_LINE: usize = 2 * NEAR + 3;

// Returns a number of at most `NEAR` digits at `start`, and where it ends. Returns None if there is no digit.
#[inline(always)]
fn near_number(bytes: &[u8], start: usize) -> Option<(u32, usize)>
    requires { start + 8 ≤ length bytes.now }
    ensures digits { IfSome result (λ r. DigitsTo bytes.now start r.0 r.1) }
    ensures near { IfSome result (λ r. r.1 ≤ start + 8) }
{
    let (value, end) = near_digits(bytes, start);
    if end == start {
        return None;
    }
    Some((value, end))
}

// Returns what `any_numbers` does if both numbers have at most `NEAR` digits, and otherwise None. As many bytes as such
// a line has stand from `start` on, so no byte is tested for the end of the bytes.
#[inline(always)]
#[tactic(auto, using(crate::proofs::NumberLines::number_steps))]
fn near_numbers(bytes: &[u8], start: usize) -> Option<(u32, u32, usize)>
    requires { start + 19 ≤ length bytes.now }
    ensures { IfSome result (λ r. NumbersTo bytes.now start r.0 r.1 r.2) }
{
    let (first, middle) = near_number(bytes, start)?;
    if !parts_words(bytes[middle]) {
        return None;
    }
    let (second, end) = near_number(bytes, middle + 1)?;
    let len = pass_cr(bytes, end)?;
    Some((first, second, len))
}

// Returns the two numbers that make up the line from `start` on, with one blank between them, and the place of the line
// feed. Most numbers are short and most lines aren't the last that were read, so that case is tried first.
#[inline(always)]
fn numbers_to(bytes: &[u8], start: usize) -> Option<(u32, u32, usize)>
    requires { start ≤ length bytes.now }
    ensures numbers { IfSome result (λ r. NumbersTo bytes.now start r.0 r.1 r.2) }
    ensures none { IfNone result (HaveNoNumbers bytes.now start) }
{
    if bytes.len() - start >= NEAR_LINE {
        if let Some(found) = near_numbers(bytes, start) {
            return Some(found);
        }
    }
    any_numbers(bytes, start)
}

// Returns the first line of the bytes if its line feed is among them and it is two numbers with one blank between them.
// A sign and a blank may stand before the numbers. Returns None if the bytes don't begin with such a line.
#[inline(always)]
pub(crate) fn number_line(bytes: &[u8]) -> Option<NumberLine>
    ensures line { IfSome result (λ line. IsNumberLine bytes.now line) }
    ensures none { IfNone result (HaveNoNumberLine bytes.now) }
{
    let (sign, start) = pass_sign(bytes)?;
    let (first, second, len) = numbers_to(bytes, start)?;
    Some(NumberLine {
        sign,
        first,
        second,
        len,
    })
}

// Returns where the numbers of a line begin whose first bytes are the name and a blank.
#[inline(always)]
fn pass_name(bytes: &[u8], name: &[u8]) -> Option<usize>
    requires { is_word name.now ≡ true }
    ensures start { IfSome result (λ start. start ≡ length name.now + 1) }
    ensures begins { IfSome result (λ start. BeginsAt bytes.now (λ ws. name.now ∷ ws) start) }
    ensures none { IfNone result (BeginsWithName bytes.now name.now → ⊥) }
{
    let len = name.len();
    if !bytes.starts_with(name) {
        return None;
    }
    if len == bytes.len() || !parts_words(bytes[len]) {
        return None;
    }
    Some(len + 1)
}

// Returns the first line of the bytes if its line feed is among them and it is the name and two numbers. One blank
// stands after the name and one between the numbers. Returns None if the bytes don't begin with such a line.
#[inline(always)]
#[tactic(auto, using(crate::proofs::NamedLines::named_line))]
pub(crate) fn numbers_after(bytes: &[u8], name: &[u8]) -> Option<NamedNumbers>
    requires { is_word name.now ≡ true }
    ensures line { IfSome result (λ line. IsNamedLine bytes.now name.now line) }
    ensures none { IfNone result (HaveNoNamedLine bytes.now name.now) }
{
    let start = pass_name(bytes, name)?;
    let (first, second, len) = numbers_to(bytes, start)?;
    Some(NamedNumbers { first, second, len })
}
