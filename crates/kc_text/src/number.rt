//! Decimal numbers below 2^32: the number in a word, and the next number of a line.
ghost use Rattle.std.specs.Prelude.{◌≡◌, ◌<◌, ◌≤◌, ◌+◌, ◌-◌, ◌^◌, nat_lt, length, drop, slice_index, true, IfSome, IfNone};
ghost use Rattle.kc_text.specs.Numbers.{number_of, is_digit, NumberAt, IsNoNumber};
ghost use Rattle.kc_text.specs.private.Numbers.{DigitsAt, StopsAt, HasNoNumber};
ghost use Rattle.kc_text.specs.Words.{words};

use crate::word::{next_word, parts_words, pass_blanks};

/// Returns the number of 1 to 10 ASCII digits if it is at most 4,294,967,295. Leading zeros are accepted. Returns None
/// for all other bytes.
#[tactic(auto, using(crate::proofs::Digits::steps))]
pub fn read_number(bytes: &[u8]) -> Option<u32>
    ensures { result ≡ number_of bytes.now }
{
    if bytes.is_empty() || bytes.len() > 10 {
        return None;
    }
    let mut value: u64 = 0;
    for digit in bytes {
        if *digit < b'0' || *digit > b'9' {
            return None;
        }
        value = 10 * value + (*digit - b'0') as u64;
        if value > u32::MAX as u64 {
            return None;
        }
    }
    Some(value as u32)
}

fn is_digit(byte: u8) -> bool
    ensures { result ≡ is_digit byte }
{
    byte >= b'0' && byte <= b'9'
}

// Returns the value of a digit. For any other byte returns 10 or more.
#[inline(always)]
fn digit_of(byte: u8) -> u32
    ensures digit { result < 10 → result ≡ byte - 48 }
    ensures test { is_digit byte ≡ nat_lt result 10 }
{
    (byte as u32).wrapping_sub(b'0' as u32)
}

// The most digits that `near_digits` reads: as many as the greatest vertex has. No value of so few digits is too large,
// and the compiler unrolls a loop of fixed length.
pub(crate) const NEAR: usize = 8;

// Returns the value of the first digits from `start` on, at most `NEAR` of them, and where they end. As many bytes
// stand there, so no byte is tested for the end of the line.
#[inline(always)]
#[tactic(auto, using(crate::proofs::Numbering::digit_steps))]
pub(crate) fn near_digits(line: &[u8], start: usize) -> (u32, usize)
    requires { start + 8 ≤ length line.now }
    ensures digits { DigitsAt line.now start result.0 result.1 }
    ensures small { result.0 < 10 ^ 8 }
    ensures near { result.1 ≤ start + 8 }
    ensures stop { result.1 < start + 8 → StopsAt line.now result.1 }
{
    let mut value = 0;
    let mut count = 0;
    while count < NEAR {
        let digit = digit_of(line[start + count]);
        if digit >= 10 {
            return (value, start + count);
        }
        value = 10 * value + digit;
        count += 1;
    }
    (value, start + NEAR)
}

// Returns the value of the digits from `start` on, and where they end. The digits before `from` have the value `value`.
// Returns None if the value is too large.
#[inline(never)]
#[tactic(auto, using(crate::proofs::Numbering::digit_steps))]
fn pass_more_digits(line: &[u8], start: usize, value: u32, from: usize) -> Option<(u32, usize)>
    requires { DigitsAt line.now start value from }
    ensures digits { IfSome result (λ r. DigitsAt line.now start r.0 r.1) }
    ensures stop { IfSome result (λ r. StopsAt line.now r.1) }
    ensures none { IfNone result (HasNoNumber line.now start) }
{
    let mut value = value as u64;
    let mut at = from;
    while at < line.len() {
        if !is_digit(line[at]) {
            return Some((value as u32, at));
        }
        value = 10 * value + (line[at] - b'0') as u64;
        if value >= 1 << 32 {
            return None;
        }
        at += 1;
    }
    Some((value as u32, at))
}

// Returns the value of the digits from `start` on, and where they end. Returns None if the value is too large.
#[inline(always)]
#[tactic(auto, using(crate::proofs::Numbering::digit_steps))]
pub(crate) fn pass_digits(line: &[u8], start: usize) -> Option<(u32, usize)>
    requires { start ≤ length line.now }
    ensures digits { IfSome result (λ r. DigitsAt line.now start r.0 r.1) }
    ensures stop { IfSome result (λ r. StopsAt line.now r.1) }
    ensures none { IfNone result (HasNoNumber line.now start) }
{
    if line.len() - start < NEAR {
        return pass_more_digits(line, start, 0, start);
    }
    let (value, end) = near_digits(line, start);
    if end < start + NEAR {
        return Some((value, end));
    }
    pass_more_digits(line, start, value, end)
}

// Returns the number of a word of digits that begins at `start`, and where the word ends.
#[tactic(auto, using(crate::proofs::Numbering::number_steps))]
fn number_from(line: &[u8], start: usize) -> Option<(u32, usize)>
    requires { start ≤ length line.now }
    ensures { IfSome result (λ r. NumberAt line.now start r.0 r.1) }
{
    let (value, end) = pass_digits(line, start)?;
    if end == start || end - start > 10 {
        return None;
    }
    if end < line.len() && !parts_words(line[end]) {
        return None;
    }
    Some((value, end))
}

/// Returns the number in the first word at or after `from`, and where that word ends. Returns None if the word is no
/// number, or if there is no word. Cost: one pass over the word's bytes, if the word is a number.
pub fn next_number(line: &[u8], from: usize) -> Option<(u32, usize)>
    requires { from ≤ length line.now }
    ensures number { IfSome result (λ r. NumberAt line.now from r.0 r.1) }
    ensures none { IfNone result (IsNoNumber (words (drop from line.now))) }
{
    let start = pass_blanks(line, from);
    if let Some(found) = number_from(line, start) {
        return Some(found);
    }
    let (start, end) = next_word(line, from)?;
    let value = read_number(&line[start..end])?;
    Some((value, end))
}
