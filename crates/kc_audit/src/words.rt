//! The words that lines are made of.
ghost use Rattle.std.specs.Prelude.{◌≡◌, ◌<◌, ◌≤◌, length, drop, Some, None, IfOk, IfSome, if◌then◌else◌, ◌==◌};
ghost use Rattle.std.specs.List.{position};
ghost use Rattle.kc_text.specs.Words.{words};
ghost use Rattle.kc_audit.specs.Words.{is_nothing, first_number, has_fields, level_in, reply_with, pair_of, pairs_of};
ghost use Rattle.kc_audit.specs.private.Words.{number_found};

use kc_history::Reply;
use kc_text::{is_named, next_number, next_word, read_number};
use std::alloc::AllocError;

/// Returns whether there is no word at or after `from`.
pub fn is_at_end(text: &[u8], from: usize) -> bool
    requires { from ≤ length text.now }
    ensures { result ≡ is_nothing (words (drop from text.now)) }
{
    next_word(text, from).is_none()
}

/// Returns the number of the first word at or after `from`, and where that word ends.
#[tactic(auto, using(crate::proofs::WordLemmas::number_steps))]
pub fn number_at(text: &[u8], from: usize) -> Option<(u32, usize)>
    requires { from ≤ length text.now }
    ensures number { first_number (words (drop from text.now)) ≡ number_found text.now result }
    ensures within { IfSome result (λ found. found.1 ≤ length text.now) }
{
    next_number(text, from)
}

/// Returns whether the words at or after `from` are these names, with a number after each.
pub fn has_fields(text: &[u8], from: usize, names: &[u8]) -> bool
    requires { from ≤ length text.now }
    ensures { result ≡ has_fields (words names.now) (words (drop from text.now)) }
{
    let mut at = from;
    let mut name_at = 0;
    while let Some((name_start, name_end)) = next_word(names, name_at) {
        let Some((start, end)) = next_word(text, at) else {
            return false;
        };
        if !is_named(&text[start..end], &names[name_start..name_end]) {
            return false;
        }
        let Some((_, end)) = number_at(text, end) else {
            return false;
        };
        at = end;
        name_at = name_end;
    }
    is_at_end(text, at)
}

// Returns the number as a level, if it is at most 65,535.
fn level_in(number: Option<u32>) -> Option<u16>
    ensures { result ≡ level_in number }
{
    match number {
        Some(level) if level <= u32::from(u16::MAX) => Some(level as u16),
        _ => None,
    }
}

// Returns the reply of a vertex and a level, if both were read.
fn reply_with(vertex: Option<u32>, level: Option<u16>) -> Option<Reply>
    ensures { result ≡ reply_with vertex level }
{
    match (vertex, level) {
        (Some(vertex), Some(level)) => Some(Reply { vertex, level }),
        _ => None,
    }
}

// Returns the place of the first mark in a word.
fn mark_of(word: &[u8], mark: u8) -> Option<usize>
    ensures place { result ≡ position (λ b. b == mark) word.now }
    ensures within { IfSome result (λ at. at < length word.now) }
{
    word.iter().position(|b| *b == mark)
}

// Returns the vertex and the level of a word, which has this mark between them.
fn pair_of(word: &[u8], mark: u8) -> Option<Reply>
    ensures { result ≡ pair_of mark word.now }
{
    match mark_of(word, mark) {
        Some(at) => reply_with(
            read_number(&word[..at]),
            level_in(read_number(&word[at + 1..])),
        ),
        None => None,
    }
}

/// Reads the words at or after `from`, each a vertex and a level with this mark between them, into `pairs`, in place of
/// its content. Returns whether each word is such a pair. If not, `pairs` holds those before it. Fails only if memory
/// runs out.
pub fn read_pairs(
    text: &[u8],
    from: usize,
    mark: u8,
    pairs: &mut Vec<Reply>,
) -> Result<bool, AllocError>
    requires { from ≤ length text.now }
    ensures { IfOk result (λ whole. pairs_of mark (words (drop from text.now)) ≡ (if whole then Some pairs.new.items else None)) }
{
    pairs.clear();
    let mut at = from;
    while let Some((start, end)) = next_word(text, at) {
        match pair_of(&text[start..end], mark) {
            Some(pair) => pairs.push(pair)?,
            None => return Ok(false),
        }
        at = end;
    }
    Ok(true)
}
