//! The questions of a reader, read from a line `ask TIMES V V ..` of a header.
ghost use Rattle.std.specs.Prelude.{◌≡◌, ◌<◌, nat_lt, None, true, if◌then◌else◌, IfOk, IfSome};
ghost use Rattle.kc_text.specs.Words.{words};

use crate::text::{all_below, read_numbers};
use kc_graph::List;
use kc_text::{is_named, read_number, split_word};
use std::alloc::{AllocError, Global};

// The most ask lines.
const MAX_ASKS: usize = 64;

// The most questions of an ask.
const MAX_QUESTIONS: u64 = 65_536;

/// The asked vertices in the order of their questions. A vertex may occur more than once. Contracts see them as a list.
pub type Vertices = List<u32>;

/// The questions of one reader: the levels of these vertices in order, the whole list `times` times over.
///
/// In each ask of a header `times` is at least 1, and there is at least one vertex. Each vertex is below the header's
/// n. The product of `times` and the number of vertices is at most 65,536. `IsAsk` of `specs/Headers` states these
/// ranges.
#[derive(Drop, Debug)]
pub struct Ask {
    /// The number of times that the whole list is asked for.
    pub times: u32,
    /// The vertices of the list, in order.
    pub vertices: Vertices,
}

/// The asks of all readers, one for each, in the order of the header's lines. Contracts see them as a list.
pub type Asks = List<Ask>;

ghost use Rattle.kc_batch.specs.Headers.{is_ask, fits_ask, ask_in, IsAsk};

/// Returns whether the first word is `ask`.
pub fn is_ask(text: &[u8]) -> bool
    ensures { result ≡ is_ask (words text.now) }
{
    match split_word(text) {
        Some((name, _)) => is_named(name, b"ask"),
        None => false,
    }
}

fn fits_ask(n: u32, times: u32, vertices: &[u32]) -> bool
    ensures { result ≡ fits_ask n times vertices.now }
{
    (times >= 1 && !vertices.is_empty())
        && (all_below(vertices, n)
            && (times as u64).saturating_mul(vertices.len() as u64) <= MAX_QUESTIONS)
}

// Returns the ask of an ask line, or None if the line doesn't have its form.
#[tactic(auto, unfolding(crate::specs::Headers::ask_in))]
fn read_ask(alloc: Global, text: &[u8], n: u32) -> Result<Option<Ask>, AllocError>
    ensures ask { IfOk result (λ found. found ≡ ask_in n (words text.now)) }
    ensures fits { IfOk result (λ found. IfSome found (IsAsk n)) }
{
    let Some((_, rest)) = split_word(text) else {
        return Ok(None);
    };
    let Some((times, rest)) = split_word(rest) else {
        return Ok(None);
    };
    let Some(times) = read_number(times) else {
        return Ok(None);
    };
    let Some(vertices) = read_numbers(alloc, rest)? else {
        return Ok(None);
    };
    if !fits_ask(n, times, vertices.as_slice()) {
        return Ok(None);
    }
    Ok(Some(Ask { times, vertices }))
}

/// Returns the ask of an ask line that follows `count` others. Returns None if the line doesn't have its form, or if it
/// would be the 65th. Fails only if memory runs out.
pub fn next_ask(alloc: Global, text: &[u8], n: u32, count: usize) -> Result<Option<Ask>, AllocError>
    ensures ask { IfOk result (λ found. found ≡ (if nat_lt count 64 then ask_in n (words text.now) else None)) }
    ensures fits { IfOk result (λ found. IfSome found (IsAsk n)) }
    ensures few { IfOk result (λ found. IfSome found (λ ask. count < 64)) }
{
    if count >= MAX_ASKS {
        return Ok(None);
    }
    read_ask(alloc, text, n)
}
