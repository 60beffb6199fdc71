//! The header of a batch input: its profile, its number of vertices and its asks, or the line at which it is refused.
ghost use Rattle.std.specs.Prelude.{◌≡◌, ◌+◌, ◌<◌, ◌≤◌, [], true, IfOk, OnOk, IfSome};
ghost use Rattle.kc_text.specs.Reading.{budget};
ghost use Rattle.kc_text.specs.Words.{words};
ghost use Rattle.kc_text.specs.Kept.{kept_left};

use crate::Asks;
use crate::ask::{is_ask, next_ask};
use kc_graph::MAX_VERTICES;
use kc_levels::Profile;
use kc_text::{
    LineFault, LineReader, Source, is_named, next_kept, read_number, split_word, text_of,
};
use std::alloc::{AllocError, Global};
use std::marker::Model;
use thiserror::Error;

/// The header of a batch input. In each header n is 1 to `MAX_VERTICES`, there are at most 64 asks, and each ask keeps
/// the ranges of [`Ask`]. `IsHeader` of `specs/Headers` states this.
#[derive(Drop, Debug)]
pub struct Header {
    /// The profile of the levels' thresholds.
    pub profile: Profile,
    /// The number of vertices.
    pub n: u32,
    /// The asks in the order of their lines. The i-th, counted from 0, is that of reader i.
    pub asks: Asks,
}

impl Model for Header {
    ghost use Rattle.kc_batch.specs.HeaderShape.{HeaderShape};
    ghost use Rattle.kc_batch.specs.Headers.{IsHeader};

    ghost Value = { HeaderShape };

    ghost view = { λ h. record { profile = h.profile; n = h.n; asks = h.asks } };

    ghost invariant = { λ h. IsHeader (record { profile = h.profile; n = h.n; asks = h.asks }) };

    ghost inverse = { λ h. record { profile = h.profile; n = h.n; asks = h.asks } };
}

/// The reasons for which there is no header.
#[derive(Drop, Debug, Error)]
pub enum HeaderFault {
    /// A read of the source failed.
    #[error("a read of the source failed")]
    ReadFault,
    /// The header is refused at this line.
    #[error("the header is refused at line {line}")]
    Refused { line: u32 },
    /// There was no memory for a line or an ask.
    #[error(transparent)]
    Memory(AllocError),
}

impl From<LineFault> for HeaderFault {
    ghost use Rattle.kc_batch.specs.Causes.{header_fault_of};

    ghost from_gives = { λ f s. s ≡ header_fault_of f };

    fn from(fault: LineFault) -> HeaderFault {
        match fault {
            LineFault::ReadFault => HeaderFault::ReadFault,
            LineFault::Memory(e) => HeaderFault::Memory(e),
        }
    }
}

impl From<AllocError> for HeaderFault {
    ghost use Rattle.kc_batch.specs.declared.header.HeaderFault.TheVariants.{Memory};

    ghost from_gives = { λ e s. s ≡ Memory e };

    fn from(fault: AllocError) -> HeaderFault {
        HeaderFault::Memory(fault)
    }
}

ghost use Rattle.kc_batch.specs.Headers.{profile_of, profile_in, vertices_in, header_of, asks_from, Answers, IsHeader};
ghost use Rattle.kc_batch.specs.Causes.{HeaderCause};

fn profile_of(version: &[u8]) -> Option<Profile>
    ensures { result ≡ profile_of version.now }
{
    if is_named(version, b"1") {
        Some(Profile::One)
    } else if is_named(version, b"2") {
        Some(Profile::Two)
    } else {
        None
    }
}

// Returns the profile of a line `kcore 1` or `kcore 2`.
#[tactic(auto, unfolding(crate::specs::Headers::profile_in))]
fn profile_in(text: &[u8]) -> Option<Profile>
    ensures { result ≡ profile_in (words text.now) }
{
    let (name, rest) = split_word(text)?;
    let (version, rest) = split_word(rest)?;
    if split_word(rest).is_some() || !is_named(name, b"kcore") {
        return None;
    }
    profile_of(version)
}

/// Returns the number of vertices of a line `vertices N`, 1 to `MAX_VERTICES`, or None if the line has another form.
#[tactic(auto, unfolding(crate::specs::Headers::vertices_in))]
pub fn vertices_in(text: &[u8]) -> Option<u32>
    ensures value { result ≡ vertices_in (words text.now) }
    ensures range { IfSome result (λ n. (1 ≤ n) × (n ≤ MAX_VERTICES)) }
{
    let (name, rest) = split_word(text)?;
    let (count, rest) = split_word(rest)?;
    if split_word(rest).is_some() || !is_named(name, b"vertices") {
        return None;
    }
    let n = read_number(count)?;
    if 1 <= n && n <= MAX_VERTICES {
        Some(n)
    } else {
        None
    }
}

// Reads the ask lines after `vertices N`, up to the first line of another kind.
fn read_asks<S: Source>(
    alloc: Global,
    reader: &mut LineReader,
    src: &mut S,
    profile: Profile,
    n: u32,
) -> Result<Header, HeaderFault>
    requires some { 1 ≤ n }
    requires small { n ≤ MAX_VERTICES }
    ensures header { Answers (asks_from profile n []) (kept_left reader.old (S.left src.old)) (kept_left reader.new (S.left src.new)) result }
    ensures range { IfOk result IsHeader }
    ensures budget { OnOk result (budget reader.new ≤ budget reader.old + 1) }
    ensures cause { HeaderCause (S.faults src.old) (S.faults src.new) result }
{
    let mut asks = Asks::new(alloc);
    loop {
        let line = next_kept(alloc, reader, src)?;
        let text = text_of(&line);
        if !is_ask(text) {
            reader.put_back(line);
            return Ok(Header { profile, n, asks });
        }
        match next_ask(alloc, text, n, asks.len())? {
            Some(ask) => asks.push(ask)?,
            None => return Err(HeaderFault::Refused { line: line.number }),
        }
    }
}

impl Header {
    /// Reads the header: `kcore 1` or `kcore 2`, `vertices N` and up to 64 ask lines, as `header_of` of `specs/Headers`
    /// defines it. Afterwards the reader stands at the first line after the header.
    ///
    /// The faults:
    ///
    /// - `Refused` has the number of the first line that doesn't have its form, or of the 65th ask line. If the input
    ///   ends or passes its limit before the first two lines, it has the number of the reader's `End` or `Limit`.
    /// - `ReadFault` comes only if the source's count of faults rose.
    /// - `Memory` comes if there was no memory for a line or an ask.
    ///
    /// After each of them the reader isn't used again, since lines of the header are gone. Cost: time for the bytes of
    /// the lines; a `Vec` for the text of each line and for each ask.
    pub fn read<S: Source>(
        alloc: Global,
        reader: &mut LineReader,
        src: &mut S,
    ) -> Result<Header, HeaderFault>
        ensures header { Answers header_of (kept_left reader.old (S.left src.old)) (kept_left reader.new (S.left src.new)) result }
        ensures range { IfOk result IsHeader }

        // The reader's budget bounds the number of batches after the header.
        ensures budget { OnOk result (budget reader.new ≤ budget reader.old + 1) }
        ensures cause { HeaderCause (S.faults src.old) (S.faults src.new) result }
    {
        let first = next_kept(alloc, reader, src)?;
        let Some(profile) = profile_in(text_of(&first)) else {
            return Err(HeaderFault::Refused { line: first.number });
        };
        let second = next_kept(alloc, reader, src)?;
        let Some(n) = vertices_in(text_of(&second)) else {
            return Err(HeaderFault::Refused {
                line: second.number,
            });
        };
        read_asks(alloc, reader, src, profile, n)
    }
}
