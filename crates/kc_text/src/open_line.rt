//! The line that a scanner has open, in whatever pieces its bytes come.
ghost use Rattle.std.specs.Prelude.{◌≡◌, ◌<◌, ◌≤◌, ◌+◌, ◌^◌, [], ◌++◌, length, IfOk, OnOk, OnErr};
ghost use Rattle.kc_text.specs.Lines.{body_of, numbered_line, without_cr};

use crate::{Body, Bytes, Line};
use std::alloc::{AllocError, Global};
use std::marker::Model;
use std::mem;

/// The line of which some bytes were taken, and whose end is still to come. A contract sees it as an `Open` of
/// `specs/private/OpenLines`: the line limit, the number of the line, and the bytes taken.
#[derive(Drop)]
pub struct OpenLine {
    // The most bytes of a line.
    limit: u32,
    // The number of the line.
    number: u32,
    // The number of bytes taken, kept or not.
    taken: u32,
    // The bytes taken, if they are at most `limit` bytes. Otherwise the content has no meaning.
    part: Vec<u8>,
    // The memory of a line that was given back. Its bytes have no meaning.
    spare: Vec<u8>,
}

impl Model for OpenLine {
    ghost use Rattle.std.specs.Prelude.{◌≡◌, length};
    ghost use Rattle.kc_text.specs.private.OpenLines.{Open, piece_of};

    ghost Value = { Open };

    ghost view = { λ o. record { limit = o.limit; number = o.number; piece = piece_of o.limit o.taken o.part.items } };

    ghost invariant = { λ o. length (piece_of o.limit o.taken o.part.items) ≡ o.taken };
}

// Returns the spare memory, without its bytes.
#[inline(always)]
fn take_spare(alloc: Global, spare: &mut Vec<u8>) -> Vec<u8>
    ensures { result.items ≡ [] }
{
    let mut text = mem::replace(spare, Vec::new(alloc));
    text.clear();
    text
}

// Appends the kept part of a line. Most lines lie whole in the window and have no such part, so that case is tested
// first.
#[inline(always)]
fn add_part(text: &mut Vec<u8>, part: &[u8]) -> Result<(), AllocError>
    ensures { OnOk result (text.new.items ≡ text.old.items ++ part.now) }
{
    if part.is_empty() {
        return Ok(());
    }
    text.extend_from_slice(part)?;
    Ok(())
}

// Removes a carriage return at the end.
fn drop_cr(text: &mut Vec<u8>)
    ensures { text.new.items ≡ without_cr text.old.items }
{
    if let Some(b'\r') = text.last() {
        text.pop();
    }
}

// Appends bytes to the part of a line. If the line is then longer than the limit, keeps none of it.
fn keep(part: &mut Vec<u8>, limit: u32, taken: u32, more: &[u8]) -> Result<(), AllocError>
    requires { taken + length more.now < 2 ^ 32 }
    ensures kept { OnOk result (taken + length more.now ≤ limit → part.new.items ≡ part.old.items ++ more.now) }
    ensures same { OnErr result (part.new.items ≡ part.old.items) }
{
    if taken + more.len() as u32 > limit {
        part.clear();
        return Ok(());
    }
    part.extend_from_slice(more)?;
    Ok(())
}

impl OpenLine {
    ghost use Rattle.kc_text.specs.private.OpenLines.{Grows};

    /// Opens the first line. Takes no memory.
    pub fn new(alloc: Global, limit: u32) -> Self
        ensures { result ≡ record { limit = limit; number = 1; piece = [] } }
    {
        OpenLine {
            limit,
            number: 1,
            taken: 0,
            part: Vec::new(alloc),
            spare: Vec::new(alloc),
        }
    }

    /// Returns the most bytes of a line.
    #[inline(always)]
    pub fn limit(&self) -> u32
        ensures { result ≡ self.now.limit }
    {
        self.limit
    }

    /// Returns the number of the line.
    #[inline(always)]
    pub fn number(&self) -> u32
        ensures { result ≡ self.now.number }
    {
        self.number
    }

    /// Returns the number of bytes taken of the line.
    #[inline(always)]
    pub fn taken(&self) -> u32
        ensures { result ≡ length self.now.piece }
    {
        self.taken
    }

    // Returns the content of the line if these are its last bytes.
    #[inline(always)]
    fn read_body(&mut self, alloc: Global, last: &[u8]) -> Result<Body, AllocError>
        requires { length self.old.piece + length last.now < 2 ^ 32 }
        ensures body { IfOk result (λ body. body ≡ body_of self.old.limit (self.old.piece ++ last.now)) }
        ensures same { self.new ≡ self.old }
    {
        if self.taken + last.len() as u32 > self.limit {
            return Ok(Body::TooLong);
        }
        let mut text = take_spare(alloc, &mut self.spare);
        add_part(&mut text, &self.part)?;
        text.extend_from_slice(last)?;
        drop_cr(&mut text);
        Ok(Body::Text(Bytes::from_vec(text)))
    }

    /// Opens the next line, and returns the number of this one.
    #[inline(always)]
    pub fn pass(&mut self) -> u32
        requires { self.old.number + 1 < 2 ^ 32 }
        ensures number { result ≡ self.old.number }
        ensures next { self.new ≡ record self.old { number = self.old.number + 1; piece = [] } }
    {
        let number = self.number;
        self.part.clear();
        self.taken = 0;
        self.number += 1;
        number
    }

    /// Opens the line that is this many lines further on. No byte of this one was taken.
    #[inline(always)]
    pub fn skip(&mut self, count: u32)
        requires { self.old.number + count < 2 ^ 32 }
        ensures { self.new ≡ record self.old { number = self.old.number + count } }
    {
        self.number += count;
    }

    /// Returns the line that ends with these bytes, and opens the next. If there is no memory, the line stays open.
    #[inline(always)]
    pub fn close(&mut self, alloc: Global, last: &[u8]) -> Result<Line, AllocError>
        requires small { length self.old.piece + length last.now < 2 ^ 32 }
        requires few { self.old.number + 1 < 2 ^ 32 }
        ensures line { IfOk result (λ line. line ≡ numbered_line self.old.limit self.old.number (self.old.piece ++ last.now)) }
        ensures next { OnOk result (self.new ≡ record self.old { number = self.old.number + 1; piece = [] }) }
        ensures err { OnErr result (self.new ≡ self.old) }
    {
        let body = self.read_body(alloc, last)?;
        let number = self.pass();
        Ok(Line { number, body })
    }

    /// Takes more bytes of the line. If the line is then longer than the limit, keeps none of them. If there is no
    /// memory, the line stays as it was.
    pub fn take(&mut self, more: &[u8]) -> Result<(), AllocError>
        requires { length self.old.piece + length more.now < 2 ^ 32 }
        ensures ok { OnOk result (Grows self.old more.now self.new) }
        ensures err { OnErr result (self.new ≡ self.old) }
    {
        keep(&mut self.part, self.limit, self.taken, more)?;
        self.taken += more.len() as u32;
        Ok(())
    }

    /// Keeps memory for a later line.
    pub fn reuse(&mut self, text: Vec<u8>)
        ensures { self.new ≡ self.old }
    {
        self.spare = text;
    }
}
