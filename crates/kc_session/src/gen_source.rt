//! A generated load as a source.
ghost use Rattle.std.specs.Prelude.{◌≡◌, ◌<◌, ◌≤◌, ◌++◌, [], length, take, drop, min, Some, IfOk, IsOk};
ghost use Rattle.std.specs.Io.KnownBytes.{prepend_known, IsAtEnd};
ghost use Rattle.arrayvec.specs.ArrayVec.{array_vec_len};
ghost use Rattle.kc_text.specs.Printing.{printed};
ghost use Rattle.kc_session.specs.Generated.{generated, IsLoad};
ghost use Rattle.kc_session.specs.Generating.{words_left};

use crate::generator::{Generator, LINE};
use arrayvec::ArrayVec;
use kc_text::{Failed, Source};
use std::marker::Model;

/// A source of the text of a generated load. It never fails and takes no memory: it makes each line when the line
/// before was read.
///
/// A contract sees it as the bytes that it has left.
#[derive(Drop, Debug)]
pub struct GenSource {
    // Makes the lines after `line`.
    generator: Generator,
    // The line that was made last.
    line: ArrayVec<u8, LINE>,
    // The number of its bytes that were read: at most all.
    at: usize,
}

impl Model for GenSource {
    ghost use Rattle.std.specs.Prelude.{ℕ, List, drop, ◌++◌, ◌≤◌};
    ghost use Rattle.arrayvec.specs.ArrayVec.{array_vec_len};
    ghost use Rattle.kc_text.specs.Printing.{printed};
    ghost use Rattle.kc_session.specs.Generating.{words_left};

    ghost Value = { List ℕ };

    ghost view = { λ g. drop g.at g.line.items ++ printed (words_left g.generator) };

    ghost invariant = { λ g. (g.at ≤ array_vec_len g.line) × (1 ≤ g.generator.n) };
}

// Makes the next line in the place of the line if that was read to its end. Returns how many bytes of the line now
// there were read. These are all of them only if there is no next line.
fn refill(generator: &mut Generator, line: &mut ArrayVec<u8, LINE>, at: usize) -> usize
    requires within { at ≤ array_vec_len line.old }
    requires some { 1 ≤ generator.old.n }
    ensures same { drop at line.old.items ++ printed (words_left generator.old) ≡ drop result line.new.items ++ printed (words_left generator.new) }
    ensures within { result ≤ array_vec_len line.new }
    ensures end { result ≡ array_vec_len line.new → words_left generator.new ≡ [] }
    ensures vertices { generator.new.n ≡ generator.old.n }
{
    if at < line.len() {
        return at;
    }
    generator.make_line(line);
    0
}

// Copies as many of the bytes as the buffer has room for, from the front on, and returns their number.
fn copy_front(bytes: &[u8], buf: &mut [u8]) -> usize
    ensures count { result ≡ min (length bytes.now) (length buf.old) }
    ensures copied { take result buf.new ≡ take result bytes.now }
{
    let count = bytes.len().min(buf.len());
    buf[..count].copy_from_slice(&bytes[..count]);
    count
}

impl GenSource {
    /// Makes a source of the text of a load (`generated`) with two readers.
    ///
    /// The ranges:
    ///
    /// - n, the number of vertices, is 1 to 16,777,216;
    /// - `batches` is 1 to 1,024;
    /// - `items`, the number of items of each batch, is at most 1,048,576, and at most 33,554,432 in all batches
    ///   together.
    ///
    /// The items are drawn from `seed`, and their vertices are below n.
    pub fn new(seed: u32, n: u32, batches: u32, items: u32) -> Self
        requires { IsLoad n batches items }
        ensures { result ≡ generated seed n batches items }
    {
        GenSource {
            generator: Generator::new(seed, n, batches, items),
            line: ArrayVec::new(),
            at: 0,
        }
    }

    // Reads from the rest of the line that was made last, or else from the next line. Returns the number of bytes,
    // which is 0 only at the end.
    fn give(&mut self, buf: &mut [u8]) -> usize
        requires { 0 < length buf.old }
        ensures bound { result ≤ length buf.new }
        ensures given { self.old ≡ take result buf.new ++ self.new }
        ensures end { result ≡ 0 → self.new ≡ [] }
    {
        self.at = refill(&mut self.generator, &mut self.line, self.at);
        let count = copy_front(&self.line[self.at..], buf);
        self.at += count;
        count
    }
}

impl Source for GenSource {
    ghost left = { λ g. Some g };

    ghost faults = { λ _. 0 };

    fn read(&mut self, buf: &mut [u8]) -> Result<usize, Failed>
        requires { 0 < length buf.old }

        // The clauses of the trait.
        ensures bound { IfOk result (λ k. k ≤ length buf.new) }
        ensures given { IfOk result (λ k. Some self.old ≡ prepend_known (take k buf.new) (Some self.new)) }
        ensures end { IfOk result (λ k. k ≡ 0 → IsAtEnd (Some self.new)) }

        // The source never fails.
        ensures ok { IsOk result }
    {
        let mut count = 0;
        loop {
            let more = self.give(&mut buf[count..]);
            count += more;
            if more == 0 || count == buf.len() {
                return Ok(count);
            }
        }
    }
}
