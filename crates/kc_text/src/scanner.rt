//! Cutting of bytes into lines, in whatever pieces the bytes come.
ghost use Rattle.std.specs.Prelude.{◌≡◌, ℕ, ◌<◌, ◌≤◌, ◌+◌, ◌^◌, [], ◌∷◌, ◌++◌, List, length, Option, true, false, IfOk, OnOk, OnErr, IfSome, IfNone, IsSome};
ghost use Rattle.kc_text.specs.Causes.{Rose, ReadCause, OnReadFault};
ghost use Rattle.kc_text.specs.Lines.{without_cr, lines};

use crate::number_line::{number_line, numbers_after};
use crate::open_line::OpenLine;
use crate::window::Window;
use crate::{Body, Failed, Line, LineFault, NamedNumbers, NumberLine, Source};
use memchr::memchr;
use std::alloc::{AllocError, Global};
use std::marker::Model;

/// Cuts the bytes of a source into lines, and gives each line once.
///
/// A contract sees it as a `Scan` of `specs/Scanning`: the limits, and the bytes taken from the source and not yet
/// given. From these and the bytes left in the source, `scan_lines_left` makes the lines still to give.
#[derive(Drop)]
pub struct Scanner {
    // The bytes that were read and not yet taken into a line.
    window: Window,
    // The line after the bytes that were given. Its limit is at most 2^30, and so are all numbers of lines.
    line: OpenLine,
    // The number of bytes that may still be taken before the input limit.
    room: u32,
    // Whether the source has ended. If it has, the window is empty.
    ended: bool,
}

impl Model for Scanner {
    ghost use Rattle.kc_text.specs.Scanning.{Scan};

    ghost Value = { Scan };

    ghost use Rattle.kc_text.specs.private.ScannerState.{scan_of, IsSound};

    ghost view = { scan_of };

    ghost invariant = { IsSound };
}

// Returns the bytes without a carriage return at the end.
#[inline(always)]
fn strip_cr(bytes: &[u8]) -> &[u8]
    ensures { result.now ≡ without_cr bytes.now }
{
    if let Some(b'\r') = bytes.last() {
        &bytes[..bytes.len() - 1]
    } else {
        bytes
    }
}

impl Scanner {
    ghost use Rattle.kc_text.specs.Following.{onto, Takes, IsLast};
    ghost use Rattle.kc_text.specs.Scanning.{Scan, scan_lines, scan_budget, is_scan_decided};
    ghost use Rattle.kc_text.specs.WholeLines.{IsWhole, whole_text, whole_line, Offers, AreReady, scan_after};
    ghost use Rattle.kc_text.specs.Words.{words};
    ghost use Rattle.kc_text.specs.NumberLines.{SayNumbers, IsNoNumberLine, SayNamed, IsNoNamedLine};
    ghost use Rattle.kc_text.specs.Printing.{is_word};
    ghost use Rattle.kc_text.specs.private.WholeLines.{Lends};
    ghost use Rattle.kc_text.specs.private.Scanning.{scan_lines_left};
    ghost use Rattle.kc_text.specs.private.ScannerSteps.{work, Gives, Absorbs};
    ghost use Rattle.std.specs.Option.{option_map};

    /// Makes a scanner that stands before the first line. Both limits are at most 2^30.
    ///
    /// Takes memory for a first read of 64 KiB. Fails only if there is none.
    pub fn new(alloc: Global, line_limit: u32, input_limit: u32) -> Result<Self, AllocError>
        requires line { line_limit ≤ 2 ^ 30 }
        requires input { input_limit ≤ 2 ^ 30 }
        ensures lines { IfOk result (λ r. (left : Option (List ℕ)) → scan_lines_left r left ≡ option_map (lines line_limit input_limit) left) }
        ensures budget { IfOk result (λ r. scan_budget r ≡ input_limit) }
    {
        Ok(Scanner {
            window: Window::new(alloc)?,
            line: OpenLine::new(alloc, line_limit),
            room: input_limit,
            ended: false,
        })
    }

    // Returns the next line if the bytes that were read decide it. Otherwise takes all of them into the open line.
    fn look(&mut self, alloc: Global) -> Result<Option<Line>, AllocError>
        ensures line { IfOk result (λ found. IfSome found (λ line. Gives line self.old self.new)) }
        ensures none { IfOk result (λ found. IfNone found (Absorbs self.old self.new)) }
        ensures err { OnErr result (self.new ≡ self.old) }
    {
        let ready = self.window.ready();
        let within = ready.len().min(self.room as usize);
        if let Some(at) = memchr(b'\n', &ready[..within]) {
            let line = self.line.close(alloc, &ready[..at])?;
            self.window.pass(at + 1);
            self.room -= at as u32 + 1;
            return Ok(Some(line));
        }
        if within < ready.len() {
            return Ok(Some(Line {
                number: self.line.number(),
                body: Body::Limit,
            }));
        }
        if self.ended {
            return self.finish(alloc);
        }
        self.line.take(ready)?;
        self.room -= within as u32;
        self.window.clear();
        Ok(None)
    }

    // Returns the last line if it has no line feed, or else the end. The source has ended.
    fn finish(&mut self, alloc: Global) -> Result<Option<Line>, AllocError>
        requires ended { self.old.ended ≡ true }
        ensures line { IfOk result (λ found. IfSome found (λ line. Gives line self.old self.new)) }
        ensures some { IfOk result (λ found. IsSome found) }
        ensures err { OnErr result (self.new ≡ self.old) }
    {
        if self.line.taken() == 0 {
            return Ok(Some(Line {
                number: self.line.number(),
                body: Body::End,
            }));
        }
        let line = self.line.close(alloc, &[])?;
        Ok(Some(line))
    }

    // Returns the bytes to search for the next line's end. These are the bytes that were read, cut to the length of the
    // longest line with its line feed. If the open line has begun before them, there are none.
    #[inline(always)]
    fn ahead(&self) -> &[u8]
        ensures { Lends result.now self.now }
    {
        let ready = self.window.ready();
        if self.line.taken() > 0 {
            return &ready[..0];
        }
        let room = self.room as usize;
        let most = ready.len().min(room).min(self.line.limit() as usize + 1);
        &ready[..most]
    }

    /// Returns the next line if it lies whole among the bytes that were read and is two numbers with one blank between
    /// them. A sign and a blank may stand before the numbers.
    #[inline(always)]
    pub fn number_line(&self) -> Option<NumberLine>
        ensures whole { IfSome result (λ line. IsWhole line.len self.now) }
        ensures says { IfSome result (λ line. SayNumbers (words (whole_text line.len self.now)) line.sign line.first line.second) }
        ensures none { IfNone result ((len : ℕ) → IsWhole len self.now → IsNoNumberLine (whole_text len self.now)) }
    {
        number_line(self.ahead())
    }

    /// Returns the next line if it lies whole among the bytes that were read and is the name and two numbers. One blank
    /// stands after the name and one between the numbers.
    #[inline(always)]
    pub fn numbers_after(&self, name: &[u8]) -> Option<NamedNumbers>
        requires { is_word name.now ≡ true }
        ensures whole { IfSome result (λ line. IsWhole line.len self.now) }
        ensures says { IfSome result (λ line. SayNamed (words (whole_text line.len self.now)) name.now line.first line.second) }
        ensures none { IfNone result ((len : ℕ) → IsWhole len self.now → IsNoNamedLine (whole_text len self.now) name.now) }
    {
        numbers_after(self.ahead(), name)
    }

    /// Returns the text of the next line if it lies whole among the bytes that were read. With the text comes its
    /// length, counting a carriage return.
    #[inline(always)]
    pub fn whole_line(&self) -> Option<(&[u8], usize)>
        ensures whole { IfSome result (λ r. IsWhole r.1 self.now) }
        ensures text { IfSome result (λ r. r.0.now ≡ whole_text r.1 self.now) }
        ensures none { IfNone result ((len : ℕ) → IsWhole len self.now → ⊥) }
    {
        let ahead = self.ahead();
        let Some(at) = memchr(b'\n', ahead) else {
            return None;
        };
        Some((strip_cr(&ahead[..at]), at))
    }

    /// Takes the line of this length, which lies whole among the bytes that were read, and returns its number.
    #[inline(always)]
    pub fn pass_line(&mut self, len: usize) -> u32
        requires whole { IsWhole len self.old }
        ensures gives { Gives (whole_line result len self.old) self.old self.new }
    {
        let number = self.line.pass();
        self.window.pass(len + 1);
        self.room -= len as u32 + 1;
        number
    }

    /// Returns the bytes that were read, up to the input limit. Returns None if the next line has begun before them.
    #[inline(always)]
    pub fn ready_lines(&self) -> Option<&[u8]>
        ensures some { IfSome result (λ bytes. Offers bytes.now self.now) }
        ensures none { IfNone result ((bytes : List ℕ) → Offers bytes self.now → ⊥) }
    {
        if self.line.taken() > 0 {
            return None;
        }
        let ready = self.window.ready();
        Some(&ready[..(self.room as usize).min(ready.len())])
    }

    /// Returns the most bytes of a line.
    #[inline(always)]
    pub fn line_limit(&self) -> u32
        ensures { result ≡ self.now.limit }
    {
        self.line.limit()
    }

    /// Takes the first `len` of the bytes that `ready_lines` returned, as `count` lines.
    #[inline(always)]
    pub fn pass_lines(&mut self, len: usize, count: usize)
        requires { AreReady len count self.old }
        ensures { self.new ≡ scan_after len count self.old }
    {
        self.line.skip(count as u32);
        self.window.pass(len);
        self.room -= len as u32;
    }

    /// Keeps memory for a later line.
    pub fn reuse(&mut self, text: Vec<u8>)
        ensures { self.new ≡ self.old }
    {
        self.line.reuse(text);
    }

    // Reads once. No byte is ready, and the source hasn't ended.
    fn fill<S: Source>(&mut self, alloc: Global, src: &mut S) -> Result<(), Failed>
        requires ready { self.old.ready ≡ [] }
        requires ended { self.old.ended ≡ false }
        ensures same { scan_lines_left self.new (S.left src.new) ≡ scan_lines_left self.old (S.left src.old) }
        ensures still { OnErr result (self.new ≡ self.old) }
        ensures work { OnOk result (work self.new < work self.old) }
        ensures budget { scan_budget self.new ≡ scan_budget self.old }
        ensures cause { OnErr result (Rose (S.faults src.old) (S.faults src.new)) }
        ensures quiet { OnOk result (S.faults src.new ≡ S.faults src.old) }
    {
        self.window.fill(alloc, src)?;
        if self.window.ready().is_empty() {
            self.ended = true;
        }
        Ok(())
    }

    /// Returns the next line. After `ReadFault` or `Memory` no byte is lost.
    pub fn next_line<S: Source>(&mut self, alloc: Global, src: &mut S) -> Result<Line, LineFault>
        ensures line { IfOk result (λ line. scan_lines_left self.old (S.left src.old) ≡ option_map (onto line) (scan_lines_left self.new (S.left src.new))) }
        ensures err { OnErr result (scan_lines_left self.new (S.left src.new) ≡ scan_lines_left self.old (S.left src.old)) }
        ensures cause { ReadCause (S.faults src.old) (S.faults src.new) result }

        // If the bytes already read decide the line, nothing is read. The line is then the same for all bytes that the
        // source may have left.
        ensures unread { is_scan_decided self.old ≡ true → src.new ≡ src.old }
        ensures decided { is_scan_decided self.old ≡ true → IfOk result (λ line. (bs : List ℕ) → scan_lines self.old bs ≡ onto line (scan_lines self.new bs)) }

        // A read that fails was needed: the bytes read before it don't decide the line.
        ensures open { OnReadFault result (is_scan_decided self.new ≡ false) }

        // After `Limit` and `End` the same line comes again.
        ensures last { IfOk result (λ line. IsLast line.body → scan_lines_left self.new (S.left src.new) ≡ scan_lines_left self.old (S.left src.old)) }
        ensures settled { IfOk result (λ line. IsLast line.body → is_scan_decided self.new ≡ true) }
        ensures again { IfOk result (λ line. IsLast line.body → (bs : List ℕ) → scan_lines self.new bs ≡ line ∷ []) }

        // A caller's loop over the lines ends, since each line takes some of the budget.
        ensures takes { IfOk result (λ line. Takes line.body (scan_budget self.old) (scan_budget self.new)) }
        ensures budget { OnErr result (scan_budget self.new ≡ scan_budget self.old) }
    {
        loop {
            match self.look(alloc) {
                Ok(Some(line)) => return Ok(line),
                Ok(None) => {}
                Err(e) => return Err(LineFault::Memory(e)),
            }
            if self.fill(alloc, src).is_err() {
                return Err(LineFault::ReadFault);
            }
        }
    }
}
