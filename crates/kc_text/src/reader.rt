//! A reader of lines to which a line can be put back.
ghost use Rattle.std.specs.Prelude.{◌≡◌, ℕ, ◌<◌, ◌≤◌, ◌+◌, ◌^◌, [], ◌∷◌, List, Option, None, is_none, ◌&&◌, true, false, IfOk, OnErr, IfSome, IfNone};
ghost use Rattle.std.specs.Option.{option_map};
ghost use Rattle.kc_text.specs.Causes.{ReadCause, OnReadFault};
ghost use Rattle.kc_text.specs.Lines.{lines};

use crate::line::LastLine;
use crate::scanner::Scanner;
use crate::{Body, Bytes, Line, LineFault, NamedNumbers, NumberLine, Source};
use std::alloc::{AllocError, Global};
use std::marker::Model;

/// Cuts the bytes of a source into lines, independent of the pieces in which the bytes come. A line can be put back.
///
/// A contract sees it as a `Reading` of `specs/Reading`. That has the bytes taken from the source and not yet given,
/// and the line that was put back. From these and the bytes left in the source, `lines_left` makes the lines still to
/// give.
#[derive(Drop)]
pub struct LineReader {
    // Has the lines after the held one, unless a last line was put back.
    scanner: Scanner,
    // A last line that was put back and then given. If there is none, the scanner's own last line is the last.
    last: Option<LastLine>,
    // The line that was put back and not yet given.
    held: Option<Line>,
}

impl Model for LineReader {
    ghost use Rattle.kc_text.specs.Reading.{Reading, IsReading};

    ghost Value = { Reading };

    ghost view = { λ r. record { scan = r.scanner; last = r.last; held = r.held } };

    ghost invariant = { λ r. IsReading (record { scan = r.scanner; last = r.last; held = r.held }) };
}

ghost use Rattle.kc_text.specs.private.Reading.{last_after};
ghost use Rattle.kc_text.specs.Reading.{line_of_last};

// Returns the last line that is repeated once this line, put back before, is given.
fn last_after(line: &Line, last: Option<LastLine>) -> Option<LastLine>
    ensures { result ≡ last_after line.now last }
{
    match line.body {
        Body::Limit => Some(LastLine::AtLimit(line.number)),
        Body::End => Some(LastLine::AtEnd(line.number)),
        Body::Text(_) | Body::TooLong => last,
    }
}

fn line_of_last(last: LastLine) -> Line
    ensures { result ≡ line_of_last last }
{
    match last {
        LastLine::AtLimit(number) => Line {
            number,
            body: Body::Limit,
        },
        LastLine::AtEnd(number) => Line {
            number,
            body: Body::End,
        },
    }
}

impl LineReader {
    ghost use Rattle.kc_text.specs.WholeLines.{HasWhole, whole_text, whole_line, OffersLines, AreReady, scan_after};
    ghost use Rattle.kc_text.specs.Words.{words};
    ghost use Rattle.kc_text.specs.NumberLines.{SayNumbers, IsNoNumberLine, SayNamed, IsNoNamedLine};
    ghost use Rattle.kc_text.specs.Printing.{is_word};
    ghost use Rattle.kc_text.specs.Reading.{Reading, lines_of_rest, lines_left, onto, Takes, IsLast, budget, is_decided};

    /// Makes a reader that stands before the first line. A line of more than `line_limit` bytes is too long. At most
    /// `input_limit` bytes are made into lines. Each limit is at most 1,073,741,824.
    ///
    /// Takes memory for a first read of 64 KiB. Fails only if there is none.
    pub fn new(alloc: Global, line_limit: u32, input_limit: u32) -> Result<Self, AllocError>
        requires line { line_limit ≤ 2 ^ 30 }
        requires input { input_limit ≤ 2 ^ 30 }
        ensures lines { IfOk result (λ r. (left : Option (List ℕ)) → lines_left r left ≡ option_map (lines line_limit input_limit) left) }
        ensures held { IfOk result (λ r. r.held ≡ None) }
        ensures budget { IfOk result (λ r. budget r ≡ input_limit) }
    {
        Ok(LineReader {
            scanner: Scanner::new(alloc, line_limit, input_limit)?,
            last: None,
            held: None,
        })
    }

    /// Returns the next of the lines that `lines` in `specs/Lines` makes of the input. That is the line's text, or
    /// `TooLong`. The last is `Limit` or `End`, which each later call returns again. A line that was put back comes
    /// first.
    ///
    /// Reads the source only if the bytes already read don't decide the line. After `ReadFault` or `Memory` no byte is
    /// lost, and the call may be made again. Cost: the bytes of the line, once, and one `Vec` for its text, unless
    /// `reuse` gave one back.
    #[inline(always)]
    pub fn next_line<S: Source>(&mut self, alloc: Global, src: &mut S) -> Result<Line, LineFault>
        ensures line { IfOk result (λ line. lines_left self.old (S.left src.old) ≡ option_map (onto line) (lines_left self.new (S.left src.new))) }
        ensures err { OnErr result (lines_left self.new (S.left src.new) ≡ lines_left self.old (S.left src.old)) }
        ensures cause { ReadCause (S.faults src.old) (S.faults src.new) result }

        // No line is held back after the call.
        ensures held { self.new.held ≡ None }

        // If the bytes already read decide the line, nothing is read. The line is then the same for all bytes that the
        // source may have left.
        ensures unread { is_decided self.old ≡ true → src.new ≡ src.old }
        ensures decided { is_decided self.old ≡ true → IfOk result (λ line. (bs : List ℕ) → lines_of_rest self.old bs ≡ onto line (lines_of_rest self.new bs)) }

        // A read that fails was needed: the bytes read before it don't decide the line.
        ensures open { OnReadFault result (is_decided self.new ≡ false) }

        // After `Limit` and `End` the same line comes again.
        ensures last { IfOk result (λ line. IsLast line.body → lines_left self.new (S.left src.new) ≡ lines_left self.old (S.left src.old)) }
        ensures settled { IfOk result (λ line. IsLast line.body → is_decided self.new ≡ true) }
        ensures again { IfOk result (λ line. IsLast line.body → (bs : List ℕ) → lines_of_rest self.new bs ≡ line ∷ []) }

        // A caller's loop over the lines ends, since each line takes some of the budget.
        ensures takes { IfOk result (λ line. Takes line.body (budget self.old) (budget self.new)) }
        ensures budget { OnErr result (budget self.new ≡ budget self.old) }
    {
        if let Some(line) = self.held.take() {
            self.last = last_after(&line, self.last);
            return Ok(line);
        }
        match self.last {
            Some(last) => Ok(line_of_last(last)),
            None => {
                let line = self.scanner.next_line(alloc, src)?;
                Ok(line)
            }
        }
    }

    // Returns whether no line was put back or is repeated, so that the next line is the scanner's.
    #[inline(always)]
    fn is_scanning(&self) -> bool
        ensures { result ≡ (is_none self.now.held && is_none self.now.last) }
    {
        self.held.is_none() && self.last.is_none()
    }

    /// Returns the next line if it lies whole in the reader's own memory and is two numbers with one blank or tab
    /// between them. A sign and a blank or tab may stand before the numbers. The line lies whole as for `whole_line`.
    ///
    /// Returns None only if there is no such line. `pass_line` takes the line. Cost: one pass over the bytes of the
    /// line, or two if a number has more than 8 digits.
    #[inline(always)]
    pub fn number_line(&self) -> Option<NumberLine>
        ensures whole { IfSome result (λ line. HasWhole line.len self.now) }
        ensures says { IfSome result (λ line. SayNumbers (words (whole_text line.len self.now.scan)) line.sign line.first line.second) }
        ensures none { IfNone result ((len : ℕ) → HasWhole len self.now → IsNoNumberLine (whole_text len self.now.scan)) }
    {
        if !self.is_scanning() {
            return None;
        }
        self.scanner.number_line()
    }

    /// Returns the next line if it lies whole in the reader's own memory and is the name and two numbers. One blank or
    /// tab stands after the name and one between the numbers, as in `edge 12 345` for `edge`. The line lies whole as
    /// for `whole_line`.
    ///
    /// Returns None only if there is no such line. `pass_line` takes the line. Cost: one pass over the bytes of the
    /// line, or two if a number has more than 8 digits. For a line that begins with another word, the bytes of the
    /// name.
    #[inline(always)]
    pub fn numbers_after(&self, name: &[u8]) -> Option<NamedNumbers>
        requires { is_word name.now ≡ true }
        ensures whole { IfSome result (λ line. HasWhole line.len self.now) }
        ensures says { IfSome result (λ line. SayNamed (words (whole_text line.len self.now.scan)) name.now line.first line.second) }
        ensures none { IfNone result ((len : ℕ) → HasWhole len self.now → IsNoNamedLine (whole_text len self.now.scan) name.now) }
    {
        if !self.is_scanning() {
            return None;
        }
        self.scanner.numbers_after(name)
    }

    /// Returns the text of the next line, and its length counting a carriage return at its end. The line lies whole in
    /// the reader's own memory, isn't too long and is within the input's limit, so nothing is read or copied.
    ///
    /// Returns None exactly if there is no such line; `next_line` returns the next line then. `pass_line` takes the
    /// line. Cost: the bytes of the line, once.
    #[inline(always)]
    pub fn whole_line(&self) -> Option<(&[u8], usize)>
        ensures whole { IfSome result (λ r. HasWhole r.1 self.now) }
        ensures text { IfSome result (λ r. r.0.now ≡ whole_text r.1 self.now.scan) }
        ensures none { IfNone result ((len : ℕ) → HasWhole len self.now → ⊥) }
    {
        if !self.is_scanning() {
            return None;
        }
        self.scanner.whole_line()
    }

    /// Takes the line that `number_line`, `numbers_after` or `whole_line` returned, by its length, and returns its
    /// number. Takes no memory, and reads nothing.
    #[inline(always)]
    pub fn pass_line(&mut self, len: usize) -> u32
        requires whole { HasWhole len self.old }
        ensures line { (left : Option (List ℕ)) → lines_left self.old left ≡ option_map (onto (whole_line result len self.old.scan)) (lines_left self.new left) }
        ensures takes { budget self.new < budget self.old }
        ensures held { self.new.held ≡ None }
    {
        self.scanner.pass_line(len)
    }

    /// Returns the bytes in the reader's own memory, up to the input's limit. The first of them begins the next line.
    ///
    /// Returns None exactly if a line was put back or is repeated, or if the next line has begun before these bytes.
    /// `pass_lines` takes whole lines of them. Cost: constant.
    #[inline(always)]
    pub fn ready_lines(&self) -> Option<&[u8]>
        ensures some { IfSome result (λ bytes. OffersLines bytes.now self.now) }
        ensures none { IfNone result ((bytes : List ℕ) → OffersLines bytes self.now → ⊥) }
    {
        if !self.is_scanning() {
            return None;
        }
        self.scanner.ready_lines()
    }

    /// Returns the most bytes of a line, as `new` was given it.
    #[inline(always)]
    pub fn line_limit(&self) -> u32
        ensures { result ≡ self.now.scan.limit }
    {
        self.scanner.line_limit()
    }

    /// Takes the first `len` of the bytes that `ready_lines` returned, as `count` lines. The caller has counted them:
    /// the call looks at no byte, and asks only that `count` is at most `len`. Takes no memory, and reads nothing.
    /// Cost: constant.
    #[inline(always)]
    pub fn pass_lines(&mut self, len: usize, count: usize)
        requires held { self.old.held ≡ None }
        requires ready { AreReady len count self.old.scan }
        ensures { self.new ≡ record self.old { scan = scan_after len count self.old.scan } }
    {
        self.scanner.pass_lines(len, count);
    }

    /// Does nothing. Evidence for proofs: the budget of each reader is bounded.
    #[inline(always)]
    pub fn has_budget(&self)
        ensures budget { budget self.now ≤ 2 ^ 30 + 1 }
    {
        let _ = self.held.is_some();
    }

    /// Takes a line back: the next call of `next_line` returns it. No other line is held back. Takes no memory.
    pub fn put_back(&mut self, line: Line)
        requires { self.old.held ≡ None }
        ensures lines { (bs : List ℕ) → lines_of_rest self.new bs ≡ onto line (lines_of_rest self.old bs) }
        ensures left { (left : Option (List ℕ)) → lines_left self.new left ≡ option_map (onto line) (lines_left self.old left) }
        ensures budget { budget self.new ≡ budget self.old + 1 }
        ensures decided { is_decided self.new ≡ true }
    {
        self.held = Some(line);
    }

    /// Takes the memory of a used line. The next text is put there, and allocates nothing if it fits. Nothing else
    /// changes.
    pub fn reuse(&mut self, text: Bytes)
        ensures { self.new ≡ self.old }
    {
        self.scanner.reuse(text.into_vec());
    }
}
