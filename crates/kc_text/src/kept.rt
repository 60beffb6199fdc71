//! The lines of an input that aren't skipped.
ghost use Rattle.std.specs.Prelude.{◌≡◌, false, None, IfOk, OnErr};
ghost use Rattle.std.specs.Option.{option_map};
ghost use Rattle.kc_text.specs.Causes.{ReadCause};
ghost use Rattle.kc_text.specs.Reading.{budget, onto, Takes};
ghost use Rattle.kc_text.specs.Kept.{is_skipped, text_of, kept_left};

use crate::{Body, Line, LineFault, LineReader, Source, word};
use std::alloc::Global;

// Returns whether the line is skipped: it is blank or a comment. A line that is too long is never skipped.
fn is_skipped(line: &Line) -> bool
    ensures { result ≡ is_skipped line.now.body }
{
    match &line.body {
        Body::Text(text) => word::is_skipped(text.as_slice()),
        Body::TooLong | Body::Limit | Body::End => false,
    }
}

/// Returns the bytes of a line; none if the line is too long or the input ends.
pub fn text_of(line: &Line) -> &[u8]
    ensures { result.now ≡ text_of line.now.body }
{
    match &line.body {
        Body::Text(text) => text.as_slice(),
        Body::TooLong | Body::Limit | Body::End => &[],
    }
}

/// Gives the memory of a used line back to the reader, for the next line.
pub fn give_back(reader: &mut LineReader, line: Line)
    ensures { reader.new ≡ reader.old }
{
    if let Body::Text(text) = line.body {
        reader.reuse(text);
    }
}

/// Returns the next line that isn't skipped, or how the input ends.
///
/// The errors are those of `next_line`. After an error skipped lines may be gone, and no other line is; the call may be
/// made again. Cost: that of `next_line` for each line up to this one, and the bytes of the first word of each line
/// once more.
pub fn next_kept<S: Source>(
    alloc: Global,
    reader: &mut LineReader,
    src: &mut S,
) -> Result<Line, LineFault>
    ensures line { IfOk result (λ line. kept_left reader.old (S.left src.old) ≡ option_map (onto line) (kept_left reader.new (S.left src.new))) }
    ensures kept { IfOk result (λ line. is_skipped line.body ≡ false) }
    ensures err { OnErr result (kept_left reader.new (S.left src.new) ≡ kept_left reader.old (S.left src.old)) }
    ensures held { reader.new.held ≡ None }
    ensures takes { IfOk result (λ line. Takes line.body (budget reader.old) (budget reader.new)) }
    ensures cause { ReadCause (S.faults src.old) (S.faults src.new) result }
{
    loop {
        let line = reader.next_line(alloc, src)?;
        if !is_skipped(&line) {
            return Ok(line);
        }
        give_back(reader, line);
    }
}
