//! The first two lines of an input.
ghost use Rattle.std.specs.Prelude.{◌≡◌, false, IfOk};
ghost use Rattle.std.specs.Option.{option_map};
ghost use Rattle.kc_text.specs.Causes.{ReadCause};
ghost use Rattle.kc_text.specs.Words.{words};
ghost use Rattle.kc_text.specs.Kept.{kept_left};
ghost use Rattle.kserve.specs.Inputs.{is_magic, input_from, after_magic, after_head};
ghost use Rattle.kserve.specs.private.Inputs.{HasRange};

use kc_batch::vertices_in;
use kc_text::{LineFault, LineReader, Source, is_named, next_kept, next_word, text_of};
use std::alloc::Global;

/// What the first two lines of an input say.
#[derive(Clone, Copy, Debug, PartialEq, Eq)]
pub enum Head {
    /// The number of vertices, 1 to `MAX_VERTICES`.
    Vertices(u32),
    /// The line that doesn't have its form.
    Refused { line: u32 },
}

// Whether a line is `kserve 1`.
#[tactic(auto, unfolding(crate::specs::Inputs::is_magic))]
fn is_magic(text: &[u8]) -> bool
    ensures { result ≡ is_magic (words text.now) }
{
    let Some((start, end)) = next_word(text, 0) else {
        return false;
    };
    let name = &text[start..end];
    let Some((start, end)) = next_word(text, end) else {
        return false;
    };
    let version = &text[start..end];
    next_word(text, end).is_none() && is_named(name, b"kserve") && is_named(version, b"1")
}

/// Reads the lines `kserve 1` and `vertices N`, as `input_from` of `specs/Inputs` says. Afterwards `lines` stands after
/// them.
///
/// `Refused` has the first of the two that doesn't have its form, or the number of the `End` or `Limit` in its place.
/// `ReadFault` comes only if the source's count of faults rose. After a fault, and after a refused line, `lines` isn't
/// used again.
pub fn read_head<S: Source>(
    alloc: Global,
    lines: &mut LineReader,
    src: &mut S,
) -> Result<Head, LineFault>
    ensures head { IfOk result (λ head. option_map input_from (kept_left lines.old (S.left src.old)) ≡ option_map (after_head head) (kept_left lines.new (S.left src.new))) }
    ensures range { IfOk result HasRange }
    ensures cause { ReadCause (S.faults src.old) (S.faults src.new) result }
{
    let first = next_kept(alloc, lines, src)?;
    if !is_magic(text_of(&first)) {
        return Ok(Head::Refused { line: first.number });
    }
    let second = next_kept(alloc, lines, src)?;
    match vertices_in(text_of(&second)) {
        Some(n) => Ok(Head::Vertices(n)),
        None => Ok(Head::Refused {
            line: second.number,
        }),
    }
}
