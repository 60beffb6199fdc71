//! Reading of a run text, line by line, into what an audit needs, or up to its first line that doesn't fit.
ghost use Rattle.std.specs.Prelude.{IfOk};
ghost use Rattle.kc_text.specs.Causes.{DocumentCause};
ghost use Rattle.kc_text.specs.Kept.{kept_left};
ghost use Rattle.kc_audit.specs.declared.stage.Stage.TheVariants.{Batches};
ghost use Rattle.kc_audit.specs.Documents.{first_place, read_from, document_of};
ghost use Rattle.kc_audit.specs.Reads.{Answers};
ghost use Rattle.kc_audit.specs.Runs.{IsAuditable};

use crate::RunText;
use crate::form::{FormLine, form_of};
use crate::stage::{Draft, PhasesLeft, Place, Stage, Turn, head_of, turn_at, vertices_of};
use kc_text::{DocumentFault, LineReader, Source, give_back, next_kept, text_of};
use std::alloc::Global;

/// Why there is no run text.
pub type AuditFault = DocumentFault;

// Reads the lines after `vertices N` into a draft, which has none of them yet.
fn read_lines<S: Source>(
    reader: &mut LineReader,
    src: &mut S,
    draft: Draft,
) -> Result<RunText, AuditFault>
    requires { IsAuditable draft.run }
    ensures document { Answers (read_from draft.run (Batches first_place)) (kept_left reader.old (S.left src.old)) result }
    ensures sound { IfOk result IsAuditable }
    ensures cause { DocumentCause (S.faults src.old) (S.faults src.new) result }
{
    let mut draft = draft;
    let alloc = draft.alloc;
    let mut stage = Stage::Batches(Place {
        batch: 0,
        phase: 0,
        left: PhasesLeft::NoPhase,
    });
    loop {
        let line = next_kept(alloc, reader, src)?;
        let number = line.number;
        let form = form_of(&line);
        let text = text_of(&line);
        match turn_at(&mut draft, stage, &FormLine { form, text })? {
            Turn::Go(next) => stage = next,
            Turn::End => return Ok(draft.run),
            Turn::Stop(reason) => {
                return Err(AuditFault::Refused {
                    line: number,
                    reason,
                });
            }
        }
        give_back(reader, line);
    }
}

/// Reads a run text up to the end of the input, as `document_of` of `specs/Documents` defines. Its lines are, in this
/// order:
///
/// - `kcore-run 1` and `vertices N`;
/// - the lines of the batches with their phases and groups;
/// - a line for each reader, one for each vertex, and `end`.
///
/// Empty lines and comments are skipped anywhere. The run has the group lines and the replies. Of the other numbers
/// only those are checked that count batches, phases, readers and vertices. Whatever the source has, the run can be
/// audited (`IsAuditable` of `specs/Runs`).
///
/// Fails with one of three faults. After each the reader isn't used again, since lines of the text are gone.
///
/// - `Refused`: the first line that doesn't fit, with its reason. `BadVertex` is for a group or a reader line that
///   would fit if all its vertices were below N.
/// - `ReadFault`: a read failed. It comes only if the source's count of faults rose.
/// - `Memory`: no memory for a line, a group or the replies of a reader.
///
/// Cost: one pass over the bytes, and memory for the longest line, which is used again. Each group takes 16 bytes, and
/// each member and each reply 8.
pub fn read_run<S: Source>(
    alloc: Global,
    reader: &mut LineReader,
    src: &mut S,
) -> Result<RunText, AuditFault>
    ensures document { Answers document_of (kept_left reader.old (S.left src.old)) result }
    ensures sound { IfOk result IsAuditable }
    ensures cause { DocumentCause (S.faults src.old) (S.faults src.new) result }
{
    let first = next_kept(alloc, reader, src)?;
    let line = first.number;
    if let Err(reason) = head_of(form_of(&first)) {
        return Err(AuditFault::Refused { line, reason });
    }
    let second = next_kept(alloc, reader, src)?;
    let line = second.number;
    match vertices_of(form_of(&second)) {
        Ok(n) => read_lines(reader, src, Draft::new(alloc, n)),
        Err(reason) => Err(AuditFault::Refused { line, reason }),
    }
}
