//! The command `audit`: whether the groups of a run text explain its readers.
ghost use Rattle.std.specs.Prelude.{◌≡◌, ◌++◌, ◌∷◌, [], OnOk};
ghost use Rattle.kc_text.specs.Writing.{Appends, WriteCause};
ghost use Rattle.kc_session.specs.Faults.{FaultCause};
ghost use Rattle.kcore.specs.AuditText.{verdict_line, is_unexplained};
ghost use Rattle.kcore.specs.private.AuditText.{WritesAudit};

use crate::limits::{INPUT_LIMIT, RUN_LINE_LIMIT};
use kc_audit::{AuditFault, AuditVerdict, audit, read_run};
use kc_report::write_refusal;
use kc_session::SessionFault;
use kc_text::{LineBuf, LineReader, SendFault, Sink, Source};
use std::alloc::{AllocError, Global};

fn fill_verdict(buf: &mut LineBuf, verdict: AuditVerdict) -> Result<(), AllocError>
    ensures { OnOk result (buf.new ++ 10 ∷ [] ≡ verdict_line verdict) }
{
    buf.clear();
    match verdict {
        AuditVerdict::Explained => buf.put(b"explained"),
        AuditVerdict::Unexplained { reader, ask } => {
            buf.put_named(b"unexplained reader ", reader)?;
            buf.put_named(b" ask ", ask)
        }
    }
}

// Writes the line of a verdict.
fn write_verdict<K: Sink>(
    alloc: Global,
    sink: &mut K,
    verdict: AuditVerdict,
) -> Result<(), SendFault>
    ensures text { Appends (K.taken sink.old) (K.taken sink.new) (verdict_line verdict) result }
    ensures cause { WriteCause (K.faults sink.old) (K.faults sink.new) result }
{
    let mut buf = LineBuf::new(alloc);
    fill_verdict(&mut buf, verdict)?;
    buf.send_to(sink)
}

/// Reads a run text and writes one line: whether its groups explain its readers, or at which line it is refused.
/// Returns whether the text is refused, or a reader isn't explained.
pub fn audit_input<S: Source, K: Sink>(
    alloc: Global,
    src: &mut S,
    sink: &mut K,
) -> Result<bool, SessionFault>
    ensures text { WritesAudit (S.left src.old) (K.taken sink.old) (K.taken sink.new) result }
    ensures cause { FaultCause (S.faults src.old) (S.faults src.new) (K.faults sink.old) (K.faults sink.new) result }
{
    let mut lines = LineReader::new(alloc, RUN_LINE_LIMIT, INPUT_LIMIT)?;
    match read_run(alloc, &mut lines, src) {
        Ok(run) => {
            let verdict = audit(alloc, &run)?;
            write_verdict(alloc, sink, verdict)?;
            Ok(is_unexplained(verdict))
        }
        Err(AuditFault::Refused { line, reason }) => {
            write_refusal(&mut LineBuf::new(alloc), sink, line, reason)?;
            Ok(true)
        }
        Err(AuditFault::ReadFault) => Err(SessionFault::ReadFault),
        Err(AuditFault::Memory(e)) => Err(SessionFault::Memory(e)),
    }
}

// Returns whether the replies of some reader aren't explained.
fn is_unexplained(verdict: AuditVerdict) -> bool
    ensures { result ≡ is_unexplained verdict }
{
    match verdict {
        AuditVerdict::Explained => false,
        AuditVerdict::Unexplained { .. } => true,
    }
}
