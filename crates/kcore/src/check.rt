//! The command `check`: the verdict on the levels of a certificate.
ghost use Rattle.std.specs.Prelude.{◌≡◌, ◌++◌, ◌∷◌, [], OnOk};
ghost use Rattle.kc_text.specs.Writing.{Appends, WriteCause};
ghost use Rattle.kc_session.specs.Faults.{FaultCause};
ghost use Rattle.kcore.specs.CheckText.{verdict_line, is_breach};
ghost use Rattle.kcore.specs.private.CheckText.{WritesCheck};

use crate::limits::{INPUT_LIMIT, LINE_LIMIT};
use kc_cert::{CertFault, Certificate, Verdict, read_certificate, verify};
use kc_levels::Thresholds;
use kc_report::write_refusal;
use kc_session::SessionFault;
use kc_text::{LineBuf, LineReader, SendFault, Sink, Source};
use std::alloc::{AllocError, Global};

fn fill_verdict(buf: &mut LineBuf, cert: &Certificate, verdict: Verdict) -> Result<(), AllocError>
    ensures { OnOk result (buf.new ++ 10 ∷ [] ≡ verdict_line cert.now verdict) }
{
    buf.clear();
    match verdict {
        Verdict::Certified => {
            buf.put_named(b"certified vertices ", cert.graph.vertices())?;
            buf.put_named(b" edges ", cert.graph.edge_count())
        }
        Verdict::Upper(v) => buf.put_named(b"upper ", v),
        Verdict::Lower(v) => buf.put_named(b"lower ", v),
    }
}

// Writes the line of a verdict.
fn write_verdict<K: Sink>(
    alloc: Global,
    sink: &mut K,
    cert: &Certificate,
    verdict: Verdict,
) -> Result<(), SendFault>
    ensures text { Appends (K.taken sink.old) (K.taken sink.new) (verdict_line cert.now verdict) result }
    ensures cause { WriteCause (K.faults sink.old) (K.faults sink.new) result }
{
    let mut buf = LineBuf::new(alloc);
    fill_verdict(&mut buf, cert, verdict)?;
    buf.send_to(sink)
}

/// Reads a certificate and writes one line: the verdict on its levels, or at which line it is refused. Returns whether
/// the certificate is refused, or breaks an invariant.
pub fn check_input<S: Source, K: Sink>(
    alloc: Global,
    src: &mut S,
    sink: &mut K,
) -> Result<bool, SessionFault>
    ensures text { WritesCheck (S.left src.old) (K.taken sink.old) (K.taken sink.new) result }
    ensures cause { FaultCause (S.faults src.old) (S.faults src.new) (K.faults sink.old) (K.faults sink.new) result }
{
    let mut lines = LineReader::new(alloc, LINE_LIMIT, INPUT_LIMIT)?;
    match read_certificate(alloc, &mut lines, src) {
        Ok(cert) => {
            let th = Thresholds::new(alloc, cert.profile, cert.graph.vertices())?;
            let verdict = verify(&cert, &th);
            write_verdict(alloc, sink, &cert, verdict)?;
            Ok(is_breach(verdict))
        }
        Err(CertFault::Refused { line, reason }) => {
            write_refusal(&mut LineBuf::new(alloc), sink, line, reason)?;
            Ok(true)
        }
        Err(CertFault::ReadFault) => Err(SessionFault::ReadFault),
        Err(CertFault::Memory(e)) => Err(SessionFault::Memory(e)),
    }
}

// Returns whether the levels break an invariant.
fn is_breach(verdict: Verdict) -> bool
    ensures { result ≡ is_breach verdict }
{
    match verdict {
        Verdict::Certified => false,
        Verdict::Upper(_) | Verdict::Lower(_) => true,
    }
}
