//! What holds of certificates and verdicts. Each function does nothing: its contract is the law.
ghost use Rattle.kc_cert.specs.Laws.{CertificateIsReadBack, HasVerdict, VerdictIsOne, VerdictIsCertified, ReadsCertificates};

use kc_levels::laws::thresholds_fit;

/// A certificate within the limits is read back from its text as itself, after any skipped lines.
#[tactic(auto, using(crate::proofs::ReadBack::certificate_back))]
pub fn certificate_is_read_back()
    ensures { CertificateIsReadBack }
{}

/// A certificate, and an example of each reason for a refusal.
pub fn certificates_read()
    ensures { ReadsCertificates }
{}

/// Each certificate has a verdict, and those within the limits exactly one. It is `Certified` if both invariants hold.
#[tactic(auto, using(crate::proofs::SomeVerdict::has_verdict, crate::proofs::OneVerdict::one_verdict, crate::proofs::SomeVerdict::verdict_is_certified))]
pub fn certificate_has_verdict()
    ensures some { HasVerdict }
    ensures one { VerdictIsOne }
    ensures certified { VerdictIsCertified }
{
    // No vertex breaks both invariants.
    thresholds_fit();
}
