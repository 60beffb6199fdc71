//! The command `final`: the certificate of the graph and the levels after the batches of an input.
ghost use Rattle.kcore.specs.FinalText.{IsFinal};

use crate::documents::{Document, LastState};
use kc_cert::write_certificate;
use kc_text::{SendFault, Sink};
use std::alloc::Global;

/// The document of `final`: the certificate of the graph and the levels.
pub struct Final;

impl Document for Final {
    ghost is_document = { IsFinal };

    fn write<K: Sink>(alloc: Global, last: &LastState<'_>, sink: &mut K) -> Result<(), SendFault> {
        let engine = last.engine;
        write_certificate(alloc, sink, last.profile, engine.graph(), engine.levels())
    }

    fn has_documents() {}
}
