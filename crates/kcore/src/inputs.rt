//! The beginning of a batch input: its header.
ghost use Rattle.std.specs.Option.{option_map};
ghost use Rattle.kc_session.specs.Faults.{FaultCause};
ghost use Rattle.kcore.specs.Inputs.{input_said};
ghost use Rattle.kcore.specs.private.Opening.{OpensInput};

use crate::limits::{INPUT_LIMIT, LINE_LIMIT};
use kc_batch::{Header, HeaderFault};
use kc_report::write_header_refused;
use kc_session::SessionFault;
use kc_text::{LineBuf, LineReader, Sink, Source};
use std::alloc::Global;

/// Reads the header of a batch input, and returns it with the lines after it. If the header is refused, writes its line
/// and returns None.
pub fn open_input<S: Source, K: Sink>(
    alloc: Global,
    src: &mut S,
    sink: &mut K,
) -> Result<Option<(Header, LineReader)>, SessionFault>
    ensures text { OpensInput (option_map input_said (S.left src.old)) (S.left src.new) (K.taken sink.old) (K.taken sink.new) result }
    ensures cause { FaultCause (S.faults src.old) (S.faults src.new) (K.faults sink.old) (K.faults sink.new) result }
{
    let mut lines = LineReader::new(alloc, LINE_LIMIT, INPUT_LIMIT)?;
    match Header::read(alloc, &mut lines, src) {
        Ok(header) => Ok(Some((header, lines))),
        Err(HeaderFault::Refused { line }) => {
            write_header_refused(&mut LineBuf::new(alloc), sink, line)?;
            Ok(None)
        }
        Err(HeaderFault::ReadFault) => Err(SessionFault::ReadFault),
        Err(HeaderFault::Memory(e)) => Err(SessionFault::Memory(e)),
    }
}
