//! Commands that apply the batches of an input, and then write a document of the graph and the levels after them.
ghost use Rattle.std.specs.Prelude.{List, ℕ, Option};
ghost use Rattle.std.specs.Option.{option_map};
ghost use Rattle.kc_text.specs.Writing.{WriteCause};
ghost use Rattle.kc_engine.specs.States.{State};
ghost use Rattle.kc_session.specs.Faults.{FaultCause};
ghost use Rattle.kcore.specs.Inputs.{input_said};
ghost use Rattle.kcore.specs.InputTexts.{IsTextOf};
ghost use Rattle.kcore.specs.Documents.{EndsInDocument};
ghost use Rattle.kcore.specs.private.Documents.{HasDocuments, WritesDocument};
ghost use Rattle.kcore.specs.private.Writing.{Writes};

mod dense;
mod exact;
mod final_text;
mod orient;

use crate::inputs::open_input;
pub use dense::Dense;
pub use exact::Exact;
pub use final_text::Final;
use kc_engine::Engine;
use kc_levels::Profile;
use kc_rounds::{Gate, Rounds};
use kc_session::{SessionFault, settle};
use kc_text::{SendFault, Sink, Source};
pub use orient::Orient;
use std::alloc::Global;
use std::marker::Model;
use std::thread::Threads;

/// The state after the batches of an input. Contracts see it as a `State`, which is sound.
#[derive(Drop)]
pub struct LastState<'a> {
    // The engine after the batches, which hasn't halted.
    engine: &'a Engine,
    // The profile of the thresholds of its levels.
    profile: Profile,
}

impl<'a> Model for LastState<'a> {
    ghost use Rattle.kc_engine.specs.States.{State};
    ghost use Rattle.kcore.specs.private.Documents.{IsLast};

    ghost Value = { State };

    ghost view = { λ s. s.engine.now.state };

    ghost invariant = { λ s. IsLast s.profile s.engine.now };
}

/// A document of a graph and its levels.
pub trait Document {
    // The documents of a state.
    ghost is_document: { State → List ℕ → Type 0 };

    /// Writes the document of a state.
    fn write<K: Sink>(alloc: Global, last: &LastState<'_>, sink: &mut K) -> Result<(), SendFault>
        ensures text { WritesDocument is_document last.now (K.taken sink.old) (K.taken sink.new) result }
        ensures cause { WriteCause (K.faults sink.old) (K.faults sink.new) result };

    /// Does nothing. Its contract is a law: each state has a document.
    fn has_documents()
        ensures { HasDocuments is_document };
}

/// Reads a batch input and applies its batches one after another. Asks aren't put. Writes a note of each refused batch,
/// and then the document of the state after the batches. Returns whether something was refused.
pub fn settle_input<D: Document, R: Threads + Sync, S: Source, K: Sink, G: Gate + Sync>(
    rounds: &Rounds<'_, R, G>,
    src: &mut S,
    sink: &mut K,
) -> Result<bool, SessionFault>
    ensures text { Writes (IsTextOf (EndsInDocument D.is_document)) (option_map input_said (S.left src.old)) (K.taken sink.old) (K.taken sink.new) result }
    ensures cause { FaultCause (S.faults src.old) (S.faults src.new) (K.faults sink.old) (K.faults sink.new) result }
{
    D::has_documents();
    let alloc = rounds.alloc();
    let Some((header, lines)) = open_input(alloc, src, sink)? else {
        return Ok(true);
    };
    let profile = header.profile;
    let settled = settle(
        rounds.runtime(),
        alloc,
        rounds.gate(),
        rounds.workers(),
        header,
        lines,
        src,
        sink,
    )?;
    let last = LastState {
        engine: &settled.engine,
        profile,
    };
    D::write(alloc, &last, sink)?;
    Ok(settled.refused > 0)
}
