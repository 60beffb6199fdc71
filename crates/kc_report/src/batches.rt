//! The lines of an accepted batch: one with its counts, and those of its phases.
ghost use Rattle.std.specs.Prelude.{◌≡◌, ℕ, ◌<◌, ◌^◌, [], ◌∷◌, ◌++◌, length, All, OnOk, decimal, codes};
ghost use Rattle.kc_text.specs.Writing.{Appends, WriteCause};
ghost use Rattle.kc_report.specs.Buffer.{IsCleared};
ghost use Rattle.kc_groups.specs.WellFormed.{IsWellFormed};
ghost use Rattle.kc_report.specs.Lines.{batch_line, batch_text};

use crate::members::{InTurn, Members};
use crate::phases::write_phase;
use kc_graph::Cleaned;
use kc_groups::PhasePlan;
use kc_text::{LineBuf, SendFault, Sink};
use std::alloc::{AllocError, Global};

// Appends the number of a batch and the counts of its cleaning.
fn fill_counts(buf: &mut LineBuf, number: u32, cleaned: &Cleaned) -> Result<(), AllocError>
    ensures { OnOk result (buf.new ≡ (((((((buf.old ++ codes "batch ") ++ decimal number)
        ++ codes " loops ") ++ decimal cleaned.now.loops)
        ++ codes " repeats ") ++ decimal cleaned.now.repeats)
        ++ codes " idle ") ++ decimal cleaned.now.idle) }
{
    buf.put_named(b"batch ", number)?;
    buf.put_named(b" loops ", cleaned.loops)?;
    buf.put_named(b" repeats ", cleaned.repeats)?;
    buf.put_named(b" idle ", cleaned.idle)
}

fn fill_batch(buf: &mut LineBuf, number: u32, cleaned: &Cleaned) -> Result<(), AllocError>
    requires few_removed { length cleaned.now.removed < 2 ^ 32 }
    requires few_added { length cleaned.now.added < 2 ^ 32 }
    ensures { OnOk result (buf.new ++ 10 ∷ [] ≡ batch_line number cleaned.now) }
{
    buf.clear();
    fill_counts(buf, number, cleaned)?;
    buf.put_named(b" removed ", cleaned.removed.len() as u32)?;
    buf.put_named(b" added ", cleaned.added.len() as u32)
}

/// An accepted batch: its number and its cleaning.
#[derive(Clone, Copy)]
pub struct Accepted<'a> {
    /// The number. Batches are numbered from 1, refused ones included; any number is written.
    pub number: u32,
    /// The edges that the batch removes and adds, and the counts of its cleaning.
    pub cleaned: &'a Cleaned,
}

/// Writes the lines of an accepted batch as `write_batch` does. `members` composes the members of its groups, and says
/// how many bytes of the lines of a phase's groups are sent together.
pub fn write_batch_by<M: Members, K: Sink>(
    members: &M,
    buf: &mut LineBuf,
    sink: &mut K,
    batch: Accepted<'_>,
    phases: &[PhasePlan],
) -> Result<(), SendFault>
    requires ready { M.may_fill members.now }
    requires few_removed { length batch.cleaned.now.removed < 2 ^ 32 }
    requires few_added { length batch.cleaned.now.added < 2 ^ 32 }
    requires few_quiet { All (λ plan. length plan.quiet.edges < 2 ^ 32) phases.now }
    requires well_formed { All (λ plan. (n : ℕ) × IsWellFormed n plan) phases.now }
    ensures text { Appends (K.taken sink.old) (K.taken sink.new) (batch_text batch.entry.number batch.entry.cleaned.now phases.now) result }
    ensures buffer { IsCleared buf.new result }
    ensures cause { WriteCause (K.faults sink.old) (K.faults sink.new) result }
{
    fill_batch(buf, batch.number, batch.cleaned)?;
    buf.send_to(sink)?;
    for plan in phases {
        write_phase(members, buf, sink, plan)?;
    }
    Ok(())
}

/// Writes the lines of an accepted batch (`batch_text`), one after another. Each line is one `put_all`.
///
/// - The first line has the batch's number, the counts of its cleaning, and how many edges are removed and added.
/// - Each phase has a line with its number, its direction and its number of quiet edges.
/// - Each group of a phase, that is, vertices that moved together, has a line with their new levels.
///
/// The edges removed, the edges added and the quiet edges of a phase are fewer than 2^32 each. Batches are numbered
/// from 1, refused ones included; any number is written. Each plan of a phase is well formed. `WriteFault` comes only
/// from a failed write. After `WriteFault` or `Memory` the sink took a prefix of the lines. The lines after a failed
/// one aren't tried.
pub fn write_batch<K: Sink>(
    _alloc: Global,
    buf: &mut LineBuf,
    sink: &mut K,
    number: u32,
    cleaned: &Cleaned,
    phases: &[PhasePlan],
) -> Result<(), SendFault>
    requires few_removed { length cleaned.now.removed < 2 ^ 32 }
    requires few_added { length cleaned.now.added < 2 ^ 32 }
    requires few_quiet { All (λ plan. length plan.quiet.edges < 2 ^ 32) phases.now }
    requires well_formed { All (λ plan. (n : ℕ) × IsWellFormed n plan) phases.now }
    ensures text { Appends (K.taken sink.old) (K.taken sink.new) (batch_text number cleaned.now phases.now) result }
    ensures buffer { IsCleared buf.new result }
    ensures cause { WriteCause (K.faults sink.old) (K.faults sink.new) result }
{
    let batch = Accepted { number, cleaned };
    write_batch_by(&InTurn, buf, sink, batch, phases)
}
