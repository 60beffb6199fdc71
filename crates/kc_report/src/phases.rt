//! The lines of phases and of their groups.
ghost use Rattle.std.specs.Prelude.{◌≡◌, ℕ, ◌<◌, ◌^◌, [], ◌∷◌, ◌++◌, length, IsSome, OnOk, codes};
ghost use Rattle.kc_text.specs.Writing.{Appends, WriteCause};
ghost use Rattle.kc_groups.specs.WellFormed.{IsWellFormed};
ghost use Rattle.kc_report.specs.Buffer.{IsCleared};
ghost use Rattle.kc_report.specs.Lines.{direction_word, phase_line, group_line, phase_text};

use crate::held::send_held;
use crate::members::Members;
use crate::pairs::put_pair;
use kc_groups::PhasePlan;
use kc_history::Entry;
use kc_text::{LineBuf, SendFault, Sink};
use std::alloc::AllocError;

// Returns the words of a phase between its number and its count of quiet edges, with their blanks.
fn direction(add: bool) -> &'static [u8]
    ensures { result.now ≡ (codes " " ++ direction_word add) ++ codes " quiet " }
{
    if add {
        b" insert quiet "
    } else {
        b" delete quiet "
    }
}

fn fill_phase(buf: &mut LineBuf, plan: &PhasePlan) -> Result<(), AllocError>
    requires few_quiet { length plan.now.quiet.edges < 2 ^ 32 }
    ensures { OnOk result (buf.new ++ 10 ∷ [] ≡ phase_line plan.now) }
{
    buf.clear();
    let quiet = plan.quiet.edges.len() as u32;
    buf.put_named(b"phase ", plan.quiet.phase)?;
    buf.put_named(direction(plan.quiet.add), quiet)
}

// Appends the line of a group.
fn append_group<M: Members>(members: &M, buf: &mut LineBuf, group: &Entry) -> Result<(), AllocError>
    requires ready { M.may_fill members.now }
    requires label { IsSome group.now.label }
    ensures { OnOk result (buf.new ≡ buf.old ++ group_line group.now) }
{
    buf.put(b"group")?;
    put_pair(buf, group.phase, b' ', group.label.unwrap())?;
    members.fill(buf, group.moves.as_slice())?;
    buf.put(b"\n")
}

/// Writes the line of a phase, and those of its groups. `members` says how many bytes of the latter are sent together.
pub fn write_phase<M: Members, K: Sink>(
    members: &M,
    buf: &mut LineBuf,
    sink: &mut K,
    plan: &PhasePlan,
) -> Result<(), SendFault>
    requires ready { M.may_fill members.now }
    requires few_quiet { length plan.now.quiet.edges < 2 ^ 32 }
    requires well_formed { (n : ℕ) × IsWellFormed n plan.now }
    ensures text { Appends (K.taken sink.old) (K.taken sink.new) (phase_text plan.now) result }
    ensures buffer { IsCleared buf.new result }
    ensures cause { WriteCause (K.faults sink.old) (K.faults sink.new) result }
{
    fill_phase(buf, plan)?;
    buf.send_to(sink)?;
    let block = members.block();
    for group in plan.groups.as_slice() {
        append_group(members, buf, group)?;
        if buf.as_bytes().len() >= block {
            send_held(buf, sink)?;
        }
    }
    send_held(buf, sink)
}
