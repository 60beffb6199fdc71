//! The audience of the phases of batches: the readers of a store, or none.
ghost use Rattle.std.specs.Prelude.{◌≡◌, true, false, None, Some};
ghost use Rattle.kc_groups.specs.Entries.{entries_in};
ghost use Rattle.kc_session.specs.private.Audiences.{store_of, writer_of, shown_to, IsAbreast, longer, LeadOver};

use kc_engine::{BatchPlan, Engine};
use kc_rounds::Gate;
use kc_store::{Store, Writer};
use std::mem;
use std::thread::Threads;

/// The audience of the phases of batches.
#[derive(Drop)]
pub enum Audience<'a> {
    /// The readers of this store, by its writer.
    Readers { store: &'a Store, writer: Writer },
    /// No reader: no level is looked up.
    Nobody,
}

/// Shows the pending plan of an engine. The plan's phases lead from a state with which the audience is up to date to
/// the state of the engine. Afterwards no plan is pending, the engine is otherwise unchanged, and the audience is up to
/// date with it.
///
/// Cost: that of `Engine::show` if there are readers, and otherwise nothing.
pub fn show<R: Threads + Sync, G: Gate + Sync>(
    rt: &R,
    gate: &G,
    audience: &mut Audience<'_>,
    engine: &mut Engine,
    plan: &BatchPlan,
)
    requires waits { engine.old.waits ≡ true }
    requires lead { LeadOver audience.old plan.now.phases engine.old.state }
    ensures engine { engine.new ≡ record engine.old { waits = false } }
    ensures store { store_of audience.new ≡ store_of audience.old }
    ensures shown { shown_to audience.new ≡ longer (shown_to audience.old) (entries_in plan.now.phases) }
    ensures abreast { IsAbreast audience.new engine.new.state }
{
    match audience {
        Audience::Readers { store, writer } => engine.show(rt, gate, store, writer, plan),
        Audience::Nobody => engine.leave_unshown(),
    }
}

impl<'a> Audience<'a> {
    /// Returns the writer of the store that is read. There is one.
    pub fn into_writer(self) -> Writer
        requires { writer_of self ≡ None → ⊥ }
        ensures { writer_of self.entry ≡ Some result }
    {
        match self {
            Audience::Readers { writer, .. } => writer,
            Audience::Nobody => unreachable!(),
        }
    }
}

/// Returns the writer of the store that was read, and leaves no audience. There was a writer.
pub fn take_writer(audience: &mut Audience<'_>) -> Writer
    requires { writer_of audience.old ≡ None → ⊥ }
    ensures { writer_of audience.old ≡ Some result }
{
    mem::replace(audience, Audience::Nobody).into_writer()
}
