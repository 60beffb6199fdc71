//! The agents of several asks: they are opened, run beside one another, and closed.
ghost use Rattle.std.specs.Prelude.{◌≡◌, ◌<◌, ◌^◌, ℕ, false, true, length, All, IfOk, slice_index_or};
ghost use Rattle.std.specs.Thread.{IsSync};
ghost use Rattle.kc_batch.specs.Headers.{IsAsk};
ghost use Rattle.kc_session.specs.Asking.{HasRun, HaveRun, agents_for, AreClosed};

use crate::agent::Agent;
use crate::progress::Progress;
use kc_batch::Asks;
use kc_history::Replies;
use kc_rounds::Gate;
use kc_store::{Store, Writer};
use std::alloc::{AllocError, Global};
use std::thread;
use std::thread::Threads;

// The most threads that run agents.
const MAX_THREADS: usize = 64;

/// Makes an agent for each ask, in order, numbered from 0 (`agents_for`).
///
/// Each ask keeps its ranges (`IsAsk`), and the writer is the store's. If there is no memory for one agent, the agents
/// opened before it are dropped.
pub fn open_agents(
    alloc: Global,
    asks: Asks,
    store: &Store,
    writer: &mut Writer,
) -> Result<Vec<Agent>, AllocError>
    requires table { writer.old.table ≡ store.now.table }
    requires few { length asks < 2 ^ 32 }
    requires ranges { All (IsAsk store.now.vertices) asks }
    ensures same { writer.new ≡ writer.old }
    ensures agents { IfOk result (λ agents. agents.items ≡ agents_for store.now writer.old.state.history 0 asks) }
{
    let mut agents = Vec::new(alloc);
    for ask in asks.into_vec() {
        let reader = agents.len() as u32;
        let agent = Agent::open(alloc, reader, ask, store, writer)?;
        agents.push(agent)?;
    }
    Ok(agents)
}

// Runs each agent.
fn run_each<R: Threads + Sync, G: Gate + Sync>(
    rt: &R,
    gate: &G,
    store: &Store,
    progress: &Progress,
    agents: &mut [Agent],
)
    requires { All (λ a. (a.store ≡ store.now) × (a.has_run ≡ false)) agents.old }
    ensures { (i : ℕ) (d : _) → i < length agents.old → HasRun (slice_index_or agents.old i d) (slice_index_or agents.new i d) }
{
    thread::for_each_mut(
        rt,
        agents,
        MAX_THREADS,
        &|_, agent: &mut Agent|
            requires { IsSync G.row × (agent.old.store ≡ store.now) × (agent.old.has_run ≡ false) }
        { agent.run_beside(gate, store, progress) },
    );
}

/// Runs each agent, in up to 64 threads, over the batches of this progress (`Agent::run_beside`, `HaveRun`). Takes no
/// memory.
///
/// The store is the one that the agents were opened with, and none of them has run.
pub fn run_agents<R: Threads + Sync, G: Gate + Sync>(
    rt: &R,
    gate: &G,
    store: &Store,
    progress: &Progress,
    agents: &mut Vec<Agent>,
)
    requires { All (λ a. (a.store ≡ store.now) × (a.has_run ≡ false)) agents.old.items }
    ensures { HaveRun agents.old.items agents.new.items }
{
    run_each(rt, gate, store, progress, agents.as_mut_slice());
}

/// Takes in the passes of agents that have run, one after another, and returns their replies in the same order
/// (`AreClosed`). The writer's history explains the replies of each.
///
/// The store is the one that the agents were opened with. After a fault some passes may not have been taken in.
pub fn close_all(
    alloc: Global,
    store: &Store,
    writer: &mut Writer,
    agents: Vec<Agent>,
) -> Result<Vec<Replies>, AllocError>
    requires table { writer.old.table ≡ store.now.table }
    requires agents { All (λ a. (a.store ≡ store.now) × (a.has_run ≡ true)) agents.items }
    ensures table { writer.new.table ≡ writer.old.table }
    ensures state { writer.new.state ≡ record writer.old.state { joined = writer.new.state.joined } }
    ensures replies { IfOk result (λ lists. AreClosed writer.old.state.history agents.items lists.items) }
{
    let mut lists = Vec::new(alloc);
    for agent in agents {
        let replies = Replies::from_vec(agent.close(store, writer));
        lists.push(replies)?;
    }
    Ok(lists)
}
