//! A session: batches beside readers.
ghost use Rattle.std.specs.Prelude.{◌≡◌, ◌≤◌, ◌<◌, ◌^◌, ◌++◌, [], false, None, length, All, IfOk};
ghost use Rattle.std.specs.Thread.{IsSync};
ghost use Rattle.kc_text.specs.Writing.{Appends, WriteCause};
ghost use Rattle.kc_batch.specs.Batches.{batches_left};
ghost use Rattle.kc_batch.specs.BatchInputs.{rules_of};
ghost use Rattle.kc_report.specs.VertexLines.{tail_text};
ghost use Rattle.kc_engine.specs.Showing as showing;
ghost use Rattle.kc_session.specs.Asking.{HaveRun};
ghost use Rattle.kc_session.specs.Faults.{FaultCause};
ghost use Rattle.kc_session.specs.ReaderLines.{reader_lines};
ghost use Rattle.kc_session.specs.private.AskLists.{IsAskList};
ghost use Rattle.kc_session.specs.private.Audiences.{shown_to};
ghost use Rattle.kc_session.specs.private.Running.{IsReadyFor, AreRun, WritesBody, batches_for, header_for};
ghost use Rattle.kc_session.specs.SessionText.{session_text, WritesSession};
ghost use Rattle.kc_session.specs.States.{start, IsOpen};

use crate::agent::Agent;
use crate::agents::{close_all, open_agents, run_agents};
use crate::applying::open;
use crate::audience::{Audience, take_writer};
use crate::batches::run_batches;
use crate::context::SessionContext;
use crate::counts::Counts;
use crate::ended::{Ended, count_replies};
use crate::fault::SessionFault;
use crate::last_lines::{write_readers, write_tail};
use crate::last_pass::read_all;
use crate::progress::Progress;
use crate::report::Report;
use crate::watched::Watched;
use kc_batch::{Asks, Header};
use kc_engine::Engine;
use kc_graph::{Crew, MAX_ITEMS};
use kc_history::Replies;
use kc_report::write_head;
use kc_rounds::{Gate, Rounds};
use kc_store::{Store, Writer};
use kc_text::{LineBuf, LineReader, SendFault, Sink, Source};
use std::alloc::Global;
use std::thread;
use std::thread::Threads;

// The most looks of a reader between two repetitions of its ask. A look takes 0.3 to 1 µs on a processor without other
// work, so the looks bridge 10 to 30 ms. A batch of 1,000 edges takes about 3 ms.
const LOOKS: u32 = 32_768;

// The agents of a session, and the store that they ask.
#[derive(Drop)]
struct Askers<'a> {
    // The one store of all the agents.
    store: &'a Store,
    // One agent for each ask, in the order of the header.
    agents: Vec<Agent>,
}

// Applies the batches while the agents ask. The agents are the audience. They learn when the batches begin and when
// these have ended, also after a fault. If the system starts no thread, the agents run last: before the batches they
// would look in vain for a beginning.
fn side_by_side<R: Threads + Sync, S: Source + Send, K: Sink + Send, G: Gate + Sync>(
    context: &SessionContext<'_, R, G>,
    watched: &mut Watched<'_>,
    lines: &mut LineReader,
    src: &mut S,
    sink: &mut K,
    askers: &mut Askers<'_>,
) -> Result<Counts, SessionFault>
    requires ready { IsReadyFor context.now.n watched.old }
    requires agents { All (λ a. (a.store ≡ askers.old.store.now) × (a.has_run ≡ false)) askers.old.agents.items }
    ensures run { AreRun context.now.report watched.old watched.new (batches_for context.now.n context.now.profile lines.old (S.left src.old)) (K.taken sink.old) (K.taken sink.new) result }
    ensures agents { HaveRun askers.old.agents.items askers.new.agents.items }
    ensures cause { FaultCause (S.faults src.old) (S.faults src.new) (K.faults sink.old) (K.faults sink.new) result }
{
    let rt = context.rounds.runtime();
    let gate = context.rounds.gate();
    let store = askers.store;
    let progress = &context.progress;
    let agents = &mut askers.agents;
    thread::join_mut(
        rt,
        &mut ||
            requires { IsSync R.row × IsSync G.row × All (λ a. (a.store ≡ store.now) × (a.has_run ≡ false)) agents.now.items }
        { run_agents(rt, gate, store, progress, agents) },
        &mut ||
            requires { IsSync R.row × IsSync G.row × IsReadyFor context.now.n watched.now }
        {
            progress.begin();
            let counts = run_batches(context, watched, lines, src, sink);
            progress.end();
            counts
        },
    )
    .1
}

// Writes the text after the batches: the lines of the readers, and those of the vertices by a last pass. Returns the
// levels that the pass has read.
fn write_rest<R: Threads + Sync, K: Sink>(
    crew: &Crew<'_, R>,
    store: &Store,
    writer: &mut Writer,
    engine: &Engine,
    sink: &mut K,
    lists: &[Replies],
) -> Result<Vec<u16>, SendFault>
    requires table { writer.old.table ≡ store.now.table }
    requires size { store.now.vertices ≡ engine.now.state.graph.vertices }
    requires abreast { showing.IsAbreast writer.old.state engine.now.state }
    requires open { IsOpen engine.now }
    requires few { length lists.now < 2 ^ 32 }
    ensures text { Appends (K.taken sink.old) (K.taken sink.new) (reader_lines 0 lists.now ++ tail_text engine.now.state.profile engine.now.state.graph engine.now.state.levels) result }
    ensures levels { IfOk result (λ levels. levels.items ≡ engine.now.state.levels) }
    ensures cause { WriteCause (K.faults sink.old) (K.faults sink.new) result }
{
    let alloc = crew.alloc;
    let mut buf = LineBuf::new(alloc);
    write_readers(alloc, &mut buf, sink, lists)?;
    let levels = read_all(alloc, store, writer)?;
    write_tail(crew, &mut buf, sink, engine, levels.as_slice())?;
    Ok(levels)
}

// Runs the part after the head beside readers. Opens a store for them, an engine, and an agent for each ask.
fn run_beside_readers<R: Threads + Sync, S: Source + Send, K: Sink + Send, G: Gate + Sync>(
    context: &SessionContext<'_, R, G>,
    asks: Asks,
    lines: LineReader,
    src: &mut S,
    sink: &mut K,
) -> Result<Ended, SessionFault>
    requires asks { IsAskList context.now.n asks }
    requires report { context.now.report ≡ Report.Lines }
    ensures text { WritesBody (header_for context.now.n context.now.profile asks) lines (S.left src.old) (K.taken sink.old) (K.taken sink.new) result }
    ensures cause { FaultCause (S.faults src.old) (S.faults src.new) (K.faults sink.old) (K.faults sink.new) result }
{
    let alloc = context.rounds.alloc();
    let (store, mut writer) = Store::open(alloc, context.n, 0)?;
    let engine = open(context)?;
    let agents = open_agents(alloc, asks, &store, &mut writer)?;
    let mut askers = Askers {
        store: &store,
        agents,
    };
    let mut watched = Watched {
        engine,
        audience: Audience::Readers {
            store: &store,
            writer,
        },
    };
    let mut lines = lines;
    let counts = side_by_side(context, &mut watched, &mut lines, src, sink, &mut askers)?;
    let mut writer = take_writer(&mut watched.audience);
    let lists = close_all(alloc, &store, &mut writer, askers.agents)?;
    let engine = &watched.engine;
    let crew = Crew::new(context.rounds.runtime(), alloc, context.rounds.workers());
    let levels = write_rest(&crew, &store, &mut writer, engine, sink, lists.as_slice())?;
    let replies = count_replies(lists.as_slice());
    Ok(Ended::with(counts, engine, replies, levels.as_slice()))
}

// Runs the batches of an engine without an audience, and writes the lines after them. The levels of the vertices are
// the engine's.
fn run_alone<R: Threads + Sync, S: Source, K: Sink, G: Gate + Sync>(
    watched: &mut Watched<'_>,
    context: &SessionContext<'_, R, G>,
    lines: &mut LineReader,
    src: &mut S,
    sink: &mut K,
) -> Result<Ended, SessionFault>
    requires report { context.now.report ≡ Report.Lines }
    requires ready { IsReadyFor context.now.n watched.old }
    requires start { watched.old.engine.state ≡ start context.now.profile context.now.n }
    requires alone { shown_to watched.old.audience ≡ None }
    ensures text { WritesBody (header_for context.now.n context.now.profile []) lines.old (S.left src.old) (K.taken sink.old) (K.taken sink.new) result }
    ensures cause { FaultCause (S.faults src.old) (S.faults src.new) (K.faults sink.old) (K.faults sink.new) result }
{
    let counts = run_batches(context, watched, lines, src, sink)?;
    let engine = &watched.engine;
    let levels = engine.levels().as_slice();
    let rounds = &context.rounds;
    let crew = Crew::new(rounds.runtime(), rounds.alloc(), rounds.workers());
    let mut buf = LineBuf::new(crew.alloc);
    write_tail(&crew, &mut buf, sink, engine, levels)?;
    Ok(Ended::with(counts, engine, 0, levels))
}

// Runs the part after the head without readers. No store is opened.
fn run_without_readers<R: Threads + Sync, S: Source, K: Sink, G: Gate + Sync>(
    context: &SessionContext<'_, R, G>,
    lines: LineReader,
    src: &mut S,
    sink: &mut K,
) -> Result<Ended, SessionFault>
    requires report { context.now.report ≡ Report.Lines }
    ensures text { WritesBody (header_for context.now.n context.now.profile []) lines (S.left src.old) (K.taken sink.old) (K.taken sink.new) result }
    ensures cause { FaultCause (S.faults src.old) (S.faults src.new) (K.faults sink.old) (K.faults sink.new) result }
{
    let mut lines = lines;
    let engine = open(context)?;
    let mut watched = Watched {
        engine,
        audience: Audience::Nobody,
    };
    let ended = run_alone(&mut watched, context, &mut lines, src, sink);
    // Dropped by a call, since an engine that ends with its scope is slow to prove.
    drop(watched);
    ended
}

/// Runs the part of an input after its header, batches beside readers, and writes the text of the session
/// (`session_text`).
///
/// A phase uses up to `workers` threads, 1 to 64. A long batch is cleaned as `clean_by` says. Each reader has a thread
/// of its own if one can be made.
///
/// The head is written first. Then two branches run side by side. In one of them each batch is read, applied, shown in
/// a store and reported before the next. In the other an agent for each ask puts its questions, spread over the batches
/// (`Agent::run_beside`).
///
/// Afterwards a line for each reader is written. A last pass reads each vertex, and the lines of the vertices and the
/// last line are written. The replies fit the asks, and the history of the batches explains the replies of each reader
/// from its start (`IsSession`). If there are no asks, no level is shown: no store is opened, and the levels of the
/// vertices are the engine's.
///
/// `ReadFault` comes only if a read of the source failed in this call, and `WriteFault` only if a write to the sink
/// failed. After either, and after `Memory`, both branches have ended, and the sink took a prefix of such a text.
pub fn run_session<R: Threads + Sync, S: Source + Send, K: Sink + Send, G: Gate + Sync>(
    rt: &R,
    alloc: Global,
    gate: &G,
    workers: u32,
    header: Header,
    reader: LineReader,
    src: &mut S,
    sink: &mut K,
) -> Result<Ended, SessionFault>
    requires few_workers { (1 ≤ workers) × (workers ≤ 64) }
    ensures text { WritesSession session_text header (batches_left (rules_of header MAX_ITEMS) reader (S.left src.old)) (K.taken sink.old) (K.taken sink.new) result }
    ensures cause { FaultCause (S.faults src.old) (S.faults src.new) (K.faults sink.old) (K.faults sink.new) result }
{
    let mut buf = LineBuf::new(alloc);
    write_head(alloc, &mut buf, sink, header.n)?;
    let Header { profile, n, asks } = header;
    let context = SessionContext {
        rounds: Rounds::new(rt, alloc, gate, workers),
        n,
        profile,
        report: Report::Lines,
        progress: Progress::new(LOOKS),
    };
    if asks.as_slice().is_empty() {
        run_without_readers(&context, reader, src, sink)
    } else {
        run_beside_readers(&context, asks, reader, src, sink)
    }
}
