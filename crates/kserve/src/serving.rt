//! The scripts of an input, served.
ghost use Rattle.std.specs.Prelude.{◌≡◌, ◌≤◌, [], length, All, OnOk};
ghost use Rattle.std.specs.Thread.{IsSync};
ghost use Rattle.kc_text.specs.Writing.{WriteCause};
ghost use Rattle.kc_intake.specs.Updates.{all_updates};
ghost use Rattle.kserve.specs.declared.limits.TheConstants.{CAPACITY};
ghost use Rattle.kserve.specs.Batches.{start};
ghost use Rattle.kserve.specs.private.Clients.{AreNew, HaveEnded, AreDrained};
ghost use Rattle.kserve.specs.private.Engines.{IsFresh, IsOpen};
ghost use Rattle.kserve.specs.private.Faults.{IsFaultOf, StopCause};
ghost use Rattle.kserve.specs.private.Served.{Writes};
ghost use Rattle.kserve.specs.private.Serving.{Serves, ServesAll};

use crate::applying::open;
use crate::clients::{run_clients, take_in_all};
use crate::context::ServeContext;
use crate::fault::Stop;
use crate::limits::CAPACITY;
use crate::server::Server;
use crate::vertices::write_tail;
use kc_graph::{Crew, MAX_ITEMS};
use kc_intake::{Client, Drainer, Intake, MAX_CLIENTS};
use kc_report::write_opening;
use kc_rounds::Gate;
use kc_text::{LineBuf, SendFault, Sink};
use std::sync::Wait;
use std::thread;
use std::thread::Threads;

// An intake as it is opened, with its drainer and its clients.
#[derive(Drop)]
struct Opened {
    // Holds up to `CAPACITY` updates.
    intake: Intake,
    // The drainer of this intake.
    drainer: Drainer,
    // Its clients in the order of their numbers: one for each script.
    clients: Vec<Client>,
    ghost capacity: { intake.capacity ≡ CAPACITY },
    ghost drains: { drainer.intake ≡ intake },
}

// The server runs beside the clients.
fn side_by_side<R: Threads + Wait + Sync, K: Sink + Send, G: Gate + Sync>(
    context: &ServeContext<'_, R, G>,
    opened: &mut Opened,
    server: &mut Server,
    sink: &mut K,
) -> Result<(), Stop>
    requires none { opened.old.drainer.taken ≡ [] }
    requires clients { AreNew opened.old.intake (length context.now.scripts.items) opened.old.clients.items }
    requires fresh { IsFresh context.now.n server.old.engine }
    ensures served { Serves context.now.n (start context.now.n) opened.new.drainer.taken server.new.engine.state (K.taken sink.old) (K.taken sink.new) result }
    ensures intake { opened.new.intake ≡ opened.old.intake }
    ensures drained { AreDrained opened.old.intake opened.old.drainer opened.new.drainer }
    ensures all { context.now.count ≤ length (all_updates opened.new.drainer.taken) }
    ensures open { OnOk result (IsOpen server.new.engine) }
    ensures clients { HaveEnded opened.old.intake context.now.scripts.items opened.new.clients.items }
    ensures cause { StopCause (K.faults sink.old) (K.faults sink.new) result }
{
    let rt = context.rounds.runtime();
    let gate = context.rounds.gate();
    let scripts = context.asked.scripts.as_slice();
    let intake = &opened.intake;
    let drainer = &mut opened.drainer;
    let clients = &mut opened.clients;
    thread::join_mut(
        rt,
        &mut ||
            requires { IsSync R.row × IsSync G.row × (intake.now.capacity ≡ CAPACITY) × (drainer.now.intake ≡ intake.now) × (drainer.now.taken ≡ []) × IsFresh context.now.n server.now.engine }
        { server.run(context, intake, drainer, sink) },
        &mut ||
            requires { IsSync R.row × IsSync G.row × AreNew intake.now (length scripts.now) clients.now.items × (length scripts.now ≤ MAX_CLIENTS) × All (λ script. length script ≤ MAX_ITEMS) scripts.now }
        { run_clients(rt, gate, intake, clients, scripts) },
    )
    .0
}

// The fault for which a server stopped, which isn't that an item strayed.
fn fault_of(stop: Stop) -> SendFault
    requires { stop ≡ Stop.Stray → ⊥ }
    ensures { IsFaultOf stop result }
{
    match stop {
        Stop::Fault(fault) => fault,
        Stop::Stray => unreachable!(),
    }
}

// Serves scripts with an engine that was just opened, and prints the batches (`ServesAll`). If there are no scripts,
// there are no clients and no batches.
fn serve_clients<R: Threads + Wait + Sync, K: Sink + Send, G: Gate + Sync>(
    context: &ServeContext<'_, R, G>,
    server: &mut Server,
    sink: &mut K,
) -> Result<(), SendFault>
    requires fresh { IsFresh context.now.n server.old.engine }
    ensures served { ServesAll context.now.n context.now.scripts.items server.new.engine.state (K.taken sink.old) (K.taken sink.new) result }
    ensures open { OnOk result (IsOpen server.new.engine) }
    ensures cause { WriteCause (K.faults sink.old) (K.faults sink.new) result }
{
    if context.asked.scripts.is_empty() {
        return Ok(());
    }
    let count = context.asked.scripts.len() as u32;
    let (intake, drainer, clients) = Intake::open(context.rounds.alloc(), CAPACITY, count)?;
    let mut opened = Opened {
        intake,
        drainer,
        clients,
    };
    let course = side_by_side(context, &mut opened, server, sink);
    let Opened {
        intake,
        mut drainer,
        clients,
    } = opened;
    take_in_all(context.rounds.runtime(), &intake, &mut drainer, clients);
    match course {
        Ok(()) => Ok(()),
        Err(stop) => Err(fault_of(stop)),
    }
}

/// Serves the scripts of an input, and writes the text of it (`Writes`). A phase uses the workers of the rounds.
///
/// The head is written first. Then the clients submit their scripts to an intake, while the server drains it and prints
/// batch after batch; without scripts no intake is opened. Afterwards a line for each vertex is written, and the last
/// line. `WriteFault` comes only if a write to the sink failed in this call. The call may wait.
pub fn serve_scripts<R: Threads + Wait + Sync, K: Sink + Send, G: Gate + Sync>(
    context: &ServeContext<'_, R, G>,
    sink: &mut K,
) -> Result<(), SendFault>
    ensures text { Writes context.now.n context.now.scripts.items (K.taken sink.old) (K.taken sink.new) result }
    ensures cause { WriteCause (K.faults sink.old) (K.faults sink.new) result }
{
    let alloc = context.rounds.alloc();
    let n = context.asked.n;
    let engine = open(alloc, n, context.rounds.workers())?;
    let mut server = Server::new(alloc, engine);
    let mut buf = LineBuf::new(alloc);
    write_opening(&mut buf, sink, b"kserve-run 1", n)?;
    serve_clients(context, &mut server, sink)?;
    let crew = Crew::new(context.rounds.runtime(), alloc, context.rounds.workers());
    write_tail(&crew, &mut buf, sink, &server.engine)
}
