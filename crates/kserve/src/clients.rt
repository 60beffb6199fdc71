//! The clients: each submits its script to the intake.
ghost use Rattle.std.specs.Prelude.{◌≡◌, ◌≤◌, ◌<◌, ◌++◌, ◌∷◌, [], length, slice_index_or, All};
ghost use Rattle.std.specs.Thread.{IsSync};
ghost use Rattle.kc_intake.specs.Views.{new_client};
ghost use Rattle.kserve.specs.private.Clients.{ended_client, AreNew, HaveEnded, AreTakenIn};

use kc_batch::Items;
use kc_graph::{Item, MAX_ITEMS};
use kc_intake::{Client, Drainer, Intake, MAX_CLIENTS, MAX_SENT};
use kc_rounds::{Gate, Spot};
use std::sync::Wait;
use std::thread;
use std::thread::Threads;

// Submits an item, and tries again while the intake is full.
fn submit<R: Threads + Wait + Sync>(rt: &R, intake: &Intake, client: &mut Client, item: Item)
    requires intake { client.old.intake ≡ intake.now }
    requires few { length client.old.sent < MAX_SENT }
    ensures { client.new ≡ record client.old { sent = client.old.sent ++ item ∷ [] } }
{
    for _turn in rt.forever() {
        if intake.submit(rt, client, item).is_ok() {
            return;
        }
        thread::yield_now();
    }
    unreachable!()
}

// The script of a client.
#[derive(Clone, Copy)]
struct Script<'a> {
    // The number of the client.
    number: u32,
    // The items that the client submits, in order.
    items: &'a [Item],
}

// Submits the items of a script in order. The gate gets `Asking` before the first try of each, and `Replied` once it is
// submitted.
fn submit_script<R: Threads + Wait + Sync, G: Gate + Sync>(
    rt: &R,
    gate: &G,
    intake: &Intake,
    client: &mut Client,
    script: Script<'_>,
)
    requires client { client.old ≡ new_client intake.now script.number }
    requires few { length script.items.now ≤ MAX_ITEMS }
    ensures { client.new ≡ ended_client intake.now script.entry.number script.entry.items.now }
{
    let Script { number, items } = script;
    for i in 0..items.len() {
        let ask = i as u32;
        gate.at(Spot::Asking {
            reader: number,
            ask,
        });
        submit(rt, intake, client, items[i]);
        gate.at(Spot::Replied {
            reader: number,
            ask,
        });
    }
}

// Runs each client.
fn run_each<R: Threads + Wait + Sync, G: Gate + Sync>(
    rt: &R,
    gate: &G,
    intake: &Intake,
    clients: &mut [Client],
    scripts: &[Items],
)
    requires clients { AreNew intake.now (length scripts.now) clients.old }
    requires few_clients { length scripts.now ≤ MAX_CLIENTS }
    requires few { All (λ script. length script ≤ MAX_ITEMS) scripts.now }
    ensures { HaveEnded intake.now scripts.now clients.new }
{
    thread::for_each_mut(
        rt,
        clients,
        MAX_CLIENTS as usize,
        &|i, client: &mut Client|
            requires { IsSync R.row × IsSync G.row × (i < length scripts.now) × (length scripts.now ≤ MAX_CLIENTS) × All (λ script. length script ≤ MAX_ITEMS) scripts.now × (client.old ≡ new_client intake.now i) }
            ensures { client.new ≡ ended_client intake.entry.now i (slice_index_or scripts.entry.now i []) }
        {
            let script = Script {
                number: i as u32,
                items: scripts[i].as_slice(),
            };
            submit_script(rt, gate, intake, client, script)
        },
    );
}

/// Runs the clients of an intake that was just opened. Client i submits script i (`HaveEnded`), and the gate gets its
/// spots with i as the reader.
///
/// There are as many scripts as clients, each of at most `MAX_ITEMS` items. Each client has a thread of its own if one
/// can be made; the others submit one after another. A client that finds the intake full tries again, so the call may
/// wait.
pub fn run_clients<R: Threads + Wait + Sync, G: Gate + Sync>(
    rt: &R,
    gate: &G,
    intake: &Intake,
    clients: &mut Vec<Client>,
    scripts: &[Items],
)
    requires clients { AreNew intake.now (length scripts.now) clients.old.items }
    requires few_clients { length scripts.now ≤ MAX_CLIENTS }
    requires few { All (λ script. length script ≤ MAX_ITEMS) scripts.now }
    ensures { HaveEnded intake.now scripts.now clients.new.items }
{
    run_each(rt, gate, intake, clients.as_mut_slice(), scripts);
}

/// Takes in clients that have ended, one after another. The updates that were drained of each are the first ones of
/// those that it sent, in its order, each once (`AreTakenIn`). The drainer and the clients are of this intake. Takes
/// constant time a client.
pub fn take_in_all<R: Threads + Wait + Sync>(
    rt: &R,
    intake: &Intake,
    drainer: &mut Drainer,
    clients: Vec<Client>,
)
    requires drainer { drainer.old.intake ≡ intake.now }
    requires clients { All (λ client. client.intake ≡ intake.now) clients.items }
    ensures taken { drainer.new.taken ≡ drainer.old.taken }
    ensures prefix { AreTakenIn drainer.old.taken clients.items }
{
    for client in clients {
        intake.take_in(rt, drainer, client);
    }
}
