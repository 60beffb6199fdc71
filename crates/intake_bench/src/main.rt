//! How long updates of eight clients take through an intake to a server that only drains.
//!
//! With no word on the command line each client submits a few items, and what was drained is printed but no time. With
//! any word they submit a million together, and the nanoseconds that this took are printed too. The time begins when
//! the first client may begin, and ends when the server has the last update and the clients have ended. Items are made
//! before, and batches aren't kept.
#![tactic(auto)]

ghost use Rattle.std.specs.Prelude.{◌≡◌, [], All};

use anyhow::ensure;
use kc_graph::Item;
use kc_intake::{Client, Intake};
use std::alloc::{AllocError, Global};
use std::env;
use std::rt::Env;
use std::sync::Wait;
use std::thread::Threads;
use std::time::{Clock, Duration, Instant};
use store_support::clients::{Sender, Server, exchange, open};
use test_support::random::Random;

// How many clients submit.
const CLIENTS: u32 = 8;

// How many updates the intake holds.
const CAPACITY: u32 = 1024;

// Items have vertices below this.
const VERTICES: u32 = 100_000;

// Returns a script of `count` insertions.
fn make_script(alloc: Global, random: &mut Random, count: u32) -> Result<Vec<Item>, AllocError> {
    let mut script = Vec::with_capacity(alloc, count as usize)?;
    for _i in 0..count {
        let (u, v) = (random.below(VERTICES), random.below(VERTICES));
        script.push(Item::Insert { u, v })?;
    }
    Ok(script)
}

// Returns senders of these clients, each with a script of `each` insertions.
fn make_senders<'a>(
    alloc: Global,
    intake: &'a Intake,
    clients: Vec<Client>,
    each: u32,
) -> Result<Vec<Sender<'a>>, AllocError>
    requires { All (λ client. (client.intake ≡ intake.now) × (client.sent ≡ [])) clients.items }
{
    let mut random = Random::new(31);
    let mut senders = Vec::new(alloc);
    for client in clients {
        let script = make_script(alloc, &mut random, each)?;
        senders.push(Sender::new(intake, client, script))?;
    }
    Ok(senders)
}

// Returns the time in which a server drains `count` updates of the senders. Fails unless these are all updates.
fn time_exchange<R: Threads + Wait + Sync + Clock>(
    rt: &R,
    server: &mut Server<'_>,
    senders: &mut [Sender<'_>],
    count: usize,
) -> anyhow::Result<Duration> {
    let start = Instant::now(rt)?;
    exchange(rt, server, count, senders)?;
    let time = start.elapsed(rt)?;
    ensure!(server.drained() == count, "not every update was drained");
    Ok(time)
}

// Returns the time in which a server drains all updates of clients that submit `each` items.
fn time_updates<R: Threads + Wait + Sync + Clock>(
    rt: &R,
    alloc: Global,
    each: u32,
) -> anyhow::Result<Duration> {
    let (intake, drainer, clients) = open(alloc, CAPACITY, CLIENTS)?;
    let mut senders = make_senders(alloc, &intake, clients, each)?;
    let mut server = Server::new(alloc, &intake, drainer, false, 0)?;
    let count = CLIENTS as usize * each as usize;
    time_exchange(rt, &mut server, senders.as_mut_slice(), count)
}

// Returns whether a word is on the command line after the program's name.
fn has_word(rt: &(impl Env + AllocGlobal)) -> anyhow::Result<bool> {
    Ok(env::args(rt)?.len() > 1)
}

fn main(rt: HostRuntime) -> anyhow::Result<()> {
    let timed = has_word(&rt)?;
    let each = if timed { 125_000 } else { 100 };
    let time = time_updates(&rt, rt.alloc(), each)?;
    let updates = CLIENTS * each;
    if timed {
        println!(rt;
            "clients {CLIENTS} updates {updates} nanoseconds {}",
            time.as_nanos()
        )?;
    } else {
        println!(rt; "clients {CLIENTS} updates {updates}")?;
    }
    Ok(())
}
