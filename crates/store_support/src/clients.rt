//! Clients of an intake in threads of their own, beside a server that only drains.
ghost use Rattle.std.specs.Prelude.{◌≡◌, ◌≤◌, ◌<◌, [], length, All, IfOk};
ghost use Rattle.std.specs.Thread.{IsSync};
ghost use Rattle.kc_intake.specs.declared.limits.TheConstants.{MAX_CAPACITY, MAX_CLIENTS};

use kc_graph::Item;
use kc_intake::{Client, Drainer, Empty, Intake, MAX_SENT, Update};
use std::alloc::{AllocError, Global};
use std::sync::Wait;
use std::thread;
use std::thread::Threads;

// The most turns in which a client tries to submit an item, and the server to drain.
const MAX_TURNS: u32 = 100_000_000;

/// A client, and what it submits.
#[derive(Drop)]
pub struct Sender<'a> {
    intake: &'a Intake,
    client: Client,
    // The number of submitted items.
    sent: u32,
    // The items that it submits, in order.
    script: Vec<Item>,
    ghost of: { client.intake ≡ intake.now },
    ghost counted: { length client.sent ≡ sent },
}

impl<'a> Sender<'a> {
    /// Makes a client that has submitted nothing, and its script.
    pub fn new(intake: &'a Intake, client: Client, script: Vec<Item>) -> Sender<'a>
        requires { (client.intake ≡ intake.now) × (client.sent ≡ []) }
    {
        Sender {
            intake,
            client,
            sent: 0,
            script,
        }
    }

    /// Submits an item, and tries again while the intake is full. Returns whether it was submitted.
    pub fn submit<R: Threads + Wait + Sync>(&mut self, rt: &R, item: Item) -> bool {
        for _turn in 0..MAX_TURNS {
            if self.sent == MAX_SENT {
                break;
            }
            if self.intake.submit(rt, &mut self.client, item).is_ok() {
                self.sent += 1;
                return true;
            }
            thread::yield_now();
        }
        false
    }

    // Submits the script in order, and ends early if an item can't be submitted.
    fn run<R: Threads + Wait + Sync>(&mut self, rt: &R) {
        for i in 0..self.script.len() {
            let Some(item) = self.script.get(i).copied() else {
                return;
            };
            if !self.submit(rt, item) {
                return;
            }
        }
    }

    /// Returns the items that it submits, in order.
    pub fn script(&self) -> &[Item] {
        self.script.as_slice()
    }
}

/// A server that only drains.
#[derive(Drop)]
pub struct Server<'a> {
    intake: &'a Intake,
    drainer: Drainer,
    // Whether it keeps the drained updates.
    keeps: bool,
    updates: Vec<Update>,
    drained: usize,
    ghost of: { drainer.intake ≡ intake.now },
}

impl<'a> Server<'a> {
    /// Makes a server that has drained nothing. It keeps the drained updates if `keeps` is true, and has room for
    /// `room` of them.
    pub fn new(
        alloc: Global,
        intake: &'a Intake,
        drainer: Drainer,
        keeps: bool,
        room: usize,
    ) -> Result<Server<'a>, AllocError>
        requires { drainer.intake ≡ intake.now }
    {
        let updates = Vec::with_capacity(alloc, room)?;
        Ok(Server {
            intake,
            drainer,
            keeps,
            updates,
            drained: 0,
        })
    }

    /// Drains a batch. Returns whether there was one.
    pub fn drain<R: Threads + Wait + Sync>(&mut self, rt: &R) -> Result<bool, AllocError> {
        if self.intake.drain(rt, &mut self.drainer) == Err(Empty) {
            return Ok(false);
        }
        let batch = self.drainer.batch();
        if self.keeps {
            self.updates.extend_from_slice(batch)?;
        }
        self.drained = self.drained.saturating_add(batch.len());
        Ok(true)
    }

    // Drains until it has this many updates.
    fn run<R: Threads + Wait + Sync>(&mut self, rt: &R, count: usize) -> Result<(), AllocError> {
        for _turn in 0..MAX_TURNS {
            if self.drained >= count {
                break;
            }
            if !self.drain(rt)? {
                thread::yield_now();
            }
        }
        Ok(())
    }

    /// Returns how many updates were drained.
    pub fn drained(&self) -> usize {
        self.drained
    }

    /// Returns the updates that it kept, in the order in which they were drained.
    pub fn updates(&self) -> &[Update] {
        self.updates.as_slice()
    }
}

// Lets each client submit its script in a thread of its own, if one can be made.
fn run_all<R: Threads + Wait + Sync>(rt: &R, senders: &mut [Sender<'_>]) {
    thread::for_each_mut(
        rt,
        senders,
        64,
        &|_, sender: &mut Sender<'_>|
            requires { IsSync R.row }
        { sender.run(rt) },
    );
}

/// Lets the clients submit their scripts in threads of their own while the server drains, until it has this many
/// updates.
pub fn exchange<R: Threads + Wait + Sync>(
    rt: &R,
    server: &mut Server<'_>,
    count: usize,
    senders: &mut [Sender<'_>],
) -> Result<(), AllocError> {
    thread::join_mut(
        rt,
        &mut ||
            requires { IsSync R.row }
        { server.run(rt, count) },
        &mut ||
            requires { IsSync R.row }
        { run_all(rt, senders) },
    )
    .0
}

/// Makes an intake, its drainer, and its clients, which have submitted nothing. Says what `Intake::open` says, in the
/// form that `Sender::new` and `Server::new` ask for.
pub fn open(
    alloc: Global,
    capacity: u32,
    clients: u32,
) -> Result<(Intake, Drainer, Vec<Client>), AllocError>
    requires capacity { (1 ≤ capacity) × (capacity ≤ MAX_CAPACITY) }
    requires clients { (1 ≤ clients) × (clients ≤ MAX_CLIENTS) }
    ensures drainer { IfOk result (λ r. r.1.intake ≡ r.0) }
    ensures clients { IfOk result (λ r. All (λ client. (client.intake ≡ r.0) × (client.sent ≡ [])) r.2.items) }
{
    Intake::open(alloc, capacity, clients)
}
