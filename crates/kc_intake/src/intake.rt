//! The intake: it is opened with its clients and its drainer; clients submit items, and the drainer drains batches of
//! them.
ghost use Rattle.std.specs.Prelude.{◌≡◌, ◌≤◌, ◌<◌, [], ◌∷◌, ◌++◌, length, map, All, IfOk, OnOk, OnErr};
ghost use Rattle.std.specs.List.{range_with_len};
ghost use mathlib.Core.List.{IsPrefix};
ghost use Rattle.kc_intake.specs.Causes.{FoundEmpty, HeldAtStep, HoldsOf, StaysAtSubmit, StaysAtDrain};
ghost use Rattle.kc_intake.specs.Updates.{updates_of, updates_in, all_updates, AreNumbered};
ghost use Rattle.kc_intake.specs.Views.{client_role, new_client, submitted};

use crate::client::Client;
use crate::drainer::Drainer;
use crate::invariant::{Anything, Invariant};
use crate::limits::{MAX_CAPACITY, MAX_CLIENTS, MAX_SENT};
use crate::rule::{Adds, Begins, Compares, NewClient, Queue, Sends, TakesIn};
use crate::updates::{Empty, Full, Update};
use kc_graph::Item;
use std::alloc::{AllocError, Global};
use std::marker::Model;
use std::sync::Wait;
use std::thread::Threads;

/// The queue between clients and their server. Contracts see which queue it is, and its capacity. `I` is an invariant
/// of its updates, which its user picks.
#[derive(Drop)]
pub struct Intake<I: Invariant = Anything> {
    // Holds at most as many updates as its capacity, 1 to `MAX_CAPACITY`. It keeps `Rule` in all steps of clients and
    // drainer.
    queue: Queue<I>,
}

impl<I: Invariant> Model for Intake<I> {
    ghost use Rattle.std.specs.Prelude.{◌≡◌, ◌≤◌, ◌<◌};
    ghost use Rattle.kc_intake.specs.Views.{IntakeShape, intake_of};
    ghost use Rattle.kc_intake.specs.declared.limits.TheConstants.{MAX_CAPACITY};

    ghost Value = { IntakeShape };

    ghost view = { λ i. intake_of i.queue.table.shared.table_id };

    ghost invariant = { λ i. (i.queue.table.shared.table_id.slots ≡ i.queue.cap) × (1 ≤ i.queue.cap) × (i.queue.cap ≤ MAX_CAPACITY) };
}

impl Intake {
    /// Opens an intake as `open_with` does, with the invariant that holds of all updates (`Anything`).
    pub fn open(
        alloc: Global,
        capacity: u32,
        clients: u32,
    ) -> Result<(Intake, Drainer, Vec<Client>), AllocError>
        requires capacity { (1 ≤ capacity) × (capacity ≤ MAX_CAPACITY) }
        requires clients { (1 ≤ clients) × (clients ≤ MAX_CLIENTS) }
        ensures capacity { IfOk result (λ r. r.0.capacity ≡ capacity) }
        ensures drainer { IfOk result (λ r. r.1 ≡ record { intake = r.0; batch = []; clients = clients; taken = []; joined = [] }) }
        ensures clients { IfOk result (λ r. r.2.items ≡ map (new_client r.0) (range_with_len 0 clients)) }
    {
        Intake::<Anything>::open_with(alloc, capacity, clients)
    }
}

impl<I: Invariant> Intake<I> {
    /// Opens an intake that holds up to `capacity` updates. Returns it with its drainer, and with its clients, numbered
    /// from 0 (`new_client`). The capacity is 1 to `MAX_CAPACITY`, and there are 1 to `MAX_CLIENTS` clients. The
    /// invariant holds if nothing was drained and nothing waits.
    ///
    /// The call takes all memory that the intake, its drainer and its clients ever need. That is room for `capacity`
    /// updates in the queue, and as much in the drainer's batch. No other call takes memory.
    pub fn open_with(
        alloc: Global,
        capacity: u32,
        clients: u32,
    ) -> Result<(Intake<I>, Drainer, Vec<Client>), AllocError>
        requires capacity { (1 ≤ capacity) × (capacity ≤ MAX_CAPACITY) }
        requires clients { (1 ≤ clients) × (clients ≤ MAX_CLIENTS) }
        requires invariant { I.holds [] [] }
        ensures capacity { IfOk result (λ r. r.0.capacity ≡ capacity) }
        ensures drainer { IfOk result (λ r. r.1 ≡ record { intake = r.0; batch = []; clients = clients; taken = []; joined = [] }) }
        ensures clients { IfOk result (λ r. r.2.items ≡ map (new_client r.0) (range_with_len 0 clients)) }
    {
        let batch = Vec::with_capacity(alloc, capacity as usize)?;
        let mut opened = Vec::with_capacity(alloc, clients as usize)?;
        let (queue, mut pass) = Queue::<I>::ruled(alloc, capacity as usize)?;
        for number in 0..clients {
            let client = Client {
                pass: queue.another::<NewClient>(&mut pass),
                number,
                serial: 0,
            };
            opened.push(client).unwrap();
        }
        Ok((Intake { queue }, Drainer { pass, batch }, opened))
    }

    /// Submits an item. It is queued as an update with the client's number; its serial is the number of items that the
    /// client sent before. The client is of this intake, and has sent fewer than `MAX_SENT` items. The invariant stays
    /// true when the item is queued (`StaysAtSubmit`).
    ///
    /// `Full` comes only if the queue held its capacity at a step since the client's last `Ok` (`HeldAtStep`). Then
    /// nothing was queued, and the client is unchanged. The invariant holds of the updates that waited at this step
    /// (`MayWait`).
    ///
    /// No body can answer `Full` without such a step. The reason: the call is proved for every invariant, so no body
    /// can show that an invariant holds of updates that it made up.
    ///
    /// Cost: constant time, except that the call tries again while other threads are at the same place of the queue.
    pub fn submit<R: Threads + Wait + Sync>(
        &self,
        rt: &R,
        client: &mut Client,
        item: Item,
    ) -> Result<(), Full>
        requires intake { client.old.intake ≡ self.now }
        requires few { length client.old.sent < MAX_SENT }
        requires invariant { StaysAtSubmit I.holds self.now.capacity (submitted client.old) item }
        ensures ok { OnOk result (client.new ≡ record client.old { sent = client.old.sent ++ item ∷ [] }) }
        ensures full { OnErr result ((client.new ≡ client.old) × HeldAtStep I.holds self.now.capacity (client_role client.old)) }
    {
        let update = Update {
            client: client.number,
            serial: client.serial,
            item,
        };
        match self
            .queue
            .push_as::<Sends<I>, R>(rt, &mut client.pass, update)
        {
            Ok(()) => {
                client.serial += 1;
                Ok(())
            }
            Err(_update) => Err(Full),
        }
    }

    /// Drains a batch of 1 to `capacity` updates, oldest first. The batch is then the drainer's `batch`. The updates of
    /// each client are numbered from 0 over all batches (`AreNumbered`). The invariant holds of all drained updates,
    /// with those that then waited (`HoldsOf`). The drainer is of this intake. The invariant stays true when an update
    /// is drained (`StaysAtDrain`).
    ///
    /// The batch is shorter than `capacity` only if the queue was empty at a step after the last update was drained
    /// (`HeldAtStep`). `Empty` comes only in that case too; then the batch is empty, and nothing was drained.
    ///
    /// In both cases (`FoundEmpty`) the invariant held of the drained updates while none waited. All items are drained
    /// that were sent by the clients taken in (`AreAllDrained`).
    ///
    /// Cost: time in proportion to the batch, except that the call tries again while other threads are at the same
    /// place of the queue.
    pub fn drain<R: Threads + Wait + Sync>(
        &self,
        rt: &R,
        drainer: &mut Drainer,
    ) -> Result<(), Empty>
        requires intake { drainer.old.intake ≡ self.now }
        requires invariant { StaysAtDrain I.holds }
        ensures ok { OnOk result (drainer.new ≡ record drainer.old { batch = drainer.new.batch; taken = drainer.old.taken ++ drainer.new.batch ∷ [] }) }
        ensures size { OnOk result ((1 ≤ length drainer.new.batch) × (length drainer.new.batch ≤ self.now.capacity)) }
        ensures clients { OnOk result (All (λ u. u.client < drainer.new.clients) drainer.new.batch) }
        ensures serials { OnOk result (AreNumbered drainer.new.taken) }
        ensures invariant { OnOk result (HoldsOf I.holds (all_updates drainer.new.taken)) }
        ensures short { OnOk result (length drainer.new.batch < self.now.capacity → FoundEmpty I.holds drainer.new) }
        ensures empty { OnErr result ((drainer.new ≡ record drainer.old { batch = [] }) × FoundEmpty I.holds drainer.new) }
    {
        drainer.batch.clear();
        let Some(first) = self.queue.pop_as::<Begins<I>, R>(rt, &mut drainer.pass) else {
            return Err(Empty);
        };
        drainer.batch.push(first).unwrap();
        while drainer.batch.len() < self.queue.capacity() {
            let Some(next) = self.queue.pop_as::<Adds<I>, R>(rt, &mut drainer.pass) else {
                break;
            };
            drainer.batch.push(next).unwrap();
        }
        Ok(())
    }

    /// Takes in a client that has ended. The updates that were drained of it (`updates_of`) are the first of those that
    /// it sent (`updates_in`), in its order, each once. If a later drain finds the intake empty, they are all of them
    /// (`AreAllDrained`). The drainer and the client are of this intake. Cost: constant time.
    pub fn take_in<R: Threads + Wait + Sync>(&self, _rt: &R, drainer: &mut Drainer, client: Client)
        requires intake { (drainer.old.intake ≡ self.now) × (client.intake ≡ self.now) }
        ensures same { drainer.new ≡ record drainer.old { joined = drainer.old.joined ++ submitted client ∷ [] } }
        ensures prefix { IsPrefix (updates_of client.number (all_updates drainer.new.taken)) (updates_in (submitted client)) }
    {
        self.queue.absorb::<TakesIn>(&mut drainer.pass, client.pass);
        // By this step the drainer learns that what was drained of the client is what it sent first.
        self.queue.learn_as::<Compares<I>>(&mut drainer.pass);
    }
}
