//! One client and the server on one thread, and clients in threads of their own beside a server that only drains. A
//! plain walk compares what was drained with the scripts.
ghost use Rattle.std.specs.Prelude.{◌≡◌, ◌≤◌, [], length, All};

use crate::tests::support::{Bench, draw_item};
use kc_graph::Item;
use kc_intake::{Client, Drainer, Intake, MAX_SENT, Update};
use std::sync::Wait;
use store_support::clients::{Sender, Server, exchange, open};
use test_support::random::Random;

// A client and the server of an intake on one thread.
#[derive(Drop)]
struct Desk<'a> {
    intake: &'a Intake,
    drainer: Drainer,
    client: Client,
    // How many items the client has submitted.
    sent: u32,
    ghost server: { drainer.intake ≡ intake.now },
    ghost of: { client.intake ≡ intake.now },
    ghost counted: { length client.sent ≡ sent },
}

impl<'a> Desk<'a> {
    fn new(intake: &'a Intake, drainer: Drainer, client: Client) -> Desk<'a>
        requires server { drainer.intake ≡ intake.now }
        requires client { (client.intake ≡ intake.now) × (client.sent ≡ []) }
    {
        Desk {
            intake,
            drainer,
            client,
            sent: 0,
        }
    }

    // Submits an item, and says whether it fits.
    fn submits<R: Bench + Wait>(&mut self, rt: &R, item: Item) -> bool {
        if self.sent == MAX_SENT || self.intake.submit(rt, &mut self.client, item).is_err() {
            return false;
        }
        self.sent += 1;
        true
    }

    // Drains, and returns whether the batch is these items, numbered from `first` on. If there are none, the intake has
    // to be empty.
    fn drains<R: Bench + Wait>(&mut self, rt: &R, first: u32, items: &[Item]) -> bool {
        let is_empty = self.intake.drain(rt, &mut self.drainer).is_err();
        let batch = self.drainer.batch();
        is_empty == items.is_empty() && batch.len() == items.len() && are_of(batch, 0, first, items)
    }
}

// Returns whether the updates of a client are these items in order, numbered from `first` on.
fn are_of(updates: &[Update], client: u32, first: u32, items: &[Item]) -> bool {
    let mut count = 0u32;
    for update in updates {
        if update.client == client {
            if update.serial != first.wrapping_add(count)
                || items.get(count as usize) != Some(&update.item)
            {
                return false;
            }
            count = count.wrapping_add(1);
        }
    }
    count as usize == items.len()
}

const INSERT: Item = Item::Insert { u: 0, v: 1 };

const ISOLATE: Item = Item::Isolate { v: 7 };

// Returns an intake with one client.
fn open_for_one(rt: &impl Bench, capacity: u32) -> (Intake, Drainer, Client)
    requires capacity { (1 ≤ capacity) × (capacity ≤ 65536) }
    ensures drainer { result.1.intake ≡ result.0 }
    ensures client { (result.2.intake ≡ result.0) × (result.2.sent ≡ []) }
{
    let (intake, drainer, mut clients) = Intake::open(rt.alloc(), capacity, 1).expect(rt, "memory");
    let client = clients.pop().unwrap();
    (intake, drainer, client)
}

// Returns whether these items fit, and one more doesn't. Then they are drained, and there are no more.
fn fills_and_empties<R: Bench + Wait>(rt: &R, desk: &mut Desk<'_>, items: &[Item]) -> bool {
    if !desk.drainer.batch().is_empty() {
        return false;
    }
    for item in items {
        if !desk.submits(rt, *item) {
            return false;
        }
    }
    !desk.submits(rt, INSERT) && desk.drains(rt, 0, items) && desk.drains(rt, 0, &[])
}

// Fills and empties an intake for this number of items, or ends the test.
fn expect_room<R: Bench + Wait>(rt: &R, capacity: u32, items: &[Item])
    requires capacity { (1 ≤ capacity) × (capacity ≤ 65536) }
{
    let (intake, drainer, client) = open_for_one(rt, capacity);
    let mut desk = Desk::new(&intake, drainer, client);
    assert!(rt; fills_and_empties(rt, &mut desk, items));
    drop(desk);
}

const TWO: &[Item] = &[INSERT, ISOLATE];

#[test]
fn three_submits_and_two_drains(rt: HostRuntime) {
    expect_room(&rt, 2, TWO);
}

const FIVE: &[Item] = &[INSERT, ISOLATE, INSERT, INSERT, ISOLATE];

#[test]
fn a_queue_of_five_is_filled_and_drained(rt: HostRuntime) {
    expect_room(&rt, 5, FIVE);
}

const FIRST: &[Item] = &[INSERT];

const LAST: &[Item] = &[ISOLATE];

// Returns whether an item of a client is drained, and one more submitted.
fn leaves_one<R: Bench + Wait>(rt: &R, desk: &mut Desk<'_>) -> bool {
    desk.drains(rt, 0, &[])
        && desk.submits(rt, INSERT)
        && desk.drains(rt, 0, FIRST)
        && desk.submits(rt, ISOLATE)
}

// Takes the client in. Says whether its last update is drained afterwards, and then there are no more.
fn takes_in<R: Bench + Wait>(rt: &R, desk: Desk<'_>) -> bool {
    let Desk {
        intake,
        drainer,
        client,
        sent: _,
    } = desk;
    let mut drainer = drainer;
    intake.take_in(rt, &mut drainer, client);
    intake.drain(rt, &mut drainer).is_ok()
        && drainer.batch().len() == 1
        && are_of(drainer.batch(), 0, 1, LAST)
        && intake.drain(rt, &mut drainer).is_err()
}

#[test]
fn a_client_is_taken_in_before_its_last_update(rt: HostRuntime) {
    let (intake, drainer, client) = open_for_one(&rt, 1);
    let mut desk = Desk::new(&intake, drainer, client);
    assert!(rt; leaves_one(&rt, &mut desk));
    assert!(rt; takes_in(&rt, desk));
}

// Returns a script of this number of items.
fn random_script(rt: &impl Bench, random: &mut Random, length: u32) -> Vec<Item> {
    let mut script = Vec::new(rt.alloc());
    for _i in 0..length {
        let sign = match random.below(3) {
            0 => b'+',
            1 => b'-',
            _ => b' ',
        };
        script
            .push(draw_item(random, sign, 1000))
            .expect(rt, "memory");
    }
    script
}

// Returns the clients with scripts of these lengths.
fn senders_of<'a>(
    rt: &impl Bench,
    intake: &'a Intake,
    clients: Vec<Client>,
    lengths: &[u32],
) -> Vec<Sender<'a>>
    requires { All (λ client. (client.intake ≡ intake.now) × (client.sent ≡ [])) clients.items }
{
    let mut random = Random::new(29);
    let mut senders = Vec::new(rt.alloc());
    for client in clients {
        let length = lengths.get(senders.len()).copied().unwrap_or(0);
        let script = random_script(rt, &mut random, length);
        senders
            .push(Sender::new(intake, client, script))
            .expect(rt, "memory");
    }
    senders
}

// Returns how many items the senders have.
fn count_items(senders: &[Sender<'_>]) -> usize {
    let mut count = 0usize;
    for sender in senders {
        count = count.saturating_add(sender.script().len());
    }
    count
}

// Returns whether the updates are the scripts of the senders, each script in its order, and each item once.
fn are_delivered(senders: &[Sender<'_>], updates: &[Update]) -> bool {
    let mut client = 0u32;
    for sender in senders {
        if !are_of(updates, client, 0, sender.script()) {
            return false;
        }
        client = client.wrapping_add(1);
    }
    updates.len() == count_items(senders)
}

// Returns whether the server gets each script whole and in order while the clients submit, and afterwards finds the
// intake empty.
fn delivers<R: Bench + Wait>(
    rt: &R,
    intake: &Intake,
    drainer: Drainer,
    senders: &mut [Sender<'_>],
) -> bool
    requires { drainer.intake ≡ intake.now }
{
    let count = count_items(senders);
    let mut server = Server::new(rt.alloc(), intake, drainer, true, count).expect(rt, "memory");
    exchange(rt, &mut server, count, senders).expect(rt, "memory");
    are_delivered(senders, server.updates()) && matches!(server.drain(rt), Ok(false))
}

// Eight clients with scripts of these lengths submit while the server drains.
fn expect_exchange<R: Bench + Wait>(rt: &R, capacity: u32, lengths: &[u32])
    requires capacity { (1 ≤ capacity) × (capacity ≤ 65536) }
{
    let (intake, drainer, clients) = open(rt.alloc(), capacity, 8).expect(rt, "memory");
    let mut senders = senders_of(rt, &intake, clients, lengths);
    assert!(rt; delivers(rt, &intake, drainer, senders.as_mut_slice()));
    drop(senders);
}

const EIGHT: &[u32] = &[3000; 8];

#[test]
fn eight_clients(rt: HostRuntime) {
    expect_exchange(&rt, 64, EIGHT);
}

const VERY_DIFFERENT: &[u32] = &[0, 20_000, 1, 300, 2, 5000, 0, 40];

#[test]
fn clients_of_very_different_lengths(rt: HostRuntime) {
    expect_exchange(&rt, 1024, VERY_DIFFERENT);
}

const SHORT: &[u32] = &[100, 1, 0, 7, 100, 100, 30, 2];

#[test]
fn a_queue_of_one(rt: HostRuntime) {
    expect_exchange(&rt, 1, SHORT);
}
