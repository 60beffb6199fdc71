// Clients with scripts of their own: the updates that are printed of each are its script.
use super::support::{answer, at_once, put};
use kc_shell::Status;
use std::process::Abort;
use std::sync::Wait;
use std::test::Fail;
use std::thread::Threads;

// Puts the line of a client's item at the end of its script. The items of a client are numbered by `serial`, and every
// fifth is a deletion. One vertex is 0 to 7, by the client, and the other 10 to 39, by the item.
fn put_item<R: Abort>(rt: &R, script: &mut Vec<u8>, client: usize, serial: usize) {
    let sign = if serial % 5 == 4 { b'-' } else { b'+' };
    let u = (client % 8) as u8;
    let v = (10 + serial % 30) as u8;
    put(
        rt,
        script,
        &[
            sign,
            b' ',
            b'0' + u,
            b' ',
            b'0' + v / 10,
            b'0' + v % 10,
            b'\n',
        ],
    );
}

// Returns the lines of a client's script with this number of items.
fn script_of<R: AllocGlobal + Abort>(rt: &R, client: usize, items: usize) -> Vec<u8> {
    let mut script = Vec::new(rt.alloc());
    for serial in 0..items {
        put_item(rt, &mut script, client, serial);
    }
    script
}

// Returns the words of a line before the item that was taken of a client.
fn name_of<R: AllocGlobal + Abort>(rt: &R, client: usize) -> String {
    format!(in rt.alloc(); "take {client} ").expect(rt, "memory for a name")
}

// Puts the item of a line at the end, if the line begins so.
fn put_taken<R: Abort>(rt: &R, items: &mut Vec<u8>, line: &[u8], name: &[u8]) {
    if let Some(item) = line.strip_prefix(name) {
        put(rt, items, item);
        put(rt, items, b"\n");
    }
}

// Returns the items of the lines that begin so, a line each.
fn taken_by<R: AllocGlobal + Abort>(rt: &R, name: &[u8], text: &[u8]) -> Vec<u8> {
    let mut items = Vec::new(rt.alloc());
    for line in text.split(|b| *b == b'\n') {
        put_taken(rt, &mut items, line, name);
    }
    items
}

// Returns whether the items that a text says were taken of a client are its script.
fn is_taken<R: AllocGlobal + Abort>(rt: &R, client: usize, items: usize, text: &[u8]) -> bool {
    let name = name_of(rt, client);
    let taken = taken_by(rt, name.as_str().as_bytes(), text);
    let script = script_of(rt, client, items);
    taken.as_slice() == script.as_slice()
}

// Puts the block of a client at the end.
fn put_block<R: AllocGlobal + Abort>(rt: &R, input: &mut Vec<u8>, client: usize, items: usize) {
    let script = script_of(rt, client, items);
    put(rt, input, b"batch\n");
    put(rt, input, script.as_slice());
    put(rt, input, b"end\n");
}

// Returns an input with scripts of these lengths.
fn input_of<R: AllocGlobal + Abort>(rt: &R, lengths: &[usize]) -> Vec<u8> {
    let mut input = Vec::new(rt.alloc());
    put(rt, &mut input, b"kserve 1\nvertices 40\n");
    for client in 0..lengths.len() {
        put_block(rt, &mut input, client, lengths[client]);
    }
    input
}

// Returns whether a text has the scripts of all clients.
fn all_are_taken<R: AllocGlobal + Abort>(rt: &R, lengths: &[usize], text: &[u8]) -> bool {
    for client in 0..lengths.len() {
        if !is_taken(rt, client, lengths[client], text) {
            return false;
        }
    }
    true
}

// Returns whether scripts of these lengths are served.
pub fn are_served<R: Threads + Wait + Sync + AllocGlobal + Abort>(
    rt: &R,
    lengths: &[usize],
) -> bool {
    let input = input_of(rt, lengths);
    let (status, sink) = answer(rt, at_once("4", input.as_slice()));
    status == Status::Done && all_are_taken(rt, lengths, sink.bytes())
}

const EIGHT: &[usize] = &[2000; 8];

#[test]
fn eight_clients(rt: HostRuntime) -> Result<(), Fail> {
    assert!(rt; are_served(&rt, EIGHT));
    Ok(())
}

const DIFFERENT: &[usize] = &[0, 20_000, 1, 300, 2, 5000, 0, 40];

#[test]
fn clients_of_very_different_lengths(rt: HostRuntime) -> Result<(), Fail> {
    assert!(rt; are_served(&rt, DIFFERENT));
    Ok(())
}

const SIXTY_FOUR: &[usize] = &[50; 64];

#[test]
fn sixty_four_clients(rt: HostRuntime) -> Result<(), Fail> {
    assert!(rt; are_served(&rt, SIXTY_FOUR));
    Ok(())
}
