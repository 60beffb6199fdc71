//! A sink in memory whose failing calls are chosen.
ghost use Rattle.std.specs.Prelude.{◌≡◌, ◌<◌, ◌≤◌, ◌++◌, [], length, take, Some, OnErr, OnOk, IfOk, is_err};
ghost use Rattle.std.specs.Io.KnownBytes.{append_known};
ghost use Rattle.kc_text.specs.Causes.{Rose};
ghost use Rattle.kc_text.specs.Mem.{next_number, one_more, write_fails, write_size};

use crate::calls::{is_chosen, number_after};
use crate::{Failed, Sink};
use std::alloc::{AllocError, Global};
use std::marker::Model;

/// A sink that keeps the bytes that it takes, and fails at chosen calls. It takes pieces of a chosen size, and a chosen
/// number of bytes in all.
///
/// Calls are numbered from 1. Calls past the 4,294,967,295th have no number and aren't chosen. A contract sees the sink
/// as a `MemOutput` of `specs/Mem`, which determines each answer exactly.
#[derive(Drop, Debug)]
pub struct MemSink {
    // The bytes taken: at most `capacity`. Their memory is allocated at the start.
    bytes: Vec<u8>,
    // The most bytes in all.
    capacity: u32,
    // The most bytes of one call: at least 1.
    piece: u32,
    // The numbers of the calls that fail, in any order.
    failing: Vec<u32>,
    // The number of the last call: at most 4,294,967,296, which stands for none.
    calls: u64,
    // The number of failed calls.
    faults: u64,
}

impl Model for MemSink {
    ghost use Rattle.std.specs.Prelude.{◌≤◌, vec_len, vec_capacity, ◌<◌, ◌^◌};
    ghost use Rattle.kc_text.specs.Mem.{MemOutput};

    ghost Value = { MemOutput };

    ghost view = { λ m. record { taken = m.bytes.items; capacity = m.capacity; piece = m.piece; failing = m.failing.items; calls = m.calls; faults = m.faults } };

    ghost invariant = { λ m. (vec_len m.bytes ≤ m.capacity) × (m.capacity ≤ vec_capacity m.bytes) × (0 < m.piece) × (m.calls ≤ 2 ^ 32) };
}

impl MemSink {
    /// Makes an empty sink that takes at most `piece` bytes a call and `capacity` bytes in all. It fails at the calls
    /// whose numbers are in `failing`, and at each call once it is full.
    ///
    /// Allocates the memory for `capacity` bytes here, so that no write needs any.
    pub fn new(
        alloc: Global,
        capacity: u32,
        piece: u32,
        failing: &[u32],
    ) -> Result<Self, AllocError>
        requires { 0 < piece }
        ensures { IfOk result (λ m. m ≡ record { taken = []; capacity = capacity; piece = piece; failing = failing.now; calls = 0; faults = 0 }) }
    {
        Ok(MemSink {
            bytes: Vec::with_capacity(alloc, capacity as usize)?,
            capacity,
            piece,
            failing: Vec::from_slice(alloc, failing)?,
            calls: 0,
            faults: 0,
        })
    }

    /// Returns the bytes taken so far.
    pub fn bytes(&self) -> &[u8]
        ensures { result.now ≡ self.now.taken }
    {
        &self.bytes
    }
}

impl Sink for MemSink {
    ghost taken = { λ m. Some m.taken };

    ghost faults = { λ m. m.faults };

    fn write(&mut self, bytes: &[u8]) -> Result<usize, Failed>
        requires { 0 < length bytes.now }

        // The clauses of the trait.
        ensures some { IfOk result (λ k. 0 < k) }
        ensures bound { IfOk result (λ k. k ≤ length bytes.now) }
        ensures taken { IfOk result (λ k. Some self.new.taken ≡ append_known (Some self.old.taken) (take k bytes.now)) }
        ensures failed { OnErr result (Some self.new.taken ≡ Some self.old.taken) }
        ensures cause { OnErr result (Rose self.old.faults self.new.faults) }
        ensures quiet { OnOk result (self.new.faults ≡ self.old.faults) }

        // Exactly which calls fail, how much the others take, and the state after each.
        ensures fails { is_err result ≡ write_fails self.old }
        ensures size { IfOk result (λ k. k ≡ write_size self.old (length bytes.now)) }
        ensures ok { IfOk result (λ k. self.new ≡ record self.old { taken = self.old.taken ++ take k bytes.now; calls = next_number self.old.calls }) }
        ensures err { OnErr result (self.new ≡ record self.old { calls = next_number self.old.calls; faults = one_more self.old.faults }) }
    {
        self.calls = number_after(self.calls);
        let room = self.capacity as usize - self.bytes.len();
        if is_chosen(&self.failing, self.calls) || room == 0 {
            self.faults = self.faults.saturating_add(1);
            return Err(Failed);
        }
        let count = (self.piece as usize).min(bytes.len()).min(room);
        self.bytes.extend_from_slice(&bytes[..count]).unwrap();
        Ok(count)
    }
}
