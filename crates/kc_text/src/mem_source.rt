//! A source in memory whose failing calls are chosen.
ghost use Rattle.std.specs.Prelude.{◌≡◌, ◌<◌, ◌≤◌, length, take, drop, Some, OnErr, OnOk, IfOk, is_err};
ghost use Rattle.std.specs.Io.KnownBytes.{prepend_known, IsAtEnd};
ghost use Rattle.kc_text.specs.Causes.{Rose};
ghost use Rattle.kc_text.specs.Mem.{next_number, one_more, read_fails, read_size};

use crate::calls::{is_chosen, number_after};
use crate::{Failed, Source};
use std::alloc::{AllocError, Global};
use std::marker::Model;

/// A source that gives the bytes of a list in pieces of a chosen size, and fails at chosen calls.
///
/// Calls are numbered from 1. Calls past the 4,294,967,295th have no number and don't fail. A contract sees the source
/// as a `MemInput` of `specs/Mem`, which determines each answer exactly.
#[derive(Drop, Debug)]
pub struct MemSource {
    // All bytes, read or not.
    bytes: Vec<u8>,
    // The number of bytes read: at most all.
    at: usize,
    // The most bytes of one call: at least 1.
    piece: u32,
    // The numbers of the calls that fail, in any order.
    failing: Vec<u32>,
    // The number of the last call: at most 4,294,967,296, which stands for none.
    calls: u64,
    // The number of failed calls.
    faults: u64,
}

impl Model for MemSource {
    ghost use Rattle.std.specs.Prelude.{drop, ◌≤◌, vec_len, ◌<◌, ◌^◌};
    ghost use Rattle.kc_text.specs.Mem.{MemInput};

    ghost Value = { MemInput };

    ghost view = { λ m. record { left = drop m.at m.bytes.items; piece = m.piece; failing = m.failing.items; calls = m.calls; faults = m.faults } };

    ghost invariant = { λ m. (m.at ≤ vec_len m.bytes) × (0 < m.piece) × (m.calls ≤ 2 ^ 32) };
}

impl MemSource {
    /// Makes a source over a copy of `bytes`. It gives at most `piece` bytes a call, and fails exactly at the calls
    /// whose numbers are in `failing`.
    pub fn new(alloc: Global, bytes: &[u8], piece: u32, failing: &[u32]) -> Result<Self, AllocError>
        requires { 0 < piece }
        ensures { IfOk result (λ m. m ≡ record { left = bytes.now; piece = piece; failing = failing.now; calls = 0; faults = 0 }) }
    {
        Ok(MemSource {
            bytes: Vec::from_slice(alloc, bytes)?,
            at: 0,
            piece,
            failing: Vec::from_slice(alloc, failing)?,
            calls: 0,
            faults: 0,
        })
    }
}

impl Source for MemSource {
    ghost left = { λ m. Some m.left };

    ghost faults = { λ m. m.faults };

    fn read(&mut self, buf: &mut [u8]) -> Result<usize, Failed>
        requires { 0 < length buf.old }

        // The clauses of the trait.
        ensures bound { IfOk result (λ k. k ≤ length buf.new) }
        ensures given { IfOk result (λ k. Some self.old.left ≡ prepend_known (take k buf.new) (Some self.new.left)) }
        ensures end { IfOk result (λ k. k ≡ 0 → IsAtEnd (Some self.new.left)) }
        ensures failed { OnErr result (Some self.new.left ≡ Some self.old.left) }
        ensures cause { OnErr result (Rose self.old.faults self.new.faults) }
        ensures quiet { OnOk result (self.new.faults ≡ self.old.faults) }

        // Exactly which calls fail, how much the others give, and the state after each.
        ensures fails { is_err result ≡ read_fails self.old }
        ensures size { IfOk result (λ k. k ≡ read_size self.old (length buf.old)) }
        ensures ok { IfOk result (λ k. self.new ≡ record self.old { left = drop k self.old.left; calls = next_number self.old.calls }) }
        ensures err { OnErr result (self.new ≡ record self.old { calls = next_number self.old.calls; faults = one_more self.old.faults }) }
    {
        self.calls = number_after(self.calls);
        if is_chosen(&self.failing, self.calls) {
            self.faults = self.faults.saturating_add(1);
            return Err(Failed);
        }
        let rest = &self.bytes[self.at..];
        let count = (self.piece as usize).min(buf.len()).min(rest.len());
        buf[..count].copy_from_slice(&rest[..count]);
        self.at += count;
        Ok(count)
    }
}
