//! A round: several threads test a list of vertices piece by piece, and the vertices that pass are kept in order.
ghost use Rattle.std.specs.Prelude.{◌≡◌, ℕ, ◌-◌, ◌*◌, ◌/◌, ◌<◌, ◌≤◌, Bool, All, IfOk, filter};

use crate::{Gate, Spot};
use std::alloc::{AllocError, Global};
use std::thread;
use std::thread::Threads;

/// A test of vertices that several threads may make at once.
pub trait RoundTest {
    /// The vertices that pass.
    ghost keeps: { Self → ℕ → Bool };

    /// The vertices that may be tested.
    ghost may_ask: { Self → ℕ → Type 0 };

    /// Returns whether `v` passes.
    fn keep(&self, v: u32) -> bool
        requires { may_ask self.now v }
        ensures { result ≡ keeps self.now v };
}

/// Returns the length of a piece: the least for which there are no more pieces than workers.
pub fn piece_size(items: usize, workers: u32) -> usize
    requires few_workers { 1 ≤ workers }
    requires some { 0 < items }
    ensures positive { 0 < result }
    ensures enough { items ≤ workers * result }
    ensures least { workers * (result - 1) < items }
{
    items.div_ceil(workers as usize)
}

// Returns the number of the piece that begins at this place, counted from 0.
fn piece_index(start: usize, size: usize, workers: u32) -> u32
    requires some { 0 < size }
    requires few { start < workers * size }
    ensures { result ≡ start / size }
{
    (start / size) as u32
}

// Returns the vertices of a piece that pass, in order. Tells the gate the piece before the first test.
fn filter_piece<F: RoundTest, G: Gate>(
    alloc: Global,
    gate: &G,
    index: u32,
    piece: &[u32],
    test: &F,
) -> Result<Vec<u32>, AllocError>
    requires { All (F.may_ask test.now) piece.now }
    ensures { IfOk result (λ v. v.items ≡ filter (F.keeps test.now) piece.now) }
{
    gate.at(Spot::Piece { index });
    let mut kept = Vec::with_capacity(alloc, piece.len())?;
    for v in piece {
        if test.keep(*v) {
            kept.push(*v)?;
        }
    }
    Ok(kept)
}

/// Returns the candidates that pass, in order, for any number of workers.
///
/// `workers` is 1 to 64, and each candidate may be tested. A piece has as many candidates as their number divided by
/// `workers`, rounded up. Each piece is tested in a thread of its own if one can be made. One worker starts no thread.
/// At the start of each piece the gate gets its index. An empty list has no piece.
///
/// Tests each candidate once. Takes memory for the answer; with several workers, also for the answer of each piece.
/// Fails only if memory runs out.
pub fn filter_round<R: Threads + Sync, F: RoundTest + Sync, G: Gate + Sync>(
    rt: &R,
    alloc: Global,
    gate: &G,
    workers: u32,
    candidates: &[u32],
    test: &F,
) -> Result<Vec<u32>, AllocError>
    requires few_workers { (1 ≤ workers) × (workers ≤ 64) }
    requires asked { All (F.may_ask test.now) candidates.now }
    ensures { IfOk result (λ v. v.items ≡ filter (F.keeps test.now) candidates.now) }
{
    let mut kept = Vec::new(alloc);
    if candidates.is_empty() {
        return Ok(kept);
    }
    if workers == 1 {
        return filter_piece(alloc, gate, 0, candidates, test);
    }
    let size = piece_size(candidates.len(), workers);
    let pieces = thread::map_chunks(
        rt,
        alloc,
        candidates,
        size,
        &|start: usize, piece: &[u32]| -> Result<Vec<u32>, AllocError>
            requires { (0 < size) × (start < workers * size) × All (F.may_ask test.now) piece.now }
            ensures { IfOk result (λ v. v.items ≡ filter (F.keeps test.entry.now) piece.entry.now) }
        {
            let index = piece_index(start, size, workers);
            filter_piece(alloc, gate, index, piece, test)
        },
    )?;
    for piece in &pieces {
        match piece {
            Ok(part) => kept.extend_from_slice(part.as_slice())?,
            Err(_) => return Err(AllocError),
        }
    }
    Ok(kept)
}
