//! The members of a group: the words of its moves, composed by one thread or by several.
ghost use Rattle.std.specs.Prelude.{◌≡◌, ◌≤◌, ◌<◌, ◌∷◌, ◌++◌, OnOk, IfOk, length, drop};
ghost use Rattle.std.specs.List.{flat_map};
ghost use Rattle.std.specs.Thread.{IsSync};
ghost use Rattle.kc_report.specs.Lines.{member_word};

use crate::held::BLOCK;
use crate::pairs::{LONGEST, write_pair};
use kc_graph::Crew;
use kc_history::Move;
use kc_text::LineBuf;
use std::alloc::{AllocError, Global};
use std::thread;
use std::thread::Threads;

/// What composes the members of a group. The text doesn't depend on it.
pub trait Members {
    /// What has to hold before a call.
    ghost may_fill: { Self → Type 0 };

    /// Returns how many bytes of group lines are held before they are sent.
    fn block(&self) -> usize;

    /// Appends for each move a blank, its vertex and its new level.
    fn fill(&self, buf: &mut LineBuf, moves: &[Move]) -> Result<(), AllocError>
        requires { may_fill self.now }
        ensures { OnOk result (buf.new ≡ buf.old ++ flat_map (λ m. 32 ∷ member_word m) moves.now) };
}

// The number of members that are composed before they are appended. An append costs as much as composing a
// member.
const TOGETHER: usize = 8;

// The most bytes of these members.
const ROOM: usize = TOGETHER * LONGEST;

// Writes the members of a few moves so that they end where the array ends. Returns where they start.
fn write_members(moves: &[Move], words: &mut [u8; ROOM]) -> usize
    requires { length moves.now ≤ 8 }
    ensures within { result ≤ 176 }
    ensures written { drop result words.new ≡ flat_map (λ m. 32 ∷ member_word m) moves.now }
{
    let mut at = ROOM;
    let mut left = moves.len();
    while left > 0 {
        left -= 1;
        let m = &moves[left];
        at = write_pair(m.vertex, b':', u32::from(m.new), words, at);
    }
    at
}

fn fill_members(buf: &mut LineBuf, moves: &[Move]) -> Result<(), AllocError>
    ensures { OnOk result (buf.new ≡ buf.old ++ flat_map (λ m. 32 ∷ member_word m) moves.now) }
{
    let mut words = [0; ROOM];
    let mut rest = moves;
    while !rest.is_empty() {
        let (piece, later) = rest.split_at(rest.len().min(TOGETHER));
        let start = write_members(piece, &mut words);
        buf.put(&words[start..])?;
        rest = later;
    }
    Ok(())
}

/// Composes the members one after another, in the thread of the caller.
pub struct InTurn;

impl Members for InTurn {
    ghost may_fill = { λ _. Unit {0} };

    /// Returns 1: each line is sent by itself.
    fn block(&self) -> usize {
        1
    }

    fn fill(&self, buf: &mut LineBuf, moves: &[Move]) -> Result<(), AllocError> {
        fill_members(buf, moves)
    }
}

// The least number of moves of a piece, whose words cost more than to start and join a thread.
const LEAST_SHARED: usize = 8_192;

fn members_of(alloc: Global, moves: &[Move]) -> Result<LineBuf, AllocError>
    ensures { IfOk result (λ text. text ≡ flat_map (λ m. 32 ∷ member_word m) moves.now) }
{
    let mut text = LineBuf::new(alloc);
    fill_members(&mut text, moves)?;
    Ok(text)
}

// Appends the members of pieces of this size. Each piece is composed in a thread of its own if one can be made.
fn fill_pieces<R: Threads + Sync>(
    crew: &Crew<'_, R>,
    buf: &mut LineBuf,
    moves: &[Move],
    size: usize,
) -> Result<(), AllocError>
    requires { 0 < size }
    ensures { OnOk result (buf.new ≡ buf.old ++ flat_map (λ m. 32 ∷ member_word m) moves.now) }
{
    let alloc = crew.alloc;
    let pieces = thread::map_chunks(
        crew.rt,
        alloc,
        moves,
        size,
        &|_start: usize, piece: &[Move]| -> Result<LineBuf, AllocError>
            ensures { IfOk result (λ text. text ≡ flat_map (λ m. 32 ∷ member_word m) piece.entry.now) }
        { members_of(alloc, piece) },
    )?;
    for piece in &pieces {
        match piece {
            Ok(text) => buf.put(text.as_bytes())?,
            Err(_) => return Err(AllocError),
        }
    }
    Ok(())
}

/// Long groups are composed in pieces, by the workers of the crew.
impl<R: Threads + Sync> Members for Crew<'_, R> {
    ghost may_fill = { λ _. IsSync R.row };

    /// Returns `BLOCK`.
    fn block(&self) -> usize {
        BLOCK
    }

    fn fill(&self, buf: &mut LineBuf, moves: &[Move]) -> Result<(), AllocError> {
        let size = self.piece_len(moves.len(), LEAST_SHARED);
        if moves.len() <= size {
            return fill_members(buf, moves);
        }
        fill_pieces(self, buf, moves, size)
    }
}
