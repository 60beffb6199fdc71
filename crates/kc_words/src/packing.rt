//! A mark in a word. From the lowest bit: the phase in 24 bits, the label in 24, the new level in 16.
ghost use Rattle.std.specs.Prelude.{◌≡◌, ◌<◌, ◌^◌};
ghost use Rattle.kc_words.specs.Packed.{packed, unpacked};

use crate::Mark;

/// Returns the word of a mark (`packed`). Label and phase are below 16,777,216.
pub fn pack(new: u16, label: u32, phase: u32) -> u64
    requires label { label < 2 ^ 24 }
    requires phase { phase < 2 ^ 24 }
    ensures { result ≡ packed new label phase }
{
    (u64::from(new) << 48) + (u64::from(label) << 24) + u64::from(phase)
}

/// Returns the mark of a word (`unpacked`). Each word is the word of one mark.
pub fn unpack(word: u64) -> Mark
    ensures { result ≡ unpacked word }
{
    Mark {
        new: (word >> 48) as u16,
        label: (word >> 24 & 0xff_ffff) as u32,
        phase: (word & 0xff_ffff) as u32,
    }
}
