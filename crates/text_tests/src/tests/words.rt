// Marks and their words, worked out by hand, up to the greatest of each.

use kc_words::{Mark, pack, unpack};

// Returns whether each is the other.
fn are_one(new: u16, label: u32, phase: u32, word: u64) -> bool {
    label < 1 << 24
        && phase < 1 << 24
        && pack(new, label, phase) == word
        && unpack(word) == Mark { new, label, phase }
}

// A level, a label, a phase, and their word.
const WORDS: &[(u16, u32, u32, u64)] = &[
    (0, 0, 0, 0),
    (1, 2, 3, 281_475_010_265_091),
    (1, 2, 3, 0x0001_0000_0200_0003),
    (2, 0, 7, 562_949_953_421_319),
    (2, 0, 7, 0x0002_0000_0000_0007),
    (0xffff, 0xff_ffff, 0xff_ffff, u64::MAX),
];

#[test]
fn words_of_marks(rt: HostRuntime) {
    for (new, label, phase, word) in WORDS {
        assert!(rt; are_one(*new, *label, *phase, *word));
    }
}
