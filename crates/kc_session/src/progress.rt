//! The progress of the batches of a session, for readers that run beside them.

use std::sync::atomic::AtomicU64;
use std::sync::atomic::Ordering::SeqCst;
use std::thread;

// The word before the batches begin, from then on until the first of them is shown, and once they have ended.
const NOT_BEGUN: u64 = 0;

const BEGUN: u64 = 1;

const ENDED: u64 = u64::MAX;

// The most looks of a reader for the beginning of the batches. On a busy machine their thread may begin some
// milliseconds late.
const FIRST_LOOKS: u32 = 32_768;

/// The progress of the batches of a session: a word that the thread of the batches stores, and that readers load.
///
/// A reader looks at the word between two repetitions of its ask. No reply depends on the word, and no thread waits for
/// it. A reader looks a bounded number of times, and lets other threads run after each look.
#[derive(Drop)]
pub struct Progress {
    // `NOT_BEGUN`, then `BEGUN`, which grows by 1 with each batch that moved a vertex, and at last `ENDED`.
    word: AtomicU64,
    // The most looks of a reader between two repetitions.
    looks: u32,
}

impl Progress {
    /// Makes the progress of batches that haven't begun. A reader looks at most `looks` times between two repetitions.
    pub fn new(looks: u32) -> Self {
        Progress {
            word: AtomicU64::new(NOT_BEGUN),
            looks,
        }
    }

    /// Tells readers that the batches begin. From now on a reader looks between two repetitions.
    pub fn begin(&self) {
        self.word.store(BEGUN, SeqCst);
    }

    /// Tells readers that a batch with this number of moves was shown. If a vertex moved, a looking reader goes on.
    pub fn advance(&self, moves: u32) {
        if moves > 0 {
            self.word.fetch_add(1, SeqCst);
        }
    }

    /// Tells readers that the batches have ended. From now on no reader looks.
    pub fn end(&self) {
        self.word.store(ENDED, SeqCst);
    }

    // Looks until the word is another than `seen`, at most `looks` times, and returns the word found last.
    fn look(&self, seen: u64, looks: u32) -> u64 {
        for _look in 0..looks {
            let word = self.word.load(SeqCst);
            if word != seen {
                return word;
            }
            thread::yield_now();
        }
        seen
    }
}

/// The pace of a reader. It puts the next repetition of its ask after a batch moved a vertex since the last repetition
/// began, or after its looks.
#[derive(Drop)]
pub(crate) struct Pace<'a> {
    progress: &'a Progress,
    // The word when the last repetition began.
    seen: u64,
    // The number of questions of a repetition.
    questions: usize,
    // The first question of the next repetition.
    next: usize,
}

impl<'a> Pace<'a> {
    /// Looks for the beginning of the batches, before a reader puts its first question. A repetition has this number of
    /// questions.
    pub fn begin(progress: &'a Progress, questions: usize) -> Self {
        Pace {
            progress,
            seen: progress.look(NOT_BEGUN, FIRST_LOOKS.min(progress.looks)),
            questions,
            next: questions,
        }
    }

    /// Looks whether a batch moved a vertex since the last repetition began, if question i begins the next one.
    ///
    /// Goes on at once until the batches begin, and once they have ended.
    pub fn keep(&mut self, i: usize) {
        if i == self.next {
            self.next = i.wrapping_add(self.questions);
            self.seen = match self.seen {
                NOT_BEGUN | ENDED => self.progress.word.load(SeqCst),
                seen => self.progress.look(seen, self.progress.looks),
            };
        }
    }
}
