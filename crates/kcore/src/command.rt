//! The commands of `kcore`, and the command of a command line.
ghost use Rattle.std.specs.Prelude.{◌≡◌, ◌≤◌, ◌∷◌, [], length, Some};
ghost use Rattle.kc_text.specs.Numbers.{number_of};
ghost use Rattle.kc_shell.specs.Workers.{few_workers};
ghost use Rattle.kcore.specs.Commands.{fits_load, gen_with, command_of};
ghost use Rattle.kcore.specs.private.Commands.{FitsWorkers};

use kc_graph::{MAX_ITEMS, MAX_VERTICES};
use kc_shell::workers_in;
use kc_text::{Words, is_named, read_number};

/// The command of a command line.
#[derive(Clone, Copy, Debug, PartialEq, Eq)]
pub enum Command {
    /// `run W`: apply the batches of an input one after another with W workers, 1 to 64. Print each batch, and then
    /// each vertex.
    Run {
        workers: u32,
    },
    /// `final W`: apply the batches of an input one after another with W workers, 1 to 64. Print the certificate of the
    /// graph and the levels after them.
    Final {
        workers: u32,
    },
    /// `orient W`: apply the batches of an input one after another with W workers, 1 to 64. Print the colour and the
    /// out-neighbours of each vertex after them.
    Orient {
        workers: u32,
    },
    /// `exact`: apply the batches of an input one after another. Print the coreness of each vertex after them.
    Exact,
    /// `check`: read a certificate, and print the verdict on its levels.
    Check,
    /// `audit`: read a run text, and print whether its groups explain its readers.
    Audit,
    /// `dense`: apply the batches of an input one after another. Print a dense part of the graph after them.
    Dense,
    /// `gen SEED N B M W`: apply the batches of a generated load one after another with W workers, 1 to 64, beside two
    /// readers. Print the counts of this session.
    ///
    /// The load has N vertices, 1 to 16,777,216, and B batches, 1 to 1,024, of M items each, at most 1,048,576. All
    /// batches together have at most 33,554,432 items, which are drawn from the seed.
    Gen {
        seed: u32,
        n: u32,
        batches: u32,
        items: u32,
        workers: u32,
    },
}

// Returns the command of two words.
#[tactic(auto, unfolding(crate::specs::Commands::command_of))]
fn of_two(name: &[u8], workers: &[u8]) -> Option<Command>
    ensures command { result ≡ command_of (name.now ∷ workers.now ∷ []) }
    ensures few { FitsWorkers result }
{
    let workers = workers_in(workers)?;
    if is_named(name, b"run") {
        Some(Command::Run { workers })
    } else if is_named(name, b"final") {
        Some(Command::Final { workers })
    } else if is_named(name, b"orient") {
        Some(Command::Orient { workers })
    } else {
        None
    }
}

// Returns the command of one word.
#[tactic(auto, unfolding(crate::specs::Commands::command_of))]
fn of_one(name: &[u8]) -> Option<Command>
    ensures command { result ≡ command_of (name.now ∷ []) }
    ensures few { FitsWorkers result }
{
    if is_named(name, b"exact") {
        Some(Command::Exact)
    } else if is_named(name, b"check") {
        Some(Command::Check)
    } else if is_named(name, b"audit") {
        Some(Command::Audit)
    } else if is_named(name, b"dense") {
        Some(Command::Dense)
    } else {
        None
    }
}

// Returns whether these are numbers of a load.
fn fits_load(n: u32, batches: u32, items: u32) -> bool
    ensures { result ≡ fits_load n batches items }
{
    n >= 1
        && n <= MAX_VERTICES
        && batches >= 1
        && batches <= 1024
        && items <= MAX_ITEMS
        && batches * items <= 33_554_432
}

// Returns `gen` with the numbers of five words.
fn gen_with(seed: &[u8], n: &[u8], batches: &[u8], items: &[u8], workers: &[u8]) -> Option<Command>
    ensures command { result ≡ gen_with (number_of seed.now) (number_of n.now) (number_of batches.now) (number_of items.now) (few_workers (number_of workers.now)) }
    ensures few { FitsWorkers result }
{
    let seed = read_number(seed)?;
    let n = read_number(n)?;
    let batches = read_number(batches)?;
    let items = read_number(items)?;
    let workers = workers_in(workers)?;
    if !fits_load(n, batches, items) {
        return None;
    }
    Some(Command::Gen {
        seed,
        n,
        batches,
        items,
        workers,
    })
}

// Returns the command of six words.
fn of_six(words: &Words) -> Option<Command>
    requires six { length words.now ≡ 6 }
    ensures command { result ≡ command_of words.now }
    ensures few { FitsWorkers result }
{
    if is_named(words.word(0), b"gen") {
        gen_with(
            words.word(1),
            words.word(2),
            words.word(3),
            words.word(4),
            words.word(5),
        )
    } else {
        None
    }
}

impl Command {
    /// Returns the command of a command line, or None if the words are no command.
    pub fn from_words(words: &Words) -> Option<Command>
        ensures command { result ≡ command_of words.now }
        ensures few { FitsWorkers result }
    {
        let count = words.len();
        if count == 1 {
            return of_one(words.word(0));
        }
        if count == 6 {
            return of_six(words);
        }
        if count != 2 {
            return None;
        }
        of_two(words.word(0), words.word(1))
    }

    /// Returns the number of workers of the command, 1 to 64: 1 if it names none.
    pub fn workers(self) -> u32
        requires { FitsWorkers (Some self) }
        ensures { (1 ≤ result) × (result ≤ 64) }
    {
        match self {
            Command::Run { workers }
            | Command::Final { workers }
            | Command::Orient { workers }
            | Command::Gen { workers, .. } => workers,
            Command::Exact | Command::Check | Command::Audit | Command::Dense => 1,
        }
    }
}
