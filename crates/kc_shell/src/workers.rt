//! The number of workers on a command line.
ghost use Rattle.std.specs.Prelude.{◌≡◌, ◌≤◌, IfSome};
ghost use Rattle.kc_text.specs.Numbers.{number_of};
ghost use Rattle.kc_shell.specs.Workers.{few_workers};

use kc_text::read_number;

/// Returns the number of workers that a word says, 1 to 64.
pub fn workers_in(word: &[u8]) -> Option<u32>
    ensures number { result ≡ few_workers (number_of word.now) }
    ensures few { IfSome result (λ workers. (1 ≤ workers) × (workers ≤ 64)) }
{
    let workers = read_number(word)?;
    if workers < 1 || workers > 64 {
        return None;
    }
    Some(workers)
}
