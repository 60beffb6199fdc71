//! Lists of numbers in the words of a line.
ghost use Rattle.std.specs.Prelude.{◌≡◌, false, nat_lt, IfOk};
ghost use Rattle.std.specs.List.{list_all};
ghost use Rattle.kc_text.specs.Words.{words};
ghost use Rattle.kc_batch.specs.Headers.{numbers_of};

use crate::Vertices;
use kc_text::{next_word, read_number};
use std::alloc::{AllocError, Global};

/// Returns the numbers in the words of a text, or None if a word is no number.
pub fn read_numbers(alloc: Global, text: &[u8]) -> Result<Option<Vertices>, AllocError>
    ensures { IfOk result (λ numbers. numbers ≡ numbers_of (words text.now)) }
{
    let mut numbers = Vertices::new(alloc);
    let mut at = 0;
    while let Some((start, end)) = next_word(text, at) {
        let Some(number) = read_number(&text[start..end]) else {
            return Ok(None);
        };
        numbers.push(number)?;
        at = end;
    }
    Ok(Some(numbers))
}

/// Returns whether all numbers are below n.
pub fn all_below(numbers: &[u32], n: u32) -> bool
    ensures { result ≡ list_all (λ v. nat_lt v n) numbers.now }
{
    numbers.iter().all(|v| *v < n)
}
