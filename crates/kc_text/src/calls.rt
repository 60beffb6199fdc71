//! The numbers of calls, some of which are chosen to fail.
ghost use Rattle.std.specs.Prelude.{◌≡◌};
ghost use Rattle.kc_text.specs.Mem.{next_number, is_failing};

// The number of every call after the last numbered one.
const NO_NUMBER: u64 = 4294967296;

/// Returns the number of the call after this many reads or writes.
pub fn number_after(calls: u64) -> u64
    ensures { result ≡ next_number calls }
{
    calls.saturating_add(1).min(NO_NUMBER)
}

/// Returns whether the call of this number was chosen to fail.
pub fn is_chosen(failing: &[u32], number: u64) -> bool
    ensures { result ≡ is_failing failing.now number }
{
    number < NO_NUMBER && failing.contains(&(number as u32))
}
