//! The words of a line between its blanks and tabs: where each begins and ends, names, and lines that are skipped.
ghost use Rattle.std.specs.Prelude.{◌≡◌, ◌<◌, ◌≤◌, [], ◌∷◌, length, drop, IfSome, IfNone, false, slice_index};
ghost use Rattle.std.specs.List.{slice_range};
ghost use Rattle.std.specs.Str.{bytes_eq};
ghost use Rattle.kc_text.specs.Words.{words, is_blank, is_skip, WordAt, closed};

// Returns whether the byte separates words.
pub(crate) fn parts_words(byte: u8) -> bool
    ensures { result ≡ is_blank byte }
{
    byte == b' ' || byte == b'\t'
}

// Returns the first place at or after `from` that isn't blank, or the line's length.
#[tactic(auto, using(crate::proofs::Wording::word_steps))]
pub(crate) fn pass_blanks(line: &[u8], from: usize) -> usize
    requires { from ≤ length line.now }
    ensures after { from ≤ result }
    ensures within { result ≤ length line.now }
    ensures words { words (drop from line.now) ≡ words (drop result line.now) }
    ensures stop { result < length line.now → is_blank (slice_index line.now result) ≡ false }
{
    let mut at = from;
    while at < line.len() {
        if !parts_words(line[at]) {
            return at;
        }
        at += 1;
    }
    at
}

// Returns where the word ends that begins at `start`.
#[tactic(auto, using(crate::proofs::Wording::word_steps))]
fn pass_word(line: &[u8], start: usize) -> usize
    requires within { start < length line.now }
    requires begun { is_blank (slice_index line.now start) ≡ false }
    ensures after { start < result }
    ensures within { result ≤ length line.now }
    ensures words { words (drop start line.now) ≡ closed (slice_range line.now start result) (words (drop result line.now)) }
{
    let mut at = start + 1;
    while at < line.len() {
        if parts_words(line[at]) {
            return at;
        }
        at += 1;
    }
    at
}

/// Returns where the first word at or after `from` starts and ends, or None if there is none. Blanks and tabs separate
/// words. Cost: the bytes from `from` to the end of the word.
#[tactic(auto, using(crate::proofs::Wording::word_steps))]
pub fn next_word(line: &[u8], from: usize) -> Option<(usize, usize)>
    requires { from ≤ length line.now }
    ensures word { IfSome result (λ w. WordAt line.now from w.0 w.1) }
    ensures none { IfNone result (words (drop from line.now) ≡ []) }
{
    let start = pass_blanks(line, from);
    if start == line.len() {
        return None;
    }
    let end = pass_word(line, start);
    Some((start, end))
}

/// Returns the first word of a line and the bytes after it, or None if there is no word. Cost: the bytes up to the end
/// of the word.
pub fn split_word(line: &[u8]) -> Option<(&[u8], &[u8])>
    ensures word { IfSome result (λ r. words line.now ≡ r.0.now ∷ words r.1.now) }
    ensures some { IfSome result (λ r. 0 < length r.0.now) }
    ensures none { IfNone result (words line.now ≡ []) }
{
    let (start, end) = next_word(line, 0)?;
    Some((&line[start..end], &line[end..]))
}

/// Returns whether a word is this name, byte for byte.
pub fn is_named(word: &[u8], name: &[u8]) -> bool
    ensures { result ≡ bytes_eq word.now name.now }
{
    word == name
}

/// Returns whether a line is skipped: it has no word, or its first word begins with `#`.
pub fn is_skipped(line: &[u8]) -> bool
    ensures { result ≡ is_skip (words line.now) }
{
    match split_word(line) {
        Some((first, _)) => first[0] == b'#',
        None => true,
    }
}
