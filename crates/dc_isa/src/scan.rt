//! The words of a line of code.

ghost use Rattle.std.specs.Prelude.{◌≡◌, ◌==◌, ◌≤◌, ◌<◌, [], ◌∷◌, length, take, drop, slice_index, IfSome, MatchOption, true, false};
ghost use Rattle.std.specs.List.{before_first};
ghost use Rattle.dc_base.specs.TextWords.{words_by, words_after};
ghost use Rattle.dc_base.specs.ProgramText.{separates};

use dc_text::place_of_byte;

/// The line up to its comment.
pub(crate) fn before_comment(line: &[u8]) -> &[u8]
    ensures { result.now ≡ before_first (λ b. b == 35) line.now }
{
    &line[..place_of_byte(line, b'#')]
}

fn is_separator(byte: u8) -> bool
    ensures { result ≡ separates byte }
{
    byte == b' ' || byte == b'\t'
}

/// The first place that is no separator's, or the length.
fn word_start(line: &[u8]) -> usize
    ensures within { result ≤ length line.now }
    ensures words { words_by separates (drop result line.now) ≡ words_by separates line.now }
    ensures word { result < length line.now → separates (slice_index line.now result) ≡ false }
{
    for at in 0..line.len() {
        if !is_separator(line[at]) {
            return at;
        }
    }
    line.len()
}

/// How many bytes stand before the first separator.
fn word_len(line: &[u8]) -> usize
    ensures within { result ≤ length line.now }
    ensures words { words_after separates (take result line.now) (drop result line.now) ≡ words_by separates line.now }
    ensures ended { result < length line.now → separates (slice_index line.now result) ≡ true }
{
    for at in 0..line.len() {
        if is_separator(line[at]) {
            return at;
        }
    }
    line.len()
}

/// The first word of a line, and what follows it. None where there is no word.
pub(crate) fn first_word(line: &[u8]) -> Option<(&[u8], &[u8])>
    ensures words { let words = words_by separates line.now in
        MatchOption result (words ≡ []) (λ found. words ≡ found.0.now ∷ words_by separates found.1.now) }
    ensures some { IfSome result (λ found. 0 < length found.0.now) }
    ensures shorter { IfSome result (λ found. length found.1.now < length line.now) }
{
    let line = &line[word_start(line)..];
    let len = word_len(line);
    if len == 0 {
        None
    } else {
        Some((&line[..len], &line[len..]))
    }
}
