//! The words of a line, and their numbers.

ghost use Rattle.std.specs.Prelude.{◌≡◌, ◌+◌, ◌<◌, ◌≤◌, ◌^◌, length, bytes_eq};
ghost use Rattle.dc_base.specs.TextWords.{first_words};
ghost use Rattle.dc_base.specs.LooseWords as spec;
ghost use Rattle.dc_journal.specs.Lines.{texts};

use arrayvec::ArrayVec;
use dc_base::numbers::{BlockNo, CoreNo, LineNo};
use dc_text::{word_in, words};

/// The first 16 words of a line.
pub(crate) fn words_in(line: &[u8]) -> ArrayVec<&[u8], 16>
    requires { length line.now < 2 ^ 32 }
    ensures { texts result.items ≡ first_words line.now }
{
    let places = words(line);
    let mut found = ArrayVec::new();
    for place in places.as_slice() {
        found.push(word_in(line, *place));
    }
    found
}

/// The word at a place, or no byte.
pub(crate) fn word_at<'a>(words: &[&'a [u8]], at: usize) -> &'a [u8]
    ensures { result.now ≡ spec.word_at (texts words.now) at }
{
    match words.get(at) {
        Some(word) => word,
        None => b"",
    }
}

/// The last word, or no byte.
fn last_word<'a>(words: &[&'a [u8]]) -> &'a [u8]
    ensures { result.now ≡ spec.last_word (texts words.now) }
{
    match words.last() {
        Some(word) => word,
        None => b"",
    }
}

/// Whether a word is spelled so.
pub(crate) fn is_word(spelling: &str, word: &[u8]) -> bool
    ensures { result ≡ bytes_eq spelling.now word.now }
{
    spelling.as_bytes() == word
}

/// Whether the word at a place is spelled so.
pub(crate) fn is_at(words: &[&[u8]], at: usize, spelling: &str) -> bool
    ensures { result ≡ bytes_eq spelling.now (spec.word_at (texts words.now) at) }
{
    is_word(spelling, word_at(words, at))
}

/// The number of a word of digits that is at most `most`, or 0 where the word is no such number.
fn loose_number(most: u64, word: &[u8]) -> u64
    ensures number { result ≡ spec.loose_number (most + 1) word.now }
    ensures within { result ≤ most }
{
    let mut n = 0u128;
    for at in 0..word.len() {
        if !word[at].is_ascii_digit() {
            return 0;
        }
        n = n * 10 + (word[at] - b'0') as u128;
        if n > most as u128 {
            return 0;
        }
    }
    n as u64
}

/// The number of a byte, or 0.
pub(crate) fn small_number(word: &[u8]) -> u8
    ensures { result ≡ spec.loose_number (2 ^ 8) word.now }
{
    loose_number(255, word) as u8
}

/// The number of 32 bits at a place, or 0.
pub(crate) fn number_at(words: &[&[u8]], at: usize) -> u32
    ensures { result ≡ spec.number_at (texts words.now) at }
{
    loose_number(4294967295, word_at(words, at)) as u32
}

/// The number of 64 bits in the last word, or 0.
pub(crate) fn last_number(words: &[&[u8]]) -> u64
    ensures { result ≡ spec.last_number (texts words.now) }
{
    loose_number(18446744073709551615, last_word(words))
}

/// The core whose number stands at a place.
pub(crate) fn core_at(words: &[&[u8]], at: usize) -> CoreNo
    ensures { result.0 ≡ spec.number_at (texts words.now) at }
{
    CoreNo(number_at(words, at))
}

/// The block whose number stands at a place.
pub(crate) fn block_at(words: &[&[u8]], at: usize) -> BlockNo
    ensures { result.0 ≡ spec.number_at (texts words.now) at }
{
    BlockNo(number_at(words, at))
}

/// The interrupt line whose number stands at a place.
pub(crate) fn line_at(words: &[&[u8]], at: usize) -> LineNo
    ensures { result.0 ≡ spec.number_at (texts words.now) at }
{
    LineNo(number_at(words, at))
}
