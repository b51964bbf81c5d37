//! Lines that end a text.

ghost use Rattle.std.specs.Prelude.{◌≡◌, ◌<◌, ◌≤◌, [], ◌∷◌, length, decimal};
ghost use Rattle.arrayvec.specs.ArrayString.{array_string_len};
ghost use Rattle.dc_base.specs.ReportText.{skipped_text};
ghost use Rattle.dc_base.specs.TextWords.{spaced};

use dc_text::{Line, push_u64, push_word};

/// The line of a word of at most 16 bytes.
pub fn word_line(word: &str) -> Line
    requires { length word.now ≤ 16 }
    ensures text { result.bytes ≡ word.now }
    ensures room { array_string_len result < 256 }
{
    let mut line = Line::new();
    push_word(&mut line, word);
    line
}

/// The line of a word of at most 16 bytes and a number.
pub fn count_line(word: &str, count: u64) -> Line
    requires { length word.now ≤ 16 }
    ensures text { result.bytes ≡ spaced (word.now ∷ decimal count ∷ []) }
    ensures room { array_string_len result < 256 }
{
    let mut line = Line::new();
    push_word(&mut line, word);
    push_u64(&mut line, count);
    line
}

/// The line of how many actions made no entry.
pub(crate) fn skipped_line(skipped: u64) -> Line
    ensures text { result.bytes ≡ skipped_text skipped }
    ensures room { array_string_len result < 256 }
{
    count_line("skipped", skipped)
}
