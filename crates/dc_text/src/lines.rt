ghost use Rattle.std.specs.Prelude.{◌≡◌, ◌+◌, ◌<◌, ◌≤◌, ◌++◌, length, decimal};
ghost use Rattle.arrayvec.specs.ArrayString.{array_string_len};
ghost use Rattle.dc_base.specs.TextWords.{add_word};
ghost use Rattle.dc_text.specs.Lines.{len_with_word};

use arrayvec::ArrayString;
use itoa::Buffer;

/// A line of a text, without its newline: at most 256 bytes.
pub type Line = ArrayString<256>;

/// Adds a word, behind a space where the line is not empty.
pub fn push_word(line: &mut Line, word: &str)
    requires { len_with_word (array_string_len line.old) (length word.now) ≤ 256 }
    ensures added { line.new.bytes ≡ add_word line.old.bytes word.now }
    ensures len { array_string_len line.new ≤ array_string_len line.old + length word.now + 1 }
{
    if !line.is_empty() {
        line.push_str(" ");
    }
    line.push_str(word);
}

/// Adds a number in decimal digits, behind a space where the line is not empty.
pub fn push_number(line: &mut Line, n: u128)
    requires { len_with_word (array_string_len line.old) (length (decimal n)) ≤ 256 }
    ensures added { line.new.bytes ≡ add_word line.old.bytes (decimal n) }
    ensures len { array_string_len line.new ≤ array_string_len line.old + length (decimal n) + 1 }
{
    if !line.is_empty() {
        line.push_str(" ");
    }
    push_digits(line, n);
}

/// Adds a number, as `push_number`, where there is room for any number of 32 bits.
#[tactic(auto, using(crate::proofs::Digits::len_32))]
pub fn push_u32(line: &mut Line, n: u32)
    requires { array_string_len line.old + 10 < 256 }
    ensures added { line.new.bytes ≡ add_word line.old.bytes (decimal n) }
    ensures len { array_string_len line.new ≤ array_string_len line.old + 11 }
{
    push_number(line, n as u128);
}

/// Adds a number, as `push_number`, where there is room for any number of 64 bits.
#[tactic(auto, using(crate::proofs::Digits::len_64))]
pub fn push_u64(line: &mut Line, n: u64)
    requires { array_string_len line.old + 20 < 256 }
    ensures added { line.new.bytes ≡ add_word line.old.bytes (decimal n) }
    ensures len { array_string_len line.new ≤ array_string_len line.old + 21 }
{
    push_number(line, n as u128);
}

/// Adds the digits of a number, all at once.
pub(crate) fn push_digits(line: &mut Line, n: u128)
    requires { array_string_len line.old + length (decimal n) ≤ 256 }
    ensures { line.new.bytes ≡ line.old.bytes ++ decimal n }
{
    let mut digits = Buffer::new();
    line.push_str(digits.format(n));
}
