ghost use Rattle.std.specs.Prelude.{◌≡◌, ℕ, ◌+◌, ◌*◌, ◌≤◌, ◌∷◌, ◌++◌, length, map, decimal};
ghost use Rattle.arrayvec.specs.ArrayString.{array_string_len};
ghost use Rattle.dc_base.specs.TextWords.{add_word, comma_list};
ghost use Rattle.dc_text.specs.Lines.{behind_commas};

use crate::lines::{Line, push_digits, push_u32, push_word};
use dc_base::numbers::{BlockNo, DispNo};

/// What a text names by a number.
pub trait Numbered {
    ghost number: { Self → ℕ };

    fn number(&self) -> u32
        ensures { result ≡ number self.now };
}

impl Numbered for BlockNo {
    ghost number = { λ b. b.0 };

    fn number(&self) -> u32 {
        self.0
    }
}

impl Numbered for DispNo {
    ghost number = { λ d. d.0 };

    fn number(&self) -> u32 {
        self.0
    }
}

/// Adds the numbers with a comma between each two, or a dash for none, behind a space where the line is not empty. There is to be room for as many numbers
/// of 32 bits.
pub fn push_list<T: Numbered>(line: &mut Line, items: &[T])
    requires { array_string_len line.old + 11 * length items.now + 2 ≤ 256 }
    ensures added { line.new.bytes ≡ add_word line.old.bytes (comma_list (map T.number items.now)) }
    ensures len { array_string_len line.new ≤ array_string_len line.old + 11 * length items.now + 2 }
{
    let [first, rest @ ..] = items else {
        push_word(line, "-");
        return;
    };
    push_u32(line, first.number());
    push_behind_commas(line, rest);
}

/// Adds the numbers, each behind a comma.
fn push_behind_commas<T: Numbered>(line: &mut Line, items: &[T])
    requires { array_string_len line.old + 11 * length items.now ≤ 256 }
    ensures added { line.new.bytes ≡ line.old.bytes ++ behind_commas (map T.number items.now) }
    ensures len { array_string_len line.new ≤ array_string_len line.old + 11 * length items.now }
{
    for item in items {
        push_behind_comma(line, item.number());
    }
}

/// Adds a number behind a comma.
#[tactic(auto, using(crate::proofs::Digits::len_32))]
fn push_behind_comma(line: &mut Line, n: u32)
    requires { array_string_len line.old + 11 ≤ 256 }
    ensures added { line.new.bytes ≡ line.old.bytes ++ 44 ∷ decimal n }
    ensures len { array_string_len line.new ≤ array_string_len line.old + 11 }
{
    line.push_str(",");
    push_digits(line, n as u128);
}
