//! The lines of a text, one after another.

ghost use Rattle.std.specs.Prelude.{◌≡◌, ◌==◌, ◌≤◌, ◌<◌, ◌∷◌, length, IfSome};
ghost use Rattle.std.specs.List.{position, position_or_len};
ghost use Rattle.dc_base.specs.TextWords.{lines_of};
ghost use Rattle.dc_text.specs.Rest.{lines_left};

fn find_byte(bytes: &[u8], byte: u8) -> Option<usize>
    ensures { result ≡ position (λ b. b == byte) bytes.now }
{
    bytes.iter().position(|b| *b == byte)
}

/// The first place of a byte, or the length where it is nowhere.
#[tactic(auto, using(crate::proofs::TextLines::place_or))]
pub fn place_of_byte(bytes: &[u8], byte: u8) -> usize
    ensures place { result ≡ position_or_len (λ b. b == byte) bytes.now }
    ensures within { result ≤ length bytes.now }
{
    find_byte(bytes, byte).unwrap_or(bytes.len())
}

/// The first line, and the bytes of the further lines. None where it is the last.
#[tactic(auto, using(crate::proofs::TextLines::first_of_lines, crate::proofs::TextLines::last_of_lines))]
pub fn first_line(text: &[u8]) -> (&[u8], Option<&[u8]>)
    ensures lines { lines_of text.now ≡ result.0.now ∷ lines_left result.1 }
    ensures line { length result.0.now ≤ length text.now }
    ensures shorter { IfSome result.1 (λ rest. length rest.now < length text.now) }
{
    let end = place_of_byte(text, b'\n');
    if end < text.len() {
        (&text[..end], Some(&text[end + 1..]))
    } else {
        (text, None)
    }
}
