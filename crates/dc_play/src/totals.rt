//! The words that the blocks of a machine have put out.

ghost use Rattle.std.specs.Prelude.{◌≡◌, ◌≤◌, ◌+◌, ◌%◌, ◌^◌, flat_map, length, sum};

use dc_channel::Console;

/// The sum of a number and the words of a console, modulo 2^32.
#[tactic(auto, using(crate::proofs::WordSums::word_added))]
fn with_words(before: u32, console: &Console) -> u32
    ensures { result ≡ (before + sum console.now) % 2 ^ 32 }
{
    let mut total = before;
    for i in 0..console.len() {
        if let Some(word) = console.at(i) {
            total = total.wrapping_add(word);
        }
    }
    total
}

/// How many words stand on at most 16 consoles.
#[tactic(auto, using(crate::proofs::WordSums::words_counted))]
pub(crate) fn words_on(consoles: &[Console]) -> u64
    requires { length consoles.now ≤ 16 }
    ensures { result ≡ length (flat_map (λ ws. ws) consoles.now) }
{
    let mut words = 0;
    for i in 0..consoles.len() {
        words += u64::from(consoles[i].len());
    }
    words
}

/// The sum of the words of all consoles, modulo 2^32.
#[tactic(auto, using(crate::proofs::WordSums::words_added))]
pub(crate) fn sum_of(consoles: &[Console]) -> u32
    ensures { result ≡ sum (flat_map (λ ws. ws) consoles.now) % 2 ^ 32 }
{
    let mut total = 0;
    for i in 0..consoles.len() {
        total = with_words(total, &consoles[i]);
    }
    total
}
