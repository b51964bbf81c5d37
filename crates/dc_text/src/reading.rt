ghost use Rattle.std.specs.Prelude.{◌≡◌, ◌+◌, ◌<◌, ◌^◌, ◌++◌, length, take, slice_range, All};
ghost use Rattle.dc_base.specs.TextWords.{first_words, number_of};
ghost use Rattle.dc_text.specs.Places.{place_if_any, places_of, texts_at, IsPlaceIn, IsScanned};

use arrayvec::ArrayVec;

/// The places of the first 16 words of a line, each from its first byte to the byte behind its last. Words are runs of bytes other than space.
pub fn words(line: &[u8]) -> ArrayVec<(u32, u32), 16>
    requires { length line.now < 2 ^ 32 }
    ensures places { result.items ≡ take 16 (places_of line.now) }
    ensures texts { texts_at line.now result.items ≡ first_words line.now }
    ensures within { All (IsPlaceIn line.now) result.items }
{
    let mut found = ArrayVec::new();
    let mut from = 0;
    for at in 0..line.len() {
        from = push_byte(line, &mut found, from, at);
    }
    push_place(&mut found, from, line.len());
    found
}

/// Looks at one more byte, and says where the word that it is in begins.
fn push_byte(line: &[u8], found: &mut ArrayVec<(u32, u32), 16>, from: usize, at: usize) -> usize
    requires long { length line.now < 2 ^ 32 }
    requires within { at < length line.now }
    requires scanned { IsScanned line.now found.old.items from at }
    ensures { IsScanned line.now found.new.items result (at + 1) }
{
    if line[at] == b' ' {
        push_place(found, from, at);
        at + 1
    } else {
        from
    }
}

/// Adds a place, where it has a byte and there is room.
#[tactic(auto, using(crate::proofs::Scanning::no_room, crate::proofs::Scanning::no_place, crate::proofs::Scanning::one_place))]
fn push_place(found: &mut ArrayVec<(u32, u32), 16>, from: usize, to: usize)
    requires { to < 2 ^ 32 }
    ensures { found.new.items ≡ take 16 (found.old.items ++ place_if_any from to) }
{
    if found.is_full() {
        return;
    }
    if from < to {
        found.push((from as u32, to as u32));
    }
}

/// The bytes at a place of a line.
pub fn word_in(line: &[u8], place: (u32, u32)) -> &[u8]
    requires { IsPlaceIn line.now place }
    ensures { result.now ≡ slice_range line.now place.0 place.1 }
{
    &line[place.0 as usize..place.1 as usize]
}

/// The number that 1 to 10 decimal digits write.
#[tactic(auto, unfolding(dc_base::specs::TextWords::number_of))]
pub fn number(word: &[u8]) -> Option<u64>
    ensures { result ≡ number_of word.now }
{
    if word.is_empty() || word.len() > 10 {
        return None;
    }
    let mut n = 0u64;
    for at in 0..word.len() {
        if !word[at].is_ascii_digit() {
            return None;
        }
        n = n * 10 + (word[at] - b'0') as u64;
    }
    Some(n)
}
