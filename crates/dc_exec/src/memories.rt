//! A memory that plain instructions run on.

ghost use Rattle.std.specs.Prelude.{◌≡◌, ◌<◌, ◌≤◌, ◌+◌, ℕ, List, length, slice_index, slice_set};

/// A memory of words, with room for some more stores.
pub trait Memory {
    ghost words: { Self → List ℕ };

    ghost room: { Self → ℕ };

    /// The word at an address.
    fn word(&self, address: u32) -> u32
        requires { address < length (words self.now) }
        ensures { result ≡ slice_index (words self.now) address };

    /// Stores a word at an address. At most one store less fits then.
    fn put(&mut self, address: u32, word: u32)
        requires there { address < length (words self.old) }
        requires room { 0 < room self.old }
        ensures words { words self.new ≡ slice_set (words self.old) address word }
        ensures room { room self.old ≤ room self.new + 1 };
}

/// The memory itself has room for every store of a slice.
impl Memory for Vec<u32> {
    ghost words = { λ v. v.items };

    ghost room = { λ v. 64 };

    #[inline(always)]
    fn word(&self, address: u32) -> u32 {
        self[address as usize]
    }

    #[inline(always)]
    fn put(&mut self, address: u32, word: u32) {
        self[address as usize] = word;
    }
}
