ghost use Rattle.std.specs.Prelude.{◌≡◌, ℕ, ◌<◌, ◌≤◌, ◌↔◌, ◌==◌, [], ◌∷◌, ◌++◌, Bool, true, false, Some, IsTrue, length, map, slice_get, slice_index_or};
ghost use Rattle.std.specs.Option.{option_map};
ghost use Rattle.std.specs.List.{position, position_or_len};
ghost use Rattle.dc_base.specs.States.{Member};
ghost use Rattle.dc_base.specs.Policies.{next_block};
ghost use Rattle.dc_base.specs.Outcomes.{has, share_blocks, share_with_last, share_without};
ghost use Rattle.dc_base.specs.Placed.{count_in, homes_in, parked_in};
ghost use Rattle.dc_base.specs.Report.{block_no, home_of};
ghost use Rattle.dc_share.specs.Shares.{HasRoom};

use crate::seat::Seat;
use arrayvec::ArrayVec;
use dc_base::numbers::BlockNo;
use std::marker::Model;

/// The blocks of a core in the order in which they run, each below 16 and there once: at most one of them is home, and the others, at most 8, are parked.
#[derive(Debug, Drop)]
pub struct Share {
    seats: ArrayVec<Seat, 9>,
}

// Contracts see the share of the machine with cores.
impl Model for Share {
    ghost use Rattle.std.specs.Prelude.{List};
    ghost use Rattle.dc_base.specs.States.{Member};

    ghost Value = { List Member };

    ghost use Rattle.dc_share.specs.Shares.{IsShare};

    ghost view = { λ s. s.seats.items };

    ghost invariant = { IsShare };
}

impl Share {
    /// A share without blocks.
    pub fn empty() -> Share
        ensures { result ≡ [] }
    {
        Share {
            seats: ArrayVec::new(),
        }
    }

    /// The first block of the list that is runnable. The place of a block in `runnable` is its number.
    pub fn next(&self, runnable: &[bool; 16]) -> Option<BlockNo>
        ensures { option_map (λ b. b.0) result ≡ next_block (share_blocks self.now) (λ b. slice_index_or runnable.now b false) }
    {
        for seat in self.seats.as_slice() {
            let block = seat.block();
            if runnable[block.0 as usize] {
                return Some(block);
            }
        }
        None
    }

    /// Puts a block of the share last.
    pub fn turned(&mut self, b: BlockNo)
        requires there { has self.old b.0 ≡ true }
        ensures { self.new ≡ share_with_last b.0 self.old }
    {
        let at = self.place(b);
        let seat = self.seats.remove(at);
        self.seats.push(seat);
    }

    /// Puts a block last that is below 16 and not there: as the home block where none is home, or parked where fewer than 8 are.
    pub fn add(&mut self, b: BlockNo, parked: bool)
        requires below { b.0 < 16 }
        requires apart { has self.old b.0 ≡ false }
        requires room { HasRoom parked self.old }
        ensures { self.new ≡ self.old ++ record { block = b.0; parked = parked } ∷ [] }
    {
        self.seats.push(Seat::new(b, parked));
    }

    /// Takes a block of the share out. The others keep their order.
    pub fn remove(&mut self, b: BlockNo)
        requires there { has self.old b.0 ≡ true }
        ensures { self.new ≡ share_without b.0 self.old }
    {
        let at = self.place(b);
        self.seats.remove(at);
    }

    /// The place of a block of the share.
    fn place(&self, b: BlockNo) -> usize
        requires there { has self.now b.0 ≡ true }
        ensures value { result ≡ position_or_len (λ (m : Member). m.block == b.0) self.now }
        ensures within { result < length self.now }
    {
        self.position(b).unwrap_or(self.seats.len())
    }

    fn position(&self, b: BlockNo) -> Option<usize>
        ensures { result ≡ position (λ (m : Member). m.block == b.0) self.now }
    {
        self.seats.iter().position(|seat| seat.block() == b)
    }

    /// The home block, if there is one.
    pub fn home(&self) -> Option<BlockNo>
        ensures value { result ≡ home_of self.now }
        ensures one { homes_in self.now ≤ 1 }
    {
        for seat in self.seats.as_slice() {
            if !seat.is_parked() {
                return Some(seat.block());
            }
        }
        None
    }

    /// The blocks in their order.
    pub fn blocks(&self) -> ArrayVec<BlockNo, 9>
        ensures { result.items ≡ map (λ (m : Member). block_no m.block) self.now }
    {
        let mut blocks = ArrayVec::new();
        for seat in self.seats.as_slice() {
            blocks.push(seat.block());
        }
        blocks
    }

    /// The block at a place of the list, the first at 0.
    pub fn at(&self, i: u32) -> Option<BlockNo>
        ensures { option_map (λ b. b.0) result ≡ slice_get (share_blocks self.now) i }
    {
        let seat = self.seats.get(i as usize)?;
        Some(seat.block())
    }

    /// How many blocks are parked, at most 8.
    pub fn parked(&self) -> u32
        ensures value { result ≡ parked_in self.now }
        ensures most { parked_in self.now ≤ 8 }
    {
        let mut parked = 0;
        for seat in self.seats.as_slice() {
            if seat.is_parked() {
                parked += 1;
            }
        }
        parked
    }

    /// Whether a block is in the share.
    pub fn contains(&self, b: BlockNo) -> bool
        ensures value { result ≡ has self.now b.0 }

        // The share has a block once, and none of 16 or more.
        ensures once { count_in self.now b.0 ≤ 1 }
        ensures below { (n : ℕ) → has self.now n ≡ true → n < 16 }
    {
        self.seats.iter().any(|seat| seat.block() == b)
    }

    /// How many blocks are in the share, at most 9.
    pub fn len(&self) -> u32
        ensures value { result ≡ length self.now }
        ensures most { length self.now ≤ 9 }
    {
        self.seats.len() as u32
    }

    /// Whether no block is in the share.
    pub fn is_empty(&self) -> bool
        ensures { IsTrue result ↔ (self.now ≡ []) }
    {
        self.seats.is_empty()
    }
}
