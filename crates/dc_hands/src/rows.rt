//! Blocks in a row, each with its number.

ghost use Rattle.std.specs.Prelude.{◌≡◌, ◌↔◌, ℕ, ◌+◌, ◌<◌, Some, None, IfOk, IfSome, IfNone, IsTrue, length};
ghost use Rattle.dc_base.specs.States.{Block};
ghost use Rattle.dc_hands.specs.Rows.{IsRow, in_row, no_row, with_last};

use arrayvec::ArrayVec;
use dc_base::memory::Memory;
use dc_base::numbers::BlockNo;
use dc_bodies::{Blocks, Places};
use dc_kernel::Driver;
use dc_objects::BlockState;
use std::alloc::Global;
use std::marker::Model;

/// The numbers of the blocks of a row, in their order.
#[derive(Drop)]
pub struct RowNumbers {
    pub numbers: ArrayVec<BlockNo, 16>,
}

/// At most 16 blocks in a row, each with its number. The memory for 16 was taken when it was made.
#[derive(Drop)]
pub struct Row<D: Driver> {
    pub numbers: RowNumbers,
    pub blocks: Vec<BlockState<D>>,
}

// Contracts see the numbers and the blocks.
impl<D: Driver> Model for Row<D> {
    ghost use Rattle.std.specs.Prelude.{◌≤◌, vec_capacity};
    ghost use Rattle.dc_hands.specs.Rows.{IsRow, Rowed};

    ghost Value = { Rowed };

    ghost view = { λ r. record { numbers = r.numbers.numbers.items; blocks = r.blocks.items } };

    ghost invariant = { λ r. IsRow (record { numbers = r.numbers.numbers.items; blocks = r.blocks.items }) × (16 ≤ vec_capacity r.blocks) };
}

impl Places for RowNumbers {
    ghost use Rattle.dc_hands.specs.Rows.{place_in};

    ghost at = { λ r. place_in r.numbers.items };

    fn place(&self, b: BlockNo) -> usize {
        let numbers = self.numbers.as_slice();
        for i in 0..numbers.len() {
            if numbers[i] == b {
                return i;
            }
        }
        numbers.len()
    }
}

impl<D: Driver> Blocks<D> for Row<D> {
    ghost use Rattle.dc_hands.specs.Rows.{in_row};

    ghost seen = { in_row };

    fn block(&self, b: BlockNo) -> Option<&BlockState<D>> {
        self.blocks.get(self.numbers.place(b))
    }
}

impl<D: Driver> Row<D> {
    /// A row without blocks.
    pub fn with_room(alloc: Global) -> Result<Row<D>, Memory>
        ensures { IfOk result (λ r. r ≡ no_row) }
    {
        let blocks = Vec::with_capacity(alloc, 16)?;
        Ok(Row {
            numbers: RowNumbers {
                numbers: ArrayVec::new(),
            },
            blocks,
        })
    }

    /// Whether it has no block.
    pub fn is_empty(&self) -> bool
        ensures { IsTrue result ↔ (self.now ≡ no_row) }
    {
        self.blocks.is_empty()
    }

    /// How many blocks are in the row. Each has its number, and no number stands twice.
    pub fn len(&self) -> usize
        ensures value { result ≡ length self.now.numbers }
        ensures numbered { IsRow self.now }
    {
        self.numbers.numbers.len()
    }

    /// Block `b` is in the row too.
    pub fn add(&mut self, b: BlockNo, block: BlockState<D>)
        requires room { length self.old.numbers < 16 }
        requires apart { in_row self.old b.0 ≡ None }
        ensures last { self.new ≡ with_last self.old b block }
        ensures here { in_row self.new b.0 ≡ Some block }
        ensures others { (n : ℕ) → (n ≡ b.0 → ⊥) → in_row self.new n ≡ in_row self.old n }
        ensures count { length self.new.numbers ≡ length self.old.numbers + 1 }
    {
        self.numbers.numbers.push(b);
        self.blocks.push_reserved(block);
    }

    /// The last block leaves the row, if it has one.
    pub fn pop(&mut self) -> Option<(BlockNo, BlockState<D>)>
        ensures last { IfSome result (λ p. self.old ≡ with_last self.new p.0 p.1) }
        ensures gone { IfSome result (λ p. in_row self.new p.0.0 ≡ None) }
        ensures empty { IfNone result ((self.old ≡ no_row) × (self.new ≡ no_row)) }
    {
        let Some(b) = self.numbers.numbers.pop() else {
            return None;
        };
        let Some(block) = self.blocks.pop() else {
            unreachable!()
        };
        Some((b, block))
    }

    /// Block `b` leaves the row.
    pub fn remove(&mut self, b: BlockNo) -> BlockState<D>
        requires { (x : Block) × (in_row self.old b.0 ≡ Some x) }
        ensures block { in_row self.old b.0 ≡ Some result }
        ensures gone { in_row self.new b.0 ≡ None }
        ensures others { (n : ℕ) → (n ≡ b.0 → ⊥) → in_row self.new n ≡ in_row self.old n }
        ensures count { length self.old.numbers ≡ length self.new.numbers + 1 }
    {
        let place = self.numbers.place(b);
        self.numbers.numbers.remove(place);
        self.blocks.remove(place)
    }
}
