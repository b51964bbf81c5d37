//! Blocks by number, in a list.

ghost use Rattle.std.specs.Prelude.{◌≡◌, ℕ, Option, slice_get};
ghost use Rattle.std.specs.Option.{option_copied};
ghost use Rattle.dc_base.specs.States.{Block};

use dc_base::numbers::BlockNo;
use dc_kernel::Driver;
use dc_objects::{BlockState, Objects};

/// Blocks by number: those in their places, or those that an actor holds.
pub trait Blocks<D: Driver> {
    ghost seen: { Self → ℕ → Option Block };

    /// The block of this number, if it is there.
    fn block(&self, b: BlockNo) -> Option<&BlockState<D>>
        ensures { option_copied result ≡ seen self.now b.0 };
}

impl<D: Driver> Blocks<D> for Objects<D> {
    ghost seen = { λ o b. slice_get o.blocks.items b };

    fn block(&self, b: BlockNo) -> Option<&BlockState<D>> {
        self.blocks.get(b.0 as usize)
    }
}

/// Where the blocks stand in a list; a block that is not in it has a place past its end.
pub trait Places {
    ghost at: { Self → ℕ → ℕ };

    /// The place of this block.
    fn place(&self, b: BlockNo) -> usize
        ensures { result ≡ at self.now b.0 };
}

/// All blocks of a machine, each at the place of its number.
#[derive(Drop)]
pub struct ByNumber;

impl Places for ByNumber {
    ghost at = { λ _ b. b };

    fn place(&self, b: BlockNo) -> usize {
        b.0 as usize
    }
}
