//! The blocks of a core change hands where they stand.

ghost use Rattle.std.specs.Prelude.{◌≡◌, ℕ, ◌≤◌, Some, true, length, vec_capacity};
ghost use Rattle.dc_base.specs.Orders.{block_at_rest, block_under};
ghost use Rattle.dc_base.specs.Placed.{count_in};
ghost use Rattle.dc_base.specs.States.{Block};
ghost use Rattle.dc_objects.specs.Blocks.{IsTimed};
ghost use Rattle.dc_bodies.specs.Handing.{AreApart, AreChanged, AreTimed, IsChangedAt, seen_at};

use crate::blocks::Places;
use dc_base::kernels::Version;
use dc_base::numbers::BlockNo;
use dc_kernel::Driver;
use dc_objects::{BlockState, CoreState};

/// Block `b` comes to rest, with its time of now.
fn release_one<D: Driver, P: Places>(
    blocks: &mut Vec<BlockState<D>>,
    places: &P,
    b: BlockNo,
    clock: u64,
)
    requires block { (x : Block) × (seen_at (P.at places.now) blocks.old.items b.0 ≡ Some x) × IsTimed clock x }
    requires apart { AreApart (P.at places.now) (length blocks.old.items) }
    ensures block { IsChangedAt (block_at_rest clock) b.0 (seen_at (P.at places.now) blocks.old.items) (seen_at (P.at places.now) blocks.new.items) }
    ensures count { length blocks.new.items ≡ length blocks.old.items }
    ensures room { vec_capacity blocks.new ≡ vec_capacity blocks.old }
{
    blocks[places.place(b)].release(clock);
}

/// Block `b` goes on under a kernel of this version.
fn replace_one<D: Driver, P: Places>(
    blocks: &mut Vec<BlockState<D>>,
    places: &P,
    b: BlockNo,
    v: Version,
    clock: u64,
)
    requires block { (x : Block) × (seen_at (P.at places.now) blocks.old.items b.0 ≡ Some x) × IsTimed clock x }
    requires apart { AreApart (P.at places.now) (length blocks.old.items) }
    requires served { D.served v ≡ true }
    ensures block { IsChangedAt (block_under v) b.0 (seen_at (P.at places.now) blocks.old.items) (seen_at (P.at places.now) blocks.new.items) }
    ensures count { length blocks.new.items ≡ length blocks.old.items }
    ensures room { vec_capacity blocks.new ≡ vec_capacity blocks.old }
{
    blocks[places.place(b)].replace(v, clock);
}

/// All blocks of a core come to rest.
pub fn release_all<D: Driver, P: Places>(
    blocks: &mut Vec<BlockState<D>>,
    places: &P,
    core: &CoreState,
)
    requires blocks { AreTimed core.now.clock core.now.share (seen_at (P.at places.now) blocks.old.items) }
    requires apart { AreApart (P.at places.now) (length blocks.old.items) }
    requires once { (b : ℕ) → count_in core.now.share b ≤ 1 }
    ensures blocks { AreChanged (block_at_rest core.now.clock) core.now.share (seen_at (P.at places.now) blocks.old.items)
        (seen_at (P.at places.now) blocks.new.items) }
    ensures count { length blocks.new.items ≡ length blocks.old.items }
    ensures room { vec_capacity blocks.new ≡ vec_capacity blocks.old }
{
    let share = core.share();
    for i in 0..share.len() {
        if let Some(b) = share.at(i) {
            release_one(blocks, places, b, core.clock());
        }
    }
}

/// All blocks of a core go on under kernels of this version.
pub fn replace_all<D: Driver, P: Places>(
    blocks: &mut Vec<BlockState<D>>,
    places: &P,
    core: &CoreState,
    v: Version,
)
    requires blocks { AreTimed core.now.clock core.now.share (seen_at (P.at places.now) blocks.old.items) }
    requires apart { AreApart (P.at places.now) (length blocks.old.items) }
    requires once { (b : ℕ) → count_in core.now.share b ≤ 1 }
    requires served { D.served v ≡ true }
    ensures blocks { AreChanged (block_under v) core.now.share (seen_at (P.at places.now) blocks.old.items) (seen_at (P.at places.now) blocks.new.items) }
    ensures count { length blocks.new.items ≡ length blocks.old.items }
    ensures room { vec_capacity blocks.new ≡ vec_capacity blocks.old }
{
    let share = core.share();
    for place in 0..share.len() {
        if let Some(b) = share.at(place) {
            replace_one(blocks, places, b, v, core.clock());
        }
    }
}
