//! A slice of a block, and idle.

ghost use Rattle.std.specs.Prelude.{◌≡◌, ◌<◌, ◌^◌, [], ◌∷◌, Some, true};
ghost use Rattle.dc_base.specs.Changes.{core_becomes};
ghost use Rattle.dc_base.specs.IdleTurns.{idle_outcome};
ghost use Rattle.dc_base.specs.Outcomes.{has};
ghost use Rattle.dc_base.specs.States.{Block};
ghost use Rattle.dc_base.specs.Turns.{did};
ghost use Rattle.dc_calls.specs.Outsides.{Fits, HasRoom, outside_seen};
ghost use Rattle.dc_kernel.specs.Begins.{IsQuantum};
ghost use Rattle.dc_bodies.specs.Nexts.{slice_what};
ghost use Rattle.dc_bodies.specs.Sliced.{IsSlice, HasBegun};

use crate::entries::by_core;
use dc_base::entries::{Entry, What};
use dc_base::numbers::{BlockNo, CoreNo};
use dc_calls::{Outside, Sliced};
use dc_kernel::{Begun, Driver};
use dc_objects::{BlockState, CoreState};

/// What the entry of a slice says.
fn slice_what(block: BlockNo, s: &Sliced, clock: u64) -> What
    ensures { result ≡ slice_what block s.now clock }
{
    match s.disp {
        Some(disp) => What::Slice {
            block,
            disp,
            fired: s.fired,
            ran: s.ran,
            end: s.end,
            clock,
        },
        None => What::SliceNone {
            block,
            fired: s.fired,
            clock,
        },
    }
}

/// The end of a slice that has begun of a block of the share, with the object that its call needs.
pub fn slice_held<D: Driver>(
    core: &mut CoreState,
    block: &mut BlockState<D>,
    c: CoreNo,
    b: BlockNo,
    begun: &Begun,
    outside: &mut Outside,
) -> Entry
    requires share { has core.old.share b.0 ≡ true }
    requires budget { core.old.used < core.old.settings.slices }
    requires quantum { IsQuantum core.old.settings.quantum }
    requires clock { core.old.clock < 2 ^ 63 }
    requires begun { (x : Block) × HasBegun c.0 core.old x block.old begun.now }
    requires outside { Fits begun.now.need outside.old }
    requires room { HasRoom outside.old }
    ensures slice { (x : Block) → HasBegun c.0 core.old x block.old begun.now →
        IsSlice c.0 b.0 core.old core.new x block.new begun.now.need (outside_seen outside.old) (outside_seen outside.new) result }
    ensures kind { Fits begun.now.need outside.new }
{
    let clock = core.clock();
    let sliced = block.finish(clock, c, b, begun, outside);
    let after = clock + u64::from(sliced.advance);
    core.ran(b, after);
    by_core(c, slice_what(b, &sliced, after))
}

/// Idle until the core's clock stands so.
pub fn idle_held(core: &mut CoreState, c: CoreNo, clock: u64) -> Entry
    requires { core.old.used < core.old.settings.slices }
    ensures { idle_outcome c.0 core.old (Some clock) ≡ did (core_becomes c.0 core.new ∷ []) result }
{
    core.idled(clock);
    by_core(c, What::Idle { clock })
}
