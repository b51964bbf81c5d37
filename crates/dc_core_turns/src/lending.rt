//! The blocks of a row, looked at and changed in their places.

ghost use Rattle.std.specs.Prelude.{◌≡◌, ◌<◌, ◌^◌, Some, IsSome, true, length, slice_get};
ghost use Rattle.dc_base.specs.KeptByBlocks.{HasShape};
ghost use Rattle.dc_base.specs.Outcomes.{has};
ghost use Rattle.dc_base.specs.States.{Block};
ghost use Rattle.dc_calls.specs.Outsides.{Fits, HasRoom, outside_seen};
ghost use Rattle.dc_kernel.specs.Begins.{IsQuantum, halfway_in, need_in};
ghost use Rattle.dc_objects.specs.Blocks.{IsHeld, IsTimed, running_of};
ghost use Rattle.dc_bodies.specs.InHand.{IsInHand};
ghost use Rattle.dc_bodies.specs.Sliced.{IsSlice};
ghost use Rattle.dc_bodies.specs.TakenIn.{IsIntake};
ghost use Rattle.dc_bodies.specs.Waits.{channel_wait};
ghost use Rattle.dc_bodies.specs.Woken.{IsWake};
ghost use Rattle.dc_core_turns.specs.Lending.{IsPutIn};
ghost use Rattle.dc_hands.specs.Rows.{in_row};

use dc_base::calls::Need;
use dc_base::entries::Entry;
use dc_base::numbers::{BlockNo, CoreNo, DispNo, LineNo};
use dc_bodies::{
    Blocks, ChannelWait, Pending, Places, channel_wait, slice_held, take_in_held, wake_held,
};
use dc_calls::Outside;
use dc_hands::Row;
use dc_kernel::Driver;
use dc_lines::Line;
use dc_objects::{BlockState, CoreState};

/// The object outside block `b` that the call of a slice of it will need.
pub(crate) fn need_in_row<D: Driver>(core: &CoreState, row: &Row<D>, b: BlockNo) -> Need
    requires block { (x : Block) × (in_row row.now b.0 ≡ Some x) × IsTimed core.now.clock x }
    requires quantum { IsQuantum core.now.settings.quantum }
    ensures { (x : Block) → in_row row.now b.0 ≡ Some x → result ≡ need_in (halfway_in core.now.settings.quantum core.now.clock (running_of x)) }
{
    let clock = core.clock();
    let quantum = core.settings().quantum();
    match row.block(b) {
        Some(block) => block.need(clock, quantum),
        None => unreachable!(),
    }
}

/// The channel on which dispatcher `d` of block `b` waits, if it does.
pub(crate) fn wait_in_row<D: Driver>(row: &Row<D>, b: BlockNo, d: DispNo) -> Option<ChannelWait>
    requires { (x : Block) × (in_row row.now b.0 ≡ Some x) × HasShape x.control }
    ensures { (x : Block) → in_row row.now b.0 ≡ Some x → result ≡ channel_wait (slice_get x.control.states d.0) }
{
    match row.block(b) {
        Some(block) => channel_wait(block, d),
        None => unreachable!(),
    }
}

/// A slice of a block of the share, with the object that its call needs.
fn slice_block<D: Driver>(
    core: &mut CoreState,
    block: &mut BlockState<D>,
    c: CoreNo,
    b: BlockNo,
    outside: &mut Outside,
) -> Entry
    requires share { has core.old.share b.0 ≡ true }
    requires budget { core.old.used < core.old.settings.slices }
    requires quantum { IsQuantum core.old.settings.quantum }
    requires clock { core.old.clock < 2 ^ 63 }
    requires hand { IsInHand c.0 core.old.clock block.old }
    requires outside { Fits (need_in (halfway_in core.old.settings.quantum core.old.clock (running_of block.old))) outside.old }
    requires room { HasRoom outside.old }
    ensures slice { IsSlice c.0 b.0 core.old core.new block.old block.new
        (need_in (halfway_in core.old.settings.quantum core.old.clock (running_of block.old))) (outside_seen outside.old) (outside_seen outside.new) result }
    ensures kind { Fits (need_in (halfway_in core.old.settings.quantum core.old.clock (running_of block.old))) outside.new }
{
    let clock = core.clock();
    let quantum = core.settings().quantum();
    let begun = block.begin(clock, quantum);
    slice_held(core, block, c, b, &begun, outside)
}

/// A slice of block `b`, which is in the share, with the object that its call needs.
pub(crate) fn slice_in_row<D: Driver>(
    core: &mut CoreState,
    row: &mut Row<D>,
    c: CoreNo,
    b: BlockNo,
    outside: &mut Outside,
) -> Entry
    requires share { has core.old.share b.0 ≡ true }
    requires budget { core.old.used < core.old.settings.slices }
    requires quantum { IsQuantum core.old.settings.quantum }
    requires clock { core.old.clock < 2 ^ 63 }
    requires block { (x : Block) × (in_row row.old b.0 ≡ Some x) × IsInHand c.0 core.old.clock x
        × Fits (need_in (halfway_in core.old.settings.quantum core.old.clock (running_of x))) outside.old }
    requires room { HasRoom outside.old }
    ensures slice { (x : Block) → in_row row.old b.0 ≡ Some x → (y : Block) × IsPutIn b.0 y row.old row.new × IsSlice c.0 b.0 core.old core.new x y
        (need_in (halfway_in core.old.settings.quantum core.old.clock (running_of x))) (outside_seen outside.old) (outside_seen outside.new) result }
    ensures kind { (x : Block) → in_row row.old b.0 ≡ Some x →
        Fits (need_in (halfway_in core.old.settings.quantum core.old.clock (running_of x))) outside.new }
{
    let place = row.numbers.place(b);
    slice_block(core, &mut row.blocks[place], c, b, outside)
}

/// Dispatcher `d` of block `b`, which waits on a channel, is ready again.
pub(crate) fn wake_in_row<D: Driver>(
    core: &mut CoreState,
    row: &mut Row<D>,
    c: CoreNo,
    b: BlockNo,
    d: DispNo,
) -> Entry
    requires budget { core.old.used < core.old.settings.slices }
    requires block { (x : Block) × (in_row row.old b.0 ≡ Some x) × IsHeld x × IsSome (channel_wait (slice_get x.control.states d.0)) }
    ensures { (x : Block) → in_row row.old b.0 ≡ Some x →
        (y : Block) × IsPutIn b.0 y row.old row.new × IsWake c.0 b.0 d.0 core.old core.new x y result }
{
    let place = row.numbers.place(b);
    wake_held(core, &mut row.blocks[place], c, b, d)
}

/// The pending raise of line `l` comes to its signal, in a block of the row.
pub(crate) fn take_in_row<D: Driver>(
    row: &mut Row<D>,
    line: &mut Line,
    c: CoreNo,
    l: LineNo,
    p: Pending,
) -> Entry
    requires bound { IsSome line.old.bound }
    requires pending { IsSome line.old.pending }
    requires block { (x : Block) × (in_row row.old p.block.0 ≡ Some x) × IsHeld x × (p.signal.0 < length x.control.parts.signals) }
    ensures { (x : Block) → in_row row.old p.block.0 ≡ Some x →
        (y : Block) × IsPutIn p.block.0 y row.old row.new × IsIntake c.0 l.0 p line.old line.new x y result }
{
    let place = row.numbers.place(p.block);
    take_in_held(&mut row.blocks[place], line, c, l, p)
}
