//! Order: the core carries out what its mailbox holds.

ghost use Rattle.std.specs.Prelude.{◌≡◌, ◌<◌, true, Some, length, slice_get};
ghost use Rattle.dc_base.specs.declared.actions.Actor.TheVariants as actor;
ghost use Rattle.dc_base.specs.declared.actions.Action.TheVariants as action;
ghost use Rattle.dc_base.specs.declared.kernels.Version.TheVariants.{Rr, Edf};
ghost use Rattle.dc_base.specs.declared.commands.Order.TheVariants as order;
ghost use Rattle.dc_base.specs.Cores.{core_step};
ghost use Rattle.dc_base.specs.Sound.{IsSound};
ghost use Rattle.dc_base.specs.States.{order as ordered};
ghost use Rattle.dc_objects.specs.States.{state_of};
ghost use Rattle.dc_machine.specs.Answers.{Answers, IsQuiet};

use dc_base::commands::Order;
use dc_base::kernels::Version;
use dc_base::numbers::{BlockNo, CoreNo};
use dc_bodies::{
    ByNumber, Stepped, adopt_held, order_of, release_held, replace_held, start_held, stop_held,
};
use dc_kernel::Driver;
use dc_objects::Objects;

/// The core goes on with this version.
fn start<D: Driver>(objects: &mut Objects<D>, c: CoreNo, v: Version) -> Stepped
    requires order { slice_get objects.old.mailboxes.items c.0 ≡ Some (ordered (order.Start v)) }
    requires core { c.0 < length objects.old.cores.items }
    ensures step { Answers result (state_of objects.old) (state_of objects.new) (core_step (state_of objects.old) 0 (actor.Core c) action.Order) }
    ensures quiet { IsQuiet result }
{
    let core = &mut objects.cores[c.0 as usize];
    let mailbox = &mut objects.mailboxes[c.0 as usize];
    Stepped::Did(start_held(core, mailbox, c, v))
}

/// The core goes off, and its blocks come to rest.
fn stop<D: Driver>(objects: &mut Objects<D>, c: CoreNo) -> Stepped
    requires sound { IsSound (state_of objects.old) }
    requires order { slice_get objects.old.mailboxes.items c.0 ≡ Some (ordered order.Stop) }
    requires core { c.0 < length objects.old.cores.items }
    ensures step { Answers result (state_of objects.old) (state_of objects.new) (core_step (state_of objects.old) 0 (actor.Core c) action.Order) }
    ensures quiet { IsQuiet result }
{
    let core = &mut objects.cores[c.0 as usize];
    let mailbox = &mut objects.mailboxes[c.0 as usize];
    Stepped::Did(stop_held(core, mailbox, &mut objects.blocks, &ByNumber, c))
}

/// The core's blocks go on under a kernel of this version.
fn replace<D: Driver>(objects: &mut Objects<D>, c: CoreNo, v: Version) -> Stepped
    requires sound { IsSound (state_of objects.old) }
    requires order { slice_get objects.old.mailboxes.items c.0 ≡ Some (ordered (order.Replace v)) }
    requires core { c.0 < length objects.old.cores.items }
    requires first { D.served Rr ≡ true }
    requires second { D.served Edf ≡ true }
    ensures step { Answers result (state_of objects.old) (state_of objects.new) (core_step (state_of objects.old) 0 (actor.Core c) action.Order) }
    ensures quiet { IsQuiet result }
{
    let core = &mut objects.cores[c.0 as usize];
    let mailbox = &mut objects.mailboxes[c.0 as usize];
    let blocks = &mut objects.blocks;
    Stepped::Did(replace_held(core, mailbox, blocks, &ByNumber, c, v))
}

/// The core adopts a block at rest, as its home block or parked.
fn adopt<D: Driver>(objects: &mut Objects<D>, c: CoreNo, b: BlockNo, parked: bool) -> Stepped
    requires sound { IsSound (state_of objects.old) }
    requires order { slice_get objects.old.mailboxes.items c.0 ≡ Some (ordered (order.Adopt b parked)) }
    requires core { c.0 < length objects.old.cores.items }
    requires first { D.served Rr ≡ true }
    requires second { D.served Edf ≡ true }
    ensures step { Answers result (state_of objects.old) (state_of objects.new) (core_step (state_of objects.old) 0 (actor.Core c) action.Order) }
    ensures quiet { IsQuiet result }
{
    let core = &mut objects.cores[c.0 as usize];
    let mailbox = &mut objects.mailboxes[c.0 as usize];
    let block = &mut objects.blocks[b.0 as usize];
    match adopt_held(core, block, mailbox, c, b, parked) {
        Ok(entry) => Stepped::Did(entry),
        Err(why) => Stepped::NotEnabled(why),
    }
}

/// A block of the core comes to rest.
fn release<D: Driver>(objects: &mut Objects<D>, c: CoreNo, b: BlockNo) -> Stepped
    requires sound { IsSound (state_of objects.old) }
    requires order { slice_get objects.old.mailboxes.items c.0 ≡ Some (ordered (order.Release b)) }
    requires core { c.0 < length objects.old.cores.items }
    ensures step { Answers result (state_of objects.old) (state_of objects.new) (core_step (state_of objects.old) 0 (actor.Core c) action.Order) }
    ensures quiet { IsQuiet result }
{
    let core = &mut objects.cores[c.0 as usize];
    let mailbox = &mut objects.mailboxes[c.0 as usize];
    let block = &mut objects.blocks[b.0 as usize];
    Stepped::Did(release_held(core, block, mailbox, c, b))
}

/// A core carries out the order in its mailbox, if there is one.
#[inline(never)]
pub(crate) fn order_turn<D: Driver>(objects: &mut Objects<D>, c: CoreNo) -> Stepped
    requires sound { IsSound (state_of objects.old) }
    requires core { c.0 < length objects.old.cores.items }
    requires first { D.served Rr ≡ true }
    requires second { D.served Edf ≡ true }
    ensures step { Answers result (state_of objects.old) (state_of objects.new) (core_step (state_of objects.old) 0 (actor.Core c) action.Order) }
    ensures quiet { IsQuiet result }
{
    let order = match order_of(&objects.mailboxes[c.0 as usize]) {
        Ok(order) => order,
        Err(why) => return Stepped::NotEnabled(why),
    };
    match order {
        Order::Start(v) => start(objects, c, v),
        Order::Stop => stop(objects, c),
        Order::Replace(v) => replace(objects, c, v),
        Order::Adopt { block, parked } => adopt(objects, c, block, parked),
        Order::Release(block) => release(objects, c, block),
    }
}
