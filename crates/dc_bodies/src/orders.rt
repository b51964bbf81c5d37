//! A core carries out the order in its mailbox.

ghost use Rattle.std.specs.Prelude.{◌≡◌, ℕ, ◌≤◌, true, length, vec_capacity, IfErr, IfOk};
ghost use Rattle.dc_base.specs.declared.commands.Order.TheVariants as order;
ghost use Rattle.dc_base.specs.declared.kernels.Version.TheVariants.{Rr, Edf};
ghost use Rattle.dc_base.specs.Orders.{adopted_time, block_at_rest, block_under};
ghost use Rattle.dc_base.specs.Outcomes.{by_core, has};
ghost use Rattle.dc_base.specs.Placed.{count_in};
ghost use Rattle.dc_base.specs.States.{Core, ack};
ghost use Rattle.dc_base.specs.States.{order as ordered};
ghost use Rattle.dc_objects.specs.Blocks.{IsTimed};
ghost use Rattle.dc_bodies.specs.Handing.{AreApart, AreChanged, AreTimed, seen_at};
ghost use Rattle.dc_bodies.specs.Ordered.{CanAdopt, IsBlockOrder, IsNoAdoption, IsNoOrder, IsOrder, IsShareOrder};
ghost use Rattle.dc_bodies.specs.Scripted.{IsNoPoll};

use crate::blocks::Places;
use crate::entries::by_core;
use crate::handing::{release_all, replace_all};
use dc_base::commands::Order;
use dc_base::entries::{Entry, Reason, What};
use dc_base::kernels::{Clocks, Version};
use dc_base::numbers::{BlockNo, CoreNo};
use dc_kernel::Driver;
use dc_objects::{BlockState, CoreState, Mailbox};

/// The mailbox is Ack, and this is the core's entry.
fn acked(mailbox: &mut Mailbox, c: CoreNo, what: What) -> Entry
    ensures entry { result ≡ by_core c.0 what }
    ensures mailbox { mailbox.new ≡ ack }
{
    *mailbox = Mailbox::ack();
    by_core(c, what)
}

/// The order in a mailbox, if one waits there.
pub fn order_of(mailbox: &Mailbox) -> Result<Order, Reason>
    ensures order { IfOk result (λ o. mailbox.now ≡ ordered o) }
    ensures none { IfErr result (λ why. (c : ℕ) (k : Core) → IsNoOrder c k mailbox.now why) }
    ensures quiet { IfErr result IsNoPoll }
{
    match mailbox.order() {
        Some(order) => Ok(order),
        None => Err(Reason::NoOrder),
    }
}

/// The core goes on with this version.
#[inline(never)]
pub fn start_held(core: &mut CoreState, mailbox: &mut Mailbox, c: CoreNo, v: Version) -> Entry
    requires order { mailbox.old ≡ ordered (order.Start v) }
    ensures { IsOrder c.0 core.old core.new mailbox.old mailbox.new result }
{
    let clock = core.clock();
    core.set_version(v);
    acked(mailbox, c, What::Start { version: v, clock })
}

/// The core goes off, and its blocks come to rest.
#[inline(never)]
pub fn stop_held<D: Driver, P: Places>(
    core: &mut CoreState,
    mailbox: &mut Mailbox,
    blocks: &mut Vec<BlockState<D>>,
    places: &P,
    c: CoreNo,
) -> Entry
    requires order { mailbox.old ≡ ordered order.Stop }
    requires blocks { AreTimed core.old.clock core.old.share (seen_at (P.at places.now) blocks.old.items) }
    requires apart { AreApart (P.at places.now) (length blocks.old.items) }
    requires once { (b : ℕ) → count_in core.old.share b ≤ 1 }
    ensures turn { IsShareOrder c.0 core.old core.new mailbox.old mailbox.new (seen_at (P.at places.now) blocks.old.items)
        (seen_at (P.at places.now) blocks.new.items) result }
    ensures blocks { AreChanged (block_at_rest core.old.clock) core.old.share (seen_at (P.at places.now) blocks.old.items)
        (seen_at (P.at places.now) blocks.new.items) }
    ensures count { length blocks.new.items ≡ length blocks.old.items }
    ensures room { vec_capacity blocks.new ≡ vec_capacity blocks.old }
{
    let released = core.share().len();
    release_all(blocks, places, core);
    core.stop();
    acked(mailbox, c, What::Stop { released })
}

/// The core's blocks go on under a kernel of this version.
#[inline(never)]
pub fn replace_held<D: Driver, P: Places>(
    core: &mut CoreState,
    mailbox: &mut Mailbox,
    blocks: &mut Vec<BlockState<D>>,
    places: &P,
    c: CoreNo,
    v: Version,
) -> Entry
    requires order { mailbox.old ≡ ordered (order.Replace v) }
    requires blocks { AreTimed core.old.clock core.old.share (seen_at (P.at places.now) blocks.old.items) }
    requires apart { AreApart (P.at places.now) (length blocks.old.items) }
    requires once { (b : ℕ) → count_in core.old.share b ≤ 1 }
    requires served { D.served v ≡ true }
    ensures turn { IsShareOrder c.0 core.old core.new mailbox.old mailbox.new (seen_at (P.at places.now) blocks.old.items)
        (seen_at (P.at places.now) blocks.new.items) result }
    ensures blocks { AreChanged (block_under v) core.old.share (seen_at (P.at places.now) blocks.old.items) (seen_at (P.at places.now) blocks.new.items) }
    ensures count { length blocks.new.items ≡ length blocks.old.items }
    ensures room { vec_capacity blocks.new ≡ vec_capacity blocks.old }
{
    replace_all(blocks, places, core, v);
    core.set_version(v);
    acked(mailbox, c, What::Replace { version: v })
}

/// The time at which a block is adopted: its own, or where clocks run the later of it and the core's.
fn adopted_time(clocks: Clocks, kept: u64, clock: u64) -> u64
    ensures { result ≡ adopted_time clocks kept clock }
{
    match clocks {
        Clocks::Kept => kept,
        Clocks::Running => kept.max(clock),
    }
}

/// The core, if it is on, adopts a block at rest, as its home block or parked.
#[inline(never)]
pub fn adopt_held<D: Driver>(
    core: &mut CoreState,
    block: &mut BlockState<D>,
    mailbox: &mut Mailbox,
    c: CoreNo,
    b: BlockNo,
    parked: bool,
) -> Result<Entry, Reason>
    requires order { mailbox.old ≡ ordered (order.Adopt b parked) }
    requires block { CanAdopt core.old b.0 parked block.old }
    requires first { D.served Rr ≡ true }
    requires second { D.served Edf ≡ true }
    ensures turn { IfOk result (λ e. IsBlockOrder c.0 b.0 core.old core.new mailbox.old mailbox.new block.old block.new e) }
    ensures refused { IfErr result (λ why. IsNoAdoption c.0 b.0 core.old core.new mailbox.old mailbox.new block.old block.new why) }
    ensures quiet { IfErr result IsNoPoll }
{
    let Some(v) = core.version() else {
        return Err(Reason::NoOrder);
    };
    let clock = core.clock();
    let time = adopted_time(core.settings().clocks(), block.time(clock), clock);
    block.adopt(c, v, clock, time);
    core.admit(b, parked);
    let what = What::Adopt {
        block: b,
        parked,
        time,
    };
    Ok(acked(mailbox, c, what))
}

/// A block of the core comes to rest.
#[inline(never)]
pub fn release_held<D: Driver>(
    core: &mut CoreState,
    block: &mut BlockState<D>,
    mailbox: &mut Mailbox,
    c: CoreNo,
    b: BlockNo,
) -> Entry
    requires order { mailbox.old ≡ ordered (order.Release b) }
    requires block { IsTimed core.old.clock block.old }
    requires share { has core.old.share b.0 ≡ true }
    ensures { IsBlockOrder c.0 b.0 core.old core.new mailbox.old mailbox.new block.old block.new result }
{
    let clock = core.clock();
    let time = block.time(clock);
    block.release(clock);
    core.dismiss(b);
    acked(mailbox, c, What::Release { block: b, time })
}
