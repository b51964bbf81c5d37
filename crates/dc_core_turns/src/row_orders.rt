//! Orders that change each block of a row.

ghost use Rattle.std.specs.Prelude.{◌≡◌, ℕ, ◌≤◌, true};
ghost use Rattle.dc_base.specs.declared.commands.Order.TheVariants as order;
ghost use Rattle.dc_base.specs.Orders.{block_at_rest, block_under};
ghost use Rattle.dc_base.specs.Placed.{count_in};
ghost use Rattle.dc_base.specs.States.{order as ordered};
ghost use Rattle.dc_bodies.specs.Handing.{AreChanged, AreTimed};
ghost use Rattle.dc_bodies.specs.Ordered.{IsShareOrder};
ghost use Rattle.dc_hands.specs.Rows.{IsRow, in_row};

use dc_base::entries::Entry;
use dc_base::kernels::Version;
use dc_base::numbers::CoreNo;
use dc_bodies::{replace_held, stop_held};
use dc_hands::Row;
use dc_kernel::Driver;
use dc_objects::{CoreState, Mailbox};

/// The core goes off, and its blocks, which are in the row, come to rest.
pub(crate) fn stop_row<D: Driver>(
    row: &mut Row<D>,
    core: &mut CoreState,
    mailbox: &mut Mailbox,
    c: CoreNo,
) -> Entry
    requires order { mailbox.old ≡ ordered order.Stop }
    requires blocks { AreTimed core.old.clock core.old.share (in_row row.old) }
    requires once { (b : ℕ) → count_in core.old.share b ≤ 1 }
    ensures row { IsRow row.old }
    ensures numbers { row.new.numbers ≡ row.old.numbers }
    ensures turn { IsShareOrder c.0 core.old core.new mailbox.old mailbox.new (in_row row.old) (in_row row.new) result }
    ensures blocks { AreChanged (block_at_rest core.old.clock) core.old.share (in_row row.old) (in_row row.new) }
{
    let _ = row.len();
    stop_held(core, mailbox, &mut row.blocks, &row.numbers, c)
}

/// The core's blocks, which are in the row, go on under a kernel of this version.
pub(crate) fn replace_row<D: Driver>(
    row: &mut Row<D>,
    core: &mut CoreState,
    mailbox: &mut Mailbox,
    c: CoreNo,
    v: Version,
) -> Entry
    requires order { mailbox.old ≡ ordered (order.Replace v) }
    requires blocks { AreTimed core.old.clock core.old.share (in_row row.old) }
    requires once { (b : ℕ) → count_in core.old.share b ≤ 1 }
    requires served { D.served v ≡ true }
    ensures turn { IsShareOrder c.0 core.old core.new mailbox.old mailbox.new (in_row row.old) (in_row row.new) result }
    ensures blocks { AreChanged (block_under v) core.old.share (in_row row.old) (in_row row.new) }
{
    replace_held(core, mailbox, &mut row.blocks, &row.numbers, c, v)
}
