//! The entry of an order that a core carried out.

ghost use Rattle.std.specs.Prelude.{◌≡◌, ◌<◌, ◌^◌, length};
ghost use Rattle.dc_stage.specs.History.{own};
ghost use Rattle.dc_stage.specs.Passes.{IsOf};
ghost use Rattle.dc_hands.specs.Machines.{IsOpened};
ghost use Rattle.dc_core_turns.specs.Ordering.{Acknowledges, CarriesOut};

use dc_base::entries::Entry;
use dc_base::numbers::CoreNo;
use dc_hands::{Turned, commit, put_mailbox};
use dc_kernel::Driver;
use dc_objects::Mailbox;
use dc_scene::Machine;
use dc_stage::{Pass, Stage};

/// Adds the entry of an order that core `c` carried out, and puts its mailbox back.
pub(crate) fn acknowledge<D: Driver>(
    stage: &Stage<Machine<D>>,
    pass: &mut Pass<Machine<D>>,
    c: CoreNo,
    mailbox: Mailbox,
    entry: Entry,
) -> Turned
    requires opened { IsOpened stage.now }
    requires stage { IsOf pass.old stage.now }
    requires room { length (own pass.old.actor pass.old.seen) < 2 ^ 56 }
    requires order { CarriesOut stage.now pass.old c mailbox entry }
    ensures { Acknowledges stage.now pass.old pass.new c entry result }
{
    let ticket = commit(stage, pass, &entry);
    put_mailbox(stage, pass, c, mailbox);
    Turned::Did { entry, ticket }
}
