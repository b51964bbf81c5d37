//! A boot command goes on: it is refused, or its orders are posted one after another.

ghost use Rattle.std.specs.Prelude.{◌≡◌, ◌+◌, ◌<◌, None, Option, Some, IfErr, IfOk, slice_get};
ghost use Rattle.std.specs.Option.{option_map};
ghost use Rattle.dc_base.specs.declared.commands.Order.{Order as Posted};
ghost use Rattle.dc_base.specs.declared.commands.ScriptLine.TheVariants as line;
ghost use Rattle.dc_base.specs.declared.numbers.CoreNo.{CoreNo as Core};
ghost use Rattle.dc_base.specs.declared.entries.What.TheVariants as what;
ghost use Rattle.dc_base.specs.Boot.{refusal};
ghost use Rattle.dc_base.specs.Outcomes.{by_script};
ghost use Rattle.dc_base.specs.States.{State, ack};
ghost use Rattle.dc_base.specs.States.{order as ordered};
ghost use Rattle.dc_boot.specs.Registries.{plan_orders, posted};
ghost use Rattle.dc_bodies.specs.declared.posts.Posting.TheVariants as posting;
ghost use Rattle.dc_bodies.specs.Postings.{ComesTo, IsDone, IsNextPost, IsPost, IsPosting, IsSamePost};
ghost use Rattle.dc_bodies.specs.Scripted.{GoesOn, IsNoCommand, IsNoPoll, IsScripted, RefusesCommand};

use crate::entries::by_script;
use dc_base::commands::{Command, Order, Refusal};
use dc_base::entries::{Entry, Reason, What};
use dc_base::numbers::CoreNo;
use dc_boot::Plan;
use dc_objects::{Mailbox, ScriptState};

/// What a boot command comes to next.
#[derive(Clone, Copy)]
pub enum Posting {
    Refused(Refusal),
    First(CoreNo, Order),
    /// Once the core of the last post has carried it out, the next order is posted, or the command is done.
    After {
        last: CoreNo,
        next: Option<(CoreNo, Order)>,
    },
}

/// The order of a plan at this place, if there is one.
fn order_at(plan: &Plan, i: u32) -> Option<(CoreNo, Order)>
    ensures { option_map posted result ≡ slice_get (plan_orders plan.now) i }
{
    match i {
        0 => Some(plan.first),
        1 => plan.second,
        _ => None,
    }
}

/// What the boot command comes to next at which the script stands, or why it does not go on.
pub fn next_posting(script: &ScriptState, command: &Command) -> Result<Posting, Reason>
    requires goes { GoesOn script.now (line.Boot command.now) }
    requires accepted { 0 < script.now.posts → refusal script.now.registry command.now ≡ None }
    ensures next { IfOk result (IsPosting script.now command.now) }
    ensures none { IfErr result (IsNoCommand script.now) }
    ensures quiet { IfErr result IsNoPoll }
{
    let plan = match script.registry().decide(command) {
        Ok(plan) => plan,
        Err(refusal) => return Ok(Posting::Refused(refusal)),
    };
    let posts = script.posts();
    if posts == 0 {
        return Ok(Posting::First(plan.first.0, plan.first.1));
    }
    match order_at(&plan, posts - 1) {
        Some((last, _)) => Ok(Posting::After {
            last,
            next: order_at(&plan, posts),
        }),
        None => Err(Reason::ScriptEnded),
    }
}

/// The command is refused.
pub fn refuse_held(script: &mut ScriptState, refusal: Refusal) -> Entry
    requires { ComesTo script.old (posting.Refused refusal) }
    ensures { IsScripted script.old script.new result }
{
    let place = script.place();
    script.go_on();
    by_script(What::Refused { place, refusal })
}

/// Whether the core of the last post has carried it out; else why the command does not go on.
pub fn await_ack(mailbox: &Mailbox, last: CoreNo) -> Result<(), Reason>
    ensures acked { IfOk result (λ u. mailbox.now ≡ ack) }
    ensures waits { IfErr result (λ why. (s : State) (next : Option (Core × Posted)) → ComesTo s.script (posting.After last next) →
        slice_get s.mailboxes last.0 ≡ Some mailbox.now → RefusesCommand s why) }
    ensures quiet { IfErr result IsNoPoll }
{
    if mailbox.is_ack() {
        return Ok(());
    }
    Err(Reason::NoAck { core: last })
}

/// An order is put into a mailbox, and this is the script's entry.
fn put_order(script: &mut ScriptState, mailbox: &mut Mailbox, core: CoreNo, order: Order) -> Entry
    requires few { script.old.posts < 3 }
    ensures entry { result ≡ by_script (what.Post script.old.place core order) }
    ensures script { script.new ≡ record script.old { posts = script.old.posts + 1 } }
    ensures mailbox { mailbox.new ≡ ordered order }
{
    let place = script.place();
    *mailbox = Mailbox::holding(order);
    script.posted();
    by_script(What::Post { place, core, order })
}

/// The first order of the command is posted.
pub fn post_held(
    script: &mut ScriptState,
    mailbox: &mut Mailbox,
    core: CoreNo,
    order: Order,
) -> Entry
    requires { ComesTo script.old (posting.First core order) }
    ensures { IsPost core.0 script.old script.new mailbox.new result }
{
    put_order(script, mailbox, core, order)
}

/// The mailbox of the last post is emptied, and the next order is posted to another core.
pub fn post_next_held(
    script: &mut ScriptState,
    emptied: &mut Mailbox,
    mailbox: &mut Mailbox,
    last: CoreNo,
    core: CoreNo,
    order: Order,
) -> Entry
    requires next { ComesTo script.old (posting.After last (Some (core, order))) }
    requires acked { emptied.old ≡ ack }
    ensures { IsNextPost last.0 core.0 script.old script.new emptied.old emptied.new mailbox.new result }
{
    *emptied = Mailbox::empty();
    put_order(script, mailbox, core, order)
}

/// The next order is posted to the core of the last post: its one mailbox is emptied, and then holds the order.
pub fn post_same_held(
    script: &mut ScriptState,
    both: &mut Mailbox,
    core: CoreNo,
    order: Order,
) -> Entry
    requires next { ComesTo script.old (posting.After core (Some (core, order))) }
    requires acked { both.old ≡ ack }
    ensures { IsSamePost core.0 script.old script.new both.old both.new result }
{
    put_order(script, both, core, order)
}

/// The mailbox of the last post is emptied, and the command is done.
pub fn done_held(
    script: &mut ScriptState,
    emptied: &mut Mailbox,
    command: &Command,
    last: CoreNo,
) -> Entry
    requires next { IsPosting script.old command.now (posting.After last None) }
    requires acked { emptied.old ≡ ack }
    ensures { IsDone last.0 script.old script.new emptied.old emptied.new result }
{
    let place = script.place();
    *emptied = Mailbox::empty();
    script.finish(command);
    by_script(What::Done { place })
}
