//! A boot command goes on: it is refused, or its orders are posted one after another.

ghost use Rattle.std.specs.Prelude.{◌≡◌, ℕ, None, Some, slice_get};
ghost use Rattle.dc_base.specs.declared.actions.Actor.TheVariants as actor;
ghost use Rattle.dc_base.specs.declared.actions.Action.TheVariants as action;
ghost use Rattle.dc_base.specs.declared.commands.ScriptLine.TheVariants as line;
ghost use Rattle.dc_base.specs.Cores.{core_step};
ghost use Rattle.dc_base.specs.Sound.{IsSound};
ghost use Rattle.dc_base.specs.States.{ack};
ghost use Rattle.dc_bodies.specs.declared.posts.Posting.TheVariants as posting;
ghost use Rattle.dc_bodies.specs.Postings.{ComesTo, IsPosting};
ghost use Rattle.dc_bodies.specs.Scripted.{GoesOn};
ghost use Rattle.dc_objects.specs.States.{state_of};
ghost use Rattle.dc_machine.specs.Answers.{Answers, IsQuiet};

use dc_base::commands::{Command, Order};
use dc_base::entries::Reason;
use dc_base::numbers::CoreNo;
use dc_bodies::{
    Posting, Stepped, await_ack, done_held, next_posting, post_held, post_next_held,
    post_same_held, refuse_held,
};
use dc_kernel::Driver;
use dc_objects::Objects;

/// The first order of the command is posted.
fn post_first<D: Driver>(objects: &mut Objects<D>, core: CoreNo, order: Order) -> Stepped
    requires sound { IsSound (state_of objects.old) }
    requires first { ComesTo objects.old.script (posting.First core order) }
    ensures step { (polls : ℕ) → Answers result (state_of objects.old) (state_of objects.new)
        (core_step (state_of objects.old) polls actor.Script action.Script) }
    ensures quiet { IsQuiet result }
{
    let mailbox = &mut objects.mailboxes[core.0 as usize];
    Stepped::Did(post_held(&mut objects.script, mailbox, core, order))
}

/// The next order of the command is posted to the core of the last one, which carried it out.
fn post_same<D: Driver>(objects: &mut Objects<D>, core: CoreNo, order: Order) -> Stepped
    requires next { ComesTo objects.old.script (posting.After core (Some (core, order))) }
    requires acked { slice_get objects.old.mailboxes.items core.0 ≡ Some ack }
    ensures step { (polls : ℕ) → Answers result (state_of objects.old) (state_of objects.new)
        (core_step (state_of objects.old) polls actor.Script action.Script) }
    ensures quiet { IsQuiet result }
{
    let mailbox = &mut objects.mailboxes[core.0 as usize];
    Stepped::Did(post_same_held(&mut objects.script, mailbox, core, order))
}

/// The next order of the command is posted, once core `last` has carried the last one out.
fn post_next<D: Driver>(
    objects: &mut Objects<D>,
    last: CoreNo,
    core: CoreNo,
    order: Order,
) -> Stepped
    requires sound { IsSound (state_of objects.old) }
    requires next { ComesTo objects.old.script (posting.After last (Some (core, order))) }
    requires acked { slice_get objects.old.mailboxes.items last.0 ≡ Some ack }
    ensures step { (polls : ℕ) → Answers result (state_of objects.old) (state_of objects.new)
        (core_step (state_of objects.old) polls actor.Script action.Script) }
    ensures quiet { IsQuiet result }
{
    if core == last {
        return post_same(objects, core, order);
    }
    let mut emptied = objects.mailboxes[last.0 as usize];
    let mut mailbox = objects.mailboxes[core.0 as usize];
    let script = &mut objects.script;
    let entry = post_next_held(script, &mut emptied, &mut mailbox, last, core, order);
    objects.mailboxes[last.0 as usize] = emptied;
    objects.mailboxes[core.0 as usize] = mailbox;
    Stepped::Did(entry)
}

/// The command is done, once core `last` has carried its last order out.
fn done<D: Driver>(objects: &mut Objects<D>, command: &Command, last: CoreNo) -> Stepped
    requires next { IsPosting objects.old.script command.now (posting.After last None) }
    requires acked { slice_get objects.old.mailboxes.items last.0 ≡ Some ack }
    ensures step { (polls : ℕ) → Answers result (state_of objects.old) (state_of objects.new)
        (core_step (state_of objects.old) polls actor.Script action.Script) }
    ensures quiet { IsQuiet result }
{
    let emptied = &mut objects.mailboxes[last.0 as usize];
    Stepped::Did(done_held(&mut objects.script, emptied, command, last))
}

/// The command goes on after its last post, which was made to core `last`.
fn go_on<D: Driver>(
    objects: &mut Objects<D>,
    command: &Command,
    last: CoreNo,
    next: Option<(CoreNo, Order)>,
) -> Stepped
    requires sound { IsSound (state_of objects.old) }
    requires next { IsPosting objects.old.script command.now (posting.After last next) }
    ensures step { (polls : ℕ) → Answers result (state_of objects.old) (state_of objects.new)
        (core_step (state_of objects.old) polls actor.Script action.Script) }
    ensures quiet { IsQuiet result }
{
    let Some(mailbox) = objects.mailboxes.get(last.0 as usize) else {
        return Stepped::NotEnabled(Reason::NoAck { core: last });
    };
    if let Err(why) = await_ack(mailbox, last) {
        return Stepped::NotEnabled(why);
    }
    match next {
        Some((core, order)) => post_next(objects, last, core, order),
        None => done(objects, command, last),
    }
}

/// The boot command at the script's place begins, or goes on after its last order was carried out.
pub(crate) fn boot_turn<D: Driver>(objects: &mut Objects<D>, command: &Command) -> Stepped
    requires sound { IsSound (state_of objects.old) }
    requires goes { GoesOn objects.old.script (line.Boot command.now) }
    ensures step { (polls : ℕ) → Answers result (state_of objects.old) (state_of objects.new)
        (core_step (state_of objects.old) polls actor.Script action.Script) }
    ensures quiet { IsQuiet result }
{
    let posting = match next_posting(&objects.script, command) {
        Ok(posting) => posting,
        Err(why) => return Stepped::NotEnabled(why),
    };
    match posting {
        Posting::Refused(refusal) => Stepped::Did(refuse_held(&mut objects.script, refusal)),
        Posting::First(core, order) => post_first(objects, core, order),
        Posting::After { last, next } => go_on(objects, command, last, next),
    }
}
