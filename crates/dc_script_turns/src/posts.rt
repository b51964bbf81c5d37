//! A boot command goes on: it is refused, or its orders are posted one after another.

ghost use Rattle.std.specs.Prelude.{◌≡◌, ◌<◌, ◌≤◌, ◌^◌, ◌∷◌, [], None, Some, length};
ghost use Rattle.dc_base.specs.declared.actions.Action.TheVariants as action;
ghost use Rattle.dc_base.specs.declared.commands.ScriptLine.TheVariants as line;
ghost use Rattle.dc_base.specs.Changes.{a_mailbox, mailbox};
ghost use Rattle.dc_base.specs.States.{ack};
ghost use Rattle.dc_bodies.specs.declared.posts.Posting.TheVariants as posting;
ghost use Rattle.dc_bodies.specs.Postings.{ComesTo, IsPosting};
ghost use Rattle.dc_bodies.specs.Scripted.{GoesOn};
ghost use Rattle.dc_stage.specs.History.{own};
ghost use Rattle.dc_stage.specs.Passes.{IsOf};
ghost use Rattle.dc_hands.specs.Hands.{HoldsScript};
ghost use Rattle.dc_hands.specs.Holding.{Has};
ghost use Rattle.dc_hands.specs.Machines.{IsOpened};
ghost use Rattle.dc_script_turns.specs.Scripting.{Acts, HoldsBeside};

use dc_base::commands::{Command, Order, Refusal};
use dc_base::entries::Reason;
use dc_base::numbers::CoreNo;
use dc_bodies::{
    Posting, await_ack, done_held, next_posting, post_held, post_next_held, post_same_held,
    refuse_held,
};
use dc_hands::{ScriptHand, Turned, commit, put_mailbox, take_mailbox};
use dc_kernel::Driver;
use dc_objects::Mailbox;
use dc_scene::Machine;
use dc_stage::{Pass, Stage};

/// The command is refused.
fn refuse<D: Driver>(
    stage: &Stage<Machine<D>>,
    pass: &mut Pass<Machine<D>>,
    hand: &mut ScriptHand,
    refusal: Refusal,
) -> Turned
    requires opened { IsOpened stage.now }
    requires stage { IsOf pass.old stage.now }
    requires hand { HoldsScript stage.now pass.old hand.old }
    requires room { length (own pass.old.actor pass.old.seen) < 2 ^ 56 }
    requires refused { ComesTo hand.old.script (posting.Refused refusal) }
    ensures { Acts stage.now pass.old pass.new hand.old hand.new action.Script result }
{
    let entry = refuse_held(&mut hand.script, refusal);
    let ticket = commit(stage, pass, &entry);
    Turned::Did { entry, ticket }
}

/// The first order of the command is posted.
fn post_first<D: Driver>(
    stage: &Stage<Machine<D>>,
    pass: &mut Pass<Machine<D>>,
    hand: &mut ScriptHand,
    core: CoreNo,
    order: Order,
) -> Turned
    requires opened { IsOpened stage.now }
    requires stage { IsOf pass.old stage.now }
    requires hand { HoldsScript stage.now pass.old hand.old }
    requires room { length (own pass.old.actor pass.old.seen) < 2 ^ 56 }
    requires first { ComesTo hand.old.script (posting.First core order) }
    ensures { Acts stage.now pass.old pass.new hand.old hand.new action.Script result }
{
    let mut mailbox = match take_mailbox(stage, pass, core) {
        Ok(mailbox) => mailbox,
        Err(busy) => return Turned::Busy(busy),
    };
    let entry = post_held(&mut hand.script, &mut mailbox, core, order);
    let ticket = commit(stage, pass, &entry);
    put_mailbox(stage, pass, core, mailbox);
    Turned::Did { entry, ticket }
}

/// The next order of the command is posted to the core of the last one, which carried it out: its mailbox was emptied, and goes back with the order.
fn post_same<D: Driver>(
    stage: &Stage<Machine<D>>,
    pass: &mut Pass<Machine<D>>,
    hand: &mut ScriptHand,
    both: Mailbox,
    core: CoreNo,
    order: Order,
) -> Turned
    requires opened { IsOpened stage.now }
    requires stage { IsOf pass.old stage.now }
    requires holds { HoldsBeside stage.now pass.old hand.old.script (a_mailbox core.0 ∷ []) }
    requires few { hand.old.polls ≤ 1000000000 }
    requires room { length (own pass.old.actor pass.old.seen) < 2 ^ 56 }
    requires mailbox { Has stage.now pass.old (a_mailbox core.0) (mailbox both) }
    requires next { ComesTo hand.old.script (posting.After core (Some (core, order))) }
    requires acked { both ≡ ack }
    ensures { Acts stage.now pass.old pass.new hand.old hand.new action.Script result }
{
    let mut both = both;
    let entry = post_same_held(&mut hand.script, &mut both, core, order);
    let ticket = commit(stage, pass, &entry);
    put_mailbox(stage, pass, core, both);
    Turned::Did { entry, ticket }
}

/// The next order of the command is posted to another core, and the mailbox of the last one, which carried it out, is emptied.
fn post_other<D: Driver>(
    stage: &Stage<Machine<D>>,
    pass: &mut Pass<Machine<D>>,
    hand: &mut ScriptHand,
    emptied: Mailbox,
    last: CoreNo,
    core: CoreNo,
    order: Order,
) -> Turned
    requires opened { IsOpened stage.now }
    requires stage { IsOf pass.old stage.now }
    requires holds { HoldsBeside stage.now pass.old hand.old.script (a_mailbox last.0 ∷ []) }
    requires few { hand.old.polls ≤ 1000000000 }
    requires room { length (own pass.old.actor pass.old.seen) < 2 ^ 56 }
    requires mailbox { Has stage.now pass.old (a_mailbox last.0) (mailbox emptied) }
    requires next { ComesTo hand.old.script (posting.After last (Some (core, order))) }
    requires acked { emptied ≡ ack }
    requires other { core.0 ≡ last.0 → ⊥ }
    ensures { Acts stage.now pass.old pass.new hand.old hand.new action.Script result }
{
    let mut emptied = emptied;
    let mut mailbox = match take_mailbox(stage, pass, core) {
        Ok(mailbox) => mailbox,
        Err(busy) => {
            put_mailbox(stage, pass, last, emptied);
            return Turned::Busy(busy);
        }
    };
    let script = &mut hand.script;
    let entry = post_next_held(script, &mut emptied, &mut mailbox, last, core, order);
    let ticket = commit(stage, pass, &entry);
    put_mailbox(stage, pass, core, mailbox);
    put_mailbox(stage, pass, last, emptied);
    Turned::Did { entry, ticket }
}

/// The command is done, and the mailbox of its last post is emptied.
fn finish<D: Driver>(
    stage: &Stage<Machine<D>>,
    pass: &mut Pass<Machine<D>>,
    hand: &mut ScriptHand,
    emptied: Mailbox,
    command: &Command,
    last: CoreNo,
) -> Turned
    requires opened { IsOpened stage.now }
    requires stage { IsOf pass.old stage.now }
    requires holds { HoldsBeside stage.now pass.old hand.old.script (a_mailbox last.0 ∷ []) }
    requires few { hand.old.polls ≤ 1000000000 }
    requires room { length (own pass.old.actor pass.old.seen) < 2 ^ 56 }
    requires mailbox { Has stage.now pass.old (a_mailbox last.0) (mailbox emptied) }
    requires next { IsPosting hand.old.script command.now (posting.After last None) }
    requires acked { emptied ≡ ack }
    ensures { Acts stage.now pass.old pass.new hand.old hand.new action.Script result }
{
    let mut emptied = emptied;
    let entry = done_held(&mut hand.script, &mut emptied, command, last);
    let ticket = commit(stage, pass, &entry);
    put_mailbox(stage, pass, last, emptied);
    Turned::Did { entry, ticket }
}

/// The command goes on after core `last` carried its last order out, whose mailbox is at hand.
fn go_on_acked<D: Driver>(
    stage: &Stage<Machine<D>>,
    pass: &mut Pass<Machine<D>>,
    hand: &mut ScriptHand,
    emptied: Mailbox,
    command: &Command,
    last: CoreNo,
    next: Option<(CoreNo, Order)>,
) -> Turned
    requires opened { IsOpened stage.now }
    requires stage { IsOf pass.old stage.now }
    requires holds { HoldsBeside stage.now pass.old hand.old.script (a_mailbox last.0 ∷ []) }
    requires few { hand.old.polls ≤ 1000000000 }
    requires room { length (own pass.old.actor pass.old.seen) < 2 ^ 56 }
    requires mailbox { Has stage.now pass.old (a_mailbox last.0) (mailbox emptied) }
    requires next { IsPosting hand.old.script command.now (posting.After last next) }
    requires acked { emptied ≡ ack }
    ensures { Acts stage.now pass.old pass.new hand.old hand.new action.Script result }
{
    let Some((core, order)) = next else {
        return finish(stage, pass, hand, emptied, command, last);
    };
    if core == last {
        return post_same(stage, pass, hand, emptied, core, order);
    }
    post_other(stage, pass, hand, emptied, last, core, order)
}

/// The command goes on after its last post, which was made to core `last` of the machine.
fn go_on_after<D: Driver>(
    stage: &Stage<Machine<D>>,
    pass: &mut Pass<Machine<D>>,
    hand: &mut ScriptHand,
    command: &Command,
    last: CoreNo,
    next: Option<(CoreNo, Order)>,
) -> Turned
    requires opened { IsOpened stage.now }
    requires stage { IsOf pass.old stage.now }
    requires hand { HoldsScript stage.now pass.old hand.old }
    requires room { length (own pass.old.actor pass.old.seen) < 2 ^ 56 }
    requires within { last.0 < stage.now.scene.settings.cores }
    requires next { IsPosting hand.old.script command.now (posting.After last next) }
    ensures { Acts stage.now pass.old pass.new hand.old hand.new action.Script result }
{
    let mailbox = match take_mailbox(stage, pass, last) {
        Ok(mailbox) => mailbox,
        Err(busy) => return Turned::Busy(busy),
    };
    if let Err(why) = await_ack(&mailbox, last) {
        put_mailbox(stage, pass, last, mailbox);
        return Turned::NotEnabled(why);
    }
    go_on_acked(stage, pass, hand, mailbox, command, last, next)
}

/// The command goes on after its last post, which was made to core `last`.
fn go_on<D: Driver>(
    stage: &Stage<Machine<D>>,
    pass: &mut Pass<Machine<D>>,
    hand: &mut ScriptHand,
    command: &Command,
    last: CoreNo,
    next: Option<(CoreNo, Order)>,
) -> Turned
    requires opened { IsOpened stage.now }
    requires stage { IsOf pass.old stage.now }
    requires hand { HoldsScript stage.now pass.old hand.old }
    requires room { length (own pass.old.actor pass.old.seen) < 2 ^ 56 }
    requires next { IsPosting hand.old.script command.now (posting.After last next) }
    ensures { Acts stage.now pass.old pass.new hand.old hand.new action.Script result }
{
    if last.0 >= stage.scene().settings.cores() {
        return Turned::NotEnabled(Reason::NoAck { core: last });
    }
    go_on_after(stage, pass, hand, command, last, next)
}

/// The boot command at the script's place begins, or goes on after its last order was carried out.
pub(crate) fn boot_turn<D: Driver>(
    stage: &Stage<Machine<D>>,
    pass: &mut Pass<Machine<D>>,
    hand: &mut ScriptHand,
    command: &Command,
) -> Turned
    requires opened { IsOpened stage.now }
    requires stage { IsOf pass.old stage.now }
    requires hand { HoldsScript stage.now pass.old hand.old }
    requires room { length (own pass.old.actor pass.old.seen) < 2 ^ 56 }
    requires goes { GoesOn hand.old.script (line.Boot command.now) }
    ensures { Acts stage.now pass.old pass.new hand.old hand.new action.Script result }
{
    let posting = match next_posting(&hand.script, command) {
        Ok(posting) => posting,
        Err(why) => return Turned::NotEnabled(why),
    };
    match posting {
        Posting::Refused(refusal) => refuse(stage, pass, hand, refusal),
        Posting::First(core, order) => post_first(stage, pass, hand, core, order),
        Posting::After { last, next } => go_on(stage, pass, hand, command, last, next),
    }
}
