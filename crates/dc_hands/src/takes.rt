//! Objects of a machine, taken from the stage and put back, each by its kind.

ghost use Rattle.std.specs.Prelude.{◌≡◌, ◌<◌, false, IfErr, IfOk};
ghost use Rattle.dc_base.specs.Changes.{a_block, a_channel, a_console, a_core, a_line, a_mailbox, the_script};
ghost use Rattle.dc_base.specs.Changes.{block, channel, console, core, mailbox, script, wire};
ghost use Rattle.dc_stage.specs.Numbers.{has};
ghost use Rattle.dc_stage.specs.Passes.{IsOf, having_put};
ghost use Rattle.dc_hands.specs.Holding.{Gets, Has, Misses};
ghost use Rattle.dc_hands.specs.Machines.{IsOpened, number_of};

use crate::{numbers, of_kind};
use dc_base::numbers::{BlockNo, ChanNo, CoreNo, LineNo};
use dc_channel::{Channel, Console};
use dc_kernel::Driver;
use dc_lines::Line;
use dc_objects::{BlockState, CoreState, Mailbox, ScriptState};
use dc_scene::{Machine, Object, history_is_of_the_machine};
use dc_stage::{Pass, Stage, Taken};

/// An object by its number on the stage, and the actor that had it.
#[derive(Clone, Copy, Debug, PartialEq, Eq)]
pub struct Busy {
    pub object: u32,
    pub by: u32,
}

/// Takes core `c`.
pub fn take_core<D: Driver>(
    stage: &Stage<Machine<D>>,
    pass: &mut Pass<Machine<D>>,
    c: CoreNo,
) -> Result<CoreState, Busy>
    requires opened { IsOpened stage.now }
    requires stage { IsOf pass.old stage.now }
    requires within { c.0 < stage.now.scene.settings.cores }
    requires free { has (number_of stage.now (a_core c.0)) pass.old.holds ≡ false }
    ensures got { IfOk result (λ x. Gets stage.now pass.old pass.new (a_core c.0) (core x)) }
    ensures busy { IfErr result (Misses stage.now pass.old pass.new (a_core c.0)) }
{
    history_is_of_the_machine::<D>();
    let object = numbers::of_core::<D>(stage, c);
    match stage.try_take(pass, object) {
        Taken::Got(found) => Ok(of_kind::as_core(found)),
        Taken::Busy { by } => Err(Busy { object, by }),
    }
}

/// Puts core `c` back.
pub fn put_core<D: Driver>(
    stage: &Stage<Machine<D>>,
    pass: &mut Pass<Machine<D>>,
    c: CoreNo,
    object: CoreState,
)
    requires opened { IsOpened stage.now }
    requires stage { IsOf pass.old stage.now }
    requires held { Has stage.now pass.old (a_core c.0) (core object) }
    ensures { pass.new ≡ having_put pass.old (number_of stage.now (a_core c.0)) }
{
    history_is_of_the_machine::<D>();
    stage.put(pass, numbers::of_core::<D>(stage, c), Object::Core(object));
}

/// Takes block `b`.
pub fn take_block<D: Driver>(
    stage: &Stage<Machine<D>>,
    pass: &mut Pass<Machine<D>>,
    b: BlockNo,
) -> Result<BlockState<D>, Busy>
    requires opened { IsOpened stage.now }
    requires stage { IsOf pass.old stage.now }
    requires within { b.0 < stage.now.scene.settings.blocks }
    requires free { has (number_of stage.now (a_block b.0)) pass.old.holds ≡ false }
    ensures got { IfOk result (λ x. Gets stage.now pass.old pass.new (a_block b.0) (block x)) }
    ensures busy { IfErr result (Misses stage.now pass.old pass.new (a_block b.0)) }
{
    history_is_of_the_machine::<D>();
    let object = numbers::of_block::<D>(stage, b);
    match stage.try_take(pass, object) {
        Taken::Got(found) => Ok(of_kind::as_block(found)),
        Taken::Busy { by } => Err(Busy { object, by }),
    }
}

/// Puts block `b` back.
pub fn put_block<D: Driver>(
    stage: &Stage<Machine<D>>,
    pass: &mut Pass<Machine<D>>,
    b: BlockNo,
    object: BlockState<D>,
)
    requires opened { IsOpened stage.now }
    requires stage { IsOf pass.old stage.now }
    requires held { Has stage.now pass.old (a_block b.0) (block object) }
    ensures { pass.new ≡ having_put pass.old (number_of stage.now (a_block b.0)) }
{
    history_is_of_the_machine::<D>();
    stage.put(
        pass,
        numbers::of_block::<D>(stage, b),
        Object::Block(object),
    );
}

/// Takes channel `x`.
pub fn take_channel<D: Driver>(
    stage: &Stage<Machine<D>>,
    pass: &mut Pass<Machine<D>>,
    x: ChanNo,
) -> Result<Channel, Busy>
    requires opened { IsOpened stage.now }
    requires stage { IsOf pass.old stage.now }
    requires within { x.0 < stage.now.scene.settings.channels }
    requires free { has (number_of stage.now (a_channel x.0)) pass.old.holds ≡ false }
    ensures got { IfOk result (λ r. Gets stage.now pass.old pass.new (a_channel x.0) (channel r)) }
    ensures busy { IfErr result (Misses stage.now pass.old pass.new (a_channel x.0)) }
{
    history_is_of_the_machine::<D>();
    let object = numbers::of_channel::<D>(stage, x);
    match stage.try_take(pass, object) {
        Taken::Got(found) => Ok(of_kind::as_channel(found)),
        Taken::Busy { by } => Err(Busy { object, by }),
    }
}

/// Puts channel `x` back.
pub fn put_channel<D: Driver>(
    stage: &Stage<Machine<D>>,
    pass: &mut Pass<Machine<D>>,
    x: ChanNo,
    object: Channel,
)
    requires opened { IsOpened stage.now }
    requires stage { IsOf pass.old stage.now }
    requires held { Has stage.now pass.old (a_channel x.0) (channel object) }
    ensures { pass.new ≡ having_put pass.old (number_of stage.now (a_channel x.0)) }
{
    history_is_of_the_machine::<D>();
    stage.put(
        pass,
        numbers::of_channel::<D>(stage, x),
        Object::Channel(object),
    );
}

/// Takes line `l`.
pub fn take_line<D: Driver>(
    stage: &Stage<Machine<D>>,
    pass: &mut Pass<Machine<D>>,
    l: LineNo,
) -> Result<Line, Busy>
    requires opened { IsOpened stage.now }
    requires stage { IsOf pass.old stage.now }
    requires within { l.0 < stage.now.scene.settings.lines }
    requires free { has (number_of stage.now (a_line l.0)) pass.old.holds ≡ false }
    ensures got { IfOk result (λ x. Gets stage.now pass.old pass.new (a_line l.0) (wire x)) }
    ensures busy { IfErr result (Misses stage.now pass.old pass.new (a_line l.0)) }
{
    history_is_of_the_machine::<D>();
    let object = numbers::of_line::<D>(stage, l);
    match stage.try_take(pass, object) {
        Taken::Got(found) => Ok(of_kind::as_line(found)),
        Taken::Busy { by } => Err(Busy { object, by }),
    }
}

/// Puts line `l` back.
pub fn put_line<D: Driver>(
    stage: &Stage<Machine<D>>,
    pass: &mut Pass<Machine<D>>,
    l: LineNo,
    object: Line,
)
    requires opened { IsOpened stage.now }
    requires stage { IsOf pass.old stage.now }
    requires held { Has stage.now pass.old (a_line l.0) (wire object) }
    ensures { pass.new ≡ having_put pass.old (number_of stage.now (a_line l.0)) }
{
    history_is_of_the_machine::<D>();
    stage.put(pass, numbers::of_line::<D>(stage, l), Object::Line(object));
}

/// Takes the mailbox of core `c`.
pub fn take_mailbox<D: Driver>(
    stage: &Stage<Machine<D>>,
    pass: &mut Pass<Machine<D>>,
    c: CoreNo,
) -> Result<Mailbox, Busy>
    requires opened { IsOpened stage.now }
    requires stage { IsOf pass.old stage.now }
    requires within { c.0 < stage.now.scene.settings.cores }
    requires free { has (number_of stage.now (a_mailbox c.0)) pass.old.holds ≡ false }
    ensures got { IfOk result (λ x. Gets stage.now pass.old pass.new (a_mailbox c.0) (mailbox x)) }
    ensures busy { IfErr result (Misses stage.now pass.old pass.new (a_mailbox c.0)) }
{
    history_is_of_the_machine::<D>();
    let object = numbers::of_mailbox::<D>(stage, c);
    match stage.try_take(pass, object) {
        Taken::Got(found) => Ok(of_kind::as_mailbox(found)),
        Taken::Busy { by } => Err(Busy { object, by }),
    }
}

/// Puts the mailbox of core `c` back.
pub fn put_mailbox<D: Driver>(
    stage: &Stage<Machine<D>>,
    pass: &mut Pass<Machine<D>>,
    c: CoreNo,
    object: Mailbox,
)
    requires opened { IsOpened stage.now }
    requires stage { IsOf pass.old stage.now }
    requires held { Has stage.now pass.old (a_mailbox c.0) (mailbox object) }
    ensures { pass.new ≡ having_put pass.old (number_of stage.now (a_mailbox c.0)) }
{
    history_is_of_the_machine::<D>();
    stage.put(
        pass,
        numbers::of_mailbox::<D>(stage, c),
        Object::Mailbox(object),
    );
}

/// Takes the console of block `b`.
pub fn take_console<D: Driver>(
    stage: &Stage<Machine<D>>,
    pass: &mut Pass<Machine<D>>,
    b: BlockNo,
) -> Result<Console, Busy>
    requires opened { IsOpened stage.now }
    requires stage { IsOf pass.old stage.now }
    requires within { b.0 < stage.now.scene.settings.blocks }
    requires free { has (number_of stage.now (a_console b.0)) pass.old.holds ≡ false }
    ensures got { IfOk result (λ x. Gets stage.now pass.old pass.new (a_console b.0) (console x)) }
    ensures busy { IfErr result (Misses stage.now pass.old pass.new (a_console b.0)) }
{
    history_is_of_the_machine::<D>();
    let object = numbers::of_console::<D>(stage, b);
    match stage.try_take(pass, object) {
        Taken::Got(found) => Ok(of_kind::as_console(found)),
        Taken::Busy { by } => Err(Busy { object, by }),
    }
}

/// Puts the console of block `b` back.
pub fn put_console<D: Driver>(
    stage: &Stage<Machine<D>>,
    pass: &mut Pass<Machine<D>>,
    b: BlockNo,
    object: Console,
)
    requires opened { IsOpened stage.now }
    requires stage { IsOf pass.old stage.now }
    requires held { Has stage.now pass.old (a_console b.0) (console object) }
    ensures { pass.new ≡ having_put pass.old (number_of stage.now (a_console b.0)) }
{
    history_is_of_the_machine::<D>();
    stage.put(
        pass,
        numbers::of_console::<D>(stage, b),
        Object::Console(object),
    );
}

/// Takes the script.
pub fn take_script<D: Driver>(
    stage: &Stage<Machine<D>>,
    pass: &mut Pass<Machine<D>>,
) -> Result<ScriptState, Busy>
    requires opened { IsOpened stage.now }
    requires stage { IsOf pass.old stage.now }
    requires free { has (number_of stage.now the_script) pass.old.holds ≡ false }
    ensures got { IfOk result (λ x. Gets stage.now pass.old pass.new the_script (script x)) }
    ensures busy { IfErr result (Misses stage.now pass.old pass.new the_script) }
{
    history_is_of_the_machine::<D>();
    let object = numbers::of_script::<D>(stage);
    match stage.try_take(pass, object) {
        Taken::Got(found) => Ok(of_kind::as_script(found)),
        Taken::Busy { by } => Err(Busy { object, by }),
    }
}

/// Puts the script back.
pub fn put_script<D: Driver>(
    stage: &Stage<Machine<D>>,
    pass: &mut Pass<Machine<D>>,
    object: ScriptState,
)
    requires opened { IsOpened stage.now }
    requires stage { IsOf pass.old stage.now }
    requires held { Has stage.now pass.old the_script (script object) }
    ensures { pass.new ≡ having_put pass.old (number_of stage.now the_script) }
{
    history_is_of_the_machine::<D>();
    stage.put(pass, numbers::of_script::<D>(stage), Object::Script(object));
}
