//! The object outside a block that its call needs, taken from the stage and put back.

ghost use Rattle.std.specs.Prelude.{◌≡◌, false, map, IfErr, IfOk};
ghost use Rattle.dc_base.specs.Changes.{Name};
ghost use Rattle.dc_base.specs.Histories.{Listed};
ghost use Rattle.dc_stage.specs.Numbers.{has};
ghost use Rattle.dc_stage.specs.Passes.{IsOf};
ghost use Rattle.dc_touch.specs.Within.{Within};
ghost use Rattle.dc_core_turns.specs.Beyond.{GetsOutside, HasOutside, MissesOutside, needed_here, without_each};
ghost use Rattle.dc_hands.specs.Machines.{IsOpened, number_of};

use dc_base::calls::Need;
use dc_base::numbers::BlockNo;
use dc_calls::Outside;
use dc_hands::{Busy, put_channel, put_console, put_line, take_channel, take_console, take_line};
use dc_kernel::Driver;
use dc_scene::Machine;
use dc_stage::{Pass, Stage};

/// Takes the object that a call of block `b` needs; nothing where none is needed, and for a line that there is not.
pub(crate) fn take_outside<D: Driver>(
    stage: &Stage<Machine<D>>,
    pass: &mut Pass<Machine<D>>,
    b: BlockNo,
    need: Need,
) -> Result<Outside, Busy>
    requires opened { IsOpened stage.now }
    requires stage { IsOf pass.old stage.now }
    requires within { (n : Name) → Listed n (needed_here stage.now b.0 need) → Within stage.now.scene.settings n }
    requires free { (n : Name) → Listed n (needed_here stage.now b.0 need) → has (number_of stage.now n) pass.old.holds ≡ false }
    ensures got { IfOk result (GetsOutside stage.now pass.old pass.new b.0 need) }
    ensures busy { IfErr result (MissesOutside stage.now pass.old pass.new b.0 need) }
{
    match need {
        Need::Nothing => Ok(Outside::Nothing),
        Need::Console => match take_console(stage, pass, b) {
            Ok(console) => Ok(Outside::Console(console)),
            Err(busy) => Err(busy),
        },
        Need::Channel(x) => match take_channel(stage, pass, x) {
            Ok(channel) => Ok(Outside::Channel(channel)),
            Err(busy) => Err(busy),
        },
        Need::Line(l) => {
            if l.0 >= stage.scene().settings.lines() {
                return Ok(Outside::Nothing);
            }
            match take_line(stage, pass, l) {
                Ok(line) => Ok(Outside::Line(line)),
                Err(busy) => Err(busy),
            }
        }
    }
}

/// Puts the object back that a call of block `b` needed.
pub(crate) fn put_outside<D: Driver>(
    stage: &Stage<Machine<D>>,
    pass: &mut Pass<Machine<D>>,
    b: BlockNo,
    need: Need,
    outside: Outside,
)
    requires opened { IsOpened stage.now }
    requires stage { IsOf pass.old stage.now }
    requires held { HasOutside stage.now pass.old b.0 need outside }
    ensures { pass.new ≡ record pass.old { holds = without_each (map (number_of stage.now) (needed_here stage.now b.0 need)) pass.old.holds } }
{
    match outside {
        Outside::Nothing => {}
        Outside::Console(console) => put_console(stage, pass, b, console),
        Outside::Channel(channel) => match need {
            Need::Channel(x) => put_channel(stage, pass, x, channel),
            _ => unreachable!(),
        },
        Outside::Line(line) => match need {
            Need::Line(l) => put_line(stage, pass, l, line),
            _ => unreachable!(),
        },
    }
}
