//! The object outside a block that its call needs, lifted out of its place and put back.

ghost use Rattle.std.specs.Prelude.{◌≡◌};
ghost use Rattle.dc_base.specs.Changes.{apply};
ghost use Rattle.dc_base.specs.States.{State};
ghost use Rattle.dc_base.specs.NeededLooks.{outside_change};
ghost use Rattle.dc_calls.specs.Outsides.{Fits, outside_seen};
ghost use Rattle.dc_kernel.specs.Turned.{look_in};
ghost use Rattle.dc_objects.specs.States.{state_of};
ghost use Rattle.dc_bodies.specs.OutsideKinds.{SameKind};
ghost use Rattle.dc_machine.specs.Lifts.{AreOutside, HasNeeded, IsLifted, KeepsRest};

use dc_base::calls::Need;
use dc_base::numbers::BlockNo;
use dc_bodies::{lift, put_down};
use dc_calls::Outside;
use dc_kernel::Driver;
use dc_objects::Objects;

/// Lifts the object out that a call of block `b` needs; nothing where none is needed, and for a line that there is not.
pub(crate) fn take_outside<D: Driver>(objects: &mut Objects<D>, b: BlockNo, need: Need) -> Outside
    requires { HasNeeded (state_of objects.old) b.0 need }
    ensures object { outside_seen result ≡ look_in (state_of objects.old) b.0 need }
    ensures kind { Fits need result }
    ensures lifted { IsLifted (state_of objects.old) objects.new b.0 need }
    ensures rest { KeepsRest objects.old objects.new }
{
    match need {
        Need::Nothing => Outside::Nothing,
        Need::Console => Outside::Console(lift(&mut objects.consoles, b.0 as usize)),
        Need::Channel(x) => Outside::Channel(lift(&mut objects.channels, x.0 as usize)),
        Need::Line(l) => {
            if l.0 as usize >= objects.lines.len() {
                return Outside::Nothing;
            }
            Outside::Line(lift(&mut objects.lines, l.0 as usize))
        }
    }
}

/// Puts the object back that a call of block `b` needed.
pub(crate) fn put_outside<D: Driver>(
    objects: &mut Objects<D>,
    b: BlockNo,
    need: Need,
    outside: Outside,
)
    requires kind { Fits need outside }
    requires lifted { (s : State) × IsLifted s objects.old b.0 need × SameKind (look_in s b.0 need) (outside_seen outside) }
    ensures outside { (s : State) → IsLifted s objects.old b.0 need → SameKind (look_in s b.0 need) (outside_seen outside) →
        AreOutside (apply s (outside_change b.0 need (outside_seen outside))) objects.new }
    ensures rest { KeepsRest objects.old objects.new }
{
    match outside {
        Outside::Nothing => {}
        Outside::Console(console) => put_down(&mut objects.consoles, b.0 as usize, console),
        Outside::Channel(channel) => match need {
            Need::Channel(x) => put_down(&mut objects.channels, x.0 as usize, channel),
            _ => {}
        },
        Outside::Line(line) => match need {
            Need::Line(l) => put_down(&mut objects.lines, l.0 as usize, line),
            _ => {}
        },
    }
}
