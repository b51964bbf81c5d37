//! Actions in four bytes.

ghost use Rattle.std.specs.Prelude.{◌≡◌, IfSome};
ghost use Rattle.dc_base.specs.declared.actions.Actor.TheVariants as actor;
ghost use Rattle.dc_script.specs.Shorts.{whole};

use dc_base::actions::{Action, Actor};
use dc_base::numbers::{BlockNo, CoreNo, DispNo, LineNo};

/// An action of its own actor, with numbers below 256, in four bytes.
#[derive(Clone, Copy, Debug)]
pub enum Short {
    Step(u8),
    Order(u8),
    Intake(u8, u8),
    Wake(u8, u8, u8),
    Script,
    Raise,
}

const _: () = prove!(size_of::<Short>() == 4);

/// A number below 256.
fn byte(n: u32) -> Option<u8>
    ensures { IfSome result (λ b. b ≡ n) }
{
    if n < 256 { Some(n as u8) } else { None }
}

/// The action of a core, where it is one of a core and its numbers are below 256.
fn of_core(core: u8, action: Action) -> Option<Short>
    ensures { IfSome result (λ short. whole short ≡ (actor.Core (record { 0 = core }), action)) }
{
    match action {
        Action::Step => Some(Short::Step(core)),
        Action::Order => Some(Short::Order(core)),
        Action::Intake(line) => Some(Short::Intake(core, byte(line.0)?)),
        Action::Wake(block, disp) => Some(Short::Wake(core, byte(block.0)?, byte(disp.0)?)),
        Action::Script | Action::Raise => None,
    }
}

/// The action of the script, where it is one.
fn of_script(action: Action) -> Option<Short>
    ensures { IfSome result (λ short. whole short ≡ (actor.Script, action)) }
{
    match action {
        Action::Script => Some(Short::Script),
        Action::Raise => Some(Short::Raise),
        _ => None,
    }
}

impl Short {
    /// An actor and its action in four bytes, where the action is one of that actor and each number is below 256.
    pub(crate) fn of(who: Actor, action: Action) -> Option<Short>
        ensures { IfSome result (λ short. whole short ≡ (who, action)) }
    {
        match who {
            Actor::Core(core) => of_core(byte(core.0)?, action),
            Actor::Script => of_script(action),
        }
    }

    /// The actor and its action.
    pub(crate) fn whole(self) -> (Actor, Action)
        ensures { result ≡ whole self }
    {
        match self {
            Short::Step(core) => (Actor::Core(CoreNo(core as u32)), Action::Step),
            Short::Order(core) => (Actor::Core(CoreNo(core as u32)), Action::Order),
            Short::Intake(core, line) => (
                Actor::Core(CoreNo(core as u32)),
                Action::Intake(LineNo(line as u32)),
            ),
            Short::Wake(core, block, disp) => (
                Actor::Core(CoreNo(core as u32)),
                Action::Wake(BlockNo(block as u32), DispNo(disp as u32)),
            ),
            Short::Script => (Actor::Script, Action::Script),
            Short::Raise => (Actor::Script, Action::Raise),
        }
    }
}
