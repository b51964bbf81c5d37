//! An object as one of its kind.

ghost use Rattle.std.specs.Prelude.{◌≡◌, ℕ, List};
ghost use Rattle.dc_base.specs.Changes.{block, channel, console, core, mailbox, script, wire};
ghost use Rattle.dc_base.specs.Channels.{Ring};
ghost use Rattle.dc_base.specs.Lines.{Wire};
ghost use Rattle.dc_base.specs.States.{Block, Core, Script};
ghost use Rattle.dc_base.specs.States.{Mailbox as Letters};
ghost use Rattle.dc_scene.specs.Objects.{object_seen};

use dc_channel::{Channel, Console};
use dc_kernel::Driver;
use dc_lines::Line;
use dc_objects::{BlockState, CoreState, Mailbox, ScriptState};
use dc_scene::Object;

/// An object that is a core.
pub fn as_core<D: Driver>(object: Object<D>) -> CoreState
    requires kind { (x : Core) × (object_seen object ≡ core x) }
    ensures { object_seen object ≡ core result }
{
    let Object::Core(x) = object else {
        unreachable!()
    };
    x
}

/// An object that is a block.
pub fn as_block<D: Driver>(object: Object<D>) -> BlockState<D>
    requires kind { (x : Block) × (object_seen object ≡ block x) }
    ensures { object_seen object ≡ block result }
{
    let Object::Block(x) = object else {
        unreachable!()
    };
    x
}

/// An object that is a channel.
pub fn as_channel<D: Driver>(object: Object<D>) -> Channel
    requires kind { (x : Ring) × (object_seen object ≡ channel x) }
    ensures { object_seen object ≡ channel result }
{
    let Object::Channel(x) = object else {
        unreachable!()
    };
    x
}

/// An object that is a line.
pub fn as_line<D: Driver>(object: Object<D>) -> Line
    requires kind { (x : Wire) × (object_seen object ≡ wire x) }
    ensures { object_seen object ≡ wire result }
{
    let Object::Line(x) = object else {
        unreachable!()
    };
    x
}

/// An object that is a mailbox.
pub fn as_mailbox<D: Driver>(object: Object<D>) -> Mailbox
    requires kind { (x : Letters) × (object_seen object ≡ mailbox x) }
    ensures { object_seen object ≡ mailbox result }
{
    let Object::Mailbox(x) = object else {
        unreachable!()
    };
    x
}

/// An object that is a console.
pub fn as_console<D: Driver>(object: Object<D>) -> Console
    requires kind { (x : List ℕ) × (object_seen object ≡ console x) }
    ensures { object_seen object ≡ console result }
{
    let Object::Console(x) = object else {
        unreachable!()
    };
    x
}

/// An object that is the script.
pub fn as_script<D: Driver>(object: Object<D>) -> ScriptState
    requires kind { (x : Script) × (object_seen object ≡ script x) }
    ensures { object_seen object ≡ script result }
{
    let Object::Script(x) = object else {
        unreachable!()
    };
    x
}
