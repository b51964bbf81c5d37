//! The scene of a machine.
ghost use Rattle.std.specs.Prelude.{◌≡◌};
ghost use Rattle.dc_base.specs.States.{core_start, settings_of};
ghost use Rattle.dc_base.specs.Bounded.{AreLimited};

use crate::objects::{Object, Shown};
use crate::wholes::Whole;
use dc_base::commands::ScriptLine;
use dc_base::entries::Entry;
use dc_base::images::Image;
use dc_base::lists::Items;
use dc_kernel::Driver;
use dc_objects::Settings;
use dc_stage::Scene;
use std::marker::PhantomData;

/// The machine with cores: its settings and its start, which contracts alone see.
#[derive(Drop)]
pub struct Machine<D: Driver> {
    pub settings: Settings,
    pub start: Whole,
    drivers: PhantomData<D>,
}

impl<D: Driver> Scene for Machine<D> {
    ghost use Rattle.std.specs.Prelude.{Some};
    ghost use Rattle.dc_scene.specs.Objects.{object_seen};
    ghost use Rattle.dc_scene.specs.Machines.{machine};
    ghost use Rattle.dc_scene.specs.Laws.{machine_untouched, machine_local};

    type Object = Object<D>;

    type Whole = Whole;

    type State = Option<Shown<D>>;

    type Entry = Entry;

    ghost state = { λ o. Some (object_seen o) };

    ghost meaning = { λ m. machine m.settings m.start };

    ghost untouched = { λ m. machine_untouched m.settings m.start };

    ghost local = { λ m. machine_local m.settings m.start };
}

/// The scene of the machine of an image within the limits and a script.
pub fn scene<D: Driver>(image: &Image, script: &Items<ScriptLine>) -> Machine<D>
    requires { AreLimited (settings_of image.now) }
    ensures settings { result.settings ≡ settings_of image.now }
    ensures start { result.start ≡ core_start image.now script.now }
{
    Machine {
        settings: Settings::of(image),
        start: Whole::start(image, script),
        drivers: PhantomData,
    }
}
