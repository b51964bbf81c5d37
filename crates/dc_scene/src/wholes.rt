//! What contracts say of all objects together.
use dc_base::commands::ScriptLine;
use dc_base::images::Image;
use dc_base::lists::Items;
use std::marker::Model;
use std::snapshot::Snapshot;

/// All objects of a machine at its start, which contracts alone see. It has no bytes.
#[derive(Drop)]
pub struct Whole {
    image: Snapshot<Image>,
    script: Snapshot<Items<ScriptLine>>,
}

// Contracts see a state of the machine with cores.
impl Model for Whole {
    ghost use Rattle.dc_base.specs.States.{State, core_start};

    ghost Value = { State };

    ghost view = { λ w. core_start w.image.value w.script.value };
}

impl Whole {
    ghost use Rattle.std.specs.Prelude.{◌≡◌};
    ghost use Rattle.dc_base.specs.States.{core_start};

    /// The start of the machine of an image and a script.
    pub fn start(image: &Image, script: &Items<ScriptLine>) -> Whole
        ensures { result ≡ core_start image.now script.now }
    {
        Whole {
            image: Snapshot::of(image),
            script: Snapshot::of(script),
        }
    }
}
