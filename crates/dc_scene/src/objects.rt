//! The objects of the machine, of all kinds.
use dc_channel::{Channel, Console};
use dc_kernel::Driver;
use dc_lines::Line;
use dc_objects::{BlockState, CoreState, Mailbox, ScriptState};
use std::marker::Model;

/// An object of the machine.
#[derive(Drop)]
pub enum Object<D: Driver> {
    Core(CoreState),
    Block(BlockState<D>),
    Channel(Channel),
    Line(Line),
    Mailbox(Mailbox),
    Console(Console),
    Script(ScriptState),
}

/// An object as contracts see it, whatever its kind.
#[derive(Drop)]
pub struct Shown<D: Driver> {
    object: Object<D>,
}

// Contracts see an object of the machine with cores.
impl<D: Driver> Model for Shown<D> {
    ghost use Rattle.dc_base.specs.Changes.{Object as Seen};
    ghost use Rattle.dc_scene.specs.Objects.{object_seen};

    ghost Value = { Seen };

    ghost view = { λ s. object_seen s.object };
}
