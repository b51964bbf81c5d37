//! The emptied lists of each kind.
use dc_channel::{Channel, Console};
use dc_kernel::Driver;
use dc_lines::Line;
use dc_objects::{BlockState, CoreState, Mailbox};
use std::marker::Model;

/// A list without elements for each kind of object, kept for the room that it has.
#[derive(Drop)]
pub struct Kinds<D: Driver> {
    pub(crate) cores: Vec<CoreState>,
    pub(crate) blocks: Vec<BlockState<D>>,
    pub(crate) channels: Vec<Channel>,
    pub(crate) lines: Vec<Line>,
    pub(crate) mailboxes: Vec<Mailbox>,
    pub(crate) consoles: Vec<Console>,
}

// Contracts see the room of each list.
impl<D: Driver> Model for Kinds<D> {
    ghost use Rattle.std.specs.Prelude.{◌≡◌, [], vec_capacity};
    ghost use Rattle.dc_numbered.specs.Rooms.{Room};

    ghost Value = { Room };

    ghost view = { λ k. record {
      cores = vec_capacity k.cores;
      blocks = vec_capacity k.blocks;
      channels = vec_capacity k.channels;
      lines = vec_capacity k.lines;
      mailboxes = vec_capacity k.mailboxes;
      consoles = vec_capacity k.consoles;
    } };

    ghost invariant = { λ k. (k.cores.items ≡ []) × (k.blocks.items ≡ []) × (k.channels.items ≡ []) × (k.lines.items ≡ []) × (k.mailboxes.items ≡ []) ×
        (k.consoles.items ≡ []) };
}
