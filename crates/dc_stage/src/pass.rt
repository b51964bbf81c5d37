//! What one actor knows and holds.
use crate::rule::SeatOf;
use crate::scene::Scene;
use arrayvec::ArrayVec;
use std::marker::Model;

/// One actor's part in a stage.
/// Contracts see its stage and scene, its actor, the entries that it has seen, what it holds and ever took, its refused takes,
/// and of the first pass how many passes it made, itself counted, and which were joined to it.
#[derive(Drop)]
pub struct Pass<S: Scene> {
    pub(crate) seat: SeatOf<S>,
    pub(crate) actor: u64,
    pub(crate) made: u64,
    /// The numbers of the objects that it holds, in the order of the seat's slots.
    pub(crate) held: ArrayVec<u32, 1024>,
    /// Room for all objects, which the first pass keeps for the close.
    pub(crate) room: Option<Vec<<S as Scene>::Object>>,
}

impl<S: Scene> Model for Pass<S> {
    ghost use Rattle.std.specs.Prelude.{◌≡◌, ◌≤◌, Some, [], vec_capacity};
    ghost use Rattle.atomic_table.specs.Seated.{table_id_coded};
    ghost use Rattle.dc_stage.specs.Passes.{Known};
    ghost use Rattle.dc_stage.specs.Carried.{known_of, PassIsKept};

    ghost Value = { Known S S.Entry };

    ghost view = { λ p. known_of p.seat.table_id p.seat.me.0 };

    ghost invariant = { λ p.
        PassIsKept p.seat.table_id.slots p.seat.me p.actor p.made p.held.items
        (λ n. (room : _) × (p.room ≡ Some room) × (room.items ≡ []) × (n ≤ vec_capacity room)) };
}

impl<S: Scene> Pass<S> {
    ghost use Rattle.std.specs.Prelude.{◌≡◌};

    /// The number of its actor.
    pub fn actor(&self) -> u32
        ensures { result ≡ self.now.actor }
    {
        self.actor as u32
    }
}
