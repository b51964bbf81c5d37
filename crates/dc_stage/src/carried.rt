//! The order of the slots that a seat carries.
ghost use Rattle.std.specs.Prelude.{◌≡◌, ℕ, ◌∷◌, List, true};
ghost use Rattle.dc_stage.specs.Numbers.{has, IsApart};
ghost use Rattle.dc_stage.specs.Carried.{keys};

use crate::rule::SeatOf;
use crate::scene::Scene;
use arrayvec::ArrayVec;

/// Brings the slot of object i to the front.
pub fn bring_forward<S: Scene>(seat: &mut SeatOf<S>, held: &mut ArrayVec<u32, 1024>, i: u32)
    requires keys { keys seat.old.me.1 ≡ held.old.items }
    requires held { has i held.old.items ≡ true }
    requires apart { IsApart held.old.items }
    ensures same { (seat.new.table_id ≡ seat.old.table_id) × (seat.new.id ≡ seat.old.id) × (seat.new.me.0 ≡ seat.old.me.0) }
    ensures keys { keys seat.new.me.1 ≡ held.new.items }
    ensures kept { (j : ℕ) → has j held.new.items ≡ has j held.old.items }
    ensures apart { IsApart held.new.items }
    ensures front { (rest : List ℕ) × (held.new.items ≡ i ∷ rest) }
{
    while held.as_slice()[0] != i {
        seat.turn();
        let first = held.remove(0);
        held.push(first);
    }
}
