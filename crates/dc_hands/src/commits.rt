//! Entries of an actor of a machine.

ghost use Rattle.std.specs.Prelude.{◌≡◌, ◌<◌, ◌^◌, true, length};
ghost use Rattle.dc_base.specs.Changes.{Name};
ghost use Rattle.dc_base.specs.Histories.{actor_number, touched, IsLawful, Listed};
ghost use Rattle.dc_stage.specs.Numbers.{has};
ghost use Rattle.dc_stage.specs.History.{own};
ghost use Rattle.dc_stage.specs.Passes.{IsOf};
ghost use Rattle.dc_hands.specs.Holding.{Commits};
ghost use Rattle.dc_hands.specs.Machines.{IsOpened, number_of, state_after};

use dc_base::entries::Entry;
use dc_kernel::Driver;
use dc_scene::{Machine, history_is_of_the_machine};
use dc_stage::{Pass, Stage, Ticket};

/// Adds an entry of the pass's actor, which holds all objects that the entry touches, and tells its place.
pub fn commit<D: Driver>(
    stage: &Stage<Machine<D>>,
    pass: &mut Pass<Machine<D>>,
    entry: &Entry,
) -> Ticket
    requires opened { IsOpened stage.now }
    requires stage { IsOf pass.old stage.now }
    requires room { length (own pass.old.actor pass.old.seen) < 2 ^ 56 }
    requires actor { actor_number stage.now.scene.settings entry.now.actor ≡ pass.old.actor }
    requires lawful { IsLawful (state_after stage.now pass.old.seen) entry.now }
    requires held { (n : Name) → Listed n (touched (state_after stage.now pass.old.seen) entry.now) → has (number_of stage.now n) pass.old.holds ≡ true }
    ensures { Commits stage.now pass.old pass.new entry.now result.0 }
{
    history_is_of_the_machine::<D>();
    stage.commit(pass, entry)
}
