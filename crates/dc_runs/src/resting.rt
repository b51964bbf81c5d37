//! Cores that can do nothing.
ghost use Rattle.std.specs.Prelude.{ℕ, ◌<◌, length};
ghost use Rattle.dc_base.specs.declared.actions.Action.{Action};
ghost use Rattle.dc_base.specs.States.{State};
ghost use Rattle.dc_base.specs.PlayText.{AreCoresAtRest};
ghost use Rattle.dc_runs.specs.Tries.{IsInVain, IsTriedOut};

/// A core that tried its step, its order, the intake of each line, and the wake of each dispatcher in its share that waits on a channel, all in vain in one
/// state, can do nothing there. Where each core there is has done so, no core can do anything.
pub fn fruitless_cores_rest()
    ensures core { (s : State) (c : ℕ) → IsTriedOut s c → (a : Action) → IsInVain s c a }
    ensures cores { (s : State) → ((c : ℕ) → c < length s.cores → IsTriedOut s c) → AreCoresAtRest s }
{}
