//! What the hand of a core shows of the dispatchers that wait on channels.

ghost use Rattle.std.specs.Prelude.{◌≡◌, ℕ, Some, slice_get};
ghost use Rattle.dc_base.specs.declared.actions.Action.TheVariants as action;
ghost use Rattle.dc_base.specs.KeptByBlocks.{HasShape};
ghost use Rattle.dc_base.specs.States.{Block, Core, Member};
ghost use Rattle.dc_base.specs.Words.{Each};
ghost use Rattle.dc_runs.specs.Tries.{AreWakesInVain, IsInVain};
ghost use Rattle.dc_hands.specs.declared.hands.CoreHand.{CoreHand};
ghost use Rattle.dc_hands.specs.Hands.{EachWaiter, HoldsCore};
ghost use Rattle.dc_hands.specs.Machines.{IsOpened, Passing, Staged, state_after};
ghost use Rattle.dc_hands.specs.Rows.{in_row};

use dc_kernel::Driver;

/// The blocks in a core's hand have their shape. Where the wake of each dispatcher that the hand shows waiting on a channel comes to nothing, so does each
/// wake of a dispatcher of the core's share that waits on a channel, in the state after all that the pass has seen.
pub fn hands_show_their_blocks<D: Driver>()
    ensures shapes { (st : Staged D) (k : Passing D) (h : CoreHand D) → IsOpened st → HoldsCore st k h → (b : ℕ) (x : Block) → in_row h.row b ≡ Some x →
        HasShape x.control }
    ensures wakes { (st : Staged D) (k : Passing D) (h : CoreHand D) → HoldsCore st k h →
        EachWaiter h (λ b d. IsInVain (state_after st k.seen) h.number.0 (action.Wake (record { 0 = b }) (record { 0 = d }))) →
        (y : Core) → slice_get (state_after st k.seen).cores h.number.0 ≡ Some y →
        Each y.share (λ i (m : Member). AreWakesInVain (state_after st k.seen) h.number.0 m.block) }
{}
