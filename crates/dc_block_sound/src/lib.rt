//! Laws of one control block, whatever stands beside it: what it keeps by itself, each change of it keeps.
#![tactic(auto)]

ghost use Rattle.std.specs.Prelude.{◌≡◌, ℕ, ◌<◌, List, ◌∷◌, ◌++◌, true, false, Some, slice_get, length};
ghost use Rattle.dc_base.specs.declared.dispatchers.DispState.TheVariants as disp;
ghost use Rattle.dc_base.specs.declared.dispatchers.Wait.{Wait};
ghost use Rattle.dc_base.specs.declared.images.BlockImage.{BlockImage};
ghost use Rattle.dc_base.specs.declared.images.Image.{Image};
ghost use Rattle.dc_base.specs.declared.interrupts.Latch.{Latch};
ghost use Rattle.dc_base.specs.declared.kernels.Version.{Version};
ghost use Rattle.dc_base.specs.Words.{lists, without};
ghost use Rattle.dc_base.specs.Ahead.{ahead};
ghost use Rattle.dc_base.specs.ControlBlocks.{ControlBlock, control_start};
ghost use Rattle.dc_base.specs.Effects.{Context};
ghost use Rattle.dc_base.specs.Firing.{fire_all, latch_in};
ghost use Rattle.dc_base.specs.KeptByBlocks.{HasReady};
ghost use Rattle.dc_base.specs.Policies.{pick};
ghost use Rattle.dc_base.specs.Serving.{Outside};
ghost use Rattle.dc_base.specs.Slices.{Halfway, halfway, need_of, slice_end, with_ahead, without_ready};
ghost use Rattle.dc_base.specs.Valid.{IsValidBlock};
ghost use Rattle.dc_base.specs.Wakes.{ready_again};
ghost use Rattle.dc_block_sound.specs.SoundControls.{IsSoundControl, IsSoundBesideReady, Suits};

/// Firing all due timers keeps a control block sound.
pub fn firing_keeps_controls()
    ensures { (time : ℕ) (x : ControlBlock) → IsSoundControl x → IsSoundControl (fire_all time x).control }
{}

/// A latch that comes to a signal keeps a control block sound.
pub fn latching_keeps_controls()
    ensures { (s : ℕ) (l : Latch) (x : ControlBlock) → IsSoundControl x → IsSoundControl (latch_in s l x) }
{}

/// A waiting dispatcher that is ready again keeps a control block sound.
pub fn waking_keeps_controls()
    ensures { (d : ℕ) (w : Wait) (x : ControlBlock) → slice_get x.states d ≡ Some (disp.Waits w) → IsSoundControl x → IsSoundControl (ready_again d x) }
{}

/// A whole slice of the dispatcher that is picked keeps a control block sound, whatever object its call finds.
pub fn slices_keep_controls()
    ensures { (time quantum c n : ℕ) (v : Version) (d : ℕ) (x : ControlBlock) (h : Halfway) (out : Outside) → IsSoundControl x →
        pick v (fire_all time x).control.dues (fire_all time x).control.ready ≡ Some d →
        halfway quantum time (without_ready d (fire_all time x).control) d ≡ Some h → Suits (need_of h) out →
        IsSoundControl (slice_end c n v d h out).control }
{}

/// The plain part of a slice of the dispatcher that is picked keeps the rest of a control block sound.
pub fn aheads_keep_controls()
    ensures { (time quantum : ℕ) (v : Version) (d : ℕ) (x : ControlBlock) (code : List ℕ) (c : Context) → IsSoundControl x →
        pick v (fire_all time x).control.dues (fire_all time x).control.ready ≡ Some d → slice_get (fire_all time x).control.parts.code d ≡ Some code →
        slice_get (fire_all time x).control.parts.contexts d ≡ Some c →
        IsSoundBesideReady (with_ahead (without_ready d (fire_all time x).control) d (ahead time code quantum c (fire_all time x).control.parts.memory)) }
{}

/// The first control block of each valid block is sound.
pub fn started_controls_are_sound()
    ensures { (image : Image) (b : ℕ) (x : BlockImage) → IsValidBlock image b x → IsSoundControl (control_start x) }
{}

/// The dispatcher that is picked is one of the block, and is ready.
pub fn picked_is_ready()
    ensures { (v : Version) (d : ℕ) (x : ControlBlock) → IsSoundControl x → pick v x.dues x.ready ≡ Some d →
        (slice_get x.states d ≡ Some disp.Ready) × (d < length x.states) }
{}

/// The ready list has exactly the ready dispatchers, each once, and none of one that is taken out.
pub fn ready_stand_once()
    ensures listed { (x : ControlBlock) → HasReady x → (d : ℕ) → lists x.ready d ≡ true → slice_get x.states d ≡ Some disp.Ready }
    ensures all { (x : ControlBlock) → HasReady x → (d : ℕ) → slice_get x.states d ≡ Some disp.Ready → lists x.ready d ≡ true }
    ensures once { (x : ControlBlock) → HasReady x → (d : ℕ) (before after : List ℕ) → x.ready ≡ before ++ d ∷ after → lists (before ++ after) d ≡ false }
    ensures taken { (x : ControlBlock) → HasReady x → (d : ℕ) → lists (without d x.ready) d ≡ false }
{}
