//! First laws of the definitions. Each is the contract of a function that does nothing.
#![tactic(auto)]

ghost use Rattle.std.specs.Prelude.{◌≡◌, ◌↔◌, List, ◌++◌, Some, None, IsTrue, ℕ};
ghost use Rattle.dc_base.specs.declared.images.Image.{Image};
ghost use Rattle.dc_base.specs.declared.instructions.Instr.{Instr};
ghost use Rattle.dc_base.specs.declared.commands.ScriptLine.{ScriptLine};
ghost use Rattle.dc_base.specs.declared.entries.Entry.{Entry};
ghost use Rattle.dc_base.specs.Words.{Each};
ghost use Rattle.dc_base.specs.Capabilities.{Seat, seat_at, after_revoke};
ghost use Rattle.dc_base.specs.Descent.{Descends, ReachesDescent};
ghost use Rattle.dc_base.specs.ControlBlocks.{ControlBlock};
ghost use Rattle.dc_base.specs.KeptByBlocks.{HasCaps};
ghost use Rattle.dc_base.specs.declared.entries.Reason.TheVariants as reason;
ghost use Rattle.dc_base.specs.declared.actions.Actor.TheVariants as actor;
ghost use Rattle.dc_base.specs.declared.actions.Action.TheVariants as action;
ghost use Rattle.dc_base.specs.Instructions.{decode, encode, is_proper};
ghost use Rattle.dc_base.specs.BlockSteps.{blocks_run};
ghost use Rattle.dc_base.specs.StrikeOut.{struck};
ghost use Rattle.dc_base.specs.Runs.{Seen, run, run_of, first_bad};
ghost use Rattle.dc_base.specs.States.{State};
ghost use Rattle.dc_base.specs.Turns.{not_enabled};
ghost use Rattle.dc_base.specs.Cores.{core_step};
ghost use Rattle.dc_base.specs.PlayText.{IsAnswered};
ghost use Rattle.dc_laws.specs.FirstBad.{IsFirstBad};

/// An instruction with proper fields is that of its word.
pub fn words_are_decoded()
    ensures { (i : Instr) → IsTrue (is_proper i) → decode (encode i) ≡ Some i }
{}

/// A word that has an instruction is the word of that instruction, whose fields are proper.
pub fn instructions_are_encoded()
    ensures word { (w : ℕ) (i : Instr) → decode w ≡ Some i → encode i ≡ w }
    ensures proper { (w : ℕ) (i : Instr) → decode w ≡ Some i → IsTrue (is_proper i) }
{}

/// Each prefix of a run is a run.
pub fn prefixes_are_runs()
    ensures { (image : Image) (script : List ScriptLine) (journal more : List Entry) → IsTrue (run_of image script (journal ++ more)) →
        IsTrue (run_of image script journal) }
{}

/// The events of a run, with cores, kernels and handovers struck out, lead the machine of blocks from the image to the state that the run comes to.
pub fn runs_are_struck_out()
    ensures { (image : Image) (script : List ScriptLine) (journal : List Entry) (seen : Seen) → run image script journal ≡ Some seen →
        blocks_run image (struck image journal) ≡ Some seen.blocks }
{}

/// A journal is a run exactly where it has no first bad entry, and the first bad entry is the one with which it stops being a run.
pub fn first_bad_is_named()
    ensures none { (image : Image) (script : List ScriptLine) (journal : List Entry) →
        (first_bad image script journal ≡ None) ↔ IsTrue (run_of image script journal) }
    ensures some { (image : Image) (script : List ScriptLine) (journal : List Entry) (ticket : ℕ) → first_bad image script journal ≡ Some ticket →
        IsFirstBad image script journal ticket }
{}

/// Counted steps from parent to parent lead to just the slots from which a slot descends: in any table, from the seat of each slot;
/// and so from each seat of a control block.
pub fn counted_steps_reach_what_is_above()
    ensures seats { (caps : List Seat) (h : Seat) → seat_at caps h.slot ≡ Some h → ReachesDescent caps h }
    ensures blocks { (x : ControlBlock) → HasCaps x → Each x.parts.caps (λ i (h : Seat). ReachesDescent x.parts.caps h) }
{}

/// Where every command is answered and every raise is made, no action of the script makes an entry.
pub fn answered_scripts_rest()
    ensures ended { (s : State) (polls : ℕ) → IsAnswered s → core_step s polls actor.Script action.Script ≡ not_enabled reason.ScriptEnded }
    ensures no_raise { (s : State) (polls : ℕ) → IsAnswered s → core_step s polls actor.Script action.Raise ≡ not_enabled reason.NoRaise }
{}

/// A revoke empties just the slots that descend from the revoked one: each other slot holds what it held, and hangs where it hung.
pub fn a_revoke_empties_what_descends()
    ensures emptied { (x : ControlBlock) → HasCaps x → (s y : ℕ) → Descends x.parts.caps y s → seat_at (after_revoke s x.parts.caps) y ≡ None }
    ensures kept { (x : ControlBlock) → HasCaps x → (s y : ℕ) → ¬ Descends x.parts.caps y s →
        seat_at (after_revoke s x.parts.caps) y ≡ seat_at x.parts.caps y }
{}
