//! The machine with cores refines the machine of blocks. Each law is the contract of a function that does nothing.
#![tactic(auto)]

ghost use Rattle.std.specs.Prelude.{◌≡◌, ◌+◌, ℕ, List, Some, map, length};
ghost use Rattle.std.specs.List.{range_with_len};
ghost use Rattle.dc_base.specs.declared.images.Image.{Image};
ghost use Rattle.dc_base.specs.declared.actions.Actor.{Actor};
ghost use Rattle.dc_base.specs.declared.actions.Action.{Action};
ghost use Rattle.dc_base.specs.declared.commands.Refusal.{Refusal};
ghost use Rattle.dc_base.specs.declared.commands.ScriptLine.{ScriptLine};
ghost use Rattle.dc_base.specs.declared.entries.Entry.{Entry};
ghost use Rattle.dc_base.specs.declared.entries.What.TheVariants as what;
ghost use Rattle.dc_base.specs.Blocks.{Blocks, blocks_start};
ghost use Rattle.dc_base.specs.States.{State, Settings, core_start};
ghost use Rattle.dc_base.specs.Script.{next_command};
ghost use Rattle.dc_base.specs.Changes.{Change, apply};
ghost use Rattle.dc_base.specs.Turns.{did};
ghost use Rattle.dc_base.specs.Cores.{core_step};
ghost use Rattle.dc_base.specs.CoreRuns.{core_run_from, core_run, own_schedule};
ghost use Rattle.dc_base.specs.Histories.{IsLawfulHistory, after, entries_in, history_of};
ghost use Rattle.dc_base.specs.StandsFor.{StandsFor};
ghost use Rattle.dc_base.specs.Runs.{Terms, terms_of, Seen, seen_start, run_from, run};
ghost use Rattle.dc_base.specs.Report.{report_lines};
ghost use Rattle.dc_base.specs.Shown.{shown, all_shown_by};
ghost use Rattle.dc_base.specs.Origins.{image_origin};
ghost use Rattle.dc_base.specs.Headline.{blocks_reported, holder_of, IsReportedRun};
ghost use Rattle.dc_base.specs.Openings.{IsOpening, blocks_opened, seen_opened, opening_origin, IsReportedRunFrom};
ghost use Rattle.dc_base.specs.Sound.{IsSound};
ghost use Rattle.dc_base.specs.Telling.{Agrees, IsOf, holders_from, terms_at};
ghost use Rattle.dc_base.specs.Valid.{IsValid};
ghost use Rattle.dc_refine.specs.Follows.{Follows};
ghost use Rattle.dc_refine.specs.Kept.{SoundnessStays};

/// Each entry that an action gives in a sound state is a step of a run, from what agrees with the state and stands for it; and what the step comes to agrees
/// with the state after it and stands for it.
pub fn entries_follow()
    ensures { (terms : Terms) (lines : List ScriptLine) (s : State) (t : Blocks) (n : Seen) (polls : ℕ) (who : Actor) (a : Action)
        (changes : List Change) (e : Entry) →
        IsSound s → StandsFor s t → Agrees s n → n.blocks ≡ t → IsOf terms lines s → core_step s polls who a ≡ did changes e →
        Follows terms lines n e (apply s changes) }
{}

/// A refused command moves the place of the script on to the next command, and changes nothing else.
pub fn refused_commands_move_on()
    ensures { (s : State) (polls : ℕ) (who : Actor) (a : Action) (changes : List Change) (e : Entry) (q : ℕ) (r : Refusal) →
        core_step s polls who a ≡ did changes e → e.what ≡ what.Refused q r →
        apply s changes ≡ record s { script = record s.script { place = next_command s.script.lines (s.script.place + 1) } } }
{}

/// The report of a sound state shows the state of blocks that it stands for, and each block once, with the core that it is on.
pub fn reports_show()
    ensures shown { (s : State) (t : Blocks) → IsSound s → StandsFor s t → all_shown_by (report_lines s) ≡ shown t }
    ensures blocks { (s : State) → blocks_reported (report_lines s) ≡
        map (λ b. (b, holder_of (holders_from 0 s.blocks) b)) (range_with_len 0 (length s.blocks)) }
{}

/// The start of an image stands for the start of the blocks, and agrees with what is told before the first entry.
pub fn starts_agree()
    ensures stands { (image : Image) (script : List ScriptLine) → StandsFor (core_start image script) (blocks_start image) }
    ensures agrees { (image : Image) (script : List ScriptLine) → IsValid image → Agrees (core_start image script) (seen_start image script) }
    ensures terms { (image : Image) (script : List ScriptLine) → IsOf (terms_of image) script (core_start image script) }
{}

/// Where soundness is kept, the journal of a schedule's run is a run of the image and the script, and its report shows the last state of that run, each
/// block once with its holder; the last state is sound, stands for the last blocks, and agrees with all that the journal has told.
pub fn runs_are_reported()
    ensures reported { (image : Image) (script : List ScriptLine) (schedule : List (Actor × Action)) → IsValid image →
        IsSound (core_start image script) → SoundnessStays →
        IsReportedRun image script (core_run image script schedule).journal (report_lines (core_run image script schedule).state) }
    ensures stands { (image : Image) (script : List ScriptLine) (schedule : List (Actor × Action)) → IsValid image →
        IsSound (core_start image script) → SoundnessStays →
        (seen : Seen) → run image script (core_run image script schedule).journal ≡ Some seen → StandsFor (core_run image script schedule).state seen.blocks }
    ensures agrees { (image : Image) (script : List ScriptLine) (schedule : List (Actor × Action)) → IsValid image →
        IsSound (core_start image script) → SoundnessStays →
        (seen : Seen) → run image script (core_run image script schedule).journal ≡ Some seen → Agrees (core_run image script schedule).state seen }
    ensures sound { (image : Image) (script : List ScriptLine) (schedule : List (Actor × Action)) → IsValid image →
        IsSound (core_start image script) → SoundnessStays →
        IsSound (core_run image script schedule).state }
{}

/// An opening stands for exactly one state of blocks, and agrees with what is told before the first entry.
pub fn openings_stand()
    ensures stands { (s : State) → IsOpening s → StandsFor s (blocks_opened s) }
    ensures alone { (s : State) (t : Blocks) → IsOpening s → StandsFor s t → t ≡ blocks_opened s }
    ensures agrees { (s : State) → Agrees s (seen_opened s) }
{}

/// The start of an image is an opening, and what a run starts from by the words of the image is what it starts from by this opening.
pub fn starts_are_openings()
    ensures opening { (image : Image) (script : List ScriptLine) → IsValid image → IsSound (core_start image script) → IsOpening (core_start image script) }
    ensures same { (image : Image) (script : List ScriptLine) → IsValid image → IsSound (core_start image script) →
        image_origin image script ≡ opening_origin (core_start image script) }
{}

/// Of each lawful history from a sound state, the run of the schedule that it shows has that journal, and comes to the state after it.
pub fn lawful_histories_are_runs()
    ensures journal { (t : Settings) (s : State) (history : List (ℕ × Entry)) → IsSound s → IsLawfulHistory t s history →
        (core_run_from s (own_schedule s.script.lines (entries_in history))).journal ≡ entries_in history }
    ensures state { (t : Settings) (s : State) (history : List (ℕ × Entry)) → IsSound s → IsLawfulHistory t s history →
        (core_run_from s (own_schedule s.script.lines (entries_in history))).state ≡ after s history }
{}

/// The journal of each run of a schedule is a lawful history, and leads to the last state of the run.
pub fn runs_are_lawful_histories()
    ensures lawful { (t : Settings) (s : State) (schedule : List (Actor × Action)) → IsLawfulHistory t s (history_of t (core_run_from s schedule).journal) }
    ensures state { (t : Settings) (s : State) (schedule : List (Actor × Action)) →
        after s (history_of t (core_run_from s schedule).journal) ≡ (core_run_from s schedule).state }
{}

/// Where soundness is kept, the journal of a schedule's run from an opening and its report are a reported run from there; its last state stands for the last
/// blocks, and agrees with all that the journal has told.
pub fn openings_run()
    ensures reported { (s : State) (schedule : List (Actor × Action)) → IsOpening s → SoundnessStays →
        IsReportedRunFrom s (core_run_from s schedule).journal (report_lines (core_run_from s schedule).state) }
    ensures stands { (s : State) (schedule : List (Actor × Action)) → IsOpening s → SoundnessStays →
        (seen : Seen) → run_from (terms_at s) s.script.lines (seen_opened s) (core_run_from s schedule).journal ≡ Some seen →
        StandsFor (core_run_from s schedule).state seen.blocks }
    ensures shown { (s : State) (schedule : List (Actor × Action)) → IsOpening s → SoundnessStays →
        (seen : Seen) → run_from (terms_at s) s.script.lines (seen_opened s) (core_run_from s schedule).journal ≡ Some seen →
        all_shown_by (report_lines (core_run_from s schedule).state) ≡ shown seen.blocks }
    ensures agrees { (s : State) (schedule : List (Actor × Action)) → IsOpening s → SoundnessStays →
        (seen : Seen) → run_from (terms_at s) s.script.lines (seen_opened s) (core_run_from s schedule).journal ≡ Some seen →
        Agrees (core_run_from s schedule).state seen }
    ensures sound { (s : State) (schedule : List (Actor × Action)) → IsOpening s → SoundnessStays → IsSound (core_run_from s schedule).state }
{}
