//! Laws of the machine with cores: each action keeps each part of soundness, and so each run keeps soundness.
#![tactic(auto)]

ghost use Rattle.std.specs.Prelude.{◌≡◌, ℕ, List};
ghost use Rattle.dc_base.specs.declared.actions.Actor.{Actor};
ghost use Rattle.dc_base.specs.declared.actions.Action.{Action};
ghost use Rattle.dc_base.specs.declared.entries.Entry.{Entry};
ghost use Rattle.dc_base.specs.declared.images.Image.{Image};
ghost use Rattle.dc_base.specs.declared.commands.ScriptLine.{ScriptLine};
ghost use Rattle.dc_base.specs.States.{State, settings_of, core_start};
ghost use Rattle.dc_base.specs.Valid.{IsValid, IsValidScript};
ghost use Rattle.dc_base.specs.Changes.{Change, apply};
ghost use Rattle.dc_base.specs.Turns.{did};
ghost use Rattle.dc_base.specs.Cores.{core_step};
ghost use Rattle.dc_base.specs.Placed.{IsPlaced, AreShares};
ghost use Rattle.dc_base.specs.Progress.{MailboxesFollow, PostsFit, IsRegistered};
ghost use Rattle.dc_base.specs.ScriptForm.{IsInForm};
ghost use Rattle.dc_base.specs.KeptByBlocks.{AllReady, AllDispatchers, AllWords, AllShapes, AllPorts, AllTimers, AllCaps};
ghost use Rattle.dc_base.specs.KeptOutside.{KeepsCounts, KeepsRings, KeepsConsoles, KeepsLines};
ghost use Rattle.dc_base.specs.Bounded.{IsClocked, DeadlinesWithin, IsSettled, NumbersWithin, DuesWithin, IsCounted};
ghost use Rattle.dc_base.specs.Named.{IsNamed, WaitersStand};
ghost use Rattle.dc_base.specs.Histories.{IsLawful, next};
ghost use Rattle.dc_base.specs.Sound.{IsSound};
ghost use Rattle.dc_base.specs.CoreRuns.{core_run_from};

/// A block is on a core exactly where that core's share lists it.
pub fn placed_stays()
    ensures { (s : State) (polls : ℕ) (who : Actor) (a : Action) (changes : List Change) (e : Entry) → core_step s polls who a ≡ did changes e → IsPlaced s →
        PostsFit s → IsPlaced (apply s changes) }
{}

/// A share lists each block at most once, at most one of them home and at most eight parked.
pub fn shares_stay()
    ensures { (s : State) (polls : ℕ) (who : Actor) (a : Action) (changes : List Change) (e : Entry) → core_step s polls who a ≡ did changes e → AreShares s →
        IsPlaced s → PostsFit s → AreShares (apply s changes) }
{}

/// A mailbox is not empty exactly where the last post of the command in progress was made to it.
pub fn mailboxes_follow()
    ensures { (s : State) (polls : ℕ) (who : Actor) (a : Action) (changes : List Change) (e : Entry) → core_step s polls who a ≡ did changes e →
        MailboxesFollow s → IsInForm s → MailboxesFollow (apply s changes) }
{}

/// A posted order goes on to fit: for start the core is off, for all others on; a block to be released is in the share, one to be adopted is at rest and
/// finds room.
pub fn posts_fit_on()
    ensures { (s : State) (polls : ℕ) (who : Actor) (a : Action) (changes : List Change) (e : Entry) → core_step s polls who a ≡ did changes e → PostsFit s →
        IsPlaced s → MailboxesFollow s → IsInForm s → IsRegistered s → IsSettled s → PostsFit (apply s changes) }
{}

/// The registry is the boot state, or that before the orders of the command in progress, which has no refusal there.
pub fn registry_follows()
    ensures { (s : State) (polls : ℕ) (who : Actor) (a : Action) (changes : List Change) (e : Entry) → core_step s polls who a ≡ did changes e →
        IsRegistered s → IsPlaced s → AreShares s → MailboxesFollow s → PostsFit s → IsInForm s → IsSettled s → IsRegistered (apply s changes) }
{}

/// The script's progress stays in form: its place, its raises and posts, and the order of raises and commands.
pub fn progress_stays()
    ensures { (s : State) (polls : ℕ) (who : Actor) (a : Action) (changes : List Change) (e : Entry) → core_step s polls who a ≡ did changes e → IsInForm s →
        IsInForm (apply s changes) }
{}

/// What blocks and lines name exists.
pub fn names_stay()
    ensures { (s : State) (polls : ℕ) (who : Actor) (a : Action) (changes : List Change) (e : Entry) → core_step s polls who a ≡ did changes e → IsNamed s →
        IsSettled s → IsNamed (apply s changes) }
{}

/// A dispatcher that waits on a channel stands at a call on a channel.
pub fn waiters_stay()
    ensures { (s : State) (polls : ℕ) (who : Actor) (a : Action) (changes : List Change) (e : Entry) → core_step s polls who a ≡ did changes e →
        WaitersStand s → AllReady s → WaitersStand (apply s changes) }
{}

/// The lists of each block have the lengths that belong together.
pub fn shapes_stay()
    ensures { (s : State) (polls : ℕ) (who : Actor) (a : Action) (changes : List Change) (e : Entry) → core_step s polls who a ≡ did changes e → AllShapes s →
        AllShapes (apply s changes) }
{}

/// Each dispatcher is within the limits.
pub fn dispatchers_stay()
    ensures { (s : State) (polls : ℕ) (who : Actor) (a : Action) (changes : List Change) (e : Entry) → core_step s polls who a ≡ did changes e →
        AllDispatchers s → AllDispatchers (apply s changes) }
{}

/// Each word of a block has 32 bits.
pub fn words_stay()
    ensures { (s : State) (polls : ℕ) (who : Actor) (a : Action) (changes : List Change) (e : Entry) → core_step s polls who a ≡ did changes e → AllWords s →
        AllShapes s → IsNamed s → KeepsRings s → KeepsLines s → IsCounted s → IsInForm s → IsSettled s → AllWords (apply s changes) }
{}

/// No port has more than 8 messages.
pub fn ports_stay()
    ensures { (s : State) (polls : ℕ) (who : Actor) (a : Action) (changes : List Change) (e : Entry) → core_step s polls who a ≡ did changes e → AllPorts s →
        AllPorts (apply s changes) }
{}

/// Each ready dispatcher stands in its block's ready list once, and no other.
pub fn ready_lists_stay()
    ensures { (s : State) (polls : ℕ) (who : Actor) (a : Action) (changes : List Change) (e : Entry) → core_step s polls who a ≡ did changes e → AllReady s →
        AllReady (apply s changes) }
{}

/// The numbers of armed timers ascend below the next, and there are at most 64.
pub fn timers_stay()
    ensures { (s : State) (polls : ℕ) (who : Actor) (a : Action) (changes : List Change) (e : Entry) → core_step s polls who a ≡ did changes e → AllTimers s →
        AllTimers (apply s changes) }
{}

/// The slots of a block ascend, each belongs to a dispatcher and has a used parent, and going from parent to parent ends at a root.
pub fn caps_stay()
    ensures { (s : State) (polls : ℕ) (who : Actor) (a : Action) (changes : List Change) (e : Entry) → core_step s polls who a ≡ did changes e → AllCaps s →
        AllShapes s → KeepsLines s → AllCaps (apply s changes) }
{}

/// A channel has as many messages sent as taken and untaken, within its capacity.
pub fn rings_stay()
    ensures { (s : State) (polls : ℕ) (who : Actor) (a : Action) (changes : List Change) (e : Entry) → core_step s polls who a ≡ did changes e →
        KeepsRings s → AllWords s → AllShapes s → IsNamed s → KeepsLines s → IsCounted s → IsInForm s → IsSettled s → KeepsRings (apply s changes) }
{}

/// A console has at most 65,536 words, each of 32 bits.
pub fn consoles_stay()
    ensures { (s : State) (polls : ℕ) (who : Actor) (a : Action) (changes : List Change) (e : Entry) → core_step s polls who a ≡ did changes e →
        KeepsConsoles s → AllWords s → AllShapes s → IsNamed s → KeepsRings s → KeepsLines s → IsCounted s → IsInForm s → IsSettled s →
        KeepsConsoles (apply s changes) }
{}

/// The counts of a line add up.
pub fn counts_add_up()
    ensures { (s : State) (polls : ℕ) (who : Actor) (a : Action) (changes : List Change) (e : Entry) → core_step s polls who a ≡ did changes e →
        KeepsCounts s → KeepsCounts (apply s changes) }
{}

/// All capabilities of a line stand in one block at most, and in none while the line is offered.
pub fn lines_stay()
    ensures { (s : State) (polls : ℕ) (who : Actor) (a : Action) (changes : List Change) (e : Entry) → core_step s polls who a ≡ did changes e →
        KeepsLines s → AllShapes s → AllCaps s → KeepsLines (apply s changes) }
{}

/// Every clock and every block's time is at least 0 and below its bound.
pub fn clocks_stay_bounded()
    ensures { (s : State) (polls : ℕ) (who : Actor) (a : Action) (changes : List Change) (e : Entry) → core_step s polls who a ≡ did changes e → IsClocked s →
        DeadlinesWithin s → IsPlaced s → PostsFit s → IsSettled s → IsClocked (apply s changes) }
{}

/// Every due stays within its bound; a slice adds a period to one.
pub fn dues_stay_bounded()
    ensures { (s : State) (polls : ℕ) (who : Actor) (a : Action) (changes : List Change) (e : Entry) → core_step s polls who a ≡ did changes e →
        DuesWithin s → AllDispatchers s → DuesWithin (apply s changes) }
{}

/// Every deadline stays near its block's time.
pub fn deadlines_stay_near()
    ensures { (s : State) (polls : ℕ) (who : Actor) (a : Action) (changes : List Change) (e : Entry) → core_step s polls who a ≡ did changes e →
        DeadlinesWithin s → AllWords s → IsClocked s → IsPlaced s → PostsFit s → IsSettled s → DeadlinesWithin (apply s changes) }
{}

/// The numbers of timers stay within their bound.
pub fn timer_numbers_stay_bounded()
    ensures { (s : State) (polls : ℕ) (who : Actor) (a : Action) (changes : List Change) (e : Entry) → core_step s polls who a ≡ did changes e →
        NumbersWithin s → NumbersWithin (apply s changes) }
{}

/// Used budgets, sent messages, raises and given latches stay within their counts.
pub fn counts_stay_within()
    ensures { (s : State) (polls : ℕ) (who : Actor) (a : Action) (changes : List Change) (e : Entry) → core_step s polls who a ≡ did changes e → IsCounted s →
        IsCounted (apply s changes) }
{}

/// What never changes does not change.
pub fn settings_stay()
    ensures { (s : State) (polls : ℕ) (who : Actor) (a : Action) (changes : List Change) (e : Entry) → core_step s polls who a ≡ did changes e → IsSettled s →
        IsSettled (apply s changes) }
{}

/// Each action keeps soundness.
pub fn sound_keeps()
    ensures { (s : State) (polls : ℕ) (who : Actor) (a : Action) (changes : List Change) (e : Entry) → IsSound s → core_step s polls who a ≡ did changes e →
        IsSound (apply s changes) }
{}

/// A run from a sound state comes to a sound state, after each schedule and so after each part of one.
pub fn runs_stay_sound()
    ensures { (opening : State) (schedule : List (Actor × Action)) → IsSound opening → IsSound (core_run_from opening schedule).state }
{}

/// An entry that the machine makes in a sound state leads to a sound state.
pub fn entries_keep_sound()
    ensures { (s : State) (e : Entry) → IsSound s → IsLawful s e → IsSound (next s e) }
{}

/// The first state of each valid image and script is sound.
pub fn the_start_is_sound()
    ensures { (image : Image) (script : List ScriptLine) → IsValid image → IsValidScript (settings_of image) script → IsSound (core_start image script) }
{}
