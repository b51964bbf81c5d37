//! What every run says as a whole journal: who holds which block, which cores are on, and how the script is answered. Each law is the contract of a function
//! that does nothing.
#![tactic(auto)]

ghost use Rattle.std.specs.Prelude.{◌↔◌, List, IsTrue};
ghost use Rattle.dc_base.specs.declared.images.Image.{Image};
ghost use Rattle.dc_base.specs.declared.commands.ScriptLine.{ScriptLine};
ghost use Rattle.dc_base.specs.declared.entries.Entry.{Entry};
ghost use Rattle.dc_base.specs.Runs.{run_of};
ghost use Rattle.dc_journal_laws.specs.Entries.{InEachRun};
ghost use Rattle.dc_journal_laws.specs.Clocks.{ReleasedInTime, AdoptedInTime, StartedInTime};
ghost use Rattle.dc_journal_laws.specs.Holding.{HeldOnce, MadeByHolders, AdoptedFree, StopsEnd};
ghost use Rattle.dc_journal_laws.specs.Booting.{MadeByCoresOn, RefusedByTable, PostedInOrder, DoneInFull};
ghost use Rattle.dc_journal_laws.specs.Answering.{MadeByWhoMay, AnsweredByLine, NoneLeftOut, AnsweredOnce, RoutedAsSaid, MetWithEnough, UnmetWithFewer};
ghost use Rattle.dc_journal_laws.specs.CarryingOut.{CarriedOutAsPosted, CarriedOutBefore, CarriedOutOnce, OneAtMost};
ghost use Rattle.dc_journal_laws.specs.Raising.{RaisedAsSaid, RaisedByLine, NoRaiseLeftOut, RaisedAfterCommands, AnsweredAfterRaises};
ghost use Rattle.dc_journal_laws.specs.Whole.{SentencesHold};

/// Each block has at most one holder; what is done to a block is done by its holder, an adopted block had none, and a stop ends the pairs of its core.
pub fn blocks_have_one_holder()
    ensures once { InEachRun HeldOnce }
    ensures holders { InEachRun MadeByHolders }
    ensures adopted { InEachRun AdoptedFree }
    ensures stopped { InEachRun StopsEnd }
{}

/// A block is handed over with its own clock, and a core starts with its own.
pub fn clocks_are_shown()
    ensures released { InEachRun ReleasedInTime }
    ensures adopted { InEachRun AdoptedInTime }
    ensures started { InEachRun StartedInTime }
{}

/// Only cores that are on run blocks.
pub fn cores_are_on()
    ensures { InEachRun MadeByCoresOn }
{}

/// A boot command is refused with the first refusal that applies to the boot state at its first entry, and otherwise posts its orders there, in their order,
/// and is done after the last.
pub fn boot_commands_follow_the_table()
    ensures refused { InEachRun RefusedByTable }
    ensures posted { InEachRun PostedInOrder }
    ensures done { InEachRun DoneInFull }
{}

/// Commands are answered one after another by line number, none is left out, and each has the entries of its kind.
pub fn commands_are_answered_by_line()
    ensures makers { InEachRun MadeByWhoMay }
    ensures by_line { InEachRun AnsweredByLine }
    ensures none_left_out { InEachRun NoneLeftOut }
    ensures once { InEachRun AnsweredOnce }
    ensures routed { InEachRun RoutedAsSaid }
    ensures met { InEachRun MetWithEnough }
    ensures unmet { InEachRun UnmetWithFewer }
{}

/// Each order posted is carried out once, by its core, before the command goes on; no core carries out another.
pub fn orders_are_carried_out()
    ensures as_posted { InEachRun CarriedOutAsPosted }
    ensures before { InEachRun CarriedOutBefore }
    ensures once { InEachRun CarriedOutOnce }
    ensures at_most_once { InEachRun OneAtMost }
{}

/// Raises come by line number, none is left out; a raise comes after the first entry of every command above it, and the first entry of a command after every
/// raise above it.
pub fn raises_come_by_line()
    ensures as_said { InEachRun RaisedAsSaid }
    ensures by_line { InEachRun RaisedByLine }
    ensures none_left_out { InEachRun NoRaiseLeftOut }
    ensures after_commands { InEachRun RaisedAfterCommands }
    ensures before_commands { InEachRun AnsweredAfterRaises }
{}

/// A journal is a run exactly where its events are a run of the machine of blocks, the columns of its entries agree with that machine, and the sentences
/// above hold of it.
pub fn sentences_say_what_runs_are()
    ensures { (image : Image) (script : List ScriptLine) (journal : List Entry) → IsTrue (run_of image script journal) ↔ SentencesHold image script journal }
{}
