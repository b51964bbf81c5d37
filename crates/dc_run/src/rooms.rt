//! The room of the logs is enough.
ghost use Rattle.std.specs.Prelude.{ℕ, ◌<◌, List, length};
ghost use Rattle.dc_base.specs.declared.commands.ScriptLine.{ScriptLine};
ghost use Rattle.dc_base.specs.declared.entries.Entry.{Entry};
ghost use Rattle.dc_base.specs.declared.images.Image.{Image};
ghost use Rattle.dc_base.specs.Histories.{IsLawfulHistory};
ghost use Rattle.dc_base.specs.States.{settings_of, core_start};
ghost use Rattle.dc_base.specs.Valid.{IsValid, IsValidScript};
ghost use Rattle.dc_counts.specs.Made.{made_by};
ghost use Rattle.dc_run.specs.Openings.{room_of_core, room_of_script};

use dc_counts::{cores_make_few_entries, the_script_makes_few_entries};

/// No lawful history of the machine of a valid image and script fills the log of a core, or that of the script.
pub fn logs_have_room()
    ensures cores { (image : Image) (lines : List ScriptLine) (history : List (ℕ × Entry)) (c : ℕ) → IsValid image → IsValidScript (settings_of image) lines →
        IsLawfulHistory (settings_of image) (core_start image lines) history → c < length image.cores → made_by c history < room_of_core (settings_of image) }
    ensures script { (image : Image) (lines : List ScriptLine) (history : List (ℕ × Entry)) → IsValid image → IsValidScript (settings_of image) lines →
        IsLawfulHistory (settings_of image) (core_start image lines) history → made_by (length image.cores) history < room_of_script }
{
    cores_make_few_entries();
    the_script_makes_few_entries();
}
