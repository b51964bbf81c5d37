//! What the bytes of the three files are.
#![tactic(auto, unfolding(crate::specs::Verdict::image_read, crate::specs::Verdict::script_read, crate::specs::Verdict::schedule_read))]

ghost use Rattle.std.specs.Prelude.{◌≡◌, IfOk, IfErr, Ok};
ghost use Rattle.dc_base.specs.States.{Settings};
ghost use Rattle.dc_base.specs.Valid.{IsValid, IsValidScript, IsValidSchedule};
ghost use Rattle.dc_script.specs.Texts.{AreBounds};
ghost use Rattle.dc_top.specs.Halts.{RefusedBy};
ghost use Rattle.dc_top.specs.Verdict.{image_read, schedule_read, script_read};

use crate::bad_inputs::BadInput;
use crate::halts::Halt;
use dc_base::commands::Bounds;
use dc_base::faults::{ImageFault, TextFault};
use dc_base::images::Image;
use dc_image::read_image;
use dc_script::{Schedule, Script, read_schedule, read_script};
use std::alloc::Global;

/// Reads an image.
pub fn image_in<'a>(alloc: Global, bytes: &[u8]) -> Result<Image, Halt<'a>>
    ensures image { IfOk result (λ image. image_read bytes.now ≡ Ok image) }
    ensures valid { IfOk result IsValid }
    ensures refused { IfErr result (RefusedBy (image_read bytes.now)) }
{
    match read_image(alloc, bytes) {
        Ok(image) => Ok(image),
        Err(ImageFault::Memory) => Err(Halt::Memory),
        Err(fault) => Err(Halt::Refused(BadInput::Image(fault))),
    }
}

/// Reads a script.
pub fn script_in<'a>(alloc: Global, bytes: &[u8], bounds: Bounds) -> Result<Script, Halt<'a>>
    ensures script { IfOk result (λ script. script_read bounds bytes.now ≡ Ok script) }
    ensures valid { IfOk result (λ script. (t : Settings) → AreBounds bounds t → IsValidScript t script) }
    ensures refused { IfErr result (RefusedBy (script_read bounds bytes.now)) }
{
    match read_script(alloc, bytes, bounds) {
        Ok(script) => Ok(script),
        Err(TextFault::Memory) => Err(Halt::Memory),
        Err(fault) => Err(Halt::Refused(BadInput::Script(fault))),
    }
}

/// Reads a schedule.
pub fn schedule_in<'a>(alloc: Global, bytes: &[u8], bounds: Bounds) -> Result<Schedule, Halt<'a>>
    ensures schedule { IfOk result (λ schedule. schedule_read bounds bytes.now ≡ Ok schedule) }
    ensures valid { IfOk result (λ schedule. (t : Settings) → AreBounds bounds t → IsValidSchedule t schedule) }
    ensures refused { IfErr result (RefusedBy (schedule_read bounds bytes.now)) }
{
    match read_schedule(alloc, bytes, bounds) {
        Ok(schedule) => Ok(schedule),
        Err(TextFault::Memory) => Err(Halt::Memory),
        Err(fault) => Err(Halt::Refused(BadInput::Schedule(fault))),
    }
}
