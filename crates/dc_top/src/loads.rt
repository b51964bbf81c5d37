//! The files of a play, loaded and read.

ghost use Rattle.std.specs.Prelude.{◌≡◌, ◌≤◌, ◌<◌, IfOk, IfErr, Ok, length};
ghost use Rattle.dc_base.specs.States.{Settings, settings_of};
ghost use Rattle.dc_base.specs.Limits.{longest_file};
ghost use Rattle.dc_base.specs.Valid.{IsValid, IsValidScript, IsValidSchedule};
ghost use Rattle.dc_script.specs.Texts.{AreBounds};
ghost use Rattle.dc_top.specs.Contents.{MayHold, OfFile, OfFiles, OfInputs};
ghost use Rattle.dc_top.specs.Halts.{AreInputs, Halts, HaltsAt, InputHalts, IsReady, MissesAt};
ghost use Rattle.dc_top.specs.Verdict.{image_read, script_read, schedule_read};
ghost use Rattle.dc_top.specs.Verdict as verdict;

use crate::bad_inputs::BadInput;
use crate::halts::Halt;
use crate::inputs::{image_in, schedule_in, script_in};
use dc_base::commands::Bounds;
use dc_base::faults::{ImageFault, TextFault};
use dc_base::images::Image;
use dc_io::{Load, Shelf};
use dc_script::{Schedule, Script};
use std::alloc::Global;

/// Loads a file into an empty vector, and says what a failure is.
fn load<'a, H: Shelf>(
    alloc: Global,
    name: &'a str,
    shelf: &mut H,
    too_long: BadInput,
) -> Result<Vec<u8>, Halt<'a>>
    ensures loaded { IfOk result (λ bytes. MayHold (H.told shelf.old) name.now bytes.items) }
    ensures short { IfOk result (λ bytes. length bytes.items ≤ longest_file) }
    ensures misses { IfErr result (MissesAt (H.told shelf.old) name.now too_long (H.faults shelf.old) (H.faults shelf.new)) }
    ensures kept { H.told shelf.new ≡ H.told shelf.old }
    ensures grows { H.faults shelf.old ≤ H.faults shelf.new }
{
    let mut bytes = Vec::new(alloc);
    match shelf.load(alloc, name, &mut bytes) {
        Ok(()) => Ok(bytes),
        Err(Load::Failed) => Err(Halt::Unread(name)),
        Err(Load::TooLong) => Err(Halt::Refused(too_long)),
        Err(Load::Memory) => Err(Halt::Memory),
    }
}

/// The image of a file.
#[tactic(auto, using(crate::proofs::Loading::image_misses, crate::proofs::Loading::image_refuses, crate::proofs::Loading::image_serves))]
fn load_image<'a, H: Shelf>(alloc: Global, name: &'a str, shelf: &mut H) -> Result<Image, Halt<'a>>
    ensures image { IfOk result (λ image. OfFile (H.told shelf.old) name.now (λ bytes. image_read bytes ≡ Ok image)) }
    ensures valid { IfOk result IsValid }
    ensures halts { IfErr result (HaltsAt (H.told shelf.old) image_read name.now (H.faults shelf.old) (H.faults shelf.new)) }
    ensures kept { H.told shelf.new ≡ H.told shelf.old }
    ensures grows { H.faults shelf.old ≤ H.faults shelf.new }
{
    let too_long = BadInput::Image(ImageFault::TooLong);
    match load(alloc, name, shelf, too_long) {
        Ok(bytes) => image_in(alloc, bytes.as_slice()),
        Err(halt) => Err(halt),
    }
}

/// The script of a file.
#[tactic(auto, using(crate::proofs::Loading::script_misses, crate::proofs::Loading::script_refuses, crate::proofs::Loading::script_serves))]
fn load_script<'a, H: Shelf>(
    alloc: Global,
    name: &'a str,
    bounds: Bounds,
    shelf: &mut H,
) -> Result<Script, Halt<'a>>
    ensures script { IfOk result (λ script. OfFile (H.told shelf.old) name.now (λ bytes. script_read bounds bytes ≡ Ok script)) }
    ensures valid { IfOk result (λ script. (t : Settings) → AreBounds bounds t → IsValidScript t script) }
    ensures halts { IfErr result (HaltsAt (H.told shelf.old) (script_read bounds) name.now (H.faults shelf.old) (H.faults shelf.new)) }
    ensures kept { H.told shelf.new ≡ H.told shelf.old }
    ensures grows { H.faults shelf.old ≤ H.faults shelf.new }
{
    let too_long = BadInput::Script(TextFault::TooLong);
    match load(alloc, name, shelf, too_long) {
        Ok(bytes) => script_in(alloc, bytes.as_slice(), bounds),
        Err(halt) => Err(halt),
    }
}

/// The schedule of a file.
#[tactic(auto, using(crate::proofs::Loading::schedule_misses, crate::proofs::Loading::schedule_refuses, crate::proofs::Loading::schedule_serves))]
fn load_schedule<'a, H: Shelf>(
    alloc: Global,
    name: &'a str,
    bounds: Bounds,
    shelf: &mut H,
) -> Result<Schedule, Halt<'a>>
    ensures schedule { IfOk result (λ schedule. OfFile (H.told shelf.old) name.now (λ bytes. schedule_read bounds bytes ≡ Ok schedule)) }
    ensures valid { IfOk result (λ schedule. (t : Settings) → AreBounds bounds t → IsValidSchedule t schedule) }
    ensures halts { IfErr result (HaltsAt (H.told shelf.old) (schedule_read bounds) name.now (H.faults shelf.old) (H.faults shelf.new)) }
    ensures kept { H.told shelf.new ≡ H.told shelf.old }
    ensures grows { H.faults shelf.old ≤ H.faults shelf.new }
{
    let too_long = BadInput::Schedule(TextFault::TooLong);
    match load(alloc, name, shelf, too_long) {
        Ok(bytes) => schedule_in(alloc, bytes.as_slice(), bounds),
        Err(halt) => Err(halt),
    }
}

/// What the scripts and schedules of an image may name.
fn bounds_of(image: &Image) -> Bounds
    requires { IsValid image.now }
    ensures { result ≡ verdict.bounds_of image.now }
{
    Bounds {
        cores: image.cores.len() as u32,
        blocks: image.blocks.len() as u32,
        lines: image.lines,
    }
}

/// The image and the script of two files, the script within what the image has.
#[tactic(auto, using(crate::proofs::LoadingInputs::image_stops))]
pub fn load_inputs<'a, H: Shelf>(
    alloc: Global,
    image: &'a str,
    script: &'a str,
    shelf: &mut H,
) -> Result<(Image, Script), Halt<'a>>
    ensures ready { IfOk result (λ r. OfInputs (H.told shelf.old) image.now script.now (λ i s. AreInputs i s r.0 r.1)) }
    ensures valid_image { IfOk result (λ r. IsValid r.0) }
    ensures valid_script { IfOk result (λ r. IsValidScript (settings_of r.0) r.1) }
    ensures halts { IfErr result (InputHalts (H.told shelf.old) image.now script.now (H.faults shelf.old) (H.faults shelf.new)) }
    ensures grows { H.faults shelf.old ≤ H.faults shelf.new }
{
    let machine = match load_image(alloc, image, shelf) {
        Ok(machine) => machine,
        Err(halt) => return Err(halt),
    };
    let bounds = bounds_of(&machine);
    match load_script(alloc, script, bounds, shelf) {
        Ok(lines) => Ok((machine, lines)),
        Err(halt) => Err(halt),
    }
}

/// The image, the script and the schedule of three files, each within what the one before it has.
#[tactic(auto, using(crate::proofs::Loading::image_halts))]
pub fn load_play<'a, H: Shelf>(
    alloc: Global,
    image: &'a str,
    script: &'a str,
    schedule: &'a str,
    shelf: &mut H,
) -> Result<(Image, Script, Schedule), Halt<'a>>
    ensures ready { IfOk result (λ r. OfFiles (H.told shelf.old) image.now script.now schedule.now
        (λ bytes. IsReady bytes.image bytes.script bytes.schedule r.0 r.1 r.2)) }
    ensures valid_image { IfOk result (λ r. IsValid r.0) }
    ensures valid_script { IfOk result (λ r. IsValidScript (settings_of r.0) r.1) }
    ensures valid_schedule { IfOk result (λ r. IsValidSchedule (settings_of r.0) r.2) }
    ensures halts { IfErr result (Halts (H.told shelf.old) image.now script.now schedule.now (H.faults shelf.old) (H.faults shelf.new)) }
    ensures grows { H.faults shelf.old ≤ H.faults shelf.new }
{
    let machine = match load_image(alloc, image, shelf) {
        Ok(machine) => machine,
        Err(halt) => return Err(halt),
    };
    let bounds = bounds_of(&machine);
    let lines = match load_script(alloc, script, bounds, shelf) {
        Ok(lines) => lines,
        Err(halt) => return Err(halt),
    };
    let actions = match load_schedule(alloc, schedule, bounds, shelf) {
        Ok(actions) => actions,
        Err(halt) => return Err(halt),
    };
    Ok((machine, lines, actions))
}
