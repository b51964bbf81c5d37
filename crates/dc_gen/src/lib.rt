//! The generated input: a fixed image and script, and the schedule of each number.
#![tactic(auto)]

ghost use Rattle.std.specs.Prelude.{◌≡◌, ◌≤◌, IfOk};
ghost use Rattle.dc_base.specs.Generated as spec;
ghost use Rattle.dc_base.specs.States.{settings_of};
ghost use Rattle.dc_base.specs.Valid.{IsValid, IsValidScript, IsValidSchedule};

mod codes;
mod images;
mod schedules;
mod scripts;

use dc_base::images::Image;
use dc_base::memory::Memory;
pub use dc_script::Schedule;
use images::generate_image;
use schedules::generate_schedule;
pub use scripts::Script;
use scripts::generate_script;
use std::alloc::Global;

/// The input of number `n`: the image and the script, which are the same for all, and the schedule.
pub fn generate(alloc: Global, n: u32) -> Result<(Image, Script, Schedule), Memory>
    requires { n ≤ 65535 }
    ensures image { IfOk result (λ input. input.0 ≡ spec.generated_image) }
    ensures script { IfOk result (λ input. input.1 ≡ spec.generated_script) }
    ensures schedule { IfOk result (λ input. input.2 ≡ spec.generated_schedule n) }
    ensures valid_image { IfOk result (λ input. IsValid input.0) }
    ensures valid_script { IfOk result (λ input. IsValidScript (settings_of input.0) input.1) }
    ensures valid_schedule { IfOk result (λ input. IsValidSchedule (settings_of input.0) input.2) }
{
    Ok((
        generate_image(alloc)?,
        generate_script(alloc)?,
        generate_schedule(alloc, n)?,
    ))
}
