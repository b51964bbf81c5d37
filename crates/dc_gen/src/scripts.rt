//! The generated script: each block without a home comes to a core, and each core gets the other version.

ghost use Rattle.std.specs.Prelude.{◌≡◌, ◌++◌, ◌%◌, ◌==◌, if◌then◌else◌, flat_map, map, IfOk, OnOk};
ghost use Rattle.std.specs.List.{range_with_len};
ghost use Rattle.dc_base.specs.Generated as spec;
ghost use Rattle.dc_base.specs.declared.kernels.Version.TheVariants as spec_version;
ghost use Rattle.dc_gen.specs.Scripts.{attaching, replacing};

use dc_base::commands::{Command, ScriptLine};
use dc_base::kernels::Version;
use dc_base::lists::Items;
use dc_base::memory::Memory;
use dc_base::numbers::{BlockNo, CoreNo};
use std::alloc::Global;

/// The lines of a script, in order.
pub type Script = Items<ScriptLine>;

/// For each block from 8 on: the core's block is parked on the next core, and the block is attached in its place.
fn push_attached(script: &mut Script) -> Result<(), Memory>
    ensures { OnOk result (script.new ≡ script.old ++ flat_map attaching (range_with_len 8 8)) }
{
    for core in 0..8 {
        script.push(ScriptLine::Boot(Command::Park(BlockNo(core), CoreNo((core + 1) % 8))))?;
        script.push(ScriptLine::Boot(Command::Attach(BlockNo(core + 8), CoreNo(core))))?;
    }
    Ok(())
}

/// The version that the core does not have at the start.
fn other_version(core: u32) -> Version
    ensures { result ≡ (if core % 2 == 0 then spec_version.Edf else spec_version.Rr) }
{
    if core % 2 == 0 {
        Version::Edf
    } else {
        Version::Rr
    }
}

/// Each core's kernel is replaced by one of the other version.
fn push_replaced(script: &mut Script) -> Result<(), Memory>
    ensures { OnOk result (script.new ≡ script.old ++ map replacing (range_with_len 0 8)) }
{
    for core in 0..8 {
        script.push(ScriptLine::Boot(Command::Replace(CoreNo(core), other_version(core))))?;
    }
    Ok(())
}

/// The script of every generated input.
#[tactic(auto, using(crate::proofs::Numbers::whole_script))]
pub(crate) fn generate_script(alloc: Global) -> Result<Script, Memory>
    ensures { IfOk result (λ script. script ≡ spec.generated_script) }
{
    let mut script = Items::new(alloc);
    push_attached(&mut script)?;
    push_replaced(&mut script)?;
    Ok(script)
}
