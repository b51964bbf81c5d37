//! The cores and places at the start of a machine.

ghost use Rattle.std.specs.Prelude.{◌≡◌, [], ◌<◌, ◌≤◌, length, map};
ghost use Rattle.std.specs.Option.{option_map};
ghost use Rattle.dc_base.specs.Boot.{boot_cores, home_from};
ghost use Rattle.dc_base.specs.declared.images.BlockImage.{BlockImage};
ghost use Rattle.dc_boot.specs.Views.{place_of, home_of};

use crate::kernel::Kernel;
use crate::place::Place;
use arrayvec::ArrayVec;
use dc_base::images::{BlockImage, CoreImage};
use dc_base::numbers::{BlockNo, CoreNo};

pub(crate) fn cores_of(cores: &[CoreImage], blocks: &[BlockImage]) -> ArrayVec<Option<Kernel>, 8>
    requires cores { length cores.now ≤ 8 }
    requires blocks { length blocks.now ≤ 16 }
    ensures { result.items ≡ boot_cores 0 blocks.now cores.now }
{
    let mut started = ArrayVec::new();
    for at in 0..cores.len() {
        started.push(core_of(CoreNo(at as u32), &cores[at], blocks));
    }
    started
}

/// The kernel of a core that is on.
fn core_of(c: CoreNo, core: &CoreImage, blocks: &[BlockImage]) -> Option<Kernel>
    requires blocks { length blocks.now ≤ 16 }
    ensures { result ≡ option_map (λ v. record { version = v; home = home_from c.0 0 blocks.now; parked = [] }) core.now.version }
{
    let version = core.version?;
    Some(Kernel::start(version, home_of(c, blocks)))
}

/// The first block that has its home on this core.
fn home_of(c: CoreNo, blocks: &[BlockImage]) -> Option<BlockNo>
    requires { length blocks.now ≤ 16 }
    ensures { home_of result ≡ home_from c.0 0 blocks.now }
{
    for at in 0..blocks.len() {
        if Place::at(blocks[at].home).is_on(c) {
            return Some(BlockNo(at as u32));
        }
    }
    None
}

pub(crate) fn places_of(blocks: &[BlockImage]) -> ArrayVec<Place, 16>
    requires { length blocks.now ≤ 16 }
    ensures { result.items ≡ map (λ (b : BlockImage). place_of b.home) blocks.now }
{
    let mut places = ArrayVec::new();
    for block in blocks {
        places.push(Place::at(block.home));
    }
    places
}
