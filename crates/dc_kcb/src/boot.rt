ghost use Rattle.std.specs.Prelude.{◌≡◌, IfOk};
ghost use Rattle.dc_base.specs.ControlBlocks.{control_start};
ghost use Rattle.dc_kcb.specs.Starts.{BootsIn, AreFirst};

use crate::kcb::Kcb;
use crate::parts::Parts;
use crate::seating::seated;
use crate::starts::{all_ready, codes, dispatchers, empty_ports, empty_signals, whole_memory};
use arrayvec::ArrayVec;
use dc_base::images::BlockImage;
use dc_base::memory::Memory;
use dc_block_sound::started_controls_are_sound;
use std::alloc::Global;

/// The parts as the image gives them.
fn first_parts(alloc: Global, image: &BlockImage) -> Result<Parts, Memory>
    requires { BootsIn image.now }
    ensures { IfOk result (AreFirst image.now) }
{
    let disps = image.disps.as_slice();
    Ok(Parts {
        memory: whole_memory(alloc, image.memory.as_slice())?,
        code: codes(alloc, disps)?,
        table: seated(disps),
        disps: dispatchers(disps),
        ready: all_ready(disps),
        timers: ArrayVec::new(),
        next_timer: 0,
        ports: empty_ports(image.ports),
        signals: empty_signals(image.signals),
        time: 0,
    })
}

impl Kcb {
    /// The block as the image gives it, with all dispatchers ready, at time 0. All memory that a block has is taken here.
    pub fn boot(alloc: Global, image: &BlockImage) -> Result<Kcb, Memory>
        requires { BootsIn image.now }
        ensures { IfOk result (λ k. k ≡ record { control = control_start image.now; kept = 0 }) }
    {
        started_controls_are_sound();
        let parts = first_parts(alloc, image)?;
        Ok(Kcb::put_together(parts))
    }
}
