ghost use Rattle.std.specs.Prelude.{◌≡◌, ◌≤◌, length, count_by};
ghost use Rattle.dc_base.specs.Report.{is_from, is_latch_of, latches_of};
ghost use Rattle.dc_base.specs.Sound.{IsSound};
ghost use Rattle.dc_objects.specs.States.{state_of};

use dc_base::interrupts::{Latch, Source};
use dc_base::numbers::SignalNo;
use dc_kernel::Driver;
use dc_objects::{BlockState, Objects};

/// How many signals hold a latch of line `l`.
pub(crate) fn latches<D: Driver>(objects: &Objects<D>, l: u32) -> u32
    requires { IsSound (state_of objects.now) }
    ensures { result ≡ latches_of l (state_of objects.now).blocks }
{
    let mut latches = 0;
    for block in objects.blocks.as_slice() {
        latches += latches_in(block, l);
    }
    latches
}

/// How many signals of a block hold a latch of line `l`.
fn latches_in<D: Driver>(block: &BlockState<D>, l: u32) -> u32
    ensures { result ≡ count_by (is_latch_of l) block.now.control.parts.signals }
{
    let mut latches = 0;
    for s in 0..block.signals() {
        if is_latch_of(block.signal(SignalNo(s)), l) {
            latches += 1;
        }
    }
    latches
}

/// Whether a signal holds a latch of line `l`.
fn is_latch_of(held: Option<Latch>, l: u32) -> bool
    ensures { result ≡ is_latch_of l held }
{
    match held {
        Some(latch) => is_from(latch.source, l),
        None => false,
    }
}

fn is_from(source: Source, l: u32) -> bool
    ensures { result ≡ is_from l source }
{
    match source {
        Source::Timer => false,
        Source::Line(m) => m.0 == l,
    }
}
