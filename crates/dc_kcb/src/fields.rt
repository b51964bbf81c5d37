//! What is read of the fields of a block, under a kernel or at rest.

ghost use Rattle.std.specs.Prelude.{◌≡◌, ℕ, map, slice_get};
ghost use Rattle.std.specs.Option.{option_copied};
ghost use Rattle.dc_base.specs.Ports.{latch_at};
ghost use Rattle.dc_kcb.specs.Controls.{Store, Agenda, control_of};
ghost use Rattle.dc_kcb.specs.Readings.{disp_at};

use arrayvec::ArrayVec;
use dc_base::interrupts::Latch;
use dc_base::numbers::{DispNo, PortNo, SignalNo};
use dc_isa::Dispatcher;
use dc_ports::{Port, Signal};

/// The dispatcher that is read of a control block is the one that its fields have at that number.
pub fn dispatchers_are_read()
    ensures { (s : Store) (a : Agenda) (d : ℕ) → disp_at (control_of s a) d ≡ slice_get a.disps d }
{}

/// The dispatcher of this number.
pub fn disp_in(disps: &ArrayVec<Dispatcher, 16>, d: DispNo) -> Option<Dispatcher>
    ensures { result ≡ slice_get disps.now.items d.0 }
{
    disps.get(d.0 as usize).copied()
}

/// The code of the dispatcher of this number.
pub fn code_in(code: &[Vec<u32>], d: DispNo) -> Option<&[u32]>
    ensures { option_copied result ≡ slice_get (map (λ v. v.items) code.now) d.0 }
{
    match code.get(d.0 as usize) {
        Some(code) => Some(code.as_slice()),
        None => None,
    }
}

/// The port of this number.
pub fn port_in(ports: &ArrayVec<Port, 16>, p: PortNo) -> Option<&Port>
    ensures { option_copied result ≡ slice_get ports.now.items p.0 }
{
    ports.get(p.0 as usize)
}

/// What the signal of this number holds. None where it holds no latch, and where there is none of this number.
pub fn latch_in(signals: &ArrayVec<Signal, 16>, s: SignalNo) -> Option<Latch>
    ensures { result ≡ latch_at signals.now.items s.0 }
{
    match signals.get(s.0 as usize) {
        Some(signal) => signal.look(),
        None => None,
    }
}
