//! What an image gives a block, in the form that a kernel keeps.

ghost use Rattle.std.specs.Prelude.{◌≡◌, ◌≤◌, [], None, IfOk, length, map, replicate};
ghost use Rattle.dc_base.specs.declared.images.DispImage.{DispImage};
ghost use Rattle.dc_base.specs.Parts.{whole_memory};
ghost use Rattle.dc_ready.specs.Entries.{entries_of};
ghost use Rattle.dc_kcb.specs.Starts.{disp_of, dues_from};

use arrayvec::ArrayVec;
use dc_base::images::DispImage;
use dc_base::limits::MEMORY_WORDS;
use dc_base::numbers::DispNo;
use dc_isa::{DispState, Dispatcher};
use dc_ports::{Port, Signal};
use std::alloc::{AllocError, Global};

/// These words, and 0 up to 4,096 words.
pub(crate) fn whole_memory(alloc: Global, words: &[u32]) -> Result<Vec<u32>, AllocError>
    requires { length words.now ≤ 4096 }
    ensures { IfOk result (λ v. v.items ≡ whole_memory words.now) }
{
    let mut memory = Vec::with_capacity(alloc, MEMORY_WORDS)?;
    memory.extend_from_slice(words)?;
    memory.resize(MEMORY_WORDS, 0)?;
    Ok(memory)
}

/// A copy of the code of a dispatcher.
fn code_of(alloc: Global, disp: &DispImage) -> Result<Vec<u32>, AllocError>
    ensures { IfOk result (λ v. v.items ≡ disp.now.code) }
{
    Ok(disp.code.as_slice().to_vec(alloc)?)
}

/// The code of each dispatcher.
pub(crate) fn codes(alloc: Global, disps: &[DispImage]) -> Result<Vec<Vec<u32>>, AllocError>
    ensures { IfOk result (λ codes. map (λ v. v.items) codes.items ≡ map (λ (i : DispImage). i.code) disps.now) }
{
    let mut codes = Vec::new(alloc);
    for disp in disps {
        let code = code_of(alloc, disp)?;
        codes.push(code)?;
    }
    Ok(codes)
}

/// The dispatchers, each ready at the first place with registers of 0.
pub(crate) fn dispatchers(disps: &[DispImage]) -> ArrayVec<Dispatcher, 16>
    requires { length disps.now ≤ 16 }
    ensures { result.items ≡ map disp_of disps.now }
{
    let mut all = ArrayVec::new();
    for disp in disps {
        all.push(Dispatcher {
            regs: [0; 8],
            place: 0,
            state: DispState::Ready,
            due: u64::from(disp.due),
            period: disp.period,
        });
    }
    all
}

/// All dispatchers by ascending number, with their dues.
pub(crate) fn all_ready(disps: &[DispImage]) -> ArrayVec<(DispNo, u64), 16>
    requires { length disps.now ≤ 16 }
    ensures { entries_of result.items ≡ dues_from 0 disps.now }
{
    let mut ready = ArrayVec::new();
    for (d, disp) in disps.iter().enumerate() {
        ready.push((DispNo(d as u32), u64::from(disp.due)));
    }
    ready
}

/// So many ports without messages.
pub(crate) fn empty_ports(n: u32) -> ArrayVec<Port, 16>
    requires { n ≤ 16 }
    ensures { result.items ≡ replicate n [] }
{
    let mut ports = ArrayVec::new();
    for _ in 0..n {
        ports.push(Port::empty());
    }
    ports
}

/// So many signals without a latch.
pub(crate) fn empty_signals(n: u32) -> ArrayVec<Signal, 16>
    requires { n ≤ 16 }
    ensures { result.items ≡ replicate n None }
{
    let mut signals = ArrayVec::new();
    for _ in 0..n {
        signals.push(Signal::empty());
    }
    signals
}
