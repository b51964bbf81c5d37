//! The generated image: eight cores, and a ring of sixteen blocks, of which eight have a home.

ghost use Rattle.std.specs.Prelude.{◌≡◌, ◌<◌, ◌+◌, [], ◌∷◌, map, IfOk};
ghost use Rattle.std.specs.List.{range_with_len};
ghost use Rattle.dc_base.specs.Generated as spec;
ghost use Rattle.dc_gen.specs.Images.{caps_of, disp_of};

use crate::codes::code_of;
use dc_base::capabilities::{Cap, CapKind};
use dc_base::images::{BlockImage, CapImage, ChanImage, CoreImage, DispImage, Image};
use dc_base::kernels::{Clocks, Version};
use dc_base::lists::Items;
use dc_base::memory::Memory;
use dc_base::numbers::{BlockNo, ChanNo, CoreNo};
use std::alloc::Global;

/// How many cores the image has.
const CORES: u32 = 8;

/// How many blocks the image has, and as many channels.
const BLOCKS: u32 = 16;

/// A capability with all rights.
fn cap_of(slot: u32, kind: CapKind) -> CapImage
    ensures { result ≡ spec.cap_of slot kind }
{
    CapImage {
        slot,
        cap: Cap { kind, rights: 7 },
    }
}

/// A block's capabilities: the sending end to the next block, the receiving end from the one before, and a frame.
fn caps_of(alloc: Global, block: u32) -> Result<Items<CapImage>, Memory>
    requires { block < 16 }
    ensures { IfOk result (λ caps. caps ≡ caps_of block) }
{
    let sending = CapKind::SendEnd(ChanNo(block));
    let receiving = CapKind::RecvEnd(ChanNo((block + 15) % 16));
    let frame = CapKind::Frame {
        first: 0,
        length: 4,
    };
    let caps = [cap_of(0, sending), cap_of(1, receiving), cap_of(2, frame)];
    Ok(Items::from_vec(caps.to_vec(alloc)?))
}

/// The one dispatcher of a block.
fn disps_of(alloc: Global, block: u32) -> Result<Items<DispImage>, Memory>
    requires { block < 16 }
    ensures { IfOk result (λ disps. disps ≡ disp_of block ∷ []) }
{
    let code = code_of(alloc, block)?;
    let caps = caps_of(alloc, block)?;
    let mut disps = Items::new(alloc);
    disps.push(DispImage {
        code,
        period: 1,
        due: 0,
        caps,
    })?;
    Ok(disps)
}

/// A block, which has its home on the core of its number if there is one.
fn block_of(alloc: Global, block: u32) -> Result<BlockImage, Memory>
    requires { block < 16 }
    ensures { IfOk result (λ image. image ≡ spec.generated_block block) }
{
    let home = if block < 8 { Some(CoreNo(block)) } else { None };
    Ok(BlockImage {
        home,
        memory: Items::new(alloc),
        ports: 0,
        signals: 0,
        disps: disps_of(alloc, block)?,
    })
}

/// A core, whose clock starts at a thousand times its number.
fn core_of(core: u32) -> CoreImage
    requires { core < 8 }
    ensures { result ≡ spec.generated_core core }
{
    let version = if core % 2 == 0 {
        Version::Rr
    } else {
        Version::Edf
    };
    CoreImage {
        base: 1000 * core as u64,
        version: Some(version),
    }
}

/// A channel from a block to the next one of the ring.
fn channel_of(channel: u32) -> ChanImage
    requires { channel < 16 }
    ensures { result ≡ spec.generated_channel channel }
{
    ChanImage {
        from: BlockNo(channel),
        to: BlockNo((channel + 1) % 16),
        capacity: 4,
    }
}

fn cores(alloc: Global) -> Result<Items<CoreImage>, Memory>
    ensures { IfOk result (λ cores. cores ≡ map spec.generated_core (range_with_len 0 8)) }
{
    let mut cores = Items::new(alloc);
    for core in 0..CORES {
        cores.push(core_of(core))?;
    }
    Ok(cores)
}

fn blocks(alloc: Global) -> Result<Items<BlockImage>, Memory>
    ensures { IfOk result (λ blocks. blocks ≡ map spec.generated_block (range_with_len 0 16)) }
{
    let mut blocks = Items::new(alloc);
    for block in 0..BLOCKS {
        blocks.push(block_of(alloc, block)?)?;
    }
    Ok(blocks)
}

fn channels(alloc: Global) -> Result<Items<ChanImage>, Memory>
    ensures { IfOk result (λ channels. channels ≡ map spec.generated_channel (range_with_len 0 16)) }
{
    let mut channels = Items::new(alloc);
    for channel in 0..BLOCKS {
        channels.push(channel_of(channel))?;
    }
    Ok(channels)
}

/// The image of every generated input.
#[tactic(auto, unfolding(dc_base::specs::Generated::generated_image))]
pub(crate) fn generate_image(alloc: Global) -> Result<Image, Memory>
    ensures { IfOk result (λ image. image ≡ spec.generated_image) }
{
    Ok(Image {
        format: 1,
        clocks: Clocks::Kept,
        quantum: 16,
        slices: 20000,
        lines: 0,
        cores: cores(alloc)?,
        blocks: blocks(alloc)?,
        channels: channels(alloc)?,
    })
}
