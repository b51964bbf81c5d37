//! The objects as an image gives them.

ghost use Rattle.std.specs.Prelude.{◌≡◌, ◌<◌, ◌≤◌, ◌^◌, [], ◌∷◌, ◌++◌, true, IfOk, OnOk, length, map, replicate};
ghost use Rattle.dc_base.specs.declared.images.CoreImage.{CoreImage as CoreSpec};
ghost use Rattle.dc_base.specs.declared.images.BlockImage.{BlockImage as BlockSpec};
ghost use Rattle.dc_base.specs.declared.images.ChanImage.{ChanImage as ChanSpec};
ghost use Rattle.dc_base.specs.declared.kernels.Version.TheVariants.{Rr, Edf};
ghost use Rattle.dc_base.specs.Valid.{IsValid, IsValidScript, HomesDiffer};
ghost use Rattle.dc_base.specs.States.{core_start, settings_of, home_members_from, cores_from, block_started, idle_wire, empty};
ghost use Rattle.dc_kcb.specs.Starts.{BootsIn};
ghost use Rattle.dc_objects.specs.Starts.{AreBases, idle_ring, is_home_of, home_on};
ghost use Rattle.dc_objects.specs.States.{state_of};

use crate::blocks::{BlockState, Form};
use crate::cores::CoreState;
use crate::mailboxes::Mailbox;
use crate::scripts::ScriptState;
use crate::settings::Settings;
use crate::whole::Objects;
use dc_base::commands::ScriptLine;
use dc_base::images::{BlockImage, CoreImage, Image};
use dc_base::kernels::Version;
use dc_base::lists::Items;
use dc_base::memory::Memory;
use dc_base::numbers::{BlockNo, CoreNo};
use dc_boot::Registry;
use dc_channel::{Channel, Console};
use dc_kcb::Kcb;
use dc_kernel::Driver;
use dc_lines::Line;
use dc_share::Share;
use std::alloc::Global;

/// Puts an element last.
fn add<T: Drop>(list: &mut Vec<T>, element: T) -> Result<(), Memory>
    ensures { OnOk result (list.new.items ≡ list.old.items ++ element ∷ []) }
{
    match list.push(element) {
        Ok(()) => Ok(()),
        Err(_) => Err(Memory),
    }
}

/// Whether core `c` is the block's home.
fn is_home(c: CoreNo, block: &BlockImage) -> bool
    ensures { result ≡ is_home_of c.0 block.now }
{
    match block.home {
        Some(home) => home.0 == c.0,
        None => false,
    }
}

/// The blocks whose home is core `c`.
fn share_of(c: CoreNo, blocks: &[BlockImage]) -> Share
    requires most { length blocks.now ≤ 16 }
    requires homes { HomesDiffer blocks.now }
    ensures { result ≡ home_members_from c.0 0 blocks.now }
{
    let mut share = Share::empty();
    for at in 0..blocks.len() {
        if is_home(c, &blocks[at]) {
            share.add(BlockNo(at as u32), false);
        }
    }
    share
}

fn cores_of(alloc: Global, settings: Settings, image: &Image) -> Result<Vec<CoreState>, Memory>
    requires valid { IsValid image.now }
    ensures { IfOk result (λ cores. cores.items ≡ cores_from settings 0 image.now.blocks image.now.cores) }
{
    let mut cores = Vec::new(alloc);
    for at in 0..image.cores.len() {
        let core = &image.cores.as_slice()[at];
        let share = share_of(CoreNo(at as u32), image.blocks.as_slice());
        add(
            &mut cores,
            CoreState::new(settings, core.version, core.base, share),
        )?;
    }
    Ok(cores)
}

/// The core that is a block's home, where it is on, with its version and its clock.
fn home_of(cores: &[CoreImage], home: Option<CoreNo>) -> Option<(CoreNo, Version, u64)>
    ensures { result ≡ home_on cores.now home }
{
    let home = home?;
    let core = cores.get(home.0 as usize)?;
    let version = core.version?;
    Some((home, version, core.base))
}

fn block_of<D: Driver>(
    alloc: Global,
    cores: &[CoreImage],
    image: &BlockImage,
) -> Result<BlockState<D>, Memory>
    requires boots { BootsIn image.now }
    requires bases { AreBases cores.now }
    requires first { D.served Rr ≡ true }
    requires second { D.served Edf ≡ true }
    ensures { IfOk result (λ b. b ≡ block_started cores.now image.now) }
{
    let kcb = Kcb::boot(alloc, image)?;
    match home_of(cores, image.home) {
        Some((core, version, clock)) => {
            let kernel = D::adopt(version, kcb, clock);
            Ok(BlockState {
                form: Form::Held { core, kernel },
            })
        }
        None => Ok(BlockState::resting(kcb)),
    }
}

fn blocks_of<D: Driver>(alloc: Global, image: &Image) -> Result<Vec<BlockState<D>>, Memory>
    requires valid { IsValid image.now }
    requires first { D.served Rr ≡ true }
    requires second { D.served Edf ≡ true }
    ensures { IfOk result (λ blocks. blocks.items ≡ map (block_started image.now.cores) image.now.blocks) }
{
    let mut blocks = Vec::new(alloc);
    for at in 0..image.blocks.len() {
        let block = block_of(alloc, image.cores.as_slice(), &image.blocks.as_slice()[at])?;
        add(&mut blocks, block)?;
    }
    Ok(blocks)
}

fn channels_of(alloc: Global, image: &Image) -> Result<Vec<Channel>, Memory>
    requires valid { IsValid image.now }
    ensures { IfOk result (λ channels. channels.items ≡ map (λ (c : ChanSpec). idle_ring c.capacity) image.now.channels) }
{
    let mut channels = Vec::new(alloc);
    for at in 0..image.channels.len() {
        let capacity = image.channels.as_slice()[at].capacity;
        add(&mut channels, Channel::new(alloc, capacity)?)?;
    }
    Ok(channels)
}

fn lines_of(alloc: Global, n: u32) -> Result<Vec<Line>, Memory>
    ensures { IfOk result (λ lines. lines.items ≡ replicate n idle_wire) }
{
    let mut lines = Vec::new(alloc);
    for _at in 0..n {
        add(&mut lines, Line::idle())?;
    }
    Ok(lines)
}

fn mailboxes_of(alloc: Global, cores: &[CoreImage]) -> Result<Vec<Mailbox>, Memory>
    ensures { IfOk result (λ mailboxes. mailboxes.items ≡ map (λ (c : CoreSpec). empty) cores.now) }
{
    let mut mailboxes = Vec::new(alloc);
    for _core in cores {
        add(&mut mailboxes, Mailbox::empty())?;
    }
    Ok(mailboxes)
}

fn consoles_of(alloc: Global, blocks: &[BlockImage]) -> Result<Vec<Console>, Memory>
    ensures { IfOk result (λ consoles. consoles.items ≡ map (λ (b : BlockSpec). []) blocks.now) }
{
    let mut consoles = Vec::new(alloc);
    for _block in blocks {
        add(&mut consoles, Console::new(alloc)?)?;
    }
    Ok(consoles)
}

/// A copy of a script.
fn copy_of(alloc: Global, script: &Items<ScriptLine>) -> Result<Items<ScriptLine>, Memory>
    ensures { IfOk result (λ copy. copy ≡ script.now) }
{
    Ok(Items::from_vec(script.as_slice().to_vec(alloc)?))
}

/// The objects of the machine of a valid image and a script for it, at their start.
pub fn objects<D: Driver>(
    alloc: Global,
    image: &Image,
    script: &Items<ScriptLine>,
) -> Result<Objects<D>, Memory>
    requires image { IsValid image.now }
    requires script { IsValidScript (settings_of image.now) script.now }
    requires first { D.served Rr ≡ true }
    requires second { D.served Edf ≡ true }
    ensures { IfOk result (λ o. state_of o ≡ core_start image.now script.now) }
{
    let settings = Settings::of(image);
    Ok(Objects {
        cores: cores_of(alloc, settings, image)?,
        blocks: blocks_of(alloc, image)?,
        channels: channels_of(alloc, image)?,
        lines: lines_of(alloc, image.lines)?,
        mailboxes: mailboxes_of(alloc, image.cores.as_slice())?,
        consoles: consoles_of(alloc, image.blocks.as_slice())?,
        script: ScriptState::start(settings, copy_of(alloc, script)?, Registry::of(image)),
    })
}
