//! The numbers of objects on the stage.

ghost use Rattle.std.specs.Prelude.{◌≡◌, ◌<◌};
ghost use Rattle.dc_base.specs.Changes.{a_block, a_channel, a_console, a_core, a_line, a_mailbox, the_script};
ghost use Rattle.dc_hands.specs.Machines.{IsOpened, number_of};

use dc_base::numbers::{BlockNo, ChanNo, CoreNo, LineNo};
use dc_kernel::Driver;
use dc_scene::Machine;
use dc_stage::Stage;

/// The number of core `c`.
pub fn of_core<D: Driver>(stage: &Stage<Machine<D>>, c: CoreNo) -> u32
    requires opened { IsOpened stage.now }
    requires within { c.0 < stage.now.scene.settings.cores }
    ensures number { result ≡ number_of stage.now (a_core c.0) }
    ensures there { result < stage.now.objects }
{
    c.0
}

/// The number of block `b`.
pub fn of_block<D: Driver>(stage: &Stage<Machine<D>>, b: BlockNo) -> u32
    requires opened { IsOpened stage.now }
    requires within { b.0 < stage.now.scene.settings.blocks }
    ensures number { result ≡ number_of stage.now (a_block b.0) }
    ensures there { result < stage.now.objects }
{
    let t = &stage.scene().settings;
    t.cores() + b.0
}

/// The number of channel `x`.
pub fn of_channel<D: Driver>(stage: &Stage<Machine<D>>, x: ChanNo) -> u32
    requires opened { IsOpened stage.now }
    requires within { x.0 < stage.now.scene.settings.channels }
    ensures number { result ≡ number_of stage.now (a_channel x.0) }
    ensures there { result < stage.now.objects }
{
    let t = &stage.scene().settings;
    t.cores() + t.blocks() + x.0
}

/// The number of line `l`.
pub fn of_line<D: Driver>(stage: &Stage<Machine<D>>, l: LineNo) -> u32
    requires opened { IsOpened stage.now }
    requires within { l.0 < stage.now.scene.settings.lines }
    ensures number { result ≡ number_of stage.now (a_line l.0) }
    ensures there { result < stage.now.objects }
{
    let t = &stage.scene().settings;
    t.cores() + t.blocks() + t.channels() + l.0
}

/// The number of the mailbox of core `c`.
pub fn of_mailbox<D: Driver>(stage: &Stage<Machine<D>>, c: CoreNo) -> u32
    requires opened { IsOpened stage.now }
    requires within { c.0 < stage.now.scene.settings.cores }
    ensures number { result ≡ number_of stage.now (a_mailbox c.0) }
    ensures there { result < stage.now.objects }
{
    let t = &stage.scene().settings;
    t.cores() + t.blocks() + t.channels() + t.lines() + c.0
}

/// The number of the console of block `b`.
pub fn of_console<D: Driver>(stage: &Stage<Machine<D>>, b: BlockNo) -> u32
    requires opened { IsOpened stage.now }
    requires within { b.0 < stage.now.scene.settings.blocks }
    ensures number { result ≡ number_of stage.now (a_console b.0) }
    ensures there { result < stage.now.objects }
{
    let t = &stage.scene().settings;
    t.cores() + t.blocks() + t.channels() + t.lines() + t.cores() + b.0
}

/// The number of the script.
pub fn of_script<D: Driver>(stage: &Stage<Machine<D>>) -> u32
    requires opened { IsOpened stage.now }
    ensures number { result ≡ number_of stage.now the_script }
    ensures there { result < stage.now.objects }
{
    let t = &stage.scene().settings;
    t.cores() + t.blocks() + t.channels() + t.lines() + t.cores() + t.blocks()
}
