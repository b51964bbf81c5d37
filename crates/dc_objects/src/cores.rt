ghost use Rattle.std.specs.Prelude.{◌≡◌, ◌<◌, ◌+◌, [], ◌∷◌, ◌++◌, ◌==◌, true, false, Some, None};
ghost use Rattle.dc_base.specs.Outcomes.{has, share_without, with_clock};
ghost use Rattle.dc_base.specs.SliceTurns.{core_after_slice};
ghost use Rattle.dc_share.specs.Shares.{HasRoom};

use crate::settings::Settings;
use dc_base::kernels::Version;
use dc_base::numbers::BlockNo;
use dc_share::Share;
use std::marker::Model;

/// A core: its kernel version where it is on, its clock, the blocks that it runs, and how much of its budget is used.
#[derive(Debug, Drop)]
pub struct CoreState {
    settings: Settings,
    version: Option<Version>,
    clock: u64,
    share: Share,
    used: u32,
}

// Contracts see a core of the machine with cores.
impl Model for CoreState {
    ghost use Rattle.dc_base.specs.States.{Core};

    ghost Value = { Core };

    ghost view = { λ k. record { settings = k.settings; version = k.version; clock = k.clock; share = k.share; used = k.used } };
}

impl CoreState {
    /// A core whose clock stands so, with these blocks, and with nothing of its budget used.
    pub fn new(settings: Settings, version: Option<Version>, clock: u64, share: Share) -> CoreState
        ensures { result ≡ record { settings = settings; version = version; clock = clock; share = share; used = 0 } }
    {
        CoreState {
            settings,
            version,
            clock,
            share,
            used: 0,
        }
    }

    pub fn settings(&self) -> &Settings
        ensures { result.now ≡ self.now.settings }
    {
        &self.settings
    }

    /// The version of the core's kernel. None where the core is off.
    pub fn version(&self) -> Option<Version>
        ensures { result ≡ self.now.version }
    {
        self.version
    }

    pub fn clock(&self) -> u64
        ensures { result ≡ self.now.clock }
    {
        self.clock
    }

    /// The blocks of the core, in the order in which they run.
    pub fn share(&self) -> &Share
        ensures { result.now ≡ self.now.share }
    {
        &self.share
    }

    /// How many slices, idle entries and wakes the core has made.
    pub fn used(&self) -> u32
        ensures { result ≡ self.now.used }
    {
        self.used
    }

    /// Whether the whole budget is used.
    pub fn is_spent(&self) -> bool
        ensures { result ≡ (self.now.used == self.now.settings.slices) }
    {
        self.used == self.settings.slices()
    }

    /// A slice of block `b` took the clock this far; the block goes to the end of the share.
    pub fn ran(&mut self, b: BlockNo, clock: u64)
        requires there { has self.old.share b.0 ≡ true }
        requires budget { self.old.used < self.old.settings.slices }
        ensures { self.new ≡ core_after_slice self.old b.0 clock }
    {
        self.share.turned(b);
        self.idled(clock);
    }

    /// The clock goes to this time, and a unit of the budget is used.
    pub fn idled(&mut self, clock: u64)
        requires budget { self.old.used < self.old.settings.slices }
        ensures { self.new ≡ with_clock clock self.old }
    {
        self.clock = clock;
        self.count();
    }

    /// A unit of the budget is used.
    pub fn count(&mut self)
        requires budget { self.old.used < self.old.settings.slices }
        ensures { self.new ≡ record self.old { used = self.old.used + 1 } }
    {
        let most = self.settings.slices();
        if self.used < most {
            self.used += 1;
        }
    }

    /// The core goes on, or is on, with this version.
    pub fn set_version(&mut self, v: Version)
        ensures { self.new ≡ record self.old { version = Some v } }
    {
        self.version = Some(v);
    }

    /// The core goes off, with no blocks.
    pub fn stop(&mut self)
        ensures { self.new ≡ record self.old { version = None; share = [] } }
    {
        self.version = None;
        self.share = Share::empty();
    }

    /// Puts a block last in the share, below 16 and not there: as the home block where none is home, or parked where fewer than 8 are.
    pub fn admit(&mut self, b: BlockNo, parked: bool)
        requires below { b.0 < 16 }
        requires apart { has self.old.share b.0 ≡ false }
        requires room { HasRoom parked self.old.share }
        ensures { self.new ≡ record self.old { share = self.old.share ++ record { block = b.0; parked = parked } ∷ [] } }
    {
        self.share.add(b, parked);
    }

    /// Takes a block of the share out.
    pub fn dismiss(&mut self, b: BlockNo)
        requires there { has self.old.share b.0 ≡ true }
        ensures { self.new ≡ record self.old { share = share_without b.0 self.old.share } }
    {
        self.share.remove(b);
    }
}
