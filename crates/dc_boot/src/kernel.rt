ghost use Rattle.std.specs.Prelude.{◌≡◌, ◌<◌, [], None, true, length};
ghost use Rattle.std.specs.Option.{option_map};
ghost use Rattle.dc_base.specs.Boot.{with_block, without_block};
ghost use Rattle.dc_boot.specs.Views.{home_of};

use crate::parked::Parked;
use dc_base::kernels::Version;
use dc_base::numbers::BlockNo;
use std::marker::Model;

/// The kernel of a core that is on: its version, the home block of the core and the parked blocks.
#[derive(Debug, Drop)]
pub struct Kernel {
    version: Version,
    home: Option<BlockNo>,
    parked: Parked,
}

// Contracts see a core that is on, as the boot state has it.
impl Model for Kernel {
    ghost use Rattle.dc_base.specs.Boot.{Booted};
    ghost use Rattle.dc_boot.specs.Views.{home_of};

    ghost Value = { Booted };

    ghost view = { λ k. record { version = k.version; home = home_of k.home; parked = k.parked } };
}

impl Kernel {
    /// A kernel without parked blocks.
    pub(crate) fn start(version: Version, home: Option<BlockNo>) -> Kernel
        ensures { result ≡ record { version = version; home = home_of home; parked = [] } }
    {
        Kernel {
            version,
            home,
            parked: Parked::empty(),
        }
    }

    pub(crate) fn replace(&mut self, version: Version)
        ensures { self.new ≡ record self.old { version = version } }
    {
        self.version = version;
    }

    pub(crate) fn adopt(&mut self, b: BlockNo, parked: bool)
        requires room { parked ≡ true → length self.old.parked < 8 }
        ensures { self.new ≡ with_block b.0 parked self.old }
    {
        if parked {
            self.parked.insert(b);
        } else {
            self.home = Some(b);
        }
    }

    pub(crate) fn release(&mut self, b: BlockNo)
        ensures { self.new ≡ without_block b.0 self.old }
    {
        if self.home == Some(b) {
            self.home = None;
        }
        self.parked.remove(b);
    }

    pub fn version(&self) -> Version
        ensures { result ≡ self.now.version }
    {
        self.version
    }

    /// The home block, if there is one.
    pub fn home(&self) -> Option<BlockNo>
        ensures { home_of result ≡ self.now.home }
    {
        self.home
    }

    pub fn parked(&self) -> &Parked
        ensures { result.now ≡ self.now.parked }
    {
        &self.parked
    }
}
