ghost use Rattle.std.specs.Prelude.{◌≡◌, None, Some};
ghost use Rattle.std.specs.Option.{option_map};
ghost use Rattle.dc_base.specs.Boot.{none_on};
ghost use Rattle.dc_base.specs.Words.{is_number};

use dc_base::numbers::CoreNo;
use std::marker::Model;

/// Where a block is: on a core, or at rest.
#[derive(Clone, Copy, Debug)]
pub struct Place {
    core: Option<CoreNo>,
}

// Contracts see the number of the core, if there is one.
impl Model for Place {
    ghost use Rattle.std.specs.Prelude.{ℕ, Option};
    ghost use Rattle.std.specs.Option.{option_map};
    ghost use Rattle.dc_boot.specs.Views.{place_of, core_at};

    ghost Value = { Option ℕ };

    ghost view = { λ p. place_of p.core };

    ghost inverse = { λ o. record { core = core_at o } };
}

impl Place {
    pub(crate) fn at(core: Option<CoreNo>) -> Place
        ensures { result ≡ option_map (λ c. c.0) core }
    {
        Place { core }
    }

    pub(crate) fn core(&self) -> Option<CoreNo>
        ensures { option_map (λ c. c.0) result ≡ self.now }
    {
        self.core
    }

    /// Whether the block is on this core.
    pub(crate) fn is_on(&self, core: CoreNo) -> bool
        ensures { result ≡ is_number core.0 self.now }
    {
        match self.core {
            Some(at) => at == core,
            None => false,
        }
    }

    /// The place after the blocks of this core came to rest.
    pub(crate) fn after_stop(self, core: CoreNo) -> Place
        ensures { result ≡ none_on core.0 self }
    {
        if self.is_on(core) {
            return Place::at(None);
        }
        self
    }
}

impl Default for Place {
    ghost use Rattle.std.specs.Prelude.{◌≡◌, None};

    ghost is_default = { λ p. p ≡ None };

    fn default() -> Place {
        Place::at(None)
    }
}
