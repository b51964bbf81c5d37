//! Entries by their actors.

ghost use Rattle.std.specs.Prelude.{◌≡◌};
ghost use Rattle.dc_base.specs.Outcomes.{by_core, by_script};

use dc_base::actions::Actor;
use dc_base::entries::{Entry, What};
use dc_base::numbers::CoreNo;

/// An entry of core `c`.
pub(crate) fn by_core(c: CoreNo, what: What) -> Entry
    ensures { result ≡ by_core c.0 what }
{
    Entry {
        actor: Actor::Core(c),
        what,
    }
}

/// An entry of the script.
pub(crate) fn by_script(what: What) -> Entry
    ensures { result ≡ by_script what }
{
    Entry {
        actor: Actor::Script,
        what,
    }
}
