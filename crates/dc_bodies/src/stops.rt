//! Whether a core does anything at all.

ghost use Rattle.std.specs.Prelude.{◌≡◌};
ghost use Rattle.dc_bodies.specs.Stops.{stopped};

use dc_base::entries::{Entry, Reason};
use dc_objects::CoreState;

/// What an action came to: its entry, or why there is none.
#[derive(Clone, Copy, Debug, PartialEq, Eq)]
pub enum Stepped {
    Did(Entry),
    NotEnabled(Reason),
    Spent,
}

/// Why a core does nothing at all: its budget is used, or it is off.
pub fn stopped(core: &CoreState) -> Option<Stepped>
    ensures { result ≡ stopped core.now }
{
    if core.is_spent() {
        return Some(Stepped::Spent);
    }
    match core.version() {
        Some(_) => None,
        None => Some(Stepped::NotEnabled(Reason::CoreOff)),
    }
}
