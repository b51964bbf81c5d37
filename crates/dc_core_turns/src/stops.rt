//! Whether a core does anything at all.

ghost use Rattle.std.specs.Prelude.{◌≡◌};
ghost use Rattle.dc_bodies.specs.Stops.{stopped};
ghost use Rattle.dc_core_turns.specs.Stopping.{stop_told};

use dc_base::entries::Reason;
use dc_hands::Turned;
use dc_objects::CoreState;

/// Why a core makes no entry at all: its budget is used, or it is off.
pub(crate) fn stop_of(core: &CoreState) -> Option<Turned>
    ensures { result ≡ stop_told (stopped core.now) }
{
    if core.is_spent() {
        return Some(Turned::Spent);
    }
    match core.version() {
        Some(_) => None,
        None => Some(Turned::NotEnabled(Reason::CoreOff)),
    }
}
