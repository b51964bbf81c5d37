//! What holds of every kernel.

ghost use Rattle.std.specs.Prelude.{◌≡◌, ℕ, ◌<◌, ◌^◌, true, Some};
ghost use Rattle.dc_base.specs.States.{State, Core};
ghost use Rattle.dc_base.specs.SliceTurns.{slice_turn};
ghost use Rattle.dc_base.specs.Turns.{outcome};
ghost use Rattle.dc_kernel.specs.Running.{Running, on_core};
ghost use Rattle.dc_kernel.specs.Begins.{halfway_in, need_in};
ghost use Rattle.dc_kernel.specs.Done.{done};
ghost use Rattle.dc_kernel.specs.Turned.{look_here, done_outcome};

use crate::drivers::Driver;
use dc_base::kernels::Version;
use dc_kcb::Kcb;

/// A block that goes under a kernel and is given back at once is the same.
pub fn adopt_and_surrender<D: Driver>(v: Version, kcb: Kcb, now: u64) -> Kcb
    requires served { D.served v ≡ true }
    requires now { now < 2 ^ 63 }
    requires kept { kcb.kept < 2 ^ 63 }
    ensures { result ≡ kcb }
{
    D::adopt(v, kcb, now).surrender(now)
}

/// A slice of a core's turn does what a whole slice of its block does, with the object that its call needs, where it exists.
pub fn slice_is_done()
    ensures { (s : State) (c : ℕ) (k : Core) (b : ℕ) (r : Running) →
        outcome s (slice_turn c k b (Some (on_core c r))) ≡
        done_outcome c k b (on_core c r) (need_in (halfway_in k.settings.quantum k.clock r))
        (done (look_here k.settings s b) k.settings.quantum c b k.clock r) }
{}
