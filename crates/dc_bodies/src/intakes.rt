//! Intake: the pending raise of a line reaches its signal.

ghost use Rattle.std.specs.Prelude.{◌≡◌, ℕ, ◌<◌, Some, IfErr, IfOk, IsSome, length};
ghost use Rattle.dc_base.specs.Intakes.{intake_line};
ghost use Rattle.dc_base.specs.Turns.{ends, not_enabled};
ghost use Rattle.dc_objects.specs.Blocks.{IsHeld};
ghost use Rattle.dc_bodies.specs.Pendings.{IsPending};
ghost use Rattle.dc_bodies.specs.Scripted.{IsNoPoll};
ghost use Rattle.dc_bodies.specs.TakenIn.{IsIntake};

use crate::entries::by_core;
use dc_base::entries::{Entry, Reason, What};
use dc_base::interrupts::{Latch, Source};
use dc_base::numbers::{BlockNo, CoreNo, LineNo, SignalNo};
use dc_kernel::Driver;
use dc_lines::Line;
use dc_objects::{BlockState, CoreState};

/// A pending raise that a core may take in: its number, and the signal that it comes to.
#[derive(Clone, Copy)]
pub struct Pending {
    pub number: u32,
    pub block: BlockNo,
    pub signal: SignalNo,
}

/// The pending raise of a line that core `c` may take in, which is on.
pub fn raise_for(core: &CoreState, c: CoreNo, line: &Line) -> Result<Pending, Reason>
    ensures taken { IfOk result (IsPending c.0 core.now line.now) }
    ensures refused { IfErr result (λ why. (l : ℕ) → intake_line c.0 core.now l (Some line.now) ≡ ends (not_enabled why)) }
    ensures quiet { IfErr result IsNoPoll }
{
    let Some((block, signal)) = line.bound() else {
        return Err(Reason::NotPending);
    };
    let Some(number) = line.pending() else {
        return Err(Reason::NotPending);
    };
    let route = line.routed();
    if route != Some(c) {
        return Err(Reason::NotRouted { route });
    }
    if !core.share().contains(block) {
        return Err(Reason::NotHere { block });
    }
    Ok(Pending {
        number,
        block,
        signal,
    })
}

/// The pending raise of line `l` comes to its signal.
pub fn take_in_held<D: Driver>(
    block: &mut BlockState<D>,
    line: &mut Line,
    c: CoreNo,
    l: LineNo,
    p: Pending,
) -> Entry
    requires bound { IsSome line.old.bound }
    requires pending { IsSome line.old.pending }
    requires held { IsHeld block.old }
    requires signal { p.signal.0 < length block.old.control.parts.signals }
    ensures { IsIntake c.0 l.0 p line.old line.new block.old block.new result }
{
    let latch = Latch {
        source: Source::Line(l),
        value: p.number,
    };
    let latched = block.intake(p.signal, latch);
    line.intake(latched);
    let what = What::Intake {
        line: l,
        number: p.number,
        block: p.block,
        signal: p.signal,
        latched,
    };
    by_core(c, what)
}
