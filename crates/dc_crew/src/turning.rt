//! The turns of the cores that have no thread.
ghost use Rattle.std.specs.Prelude.{◌≡◌, List, vec_capacity};
ghost use Rattle.dc_hands.specs.Machines.{IsOpened};
ghost use Rattle.dc_logs.specs.Rests.{AllOf};
ghost use Rattle.dc_crew.specs.Laters.{Pairs};
ghost use Rattle.dc_crew.specs.Seats.{IsCoreSeat};
ghost use Rattle.dc_crew.specs.Started.{IsStarted};
ghost use Rattle.dc_crew.specs.declared.seats.Seat.{Seat as Seated};

use crate::core_work::turn_here;
use crate::flags::Flags;
use crate::seats::Seat;
use crate::threads::Started;
use dc_base::numbers::CoreNo;
use dc_both::EitherKernel;
use dc_io::Gate;
use dc_scene::Machine;
use dc_stage::Stage;

/// One round of the core, if it has no thread.
fn turn_started<G: Gate>(
    gate: &G,
    stage: &Stage<Machine<EitherKernel>>,
    flags: &Flags,
    started: Started,
) -> Started
    requires opened { IsOpened stage.now }
    requires core { (s : Seated) × IsCoreSeat stage.now s × IsStarted stage.now s started }
    ensures { (s : Seated) → IsStarted stage.now s started → IsStarted stage.now s result }
{
    match started {
        Started::Away(handle) => Started::Away(handle),
        Started::Here(seat) => {
            gate.pass(CoreNo(seat.pass.actor()));
            Started::Here(turn_here(stage, flags, seat))
        }
    }
}

/// One round of each core that has no thread. All stay in their order.
pub(crate) fn turn_all_here<G: Gate>(
    gate: &G,
    stage: &Stage<Machine<EitherKernel>>,
    flags: &Flags,
    started: &mut Vec<Started>,
)
    requires opened { IsOpened stage.now }
    requires started { (seats : List Seated) × AllOf (IsCoreSeat stage.now) seats × Pairs (IsStarted stage.now) seats started.old.items }
    ensures started { (seats : List Seated) → Pairs (IsStarted stage.now) seats started.old.items → Pairs (IsStarted stage.now) seats started.new.items }
    ensures room { vec_capacity started.new ≡ vec_capacity started.old }
{
    for _ in 0..started.len() {
        let core = started.remove(0);
        started.push_reserved(turn_started(gate, stage, flags, core));
    }
}
