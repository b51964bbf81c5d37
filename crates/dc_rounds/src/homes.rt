//! A core that comes from home for one round, or to find out whether it can do nothing, and goes home again.

ghost use Rattle.std.specs.Prelude.{◌≡◌, ◌<◌, ℕ, true, length};
ghost use Rattle.dc_base.specs.declared.kernels.Version.TheVariants.{Rr, Edf};
ghost use Rattle.dc_hands.specs.Holding.{GoesOn};
ghost use Rattle.dc_hands.specs.Machines.{IsOpened};
ghost use Rattle.dc_hands.specs.Rows.{no_row};
ghost use Rattle.dc_rounds.specs.Homes.{IsAtHome};
ghost use Rattle.dc_rounds.specs.Working.{IsQuietAt};
ghost use Rattle.dc_stage.specs.Passes.{IsOf};

use crate::quiet::is_quiet_at;
use crate::rounds::{Round, go_round};
use dc_base::numbers::CoreNo;
use dc_hands::{Row, gather_core, stow_core};
use dc_kernel::Driver;
use dc_logs::{ActorLog, logs_stay};
use dc_scene::{Machine, history_is_of_the_machine};
use dc_stage::{Pass, Stage};

/// Sees all entries, and tells how many there are.
pub fn look_at_home<D: Driver>(
    stage: &Stage<Machine<D>>,
    pass: &mut Pass<Machine<D>>,
    log: &ActorLog,
) -> u64
    requires opened { IsOpened stage.now }
    requires stage { IsOf pass.old stage.now }
    requires home { IsAtHome stage.now pass.old log.now pass.old.actor }
    ensures home { IsAtHome stage.now pass.new log.now pass.old.actor }
    ensures on { GoesOn pass.old pass.new }
    ensures count { result ≡ length pass.new.seen }
{
    history_is_of_the_machine::<D>();
    logs_stay();
    stage.look(pass)
}

/// One round of core `c`, unless another actor has an object of it. The row comes back empty.
pub fn round_once<D: Driver>(
    stage: &Stage<Machine<D>>,
    pass: &mut Pass<Machine<D>>,
    log: &mut ActorLog,
    c: CoreNo,
    row: Row<D>,
) -> (Row<D>, Round)
    requires opened { IsOpened stage.now }
    requires stage { IsOf pass.old stage.now }
    requires home { IsAtHome stage.now pass.old log.old c.0 }
    requires within { c.0 < stage.now.scene.settings.cores }
    requires empty { row ≡ no_row }
    requires first { D.served Rr ≡ true }
    requires second { D.served Edf ≡ true }
    ensures home { IsAtHome stage.now pass.new log.new c.0 }
    ensures on { GoesOn pass.old pass.new }
    ensures row { result.0 ≡ no_row }
    ensures room { log.new.room ≡ log.old.room }
{
    history_is_of_the_machine::<D>();
    logs_stay();
    match gather_core(stage, pass, c, row) {
        Ok(mut hand) => {
            let round = go_round(stage, pass, log, &mut hand);
            (stow_core(stage, pass, hand), round)
        }
        Err((row, _)) => {
            stage.look(pass);
            let mut round = Round::default();
            round.busy = true;
            (row, round)
        }
    }
}

/// Whether core `c` can do nothing after the first `n` entries, which are all. The row comes back empty.
pub fn is_core_quiet<D: Driver>(
    stage: &Stage<Machine<D>>,
    pass: &mut Pass<Machine<D>>,
    log: &mut ActorLog,
    c: CoreNo,
    row: Row<D>,
    n: u64,
) -> (Row<D>, bool)
    requires opened { IsOpened stage.now }
    requires stage { IsOf pass.old stage.now }
    requires home { IsAtHome stage.now pass.old log.old c.0 }
    requires within { c.0 < stage.now.scene.settings.cores }
    requires empty { row ≡ no_row }
    requires first { D.served Rr ≡ true }
    requires second { D.served Edf ≡ true }
    ensures home { IsAtHome stage.now pass.new log.new c.0 }
    ensures on { GoesOn pass.old pass.new }
    ensures row { result.0 ≡ no_row }
    ensures room { log.new.room ≡ log.old.room }
    ensures quiet { result.1 ≡ true → IsQuietAt stage.now n pass.new c.0 }
{
    history_is_of_the_machine::<D>();
    logs_stay();
    match gather_core(stage, pass, c, row) {
        Ok(mut hand) => {
            let quiet = is_quiet_at(stage, pass, log, &mut hand, n);
            (stow_core(stage, pass, hand), quiet)
        }
        Err((row, _)) => {
            stage.look(pass);
            (row, false)
        }
    }
}
