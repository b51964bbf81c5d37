//! The objects of an actor come into its hand, and go back.

ghost use Rattle.std.specs.Prelude.{◌≡◌, ◌<◌, ◌≤◌, ◌+◌, [], None, IfOk, IfErr, length};
ghost use Rattle.dc_base.specs.Changes.{the_script};
ghost use Rattle.dc_stage.specs.Passes.{IsOf};
ghost use Rattle.dc_hands.specs.Gathering.{FailsToGather, GoesQuietly, HoldsFirst, HoldsRow, MissesOne};
ghost use Rattle.dc_hands.specs.Hands.{HoldsCore, HoldsScript};
ghost use Rattle.dc_hands.specs.Holding.{Misses};
ghost use Rattle.dc_hands.specs.Machines.{IsOpened};
ghost use Rattle.dc_hands.specs.Rows.{in_row, no_row, with_last};

use crate::hands::{CoreHand, ScriptHand};
use crate::rows::Row;
use crate::takes::{Busy, put_block, put_core, put_script, take_block, take_core, take_script};
use dc_base::numbers::{BlockNo, CoreNo};
use dc_kernel::Driver;
use dc_objects::BlockState;
use dc_scene::Machine;
use dc_stage::{Pass, Stage};

/// Takes the next block of the share of the core in the hand, the one at place `i`, into the row.
fn take_next<D: Driver>(
    stage: &Stage<Machine<D>>,
    pass: &mut Pass<Machine<D>>,
    hand: &mut CoreHand<D>,
    i: u32,
) -> Result<(), Busy>
    requires opened { IsOpened stage.now }
    requires stage { IsOf pass.old stage.now }
    requires first { HoldsFirst stage.now pass.old hand.old i }
    requires more { i < length hand.old.core.share }
    requires few { length hand.old.core.share ≤ 9 }
    ensures core { (hand.new.number ≡ hand.old.number) × (hand.new.core ≡ hand.old.core) }
    ensures got { IfOk result (λ _. HoldsFirst stage.now pass.new hand.new (i + 1) × GoesQuietly pass.old pass.new) }
    ensures busy { IfErr result (λ b. HoldsRow stage.now pass.new hand.new × MissesOne stage.now pass.old pass.new hand.old.number.0 b) }
{
    let _ = hand.row.len();
    let Some(b) = hand.core.share().at(i) else {
        unreachable!()
    };
    let block = match take_block(stage, pass, b) {
        Ok(block) => block,
        Err(busy) => return Err(busy),
    };
    hand.row.add(b, block);
    Ok(())
}

/// Takes the blocks of the share of the core in the hand into the empty row.
fn take_share<D: Driver>(
    stage: &Stage<Machine<D>>,
    pass: &mut Pass<Machine<D>>,
    hand: &mut CoreHand<D>,
) -> Result<(), Busy>
    requires opened { IsOpened stage.now }
    requires stage { IsOf pass.old stage.now }
    requires first { HoldsFirst stage.now pass.old hand.old 0 }
    ensures core { (hand.new.number ≡ hand.old.number) × (hand.new.core ≡ hand.old.core) }
    ensures got { IfOk result (λ _. HoldsFirst stage.now pass.new hand.new (length hand.new.core.share) × GoesQuietly pass.old pass.new) }
    ensures busy { IfErr result (λ b. HoldsRow stage.now pass.new hand.new × MissesOne stage.now pass.old pass.new hand.old.number.0 b) }
{
    for i in 0..hand.core.share().len() {
        if let Err(busy) = take_next(stage, pass, hand, i) {
            return Err(busy);
        }
    }
    Ok(())
}

/// Puts block `b` back, which was the last of the row of the hand.
fn put_last<D: Driver>(
    stage: &Stage<Machine<D>>,
    pass: &mut Pass<Machine<D>>,
    hand: &CoreHand<D>,
    b: BlockNo,
    block: BlockState<D>,
)
    requires opened { IsOpened stage.now }
    requires stage { IsOf pass.old stage.now }
    requires row { HoldsRow stage.now pass.old (record hand.now { row = with_last hand.now.row b block }) }
    requires gone { in_row hand.now.row b.0 ≡ None }
    ensures same { pass.new ≡ record pass.old { holds = pass.new.holds } }
    ensures row { HoldsRow stage.now pass.new hand.now }
{
    let _ = hand.row.len();
    put_block(stage, pass, b, block);
}

/// Puts the blocks of the row back.
pub fn put_blocks<D: Driver>(
    stage: &Stage<Machine<D>>,
    pass: &mut Pass<Machine<D>>,
    hand: &mut CoreHand<D>,
)
    requires opened { IsOpened stage.now }
    requires stage { IsOf pass.old stage.now }
    requires row { HoldsRow stage.now pass.old hand.old }
    ensures same { pass.new ≡ record pass.old { holds = pass.new.holds } }
    ensures hand { hand.new ≡ record hand.old { row = no_row } }
    ensures row { HoldsRow stage.now pass.new hand.new }
{
    while let Some(last) = hand.row.pop() {
        let (b, block) = last;
        put_last(stage, pass, hand, b, block);
    }
}

/// Puts the core and the blocks of the row back, and the row is empty.
fn put_all<D: Driver>(
    stage: &Stage<Machine<D>>,
    pass: &mut Pass<Machine<D>>,
    hand: CoreHand<D>,
) -> Row<D>
    requires opened { IsOpened stage.now }
    requires stage { IsOf pass.old stage.now }
    requires row { HoldsRow stage.now pass.old hand }
    ensures same { pass.new ≡ record pass.old { holds = [] } }
    ensures row { result ≡ no_row }
{
    let mut hand = hand;
    put_blocks(stage, pass, &mut hand);
    let CoreHand { number, core, row } = hand;
    put_core(stage, pass, number, core);
    row
}

/// Takes core `c` and the blocks of its share into the empty row. Where another actor has one of them, all that was taken goes back, and so does the row.
pub fn gather_core<D: Driver>(
    stage: &Stage<Machine<D>>,
    pass: &mut Pass<Machine<D>>,
    c: CoreNo,
    row: Row<D>,
) -> Result<CoreHand<D>, (Row<D>, Busy)>
    requires opened { IsOpened stage.now }
    requires stage { IsOf pass.old stage.now }
    requires actor { pass.old.actor ≡ c.0 }
    requires within { c.0 < stage.now.scene.settings.cores }
    requires free { pass.old.holds ≡ [] }
    requires empty { row ≡ no_row }
    ensures hand { IfOk result (λ h. HoldsCore stage.now pass.new h × (h.number ≡ c)) }
    ensures quiet { IfOk result (λ h. GoesQuietly pass.old pass.new) }
    ensures busy { IfErr result (λ e. FailsToGather stage.now pass.old pass.new c.0 e.0 e.1) }
{
    let core = match take_core(stage, pass, c) {
        Ok(core) => core,
        Err(busy) => return Err((row, busy)),
    };
    let mut hand = CoreHand {
        number: c,
        core,
        row,
    };
    match take_share(stage, pass, &mut hand) {
        Ok(()) => {
            let _ = hand.row.len();
            Ok(hand)
        }
        Err(busy) => Err((put_all(stage, pass, hand), busy)),
    }
}

/// Puts the core and the blocks of its share back, and the row is empty.
pub fn stow_core<D: Driver>(
    stage: &Stage<Machine<D>>,
    pass: &mut Pass<Machine<D>>,
    hand: CoreHand<D>,
) -> Row<D>
    requires opened { IsOpened stage.now }
    requires stage { IsOf pass.old stage.now }
    requires hand { HoldsCore stage.now pass.old hand }
    ensures same { pass.new ≡ record pass.old { holds = [] } }
    ensures row { result ≡ no_row }
{
    let _ = hand.row.len();
    put_all(stage, pass, hand)
}

/// Takes the script. So many polls were made of the command at its place.
pub fn gather_script<D: Driver>(
    stage: &Stage<Machine<D>>,
    pass: &mut Pass<Machine<D>>,
    polls: u32,
) -> Result<ScriptHand, Busy>
    requires opened { IsOpened stage.now }
    requires stage { IsOf pass.old stage.now }
    requires actor { pass.old.actor ≡ stage.now.scene.settings.cores }
    requires free { pass.old.holds ≡ [] }
    requires polls { polls ≤ 1000000000 }
    ensures hand { IfOk result (λ h. HoldsScript stage.now pass.new h × (h.polls ≡ polls)) }
    ensures quiet { IfOk result (λ h. GoesQuietly pass.old pass.new) }
    ensures busy { IfErr result (Misses stage.now pass.old pass.new the_script) }
{
    match take_script(stage, pass) {
        Ok(script) => Ok(ScriptHand { script, polls }),
        Err(busy) => Err(busy),
    }
}

/// Puts the script back, and tells the polls that were made of the command at its place.
pub fn stow_script<D: Driver>(
    stage: &Stage<Machine<D>>,
    pass: &mut Pass<Machine<D>>,
    hand: ScriptHand,
) -> u32
    requires opened { IsOpened stage.now }
    requires stage { IsOf pass.old stage.now }
    requires hand { HoldsScript stage.now pass.old hand }
    ensures same { pass.new ≡ record pass.old { holds = [] } }
    ensures polls { result ≡ hand.polls }
{
    let ScriptHand { script, polls } = hand;
    put_script(stage, pass, script);
    polls
}
