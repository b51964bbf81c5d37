//! What a core does next, by the blocks of its share.

ghost use Rattle.std.specs.Prelude.{◌≡◌, ℕ, ◌^◌, IfSome, ℤ, pos, ◌<ℤ◌};
ghost use Rattle.std.specs.Option.{option_map};
ghost use Rattle.dc_base.specs.declared.numbers.BlockNo.{BlockNo as Number};
ghost use Rattle.dc_base.specs.IdleTurns.{next_due};
ghost use Rattle.dc_base.specs.Turns.{Looked};
ghost use Rattle.dc_base.specs.Words.{above_zero};
ghost use Rattle.dc_bodies.specs.InHand.{AreInHand, looked_in};
ghost use Rattle.dc_bodies.specs.Nexts.{earlier, first_runnable, IsNext};

use crate::blocks::Blocks;
use dc_base::numbers::BlockNo;
use dc_kernel::Driver;
use dc_objects::CoreState;

/// What a core does next: nothing, idle until its clock stands so, or a slice of a block.
#[derive(Clone, Copy)]
pub enum Next {
    Nothing,
    Idle(u64),
    Slice(BlockNo),
}

/// The first block of the share that can run.
fn first_runnable<D: Driver, B: Blocks<D>>(core: &CoreState, blocks: &B) -> Option<BlockNo>
    requires hand { (c : ℕ) × AreInHand c core.now (B.seen blocks.now) }
    ensures { option_map (λ (b : Number). b.0) result ≡
        option_map (λ (l : Looked). l.number) (first_runnable core.now (looked_in (B.seen blocks.now) core.now.share)) }
{
    let share = core.share();
    for i in 0..share.len() {
        if let Some(b) = share.at(i) {
            if let Some(block) = blocks.block(b) {
                if block.runnable(core.clock()) {
                    return Some(b);
                }
            }
        }
    }
    None
}

/// The least of two clocks; a due below 0 counts as 0.
fn sooner(least: Option<u64>, due: Option<i128>) -> Option<u64>
    requires { IfSome due (λ (z : ℤ). z <ℤ pos (2 ^ 64)) }
    ensures { result ≡ earlier least (option_map above_zero due) }
{
    let Some(due) = due else {
        return least;
    };
    let clock = clock_from(due);
    match least {
        Some(first) => Some(first.min(clock)),
        None => Some(clock),
    }
}

/// A clock, not below 0.
fn clock_from(due: i128) -> u64
    requires { due <ℤ pos (2 ^ 64) }
    ensures { result ≡ above_zero due }
{
    if due < 0 {
        return 0;
    }
    due as u64
}

/// The core's clock at which the first timer of the share is due.
fn next_due<D: Driver, B: Blocks<D>>(core: &CoreState, blocks: &B) -> Option<u64>
    requires hand { (c : ℕ) × AreInHand c core.now (B.seen blocks.now) }
    ensures { result ≡ next_due (looked_in (B.seen blocks.now) core.now.share) }
{
    let share = core.share();
    let mut least = None;
    for i in 0..share.len() {
        if let Some(b) = share.at(i) {
            if let Some(block) = blocks.block(b) {
                least = sooner(least, block.earliest());
            }
        }
    }
    least
}

/// What a core does next that is on and has not used its budget.
pub fn next_of<D: Driver, B: Blocks<D>>(core: &CoreState, blocks: &B) -> Next
    requires hand { (c : ℕ) × AreInHand c core.now (B.seen blocks.now) }
    ensures { IsNext core.now (looked_in (B.seen blocks.now) core.now.share) result }
{
    if let Some(b) = first_runnable(core, blocks) {
        return Next::Slice(b);
    }
    match next_due(core, blocks) {
        Some(clock) => Next::Idle(clock),
        None => Next::Nothing,
    }
}
