//! What happens at the place of a dispatcher.

ghost use Rattle.std.specs.Prelude.{◌≡◌, ◌<◌, ◌≤◌, ◌+◌, ℕ, List, length, slice_get, IsTrue, IfSome, OnSome};
ghost use Rattle.dc_base.specs.Instructions.{is_proper};
ghost use Rattle.dc_base.specs.Effects.{act};
ghost use Rattle.dc_base.specs.Ahead.{last_look};
ghost use Rattle.dc_exec.specs.Calls.{end_at_place, is_proper_call};
ghost use Rattle.dc_exec.specs.Steps.{context_of};
ghost use Rattle.dc_exec.specs.Turns.{Turns};

use crate::calls::call_name;
use crate::memories::Memory;
use crate::steps::{Went, plain};
use dc_base::traps::{NO_INSTRUCTION, PAST_CODE};
use dc_isa::{Dispatcher, Instr, decode};

/// What stands at a place came to.
#[derive(Clone, Copy)]
pub(crate) enum Turn {
    Next,
    Halted,
    Trap(u8),
    Call(Instr),
}

fn word_at(code: &[u32], place: u32) -> Option<u32>
    ensures { result ≡ slice_get code.now place }
{
    code.get(place as usize).copied()
}

/// Runs the instruction at the dispatcher's place, if it is plain.
#[inline(always)]
#[tactic(auto, unfolding(dc_base::specs::Effects::act))]
pub(crate) fn run_place<M: Memory>(d: &mut Dispatcher, code: &[u32], mem: &mut M, time: u64) -> Turn
    requires code { length code.now ≤ 1024 }
    requires mem { length (M.words mem.old) ≡ 4096 }
    requires room { 0 < M.room mem.old }
    ensures turn { let move = act time code.now (context_of d.old) (M.words mem.old) in
        Turns result d.old d.new (M.words mem.old) (M.words mem.new) code.now move }
    ensures size { length (M.words mem.new) ≡ 4096 }
    ensures room { M.room mem.old ≤ M.room mem.new + 1 }
{
    let Some(word) = word_at(code, d.place) else {
        return Turn::Trap(PAST_CODE);
    };
    let Some(instr) = decode(word) else {
        return Turn::Trap(NO_INSTRUCTION);
    };
    if call_name(&instr).is_some() {
        return Turn::Call(instr);
    }
    match plain(d, mem, time, &instr) {
        Went::Next => Turn::Next,
        Went::Halted => Turn::Halted,
        Went::Trap(x) => Turn::Trap(x),
    }
}

/// The kernel call at a place of the code.
#[inline(always)]
pub(crate) fn call_at(code: &[u32], place: u32) -> Option<Instr>
    ensures end { (time : ℕ) (regs memory : List ℕ) →
        last_look (act time code.now (record { regs = regs; place = place }) memory)
        ≡ end_at_place result }
    ensures proper { IfSome result (λ i. IsTrue (is_proper_call i)) }
    ensures place { OnSome result (place < length code.now) }
{
    let word = word_at(code, place)?;
    let instr = decode(word)?;
    if call_name(&instr).is_some() {
        Some(instr)
    } else {
        None
    }
}
