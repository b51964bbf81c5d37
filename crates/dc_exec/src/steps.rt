//! One plain instruction.

ghost use Rattle.std.specs.Prelude.{◌≡◌, ◌<◌, ◌≤◌, ◌+◌, ◌-◌, ◌/◌, ◌%◌, ◌^◌, max, length, slice_index, slice_set, IsTrue, None, SomeIff, if◌then◌else◌};
ghost use Rattle.dc_base.specs.Instructions.{is_proper};
ghost use Rattle.dc_base.specs.Effects.{effect};
ghost use Rattle.dc_exec.specs.Calls as calls;
ghost use Rattle.dc_exec.specs.Steps.{Makes, Loads, Stores, context_of};

use crate::memories::Memory;
use dc_base::limits::MEMORY_WORDS;
use dc_base::traps::PAST_MEMORY;
use dc_isa::{Dispatcher, Instr};

/// What a plain instruction came to.
#[derive(Clone, Copy, Debug, PartialEq, Eq)]
pub enum Went {
    Next,
    Halted,
    Trap(u8),
}

fn reg(d: &Dispatcher, a: u32) -> u32
    requires { a < 8 }
    ensures { result ≡ slice_index d.now.regs a }
{
    d.regs[a as usize]
}

/// Moves the place on.
fn next(d: &mut Dispatcher) -> Went
    requires { d.old.place < 2 ^ 32 - 1 }
    ensures next { result ≡ Went.Next }
    ensures place { d.new ≡ record d.old { place = d.old.place + 1 } }
{
    d.place += 1;
    Went::Next
}

/// Sets a register, and moves the place on.
fn set(d: &mut Dispatcher, a: u32, value: u32) -> Went
    requires register { a < 8 }
    requires place { d.old.place < 2 ^ 32 - 1 }
    ensures next { result ≡ Went.Next }
    ensures set { d.new ≡ record d.old { regs = slice_set d.old.regs a value; place = d.old.place + 1 } }
{
    d.regs[a as usize] = value;
    next(d)
}

/// Moves the place to a target where the test holds, and else on.
fn branch(d: &mut Dispatcher, taken: bool, target: u32) -> Went
    requires { d.old.place < 2 ^ 32 - 1 }
    ensures next { result ≡ Went.Next }
    ensures place { d.new ≡ record d.old { place = if taken then target else d.old.place + 1 } }
{
    if !taken {
        return next(d);
    }
    d.place = target;
    Went::Next
}

/// The address in a register and an immediate. None where the memory has no such word.
fn address(d: &Dispatcher, b: u32, imm: u32) -> Option<u32>
    requires b { b < 8 }
    requires imm { imm < 2 ^ 16 }
    ensures { let sum = slice_index d.now.regs b + imm in
        SomeIff result (sum < 4096) sum }
{
    let address = u64::from(reg(d, b)) + u64::from(imm);
    if address < MEMORY_WORDS as u64 {
        Some(address as u32)
    } else {
        None
    }
}

/// Loads a word of the memory into a register.
fn load<M: Memory>(d: &mut Dispatcher, mem: &M, a: u32, b: u32, imm: u32) -> Went
    requires a { a < 8 }
    requires b { b < 8 }
    requires imm { imm < 2 ^ 16 }
    requires place { d.old.place < 2 ^ 32 - 1 }
    requires mem { length (M.words mem.now) ≡ 4096 }
    ensures { Loads result d.old d.new (M.words mem.now) a (slice_index d.old.regs b + imm) }
{
    match address(d, b, imm) {
        Some(address) => set(d, a, mem.word(address)),
        None => Went::Trap(PAST_MEMORY),
    }
}

/// Stores a register to a word of the memory.
fn store<M: Memory>(d: &mut Dispatcher, mem: &mut M, a: u32, b: u32, imm: u32) -> Went
    requires a { a < 8 }
    requires b { b < 8 }
    requires imm { imm < 2 ^ 16 }
    requires place { d.old.place < 2 ^ 32 - 1 }
    requires mem { length (M.words mem.old) ≡ 4096 }
    requires room { 0 < M.room mem.old }
    ensures store { let address = slice_index d.old.regs b + imm in
        Stores result d.old d.new (M.words mem.old) (M.words mem.new) (slice_index d.old.regs a) address }
    ensures room { M.room mem.old ≤ M.room mem.new + 1 }
{
    match address(d, b, imm) {
        Some(address) => {
            mem.put(address, reg(d, a));
            next(d)
        }
        None => Went::Trap(PAST_MEMORY),
    }
}

/// Reads the time into two registers, the low half first.
fn read_time(d: &mut Dispatcher, time: u64, a: u32, b: u32) -> Went
    requires a { a < 8 }
    requires b { b < 8 }
    requires place { d.old.place < 2 ^ 32 - 1 }
    ensures next { result ≡ Went.Next }
    ensures set { let low = slice_set d.old.regs a (time % 2 ^ 32) in
        d.new ≡ record d.old { regs = slice_set low b (time / 2 ^ 32); place = d.old.place + 1 } }
{
    d.regs[a as usize] = (time % 4294967296) as u32;
    set(d, b, (time / 4294967296) as u32)
}

/// Runs a plain instruction at a time. A halt and a trap change nothing.
#[inline(always)]
#[tactic(auto, unfolding(dc_base::specs::Instructions::is_proper, dc_base::specs::Effects::effect, crate::specs::Calls::call_name))]
pub fn plain<M: Memory>(d: &mut Dispatcher, mem: &mut M, time: u64, instr: &Instr) -> Went
    requires plain { calls.call_name instr.now ≡ None }
    requires proper { IsTrue (is_proper instr.now) }
    requires place { d.old.place < 2 ^ 32 - 1 }
    requires mem { length (M.words mem.old) ≡ 4096 }
    requires room { 0 < M.room mem.old }
    ensures went { let move = effect time (context_of d.old) (M.words mem.old) instr.now in
        Makes result d.old d.new (M.words mem.old) (M.words mem.new) move }
    ensures place { d.new.place ≤ max (d.old.place + 1) 65535 }
    ensures size { length (M.words mem.new) ≡ 4096 }
    ensures room { M.room mem.old ≤ M.room mem.new + 1 }
{
    match *instr {
        Instr::Li { a, imm } => set(d, a, imm),
        Instr::Lih { a, imm } => set(d, a, imm * 65536 + reg(d, a) % 65536),
        Instr::Mov { a, b } => set(d, a, reg(d, b)),
        Instr::Add { a, b } => set(d, a, reg(d, a).wrapping_add(reg(d, b))),
        Instr::Sub { a, b } => set(d, a, reg(d, a).wrapping_sub(reg(d, b))),
        Instr::Mul { a, b } => set(d, a, reg(d, a).wrapping_mul(reg(d, b))),
        Instr::And { a, b } => set(d, a, reg(d, a) & reg(d, b)),
        Instr::Or { a, b } => set(d, a, reg(d, a) | reg(d, b)),
        Instr::Xor { a, b } => set(d, a, reg(d, a) ^ reg(d, b)),
        Instr::Shl { a, b } => set(d, a, reg(d, a).wrapping_shl(reg(d, b))),
        Instr::Shr { a, b } => set(d, a, reg(d, a).wrapping_shr(reg(d, b))),
        Instr::Beq { a, b, imm } => branch(d, reg(d, a) == reg(d, b), imm),
        Instr::Bne { a, b, imm } => branch(d, reg(d, a) != reg(d, b), imm),
        Instr::Bltu { a, b, imm } => branch(d, reg(d, a) < reg(d, b), imm),
        Instr::Jmp { imm } => branch(d, true, imm),
        Instr::Ld { a, b, imm } => load(d, mem, a, b, imm),
        Instr::St { a, b, imm } => store(d, mem, a, b, imm),
        Instr::Rdt { a, b } => read_time(d, time, a, b),
        Instr::Nop => next(d),
        Instr::Halt => Went::Halted,
        _ => unreachable!(),
    }
}
