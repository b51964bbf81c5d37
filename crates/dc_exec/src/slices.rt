//! The plain part of a slice.

ghost use Rattle.std.specs.Prelude.{◌≡◌, ◌≤◌, length, IsTrue};
ghost use Rattle.dc_base.specs.Ahead as spec;
ghost use Rattle.dc_exec.specs.Ends.{end_seen, is_proper_end};
ghost use Rattle.dc_exec.specs.Steps.{context_of, with_context};
ghost use Rattle.dc_exec.specs.Slices.{IsWithin, ran_seen};

use crate::ends::{AheadEnd, Ran};
use crate::memories::Memory;
use crate::turns::{Turn, call_at, run_place};
use crate::windows::Window;
use dc_isa::Dispatcher;

/// Runs the plain part of a slice of at most `quantum` instructions. A halt and a trap are not in the state of the dispatcher yet.
#[inline(always)]
pub fn run<M: Memory>(d: &mut Dispatcher, code: &[u32], mem: &mut M, time: u64, quantum: u32) -> Ran
    requires code { length code.now ≤ 1024 }
    requires mem { length (M.words mem.old) ≡ 4096 }
    requires room { quantum ≤ M.room mem.old }
    ensures value { ran_seen d.new (M.words mem.new) result ≡ spec.ahead time code.now quantum (context_of d.old) (M.words mem.old) }
    ensures same { d.new ≡ with_context d.old (context_of d.new) }
    ensures proper { IsTrue (is_proper_end result.end) }
    ensures within { IsWithin d.old d.new code.now quantum result }
{
    for ran in 0..quantum {
        match run_place(d, code, mem, time) {
            Turn::Next => {}
            Turn::Halted => {
                return Ran {
                    ran: ran + 1,
                    end: AheadEnd::Halt,
                };
            }
            Turn::Trap(x) => {
                return Ran {
                    ran,
                    end: AheadEnd::Trap(x),
                };
            }
            Turn::Call(instr) => {
                return Ran {
                    ran,
                    end: AheadEnd::Call(instr),
                };
            }
        }
    }
    let end = match call_at(code, d.place) {
        Some(instr) => AheadEnd::Call(instr),
        None => AheadEnd::Quantum,
    };
    Ran { ran: quantum, end }
}

/// How the plain part of a slice would end. Nothing is changed.
#[inline(never)]
pub fn end_ahead(d: &Dispatcher, code: &[u32], mem: &[u32], time: u64, quantum: u32) -> AheadEnd
    requires code { length code.now ≤ 1024 }
    requires mem { length mem.now ≡ 4096 }
    requires quantum { quantum ≤ 64 }
    ensures end { end_seen result ≡ (spec.ahead time code.now quantum (context_of d.now) mem.now).end }
    ensures proper { IsTrue (is_proper_end result) }
{
    let mut disp = *d;
    let mut window = Window::over(mem);
    run(&mut disp, code, &mut window, time, quantum).end
}
